//! The rules of a descriptor, one after the other.
ghost use Rattle.std.specs.List.{list_any};
ghost use Rattle.std.specs.Prelude.{◌≡◌, bytes_eq, ℕ, List, [], Ok, ◌++◌, map, option_map, IfOk, OnOk};
ghost use Rattle.cat_types.specs.Reference.{described};
ghost use Rattle.cat_tree.specs.Data.{Data};
ghost use Rattle.cat_tree.specs.View.{data_of};
ghost use Rattle.cat_tree.specs.Ask.{child_of};
ghost use Rattle.cat_schema.specs.Faults.{below, members};
ghost use Rattle.cat_schema.specs.Fields.{row_of};
ghost use Rattle.cat_schema.specs.Order.{RisesWithin};
ghost use Rattle.cat_schema.specs.Rules.{rule_2, rule_3, rule_4, rule_5, rule_6, rule_7, rule_8, rule_9, rule_10, rule_11, rule_12, rule_13, rule_14, rule_15, rule_16, rule_17, rule_18, rule_19, rule_20, is_among, may_have_single, single_reference, rule_21, may_be_list, list_reference, rule_22, profile, targets, spec as spec_key, rule_23, rule_24, of_metadata, of_spec, of_map, of_kind, kind_of, of_root, breaches};

use crate::faults::{Faults, SchemaFault};
use crate::field::{RefField, fields, has_field};
use crate::form::{Form, Wanted, has_form};
use crate::kind::{Kind, kind_named, required_lists, required_texts};
use cat_tree::ask::child;
use cat_tree::tree::Tree;
use std::alloc::{AllocError, Global};

// What must hold of the root: it has a version, a kind and metadata.
fn check_root(faults: &mut Faults, tree: &Tree) -> Result<(), AllocError>
    ensures { OnOk result (faults.new ≡ faults.old
        ++ (rule_2 (data_of tree.now) ++ (rule_3 (data_of tree.now) ++ rule_4 (data_of tree.now)))) }
{
    faults.field(2, Wanted::Needed(Form::ApiVersion), tree, "", "apiVersion")?;
    faults.field(3, Wanted::Needed(Form::KindName), tree, "", "kind")?;
    faults.field(4, Wanted::Needed(Form::Map), tree, "", "metadata")
}

fn check_names(faults: &mut Faults, metadata: &Tree) -> Result<(), AllocError>
    ensures { OnOk result (faults.new ≡ faults.old
        ++ (rule_5 (data_of metadata.now) ++ (rule_6 (data_of metadata.now)
        ++ (rule_7 (data_of metadata.now) ++ rule_8 (data_of metadata.now))))) }
{
    faults.field(5, Wanted::Needed(Form::Name), metadata, "metadata", "name")?;
    faults.field(
        6,
        Wanted::Optional(Form::Namespace),
        metadata,
        "metadata",
        "namespace",
    )?;
    faults.field(
        7,
        Wanted::Optional(Form::Words),
        metadata,
        "metadata",
        "title",
    )?;
    faults.field(
        8,
        Wanted::Optional(Form::Words),
        metadata,
        "metadata",
        "description",
    )
}

fn check_labels(faults: &mut Faults, metadata: &Tree) -> Result<(), AllocError>
    ensures { OnOk result (faults.new
        ≡ faults.old ++ (rule_9 (data_of metadata.now) ++ rule_10 (data_of metadata.now))) }
{
    let labels = child(metadata, "labels");
    faults.field(
        9,
        Wanted::Optional(Form::Map),
        metadata,
        "metadata",
        "labels",
    )?;
    faults.keys(9, labels, "metadata.labels")?;
    faults.values(10, Form::NameOrEmpty, labels, "metadata.labels")
}

fn check_annotations(faults: &mut Faults, metadata: &Tree) -> Result<(), AllocError>
    ensures { OnOk result (faults.new
        ≡ faults.old ++ (rule_11 (data_of metadata.now) ++ rule_12 (data_of metadata.now))) }
{
    let annotations = child(metadata, "annotations");
    faults.field(
        11,
        Wanted::Optional(Form::Map),
        metadata,
        "metadata",
        "annotations",
    )?;
    faults.keys(11, annotations, "metadata.annotations")?;
    faults.values(12, Form::Words, annotations, "metadata.annotations")
}

fn check_tags(faults: &mut Faults, metadata: &Tree) -> Result<(), AllocError>
    ensures { OnOk result (faults.new
        ≡ faults.old ++ (rule_13 (data_of metadata.now) ++ rule_14 (data_of metadata.now))) }
{
    faults.field(
        13,
        Wanted::Optional(Form::List),
        metadata,
        "metadata",
        "tags",
    )?;
    faults.members(14, Form::Tag, child(metadata, "tags"), "metadata.tags")
}

fn check_links(faults: &mut Faults, metadata: &Tree) -> Result<(), AllocError>
    ensures { OnOk result (faults.new ≡ faults.old
        ++ (rule_15 (data_of metadata.now) ++ (rule_16 (data_of metadata.now) ++ rule_17 (data_of metadata.now)))) }
{
    let links = child(metadata, "links");
    faults.field(
        15,
        Wanted::Optional(Form::List),
        metadata,
        "metadata",
        "links",
    )?;
    faults.members(16, Form::Link, links, "metadata.links")?;
    faults.member_fields(
        17,
        Wanted::Optional(Form::Words),
        links,
        "metadata.links",
        &["title", "icon", "type"],
    )
}

#[tactic(auto, using(crate::proofs::Joins::joins), unfolding(crate::specs::Rules::of_metadata))]
fn check_metadata(faults: &mut Faults, metadata: &Tree) -> Result<(), AllocError>
    ensures { OnOk result (faults.new ≡ faults.old ++ of_metadata (data_of metadata.now)) }
{
    check_names(faults, metadata)?;
    check_labels(faults, metadata)?;
    check_annotations(faults, metadata)?;
    check_tags(faults, metadata)?;
    check_links(faults, metadata)
}

#[tactic(auto, unfolding(crate::specs::Rules::rule_19))]
fn check_required_texts(faults: &mut Faults, kind: Kind, spec: &Tree) -> Result<(), AllocError>
    ensures { OnOk result (faults.new ≡ faults.old ++ rule_19 kind (data_of spec.now)) }
{
    let wanted = Wanted::Needed(Form::Filled);
    faults.fields(19, wanted, spec, "spec", required_texts(kind))
}

#[tactic(auto, unfolding(crate::specs::Rules::rule_20))]
fn check_required_lists(faults: &mut Faults, kind: Kind, spec: &Tree) -> Result<(), AllocError>
    ensures { OnOk result (faults.new ≡ faults.old ++ rule_20 kind (data_of spec.now)) }
{
    let wanted = Wanted::Needed(Form::List);
    faults.fields(20, wanted, spec, "spec", required_lists(kind))
}

fn has_key(keys: &[&str], wanted: &str) -> bool
    ensures { result ≡ list_any (λ k. bytes_eq k.now wanted.now) keys.now }
{
    keys.iter().any(|key| *key == wanted)
}

fn is_among(key: &str, keys: &[&str]) -> bool
    ensures { result ≡ is_among key.now (map (λ k. k.now) keys.now) }
{
    has_key(keys, key)
}

fn may_have_single(kind: Kind, field: &RefField) -> bool
    ensures { result ≡ may_have_single kind (row_of field.now) }
{
    has_field(kind, field) && !field.is_list && !is_among(field.key, required_texts(kind))
}

fn check_single_reference(
    faults: &mut Faults,
    kind: Kind,
    spec: &Tree,
    field: &RefField,
) -> Result<(), AllocError>
    ensures { OnOk result (faults.new
        ≡ faults.old ++ single_reference kind (data_of spec.now) (row_of field.now)) }
{
    if may_have_single(kind, field) {
        let wanted = Wanted::Optional(Form::Filled);
        faults.field(21, wanted, spec, "spec", field.key)
    } else {
        Ok(())
    }
}

#[tactic(auto, unfolding(crate::specs::Rules::rule_21))]
fn check_single_references(faults: &mut Faults, kind: Kind, spec: &Tree) -> Result<(), AllocError>
    ensures { OnOk result (faults.new ≡ faults.old ++ rule_21 kind (data_of spec.now)) }
{
    for field in fields() {
        check_single_reference(faults, kind, spec, field)?;
    }
    Ok(())
}

fn check_list(
    faults: &mut Faults,
    kind: Kind,
    spec: &Tree,
    field: &RefField,
) -> Result<(), AllocError>
    ensures { OnOk result (faults.new
        ≡ faults.old ++ may_be_list kind (data_of spec.now) (row_of field.now)) }
{
    if is_among(field.key, required_lists(kind)) {
        Ok(())
    } else {
        let wanted = Wanted::Optional(Form::List);
        faults.field(22, wanted, spec, "spec", field.key)
    }
}

fn check_listed(
    faults: &mut Faults,
    kind: Kind,
    spec: &Tree,
    field: &RefField,
) -> Result<(), AllocError>
    ensures { OnOk result (faults.new ≡ faults.old ++ (may_be_list kind (data_of spec.now) (row_of field.now)
        ++ members 22 Form.Filled (child_of field.now.key.now (data_of spec.now)) (below spec_key field.now.key.now))) }
{
    check_list(faults, kind, spec, field)?;
    faults.members_at(22, Form::Filled, spec, "spec", field.key)
}

fn check_list_reference(
    faults: &mut Faults,
    kind: Kind,
    spec: &Tree,
    field: &RefField,
) -> Result<(), AllocError>
    ensures { OnOk result (faults.new
        ≡ faults.old ++ list_reference kind (data_of spec.now) (row_of field.now)) }
{
    if has_field(kind, field) && field.is_list {
        check_listed(faults, kind, spec, field)
    } else {
        Ok(())
    }
}

#[tactic(auto, unfolding(crate::specs::Rules::rule_22))]
fn check_list_references(faults: &mut Faults, kind: Kind, spec: &Tree) -> Result<(), AllocError>
    ensures { OnOk result (faults.new ≡ faults.old ++ rule_22 kind (data_of spec.now)) }
{
    for field in fields() {
        check_list_reference(faults, kind, spec, field)?;
    }
    Ok(())
}

fn check_profile_fields(faults: &mut Faults, spec: &Tree) -> Result<(), AllocError>
    ensures { OnOk result (faults.new ≡ faults.old ++ profile (data_of spec.now)) }
{
    faults.field(23, Wanted::Optional(Form::Map), spec, "spec", "profile")?;
    faults.part_fields(
        23,
        Wanted::Optional(Form::Words),
        child(spec, "profile"),
        "spec.profile",
        &["displayName", "email", "picture"],
    )
}

#[tactic(auto, unfolding(crate::specs::Rules::rule_23))]
fn check_profile(faults: &mut Faults, kind: Kind, spec: &Tree) -> Result<(), AllocError>
    ensures { OnOk result (faults.new ≡ faults.old ++ rule_23 kind (data_of spec.now)) }
{
    match kind {
        Kind::Group | Kind::User => check_profile_fields(faults, spec),
        _ => Ok(()),
    }
}

fn check_target_fields(faults: &mut Faults, spec: &Tree) -> Result<(), AllocError>
    ensures { OnOk result (faults.new ≡ faults.old ++ targets (data_of spec.now)) }
{
    faults.field(
        24,
        Wanted::Optional(Form::LocationType),
        spec,
        "spec",
        "type",
    )?;
    faults.field(24, Wanted::Optional(Form::Words), spec, "spec", "target")?;
    faults.lists(24, Form::Words, spec, "spec", &["targets"])?;
    faults.field(
        24,
        Wanted::Optional(Form::Presence),
        spec,
        "spec",
        "presence",
    )
}

#[tactic(auto, unfolding(crate::specs::Rules::rule_24))]
fn check_location(faults: &mut Faults, kind: Kind, spec: &Tree) -> Result<(), AllocError>
    ensures { OnOk result (faults.new ≡ faults.old ++ rule_24 kind (data_of spec.now)) }
{
    match kind {
        Kind::Location => check_target_fields(faults, spec),
        _ => Ok(()),
    }
}

#[tactic(auto, using(crate::proofs::Joins::joins), unfolding(crate::specs::Rules::of_spec))]
fn check_spec(faults: &mut Faults, kind: Kind, spec: &Tree) -> Result<(), AllocError>
    ensures { OnOk result (faults.new ≡ faults.old ++ of_spec kind (data_of spec.now)) }
{
    check_required_texts(faults, kind, spec)?;
    check_required_lists(faults, kind, spec)?;
    check_single_references(faults, kind, spec)?;
    check_list_references(faults, kind, spec)?;
    check_profile(faults, kind, spec)?;
    check_location(faults, kind, spec)
}

fn check_metadata_part(faults: &mut Faults, part: Option<&Tree>) -> Result<(), AllocError>
    ensures { OnOk result (faults.new
        ≡ faults.old ++ of_map of_metadata (option_map (λ t. data_of t.now) part.entry)) }
{
    match part {
        Some(metadata) if has_form(Form::Map, metadata) => check_metadata(faults, metadata),
        _ => Ok(()),
    }
}

/// The kind that a descriptor names, if it is one of the eight. Takes no memory.
pub fn kind_of(tree: &Tree) -> Option<Kind>
    ensures { result ≡ kind_of (data_of tree.now) }
{
    match child(tree, "kind") {
        Some(Tree::Words(name)) => kind_named(name.as_str()),
        _ => None,
    }
}

fn check_spec_part(
    faults: &mut Faults,
    kind: Option<Kind>,
    part: Option<&Tree>,
) -> Result<(), AllocError>
    ensures { OnOk result (faults.new
        ≡ faults.old ++ of_kind kind (option_map (λ t. data_of t.now) part.entry)) }
{
    match (kind, part) {
        (Some(kind), Some(spec)) if has_form(Form::Map, spec) => check_spec(faults, kind, spec),
        _ => Ok(()),
    }
}

#[tactic(auto, using(crate::proofs::Joins::joins), unfolding(crate::specs::Rules::of_root))]
fn check_whole(faults: &mut Faults, tree: &Tree) -> Result<(), AllocError>
    ensures { OnOk result (faults.new ≡ faults.old ++ of_root (data_of tree.now)) }
{
    check_root(faults, tree)?;
    check_metadata_part(faults, child(tree, "metadata"))?;
    faults.field(18, Wanted::Needed(Form::Map), tree, "", "spec")?;
    check_spec_part(faults, kind_of(tree), child(tree, "spec"))
}

/// The breaches of a descriptor, by rule and then by position: members of lists by position, of maps by
/// key, the fields of one rule in the order of the Descriptor Format. Empty exactly where every rule
/// holds.
#[tactic(auto, unfolding(crate::specs::Rules::breaches))]
pub fn check(alloc: Global, tree: &Tree) -> Result<Vec<SchemaFault>, AllocError>
    ensures { IfOk result (λ faults. faults.items ≡ breaches (data_of tree.now)) }
{
    let mut faults = Faults::new(alloc);
    let is_map = has_form(Form::Map, tree);
    faults.expect_root(is_map, 1)?;
    if is_map {
        check_whole(&mut faults, tree)?;
    }
    Ok(faults.into_vec())
}

/// A descriptor with no breaches names an entity.
pub fn sound_names_entity()
    ensures { (t : Data) → breaches t ≡ [] → (r : List ℕ) × (described t ≡ Ok r) }
{}

/// Breaches stand by rule, from 1 to 24.
pub fn breaches_stand_by_rule()
    ensures { (t : Data) → RisesWithin 1 24 (breaches t) }
{}
