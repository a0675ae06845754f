//! References of entities, each its full text `kind:namespace/name`, after the Backstage documentation's
//! page on entity references.
ghost use Rattle.std.specs.Prelude.{◌≡◌, ◌↔◌, ℕ, List, Option, ◌==◌, ◌⊎◌, IfOk, IfErr, IsSome, IsTrue, Ok, Err, string_bytes, option_map, codes};
ghost use Rattle.std.proofs.Common.{rules};
ghost use Rattle.std.specs.Cmp.{partial_order_from_own_ties};
ghost use Rattle.std.specs.Cmp.Lexicographic.{slice_cmp, pointwise};
ghost use Rattle.std.specs.Cmp.Rules.{comparing};
ghost use Rattle.std.specs.Ordering.{nat_cmp, as_partial_cmp};
ghost use Rattle.std.specs.Arc.{arc_value};
ghost use Rattle.std.specs.Option.{option_copied};
ghost use Rattle.cat_key.specs.Texts.{text_antisymmetric, text_cmp, text_total};
ghost use Rattle.cat_tree.specs.View.{data_of};
ghost use Rattle.cat_types.specs.Pieces.{pieces_of};
ghost use Rattle.cat_types.specs.Reading.{reading};
ghost use Rattle.cat_types.specs.Reference.{IsReference, is_map, text_in, text_at, part_or, full_text, named, parsed, described};

use crate::fault::RefFault;
use crate::names::{is_kind, is_name, is_namespace};
use crate::split::{RefParts, split};
use cat_key::copied::Copied;
use cat_key::key::Key;
use cat_tree::ask::child;
use cat_tree::text::Text;
use cat_tree::tree::Tree;
use std::alloc::{AllocError, Global};
use std::cmp::Ordering;
use std::marker::Model;
use std::sync::Arc;

/// A kind, a namespace and a name of their forms, folded to lower case in ASCII. Contracts see the full
/// text `kind:namespace/name`, by which references are ordered. Copies share it.
pub struct Ref {
    text: Arc<Text, Global>,
}

// Written out, and not derived: so the crates above let go of a reference by one call.
impl Drop for Ref {
    fn drop(self) {
        let Ref { text: _ } = self;
    }
}

impl Model for Ref {
    ghost use Rattle.std.specs.Prelude.{ℕ, List};
    ghost use Rattle.std.specs.Arc.{arc_value};
    ghost use Rattle.cat_types.specs.Reference.{IsReference};

    ghost Value = { List ℕ };

    ghost view = { λ a. arc_value a.text };

    ghost invariant = { λ a. IsReference (arc_value a.text) };
}

impl Ref {
    /// Lends the full text.
    pub fn as_str(&self) -> &str
        ensures { result.now ≡ self.now }
    {
        self.text.as_str()
    }

    /// An equal reference that shares the text, in a time that doesn't grow with it. Takes no memory.
    pub fn copy(&self, _alloc: Global) -> Result<Ref, AllocError>
        ensures { IfOk result (λ r. r ≡ self.now) }
    {
        Ok(Ref {
            text: Arc::try_clone(&self.text)?,
        })
    }

    /// Whether the references are equal: whether they name the same entity.
    pub fn same(&self, other: &Ref) -> bool
        ensures { IsTrue result ↔ (self.now ≡ other.now) }
    {
        self.as_str() == other.as_str()
    }

    /// Lends the kind, the namespace and the name, in lower case.
    pub fn parts(&self) -> RefParts<'_>
        ensures reading { reading self.now ≡ Some (pieces_of result) }
        ensures all { IsSome result.kind × IsSome result.namespace }
    {
        parts_of(self.text.as_str())
    }

    /// The text of a reference names the reference, whatever the defaults.
    pub fn parses_back(&self)
        ensures { (kind : Option (List ℕ)) (namespace : List ℕ)
            → parsed self.now kind namespace ≡ Ok self.now }
    {
        let _text = &self.text;
    }
}

impl Key for Ref {
    ghost order = { text_cmp };

    ghost total = { text_total };

    ghost apart = { text_antisymmetric };

    fn compare(&self, other: &Ref) -> Ordering {
        self.as_str().cmp(other.as_str())
    }
}

impl Copied for Ref {
    fn duplicate(&self, alloc: Global) -> Result<Ref, AllocError> {
        self.copy(alloc)
    }
}

fn parts_of(text: &str) -> RefParts<'_>
    requires { IsReference text.now }
    ensures reading { reading text.now ≡ Some (pieces_of result) }
    ensures all { IsSome result.kind × IsSome result.namespace }
{
    match split(text) {
        Ok(parts) => parts,
        Err(_) => unreachable!(),
    }
}

fn joined(alloc: Global, kind: &str, namespace: &str, name: &str) -> Result<String, AllocError>
    ensures { IfOk result (λ s. string_bytes s ≡ full_text kind.now namespace.now name.now) }
{
    let mut text = String::from_str(alloc, kind)?;
    text.push_str(":")?;
    text.push_str(namespace)?;
    text.push_str("/")?;
    text.push_str(name)?;
    text.make_ascii_lowercase();
    Ok(text)
}

// The reference of three parts.
#[tactic(auto, unfolding(crate::specs::Reference::named))]
fn of_parts(alloc: Global, kind: &str, namespace: &str, name: &str) -> Result<Ref, RefFault>
    ensures ok { IfOk result (λ r. named kind.now namespace.now name.now ≡ Ok r) }
    ensures err { IfErr result (λ e. (e ≡ RefFault.NoMemory)
        ⊎ (named kind.now namespace.now name.now ≡ Err e)) }
{
    if !is_kind(kind) {
        return Err(RefFault::BadKind);
    }
    if !is_namespace(namespace) {
        return Err(RefFault::BadNamespace);
    }
    if !is_name(name) {
        return Err(RefFault::BadName);
    }
    let text = joined(alloc, kind, namespace, name)?;
    Ok(Ref {
        text: Arc::new(alloc, Text::from_string(text))?,
    })
}

/// The reference that a text `[kind:][namespace/]name` names, with a default for each part that may be
/// left out. It is refused by the first of these that holds: `Shape`, `NoKind` where neither text nor
/// caller gives a kind, `BadKind`, `BadNamespace`, `BadName`.
pub fn parse(
    alloc: Global,
    text: &str,
    default_kind: Option<&str>,
    default_namespace: &str,
) -> Result<Ref, RefFault>
    ensures ok { IfOk result (λ r. parsed text.now (option_copied default_kind.entry) default_namespace.now ≡ Ok r) }
    ensures err { IfErr result (λ e. (e ≡ RefFault.NoMemory)
        ⊎ (parsed text.now (option_copied default_kind.entry) default_namespace.now ≡ Err e)) }
{
    let parts = split(text)?;
    let kind = match parts.kind.or(default_kind) {
        Some(kind) => kind,
        None => return Err(RefFault::NoKind),
    };
    of_parts(
        alloc,
        kind,
        parts.namespace.unwrap_or(default_namespace),
        parts.name,
    )
}

/// The full text `kind:namespace/name`, with memory of its own.
pub fn text(alloc: Global, reference: &Ref) -> Result<Text, AllocError>
    ensures { IfOk result (λ t. t ≡ reference.now) }
{
    Text::of(alloc, reference.as_str())
}

fn is_map(tree: &Tree) -> bool
    ensures { result ≡ is_map (data_of tree.now) }
{
    matches!(tree, Tree::Map(_))
}

/// Lends the text, if the tree is one.
pub fn text_in(tree: &Tree) -> Option<&str>
    ensures { option_copied result ≡ text_in (data_of tree.now) }
{
    match tree {
        Tree::Words(text) => Some(text.as_str()),
        _ => None,
    }
}

/// Lends the text of a part, if it is there and a text.
pub fn text_at<'a>(part: Option<&'a Tree>) -> Option<&'a str>
    ensures { option_copied result ≡ text_at (option_map (λ t. data_of t.now) part.entry) }
{
    match part {
        Some(tree) => text_in(tree),
        None => None,
    }
}

fn part_or<'a>(missing: &'a str, part: Option<&'a Tree>) -> &'a str
    ensures { result.now ≡ part_or missing.now (option_map (λ t. data_of t.now) part.entry) }
{
    match part {
        Some(tree) => match text_in(tree) {
            Some(text) => text,
            None => "",
        },
        None => missing,
    }
}

/// The reference that a descriptor names by `kind`, `metadata.namespace`, which is `default` where it is
/// absent, and `metadata.name`. It is refused by the first of these that holds: `Shape` where the root
/// or `metadata` isn't a map, `NoKind` where `kind` isn't a text, `BadKind`, `BadNamespace`, `BadName`,
/// where a namespace or name that isn't a text breaks its rule.
pub fn ref_of(alloc: Global, tree: &Tree) -> Result<Ref, RefFault>
    ensures ok { IfOk result (λ r. described (data_of tree.now) ≡ Ok r) }
    ensures err { IfErr result (λ e. (e ≡ RefFault.NoMemory)
        ⊎ (described (data_of tree.now) ≡ Err e)) }
{
    let metadata = match child(tree, "metadata") {
        Some(metadata) => metadata,
        None => return Err(RefFault::Shape),
    };
    if !is_map(metadata) {
        return Err(RefFault::Shape);
    }
    let kind = match text_at(child(tree, "kind")) {
        Some(kind) => kind,
        None => return Err(RefFault::NoKind),
    };
    let namespace = part_or("default", child(metadata, "namespace"));
    let name = part_or("", child(metadata, "name"));
    of_parts(alloc, kind, namespace, name)
}

// References are ordered by their text.
impl PartialEq for Ref {
    ghost eq = { pointwise ◌==◌ };

    ghost laws = { Prim.search (comparing, rules) };

    fn eq(&self, other: &Ref) -> bool {
        self.as_str() == other.as_str()
    }
}

impl Eq for Ref {
    ghost laws = { Prim.search (comparing, rules) };
}

impl Ord for Ref {
    ghost cmp = { slice_cmp nat_cmp };

    ghost total = { Prim.search (comparing, rules) };

    ghost matches_partial_cmp = { Prim.search (comparing, rules) };

    ghost matches_eq = { Prim.search (comparing, rules) };

    fn cmp(&self, other: &Ref) -> Ordering {
        self.as_str().cmp(other.as_str())
    }
}

impl PartialOrd for Ref {
    ghost partial_cmp = { as_partial_cmp (slice_cmp nat_cmp) };

    ghost laws = { partial_order_from_own_ties (Prim.search (comparing, rules)) (Prim.search (comparing, rules)) };

    fn partial_cmp(&self, other: &Ref) -> Option<Ordering> {
        Some(self.cmp(other))
    }
}
