//! What an entity offers: the descriptors of the texts of its targets, each with the annotations
//! `backstage.io/managed-by-location` and `backstage.io/managed-by-origin-location` of the Backstage documentation.
ghost use Rattle.std.specs.Prelude.{◌≡◌, ◌++◌, ◌∷◌, [], map, if◌then◌else◌, IfOk, OnOk};
ghost use Rattle.cat_tree.specs.View.{data_of};
ghost use Rattle.cat_process.specs.Offers as spec;
ghost use Rattle.cat_process.specs.Process.{duplicate as the_warning};

use crate::message::spaced;
use cat_inputs::shelf::Listed;
use cat_tree::ask::{child, grandchild};
use cat_tree::clone::copy;
use cat_tree::edit::with_key;
use cat_tree::text::Text;
use cat_tree::tree::{Pairs, Tree};
use cat_types::input::Offered;
use cat_types::issue::{Issue, IssueName, Level};
use cat_types::node::Node;
use cat_types::reference::Ref;
use std::alloc::{AllocError, Global};
use std::collections::BTreeSet;

const LOCATION_KEY: &str = "backstage.io/managed-by-location";

const ORIGIN_KEY: &str = "backstage.io/managed-by-origin-location";

/// Where what an entity offers for a target comes from at first: where the entity itself does, by its annotation, else
/// from the target with this name.
#[tactic(auto, unfolding(crate::specs::Offers::origin_of))]
pub fn origin_of<'a>(parent: &'a Tree, name: &'a str) -> &'a str
    ensures { result.now ≡ spec.origin_of (data_of parent.now) name.now }
{
    match grandchild(parent, "metadata", "annotations") {
        Some(annotations) => match child(annotations, ORIGIN_KEY) {
            Some(Tree::Words(origin)) => origin.as_str(),
            _ => name,
        },
        None => name,
    }
}

// Annotations with the two set that say where an entity comes from.
fn located(alloc: Global, origin: &str, name: &str, annotations: Tree) -> Result<Tree, AllocError>
    ensures { IfOk result (λ t. data_of t ≡ spec.located origin.now name.now (data_of annotations)) }
{
    let name = Tree::Words(Text::of(alloc, name)?);
    let annotations = with_key(alloc, annotations, LOCATION_KEY, name)?;
    let origin = Tree::Words(Text::of(alloc, origin)?);
    with_key(alloc, annotations, ORIGIN_KEY, origin)
}

fn with_annotations(
    alloc: Global,
    tree: &Tree,
    metadata: &Tree,
    annotations: Tree,
) -> Result<Tree, AllocError>
    ensures { IfOk result (λ t. data_of t
        ≡ spec.with_annotations (data_of tree.now) (data_of metadata.now) (data_of annotations)) }
{
    let metadata = copy(alloc, metadata)?;
    let metadata = with_key(alloc, metadata, "annotations", annotations)?;
    let tree = copy(alloc, tree)?;
    with_key(alloc, tree, "metadata", metadata)
}

fn annotated_over(
    alloc: Global,
    origin: &str,
    name: &str,
    tree: &Tree,
    metadata: &Tree,
    annotations: &Tree,
) -> Result<Tree, AllocError>
    ensures { IfOk result (λ t. data_of t ≡ spec.annotated_in origin.now name.now (data_of tree.now)
        (data_of metadata.now) (Some (data_of annotations.now))) }
{
    if !matches!(annotations, Tree::Map(_)) {
        return copy(alloc, tree);
    }
    let annotations = copy(alloc, annotations)?;
    let annotations = located(alloc, origin, name, annotations)?;
    with_annotations(alloc, tree, metadata, annotations)
}

fn annotated_in(
    alloc: Global,
    origin: &str,
    name: &str,
    tree: &Tree,
    metadata: &Tree,
) -> Result<Tree, AllocError>
    ensures { IfOk result (λ t. data_of t
        ≡ spec.annotated_at origin.now name.now (data_of tree.now) (Some (data_of metadata.now))) }
{
    match child(metadata, "annotations") {
        None => {
            let annotations = located(alloc, origin, name, Tree::Map(Pairs::new(alloc)))?;
            with_annotations(alloc, tree, metadata, annotations)
        }
        Some(annotations) => annotated_over(alloc, origin, name, tree, metadata, annotations),
    }
}

/// The tree that is offered in place of a descriptor of the target with this name: the same, with annotations that say
/// that it comes from the target. Where its annotations are there and no map, it is left as it is.
#[tactic(auto, unfolding(crate::specs::Offers::annotated))]
pub fn annotated(alloc: Global, origin: &str, name: &str, tree: &Tree) -> Result<Tree, AllocError>
    ensures { IfOk result (λ t. data_of t ≡ spec.annotated origin.now name.now (data_of tree.now)) }
{
    match child(tree, "metadata") {
        Some(metadata) => annotated_in(alloc, origin, name, tree, metadata),
        None => copy(alloc, tree),
    }
}

fn offer(
    alloc: Global,
    origin: &str,
    name: &str,
    listed: &Listed,
) -> Result<(Ref, Offered), AllocError>
    ensures { IfOk result (λ e. e ≡ spec.offer origin.now name.now listed.now) }
{
    let reference = listed.reference.copy(alloc)?;
    let key = Text::of(alloc, name)?;
    let tree = Node::new(alloc, annotated(alloc, origin, name, listed.tree.tree())?)?;
    Ok((reference, Offered { key, tree }))
}

/// Adds an offer for each descriptor of a target's text.
pub fn push_offers(
    alloc: Global,
    offers: &mut Vec<(Ref, Offered)>,
    origin: &str,
    name: &str,
    listed: &[Listed],
) -> Result<(), AllocError>
    ensures { OnOk result (offers.new.items
        ≡ offers.old.items ++ map (spec.offer origin.now name.now) listed.now) }
{
    for descriptor in listed {
        offers.push(offer(alloc, origin, name, descriptor)?)?;
    }
    Ok(())
}

/// Offers, each reference once, and a warning for each that came later.
#[derive(Drop)]
pub struct Offers {
    pub first: Vec<(Ref, Offered)>,
    pub warnings: Vec<Issue>,
}

// A warning for an offer whose reference is offered before.
fn duplicate(alloc: Global, reference: &Ref, offered: &Offered) -> Result<Issue, AllocError>
    ensures { IfOk result (λ x. x ≡ the_warning (reference.now, offered.now)) }
{
    let message = spaced(alloc, reference.as_str(), offered.key.as_str())?;
    Ok(Issue {
        level: Level::Warning,
        name: IssueName::DuplicateOffer,
        message,
    })
}

impl Offers {
    // The offer where its reference is new, else a warning.
    fn add(
        &mut self,
        alloc: Global,
        is_new: bool,
        reference: Ref,
        offered: Offered,
    ) -> Result<(), AllocError>
        ensures first { OnOk result (self.new.first.items
            ≡ self.old.first.items ++ (if is_new then (reference, offered) ∷ [] else [])) }
        ensures warnings { OnOk result (self.new.warnings.items
            ≡ self.old.warnings.items ++ (if is_new then [] else the_warning (reference, offered) ∷ [])) }
    {
        if is_new {
            self.first.push((reference, offered))?;
            Ok(())
        } else {
            self.warnings.push(duplicate(alloc, &reference, &offered)?)?;
            Ok(())
        }
    }
}

/// The first offer of each reference, and a warning for each later one.
pub fn each_once(alloc: Global, offers: Vec<(Ref, Offered)>) -> Result<Offers, AllocError>
    ensures first { IfOk result (λ o. o.first.items ≡ spec.firsts [] offers.items) }
    ensures warnings { IfOk result (λ o. o.warnings.items ≡ map the_warning (spec.repeats [] offers.items)) }
{
    let mut seen = BTreeSet::new(alloc);
    let mut found = Offers {
        first: Vec::new(alloc),
        warnings: Vec::new(alloc),
    };
    for (reference, offered) in offers {
        let is_new = seen.insert(reference.copy(alloc)?)?;
        found.add(alloc, is_new, reference, offered)?;
    }
    Ok(found)
}
