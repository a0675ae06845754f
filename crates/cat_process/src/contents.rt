//! The files that an entity wants, and what the shelf has for them.
ghost use Rattle.std.specs.Prelude.{◌≡◌, ◌⊎◌, ◌==◌, [], map, length, IfOk, IfErr, Ok, Err, if◌then◌else◌};
ghost use Rattle.std.specs.Option.{option_copied};
ghost use Rattle.cat_tree.specs.View.{data_of};
ghost use Rattle.cat_process.specs.Process as spec;
ghost use Rattle.cat_schema.specs.Rules.{breaches};
ghost use Rattle.cat_target.specs.Targets.{targets_of, unless_faulty};

use cat_collections::listing::{Copied, Listing};
use cat_collections::map::Map;
use cat_schema::rules::check;
use cat_target::target::{Target, TargetFault, targets, targets_unless_faulty};
use cat_tree::ask::child;
use cat_tree::text::Text;
use cat_tree::tree::Tree;
use cat_types::node::Node;
use cat_types::work::Content;
use std::alloc::{AllocError, Global};

/// Whether the kind of the entity is Location, spelled so.
#[tactic(auto, unfolding(crate::specs::Process::is_location))]
pub fn is_location(tree: &Tree) -> bool
    ensures { result ≡ spec.is_location (data_of tree.now) }
{
    match child(tree, "kind") {
        Some(Tree::Words(kind)) => kind.as_str() == "Location",
        _ => false,
    }
}

/// The targets of a Location or its target fault; an entity of another kind has no targets.
pub fn entity_targets(alloc: Global, tree: &Tree) -> Result<Vec<Target>, TargetFault>
    ensures ok { IfOk result (λ v. spec.entity_targets (data_of tree.now) ≡ Ok v.items) }
    ensures err { IfErr result (λ e. (spec.entity_targets (data_of tree.now) ≡ Err e)
        ⊎ (e ≡ TargetFault.NoMemory)) }
{
    if is_location(tree) {
        targets(alloc, tree)
    } else {
        Ok(Vec::new(alloc))
    }
}

// The targets of a Location that breaks no rule and has no target fault, else none.
fn faultless_targets(alloc: Global, tree: &Tree) -> Result<Vec<Target>, AllocError>
    ensures { IfOk result (λ v. v.items ≡ (if length (breaches (data_of tree.now)) == 0
        then unless_faulty (targets_of (data_of tree.now)) else [])) }
{
    let faults = check(alloc, tree)?;
    if faults.is_empty() {
        targets_unless_faulty(alloc, tree)
    } else {
        Ok(Vec::new(alloc))
    }
}

/// The files that an entity wants: the targets of a Location that breaks no rule of the descriptor format and has no
/// target fault, and none of another entity, whose rules aren't asked. The only refusal is want of memory.
pub fn wanted(alloc: Global, tree: &Tree) -> Result<Vec<Target>, AllocError>
    ensures { IfOk result (λ v. v.items ≡ spec.wanted_of (data_of tree.now)) }
{
    if is_location(tree) {
        faultless_targets(alloc, tree)
    } else {
        Ok(Vec::new(alloc))
    }
}

fn copied(alloc: Global, text: Option<&Text>) -> Result<Option<Text>, AllocError>
    ensures { IfOk result (λ t. t ≡ option_copied text.entry) }
{
    match text {
        Some(text) => Ok(Some(text.duplicate(alloc)?)),
        None => Ok(None),
    }
}

// The text that the shelf has for a target.
fn content_from(
    alloc: Global,
    shelf: &Map<Text, Text>,
    target: Target,
) -> Result<Content, AllocError>
    ensures { IfOk result (λ c. c ≡ spec.content_from shelf.now target) }
{
    let body = copied(alloc, shelf.get(&target.name))?;
    Ok(Content {
        name: target.name,
        body,
    })
}

fn contents_from(
    alloc: Global,
    shelf: &Map<Text, Text>,
    targets: Vec<Target>,
) -> Result<Listing<Content>, AllocError>
    ensures { IfOk result (λ c. c ≡ map (spec.content_from shelf.now) targets.items) }
{
    let mut contents = Vec::new(alloc);
    for target in targets {
        contents.push(content_from(alloc, shelf, target)?)?;
    }
    Ok(Listing::from_vec(contents))
}

/// The contents of an entity: for each file that it wants, in the order of its targets, the text that the shelf has under
/// the file's name, or nothing. The only refusal is want of memory.
#[tactic(auto, unfolding(crate::specs::Process::contents_of))]
pub fn contents(
    alloc: Global,
    tree: &Node,
    shelf: &Map<Text, Text>,
) -> Result<Listing<Content>, AllocError>
    ensures { IfOk result (λ c. c ≡ spec.contents_of tree.now shelf.now) }
{
    let targets = wanted(alloc, tree.tree())?;
    contents_from(alloc, shelf, targets)
}
