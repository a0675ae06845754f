//! Changes read from JSON.
ghost use Rattle.std.specs.Prelude.{◌≡◌, ◌⊎◌, ◌+◌, ◌^◌, ◌<◌, map, option_map, length, IfOk, IfErr, Ok, Err};
ghost use Rattle.std.specs.Option.{option_copied};
ghost use Rattle.cat_tree.specs.Data.{items_of};
ghost use Rattle.cat_tree.specs.View.{data_of};
ghost use Rattle.cat_feed.specs.Read as spec;

use crate::change::{Change, Changes, Since};
use crate::place::since_of;
use crate::text_fault::{ChangesFault, Field, json_fault};
use cat_collections::listing::Listing;
use cat_inputs::text::read_tree;
use cat_tree::ask::child;
use cat_tree::clone::copy;
use cat_tree::tree::Tree;
use cat_types::fault::RefFault;
use cat_types::node::Node;
use cat_types::reference::{Ref, parse, text_at};
use std::alloc::{AllocError, Global};

/// The changes that the bytes are, as JSON (RFC 8259): an object with `changes`, a list of objects with `entityRef`, a
/// reference that is read without a default kind and with the namespace `default`, and, where the document is set, `set`, any
/// value; with `from`, null or a place; and with `to`, a place. Other fields are ignored. The changes are numbered from 1 in
/// the order of the list.
#[tactic(auto, unfolding(crate::specs::Read::changes_of))]
pub fn read_changes(alloc: Global, bytes: &[u8]) -> Result<Changes, ChangesFault>
    ensures ok { IfOk result (λ c. spec.changes_of bytes.now ≡ Ok c) }
    ensures err { IfErr result (λ e. (spec.changes_of bytes.now ≡ Err e) ⊎ (e ≡ ChangesFault.NoMemory)) }
{
    match read_tree(alloc, bytes) {
        Ok(tree) => changes_in(alloc, &tree),
        Err(fault) => Err(json_fault(fault)),
    }
}

// The changes that a tree is.
fn changes_in(alloc: Global, tree: &Tree) -> Result<Changes, ChangesFault>
    ensures ok { IfOk result (λ c. spec.changes_in (data_of tree.now) ≡ Ok c) }
    ensures err { IfErr result (λ e. (spec.changes_in (data_of tree.now) ≡ Err e) ⊎ (e ≡ ChangesFault.NoMemory)) }
{
    let list = list_in(alloc, tree)?;
    let from = from_in(tree)?;
    let to = to_in(tree)?;
    Ok(Changes {
        from,
        to,
        list: Listing::from_vec(list),
    })
}

// The changes under `changes`.
fn list_in(alloc: Global, tree: &Tree) -> Result<Vec<Change>, ChangesFault>
    ensures ok { IfOk result (λ v. spec.list_in (data_of tree.now) ≡ Ok v.items) }
    ensures err { IfErr result (λ e. (spec.list_in (data_of tree.now) ≡ Err e) ⊎ (e ≡ ChangesFault.NoMemory)) }
{
    match child(tree, "changes") {
        Some(Tree::List(trees)) => changes_from(alloc, trees.as_slice()),
        _ => Err(ChangesFault::Shape(Field::Changes)),
    }
}

// The changes that the members of a list are, numbered from 1.
fn changes_from(alloc: Global, trees: &[Tree]) -> Result<Vec<Change>, ChangesFault>
    ensures ok { IfOk result (λ v. spec.changes_from 0 (items_of (map data_of trees.now)) ≡ Ok v.items) }
    ensures err { IfErr result (λ e. (spec.changes_from 0 (items_of (map data_of trees.now)) ≡ Err e) ⊎ (e ≡ ChangesFault.NoMemory)) }
{
    let mut changes = Vec::new(alloc);
    for (place, tree) in trees.iter().enumerate() {
        changes.push(change_in(alloc, place as u64 + 1, tree)?)?;
    }
    Ok(changes)
}

// The change that a member of a list is.
fn change_in(alloc: Global, number: u64, tree: &Tree) -> Result<Change, ChangesFault>
    ensures ok { IfOk result (λ c. spec.change_in number (data_of tree.now) ≡ Ok c) }
    ensures err { IfErr result (λ e. (spec.change_in number (data_of tree.now) ≡ Err e) ⊎ (e ≡ ChangesFault.NoMemory)) }
{
    let reference = reference_in(alloc, text_at(child(tree, "entityRef")))?;
    let set = node_of(alloc, child(tree, "set"))?;
    Ok(Change {
        number,
        reference,
        set,
    })
}

// The reference that a text names.
fn reference_in(alloc: Global, text: Option<&str>) -> Result<Ref, ChangesFault>
    ensures ok { IfOk result (λ r. spec.reference_in (option_copied text.entry) ≡ Ok r) }
    ensures err { IfErr result (λ e. (spec.reference_in (option_copied text.entry) ≡ Err e) ⊎ (e ≡ ChangesFault.NoMemory)) }
{
    match text {
        Some(text) => match parse(alloc, text, None, "default") {
            Ok(reference) => Ok(reference),
            Err(RefFault::NoMemory) => Err(ChangesFault::NoMemory),
            Err(_) => Err(ChangesFault::Shape(Field::Changes)),
        },
        None => Err(ChangesFault::Shape(Field::Changes)),
    }
}

// A copy of the tree, if there is one.
fn node_of(alloc: Global, tree: Option<&Tree>) -> Result<Option<Node>, AllocError>
    ensures { IfOk result (λ n. n ≡ option_map (λ t. data_of t.now) tree.entry) }
{
    match tree {
        Some(tree) => Ok(Some(Node::new(alloc, copy(alloc, tree)?)?)),
        None => Ok(None),
    }
}

// The place under `from`, which may be null.
fn from_in(tree: &Tree) -> Result<Option<Since>, ChangesFault>
    ensures { result ≡ spec.from_in (data_of tree.now) }
{
    match child(tree, "from") {
        Some(Tree::Null) => Ok(None),
        field => match place_at(field) {
            Some(since) => Ok(Some(since)),
            None => Err(ChangesFault::Shape(Field::From)),
        },
    }
}

// The place under `to`.
fn to_in(tree: &Tree) -> Result<Since, ChangesFault>
    ensures { result ≡ spec.to_in (data_of tree.now) }
{
    match place_at(child(tree, "to")) {
        Some(since) => Ok(since),
        None => Err(ChangesFault::Shape(Field::To)),
    }
}

// The place that a field is.
fn place_at(field: Option<&Tree>) -> Option<Since>
    ensures { result ≡ spec.place_at (option_map (λ t. data_of t.now) field.entry) }
{
    match text_at(field) {
        Some(text) => since_of(text),
        None => None,
    }
}
