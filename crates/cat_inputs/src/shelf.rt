//! The descriptors that a shelf text lists.
ghost use Rattle.std.specs.Prelude.{◌≡◌, ◌⊎◌, [], ◌∷◌, map, IfOk, IfErr, Ok, Err};
ghost use Rattle.cat_tree.specs.Data.{items_of};
ghost use Rattle.cat_tree.specs.View.{data_of};
ghost use Rattle.cat_inputs.specs.Body.{each_from};
ghost use Rattle.cat_inputs.specs.Inputs.{first_deep as the_first_deep};
ghost use Rattle.cat_inputs.specs.Shelf as spec;

use crate::fault::{ShelfFault, text_fault, unlisted};
use crate::refs::is_deep;
use crate::text::read_text;
use cat_collections::listing::Listing;
use cat_tree::clone::copy;
use cat_tree::tree::Tree;
use cat_types::node::Node;
use cat_types::reference::{Ref, ref_of};
use std::alloc::Global;

/// A descriptor of a shelf text, under the reference that it names.
#[derive(Drop)]
pub struct Listed {
    pub reference: Ref,
    pub tree: Node,
}

// The members of a list of objects.
fn objects_from<'a>(alloc: Global, trees: &'a [Tree]) -> Result<Vec<&'a Tree>, ShelfFault>
    ensures ok { IfOk result (λ v. spec.objects_from (items_of (map data_of trees.now))
        ≡ Ok (map (λ t. data_of t.now) v.items)) }
    ensures err { IfErr result (λ e. (spec.objects_from (items_of (map data_of trees.now)) ≡ Err e)
        ⊎ (e ≡ ShelfFault.NoMemory)) }
{
    let mut objects = Vec::new(alloc);
    for tree in trees {
        match tree {
            Tree::Map(_) => objects.push(tree)?,
            _ => return Err(ShelfFault::Shape),
        }
    }
    Ok(objects)
}

fn only<'a>(alloc: Global, tree: &'a Tree) -> Result<Vec<&'a Tree>, ShelfFault>
    ensures ok { IfOk result (λ v. map (λ t. data_of t.now) v.items ≡ data_of tree.now ∷ []) }
    ensures err { IfErr result (λ e. e ≡ ShelfFault.NoMemory) }
{
    let mut trees = Vec::new(alloc);
    trees.push(tree)?;
    Ok(trees)
}

// The descriptors of a shelf text: an object, or the objects of a list.
fn descriptors<'a>(alloc: Global, tree: &'a Tree) -> Result<Vec<&'a Tree>, ShelfFault>
    ensures ok { IfOk result (λ v. spec.descriptors (data_of tree.now)
        ≡ Ok (map (λ t. data_of t.now) v.items)) }
    ensures err { IfErr result (λ e. (spec.descriptors (data_of tree.now) ≡ Err e)
        ⊎ (e ≡ ShelfFault.NoMemory)) }
{
    match tree {
        Tree::List(trees) => objects_from(alloc, trees.as_slice()),
        Tree::Map(_) => only(alloc, tree),
        _ => Err(ShelfFault::Shape),
    }
}

// The first descriptor that is over 100 levels deep.
fn first_deep(trees: &[&Tree]) -> Option<usize>
    ensures { result ≡ the_first_deep 0 (map (λ t. data_of t.now) trees.now) }
{
    for (i, tree) in trees.iter().enumerate() {
        if is_deep(tree) {
            return Some(i);
        }
    }
    None
}

// A descriptor under the reference that it names.
fn listed_at(alloc: Global, place: usize, tree: &Tree) -> Result<Listed, ShelfFault>
    ensures ok { IfOk result (λ x. spec.listed_at place (data_of tree.now) ≡ Ok x) }
    ensures err { IfErr result (λ e. (spec.listed_at place (data_of tree.now) ≡ Err e)
        ⊎ (e ≡ ShelfFault.NoMemory)) }
{
    match ref_of(alloc, tree) {
        Ok(reference) => {
            let tree = Node::new(alloc, copy(alloc, tree)?)?;
            Ok(Listed { reference, tree })
        }
        Err(fault) => Err(unlisted(place, fault)),
    }
}

// The descriptors, each under the reference that it names.
fn list_of(alloc: Global, trees: &[&Tree]) -> Result<Listing<Listed>, ShelfFault>
    ensures ok { IfOk result (λ v. each_from spec.listed_at 0 (map (λ t. data_of t.now) trees.now) ≡ Ok v) }
    ensures err { IfErr result (λ e. (each_from spec.listed_at 0 (map (λ t. data_of t.now) trees.now) ≡ Err e)
        ⊎ (e ≡ ShelfFault.NoMemory)) }
{
    let mut found = Vec::new(alloc);
    for (i, tree) in trees.iter().enumerate() {
        found.push(listed_at(alloc, i, tree)?)?;
    }
    Ok(Listing::from_vec(found))
}

// What a tree lists.
fn shelf_from(alloc: Global, tree: &Tree) -> Result<Listing<Listed>, ShelfFault>
    ensures ok { IfOk result (λ v. spec.shelf_from (data_of tree.now) ≡ Ok v) }
    ensures err { IfErr result (λ e. (spec.shelf_from (data_of tree.now) ≡ Err e)
        ⊎ (e ≡ ShelfFault.NoMemory)) }
{
    let trees = descriptors(alloc, tree)?;
    match first_deep(trees.as_slice()) {
        Some(place) => Err(ShelfFault::Deep(place)),
        None => list_of(alloc, trees.as_slice()),
    }
}

/// The descriptors of a shelf text, each under the reference that it names. Where the first byte that is no space, tab, CR
/// or LF is `{` or `[`, the text is a JSON object (RFC 8259) or a list of them; else it is in this project's profile of
/// block YAML, and each of its documents is an object. The answer is the first of the faults of `ShelfFault` that holds, in
/// their order; a place counts from 0 over the list or the documents, and an object alone stands at 0. Takes memory for the
/// descriptors.
#[tactic(auto, unfolding(crate::specs::Shelf::shelf_reading))]
pub fn shelf_list(alloc: Global, bytes: &[u8]) -> Result<Listing<Listed>, ShelfFault>
    ensures ok { IfOk result (λ v. spec.shelf_reading bytes.now ≡ Ok v) }
    ensures err { IfErr result (λ e. (spec.shelf_reading bytes.now ≡ Err e) ⊎ (e ≡ ShelfFault.NoMemory)) }
{
    match read_text(alloc, bytes) {
        Ok(tree) => shelf_from(alloc, &tree),
        Err(fault) => Err(text_fault(fault)),
    }
}
