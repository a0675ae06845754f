//! Lists of references.
ghost use Rattle.std.specs.Prelude.{◌≡◌, ◌⊎◌, Some, map, IfOk, IfErr, Ok, Err};
ghost use Rattle.cat_tree.specs.Data.{items_of};
ghost use Rattle.cat_tree.specs.View.{data_of};
ghost use Rattle.cat_inputs.specs.Body.{texts_from, texts_in};
ghost use Rattle.cat_inputs.specs.declared.fault.Place.TheVariants.{EntityRefs};
ghost use Rattle.cat_session_lines.specs.References as spec;

use crate::fault::{LineFault, input_fault};
use cat_collections::listing::Listing;
use cat_inputs::fault::{InputFault, Place, json_fault};
use cat_inputs::text::read_tree;
use cat_tree::tree::Tree;
use cat_types::fault::RefFault;
use cat_types::reference::{Ref, parse, text_in};
use std::alloc::Global;

// The texts of a list of texts.
fn texts_from<'a>(alloc: Global, trees: &'a [Tree]) -> Result<Vec<&'a str>, InputFault>
    ensures ok { IfOk result (λ v. texts_from EntityRefs (items_of (map data_of trees.now))
        ≡ Ok (map (λ t. t.now) v.items)) }
    ensures err { IfErr result (λ e. (texts_from EntityRefs (items_of (map data_of trees.now)) ≡ Err e)
        ⊎ (e ≡ InputFault.NoMemory)) }
{
    let mut texts = Vec::new(alloc);
    for tree in trees {
        match text_in(tree) {
            Some(text) => texts.push(text)?,
            None => return Err(InputFault::Shape(Place::EntityRefs)),
        }
    }
    Ok(texts)
}

fn texts_in<'a>(alloc: Global, tree: &'a Tree) -> Result<Vec<&'a str>, InputFault>
    ensures ok { IfOk result (λ v. texts_in EntityRefs (Some (data_of tree.now))
        ≡ Ok (map (λ t. t.now) v.items)) }
    ensures err { IfErr result (λ e. (texts_in EntityRefs (Some (data_of tree.now)) ≡ Err e)
        ⊎ (e ≡ InputFault.NoMemory)) }
{
    match tree {
        Tree::List(trees) => texts_from(alloc, trees.as_slice()),
        _ => Err(InputFault::Shape(Place::EntityRefs)),
    }
}

fn reference_at(alloc: Global, place: usize, text: &str) -> Result<Ref, LineFault>
    ensures ok { IfOk result (λ r. spec.reference_at place text.now ≡ Ok r) }
    ensures err { IfErr result (λ e. (spec.reference_at place text.now ≡ Err e)
        ⊎ (e ≡ LineFault.NoMemory)) }
{
    match parse(alloc, text, None, "default") {
        Ok(reference) => Ok(reference),
        Err(RefFault::NoMemory) => Err(LineFault::NoMemory),
        Err(_) => Err(LineFault::Reference(place)),
    }
}

/// The references that texts name, with no default kind and the namespace `default`. `Reference` comes with the place of
/// the first text that names none.
pub fn references(alloc: Global, texts: &[&str]) -> Result<Listing<Ref>, LineFault>
    ensures ok { IfOk result (λ rs. spec.references (map (λ t. t.now) texts.now) ≡ Ok rs) }
    ensures err { IfErr result (λ e. (spec.references (map (λ t. t.now) texts.now) ≡ Err e)
        ⊎ (e ≡ LineFault.NoMemory)) }
{
    let mut references = Vec::new(alloc);
    for (i, text) in texts.iter().enumerate() {
        references.push(reference_at(alloc, i, text)?)?;
    }
    Ok(Listing::from_vec(references))
}

// The references of a tree that is a list of texts.
fn references_in(alloc: Global, tree: &Tree) -> Result<Listing<Ref>, LineFault>
    ensures ok { IfOk result (λ rs. spec.references_in (data_of tree.now) ≡ Ok rs) }
    ensures err { IfErr result (λ e. (spec.references_in (data_of tree.now) ≡ Err e)
        ⊎ (e ≡ LineFault.NoMemory)) }
{
    match texts_in(alloc, tree) {
        Ok(texts) => references(alloc, texts.as_slice()),
        Err(fault) => Err(input_fault(fault)),
    }
}

/// The references that a JSON list of texts names.
#[tactic(auto, unfolding(crate::specs::References::references_of))]
pub fn references_of(alloc: Global, body: &str) -> Result<Listing<Ref>, LineFault>
    ensures ok { IfOk result (λ rs. spec.references_of body.now ≡ Ok rs) }
    ensures err { IfErr result (λ e. (spec.references_of body.now ≡ Err e)
        ⊎ (e ≡ LineFault.NoMemory)) }
{
    match read_tree(alloc, body.as_bytes()) {
        Ok(tree) => references_in(alloc, &tree),
        Err(fault) => Err(input_fault(json_fault(fault))),
    }
}
