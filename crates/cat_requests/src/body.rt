//! The bodies of requests that name entities.
ghost use Rattle.std.specs.Prelude.{◌≡◌, ◌⊎◌, Some, map, option_map, IfOk, IfErr, Ok, Err};
ghost use Rattle.std.specs.Option.{option_copied};
ghost use Rattle.cat_tree.specs.Data.{items_of};
ghost use Rattle.cat_tree.specs.View.{data_of};
ghost use Rattle.cat_search.specs.Filter.{pieces};
ghost use Rattle.cat_inputs.specs.Body.{texts_from, texts_in};
ghost use Rattle.cat_requests.specs.Bodies as spec;

use crate::refusal::{Refusal, input_refusal};
use cat_collections::listing::Listing;
use cat_inputs::fault::{InputFault, Place, json_fault};
use cat_inputs::text::read_tree;
use cat_query::ask::Ask;
use cat_search::pieces::next_piece;
use cat_tree::ask::child;
use cat_tree::text::Text;
use cat_tree::tree::Tree;
use cat_types::fault::RefFault;
use cat_types::reference::{Ref, parse, text_at, text_in};
use std::alloc::{AllocError, Global};

// The texts of a list of texts.
fn texts_from<'a>(
    alloc: Global,
    place: Place,
    trees: &'a [Tree],
) -> Result<Vec<&'a str>, InputFault>
    ensures ok { IfOk result (λ v. texts_from place (items_of (map data_of trees.now))
        ≡ Ok (map (λ t. t.now) v.items)) }
    ensures err { IfErr result (λ e. (texts_from place (items_of (map data_of trees.now)) ≡ Err e)
        ⊎ (e ≡ InputFault.NoMemory)) }
{
    let mut texts = Vec::new(alloc);
    for tree in trees {
        match text_in(tree) {
            Some(text) => texts.push(text)?,
            None => return Err(InputFault::Shape(place)),
        }
    }
    Ok(texts)
}

// The texts of a field that is a list of texts.
fn texts_in<'a>(
    alloc: Global,
    place: Place,
    tree: Option<&'a Tree>,
) -> Result<Vec<&'a str>, InputFault>
    ensures ok { IfOk result (λ v. texts_in place (option_map (λ t. data_of t.now) tree.entry)
        ≡ Ok (map (λ t. t.now) v.items)) }
    ensures err { IfErr result (λ e. (texts_in place (option_map (λ t. data_of t.now) tree.entry) ≡ Err e)
        ⊎ (e ≡ InputFault.NoMemory)) }
{
    match tree {
        Some(Tree::List(trees)) => texts_from(alloc, place, trees.as_slice()),
        _ => Err(InputFault::Shape(place)),
    }
}

// The texts of `fields`, which may be left out.
fn fields_in<'a>(alloc: Global, tree: Option<&'a Tree>) -> Result<Vec<&'a str>, InputFault>
    ensures ok { IfOk result (λ v. spec.fields_by (option_map (λ t. data_of t.now) tree.entry)
        ≡ Ok (map (λ t. t.now) v.items)) }
    ensures err { IfErr result (λ e. (spec.fields_by (option_map (λ t. data_of t.now) tree.entry) ≡ Err e)
        ⊎ (e ≡ InputFault.NoMemory)) }
{
    match tree {
        Some(tree) => texts_in(alloc, Place::Fields, Some(tree)),
        None => Ok(Vec::new(alloc)),
    }
}

fn reference_at(alloc: Global, place: usize, text: &str) -> Result<Ref, Refusal>
    ensures ok { IfOk result (λ r. spec.reference_at place text.now ≡ Ok r) }
    ensures err { IfErr result (λ e. (spec.reference_at place text.now ≡ Err e)
        ⊎ (e ≡ Refusal.NoMemory)) }
{
    match parse(alloc, text, None, "default") {
        Ok(reference) => Ok(reference),
        Err(RefFault::NoMemory) => Err(Refusal::NoMemory),
        Err(_) => Err(Refusal::Reference(place)),
    }
}

// The references that texts name.
fn references(alloc: Global, texts: &[&str]) -> Result<Listing<Ref>, Refusal>
    ensures ok { IfOk result (λ rs. spec.references (map (λ t. t.now) texts.now) ≡ Ok rs) }
    ensures err { IfErr result (λ e. (spec.references (map (λ t. t.now) texts.now) ≡ Err e)
        ⊎ (e ≡ Refusal.NoMemory)) }
{
    let mut references = Vec::new(alloc);
    for (i, text) in texts.iter().enumerate() {
        references.push(reference_at(alloc, i, text)?)?;
    }
    Ok(Listing::from_vec(references))
}

// The keys of a path.
fn path(alloc: Global, text: &str) -> Result<Listing<Text>, AllocError>
    ensures { IfOk result (λ p. p ≡ pieces 46 text.now) }
{
    let mut keys = Vec::new(alloc);
    let mut rest = text;
    loop {
        let (key, more) = next_piece(rest, '.');
        keys.push(Text::of(alloc, key)?)?;
        match more {
            Some(after) => rest = after,
            None => return Ok(Listing::from_vec(keys)),
        }
    }
}

// The paths of texts.
fn paths(alloc: Global, texts: &[&str]) -> Result<Listing<Listing<Text>>, AllocError>
    ensures { IfOk result (λ ps. ps ≡ spec.paths (map (λ t. t.now) texts.now)) }
{
    let mut paths = Vec::new(alloc);
    for text in texts {
        paths.push(path(alloc, text)?)?;
    }
    Ok(Listing::from_vec(paths))
}

fn reference_by(alloc: Global, text: Option<&str>) -> Result<Ref, Refusal>
    ensures ok { IfOk result (λ r. spec.reference_by (option_copied text.entry) ≡ Ok r) }
    ensures err { IfErr result (λ e. (spec.reference_by (option_copied text.entry) ≡ Err e)
        ⊎ (e ≡ Refusal.NoMemory)) }
{
    match text {
        Some(text) => reference_at(alloc, 0, text),
        None => Err(input_refusal(InputFault::Shape(Place::EntityRef))),
    }
}

/// The reference under `entityRef` of a body.
pub fn reference_of(alloc: Global, body: &[u8]) -> Result<Ref, Refusal>
    ensures ok { IfOk result (λ r. spec.reference_of body.now ≡ Ok r) }
    ensures err { IfErr result (λ e. (spec.reference_of body.now ≡ Err e) ⊎ (e ≡ Refusal.NoMemory)) }
{
    match read_tree(alloc, body) {
        Ok(tree) => reference_by(alloc, text_at(child(&tree, Place::EntityRef.text()))),
        Err(fault) => Err(input_refusal(json_fault(fault))),
    }
}

fn many(alloc: Global, texts: &[&str], fields: &[&str]) -> Result<Ask, Refusal>
    ensures ok { IfOk result (λ a. spec.many_by (spec.paths (map (λ t. t.now) fields.now))
        (spec.references (map (λ t. t.now) texts.now)) ≡ Ok a) }
    ensures err { IfErr result (λ e. (spec.many_by (spec.paths (map (λ t. t.now) fields.now))
        (spec.references (map (λ t. t.now) texts.now)) ≡ Err e)
        ⊎ (e ≡ Refusal.NoMemory)) }
{
    let references = references(alloc, texts)?;
    let fields = paths(alloc, fields)?;
    Ok(Ask::Many(references, fields))
}

// With the texts of the references.
fn many_with(alloc: Global, texts: &[&str], tree: &Tree) -> Result<Ask, Refusal>
    ensures ok { IfOk result (λ a. spec.many_with (map (λ t. t.now) texts.now) (data_of tree.now) ≡ Ok a) }
    ensures err { IfErr result (λ e. (spec.many_with (map (λ t. t.now) texts.now) (data_of tree.now) ≡ Err e)
        ⊎ (e ≡ Refusal.NoMemory)) }
{
    match fields_in(alloc, child(tree, Place::Fields.text())) {
        Ok(fields) => many(alloc, texts, fields.as_slice()),
        Err(fault) => Err(input_refusal(fault)),
    }
}

fn many_in(alloc: Global, tree: &Tree) -> Result<Ask, Refusal>
    ensures ok { IfOk result (λ a. spec.many_in (data_of tree.now) ≡ Ok a) }
    ensures err { IfErr result (λ e. (spec.many_in (data_of tree.now) ≡ Err e) ⊎ (e ≡ Refusal.NoMemory)) }
{
    match texts_in(
        alloc,
        Place::EntityRefs,
        child(tree, Place::EntityRefs.text()),
    ) {
        Ok(texts) => many_with(alloc, texts.as_slice(), tree),
        Err(fault) => Err(input_refusal(fault)),
    }
}

/// What a body with `entityRefs` and, if it likes, `fields` asks. Each text of `fields` is one path.
pub fn many_of(alloc: Global, body: &[u8]) -> Result<Ask, Refusal>
    ensures ok { IfOk result (λ a. spec.many_of body.now ≡ Ok a) }
    ensures err { IfErr result (λ e. (spec.many_of body.now ≡ Err e) ⊎ (e ≡ Refusal.NoMemory)) }
{
    match read_tree(alloc, body) {
        Ok(tree) => many_in(alloc, &tree),
        Err(fault) => Err(input_refusal(json_fault(fault))),
    }
}
