//! The references of what a body or a shelf text gives, and what they are asked.
ghost use Rattle.std.specs.Prelude.{◌≡◌, ◌⊎◌, ◌≤◌, [], map, IfOk, IfErr, Ok, Err};
ghost use Rattle.std.specs.Option.{option_copied};
ghost use Rattle.cat_tree.specs.View.{data_of};
ghost use Rattle.cat_inputs.specs.Body.{each_from};
ghost use Rattle.cat_inputs.specs.Inputs as spec;
ghost use Rattle.cat_inputs.specs.Lent.{entry_of};

use crate::body::Entry;
use crate::fault::{InputFault, unnamed};
use cat_tree::ask::depth;
use cat_tree::clone::copy;
use cat_tree::text::Text;
use cat_tree::tree::Tree;
use cat_types::input::Item;
use cat_types::node::Node;
use cat_types::reference::{Ref, parse, ref_of};
use std::alloc::{AllocError, Global};
use std::collections::BTreeSet;

const DEEPEST: u64 = 100;

/// Whether the tree has over 100 levels of lists and maps.
pub fn is_deep(tree: &Tree) -> bool
    ensures { result ≡ spec.is_deep (data_of tree.now) }
{
    depth(tree) > DEEPEST
}

/// The first descriptor that is over 100 levels deep.
pub fn first_deep(entries: &[Entry<'_>]) -> Option<usize>
    ensures { result ≡ spec.first_deep 0 (map (λ e. e.entity) (map entry_of entries.now)) }
{
    for (i, entry) in entries.iter().enumerate() {
        if is_deep(entry.entity) {
            return Some(i);
        }
    }
    None
}

// The item that a descriptor gives under the reference that it names.
fn item_at(alloc: Global, place: usize, entry: &Entry<'_>) -> Result<Item, InputFault>
    ensures ok { IfOk result (λ x. spec.item_at place (entry_of entry.now) ≡ Ok x) }
    ensures err { IfErr result (λ e. (spec.item_at place (entry_of entry.now) ≡ Err e) ⊎ (e ≡ InputFault.NoMemory)) }
{
    match ref_of(alloc, entry.entity) {
        Ok(reference) => {
            let key = key_of(alloc, entry.key)?;
            let tree = Node::new(alloc, copy(alloc, entry.entity)?)?;
            Ok(Item {
                reference,
                key,
                tree,
            })
        }
        Err(fault) => Err(unnamed(place, fault)),
    }
}

fn key_of(alloc: Global, key: Option<&str>) -> Result<Option<Text>, AllocError>
    ensures { IfOk result (λ k. k ≡ option_copied key.entry) }
{
    match key {
        Some(key) => Ok(Some(Text::of(alloc, key)?)),
        None => Ok(None),
    }
}

/// The items that the descriptors give.
pub fn items_of(alloc: Global, entries: &[Entry<'_>]) -> Result<Vec<Item>, InputFault>
    ensures ok { IfOk result (λ v. each_from spec.item_at 0 (map entry_of entries.now) ≡ Ok v.items) }
    ensures err { IfErr result (λ e. (each_from spec.item_at 0 (map entry_of entries.now) ≡ Err e)
        ⊎ (e ≡ InputFault.NoMemory)) }
{
    let mut items = Vec::new(alloc);
    for (i, entry) in entries.iter().enumerate() {
        items.push(item_at(alloc, i, entry)?)?;
    }
    Ok(items)
}

// The reference that a removed text names.
fn ref_at(alloc: Global, place: usize, text: &str) -> Result<Ref, InputFault>
    ensures ok { IfOk result (λ r. spec.ref_at place text.now ≡ Ok r) }
    ensures err { IfErr result (λ e. (spec.ref_at place text.now ≡ Err e)
        ⊎ (e ≡ InputFault.NoMemory)) }
{
    match parse(alloc, text, None, "default") {
        Ok(reference) => Ok(reference),
        Err(fault) => Err(unnamed(place, fault)),
    }
}

/// The references that removed texts name, where `before` items stand before the texts.
pub fn refs_of(alloc: Global, before: usize, texts: &[&str]) -> Result<Vec<Ref>, InputFault>
    requires { before ≤ 100000 }
    ensures ok { IfOk result (λ v. each_from spec.ref_at before (map (λ t. t.now) texts.now) ≡ Ok v.items) }
    ensures err { IfErr result (λ e. (each_from spec.ref_at before (map (λ t. t.now) texts.now) ≡ Err e)
        ⊎ (e ≡ InputFault.NoMemory)) }
{
    let mut refs = Vec::new(alloc);
    let mut place = before;
    for text in texts {
        refs.push(ref_at(alloc, place, text)?)?;
        place += 1;
    }
    Ok(refs)
}

fn texts_of<'a>(
    alloc: Global,
    items: &'a [Item],
    removed: &'a [Ref],
) -> Result<Vec<&'a str>, AllocError>
    ensures { IfOk result (λ v. map (λ t. t.now) v.items ≡ spec.all_refs items.now removed.now) }
{
    let mut texts = Vec::new(alloc);
    for item in items {
        texts.push(item.reference.as_str())?;
    }
    for reference in removed {
        texts.push(reference.as_str())?;
    }
    Ok(texts)
}

// The first text that stands before it.
fn first_repeated(alloc: Global, texts: &[&str]) -> Result<Option<usize>, AllocError>
    ensures { IfOk result (λ r. r ≡ spec.repeated [] 0 (map (λ t. t.now) texts.now)) }
{
    let mut seen = BTreeSet::new(alloc);
    for (i, text) in texts.iter().enumerate() {
        if !seen.insert(*text)? {
            return Ok(Some(i));
        }
    }
    Ok(None)
}

/// The first item, or removed reference, whose reference stands before it.
pub fn repeated(alloc: Global, items: &[Item], removed: &[Ref]) -> Result<Option<usize>, AllocError>
    ensures { IfOk result (λ r. r ≡ spec.repeated [] 0 (spec.all_refs items.now removed.now)) }
{
    let texts = texts_of(alloc, items, removed)?;
    first_repeated(alloc, texts.as_slice())
}
