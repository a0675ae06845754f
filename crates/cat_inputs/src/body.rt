//! The body of a mutation: its fields, each of its form, before any reference is read.
ghost use Rattle.std.specs.Prelude.{◌≡◌, ◌⊎◌, ◌<◌, map, option_map, IfOk, IfErr, Ok, Err};
ghost use Rattle.std.specs.Option.{option_copied};
ghost use Rattle.cat_tree.specs.Data.{items_of};
ghost use Rattle.cat_tree.specs.View.{data_of};
ghost use Rattle.cat_types.specs.Reference.{text_in};
ghost use Rattle.cat_inputs.specs.Body as spec;
ghost use Rattle.cat_inputs.specs.Lent.{entry_of, body_of};

use crate::fault::{InputFault, Place};
use crate::form::Form;
use cat_tree::ask::child;
use cat_tree::tree::Tree;
use cat_types::reference::text_in;
use std::alloc::Global;

const LEAST_SERIAL: i128 = 1;

const MOST_SERIAL: i128 = (1 << 53) - 1;

const LONGEST_KEY: usize = 2048;

/// An item as the body gives it: its descriptor, and its location key, if it has one.
#[derive(Clone, Copy)]
pub struct Entry<'a> {
    pub entity: &'a Tree,
    pub key: Option<&'a str>,
}

/// The fields of a body, lent from its tree. `removed` is empty for a full mutation.
#[derive(Drop)]
pub struct Body<'a> {
    pub serial: u64,
    pub entries: Vec<Entry<'a>>,
    pub removed: Vec<&'a str>,
}

fn serial_in(field: Option<&Tree>) -> Option<u64>
    ensures { result ≡ spec.serial_in (option_map (λ t. data_of t.now) field.entry) }
{
    match field {
        Some(Tree::Whole(serial)) => {
            if LEAST_SERIAL <= *serial && *serial <= MOST_SERIAL {
                Some(*serial as u64)
            } else {
                None
            }
        }
        _ => None,
    }
}

fn is_key(text: &str) -> bool
    ensures { result ≡ spec.is_key text.now }
{
    0 < text.len() && text.len() <= LONGEST_KEY
}

// A key, if the field is one.
fn key_in(field: &Tree) -> Option<&str>
    ensures { option_map (λ k. Some k.now) result ≡ spec.key_in (text_in (data_of field.now)) }
{
    match text_in(field) {
        Some(text) => { if is_key(text) { Some(text) } else { None } }
        None => None,
    }
}

// The item that a member of a list is.
fn entry_in(tree: &Tree) -> Option<Entry<'_>>
    ensures { option_map entry_of result ≡ spec.entry_in (data_of tree.now) }
{
    let entity = match child(tree, "entity") {
        Some(entity) => entity,
        None => return None,
    };
    match child(tree, "locationKey") {
        Some(field) => match key_in(field) {
            Some(key) => Some(Entry {
                entity,
                key: Some(key),
            }),
            None => None,
        },
        None => Some(Entry { entity, key: None }),
    }
}

// The items of a list, each of its form.
fn entries_from<'a>(
    alloc: Global,
    place: Place,
    trees: &'a [Tree],
) -> Result<Vec<Entry<'a>>, InputFault>
    ensures ok { IfOk result (λ v.
        spec.entries_from place (items_of (map data_of trees.now)) ≡ Ok (map entry_of v.items)) }
    ensures err { IfErr result (λ e.
        (spec.entries_from place (items_of (map data_of trees.now)) ≡ Err e)
        ⊎ (e ≡ InputFault.NoMemory)) }
{
    let mut entries = Vec::new(alloc);
    for tree in trees {
        match entry_in(tree) {
            Some(entry) => entries.push(entry)?,
            None => return Err(InputFault::Shape(place)),
        }
    }
    Ok(entries)
}

// The texts of a list of texts.
fn texts_from<'a>(
    alloc: Global,
    place: Place,
    trees: &'a [Tree],
) -> Result<Vec<&'a str>, InputFault>
    ensures ok { IfOk result (λ v.
        spec.texts_from place (items_of (map data_of trees.now)) ≡ Ok (map (λ t. t.now) v.items)) }
    ensures err { IfErr result (λ e.
        (spec.texts_from place (items_of (map data_of trees.now)) ≡ Err e)
        ⊎ (e ≡ InputFault.NoMemory)) }
{
    let mut texts = Vec::new(alloc);
    for tree in trees {
        match text_in(tree) {
            Some(text) => texts.push(text)?,
            None => return Err(InputFault::Shape(place)),
        }
    }
    Ok(texts)
}

fn serial_of(tree: &Tree) -> Result<u64, InputFault>
    ensures { result ≡ spec.serial_of (data_of tree.now) }
{
    match serial_in(child(tree, Place::Serial.text())) {
        Some(serial) => Ok(serial),
        None => Err(InputFault::Shape(Place::Serial)),
    }
}

fn entries_of<'a>(alloc: Global, place: Place, tree: &'a Tree) -> Result<Vec<Entry<'a>>, InputFault>
    ensures ok { IfOk result (λ v. spec.entries_of place (data_of tree.now) ≡ Ok (map entry_of v.items)) }
    ensures err { IfErr result (λ e. (spec.entries_of place (data_of tree.now) ≡ Err e)
        ⊎ (e ≡ InputFault.NoMemory)) }
{
    match child(tree, place.text()) {
        Some(Tree::List(trees)) => entries_from(alloc, place, trees.as_slice()),
        _ => Err(InputFault::Shape(place)),
    }
}

fn texts_of<'a>(alloc: Global, place: Place, tree: &'a Tree) -> Result<Vec<&'a str>, InputFault>
    ensures ok { IfOk result (λ v. spec.texts_of place (data_of tree.now) ≡ Ok (map (λ t. t.now) v.items)) }
    ensures err { IfErr result (λ e. (spec.texts_of place (data_of tree.now) ≡ Err e)
        ⊎ (e ≡ InputFault.NoMemory)) }
{
    match child(tree, place.text()) {
        Some(Tree::List(trees)) => texts_from(alloc, place, trees.as_slice()),
        _ => Err(InputFault::Shape(place)),
    }
}

/// The body of a mutation of this form, or `Shape` with the first of its own fields (`serial`, then `entities`, or `added`
/// and `removed`) that is missing or of another form.
pub fn body_in<'a>(alloc: Global, form: Form, tree: &'a Tree) -> Result<Body<'a>, InputFault>
    ensures ok { IfOk result (λ b. spec.body_in form (data_of tree.now) ≡ Ok (body_of b)) }
    ensures err { IfErr result (λ e. (spec.body_in form (data_of tree.now) ≡ Err e)
        ⊎ (e ≡ InputFault.NoMemory)) }
{
    let serial = serial_of(tree)?;
    match form {
        Form::Full => {
            let entries = entries_of(alloc, Place::Entities, tree)?;
            Ok(Body {
                serial,
                entries,
                removed: Vec::new(alloc),
            })
        }
        Form::Delta => {
            let entries = entries_of(alloc, Place::Added, tree)?;
            let removed = texts_of(alloc, Place::Removed, tree)?;
            Ok(Body {
                serial,
                entries,
                removed,
            })
        }
    }
}
