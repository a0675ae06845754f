//! The mutation that the body of a provider's request is.
ghost use Rattle.std.specs.Prelude.{◌≡◌, ◌⊎◌, ◌≤◌, length, map, IfOk, IfErr, Ok, Err};
ghost use Rattle.cat_tree.specs.View.{data_of};
ghost use Rattle.cat_inputs.specs.Body.{and_then};
ghost use Rattle.cat_inputs.specs.Inputs as spec;
ghost use Rattle.cat_inputs.specs.Lent.{body_of};
ghost use Rattle.cat_inputs.specs.WellFormed.{IsWellFormed};

use crate::body::{Body, body_in};
use crate::fault::{InputFault, json_fault};
use crate::form::Form;
use crate::refs::{first_deep, items_of, refs_of, repeated};
use crate::text::read_tree;
use cat_collections::listing::Listing;
use cat_tree::tree::Tree;
use cat_types::input::{Item, Mutation};
use cat_types::reference::Ref;
use std::alloc::Global;

const MOST_ITEMS: usize = 100_000;

fn mutation_with(form: Form, serial: u64, items: Vec<Item>, removed: Vec<Ref>) -> Mutation
    ensures { result ≡ spec.mutation_with form serial items.items removed.items }
{
    match form {
        Form::Full => Mutation::Full {
            serial,
            items: Listing::from_vec(items),
        },
        Form::Delta => Mutation::Delta {
            serial,
            added: Listing::from_vec(items),
            removed: Listing::from_vec(removed),
        },
    }
}

// The mutation, unless a reference stands twice.
fn distinct(
    alloc: Global,
    form: Form,
    serial: u64,
    items: Vec<Item>,
    removed: Vec<Ref>,
) -> Result<Mutation, InputFault>
    ensures ok { IfOk result (λ m. spec.distinct form serial items.items removed.items ≡ Ok m) }
    ensures err { IfErr result (λ e. (spec.distinct form serial items.items removed.items ≡ Err e)
        ⊎ (e ≡ InputFault.NoMemory)) }
{
    match repeated(alloc, items.as_slice(), removed.as_slice())? {
        Some(place) => Err(InputFault::Duplicate(place)),
        None => Ok(mutation_with(form, serial, items, removed)),
    }
}

// The same, unless an item or a removed text names no entity.
fn named(alloc: Global, form: Form, body: &Body<'_>) -> Result<Mutation, InputFault>
    requires { length body.now.entries.items ≤ 100000 }
    ensures ok { IfOk result (λ m. spec.named form (body_of body.now) ≡ Ok m) }
    ensures err { IfErr result (λ e. (spec.named form (body_of body.now) ≡ Err e)
        ⊎ (e ≡ InputFault.NoMemory)) }
{
    let items = items_of(alloc, body.entries.as_slice())?;
    let removed = refs_of(alloc, body.entries.len(), body.removed.as_slice())?;
    distinct(alloc, form, body.serial, items, removed)
}

// The same, unless there are over 100,000 items or a descriptor is over 100 levels deep.
fn checked(alloc: Global, form: Form, body: &Body<'_>) -> Result<Mutation, InputFault>
    ensures ok { IfOk result (λ m. spec.checked form (body_of body.now) ≡ Ok m) }
    ensures err { IfErr result (λ e. (spec.checked form (body_of body.now) ≡ Err e)
        ⊎ (e ≡ InputFault.NoMemory)) }
{
    if body.entries.len() > MOST_ITEMS {
        return Err(InputFault::TooMany);
    }
    match first_deep(body.entries.as_slice()) {
        Some(place) => Err(InputFault::Deep(place)),
        None => named(alloc, form, body),
    }
}

// The mutation that a tree is.
fn mutation_from(alloc: Global, form: Form, tree: &Tree) -> Result<Mutation, InputFault>
    ensures ok { IfOk result (λ m. spec.mutation_from form (data_of tree.now) ≡ Ok m) }
    ensures err { IfErr result (λ e. (spec.mutation_from form (data_of tree.now) ≡ Err e)
        ⊎ (e ≡ InputFault.NoMemory)) }
{
    let body = body_in(alloc, form, tree)?;
    checked(alloc, form, &body)
}

/// The mutation that the bytes are, as JSON (RFC 8259).
///
/// A full body is an object with `serial` (1 to 2^53 - 1) and `entities`, a list of objects with `entity` (any JSON value)
/// and, if they like, `locationKey` (a text of 1 to 2,048 bytes). A delta has `serial`, `added` (as `entities`) and `removed`,
/// a list of references as texts, read without a default kind and with the namespace `default`. Other fields are ignored.
/// The answer is the first of the faults of `InputFault` that holds, in their order; a place counts from 0 over `entities`,
/// or over `added` and then `removed`. `TooMany` speaks of `entities` or `added` alone.
#[tactic(auto, unfolding(crate::specs::Inputs::mutation_of))]
pub fn read_mutation(alloc: Global, form: Form, bytes: &[u8]) -> Result<Mutation, InputFault>
    ensures ok { IfOk result (λ m. spec.mutation_of form bytes.now ≡ Ok m) }
    ensures err { IfErr result (λ e. (spec.mutation_of form bytes.now ≡ Err e)
        ⊎ (e ≡ InputFault.NoMemory)) }
    ensures well_formed { IfOk result (λ m. IsWellFormed m) }
{
    match read_tree(alloc, bytes) {
        Ok(tree) => mutation_from(alloc, form, &tree),
        Err(fault) => Err(json_fault(fault)),
    }
}
