//! What an event reached.
ghost use Rattle.std.specs.Prelude.{◌≡◌, IfOk, not, option_map};
ghost use Rattle.std.specs.List.{filter};
ghost use Rattle.cat_model.specs.Mend.{gone};
ghost use Rattle.cat_model.specs.Catalogue.{held};
ghost use Rattle.cat_model.specs.Given.{given};
ghost use Rattle.cat_affected.specs.Reach.{given_refs, has_lost, is_lost, own_refs, reached};

use crate::refs::{append, given_by};
use crate::seeds::{entity_seeds, mutation_seeds};
use cat_claims::cut::cut_off;
use cat_collections::listing::Copied;
use cat_collections::map::Map;
use cat_model::rows::IndexedRows;
use cat_model::types::State;
use cat_tree::text::Text;
use cat_types::input::Mutation;
use cat_types::reference::Ref;
use std::alloc::{AllocError, Global};

// Whether an arrival was a row's and is none's.
fn is_lost(rows: &IndexedRows, arrival: Option<&u64>) -> bool
    ensures { result ≡ is_lost rows.now (option_map (λ a. a.now) arrival.entry) }
{
    match arrival {
        None => false,
        Some(arrival) => rows.get(arrival).is_none(),
    }
}

// Whether the row that held a reference is gone.
fn has_lost(before: &State, after: &State, reference: &Ref) -> bool
    ensures { result ≡ has_lost before.now after.now reference.now }
{
    is_lost(&after.rows, before.holders.get(reference))
}

// Those of these references that have lost the row that held them.
fn lost_among(
    alloc: Global,
    refs: &[Ref],
    before: &State,
    after: &State,
) -> Result<Vec<Ref>, AllocError>
    ensures { IfOk result (λ lost. lost.items ≡ filter (has_lost before.now after.now) refs.now) }
{
    let mut lost = Vec::new(alloc);
    for reference in refs {
        if has_lost(before, after, reference) {
            lost.push(reference.duplicate(alloc)?)?;
        }
    }
    Ok(lost)
}

// Whether no row holds a reference.
fn is_free(holders: &Map<Ref, u64>, reference: &Ref) -> bool
    ensures { result ≡ not (held holders.now reference.now) }
{
    holders.get(reference).is_none()
}

// Those of these references that no row holds.
fn gone_among(alloc: Global, refs: &[Ref], holders: &Map<Ref, u64>) -> Result<Vec<Ref>, AllocError>
    ensures { IfOk result (λ free. free.items ≡ gone refs.now holders.now) }
{
    let mut free = Vec::new(alloc);
    for reference in refs {
        if is_free(holders, reference) {
            free.push(reference.duplicate(alloc)?)?;
        }
    }
    Ok(free)
}

/// What is reached from these references: they themselves, what is cut off with them, and what those of that had given that aren't held
/// again. The error is want of memory.
pub fn reached_from(
    alloc: Global,
    seeds: Vec<Ref>,
    before: &State,
    after: &State,
) -> Result<Vec<Ref>, AllocError>
    ensures { IfOk result (λ refs. refs.items ≡ reached seeds.items before.now after.now) }
{
    let lost = lost_among(alloc, seeds.as_slice(), before, after)?;
    let mut more = cut_off(alloc, &before.rows, &before.holders, lost)?;
    let left = gone_among(alloc, more.as_slice(), &after.holders)?;
    append(given_by(alloc, &before.rows, left.as_slice())?, &mut more)?;
    let mut refs = seeds;
    append(more, &mut refs)?;
    Ok(refs)
}

/// The references that a mutation of a provider reached: those that it names or takes away, what hung below those that lost the row that
/// held them, and what those of them had given that aren't held again. The error is want of memory.
pub fn mutated_refs(
    alloc: Global,
    provider: &Text,
    mutation: &Mutation,
    before: &State,
    after: &State,
) -> Result<Vec<Ref>, AllocError>
    ensures { IfOk result (λ refs. refs.items ≡ reached (given_refs provider.now (given provider.now mutation.now) before.now) before.now after.now) }
{
    let seeds = mutation_seeds(alloc, provider, mutation, before)?;
    reached_from(alloc, seeds, before, after)
}

/// The references that a finish or a forget of this one reached: itself, those of the rows that it gave before and gives after, what hung
/// below those that lost the row that held them, and what those of them had given that aren't held again. The error is want of memory.
pub fn refs_of(
    alloc: Global,
    reference: &Ref,
    before: &State,
    after: &State,
) -> Result<Vec<Ref>, AllocError>
    ensures { IfOk result (λ refs. refs.items ≡ reached (own_refs reference.now before.now after.now) before.now after.now) }
{
    let seeds = entity_seeds(alloc, reference, before, after)?;
    reached_from(alloc, seeds, before, after)
}
