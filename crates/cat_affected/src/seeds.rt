//! The references that an event is about.
ghost use Rattle.std.specs.Prelude.{◌≡◌, ℕ, List, IfOk, cond, map};
ghost use Rattle.cat_model.specs.Given.{given, offers_of};
ghost use Rattle.cat_model.specs.Step.{source_at};
ghost use Rattle.cat_affected.specs.Reach.{given_refs, own_refs};
ghost use Rattle.cat_collections.specs.Table.{get, keys};

use crate::refs::{append, push_given};
use cat_collections::listing::{Copied, Listing};
use cat_model::types::State;
use cat_tree::text::Text;
use cat_types::input::{Item, Mutation};
use cat_types::reference::Ref;
use std::alloc::{AllocError, Global};

// The items of a mutation.
fn items_of(mutation: &Mutation) -> &[Item]
    ensures { (provider : List ℕ) → (given provider mutation.now).items ≡ offers_of provider result.now }
{
    match mutation {
        Mutation::Full { items, .. } => items.as_slice(),
        Mutation::Delta { added, .. } => added.as_slice(),
    }
}

// The references of items.
fn item_refs(alloc: Global, items: &[Item]) -> Result<Vec<Ref>, AllocError>
    ensures { IfOk result (λ refs. refs.items ≡ map (λ item. item.reference) items.now) }
{
    let mut refs = Vec::new(alloc);
    for item in items {
        refs.push(item.reference.duplicate(alloc)?)?;
    }
    Ok(refs)
}

// The references of the items that a provider has.
fn source_refs(alloc: Global, provider: &Text, m: &State) -> Result<Listing<Ref>, AllocError>
    ensures { IfOk result (λ refs. refs ≡ keys (source_at (get m.now.providers provider.now)).items) }
{
    match m.providers.get(provider) {
        None => Ok(Listing::new(alloc)),
        Some(source) => source.items.keys(alloc),
    }
}

// The references that a mutation takes away: all that the provider has, where its items are all.
fn taken_refs(
    alloc: Global,
    provider: &Text,
    mutation: &Mutation,
    m: &State,
) -> Result<Listing<Ref>, AllocError>
    ensures { IfOk result (λ refs. refs ≡ cond (given provider.now mutation.now).full (keys (source_at (get m.now.providers provider.now)).items) (given provider.now mutation.now).removed) }
{
    match mutation {
        Mutation::Full { .. } => source_refs(alloc, provider, m),
        Mutation::Delta { removed, .. } => removed.duplicate(alloc),
    }
}

/// The references that a mutation names: those of its items and of what it takes away. They are those of the state before it alone. The error is
/// want of memory.
#[tactic(auto, using(crate::proofs::Offered::offered_refs))]
pub fn mutation_seeds(
    alloc: Global,
    provider: &Text,
    mutation: &Mutation,
    m: &State,
) -> Result<Vec<Ref>, AllocError>
    ensures { IfOk result (λ refs. refs.items ≡ given_refs provider.now (given provider.now mutation.now) m.now) }
{
    let mut refs = item_refs(alloc, items_of(mutation))?;
    let taken = taken_refs(alloc, provider, mutation, m)?;
    append(taken.into_vec(), &mut refs)?;
    Ok(refs)
}

/// A reference, and those of the rows that it gives before and after.
pub fn entity_seeds(
    alloc: Global,
    reference: &Ref,
    before: &State,
    after: &State,
) -> Result<Vec<Ref>, AllocError>
    ensures { IfOk result (λ refs. refs.items ≡ own_refs reference.now before.now after.now) }
{
    let mut refs = Vec::new(alloc);
    refs.push(reference.duplicate(alloc)?)?;
    push_given(alloc, &before.rows, reference, &mut refs)?;
    push_given(alloc, &after.rows, reference, &mut refs)?;
    Ok(refs)
}
