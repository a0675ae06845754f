//! What the events of a settle reached, gathered from one to the next.
ghost use Rattle.std.specs.Prelude.{◌≡◌, ◌++◌, [], IfOk, IfSome};
ghost use Rattle.cat_model.specs.declared.types.State.{State as StateValue};
ghost use Rattle.cat_affected.specs.Gathered.{IsGathered};

use cat_affected::reached::refs_of;
use cat_collections::listing::Listing;
use cat_model::records::Records;
use cat_model::types::State;
use cat_types::reference::Ref;
use std::alloc::{AllocError, Global};

// A state without its records, in a box, so that it is moved as one. All else is shared.
fn without_records(alloc: Global, m: &State) -> Result<Box<State>, AllocError>
    ensures { IfOk result (λ b. b.value ≡ record m.now { records = [] }) }
{
    let rest = m.with_records(Records::new())?;
    Ok(Box::new(alloc, rest)?)
}

/// Where references are gathered, the state before an event without its records, so that its rows and holders can be looked at after the event. None
/// where none are gathered, or where memory lacks.
pub(crate) fn rows_before(
    alloc: Global,
    reached: &Option<Listing<Ref>>,
    m: &State,
) -> Option<Box<State>>
    ensures { IfSome result (λ b. b.value ≡ record m.now { records = [] }) }
{
    match reached {
        None => None,
        Some(_) => without_records(alloc, m).ok(),
    }
}

// Puts references at the end of others.
fn append(more: Vec<Ref>, refs: &mut Vec<Ref>) -> Result<(), AllocError>
    ensures { IfOk result (λ _. refs.new.items ≡ refs.old.items ++ more.items) }
{
    for reference in more {
        refs.push(reference)?;
    }
    Ok(())
}

// References with more behind them; none where memory lacks, or where they are more than `most`.
fn with_more(refs: Listing<Ref>, more: Vec<Ref>, most: usize) -> Option<Listing<Ref>>
    ensures { IfSome result (λ all. all ≡ refs ++ more.items) }
{
    let mut all = refs.into_vec();
    match append(more, &mut all) {
        Ok(()) if all.len() <= most => Some(Listing::from_vec(all)),
        _ => None,
    }
}

/// The references gathered before, and behind them those that an event about one reached between two states, of which the first has no records. None
/// where none are gathered, where memory lacks, or where there are more than rows that hold one: then it is less to compare all rows.
pub(crate) fn gathered(
    alloc: Global,
    reached: Option<Listing<Ref>>,
    before: &Option<Box<State>>,
    reference: &Ref,
    after: &State,
) -> Option<Listing<Ref>>
    ensures { (m : StateValue) → IfSome before.now (λ b. b.value ≡ record m { records = [] }) → IsGathered reached m reference.now after.now result }
{
    match (reached, before) {
        (Some(refs), Some(before)) => match refs_of(alloc, reference, before, after) {
            Ok(more) => with_more(refs, more, after.holders.len()),
            Err(_) => None,
        },
        _ => None,
    }
}
