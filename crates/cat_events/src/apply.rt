//! A plan is made to stand: its room is taken first, and then nothing can fail.
ghost use Rattle.std.specs.Prelude.{◌≡◌, [], is_ok, if◌then◌else◌, IfOk};
ghost use Rattle.cat_plan.specs.Amended.{amended};
ghost use Rattle.cat_events.specs.Planned.{given_by, planned, with_marks, with_orphans, with_records, without_documents};

use crate::plan::{Inputs, Plan};
use cat_claims::types::Claimed;
use cat_collections::listing::Listing;
use cat_collections::map::Map;
use cat_collections::tree::MOST;
use cat_links::links::Links;
use cat_model::records::ready;
use cat_model::types::{Orphan, Record, State};
use cat_plan::amended::Amendment;
use cat_state_parts::index::Index;
use cat_types::reference::Ref;
use std::alloc::{AllocError, Global};

// A map without the entries of some references, and then with others put. What stays is shared.
fn amended_map<X: Drop>(
    alloc: Global,
    map: &Map<Ref, X>,
    put: Vec<(Ref, X)>,
    gone: &[Ref],
) -> Result<Map<Ref, X>, AllocError>
    ensures { IfOk result (λ next. next ≡ amended put.items gone.now map.now) }
{
    let mut next = map.share()?;
    for reference in gone {
        next.remove(alloc, reference)?;
    }
    next.put_all(alloc, put)?;
    Ok(next)
}

// The documents without those of some references. What stays is shared.
fn left_documents(alloc: Global, documents: &Index, gone: &[Ref]) -> Result<Index, AllocError>
    ensures { IfOk result (λ next. next ≡ amended [] gone.now documents.now) }
{
    let mut next = documents.share()?;
    for reference in gone {
        next.remove(alloc, reference)?;
    }
    Ok(next)
}

// The documents of some references go.
fn amend_documents(alloc: Global, gone: Listing<Ref>, state: &mut State) -> Result<(), AllocError>
    ensures { state.new ≡ (if is_ok result then without_documents gone state.old else state.old) }
{
    state.documents = left_documents(alloc, &state.documents, gone.as_slice())?;
    Ok(())
}

// Marks are amended where the documents could be.
fn amend_marks(
    alloc: Global,
    marks: Amendment<u64>,
    gone: Listing<Ref>,
    state: &mut State,
) -> Result<(), AllocError>
    ensures { state.new ≡ (if is_ok result then with_marks marks gone state.old else state.old) }
{
    let after = state
        .marks
        .amended(alloc, marks.put, marks.gone.as_slice())?;
    amend_documents(alloc, gone, state)?;
    state.marks = after;
    Ok(())
}

// Orphans are amended where marks and documents could be.
fn amend_orphans(
    alloc: Global,
    orphans: Amendment<Orphan>,
    marks: Amendment<u64>,
    gone: Listing<Ref>,
    state: &mut State,
) -> Result<(), AllocError>
    ensures { state.new ≡ (if is_ok result then with_orphans orphans marks gone state.old else state.old) }
{
    let after = amended_map(alloc, &state.orphans, orphans.put, orphans.gone.as_slice())?;
    amend_marks(alloc, marks, gone, state)?;
    state.orphans = after;
    Ok(())
}

// Records are amended where all other tables could be. Their memory is taken before.
fn amend_records(
    alloc: Global,
    records: Amendment<Record>,
    orphans: Amendment<Orphan>,
    marks: Amendment<u64>,
    gone: Listing<Ref>,
    state: &mut State,
) -> Result<(), AllocError>
    ensures { state.new ≡ (if is_ok result then with_records records orphans marks gone state.old else state.old) }
{
    let ready = ready(alloc, records.put)?;
    if ready.len() > MOST - state.records.len() {
        return Err(AllocError);
    }
    amend_orphans(alloc, orphans, marks, gone, state)?;
    state.records.amend(ready, records.gone.as_slice());
    Ok(())
}

// The inputs and the claims of a plan are taken in. Takes no memory.
fn take_given(inputs: Inputs, claims: Option<Box<Claimed>>, state: &mut State)
    ensures { state.new ≡ given_by inputs claims state.old }
{
    match inputs {
        Inputs::Same => {}
        Inputs::Providers(after) => state.providers = after,
        Inputs::Shelf(after) => state.shelf = after,
    }
    take_claims(claims, state);
}

// The claims of a plan are taken in. Takes no memory.
fn take_claims(claims: Option<Box<Claimed>>, state: &mut State)
    ensures { state.new ≡ given_by Inputs.Same claims state.old }
{
    match claims {
        None => {}
        Some(claimed) => {
            let claimed = Box::into_inner(claimed);
            state.rows = claimed.rows;
            state.holders = claimed.holders;
            state.arrival = claimed.arrival;
        }
    }
}

/// A plan comes true. Where memory is wanted for its room, nothing changes.
pub fn applied(
    alloc: Global,
    plan: Plan,
    state: &mut State,
    links: &mut Links,
) -> Result<(), AllocError>
    ensures state { state.new ≡ (if is_ok result then planned plan state.old else state.old) }
    ensures links { links.new ≡ (if is_ok result then plan.following.links.after else links.old) }
{
    let Plan {
        inputs,
        claims,
        following,
    } = plan;
    let records = following.records;
    let marks = following.marks;
    amend_records(
        alloc,
        records.records,
        records.orphans,
        marks.marks,
        marks.documents,
        state,
    )?;
    state.number = records.number;
    state.ticket = marks.ticket;
    take_given(inputs, claims, state);
    links.apply(following.links);
    Ok(())
}
