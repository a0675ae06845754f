//! Claiming among the rows that wait.
ghost use Rattle.std.specs.Prelude.{◌≡◌, ◌++◌, [], IfOk, IfSome, Some, length};
ghost use Rattle.std.specs.List.{cons_option};
ghost use Rattle.cat_collections.specs.Table.{keys};
ghost use Rattle.cat_model.specs.Catalogue.{claim, claims, held, hold, may_offer};
ghost use Rattle.cat_model.specs.Rows.{given, named, row_at};
ghost use Rattle.cat_model.specs.declared.types.Origin.TheVariants.{Entity};
ghost use Rattle.cat_claims.specs.Change.{AreAmong};
ghost use Rattle.cat_claims.specs.Touched.{AreKeptBut};
ghost use Rattle.cat_claims.specs.Waiting.{AllWait, HasClaimed, IsFound, IsPopped};

use cat_collections::listing::{Copied, Listing};
use cat_collections::map::Map;
use cat_model::rows::IndexedRows;
use cat_model::types::{Origin, Row};
use cat_types::reference::Ref;
use std::alloc::{AllocError, Global};

// These arrivals wait too.
fn put_arrivals(
    alloc: Global,
    arrivals: &[u64],
    waiting: &mut Map<u64, ()>,
) -> Result<(), AllocError>
    ensures { IfOk result (λ _. AreAmong (arrivals.now ++ keys waiting.old) (keys waiting.new)) }
{
    for arrival in arrivals.iter() {
        waiting.put(alloc, *arrival, ())?;
    }
    Ok(())
}

// The rows that an entity gave wait too.
fn open(
    alloc: Global,
    rows: &IndexedRows,
    entity: &Ref,
    waiting: &mut Map<u64, ()>,
) -> Result<(), AllocError>
    ensures { IfOk result (λ _. AreAmong (given rows.now (Entity entity.now) ++ keys waiting.old) (keys waiting.new)) }
{
    let arrivals = rows.given(alloc, entity)?;
    put_arrivals(alloc, arrivals.as_slice(), waiting)
}

/// The rows of a reference wait too.
pub fn call(
    alloc: Global,
    rows: &IndexedRows,
    reference: &Ref,
    waiting: &mut Map<u64, ()>,
) -> Result<(), AllocError>
    ensures { IfOk result (λ _. AreAmong (named rows.now reference.now ++ keys waiting.old) (keys waiting.new)) }
{
    let arrivals = rows.named(alloc, reference)?;
    put_arrivals(alloc, arrivals.as_slice(), waiting)
}

fn is_held(holders: &Map<Ref, u64>, reference: &Ref) -> bool
    ensures { result ≡ held holders.now reference.now }
{
    holders.get(reference).is_some()
}

fn may(holders: &Map<Ref, u64>, origin: &Origin) -> bool
    ensures { result ≡ may_offer holders.now origin.now }
{
    match origin {
        Origin::Provider(_) => true,
        Origin::Entity(e) => is_held(holders, e),
    }
}

// Whether a row may claim its reference now.
fn may_claim(rows: &IndexedRows, holders: &Map<Ref, u64>, arrival: u64) -> bool
    ensures { result ≡ claims holders.now (row_at rows.now arrival) }
{
    match rows.get(&arrival) {
        Some(row) => !is_held(holders, &row.reference) && may(holders, &row.origin),
        None => false,
    }
}

// Takes the first arrival off.
fn pop(alloc: Global, waiting: &mut Map<u64, ()>) -> Result<Option<u64>, AllocError>
    ensures { IfOk result (λ found. IsPopped waiting.old found waiting.new) }
{
    let Some(entry) = waiting.at(0) else {
        return Ok(None);
    };
    let arrival = entry.0;
    waiting.remove(alloc, &arrival)?;
    Ok(Some(arrival))
}

// Takes arrivals off until one may claim its reference.
fn next_claim(
    alloc: Global,
    rows: &IndexedRows,
    holders: &Map<Ref, u64>,
    waiting: &mut Map<u64, ()>,
) -> Result<Option<u64>, AllocError>
    ensures { IfOk result (λ found. IsFound (λ a. claims holders.now (row_at rows.now a)) (keys waiting.old) found (keys waiting.new)) }
{
    while let Some(arrival) = pop(alloc, waiting)? {
        if may_claim(rows, holders, arrival) {
            return Ok(Some(arrival));
        }
    }
    Ok(None)
}

// The row holds its reference.
fn take_hold(
    alloc: Global,
    arrival: u64,
    row: &Row,
    holders: &mut Map<Ref, u64>,
) -> Result<(), AllocError>
    ensures { IfOk result (λ _. holders.new ≡ hold arrival (Some row.now) holders.old) }
{
    holders.put(alloc, row.reference.duplicate(alloc)?, arrival)
}

// The first row that may claim its reference does, if any may; gives the reference.
fn claim_once(
    alloc: Global,
    rows: &IndexedRows,
    waiting: &mut Map<u64, ()>,
    holders: &mut Map<Ref, u64>,
) -> Result<Option<Ref>, AllocError>
    requires waits { AllWait rows.now (keys waiting.now) holders.now }
    ensures claims { IfOk result (λ claimed. HasClaimed rows.now holders.old claimed holders.new) }
    ensures waits { IfOk result (λ _. AllWait rows.now (keys waiting.new) holders.new) }
    ensures others { IfOk result (λ claimed. AreKeptBut (cons_option claimed []) holders.old holders.new) }
{
    rows.in_order();
    waiting.in_order();
    let Some(arrival) = next_claim(alloc, rows, holders, waiting)? else {
        return Ok(None);
    };
    let Some(row) = rows.get(&arrival) else {
        return Ok(None);
    };
    open(alloc, rows, &row.reference, waiting)?;
    take_hold(alloc, arrival, row, holders)?;
    Ok(Some(row.reference.duplicate(alloc)?))
}

/// As long as one of the rows may claim its reference, the one of least arrival does, where all that may do so at first wait.
/// Gives the references that were claimed: all others are held as before.
pub fn claim_waiting(
    alloc: Global,
    rows: &IndexedRows,
    waiting: Map<u64, ()>,
    holders: &mut Map<Ref, u64>,
) -> Result<Listing<Ref>, AllocError>
    requires waits { AllWait rows.now (keys waiting) holders.now }
    ensures holders { IfOk result (λ _. holders.new ≡ claim (length rows.now) rows.now (keys rows.now) holders.old) }
    ensures others { IfOk result (λ claimed. AreKeptBut claimed holders.old holders.new) }
{
    let mut waiting = waiting;
    let mut claimed = Listing::new(alloc);
    let mut left = rows.len();
    while left > 0 {
        let Some(reference) = claim_once(alloc, rows, &mut waiting, holders)? else {
            return Ok(claimed);
        };
        claimed.push(reference)?;
        left -= 1;
    }
    Ok(claimed)
}
