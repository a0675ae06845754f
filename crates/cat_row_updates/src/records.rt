//! The row of a record, with the arrival numbers of its offers.
ghost use Rattle.std.specs.Prelude.{◌≡◌, IfOk, OnOk, map, option_map, unwrap_or};
ghost use Rattle.cat_collections.specs.Table.{get, puts, text_cmp};
ghost use Rattle.cat_row_updates.specs.Places as spec;

use cat_collections::listing::{Copied, Listing};
use cat_collections::map::Map;
use cat_model::rows::IndexedRows;
use cat_model::types::{Record, State};
use cat_row_format::row::{StoredOffer, StoredOutput, StoredRow};
use cat_types::input::Offered;
use cat_types::reference::Ref;
use cat_types::work::Output;
use std::alloc::{AllocError, Global};

// The arrival numbers of the rows of one entity, by their references.
type Arrivals = Map<Ref, u64>;

// Puts the arrival number of a row under its reference.
fn note_row(
    alloc: Global,
    arrivals: &mut Arrivals,
    rows: &IndexedRows,
    arrival: u64,
) -> Result<(), AllocError>
    ensures { OnOk result (arrivals.new ≡ puts text_cmp (spec.noted_at rows.now arrival) arrivals.old) }
{
    match rows.get(&arrival) {
        None => Ok(()),
        Some(row) => arrivals.put(alloc, row.reference.duplicate(alloc)?, arrival),
    }
}

// The arrival numbers of the rows of an entity, by their references.
#[tactic(auto, using(cat_stored_rows::proofs::Putting::puts_parts))]
fn arrivals_of(alloc: Global, rows: &IndexedRows, entity: &Ref) -> Result<Arrivals, AllocError>
    ensures { IfOk result (λ arrivals. arrivals ≡ spec.arrivals_of rows.now entity.now) }
{
    let given = rows.given(alloc, entity)?;
    let mut arrivals = Map::new();
    for arrival in given.as_slice() {
        note_row(alloc, &mut arrivals, rows, *arrival)?;
    }
    Ok(arrivals)
}

// The number under a reference; 0 where there is none.
fn number_at(numbers: &Map<Ref, u64>, reference: &Ref) -> u64
    ensures { result ≡ unwrap_or (get numbers.now reference.now) 0 }
{
    match numbers.get(reference) {
        Some(number) => *number,
        None => 0,
    }
}

// What a record's row has of an offer.
fn offer_row(
    alloc: Global,
    arrivals: &Arrivals,
    reference: &Ref,
    offered: &Offered,
) -> Result<StoredOffer, AllocError>
    ensures { IfOk result (λ offer. offer ≡ spec.offer_with (get arrivals.now) (reference.now, offered.now)) }
{
    Ok(StoredOffer {
        arrival: number_at(arrivals, reference),
        key: offered.key.duplicate(alloc)?,
        reference: reference.duplicate(alloc)?,
        tree: None,
    })
}

// What a record's row has of offers.
fn offer_rows(
    alloc: Global,
    arrivals: &Arrivals,
    offers: &[(Ref, Offered)],
) -> Result<Listing<StoredOffer>, AllocError>
    ensures { IfOk result (λ rows. rows ≡ map (spec.offer_with (get arrivals.now)) offers.now) }
{
    let mut rows = Vec::with_capacity(alloc, offers.len())?;
    for (reference, offered) in offers {
        rows.push(offer_row(alloc, arrivals, reference, offered)?)?;
    }
    Ok(Listing::from_vec(rows))
}

// What a record's row has of what it gave last.
fn output_row(
    alloc: Global,
    arrivals: &Arrivals,
    output: &Option<Output>,
) -> Result<Option<StoredOutput>, AllocError>
    ensures { IfOk result (λ row. row ≡ option_map (spec.output_with (get arrivals.now)) output.now) }
{
    match output {
        None => Ok(None),
        Some(output) => {
            let entity = output.entity.duplicate(alloc)?;
            let offers = offer_rows(alloc, arrivals, output.offers.as_slice())?;
            Ok(Some(StoredOutput { entity, offers }))
        }
    }
}

// The row of a record.
fn record_row(
    alloc: Global,
    holders: &Map<Ref, u64>,
    arrivals: &Arrivals,
    reference: &Ref,
    record: &Record,
) -> Result<StoredRow, AllocError>
    ensures { IfOk result (λ row. row ≡ spec.record_with (get arrivals.now) holders.now (reference.now, «record».now)) }
{
    let issues = record.issues.duplicate(alloc)?;
    let output = output_row(alloc, arrivals, &record.output)?;
    Ok(StoredRow::Record {
        reference: reference.duplicate(alloc)?,
        holder: number_at(holders, reference),
        issues,
        number: record.number,
        output,
    })
}

/// The row of a record, if there is one. Of the rows of the catalogue only those that it gave are looked at.
pub fn record_at(alloc: Global, m: &State, reference: &Ref) -> Result<Option<StoredRow>, AllocError>
    ensures { IfOk result (λ row. row ≡ spec.record_at m.now reference.now) }
{
    match m.records.get(reference) {
        None => Ok(None),
        Some(record) => {
            let arrivals = arrivals_of(alloc, &m.rows, reference)?;
            let row = record_row(alloc, &m.holders, &arrivals, reference, record)?;
            Ok(Some(row))
        }
    }
}
