//! The row of an item, which is found by its reference.
ghost use Rattle.std.specs.Prelude.{◌≡◌, IfOk, option_map};
ghost use Rattle.cat_model.specs.Rows.{row_at};
ghost use Rattle.cat_model.specs.declared.types.Origin.TheVariants.{Entity as OfEntity, Provider as OfProvider};
ghost use Rattle.cat_row_updates.specs.Places as spec;

use cat_collections::key::Key;
use cat_collections::listing::Copied;
use cat_model::rows::IndexedRows;
use cat_model::types::{Origin, Row, State};
use cat_row_format::row::StoredRow;
use cat_tree::text::Text;
use cat_types::reference::Ref;
use std::alloc::{AllocError, Global};
use std::cmp::Ordering;

// Whether a row is the item of a provider under a reference.
fn is_item(provider: &Text, reference: &Ref, row: &Row) -> bool
    ensures { result ≡ spec.is_of (OfProvider provider.now) reference.now (Some row.now) }
{
    match &row.origin {
        Origin::Provider(name) => {
            provider.compare(name) == Ordering::Equal
                && reference.compare(&row.reference) == Ordering::Equal
        }
        Origin::Entity(_) => false,
    }
}

/// Whether there is a row, and it is the offer of an entity under a reference.
pub fn is_offer(entity: &Ref, reference: &Ref, row: Option<&Row>) -> bool
    ensures { result ≡ spec.is_of (OfEntity entity.now) reference.now (option_map (λ x. x.now) row.entry) }
{
    match row {
        None => false,
        Some(row) => match &row.origin {
            Origin::Provider(_) => false,
            Origin::Entity(emitter) => {
                entity.compare(emitter) == Ordering::Equal
                    && reference.compare(&row.reference) == Ordering::Equal
            }
        },
    }
}

// A row as the item of a provider under a reference, if it is that.
fn item_of(
    alloc: Global,
    provider: &Text,
    reference: &Ref,
    arrival: u64,
    row: &Row,
) -> Result<Option<StoredRow>, AllocError>
    ensures { IfOk result (λ item. item ≡ spec.item_of provider.now reference.now arrival row.now) }
{
    if is_item(provider, reference, row) {
        Ok(Some(StoredRow::Item {
            provider: provider.duplicate(alloc)?,
            reference: reference.duplicate(alloc)?,
            arrival,
            key: row.offered.key.duplicate(alloc)?,
        }))
    } else {
        Ok(None)
    }
}

// The row with an arrival number as the item of a provider under a reference, if it is that.
fn item_as(
    alloc: Global,
    rows: &IndexedRows,
    provider: &Text,
    reference: &Ref,
    arrival: u64,
) -> Result<Option<StoredRow>, AllocError>
    ensures { IfOk result (λ item. item ≡ spec.item_as provider.now reference.now arrival (row_at rows.now arrival)) }
{
    match rows.get(&arrival) {
        None => Ok(None),
        Some(row) => item_of(alloc, provider, reference, arrival, row),
    }
}

// The first of the rows with these arrival numbers that is the item.
fn item_among(
    alloc: Global,
    rows: &IndexedRows,
    provider: &Text,
    reference: &Ref,
    arrivals: &[u64],
) -> Result<Option<StoredRow>, AllocError>
    ensures { IfOk result (λ item. item ≡ spec.item_among rows.now provider.now reference.now arrivals.now) }
{
    for arrival in arrivals {
        if let Some(item) = item_as(alloc, rows, provider, reference, *arrival)? {
            return Ok(Some(item));
        }
    }
    Ok(None)
}

/// The row of an item, if there is one. It is looked for at this arrival number, and then among the rows of its reference.
pub fn item_at(
    alloc: Global,
    m: &State,
    provider: &Text,
    reference: &Ref,
    arrival: u64,
) -> Result<Option<StoredRow>, AllocError>
    ensures { IfOk result (λ item. item ≡ spec.item_at m.now provider.now reference.now arrival) }
{
    match item_as(alloc, &m.rows, provider, reference, arrival)? {
        Some(item) => Ok(Some(item)),
        None => {
            let arrivals = m.rows.named(alloc, reference)?;
            item_among(alloc, &m.rows, provider, reference, arrivals.as_slice())
        }
    }
}
