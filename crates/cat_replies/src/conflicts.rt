//! Rows that wait with another key than the row that holds their reference.
ghost use Rattle.std.specs.Prelude.{◌≡◌, ◌++◌, IfOk, OnOk, map, option_map};
ghost use Rattle.cat_model.specs.Catalogue.{holding, row_at};
ghost use Rattle.cat_model.specs.Reply as spec;
ghost use Rattle.cat_collections.specs.Table.{put_some};
ghost use Rattle.cat_replies.specs.Shown as seen;

use cat_collections::key::Key;
use cat_collections::listing::Copied;
use cat_collections::map::Map;
use cat_model::rows::IndexedRows;
use cat_model::types::{Row, State};
use cat_types::reference::Ref;
use std::alloc::{AllocError, Global};
use std::cmp::Ordering;

/// A row that waits with another key than the holder's, and the holder.
#[derive(Clone, Copy, Drop)]
pub struct Conflict<'a> {
    pub holder: &'a Row,
    pub waiting: &'a Row,
}

// A reference and an arrival.
#[derive(Drop)]
struct Place {
    reference: Ref,
    arrival: u64,
}

impl Key for Place {
    ghost use Rattle.cat_replies.specs.Places.{place_apart, place_order, place_total};

    ghost order = { place_order };

    ghost total = { place_total };

    ghost apart = { place_apart };

    fn compare(&self, other: &Self) -> Ordering {
        match self.reference.compare(&other.reference) {
            Ordering::Less => Ordering::Less,
            Ordering::Equal => self.arrival.compare(&other.arrival),
            Ordering::Greater => Ordering::Greater,
        }
    }
}

/// The conflicts of a catalogue, by reference and arrival. The error is want of memory.
pub fn conflicts(alloc: Global, state: &State) -> Result<Vec<Conflict<'_>>, AllocError>
    ensures { IfOk result (λ found. map seen.conflict found.items ≡ spec.conflicts state.now) }
{
    let waiting = waiting(alloc, state)?;
    let mut found = Vec::new(alloc);
    for (place, row) in waiting.iter() {
        push_conflict(&mut found, row, holding(state, &place.reference))?;
    }
    Ok(found)
}

// Adds the row where its key isn't the holder's.
fn push_conflict<'a>(
    found: &mut Vec<Conflict<'a>>,
    row: &'a Row,
    holder: Option<&'a Row>,
) -> Result<(), AllocError>
    ensures { OnOk result (map seen.conflict found.new.items
        ≡ map seen.conflict found.old.items
        ++ spec.conflict_with row.now (option_map (λ x. x.now) holder.entry)) }
{
    match holder {
        Some(holder) => match row.offered.key.compare(&holder.offered.key) {
            Ordering::Equal => Ok(()),
            Ordering::Less | Ordering::Greater => {
                found.push(Conflict {
                    holder,
                    waiting: row,
                })?;
                Ok(())
            }
        },
        None => Ok(()),
    }
}

// The rows, by arrival.
fn entries(alloc: Global, rows: &IndexedRows) -> Result<Vec<&(u64, Row)>, AllocError>
    ensures { IfOk result (λ entries. map (λ e. e.now) entries.items ≡ rows.now) }
{
    let mut entries = Vec::new(alloc);
    for entry in rows.iter() {
        entries.push(entry)?;
    }
    Ok(entries)
}

// The rows that don't hold, by reference and arrival.
fn waiting(alloc: Global, state: &State) -> Result<Map<Place, &Row>, AllocError>
    ensures { IfOk result (λ t. map seen.waiting t ≡ spec.waiting state.now) }
{
    let entries = entries(alloc, &state.rows)?;
    let rows = entries.as_slice();
    let mut found = Map::new();
    let mut place = rows.len();
    while place > 0 {
        place -= 1;
        let entry = rows[place];
        let row = waits(state, entry.0);
        put_waiting(alloc, &mut found, &entry.1.reference, entry.0, row)?;
    }
    Ok(found)
}

// Puts the row at its place, where there is one.
fn put_waiting<'a>(
    alloc: Global,
    found: &mut Map<Place, &'a Row>,
    reference: &Ref,
    arrival: u64,
    row: Option<&'a Row>,
) -> Result<(), AllocError>
    ensures { OnOk result (map seen.waiting found.new
        ≡ put_some spec.place_cmp (reference.now, arrival) (option_map (λ x. x.now) row.entry) (map seen.waiting found.old)) }
{
    match row {
        Some(row) => {
            let reference = reference.duplicate(alloc)?;
            found.put(alloc, Place { reference, arrival }, row)
        }
        None => Ok(()),
    }
}

// The row under an arrival, where it doesn't hold its reference.
fn waits(state: &State, arrival: u64) -> Option<&Row>
    ensures { option_map (λ x. x.now) result
        ≡ spec.waits state.now arrival (row_at state.now.rows arrival) }
{
    let row = state.rows.get(&arrival)?;
    match state.holders.get(&row.reference) {
        Some(holder) if *holder == arrival => None,
        _ => Some(row),
    }
}

// The row that holds a reference.
fn holding<'a>(state: &'a State, reference: &Ref) -> Option<&'a Row>
    ensures { option_map (λ x. x.now) result
        ≡ holding state.now.rows state.now.holders reference.now }
{
    let arrival = state.holders.get(reference)?;
    state.rows.get(arrival)
}
