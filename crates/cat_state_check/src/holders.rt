//! Whether the holders of a candidate hold.
ghost use Rattle.std.specs.Prelude.{◌≡◌, option_map};
ghost use Rattle.std.specs.List.{list_all};
ghost use Rattle.cat_model.specs.Catalogue.{row_at};
ghost use Rattle.cat_state_check.specs.Candidate as spec;
ghost use Rattle.cat_state_check.specs.Above as spec_above;

use cat_collections::key::Key;
use cat_collections::map::Map;
use cat_model::rows::IndexedRows;
use cat_model::types::{Origin, Row, State};
use cat_types::reference::Ref;
use std::cmp::Ordering;

// What is above a row: a provider, the row that holds its emitter, or nothing.
#[derive(Clone, Copy, Drop)]
enum Above {
    Giver,
    Holder(u64),
    Nothing,
}

fn above_emitter(holder: Option<&u64>) -> Above
    ensures { result ≡ spec_above.above_holder (option_map (λ x. x.now) holder.entry) }
{
    match holder {
        None => Above::Nothing,
        Some(arrival) => Above::Holder(*arrival),
    }
}

fn above_row(holders: &Map<Ref, u64>, row: Option<&Row>) -> Above
    ensures { result ≡ spec_above.above_row holders.now (option_map (λ x. x.now) row.entry) }
{
    match row {
        None => Above::Nothing,
        Some(row) => match &row.origin {
            Origin::Provider(_) => Above::Giver,
            Origin::Entity(e) => above_emitter(holders.get(e)),
        },
    }
}

fn above_arrival(rows: &IndexedRows, holders: &Map<Ref, u64>, arrival: u64) -> Above
    ensures { result ≡ spec_above.above_row holders.now (row_at rows.now arrival) }
{
    above_row(holders, rows.get(&arrival))
}

// Whether the chain of origins from the row with this arrival reaches a provider, within so many steps.
fn reaches_provider(rows: &IndexedRows, holders: &Map<Ref, u64>, most: usize, arrival: u64) -> bool
    ensures { result ≡ spec_above.climbs_from rows.now holders.now most arrival }
{
    let mut at = arrival;
    let mut left = most;
    while left > 0 {
        left -= 1;
        match above_arrival(rows, holders, at) {
            Above::Giver => return true,
            Above::Nothing => return false,
            Above::Holder(next) => at = next,
        }
    }
    false
}

fn is_row_of(reference: &Ref, row: Option<&Row>) -> bool
    ensures { result ≡ spec.is_row_of reference.now (option_map (λ x. x.now) row.entry) }
{
    match row {
        None => false,
        Some(row) => row.reference.compare(reference) == Ordering::Equal,
    }
}

fn is_right_holder(m: &State, reference: &Ref, arrival: u64) -> bool
    ensures { result ≡ spec.is_right_holder m.now (reference.now, arrival) }
{
    is_row_of(reference, m.rows.get(&arrival))
        && reaches_provider(&m.rows, &m.holders, m.holders.len(), arrival)
        && m.records.get(reference).is_some()
}

/// Whether each holder is a row of its reference, is rooted, and has a record.
pub fn are_right_holders(m: &State) -> bool
    ensures { result ≡ list_all (spec.is_right_holder m.now) m.now.holders }
{
    for (reference, arrival) in m.holders.iter() {
        if !is_right_holder(m, reference, *arrival) {
            return false;
        }
    }
    true
}
