//! Which records are rooted: the way up from the row that holds one comes to a provider.
ghost use Rattle.std.specs.Prelude.{◌≡◌, option_map};
ghost use Rattle.cat_row_faults.specs.Rules as spec;
ghost use Rattle.cat_row_faults.specs.Told.{asked};

use crate::told::{Given, Giver, Told};
use cat_types::reference::Ref;

/// What is above a row: the provider that gave it, the row that holds the record that gave it, or nothing.
#[derive(Clone, Copy, Drop)]
pub enum Above {
    Top,
    Row(u64),
    Nothing,
}

fn is_row_of(reference: &Ref, row: Option<&Given>) -> bool
    ensures { result ≡ spec.is_row_of reference.now (option_map (λ x. x.now) row.entry) }
{
    match row {
        None => false,
        Some(row) => row.reference.as_str() == reference.as_str(),
    }
}

fn above_record(told: &Told, reference: &Ref) -> Above
    ensures { result ≡ spec.above_giver (asked told.now) (Giver.Record reference.now) }
{
    match told.holders.get(reference) {
        None => Above::Nothing,
        Some(holder) => {
            if is_row_of(reference, told.given.get(holder)) {
                Above::Row(*holder)
            } else {
                Above::Nothing
            }
        }
    }
}

fn above_row(told: &Told, row: Option<&Given>) -> Above
    ensures { result ≡ spec.above (asked told.now) (option_map (λ x. x.now) row.entry) }
{
    match row {
        None => Above::Nothing,
        Some(row) => match &row.giver {
            Giver::Provider => Above::Top,
            Giver::Record(reference) => above_record(told, reference),
        },
    }
}

// Whether the way up from the row with this arrival number comes to a provider within so many steps.
fn climbs(told: &Told, steps: usize, arrival: u64) -> bool
    ensures { result ≡ spec.climbs (asked told.now) steps arrival }
{
    let mut at = arrival;
    let mut left = steps;
    while left > 0 {
        left -= 1;
        match above_row(told, told.given.get(&at)) {
            Above::Top => return true,
            Above::Row(next) => at = next,
            Above::Nothing => return false,
        }
    }
    false
}

/// Whether the row that holds a record is of its reference, and the way up from it comes to a provider.
pub fn is_rooted(told: &Told, reference: &Ref, holder: u64) -> bool
    ensures { result ≡ spec.is_rooted (asked told.now) reference.now holder }
{
    is_row_of(reference, told.given.get(&holder)) && climbs(told, told.records, holder)
}
