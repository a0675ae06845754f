//! The rows that wait, one by one and without memory.
ghost use Rattle.std.specs.Prelude.{◌≡◌, ◌&&◌, IsTrue, Option, is_some, option_map, option_and_then, slice_get};
ghost use Rattle.std.specs.declared.option.Option.TheVariants.{None, Some};
ghost use Rattle.std.specs.FinMap.Entries.{is_sorted};
ghost use Rattle.std.specs.Ordering.{nat_cmp};
ghost use Rattle.cat_model.specs.Catalogue.{row_at};
ghost use Rattle.cat_model.specs.Reply.{place_cmp, waiting, waits};
ghost use Rattle.cat_core.specs.Least.{nearer};
ghost use Rattle.cat_core.specs.Waits.{is_above, nearest, next_waiting, place_of, waits_at};

use cat_collections::key::Key;
use cat_model::rows::IndexedRows;
use cat_model::types::{Row, State};
use std::cmp::Ordering;

// Rows by reference, and then by arrival.
fn compare_places(row: &(u64, Row), other: &(u64, Row)) -> Ordering
    ensures { result ≡ place_cmp (place_of row.now) (place_of other.now) }
{
    match row.1.reference.compare(&other.1.reference) {
        Ordering::Less => Ordering::Less,
        Ordering::Equal => row.0.compare(&other.0),
        Ordering::Greater => Ordering::Greater,
    }
}

// The row under an arrival, where it doesn't hold its reference.
fn waits(m: &State, arrival: u64) -> Option<&Row>
    ensures { option_map (λ x. x.now) result ≡ waits m.now arrival (row_at m.now.rows arrival) }
{
    let row = m.rows.get(&arrival)?;
    match m.holders.get(&row.reference) {
        Some(holder) if *holder == arrival => None,
        _ => Some(row),
    }
}

fn is_above(after: Option<&(u64, Row)>, row: &(u64, Row)) -> bool
    ensures { result ≡ is_above place_cmp (option_map (λ e. place_of e.now) after.entry) (place_of row.now) }
{
    match after {
        None => true,
        Some(after) => compare_places(row, after) == Ordering::Greater,
    }
}

// Whether a row doesn't hold its reference.
fn is_waiting(m: &State, row: &(u64, Row)) -> bool
    ensures { result ≡ is_some (waits m.now row.now.0 (Some row.now.1)) }
{
    match m.holders.get(&row.1.reference) {
        Some(holder) => *holder != row.0,
        None => true,
    }
}

fn comes_after(m: &State, after: Option<&(u64, Row)>, row: &(u64, Row)) -> bool
    ensures { result ≡ (is_above place_cmp (option_map (λ e. place_of e.now) after.entry) (place_of row.now) && is_some (waits m.now row.now.0 (Some row.now.1))) }
{
    is_above(after, row) && is_waiting(m, row)
}

// The one of two rows with the lesser place; the first counts only where it passes.
fn nearer<'a>(
    passes: bool,
    row: &'a (u64, Row),
    best: Option<&'a (u64, Row)>,
) -> Option<&'a (u64, Row)>
    ensures { option_map (λ e. place_of e.now) result ≡ nearer place_cmp passes (place_of row.now) (option_map (λ e. place_of e.now) best.entry) }
{
    if !passes {
        return best;
    }
    match best {
        None => Some(row),
        Some(other) => {
            if compare_places(row, other) == Ordering::Greater {
                Some(other)
            } else {
                Some(row)
            }
        }
    }
}

// Of these rows, the next that waits, or the first.
fn nearest<'a>(
    m: &State,
    rows: &'a IndexedRows,
    after: Option<&(u64, Row)>,
) -> Option<&'a (u64, Row)>
    ensures { option_map (λ e. place_of e.now) result ≡ nearest m.now (option_map (λ e. place_of e.now) after.entry) rows.now }
{
    let mut best = None;
    for row in rows.iter() {
        best = nearer(comes_after(m, after, row), row, best);
    }
    best
}

// The next row that waits, or the first.
fn next_waiting<'a>(m: &'a State, after: Option<&(u64, Row)>) -> Option<&'a (u64, Row)>
    requires { IsTrue (is_sorted nat_cmp m.now.rows) }
    ensures { option_map (λ e. place_of e.now) result ≡ next_waiting m.now (option_map (λ e. place_of e.now) after.entry) }
{
    nearest(m, &m.rows, after)
}

fn next_after<'a>(m: &'a State, found: Option<&'a (u64, Row)>) -> Option<&'a (u64, Row)>
    requires { IsTrue (is_sorted nat_cmp m.now.rows) }
    ensures { option_map (λ e. place_of e.now) result ≡ option_and_then (λ k. next_waiting m.now (Some k)) (option_map (λ e. place_of e.now) found.entry) }
{
    match found {
        None => None,
        Some(_) => next_waiting(m, found),
    }
}

fn row_found<'a>(m: &'a State, found: Option<&'a (u64, Row)>) -> Option<&'a Row>
    ensures { option_map (λ x. x.now) result ≡ option_and_then (waits_at m.now) (option_map (λ e. place_of e.now) found.entry) }
{
    match found {
        None => None,
        Some(found) => waits(m, found.0),
    }
}

/// The row at this place, from 0, among those that don't hold their reference, by reference and then by arrival. No memory is
/// taken, but all rows are gone over once for each place up to this one.
pub(crate) fn waiting_at(m: &State, place: u64) -> Option<&Row>
    requires { IsTrue (is_sorted nat_cmp m.now.rows) }
    ensures { option_map (λ x. x.now) result ≡ option_map (λ e. e.1) (slice_get (waiting m.now) place) }
{
    let mut found = next_waiting(m, None);
    let mut before = 0;
    while before < place {
        if found.is_none() {
            return None;
        }
        found = next_after(m, found);
        before += 1;
    }
    row_found(m, found)
}
