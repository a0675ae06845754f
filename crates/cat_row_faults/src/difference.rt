//! The first row by which the rows of a store differ from others.
ghost use Rattle.std.specs.Prelude.{◌≡◌, ◌≢◌, ◌≤◌, IfOk, IsTrue, MatchOption, ◌↔◌, false, option_map, true};
ghost use Rattle.cat_row_faults.specs.Difference.{PartAt, earlier};

use crate::first::row_at;
use cat_collections::key::Key;
use cat_keeper::rows::StoredRows;
use cat_keeper::table::Table;
use cat_tree::text::Text;
use std::alloc::{AllocError, Global};
use std::cmp::Ordering;

/// Whether two rows are one.
pub fn is_same_row(left: &((Table, Text), Text), right: &((Table, Text), Text)) -> bool
    ensures { IsTrue result ↔ (left.now ≡ right.now) }
{
    left.0.0 == right.0.0
        && left.0.1.as_str() == right.0.1.as_str()
        && left.1.as_str() == right.1.as_str()
}

// Whether neither is there, or both are and are one.
fn is_same(left: Option<&((Table, Text), Text)>, right: Option<&((Table, Text), Text)>) -> bool
    ensures same { result ≡ true → option_map (λ e. e.now) left.entry ≡ option_map (λ e. e.now) right.entry }
    ensures differ { result ≡ false → option_map (λ e. e.now) left.entry ≢ option_map (λ e. e.now) right.entry }
{
    match (left, right) {
        (None, None) => true,
        (Some(left), Some(right)) => is_same_row(left, right),
        _ => false,
    }
}

// The earlier of two keys, where there are two.
fn earlier(left: Option<(Table, Text)>, right: Option<(Table, Text)>) -> Option<(Table, Text)>
    ensures { result ≡ earlier left right }
{
    match (left, right) {
        (Some(left), Some(right)) => match left.compare(&right) {
            Ordering::Less => Some(left),
            _ => Some(right),
        },
        (Some(left), None) => Some(left),
        (None, right) => right,
    }
}

fn longer(left: usize, right: usize) -> usize
    ensures left { left ≤ result }
    ensures right { right ≤ result }
{
    if left < right { right } else { left }
}

/// The key of the first row by which rows differ from others, of two rows the earlier one; none where they are the same.
pub fn first_difference(
    alloc: Global,
    rows: &StoredRows,
    others: &StoredRows,
) -> Result<Option<(Table, Text)>, AllocError>
    ensures { IfOk result (λ key. MatchOption key (rows.now ≡ others.now) (PartAt rows.now others.now)) }
{
    let most = longer(rows.len(), others.len());
    let mut place = 0;
    while place < most {
        if !is_same(rows.at(place), others.at(place)) {
            let left = row_at(alloc, rows, place)?;
            let right = row_at(alloc, others, place)?;
            return Ok(earlier(left, right));
        }
        place += 1;
    }
    Ok(None)
}
