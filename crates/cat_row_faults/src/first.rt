//! The first row of a store that is at fault.
ghost use Rattle.std.specs.Prelude.{◌≡◌, ◌&&◌, ℕ, IfOk, MatchOption, nat_lt, not};
ghost use Rattle.std.specs.Option.{option_and_then};
ghost use Rattle.cat_row_faults.specs.Named.{missing_or, named_at};
ghost use Rattle.cat_row_faults.specs.First.{IsFirstFault, IsFirstMissing, IsFirstWrong, IsMissing, IsVerdict};
ghost use Rattle.cat_row_faults.specs.Readings.{AreReadings, Readings};
ghost use Rattle.cat_row_faults.specs.Rules as rules;
ghost use Rattle.cat_row_faults.specs.Told.{answers, asked};
ghost use Rattle.cat_keeper.specs.Store.{RowKey};

use crate::readings::readings;
use crate::rules::is_right;
use crate::told::{Told, gathered};
use crate::weigh::{is_input, weighed};
use cat_collections::listing::Copied;
use cat_keeper::rows::StoredRows;
use cat_keeper::table::Table;
use cat_row_format::row::StoredRow;
use cat_tree::text::Text;
use std::alloc::{AllocError, Global};

// Whether a row keeps to the rules, and the input bytes up to it are within the limit where it adds some.
fn keeps(
    alloc: Global,
    told: &Told,
    limit: u64,
    row: &StoredRow,
    total: u64,
) -> Result<bool, AllocError>
    ensures { IfOk result (λ b. b ≡ (rules.is_right (asked told.now) row.now && not (rules.is_input row.now && nat_lt limit total))) }
{
    if is_input(row) && limit < total {
        return Ok(false);
    }
    is_right(alloc, told, row)
}

// The place of the first text that has no reading, or whose row breaks a rule or passes the limit.
fn first_wrong(
    alloc: Global,
    told: &Told,
    readings: &[Option<StoredRow>],
    limit: u64,
) -> Result<Option<usize>, AllocError>
    requires { asked told.now ≡ answers readings.now }
    ensures { IfOk result (IsFirstWrong limit readings.now) }
{
    let mut total = 0u64;
    let mut place = 0;
    while place < readings.len() {
        let Some(row) = &readings[place] else {
            return Ok(Some(place));
        };
        total = weighed(told, row, total);
        if !keeps(alloc, told, limit, row, total)? {
            return Ok(Some(place));
        }
        place += 1;
    }
    Ok(None)
}

// The first row that a store must have and that isn't there.
fn missing(told: &Told) -> Option<(Table, &'static str)>
    ensures { MatchOption result
        ((key : RowKey) → ¬ IsMissing (asked told.now) key)
        (λ row. IsFirstMissing (asked told.now) (row.0, row.1.now)) }
{
    if told.arrival.is_none() {
        Some((Table::Counters, "arrival"))
    } else if told.number.is_none() {
        Some((Table::Counters, "number"))
    } else if told.is_second && !told.has_rule {
        Some((Table::Settings, "store"))
    } else {
        None
    }
}

// The row at a place.
pub(crate) fn row_at(
    alloc: Global,
    texts: &StoredRows,
    place: usize,
) -> Result<Option<(Table, Text)>, AllocError>
    ensures { IfOk result (λ fault. fault ≡ named_at texts.now place) }
{
    match texts.at(place) {
        None => Ok(None),
        Some(row) => {
            let key = row.0.1.duplicate(alloc)?;
            Ok(Some((row.0.0, key)))
        }
    }
}

// The missing row, or the wrong one where that stands before it.
fn missing_or(
    alloc: Global,
    texts: &StoredRows,
    key: (Table, Text),
    wrong: Option<usize>,
) -> Result<Option<(Table, Text)>, AllocError>
    ensures { IfOk result (λ fault. fault ≡ missing_or texts.now key wrong) }
{
    match wrong {
        Some(place) if place < texts.place(&key) => row_at(alloc, texts, place),
        _ => Ok(Some(key)),
    }
}

// The wrong row, where none is missing.
fn wrong_or_none(
    alloc: Global,
    texts: &StoredRows,
    wrong: Option<usize>,
) -> Result<Option<(Table, Text)>, AllocError>
    ensures { IfOk result (λ fault. fault ≡ option_and_then (named_at texts.now) wrong) }
{
    match wrong {
        None => Ok(None),
        Some(place) => row_at(alloc, texts, place),
    }
}

// The first row at fault among rows with these readings.
fn fault_of(
    alloc: Global,
    texts: &StoredRows,
    readings: &[Option<StoredRow>],
    limit: u64,
) -> Result<Option<(Table, Text)>, AllocError>
    requires { AreReadings texts.now readings.now }
    ensures { IfOk result (IsFirstFault texts.now limit readings.now) }
{
    texts.in_order();
    let told = gathered(alloc, readings)?;
    let wrong = first_wrong(alloc, &told, readings, limit)?;
    match missing(&told) {
        None => wrong_or_none(alloc, texts, wrong),
        Some((table, key)) => {
            let key = Text::of(alloc, key)?;
            missing_or(alloc, texts, (table, key), wrong)
        }
    }
}

/// The first row of a store, in order of table and key, that has no reading, breaks a rule or passes the limit on input bytes; where a
/// counter or the settings are missing, that row is named in the place where it would stand. None where each row keeps to the rules, and
/// where there are no rows. The error is want of memory.
pub fn wrong_row(
    alloc: Global,
    texts: &StoredRows,
    limit: u64,
) -> Result<Option<(Table, Text)>, AllocError>
    ensures { IfOk result (IsVerdict texts.now limit) }
{
    let readings = readings(alloc, texts)?;
    if texts.is_empty() {
        return Ok(None);
    }
    fault_of(alloc, texts, readings.as_slice(), limit)
}
