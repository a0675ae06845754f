//! Opening a store.
ghost use Rattle.std.specs.Prelude.{◌≡◌, ◌≢◌, ℕ, if◌then◌else◌, ◌↔◌, ◌≤◌, ◌&&◌, ◌⊎◌, IsTrue, false, true, IfErr, IfOk, IfSome, MatchOption, Option, nat_le, option_map};
ghost use Rattle.std.specs.declared.option.Option.TheVariants.{None, Some};
ghost use Rattle.cat_row_faults.specs.First.{IsVerdict};
ghost use Rattle.cat_io.specs.Causes.{Rose};
ghost use Rattle.cat_keeper.specs.Answers.{Are, Stays};
ghost use Rattle.cat_keeper.specs.Store.{applied};
ghost use Rattle.cat_model.specs.Step.{reopened};
ghost use Rattle.cat_row_reader.specs.Candidate.{IsCandidate};
ghost use Rattle.cat_row_reader.specs.Forms.{has_forms};
ghost use Rattle.cat_row_reader.specs.Read.{AreNoTexts};
ghost use Rattle.cat_row_updates.specs.Right.{AreOfNone, MayOpen};
ghost use Rattle.cat_state_check.specs.Candidate.{is_candidate};
ghost use Rattle.cat_store.specs.Boxed.{unboxed};
ghost use Rattle.cat_store.specs.Opened.{HasRule, IsOpening, IsRead, IsRight, is_first, is_of_first, is_row_of_first, rows_in};
ghost use Rattle.cat_store.specs.Refused.{AreTheirs, IsDifference, IsDiffering, IsNamed, IsRefused};
ghost use Rattle.cat_store.specs.Tells.{AreProper, is_telling};
ghost use Rattle.cat_stored_rows.specs.Stored.{stored, texts_of};

use crate::store::{Store, commit};
use crate::tells::is_telling;
use cat_keeper::keeper::{Committed, Keeper, Loaded, Place};
use cat_keeper::rows::{Batch, StoredRows};
use cat_keeper::table::Table;
use cat_links::links::Links;
use cat_model::types::{OrphanRule, State};
use cat_plan::layers::Layers;
use cat_row_faults::difference::{first_difference, is_same_row};
use cat_row_faults::first::wrong_row;
use cat_row_reader::candidate::candidate;
use cat_row_reader::forms::has_forms;
use cat_state_check::reopen::{Opening, opened};
use cat_stored_rows::batch::batch_to;
use cat_stored_rows::first::first_rows;
use cat_stored_rows::stored::{Stored, stored_rows};
use cat_stored_rows::texts::texts;
use cat_tree::text::Text;
use std::alloc::{AllocError, Global};

/// Why a store can't be opened.
#[derive(Drop)]
pub enum OpenFault {
    /// The keeper failed: it counted a fault.
    Keeper,
    /// The first row, in order of table and key, that has no reading or breaks a rule of stores; of rows that each keep to the rules, the first
    /// that a store of the state which they stand for lacks.
    Row(Table, Text),
    /// Want of memory.
    NoMemory,
}

/// A catalogue's state, in a box, with the relations of its kept outputs, and the store that follows it.
#[derive(Drop)]
pub struct Opened<K: Keeper> {
    pub state: Box<State>,
    pub links: Links,
    pub store: Store<K>,
}

// What rows were read to: a state with its links, its rows under a rule for orphans, and the changes that lead to these.
#[derive(Drop)]
struct Reading {
    state: Box<State>,
    links: Links,
    orphans: OrphanRule,
    rows: Stored,
    batch: Batch,
}

fn is_of_first(table: Table) -> bool
    ensures { result ≡ is_of_first table }
{
    match table {
        Table::Counters
        | Table::Providers
        | Table::Items
        | Table::Shelf
        | Table::Records
        | Table::Orphans => true,
        Table::Settings | Table::Trees => false,
    }
}

fn is_row_of_first(row: Option<&((Table, Text), Text)>) -> bool
    ensures { result ≡ is_row_of_first (option_map (λ x. x.now) row.entry) }
{
    match row {
        None => false,
        Some(row) => is_of_first(row.0.0),
    }
}

// Whether the rows are those of a store of the first version.
fn is_first(rows: &StoredRows) -> bool
    ensures { result ≡ is_first rows.now }
{
    is_row_of_first(rows.at(rows.len().saturating_sub(1)))
}

// The rows of a state under a rule for orphans, in the first version or else in the second.
fn rows_in(
    alloc: Global,
    is_first: bool,
    orphans: OrphanRule,
    state: &State,
) -> Result<Stored, AllocError>
    ensures { IfOk result (λ rows. rows ≡ rows_in is_first orphans state.now) }
{
    if is_first {
        first_rows(alloc, state)
    } else {
        stored_rows(alloc, orphans, state)
    }
}

// The rule for orphans of a store, where this one was found among its rows: the first version has none, and keeps.
fn stored_rule(is_first: bool, found: OrphanRule) -> OrphanRule
    ensures { result ≡ (if is_first then OrphanRule.Keep else found) }
{
    if is_first { OrphanRule::Keep } else { found }
}

// The texts of the rows of a state, in the version that these rows are of.
fn texts_like(
    alloc: Global,
    rows: &StoredRows,
    orphans: OrphanRule,
    state: &State,
) -> Result<StoredRows, AllocError>
    ensures { IfOk result (λ told. told ≡ texts_of (rows_in (is_first rows.now) orphans state.now)) }
{
    let wanted = rows_in(alloc, is_first(rows), orphans, state)?;
    texts(alloc, &wanted)
}

// Whether the rows are those of a state, in the version that they are of.
fn are_rows_of(
    alloc: Global,
    rows: &StoredRows,
    orphans: OrphanRule,
    state: &State,
) -> Result<bool, AllocError>
    ensures rows { IfOk result (λ b. b ≡ true → texts_of (rows_in (is_first rows.now) orphans state.now) ≡ rows.now) }
    ensures differ { IfOk result (λ b. b ≡ false → texts_of (rows_in (is_first rows.now) orphans state.now) ≢ rows.now) }
{
    let told = texts_like(alloc, rows, orphans, state)?;
    Ok(are_same(&told, rows))
}

// Whether rows are the same.
fn are_same(left: &StoredRows, right: &StoredRows) -> bool
    ensures same { result ≡ true → left.now ≡ right.now }
    ensures differ { result ≡ false → left.now ≢ right.now }
{
    let mut others = right.iter();
    for row in left.iter() {
        match others.next() {
            Some(other) => {
                if !is_same_row(row, other) {
                    return false;
                }
            }
            None => return false,
        }
    }
    others.next().is_none()
}

// What was opened, where its rows tell its state.
fn telling(found: Option<Opening>) -> Option<Opening>
    ensures same { IfSome result (λ x. found ≡ Some x) }
    ensures tells { IfSome result (λ x. is_telling x.state.value ≡ true) }
    ensures proper { IfSome result (λ x. AreProper x.state.value) }
    ensures opens { result ≡ None → IfSome found (λ x. is_telling x.state.value ≡ false) }
{
    let opening = found?;
    if is_telling(&opening.state) {
        Some(opening)
    } else {
        None
    }
}

// The state that a candidate opens as, where it is one and its rows tell it.
fn told<L: Layers>(
    alloc: Global,
    layers: &L,
    candidate: Box<State>,
) -> Result<Option<Opening>, AllocError>
    ensures opening { IfOk result (λ o. IfSome o (λ x. IsOpening L.rules x.links x.state.value)) }
    ensures proper { IfOk result (λ o. IfSome o (λ x. AreProper x.state.value)) }
    ensures state { IfOk result (λ o. IfSome o (λ x. x.state.value ≡ reopened L.rules candidate.value)) }
    ensures opens { IfOk result (λ o. is_candidate candidate.value ≡ true → is_telling (reopened L.rules candidate.value) ≡ true → o ≢ None) }
{
    let found = opened(alloc, layers, candidate)?;
    Ok(telling(found))
}

// Whether all that a state keeps has its form, and its inputs are within the limit.
fn is_right<L: Layers>(
    alloc: Global,
    layers: &L,
    m: &State,
    input_limit: u64,
) -> Result<bool, AllocError>
    ensures { IfOk result (λ b. b ≡ (has_forms m.now && nat_le (L.rules.bytes m.now.providers m.now.shelf) input_limit)) }
{
    let has_forms = has_forms(alloc, m)?;
    let bytes = layers.bytes(alloc, &m.providers, &m.shelf)?;
    Ok(has_forms && bytes <= input_limit)
}

// What the rows of a store stand for, as a candidate does, with its state in a box, so that it is moved as one.
#[derive(Drop)]
struct BoxedCandidate {
    rule: OrphanRule,
    state: Box<State>,
}

// What the rows of a store open as, with the rule for orphans that they have.
#[derive(Drop)]
struct Found {
    state: Box<State>,
    links: Links,
    orphans: OrphanRule,
}

// What rows stand for, with its state in a box; none where some of them spell no row.
fn boxed_candidate(alloc: Global, rows: &StoredRows) -> Result<Option<BoxedCandidate>, AllocError>
    ensures { IfOk result (λ o. MatchOption o (AreNoTexts rows.now) (λ c. IsCandidate rows.now (unboxed c))) }
{
    match candidate(alloc, rows)? {
        None => Ok(None),
        Some(found) => Ok(Some(BoxedCandidate {
            rule: found.rule,
            state: Box::new(alloc, found.state)?,
        })),
    }
}

// What rows stand for, where it keeps to its form and the limit.
fn right_candidate<L: Layers>(
    alloc: Global,
    layers: &L,
    rows: &StoredRows,
    input_limit: u64,
) -> Result<Option<BoxedCandidate>, AllocError>
    ensures candidate { IfOk result (λ o. IfSome o (λ c. IsCandidate rows.now (unboxed c))) }
    ensures right { IfOk result (λ o. IfSome o (λ c. IsRight L.rules input_limit c.state.value)) }
    ensures opens { IfOk result (λ o. o ≡ None → AreOfNone L.rules input_limit rows.now) }
{
    let Some(candidate) = boxed_candidate(alloc, rows)? else {
        return Ok(None);
    };
    if is_right(alloc, layers, &candidate.state, input_limit)? {
        Ok(Some(candidate))
    } else {
        Ok(None)
    }
}

// What the candidate that rows stand for opens as: none where the rows are those of no state that opens.
fn found_as<L: Layers>(
    alloc: Global,
    layers: &L,
    rows: &StoredRows,
    candidate: BoxedCandidate,
) -> Result<Option<Found>, AllocError>
    requires { IsCandidate rows.now (unboxed candidate) }
    ensures opening { IfOk result (λ o. IfSome o (λ x. IsOpening L.rules x.links x.state.value)) }
    ensures proper { IfOk result (λ o. IfSome o (λ x. AreProper x.state.value)) }
    ensures state { IfOk result (λ o. IfSome o (λ x. x.state.value ≡ reopened L.rules candidate.state.value)) }
    ensures rule { IfOk result (λ o. IfSome o (λ x. HasRule rows.now x.orphans x.state.value)) }
    ensures opens { IfOk result (λ o. o ≡ None → (limit : ℕ) → AreOfNone L.rules limit rows.now) }
{
    let orphans = stored_rule(is_first(rows), candidate.rule);
    let Some(opening) = told(alloc, layers, candidate.state)? else {
        return Ok(None);
    };
    if are_rows_of(alloc, rows, orphans, &opening.state)? {
        Ok(Some(Found {
            state: opening.state,
            links: opening.links,
            orphans,
        }))
    } else {
        Ok(None)
    }
}

// What rows open as: none where they are those of no state that opens.
fn found_in<L: Layers>(
    alloc: Global,
    layers: &L,
    rows: &StoredRows,
    input_limit: u64,
) -> Result<Option<Found>, AllocError>
    ensures opening { IfOk result (λ o. IfSome o (λ x. IsOpening L.rules x.links x.state.value)) }
    ensures admissible { IfOk result (λ o. IfSome o (λ x. MayOpen L.rules input_limit x.state.value)) }
    ensures rule { IfOk result (λ o. IfSome o (λ x. HasRule rows.now x.orphans x.state.value)) }
    ensures opens { IfOk result (λ o. o ≡ None → AreOfNone L.rules input_limit rows.now) }
{
    let Some(candidate) = right_candidate(alloc, layers, rows, input_limit)? else {
        return Ok(None);
    };
    found_as(alloc, layers, rows, candidate)
}

// Reads rows, under this rule for orphans or else the stored one: none where they are those of no state that opens.
fn read<L: Layers>(
    alloc: Global,
    layers: &L,
    rows: &StoredRows,
    orphans: Option<OrphanRule>,
    input_limit: u64,
) -> Result<Option<Reading>, AllocError>
    ensures opening { IfOk result (λ o. IfSome o (λ x. IsOpening L.rules x.links x.state.value)) }
    ensures admissible { IfOk result (λ o. IfSome o (λ x. MayOpen L.rules input_limit x.state.value)) }
    ensures read { IfOk result (λ o. IfSome o (λ x. IsRead rows.now x.state.value)) }
    ensures rule { IfOk result (λ o. IfSome o (λ x. IfSome orphans (λ rule. x.orphans ≡ rule))) }
    ensures kept { IfOk result (λ o. IfSome o (λ x. orphans ≡ None → HasRule rows.now x.orphans x.state.value)) }
    ensures rows { IfOk result (λ o. IfSome o (λ x. x.rows ≡ stored x.orphans x.state.value)) }
    ensures batch { IfOk result (λ o. IfSome o (λ x. applied x.batch rows.now ≡ texts_of x.rows)) }
    ensures opens { IfOk result (λ o. o ≡ None → AreOfNone L.rules input_limit rows.now) }
{
    let Some(found) = found_in(alloc, layers, rows, input_limit)? else {
        return Ok(None);
    };
    let orphans = orphans.unwrap_or(found.orphans);
    let wanted = stored_rows(alloc, orphans, &found.state)?;
    let batch = batch_to(alloc, rows, &wanted)?;
    Ok(Some(Reading {
        state: found.state,
        links: found.links,
        orphans,
        rows: wanted,
        batch,
    }))
}

// The first row by which the rows of a store differ from those of the state that they stand for; none where they are just those, or stand for none.
fn difference(alloc: Global, rows: &StoredRows) -> Result<Option<(Table, Text)>, AllocError>
    ensures { IfOk result (λ key. MatchOption key (AreTheirs rows.now) (IsDifference rows.now)) }
{
    let Some(found) = boxed_candidate(alloc, rows)? else {
        return Ok(None);
    };
    let told = texts_like(alloc, rows, found.rule, &found.state)?;
    first_difference(alloc, rows, &told)
}

// That row, or the first counter where there is none.
fn differing(alloc: Global, rows: &StoredRows) -> Result<(Table, Text), AllocError>
    ensures { IfOk result (IsDiffering rows.now) }
{
    match difference(alloc, rows)? {
        Some(key) => Ok(key),
        None => Ok((Table::Counters, Text::of(alloc, "arrival")?)),
    }
}

// The row that a store which can't be opened is refused by: the first at fault, or else the first that differs.
fn wrong(alloc: Global, rows: &StoredRows, input_limit: u64) -> Result<(Table, Text), AllocError>
    ensures { IfOk result (λ key. IsVerdict rows.now input_limit (Some key) ⊎ (IsVerdict rows.now input_limit None × IsDiffering rows.now key)) }
{
    match wrong_row(alloc, rows, input_limit)? {
        Some(key) => Ok(key),
        None => differing(alloc, rows),
    }
}

// The refusal of a store that can't be opened.
fn refusal(alloc: Global, rows: &StoredRows, input_limit: u64) -> OpenFault
    ensures keeper { result ≢ OpenFault.Keeper }
    ensures named { IsNamed input_limit rows.now result }
{
    match wrong(alloc, rows, input_limit) {
        Ok((table, key)) => OpenFault::Row(table, key),
        Err(_) => OpenFault::NoMemory,
    }
}

/// Opens the store that a keeper has for a place, under this rule for orphans, or else under the stored one, which is `Keep` where none
/// is. `input_limit` is the limit on the stored input bytes. All records are due at once, nothing is leased or marked, and each document is
/// that of its parts. A store of the first version is brought to the second, and another rule than the stored one is stored, by one commit.
/// The state is one that its rows tell, in either version, and opens again as itself.
///
/// A store opens just where its rows are those of a state that may open, in either version: the state is sound, its counters are in their bounds, all that
/// it keeps has its form, and its inputs are within the limit. A row is refused only where the store has the rows of no such state. It is the first, in
/// order of table and key, that has no reading, breaks a rule of stores or passes the limit on input bytes, or one that is missing, in the place where it
/// would stand. Where none is, it is the first by which the rows differ from those of the state that they stand for, or the row of the arrivals' counter.
/// `Keeper` comes only where the keeper's count of faults rose in this call. After an error the keeper's tables are as before.
pub fn open<L: Layers, K: Keeper>(
    alloc: Global,
    layers: &L,
    keeper: K,
    place: Place,
    orphans: Option<OrphanRule>,
    input_limit: u64,
) -> Result<Opened<K>, (OpenFault, K)>
    ensures opening { IfOk result (λ x. IsOpening L.rules x.links x.state.value) }
    ensures admissible { IfOk result (λ x. MayOpen L.rules input_limit x.state.value) }
    ensures read { IfOk result (λ x. IfSome (K.tables place keeper) (λ rows. IsRead rows x.state.value)) }
    ensures rule { IfOk result (λ x. IfSome orphans (λ rule. x.store.orphans ≡ rule)) }
    ensures kept { IfOk result (λ x. orphans ≡ None → IfSome (K.tables place keeper) (λ rows. HasRule rows x.store.orphans x.state.value)) }
    ensures rows { IfOk result (λ x. x.store.rows ≡ stored x.store.orphans x.state.value) }
    ensures told { IfOk result (λ x. Are (K.tables x.store.place x.store.keeper) (texts_of x.store.rows)) }
    ensures place { IfOk result (λ x. x.store.place ≡ place) }
    ensures later { IfOk result (λ x. K.faults keeper ≤ K.faults x.store.keeper) }
    ensures same { IfErr result (λ e. Stays (K.tables place keeper) (K.tables place e.1)) }
    ensures later_still { IfErr result (λ e. K.faults keeper ≤ K.faults e.1) }
    ensures cause { IfErr result (λ e. e.0 ≡ OpenFault.Keeper → Rose (K.faults keeper) (K.faults e.1)) }
    ensures opens { IfErr result (λ e. IfSome (K.tables place keeper) (λ rows. IsRefused L.rules input_limit rows e.0)) }
    ensures named { IfErr result (λ e. IfSome (K.tables place keeper) (λ rows. IsNamed input_limit rows e.0)) }
{
    let mut keeper = keeper;
    let rows = match keeper.load(alloc, &place) {
        Loaded::Rows(rows) => rows,
        Loaded::Failed => return Err((OpenFault::Keeper, keeper)),
        Loaded::NoMemory => return Err((OpenFault::NoMemory, keeper)),
    };
    let reading = match read(alloc, layers, &rows, orphans, input_limit) {
        Ok(Some(reading)) => reading,
        Ok(None) => return Err((refusal(alloc, &rows, input_limit), keeper)),
        Err(_) => return Err((OpenFault::NoMemory, keeper)),
    };
    match commit(alloc, &mut keeper, &reading.batch) {
        Committed::Kept => Ok(Opened {
            state: reading.state,
            links: reading.links,
            store: Store {
                keeper,
                place,
                orphans: reading.orphans,
                rows: reading.rows,
            },
        }),
        Committed::Failed => {
            drop(reading);
            Err((OpenFault::Keeper, keeper))
        }
        Committed::NoMemory => {
            drop(reading);
            Err((OpenFault::NoMemory, keeper))
        }
    }
}
