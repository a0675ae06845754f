//! The rows of a state.
ghost use Rattle.std.specs.Prelude.{◌≡◌, ◌∷◌, [], map, flat_map, IfOk, OnOk};
ghost use Rattle.cat_collections.specs.Table.{puts};
ghost use Rattle.cat_stored_rows.specs.Stored as spec;

use crate::copies::{Emitted, item_row, orphan_row, provider_row, record_row, rule_of, shelf_row};
use crate::version::Version;
use cat_collections::listing::Copied;
use cat_collections::map::Map;
use cat_keeper::table::Table;
use cat_model::records::Records;
use cat_model::rows::IndexedRows;
use cat_model::types::{Origin, Orphan, OrphanRule, ProviderInputs, Row, State};
use cat_row_format::row::{StoredCounter, StoredRow};
use cat_row_format::write::{row_key, row_table};
use cat_tree::text::Text;
use cat_types::node::Node;
use cat_types::reference::Ref;
use std::alloc::{AllocError, Global};

/// Rows, each under its table and its key, in order of these.
pub type Stored = Map<(Table, Text), StoredRow>;

// Puts a row under its table and its key.
fn put_row(alloc: Global, made: &mut Stored, row: StoredRow) -> Result<(), AllocError>
    ensures { OnOk result (made.new ≡ spec.put_rows (row ∷ []) made.old) }
{
    let key = (row_table(&row), row_key(alloc, &row)?);
    made.put(alloc, key, row)
}

// Puts the rows of providers.
fn put_providers(
    alloc: Global,
    made: &mut Stored,
    providers: &Map<Text, ProviderInputs>,
) -> Result<(), AllocError>
    ensures { OnOk result (made.new ≡ spec.put_rows (map spec.provider_row providers.now) made.old) }
{
    for (name, inputs) in providers.iter() {
        put_row(alloc, made, provider_row(alloc, name, inputs)?)?;
    }
    Ok(())
}

// Puts the item of a row, if a provider gives it.
fn put_item(
    alloc: Global,
    made: &mut Stored,
    version: Version,
    arrival: u64,
    row: &Row,
) -> Result<(), AllocError>
    ensures { OnOk result (made.new ≡ spec.put_rows (spec.item_with arrival row.now.reference row.now.offered.key (spec.tree_beside version row.now.offered.tree) row.now.origin) made.old) }
{
    match &row.origin {
        Origin::Provider(name) => {
            let item = item_row(alloc, version, name, &row.reference, arrival, &row.offered)?;
            put_row(alloc, made, item)
        }
        Origin::Entity(_) => Ok(()),
    }
}

// Puts the row of a tree, if the version has one.
fn put_tree(
    alloc: Global,
    made: &mut Stored,
    version: Version,
    arrival: u64,
    tree: &Node,
) -> Result<(), AllocError>
    ensures { OnOk result (made.new ≡ spec.put_rows (spec.tree_rows version arrival tree.now) made.old) }
{
    match version {
        Version::One => Ok(()),
        Version::Two => {
            let tree = tree.duplicate(alloc)?;
            put_row(alloc, made, StoredRow::Tree { arrival, tree })
        }
    }
}

// Puts the item of a row, if a provider gives it, and its tree.
#[tactic(auto, using(crate::proofs::Putting::put_parts))]
fn put_given(
    alloc: Global,
    made: &mut Stored,
    version: Version,
    arrival: u64,
    row: &Row,
) -> Result<(), AllocError>
    ensures { OnOk result (made.new ≡ spec.put_rows (spec.given_in version (arrival, row.now)) made.old) }
{
    put_item(alloc, made, version, arrival, row)?;
    put_tree(alloc, made, version, arrival, &row.offered.tree)
}

// Puts the items and the trees of all rows.
#[tactic(auto, using(crate::proofs::Putting::put_parts))]
fn put_all_given(
    alloc: Global,
    made: &mut Stored,
    version: Version,
    rows: &IndexedRows,
) -> Result<(), AllocError>
    ensures { OnOk result (made.new ≡ spec.put_rows (flat_map (spec.given_in version) rows.now) made.old) }
{
    for (arrival, row) in rows.iter() {
        put_given(alloc, made, version, *arrival, row)?;
    }
    Ok(())
}

// Puts the texts of the shelf.
fn put_shelf(alloc: Global, made: &mut Stored, shelf: &Map<Text, Text>) -> Result<(), AllocError>
    ensures { OnOk result (made.new ≡ spec.put_rows (map spec.shelf_row shelf.now) made.old) }
{
    for (name, body) in shelf.iter() {
        put_row(alloc, made, shelf_row(alloc, name, body)?)?;
    }
    Ok(())
}

// Puts the arrival number of a row, if an entity emitted it.
fn note_row(
    alloc: Global,
    arrivals: &mut Emitted,
    arrival: u64,
    row: &Row,
) -> Result<(), AllocError>
    ensures { OnOk result (arrivals.new ≡ puts spec.pairs_cmp (spec.emitted_as (arrival, row.now)) arrivals.old) }
{
    match &row.origin {
        Origin::Provider(_) => Ok(()),
        Origin::Entity(emitter) => {
            let pair = (emitter.duplicate(alloc)?, row.reference.duplicate(alloc)?);
            arrivals.put(alloc, pair, arrival)
        }
    }
}

// The arrival number of the last row of each emitter and reference.
#[tactic(auto, using(crate::proofs::Putting::puts_parts))]
fn emitted(alloc: Global, rows: &IndexedRows) -> Result<Emitted, AllocError>
    ensures { IfOk result (λ arrivals. arrivals ≡ spec.emitted rows.now) }
{
    let mut arrivals = Map::new();
    for (arrival, row) in rows.iter() {
        note_row(alloc, &mut arrivals, *arrival, row)?;
    }
    Ok(arrivals)
}

// Puts the records.
fn put_records(
    alloc: Global,
    made: &mut Stored,
    version: Version,
    holders: &Map<Ref, u64>,
    arrivals: &Emitted,
    records: &Records,
) -> Result<(), AllocError>
    ensures { OnOk result (made.new ≡ spec.put_rows (map (spec.record_in version holders.now arrivals.now) records.now) made.old) }
{
    for (reference, record) in records.iter() {
        let row = record_row(alloc, version, holders, arrivals, reference, record)?;
        put_row(alloc, made, row)?;
    }
    Ok(())
}

// Puts the orphans.
fn put_orphans(
    alloc: Global,
    made: &mut Stored,
    orphans: &Map<Ref, Orphan>,
) -> Result<(), AllocError>
    ensures { OnOk result (made.new ≡ spec.put_rows (map spec.orphan_row orphans.now) made.old) }
{
    for (reference, orphan) in orphans.iter() {
        put_row(alloc, made, orphan_row(alloc, reference, orphan)?)?;
    }
    Ok(())
}

/// Puts the counters.
pub(crate) fn put_counters(alloc: Global, made: &mut Stored, m: &State) -> Result<(), AllocError>
    ensures { OnOk result (made.new ≡ spec.put_rows (spec.counter_rows m.now) made.old) }
{
    put_row(
        alloc,
        made,
        StoredRow::Counter(StoredCounter::Arrival, m.arrival),
    )?;
    put_row(
        alloc,
        made,
        StoredRow::Counter(StoredCounter::Number, m.number),
    )
}

/// Whether there is nothing that a store tells of.
pub(crate) fn is_blank(rule: OrphanRule, m: &State) -> bool
    ensures { result ≡ spec.is_blank rule m.now }
{
    let inputs = m.providers.len() == 0 && m.shelf.len() == 0;
    let kept = m.records.len() == 0 && m.orphans.len() == 0;
    let drawn = m.arrival == 1 && m.number == 1;
    inputs && kept && drawn && rule == OrphanRule::Keep
}

/// Puts the rows of all that a state keeps beside its counters, as a version has them.
pub(crate) fn put_kept(
    alloc: Global,
    made: &mut Stored,
    version: Version,
    m: &State,
) -> Result<(), AllocError>
    ensures { OnOk result (made.new ≡ spec.put_rows (spec.kept_in version m.now) made.old) }
{
    put_providers(alloc, made, &m.providers)?;
    put_all_given(alloc, made, version, &m.rows)?;
    put_shelf(alloc, made, &m.shelf)?;
    let arrivals = emitted(alloc, &m.rows)?;
    put_records(alloc, made, version, &m.holders, &arrivals, &m.records)?;
    put_orphans(alloc, made, &m.orphans)
}

// Puts all rows of a state.
fn put_state(
    alloc: Global,
    made: &mut Stored,
    rule: OrphanRule,
    m: &State,
) -> Result<(), AllocError>
    ensures { OnOk result (made.new ≡ spec.put_rows (spec.all_rows rule m.now) made.old) }
{
    put_counters(alloc, made, m)?;
    put_row(alloc, made, StoredRow::Settings(rule_of(rule)))?;
    put_kept(alloc, made, Version::Two, m)
}

/// The rows that are stored of a state under a rule for orphans. None are where the state is empty, no number was drawn, and
/// orphans are kept. Trees are shared with the state. The error is want of memory.
#[tactic(auto, unfolding(crate::specs::Stored::stored))]
pub fn stored_rows(alloc: Global, rule: OrphanRule, m: &State) -> Result<Stored, AllocError>
    ensures { IfOk result (λ rows. rows ≡ spec.stored rule m.now) }
{
    let mut made = Map::new();
    if !is_blank(rule, m) {
        put_state(alloc, &mut made, rule, m)?;
    }
    Ok(made)
}
