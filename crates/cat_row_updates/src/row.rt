//! The row that stands at a place.
ghost use Rattle.std.specs.Prelude.{◌≡◌, IfOk};
ghost use Rattle.cat_stored_rows.specs.Stored as stored;
ghost use Rattle.cat_row_updates.specs.Places as spec;

use crate::item::item_at;
use crate::place::Place;
use crate::records::record_at;
use cat_collections::listing::Copied;
use cat_model::types::{OrphanRule, State};
use cat_row_format::row::{OrphanRule as StoredRule, StoredCounter, StoredRow};
use cat_tree::text::Text;
use cat_types::reference::Ref;
use std::alloc::{AllocError, Global};

// Whether there is nothing that a store tells of.
fn is_blank(rule: OrphanRule, m: &State) -> bool
    ensures { result ≡ stored.is_blank rule m.now }
{
    let inputs = m.providers.len() == 0 && m.shelf.len() == 0;
    let kept = m.records.len() == 0 && m.orphans.len() == 0;
    let drawn = m.arrival == 1 && m.number == 1;
    inputs && kept && drawn && rule == OrphanRule::Keep
}

// A row, unless the state is blank.
fn unless_blank(rule: OrphanRule, m: &State, row: StoredRow) -> Option<StoredRow>
    ensures { result ≡ spec.unless_blank rule m.now row }
{
    if is_blank(rule, m) { None } else { Some(row) }
}

// The row of a counter.
fn counter_at(rule: OrphanRule, m: &State, counter: StoredCounter) -> Option<StoredRow>
    ensures { result ≡ spec.counter_at rule m.now counter }
{
    let next = match counter {
        StoredCounter::Arrival => m.arrival,
        StoredCounter::Number => m.number,
    };
    unless_blank(rule, m, StoredRow::Counter(counter, next))
}

// The row of the rule for orphans.
fn settings_at(rule: OrphanRule, m: &State) -> Option<StoredRow>
    ensures { result ≡ spec.settings_at rule m.now }
{
    let named = match rule {
        OrphanRule::Keep => StoredRule::Keep,
        OrphanRule::Delete => StoredRule::Delete,
    };
    unless_blank(rule, m, StoredRow::Settings(named))
}

// The row of a provider.
fn provider_at(alloc: Global, m: &State, name: &Text) -> Result<Option<StoredRow>, AllocError>
    ensures { IfOk result (λ row. row ≡ spec.provider_at m.now name.now) }
{
    match m.providers.get(name) {
        None => Ok(None),
        Some(inputs) => Ok(Some(StoredRow::Provider {
            name: name.duplicate(alloc)?,
            serial: inputs.serial,
        })),
    }
}

// The row of a text of the shelf.
fn text_at(alloc: Global, m: &State, name: &Text) -> Result<Option<StoredRow>, AllocError>
    ensures { IfOk result (λ row. row ≡ spec.text_at m.now name.now) }
{
    match m.shelf.get(name) {
        None => Ok(None),
        Some(body) => Ok(Some(StoredRow::Shelf {
            name: name.duplicate(alloc)?,
            body: body.duplicate(alloc)?,
        })),
    }
}

// The row of an orphan.
fn orphan_at(alloc: Global, m: &State, reference: &Ref) -> Result<Option<StoredRow>, AllocError>
    ensures { IfOk result (λ row. row ≡ spec.orphan_at m.now reference.now) }
{
    match m.orphans.get(reference) {
        None => Ok(None),
        Some(orphan) => Ok(Some(StoredRow::Orphan {
            reference: reference.duplicate(alloc)?,
            entity: orphan.entity.duplicate(alloc)?,
            number: orphan.number,
        })),
    }
}

// The row of a tree, which is shared with the state.
fn tree_at(alloc: Global, m: &State, arrival: u64) -> Result<Option<StoredRow>, AllocError>
    ensures { IfOk result (λ row. row ≡ spec.tree_at m.now arrival) }
{
    match m.rows.get(&arrival) {
        None => Ok(None),
        Some(row) => Ok(Some(StoredRow::Tree {
            arrival,
            tree: row.offered.tree.duplicate(alloc)?,
        })),
    }
}

/// The row of a place in a state under a rule for orphans, if it has one. The error is want of memory.
pub fn row_of(
    alloc: Global,
    rule: OrphanRule,
    m: &State,
    place: &Place,
) -> Result<Option<StoredRow>, AllocError>
    ensures { IfOk result (λ row. row ≡ spec.row_of rule m.now place.now) }
{
    match place {
        Place::Counter(counter) => Ok(counter_at(rule, m, *counter)),
        Place::Settings => Ok(settings_at(rule, m)),
        Place::Provider(name) => provider_at(alloc, m, name),
        Place::Shelf(name) => text_at(alloc, m, name),
        Place::Record(reference) => record_at(alloc, m, reference),
        Place::Orphan(reference) => orphan_at(alloc, m, reference),
        Place::Tree(arrival) => tree_at(alloc, m, *arrival),
        Place::Item {
            provider,
            reference,
            arrival,
        } => item_at(alloc, m, provider, reference, *arrival),
    }
}
