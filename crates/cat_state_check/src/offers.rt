//! Whether the rows of a candidate are what its providers and its kept outputs offer.
ghost use Rattle.std.specs.Prelude.{◌≡◌, IfOk, option_and_then, option_map};
ghost use Rattle.std.specs.List.{list_all};
ghost use Rattle.cat_model.specs.declared.types.Origin.TheVariants.{Entity, Provider};
ghost use Rattle.cat_collections.specs.Table.{get};
ghost use Rattle.cat_model.specs.Catalogue.{row_at};
ghost use Rattle.cat_model.specs.Sound.{offered};
ghost use Rattle.cat_model.specs.Step.{is_offer};
ghost use Rattle.cat_state_check.specs.Candidate as spec;
ghost use Rattle.cat_state_check.specs.Indexed.{arrival_in, row_index, with_arrival};

use cat_collections::key::Key;
use cat_collections::listing::Copied;
use cat_collections::map::Map;
use cat_collections::pair::Pair;
use cat_model::rows::IndexedRows;
use cat_model::types::{Origin, ProviderInputs, Row, State};
use cat_plan::hold::is_held;
use cat_tree::text::Text;
use cat_types::entries::Entries;
use cat_types::input::Offered;
use cat_types::reference::Ref;
use cat_types::work::Output;
use std::alloc::{AllocError, Global};
use std::cmp::Ordering;

/// Arrivals by provider and reference, and by emitter and reference.
#[derive(Drop)]
pub struct RowIndex {
    pub provided: Map<(Text, Ref), u64>,
    pub emitted: Map<(Ref, Ref), u64>,
}

fn put_row(alloc: Global, arrival: u64, row: &Row, index: &mut RowIndex) -> Result<(), AllocError>
    ensures { IfOk result (λ _. index.new ≡ with_arrival row.now.origin row.now.reference arrival index.old) }
{
    let reference = row.reference.duplicate(alloc)?;
    match &row.origin {
        Origin::Provider(name) => {
            let name = name.duplicate(alloc)?;
            index.provided.put(alloc, (name, reference), arrival)
        }
        Origin::Entity(e) => {
            let e = e.duplicate(alloc)?;
            index.emitted.put(alloc, (e, reference), arrival)
        }
    }
}

/// The arrivals of these rows by origin and reference.
pub fn index_of(alloc: Global, rows: &IndexedRows) -> Result<RowIndex, AllocError>
    ensures { IfOk result (λ index. index ≡ row_index rows.now) }
{
    let mut index = RowIndex {
        provided: Map::new(),
        emitted: Map::new(),
    };
    for (arrival, row) in rows.iter() {
        put_row(alloc, *arrival, row, &mut index)?;
    }
    Ok(index)
}

fn provided_in<'a>(index: &'a RowIndex, provider: &Text, reference: &Ref) -> Option<&'a u64>
    ensures { option_map (λ a. a.now) result ≡ arrival_in index.now (Provider provider.now) reference.now }
{
    index.provided.seek(&Pair {
        first: provider,
        second: reference,
    })
}

fn emitted_in<'a>(index: &'a RowIndex, emitter: &Ref, reference: &Ref) -> Option<&'a u64>
    ensures { option_map (λ a. a.now) result ≡ arrival_in index.now (Entity emitter.now) reference.now }
{
    index.emitted.seek(&Pair {
        first: emitter,
        second: reference,
    })
}

fn arrival_of<'a>(index: &'a RowIndex, origin: &Origin, reference: &Ref) -> Option<&'a u64>
    ensures { option_map (λ a. a.now) result ≡ arrival_in index.now origin.now reference.now }
{
    match origin {
        Origin::Provider(name) => provided_in(index, name, reference),
        Origin::Entity(e) => emitted_in(index, e, reference),
    }
}

fn offer_of<'a>(output: &'a Option<Output>, reference: &Ref) -> Option<&'a Offered>
    ensures { option_map (λ x. x.now) result ≡ option_and_then (λ x. get x.offers reference.now) output.now }
{
    match output {
        None => None,
        Some(output) => output.offers.get(reference),
    }
}

// What an origin offers for a reference.
fn offered<'a>(m: &'a State, origin: &Origin, reference: &Ref) -> Option<&'a Offered>
    ensures { option_map (λ x. x.now) result ≡ offered m.now origin.now reference.now }
{
    match origin {
        Origin::Provider(name) => match m.providers.get(name) {
            None => None,
            Some(inputs) => inputs.items.get(reference),
        },
        Origin::Entity(e) => match m.records.get(e) {
            None => None,
            Some(record) => offer_of(&record.output, reference),
        },
    }
}

fn is_offered(row: &Offered, offered: Option<&Offered>) -> bool
    ensures { result ≡ spec.is_offered row.now (option_map (λ x. x.now) offered.entry) }
{
    match offered {
        None => false,
        Some(offered) => offered.key.compare(&row.key) == Ordering::Equal
            && offered.tree.same(&row.tree),
    }
}

fn is_arrival(arrival: u64, found: Option<&u64>) -> bool
    ensures { result ≡ spec.is_arrival arrival (option_map (λ x. x.now) found.entry) }
{
    match found {
        None => false,
        Some(other) => *other == arrival,
    }
}

fn is_right_row(m: &State, index: &RowIndex, arrival: u64, row: &Row) -> bool
    ensures { result ≡ spec.is_right_row m.now index.now (arrival, row.now) }
{
    is_offered(&row.offered, offered(m, &row.origin, &row.reference))
        && is_arrival(arrival, arrival_of(index, &row.origin, &row.reference))
        && arrival < m.arrival
        && is_held(&m.holders, &row.reference)
}

/// Whether each row is offered by its origin, alone under its origin and reference, arrived, and has its reference held.
pub fn are_right_rows(m: &State, index: &RowIndex) -> bool
    ensures { result ≡ list_all (spec.is_right_row m.now index.now) m.now.rows }
{
    for (arrival, row) in m.rows.iter() {
        if !is_right_row(m, index, *arrival, row) {
            return false;
        }
    }
    true
}

fn row_found<'a>(rows: &'a IndexedRows, arrival: Option<&u64>) -> Option<&'a Row>
    ensures { option_map (λ x. x.now) result ≡ option_and_then (row_at rows.now) (option_map (λ x. x.now) arrival.entry) }
{
    match arrival {
        None => None,
        Some(arrival) => rows.get(arrival),
    }
}

fn is_item(provider: &Text, reference: &Ref, row: Option<&Row>) -> bool
    ensures { result ≡ is_offer (Provider provider.now) reference.now (option_map (λ x. x.now) row.entry) }
{
    match row {
        None => false,
        Some(row) => match &row.origin {
            Origin::Provider(name) => {
                provider.compare(name) == Ordering::Equal
                    && reference.compare(&row.reference) == Ordering::Equal
            }
            Origin::Entity(_) => false,
        },
    }
}

fn is_offer(emitter: &Ref, reference: &Ref, row: Option<&Row>) -> bool
    ensures { result ≡ is_offer (Entity emitter.now) reference.now (option_map (λ x. x.now) row.entry) }
{
    match row {
        None => false,
        Some(row) => match &row.origin {
            Origin::Provider(_) => false,
            Origin::Entity(e) => {
                emitter.compare(e) == Ordering::Equal
                    && reference.compare(&row.reference) == Ordering::Equal
            }
        },
    }
}

fn is_item_shown(rows: &IndexedRows, index: &RowIndex, provider: &Text, reference: &Ref) -> bool
    ensures { result ≡ spec.is_shown rows.now index.now (Provider provider.now) reference.now }
{
    let found = row_found(rows, provided_in(index, provider, reference));
    is_item(provider, reference, found)
}

fn is_offer_shown(rows: &IndexedRows, index: &RowIndex, emitter: &Ref, reference: &Ref) -> bool
    ensures { result ≡ spec.is_shown rows.now index.now (Entity emitter.now) reference.now }
{
    let found = row_found(rows, emitted_in(index, emitter, reference));
    is_offer(emitter, reference, found)
}

fn are_items_shown(
    rows: &IndexedRows,
    index: &RowIndex,
    provider: &Text,
    inputs: &ProviderInputs,
) -> bool
    ensures { result ≡ spec.are_items_shown rows.now index.now (provider.now, inputs.now) }
{
    for (reference, _) in inputs.items.iter() {
        if !is_item_shown(rows, index, provider, reference) {
            return false;
        }
    }
    true
}

/// Whether each item of each provider has its row.
pub fn are_all_items_shown(m: &State, index: &RowIndex) -> bool
    ensures { result ≡ list_all (spec.are_items_shown m.now.rows index.now) m.now.providers }
{
    for (provider, inputs) in m.providers.iter() {
        if !are_items_shown(&m.rows, index, provider, inputs) {
            return false;
        }
    }
    true
}

fn are_shown(
    rows: &IndexedRows,
    index: &RowIndex,
    emitter: &Ref,
    offers: &Entries<Ref, Offered>,
) -> bool
    ensures { result ≡ list_all (λ x. spec.is_shown rows.now index.now (Entity emitter.now) x.0) offers.now }
{
    for (reference, _) in offers.as_slice() {
        if !is_offer_shown(rows, index, emitter, reference) {
            return false;
        }
    }
    true
}

/// Whether each offer of a kept output has its row.
pub fn are_offers_shown(
    rows: &IndexedRows,
    index: &RowIndex,
    emitter: &Ref,
    output: &Option<Output>,
) -> bool
    ensures { result ≡ spec.are_offers_shown rows.now index.now emitter.now output.now }
{
    match output {
        None => true,
        Some(output) => are_shown(rows, index, emitter, &output.offers),
    }
}
