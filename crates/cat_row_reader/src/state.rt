//! The state that the rows of a store stand for.
ghost use Rattle.std.specs.Prelude.{◌≡◌, ◌++◌, ◌∷◌, [], flat_map, option_map, unwrap_or, IfOk, OnOk};
ghost use Rattle.std.specs.Ordering.{nat_cmp};
ghost use Rattle.cat_model.specs.Step.{start};
ghost use Rattle.cat_row_reader.specs.Standing as spec;
ghost use Rattle.cat_collections.specs.Table.{get, put, puts, text_cmp};

use cat_collections::listing::{Copied, Listing};
use cat_collections::map::Map;
use cat_model::records::Records;
use cat_model::rows::IndexedRows;
use cat_model::types::{Origin, Orphan, OrphanRule, ProviderInputs, Record, Row, State};
use cat_row_format::row::{
    OrphanRule as StoredRule, StoredCounter, StoredOffer, StoredOutput, StoredRow,
};
use cat_search::index::Index;
use cat_state_parts::items::OfferedItems;
use cat_state_parts::marks::Marks;
use cat_tree::text::Text;
use cat_types::entries::Entries;
use cat_types::input::Offered;
use cat_types::issue::Issue;
use cat_types::node::Node;
use cat_types::reference::Ref;
use cat_types::work::Output;
use std::alloc::{AllocError, Global};

// Trees by arrival number.
type Trees = Map<u64, Node>;

// Items by provider and reference.
type Items = Map<Text, OfferedItems>;

/// The state of a store without rows. Takes no memory.
pub fn empty_state(alloc: Global) -> State
    ensures { result ≡ start }
{
    State {
        providers: Map::new(),
        shelf: Map::new(),
        rows: IndexedRows::new(),
        holders: Map::new(),
        records: Records::new(),
        orphans: Map::new(),
        marks: Marks::new(),
        documents: Index::empty(),
        arrival: 1,
        number: 1,
        token: 1,
        ticket: 1,
    }
}

// Puts the tree of a row of its own.
fn put_tree(alloc: Global, trees: &mut Trees, row: &StoredRow) -> Result<(), AllocError>
    ensures { OnOk result (trees.new ≡ puts nat_cmp (spec.tree_in row.now) trees.old) }
{
    match row {
        StoredRow::Tree { arrival, tree } => trees.put(alloc, *arrival, tree.duplicate(alloc)?),
        StoredRow::Counter(..)
        | StoredRow::Provider { .. }
        | StoredRow::Item { .. }
        | StoredRow::Shelf { .. }
        | StoredRow::Record { .. }
        | StoredRow::Orphan { .. }
        | StoredRow::Settings(_)
        | StoredRow::ItemOne { .. }
        | StoredRow::RecordOne { .. } => Ok(()),
    }
}

// The trees that stand in rows of their own.
#[tactic(auto, using(crate::proofs::Putting::puts_parts))]
fn trees_of(alloc: Global, rows: &[StoredRow]) -> Result<Trees, AllocError>
    ensures { IfOk result (λ trees. trees ≡ spec.trees_of rows.now) }
{
    let mut trees = Map::new();
    for row in rows {
        put_tree(alloc, &mut trees, row)?;
    }
    Ok(trees)
}

fn lent(tree: &Option<Node>) -> Option<&Node>
    ensures { option_map (λ t. t.now) result ≡ tree.now }
{
    match tree {
        Some(tree) => Some(tree),
        None => None,
    }
}

// The tree with this arrival number: the one beside, or else the one in a row of its own.
fn tree_for<'a>(trees: &'a Trees, arrival: u64, beside: Option<&'a Node>) -> Option<&'a Node>
    ensures { option_map (λ t. t.now) result ≡ spec.tree_for trees.now arrival (option_map (λ t. t.now) beside.entry) }
{
    match beside {
        Some(tree) => Some(tree),
        None => trees.get(&arrival),
    }
}

// What an item or an offer with this arrival number offers, where its tree is there.
fn offered_by(
    alloc: Global,
    trees: &Trees,
    arrival: u64,
    key: &Text,
    beside: Option<&Node>,
) -> Result<Option<Offered>, AllocError>
    ensures { IfOk result (λ o. o ≡ spec.offered_by trees.now arrival key.now (option_map (λ t. t.now) beside.entry)) }
{
    match tree_for(trees, arrival, beside) {
        None => Ok(None),
        Some(tree) => {
            let key = key.duplicate(alloc)?;
            let tree = tree.duplicate(alloc)?;
            Ok(Some(Offered { key, tree }))
        }
    }
}

// Adds the row of what is offered, where none has its arrival number.
fn add_row(
    alloc: Global,
    rows: &mut IndexedRows,
    arrival: u64,
    origin: Origin,
    reference: &Ref,
    offered: Option<Offered>,
) -> Result<(), AllocError>
    ensures { OnOk result (rows.new ≡ spec.with_rows (spec.row_with arrival origin reference.now offered) rows.old) }
{
    let Some(offered) = offered else {
        return Ok(());
    };
    match rows.get(&arrival) {
        Some(_) => Ok(()),
        None => {
            let reference = reference.duplicate(alloc)?;
            rows.put(
                alloc,
                arrival,
                Row {
                    origin,
                    reference,
                    offered,
                },
            )
        }
    }
}

// Adds the row of an offer.
fn add_offer(
    alloc: Global,
    rows: &mut IndexedRows,
    trees: &Trees,
    emitter: &Ref,
    offer: &StoredOffer,
) -> Result<(), AllocError>
    ensures { OnOk result (rows.new ≡ spec.with_rows (spec.offer_given trees.now emitter.now offer.now) rows.old) }
{
    let offered = offered_by(alloc, trees, offer.arrival, &offer.key, lent(&offer.tree))?;
    let origin = Origin::Entity(emitter.duplicate(alloc)?);
    add_row(
        alloc,
        rows,
        offer.arrival,
        origin,
        &offer.reference,
        offered,
    )
}

// Adds the rows of what a record gave last.
#[tactic(auto, using(crate::proofs::Putting::with_parts))]
fn add_output(
    alloc: Global,
    rows: &mut IndexedRows,
    trees: &Trees,
    emitter: &Ref,
    output: &StoredOutput,
) -> Result<(), AllocError>
    ensures { OnOk result (rows.new ≡ spec.with_rows (flat_map (spec.offer_given trees.now emitter.now) output.now.offers) rows.old) }
{
    for offer in output.offers.as_slice() {
        add_offer(alloc, rows, trees, emitter, offer)?;
    }
    Ok(())
}

// Adds the row of an item.
fn add_item(
    alloc: Global,
    rows: &mut IndexedRows,
    arrival: u64,
    provider: &Text,
    reference: &Ref,
    offered: Option<Offered>,
) -> Result<(), AllocError>
    ensures { OnOk result (rows.new ≡ spec.with_rows (spec.row_with arrival (Origin.Provider provider.now) reference.now offered) rows.old) }
{
    let origin = Origin::Provider(provider.duplicate(alloc)?);
    add_row(alloc, rows, arrival, origin, reference, offered)
}

// Adds the rows of an item or of the offers of a record.
fn add_given(
    alloc: Global,
    rows: &mut IndexedRows,
    trees: &Trees,
    row: &StoredRow,
) -> Result<(), AllocError>
    ensures { OnOk result (rows.new ≡ spec.with_rows (spec.given_by trees.now row.now) rows.old) }
{
    match row {
        StoredRow::Item {
            provider,
            reference,
            arrival,
            key,
        } => {
            let offered = offered_by(alloc, trees, *arrival, key, None)?;
            add_item(alloc, rows, *arrival, provider, reference, offered)
        }
        StoredRow::ItemOne {
            provider,
            reference,
            arrival,
            key,
            tree,
        } => {
            let offered = offered_by(alloc, trees, *arrival, key, Some(tree))?;
            add_item(alloc, rows, *arrival, provider, reference, offered)
        }
        StoredRow::Record {
            reference,
            output: Some(output),
            ..
        } => add_output(alloc, rows, trees, reference, output),
        StoredRow::RecordOne {
            reference,
            output,
            ..
        } => add_output(alloc, rows, trees, reference, output),
        StoredRow::Record { output: None, .. }
        | StoredRow::Counter(..)
        | StoredRow::Provider { .. }
        | StoredRow::Shelf { .. }
        | StoredRow::Orphan { .. }
        | StoredRow::Settings(_)
        | StoredRow::Tree { .. } => Ok(()),
    }
}

// The rows that items and offers give, by arrival number.
#[tactic(auto, using(crate::proofs::Putting::with_parts))]
fn rows_of(alloc: Global, trees: &Trees, rows: &[StoredRow]) -> Result<IndexedRows, AllocError>
    ensures { IfOk result (λ made. made ≡ spec.rows_of trees.now rows.now) }
{
    let mut made = IndexedRows::new();
    for row in rows {
        add_given(alloc, &mut made, trees, row)?;
    }
    Ok(made)
}

// The items of a provider, if it has some.
fn items_at(items: &Items, provider: &Text) -> Result<OfferedItems, AllocError>
    ensures { IfOk result (λ own. own ≡ unwrap_or (get items.now provider.now) []) }
{
    match items.get(provider) {
        Some(own) => own.share(),
        None => Ok(OfferedItems::new()),
    }
}

// Puts what a provider offers.
fn put_offered(
    alloc: Global,
    items: &mut Items,
    provider: &Text,
    reference: &Ref,
    offered: Option<Offered>,
) -> Result<(), AllocError>
    ensures { OnOk result (items.new ≡ spec.with_item provider.now reference.now offered items.old) }
{
    let Some(offered) = offered else {
        return Ok(());
    };
    let mut own = items_at(items, provider)?;
    own.put(alloc, reference.duplicate(alloc)?, offered)?;
    items.put(alloc, provider.duplicate(alloc)?, own)
}

// Puts the item of a row, if it has one.
fn put_item(
    alloc: Global,
    items: &mut Items,
    trees: &Trees,
    row: &StoredRow,
) -> Result<(), AllocError>
    ensures { OnOk result (items.new ≡ spec.item_with trees.now row.now items.old) }
{
    match row {
        StoredRow::Item {
            provider,
            reference,
            arrival,
            key,
        } => {
            let offered = offered_by(alloc, trees, *arrival, key, None)?;
            put_offered(alloc, items, provider, reference, offered)
        }
        StoredRow::ItemOne {
            provider,
            reference,
            arrival,
            key,
            tree,
        } => {
            let offered = offered_by(alloc, trees, *arrival, key, Some(tree))?;
            put_offered(alloc, items, provider, reference, offered)
        }
        StoredRow::Counter(..)
        | StoredRow::Provider { .. }
        | StoredRow::Shelf { .. }
        | StoredRow::Record { .. }
        | StoredRow::Orphan { .. }
        | StoredRow::Settings(_)
        | StoredRow::Tree { .. }
        | StoredRow::RecordOne { .. } => Ok(()),
    }
}

fn items_of(alloc: Global, trees: &Trees, rows: &[StoredRow]) -> Result<Items, AllocError>
    ensures { IfOk result (λ items. items ≡ spec.told_by (spec.item_with trees.now) rows.now []) }
{
    let mut items = Map::new();
    for row in rows {
        put_item(alloc, &mut items, trees, row)?;
    }
    Ok(items)
}

// Puts a provider with its items.
fn put_provider(
    alloc: Global,
    made: &mut Map<Text, ProviderInputs>,
    items: &Items,
    row: &StoredRow,
) -> Result<(), AllocError>
    ensures { OnOk result (made.new ≡ puts text_cmp (spec.provider_in items.now row.now) made.old) }
{
    match row {
        StoredRow::Provider { name, serial } => {
            let inputs = ProviderInputs {
                serial: *serial,
                items: items_at(items, name)?,
            };
            made.put(alloc, name.duplicate(alloc)?, inputs)
        }
        StoredRow::Counter(..)
        | StoredRow::Item { .. }
        | StoredRow::Shelf { .. }
        | StoredRow::Record { .. }
        | StoredRow::Orphan { .. }
        | StoredRow::Settings(_)
        | StoredRow::Tree { .. }
        | StoredRow::ItemOne { .. }
        | StoredRow::RecordOne { .. } => Ok(()),
    }
}

// The providers, with these items.
#[tactic(auto, using(crate::proofs::Putting::puts_parts))]
fn served(
    alloc: Global,
    items: &Items,
    rows: &[StoredRow],
) -> Result<Map<Text, ProviderInputs>, AllocError>
    ensures { IfOk result (λ made. made ≡ puts text_cmp (flat_map (spec.provider_in items.now) rows.now) []) }
{
    let mut made = Map::new();
    for row in rows {
        put_provider(alloc, &mut made, items, row)?;
    }
    Ok(made)
}

// The providers with their items.
fn providers_of(
    alloc: Global,
    trees: &Trees,
    rows: &[StoredRow],
) -> Result<Map<Text, ProviderInputs>, AllocError>
    ensures { IfOk result (λ made. made ≡ spec.providers_of trees.now rows.now) }
{
    let items = items_of(alloc, trees, rows)?;
    served(alloc, &items, rows)
}

fn put_text(alloc: Global, shelf: &mut Map<Text, Text>, row: &StoredRow) -> Result<(), AllocError>
    ensures { OnOk result (shelf.new ≡ puts text_cmp (spec.text_in row.now) shelf.old) }
{
    match row {
        StoredRow::Shelf { name, body } => {
            let name = name.duplicate(alloc)?;
            shelf.put(alloc, name, body.duplicate(alloc)?)
        }
        StoredRow::Counter(..)
        | StoredRow::Provider { .. }
        | StoredRow::Item { .. }
        | StoredRow::Record { .. }
        | StoredRow::Orphan { .. }
        | StoredRow::Settings(_)
        | StoredRow::Tree { .. }
        | StoredRow::ItemOne { .. }
        | StoredRow::RecordOne { .. } => Ok(()),
    }
}

#[tactic(auto, using(crate::proofs::Putting::puts_parts))]
fn shelf_of(alloc: Global, rows: &[StoredRow]) -> Result<Map<Text, Text>, AllocError>
    ensures { IfOk result (λ shelf. shelf ≡ spec.shelf_of rows.now) }
{
    let mut shelf = Map::new();
    for row in rows {
        put_text(alloc, &mut shelf, row)?;
    }
    Ok(shelf)
}

// Puts the arrival number of the row that holds a record's reference.
fn put_holder(alloc: Global, holders: &mut Map<Ref, u64>, row: &StoredRow) -> Result<(), AllocError>
    ensures { OnOk result (holders.new ≡ puts text_cmp (spec.holder_in row.now) holders.old) }
{
    match row {
        StoredRow::Record {
            reference,
            holder,
            ..
        }
        | StoredRow::RecordOne {
            reference,
            holder,
            ..
        } => holders.put(alloc, reference.duplicate(alloc)?, *holder),
        StoredRow::Counter(..)
        | StoredRow::Provider { .. }
        | StoredRow::Item { .. }
        | StoredRow::Shelf { .. }
        | StoredRow::Orphan { .. }
        | StoredRow::Settings(_)
        | StoredRow::Tree { .. }
        | StoredRow::ItemOne { .. } => Ok(()),
    }
}

#[tactic(auto, using(crate::proofs::Putting::puts_parts))]
fn holders_of(alloc: Global, rows: &[StoredRow]) -> Result<Map<Ref, u64>, AllocError>
    ensures { IfOk result (λ holders. holders ≡ spec.holders_of rows.now) }
{
    let mut holders = Map::new();
    for row in rows {
        put_holder(alloc, &mut holders, row)?;
    }
    Ok(holders)
}

// Adds an offer, where its tree is there.
fn push_offer(
    alloc: Global,
    made: &mut Vec<(Ref, Offered)>,
    trees: &Trees,
    offer: &StoredOffer,
) -> Result<(), AllocError>
    ensures { OnOk result (made.new.items ≡ made.old.items ++ spec.offer_in trees.now offer.now) }
{
    match offered_by(alloc, trees, offer.arrival, &offer.key, lent(&offer.tree))? {
        None => Ok(()),
        Some(offered) => {
            let reference = offer.reference.duplicate(alloc)?;
            made.push((reference, offered))?;
            Ok(())
        }
    }
}

// What a record gave last.
fn output_in(alloc: Global, trees: &Trees, output: &StoredOutput) -> Result<Output, AllocError>
    ensures { IfOk result (λ made. made ≡ spec.output_in trees.now output.now) }
{
    let mut offers = Vec::new(alloc);
    for offer in output.offers.as_slice() {
        push_offer(alloc, &mut offers, trees, offer)?;
    }
    Ok(Output {
        entity: output.entity.duplicate(alloc)?,
        offers: Entries::from_vec(offers),
    })
}

// A record that is due at once, and free.
fn recorded(
    alloc: Global,
    issues: &Listing<Issue>,
    number: u64,
    output: Option<Output>,
) -> Result<Record, AllocError>
    ensures { IfOk result (λ made. made ≡ spec.recorded_as issues.now number output) }
{
    Ok(Record {
        number,
        output,
        issues: issues.duplicate(alloc)?,
        due: 0,
        lease: None,
    })
}

// What a record gave last, if it gave anything.
fn kept_in(
    alloc: Global,
    trees: &Trees,
    output: &Option<StoredOutput>,
) -> Result<Option<Output>, AllocError>
    ensures { IfOk result (λ made. made ≡ option_map (spec.output_in trees.now) output.now) }
{
    match output {
        None => Ok(None),
        Some(output) => Ok(Some(output_in(alloc, trees, output)?)),
    }
}

// Puts a record.
fn put_record(
    alloc: Global,
    made: &mut Records,
    trees: &Trees,
    row: &StoredRow,
) -> Result<(), AllocError>
    ensures { OnOk result (made.new ≡ puts text_cmp (spec.record_in trees.now row.now) made.old) }
{
    match row {
        StoredRow::Record {
            reference,
            issues,
            number,
            output,
            ..
        } => {
            let output = kept_in(alloc, trees, output)?;
            let kept = recorded(alloc, issues, *number, output)?;
            made.put(alloc, reference.duplicate(alloc)?, kept)
        }
        StoredRow::RecordOne {
            reference,
            issues,
            number,
            output,
            ..
        } => {
            let output = output_in(alloc, trees, output)?;
            let kept = recorded(alloc, issues, *number, Some(output))?;
            made.put(alloc, reference.duplicate(alloc)?, kept)
        }
        StoredRow::Counter(..)
        | StoredRow::Provider { .. }
        | StoredRow::Item { .. }
        | StoredRow::Shelf { .. }
        | StoredRow::Orphan { .. }
        | StoredRow::Settings(_)
        | StoredRow::Tree { .. }
        | StoredRow::ItemOne { .. } => Ok(()),
    }
}

// The records, each due at once and free.
#[tactic(auto, using(crate::proofs::Putting::puts_parts))]
fn records_of(alloc: Global, trees: &Trees, rows: &[StoredRow]) -> Result<Records, AllocError>
    ensures { IfOk result (λ made. made ≡ spec.records_of trees.now rows.now) }
{
    let mut made = Records::new();
    for row in rows {
        put_record(alloc, &mut made, trees, row)?;
    }
    Ok(made)
}

fn put_orphan(alloc: Global, made: &mut Map<Ref, Orphan>, row: &StoredRow) -> Result<(), AllocError>
    ensures { OnOk result (made.new ≡ puts text_cmp (spec.orphan_in row.now) made.old) }
{
    match row {
        StoredRow::Orphan {
            reference,
            entity,
            number,
        } => {
            let entity = entity.duplicate(alloc)?;
            let orphan = Orphan {
                number: *number,
                entity,
            };
            made.put(alloc, reference.duplicate(alloc)?, orphan)
        }
        StoredRow::Counter(..)
        | StoredRow::Provider { .. }
        | StoredRow::Item { .. }
        | StoredRow::Shelf { .. }
        | StoredRow::Record { .. }
        | StoredRow::Settings(_)
        | StoredRow::Tree { .. }
        | StoredRow::ItemOne { .. }
        | StoredRow::RecordOne { .. } => Ok(()),
    }
}

#[tactic(auto, using(crate::proofs::Putting::puts_parts))]
fn orphans_of(alloc: Global, rows: &[StoredRow]) -> Result<Map<Ref, Orphan>, AllocError>
    ensures { IfOk result (λ made. made ≡ spec.orphans_of rows.now) }
{
    let mut made = Map::new();
    for row in rows {
        put_orphan(alloc, &mut made, row)?;
    }
    Ok(made)
}

// The greatest next number of a counter.
const MOST_NUMBER: u64 = 1 << 59;

// A number in the bounds of the counters; 1 in place of another one.
fn bounded(number: u64) -> u64
    ensures { result ≡ spec.bounded number }
{
    if 1 <= number && number <= MOST_NUMBER {
        number
    } else {
        1
    }
}

// The next numbers of both counters.
#[derive(Clone, Copy, Drop)]
struct Next {
    arrival: u64,
    number: u64,
}

fn with_counter(row: &StoredRow, next: Next) -> Next
    ensures arrival { result.arrival ≡ spec.arrival_by row.now next.arrival }
    ensures number { result.number ≡ spec.number_by row.now next.number }
{
    match row {
        StoredRow::Counter(StoredCounter::Arrival, number) => Next {
            arrival: bounded(*number),
            number: next.number,
        },
        StoredRow::Counter(StoredCounter::Number, number) => Next {
            arrival: next.arrival,
            number: bounded(*number),
        },
        StoredRow::Provider { .. }
        | StoredRow::Item { .. }
        | StoredRow::Shelf { .. }
        | StoredRow::Record { .. }
        | StoredRow::Orphan { .. }
        | StoredRow::Settings(_)
        | StoredRow::Tree { .. }
        | StoredRow::ItemOne { .. }
        | StoredRow::RecordOne { .. } => next,
    }
}

// The next numbers of both counters; 1 where a counter is missing or out of its bounds.
fn counters_of(rows: &[StoredRow]) -> Next
    ensures arrival { result.arrival ≡ spec.told_by spec.arrival_by rows.now 1 }
    ensures number { result.number ≡ spec.told_by spec.number_by rows.now 1 }
{
    let mut next = Next {
        arrival: 1,
        number: 1,
    };
    for row in rows {
        next = with_counter(row, next);
    }
    next
}

fn rule_named(rule: StoredRule) -> OrphanRule
    ensures { result ≡ spec.rule_named rule }
{
    match rule {
        StoredRule::Keep => OrphanRule::Keep,
        StoredRule::Delete => OrphanRule::Delete,
    }
}

fn rule_by(row: &StoredRow, rule: OrphanRule) -> OrphanRule
    ensures { result ≡ spec.rule_by row.now rule }
{
    match row {
        StoredRow::Settings(stored) => rule_named(*stored),
        StoredRow::Counter(..)
        | StoredRow::Provider { .. }
        | StoredRow::Item { .. }
        | StoredRow::Shelf { .. }
        | StoredRow::Record { .. }
        | StoredRow::Orphan { .. }
        | StoredRow::Tree { .. }
        | StoredRow::ItemOne { .. }
        | StoredRow::RecordOne { .. } => rule,
    }
}

/// The rule for orphans that rows have; `Keep` where none is stored.
pub fn rule_of(rows: &[StoredRow]) -> OrphanRule
    ensures { result ≡ spec.rule_of rows.now }
{
    let mut rule = OrphanRule::Keep;
    for row in rows {
        rule = rule_by(row, rule);
    }
    rule
}

// What rows tell of the inputs of a state.
#[derive(Drop)]
struct Inputs {
    providers: Map<Text, ProviderInputs>,
    shelf: Map<Text, Text>,
    rows: IndexedRows,
}

fn inputs_of(alloc: Global, trees: &Trees, rows: &[StoredRow]) -> Result<Inputs, AllocError>
    ensures providers { IfOk result (λ x. x.providers ≡ spec.providers_of trees.now rows.now) }
    ensures shelf { IfOk result (λ x. x.shelf ≡ spec.shelf_of rows.now) }
    ensures rows { IfOk result (λ x. x.rows ≡ spec.rows_of trees.now rows.now) }
{
    let providers = providers_of(alloc, trees, rows)?;
    let shelf = shelf_of(alloc, rows)?;
    let rows = rows_of(alloc, trees, rows)?;
    Ok(Inputs {
        providers,
        shelf,
        rows,
    })
}

// What rows tell of what a state knows.
#[derive(Drop)]
struct Known {
    holders: Map<Ref, u64>,
    records: Records,
    orphans: Map<Ref, Orphan>,
}

fn known_of(alloc: Global, trees: &Trees, rows: &[StoredRow]) -> Result<Known, AllocError>
    ensures holders { IfOk result (λ x. x.holders ≡ spec.holders_of rows.now) }
    ensures records { IfOk result (λ x. x.records ≡ spec.records_of trees.now rows.now) }
    ensures orphans { IfOk result (λ x. x.orphans ≡ spec.orphans_of rows.now) }
{
    let holders = holders_of(alloc, rows)?;
    let records = records_of(alloc, trees, rows)?;
    let orphans = orphans_of(alloc, rows)?;
    Ok(Known {
        holders,
        records,
        orphans,
    })
}

/// The state of rows, without marks and documents. Each record is due at once, and tokens and tickets start at 1.
#[tactic(auto, unfolding(crate::specs::Standing::state_of))]
pub fn state_of(alloc: Global, rows: &[StoredRow]) -> Result<State, AllocError>
    ensures { IfOk result (λ m. m ≡ spec.state_of rows.now) }
{
    let trees = trees_of(alloc, rows)?;
    let inputs = inputs_of(alloc, &trees, rows)?;
    let known = known_of(alloc, &trees, rows)?;
    let next = counters_of(rows);
    Ok(State {
        providers: inputs.providers,
        shelf: inputs.shelf,
        rows: inputs.rows,
        holders: known.holders,
        records: known.records,
        orphans: known.orphans,
        marks: Marks::new(),
        documents: Index::empty(),
        arrival: next.arrival,
        number: next.number,
        token: 1,
        ticket: 1,
    })
}
