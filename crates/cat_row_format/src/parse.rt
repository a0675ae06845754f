//! The row that a table, a key and a tree have in them, where nothing else is asked of the tree.
ghost use Rattle.std.specs.Prelude.{◌≡◌, ◌⊎◌, map, IfOk, IfErr, Ok, Err};
ghost use Rattle.cat_tree.specs.Data.{items_of};
ghost use Rattle.cat_tree.specs.View.{data_of};
ghost use Rattle.cat_row_format.specs.Parsed as parsed;

use crate::fields::{
    field, hex_in, node, node_at, node_field, number_at, number_in, owned, reference_at,
    reference_in, text_field, words_at, words_in,
};
use crate::names::{counter_in, issue_name_in, level_in, rule_in};
use crate::row::{OrphanRule, RowFault, StoredOffer, StoredOutput, StoredRow};
use cat_collections::listing::Listing;
use cat_keeper::table::Table;
use cat_tree::text::Text;
use cat_tree::tree::Tree;
use cat_types::issue::{Issue, IssueName, Level};
use cat_types::node::Node;
use cat_types::reference::Ref;
use std::alloc::Global;

// The level of an issue.
fn level_at(tree: &Tree) -> Result<Level, RowFault>
    ensures { result ≡ parsed.level_at (data_of tree.now) }
{
    match words_at(tree, "level") {
        Ok(text) => level_in(text),
        Err(fault) => Err(fault),
    }
}

// What an issue is about.
fn issue_name_at(tree: &Tree) -> Result<IssueName, RowFault>
    ensures { result ≡ parsed.issue_name_at (data_of tree.now) }
{
    match words_at(tree, "name") {
        Ok(text) => issue_name_in(text),
        Err(fault) => Err(fault),
    }
}

fn issue_in(alloc: Global, tree: &Tree) -> Result<Issue, RowFault>
    ensures ok { IfOk result (λ i. parsed.issue_in (data_of tree.now) ≡ Ok i) }
    ensures err { IfErr result (λ e. (parsed.issue_in (data_of tree.now) ≡ Err e) ⊎ (e ≡ RowFault.NoMemory)) }
{
    let level = level_at(tree)?;
    let name = issue_name_at(tree)?;
    let message = text_field(alloc, tree, "message")?;
    Ok(Issue {
        level,
        name,
        message,
    })
}

// The issues of a list.
fn issues_of(alloc: Global, trees: &[Tree]) -> Result<Listing<Issue>, RowFault>
    ensures ok { IfOk result (λ is. parsed.each_of parsed.issue_in (items_of (map data_of trees.now)) ≡ Ok is) }
    ensures err { IfErr result (λ e. (parsed.each_of parsed.issue_in (items_of (map data_of trees.now)) ≡ Err e)
        ⊎ (e ≡ RowFault.NoMemory)) }
{
    let mut issues = Vec::new(alloc);
    for tree in trees {
        issues.push(issue_in(alloc, tree)?)?;
    }
    Ok(Listing::from_vec(issues))
}

fn issues_at(alloc: Global, tree: &Tree) -> Result<Listing<Issue>, RowFault>
    ensures ok { IfOk result (λ is. parsed.issues_at (data_of tree.now) ≡ Ok is) }
    ensures err { IfErr result (λ e. (parsed.issues_at (data_of tree.now) ≡ Err e) ⊎ (e ≡ RowFault.NoMemory)) }
{
    match field(tree, "issues") {
        Ok(Tree::List(trees)) => issues_of(alloc, trees.as_slice()),
        _ => Err(RowFault::BadRow),
    }
}

fn offer_in(alloc: Global, tree: &Tree) -> Result<StoredOffer, RowFault>
    ensures ok { IfOk result (λ o. parsed.offer_in (data_of tree.now) ≡ Ok o) }
    ensures err { IfErr result (λ e. (parsed.offer_in (data_of tree.now) ≡ Err e) ⊎ (e ≡ RowFault.NoMemory)) }
{
    let arrival = number_at(tree, "arrival")?;
    let key = text_field(alloc, tree, "key")?;
    let reference = reference_at(alloc, tree, "ref")?;
    let beside = node_at(alloc, tree, "tree")?;
    Ok(StoredOffer {
        arrival,
        key,
        reference,
        tree: beside,
    })
}

// The offers of a list.
fn offers_of(alloc: Global, trees: &[Tree]) -> Result<Listing<StoredOffer>, RowFault>
    ensures ok { IfOk result (λ os. parsed.each_of parsed.offer_in (items_of (map data_of trees.now)) ≡ Ok os) }
    ensures err { IfErr result (λ e. (parsed.each_of parsed.offer_in (items_of (map data_of trees.now)) ≡ Err e)
        ⊎ (e ≡ RowFault.NoMemory)) }
{
    let mut offers = Vec::new(alloc);
    for tree in trees {
        offers.push(offer_in(alloc, tree)?)?;
    }
    Ok(Listing::from_vec(offers))
}

fn offers_at(alloc: Global, tree: &Tree) -> Result<Listing<StoredOffer>, RowFault>
    ensures ok { IfOk result (λ os. parsed.offers_at (data_of tree.now) ≡ Ok os) }
    ensures err { IfErr result (λ e. (parsed.offers_at (data_of tree.now) ≡ Err e) ⊎ (e ≡ RowFault.NoMemory)) }
{
    match field(tree, "offers") {
        Ok(Tree::List(trees)) => offers_of(alloc, trees.as_slice()),
        _ => Err(RowFault::BadRow),
    }
}

fn output_in(alloc: Global, tree: &Tree) -> Result<StoredOutput, RowFault>
    ensures ok { IfOk result (λ o. parsed.output_in (data_of tree.now) ≡ Ok o) }
    ensures err { IfErr result (λ e. (parsed.output_in (data_of tree.now) ≡ Err e) ⊎ (e ≡ RowFault.NoMemory)) }
{
    let entity = node_field(alloc, tree, "entity")?;
    let offers = offers_at(alloc, tree)?;
    Ok(StoredOutput { entity, offers })
}

// What a record gave last, or null.
fn kept_at(alloc: Global, tree: &Tree) -> Result<Option<StoredOutput>, RowFault>
    ensures ok { IfOk result (λ o. parsed.kept_at (data_of tree.now) ≡ Ok o) }
    ensures err { IfErr result (λ e. (parsed.kept_at (data_of tree.now) ≡ Err e) ⊎ (e ≡ RowFault.NoMemory)) }
{
    match field(tree, "output") {
        Ok(Tree::Null) => Ok(None),
        Ok(part) => Ok(Some(output_in(alloc, part)?)),
        Err(fault) => Err(fault),
    }
}

// An item of either version, by whether its tree stands beside it.
fn item_row(
    provider: Text,
    reference: Ref,
    arrival: u64,
    key: Text,
    tree: Option<Node>,
) -> StoredRow
    ensures { result ≡ parsed.item_row provider reference arrival key tree }
{
    match tree {
        None => StoredRow::Item {
            provider,
            reference,
            arrival,
            key,
        },
        Some(tree) => StoredRow::ItemOne {
            provider,
            reference,
            arrival,
            key,
            tree,
        },
    }
}

// The item of a provider and a reference.
fn item_of(
    alloc: Global,
    provider: &str,
    reference: &str,
    tree: &Tree,
) -> Result<StoredRow, RowFault>
    ensures ok { IfOk result (λ r. parsed.item_of provider.now reference.now (data_of tree.now) ≡ Ok r) }
    ensures err { IfErr result (λ e. (parsed.item_of provider.now reference.now (data_of tree.now) ≡ Err e)
        ⊎ (e ≡ RowFault.NoMemory)) }
{
    let reference = reference_in(alloc, reference)?;
    let arrival = number_at(tree, "arrival")?;
    let key = text_field(alloc, tree, "key")?;
    let provider = owned(alloc, provider)?;
    let beside = node_at(alloc, tree, "tree")?;
    Ok(item_row(provider, reference, arrival, key, beside))
}

fn item_in(alloc: Global, name: &str, tree: &Tree) -> Result<StoredRow, RowFault>
    ensures ok { IfOk result (λ r. parsed.item_in name.now (data_of tree.now) ≡ Ok r) }
    ensures err { IfErr result (λ e. (parsed.item_in name.now (data_of tree.now) ≡ Err e) ⊎ (e ≡ RowFault.NoMemory)) }
{
    match name.split_once(' ') {
        Some((provider, reference)) => item_of(alloc, provider, reference, tree),
        None => Err(RowFault::BadRow),
    }
}

fn first_has_tree(offers: &[StoredOffer]) -> bool
    ensures { result ≡ parsed.first_has_tree offers.now }
{
    match offers.first() {
        Some(offer) => offer.tree.is_some(),
        None => false,
    }
}

// A record of either version, by whether its first offer has its tree beside it.
fn record_row(
    reference: Ref,
    holder: u64,
    issues: Listing<Issue>,
    number: u64,
    output: Option<StoredOutput>,
) -> StoredRow
    ensures { result ≡ parsed.record_row reference holder issues number output }
{
    match output {
        Some(output) if first_has_tree(output.offers.as_slice()) => StoredRow::RecordOne {
            reference,
            holder,
            issues,
            number,
            output,
        },
        output => StoredRow::Record {
            reference,
            holder,
            issues,
            number,
            output,
        },
    }
}

fn record_in(alloc: Global, key: &str, tree: &Tree) -> Result<StoredRow, RowFault>
    ensures ok { IfOk result (λ r. parsed.record_in key.now (data_of tree.now) ≡ Ok r) }
    ensures err { IfErr result (λ e. (parsed.record_in key.now (data_of tree.now) ≡ Err e) ⊎ (e ≡ RowFault.NoMemory)) }
{
    let reference = reference_in(alloc, key)?;
    let holder = number_at(tree, "holder")?;
    let issues = issues_at(alloc, tree)?;
    let number = number_at(tree, "number")?;
    let output = kept_at(alloc, tree)?;
    Ok(record_row(reference, holder, issues, number, output))
}

fn orphan_in(alloc: Global, key: &str, tree: &Tree) -> Result<StoredRow, RowFault>
    ensures ok { IfOk result (λ r. parsed.orphan_in key.now (data_of tree.now) ≡ Ok r) }
    ensures err { IfErr result (λ e. (parsed.orphan_in key.now (data_of tree.now) ≡ Err e) ⊎ (e ≡ RowFault.NoMemory)) }
{
    let reference = reference_in(alloc, key)?;
    let entity = node_field(alloc, tree, "entity")?;
    let number = number_at(tree, "number")?;
    Ok(StoredRow::Orphan {
        reference,
        entity,
        number,
    })
}

fn counter_row(key: &str, tree: &Tree) -> Result<StoredRow, RowFault>
    ensures ok { IfOk result (λ r. parsed.counter_row key.now (data_of tree.now) ≡ Ok r) }
    ensures err { IfErr result (λ e. parsed.counter_row key.now (data_of tree.now) ≡ Err e) }
{
    let counter = counter_in(key)?;
    let next = number_in(tree)?;
    Ok(StoredRow::Counter(counter, next))
}

fn provider_row(alloc: Global, key: &str, tree: &Tree) -> Result<StoredRow, RowFault>
    ensures ok { IfOk result (λ r. parsed.provider_row key.now (data_of tree.now) ≡ Ok r) }
    ensures err { IfErr result (λ e. (parsed.provider_row key.now (data_of tree.now) ≡ Err e) ⊎ (e ≡ RowFault.NoMemory)) }
{
    let serial = number_at(tree, "serial")?;
    let name = owned(alloc, key)?;
    Ok(StoredRow::Provider { name, serial })
}

fn shelf_row(alloc: Global, key: &str, tree: &Tree) -> Result<StoredRow, RowFault>
    ensures ok { IfOk result (λ r. parsed.shelf_row key.now (data_of tree.now) ≡ Ok r) }
    ensures err { IfErr result (λ e. (parsed.shelf_row key.now (data_of tree.now) ≡ Err e) ⊎ (e ≡ RowFault.NoMemory)) }
{
    let text = words_in(tree)?;
    let body = owned(alloc, text)?;
    let name = owned(alloc, key)?;
    Ok(StoredRow::Shelf { name, body })
}

// The rule for orphans that settings have.
fn rule_at(tree: &Tree) -> Result<OrphanRule, RowFault>
    ensures { result ≡ parsed.rule_at (data_of tree.now) }
{
    match words_at(tree, "orphans") {
        Ok(text) => rule_in(text),
        Err(fault) => Err(fault),
    }
}

fn tree_row(alloc: Global, key: &str, tree: &Tree) -> Result<StoredRow, RowFault>
    ensures ok { IfOk result (λ r. parsed.tree_row key.now (data_of tree.now) ≡ Ok r) }
    ensures err { IfErr result (λ e. (parsed.tree_row key.now (data_of tree.now) ≡ Err e) ⊎ (e ≡ RowFault.NoMemory)) }
{
    let arrival = hex_in(key)?;
    let tree = node(alloc, tree)?;
    Ok(StoredRow::Tree { arrival, tree })
}

/// The row of a table and a key whose value has this tree. Where there is a row with this spelling, it is that one.
pub fn row_in(alloc: Global, table: Table, key: &str, tree: &Tree) -> Result<StoredRow, RowFault>
    ensures ok { IfOk result (λ r. parsed.row_in table key.now (data_of tree.now) ≡ Ok r) }
    ensures err { IfErr result (λ e. (parsed.row_in table key.now (data_of tree.now) ≡ Err e) ⊎ (e ≡ RowFault.NoMemory)) }
{
    match table {
        Table::Counters => counter_row(key, tree),
        Table::Providers => provider_row(alloc, key, tree),
        Table::Items => item_in(alloc, key, tree),
        Table::Shelf => shelf_row(alloc, key, tree),
        Table::Records => record_in(alloc, key, tree),
        Table::Orphans => orphan_in(alloc, key, tree),
        Table::Settings => Ok(StoredRow::Settings(rule_at(tree)?)),
        Table::Trees => tree_row(alloc, key, tree),
    }
}
