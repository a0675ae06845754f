//! The trees whose compact texts are the values of rows.
ghost use Rattle.std.specs.Prelude.{◌≡◌, IfOk, OnOk, None, [], ◌∷◌, codes};
ghost use Rattle.cat_tree.specs.View.{data_of};
ghost use Rattle.cat_tree.specs.Edit.{with_key};
ghost use Rattle.cat_row_format.specs.Spelled.{IsRef, IsNamed, OffersNamed, OutputNamed};
ghost use Rattle.cat_row_format.specs.Text as text;

use crate::names::rule_text;
use crate::row::{OrphanRule, StoredOffer, StoredOutput, StoredRow};
use cat_stitch::issues::{issue_name_text, level_text};
use cat_stitch::make::{empty_map, with_words, words};
use cat_tree::clone::copy;
use cat_tree::edit::with_key;
use cat_tree::tree::{Tree, Trees};
use cat_types::issue::Issue;
use cat_types::node::Node;
use cat_types::reference::Ref;
use std::alloc::{AllocError, Global};

// A number as a tree.
fn number(value: u64) -> Tree
    ensures { data_of result ≡ text.number value }
{
    Tree::Whole(value as i128)
}

// The map with a number at the key; another tree stays as it is.
fn with_number(alloc: Global, tree: Tree, key: &str, value: u64) -> Result<Tree, AllocError>
    ensures { IfOk result (λ t. data_of t ≡ with_key key.now (text.number value) (data_of tree)) }
{
    with_key(alloc, tree, key, number(value))
}

// The map with a copy of a tree at the key; another tree stays as it is.
fn with_node(alloc: Global, tree: Tree, key: &str, node: &Node) -> Result<Tree, AllocError>
    ensures { IfOk result (λ t. data_of t ≡ with_key key.now node.now (data_of tree)) }
{
    let value = copy(alloc, node.tree())?;
    with_key(alloc, tree, key, value)
}

// The tree of an issue.
fn issue_tree(alloc: Global, issue: &Issue) -> Result<Tree, AllocError>
    ensures { IfOk result (λ t. data_of t ≡ text.issue_data issue.now) }
{
    let tree = with_words(alloc, empty_map(alloc), "level", level_text(issue.level))?;
    let tree = with_words(alloc, tree, "message", issue.message.as_str())?;
    with_words(alloc, tree, "name", issue_name_text(issue.name))
}

// The tree of issues, a list in their order.
fn issues_tree(alloc: Global, issues: &[Issue]) -> Result<Tree, AllocError>
    ensures { IfOk result (λ t. data_of t ≡ text.listed text.issue_data issues.now) }
{
    let mut items = Vec::with_capacity(alloc, issues.len())?;
    for issue in issues {
        items.push(issue_tree(alloc, issue)?)?;
    }
    Ok(Tree::List(Trees::from_vec(items)))
}

// The reference names itself.
fn named(reference: &Ref)
    ensures { IsRef reference.now }
{
    reference.parses_back();
}

// The tree of an offer by arrival, key and reference.
fn bare_offer_tree(alloc: Global, offer: &StoredOffer) -> Result<Tree, AllocError>
    ensures data { IfOk result (λ t. data_of t ≡ text.offer_data (record offer.now { tree = None })) }
{
    let tree = with_number(alloc, empty_map(alloc), "arrival", offer.arrival)?;
    let tree = with_words(alloc, tree, "key", offer.key.as_str())?;
    with_words(alloc, tree, "ref", offer.reference.as_str())
}

// The tree of an offer.
fn offer_tree(alloc: Global, offer: &StoredOffer) -> Result<Tree, AllocError>
    ensures data { IfOk result (λ t. data_of t ≡ text.offer_data offer.now) }
    ensures named { IsRef offer.now.reference }
{
    named(&offer.reference);
    let tree = bare_offer_tree(alloc, offer)?;
    match &offer.tree {
        Some(node) => with_node(alloc, tree, "tree", node),
        None => Ok(tree),
    }
}

// The tree of offers, a list in their order.
fn offers_tree(alloc: Global, offers: &[StoredOffer]) -> Result<Tree, AllocError>
    ensures data { IfOk result (λ t. data_of t ≡ text.listed text.offer_data offers.now) }
    ensures named { OnOk result (OffersNamed offers.now) }
{
    let mut items = Vec::with_capacity(alloc, offers.len())?;
    for offer in offers {
        items.push(offer_tree(alloc, offer)?)?;
    }
    Ok(Tree::List(Trees::from_vec(items)))
}

// The tree of what a record gave last.
fn output_tree(alloc: Global, output: &StoredOutput) -> Result<Tree, AllocError>
    ensures data { IfOk result (λ t. data_of t ≡ text.output_data output.now) }
    ensures named { OnOk result (OffersNamed output.now.offers) }
{
    let tree = with_node(alloc, empty_map(alloc), "entity", &output.entity)?;
    let offers = offers_tree(alloc, output.offers.as_slice())?;
    with_key(alloc, tree, "offers", offers)
}

// The tree of what a record gave last, if it gave anything.
fn kept_tree(alloc: Global, output: &Option<StoredOutput>) -> Result<Tree, AllocError>
    ensures data { IfOk result (λ t. data_of t ≡ text.kept_data output.now) }
    ensures named { OnOk result (OutputNamed output.now) }
{
    match output {
        Some(output) => output_tree(alloc, output),
        None => Ok(Tree::Null),
    }
}

// The tree of a record.
fn record_tree(
    alloc: Global,
    holder: u64,
    issues: &[Issue],
    value: u64,
    output: Tree,
) -> Result<Tree, AllocError>
    ensures { IfOk result (λ t. data_of t ≡ text.object (
        (codes "holder", text.number holder)
        ∷ (codes "issues", text.listed text.issue_data issues.now)
        ∷ (codes "number", text.number value)
        ∷ (codes "output", data_of output)
        ∷ [])) }
{
    let tree = with_number(alloc, empty_map(alloc), "holder", holder)?;
    let issues = issues_tree(alloc, issues)?;
    let tree = with_key(alloc, tree, "issues", issues)?;
    let tree = with_number(alloc, tree, "number", value)?;
    with_key(alloc, tree, "output", output)
}

// The tree of an item without its own.
fn item_tree(alloc: Global, arrival: u64, key: &str) -> Result<Tree, AllocError>
    ensures { IfOk result (λ t. data_of t ≡ text.given_data arrival key.now None) }
{
    let tree = with_number(alloc, empty_map(alloc), "arrival", arrival)?;
    with_words(alloc, tree, "key", key)
}

// The tree of an orphan.
fn orphan_tree(alloc: Global, entity: &Node, value: u64) -> Result<Tree, AllocError>
    ensures { IfOk result (λ t. data_of t ≡ text.object (
        (codes "entity", entity.now) ∷ (codes "number", text.number value) ∷ [])) }
{
    let tree = with_node(alloc, empty_map(alloc), "entity", entity)?;
    with_number(alloc, tree, "number", value)
}

// The tree of the settings.
fn settings_tree(alloc: Global, rule: OrphanRule) -> Result<Tree, AllocError>
    ensures { IfOk result (λ t. data_of t ≡ text.row_data (StoredRow.Settings rule)) }
{
    let tree = with_words(alloc, empty_map(alloc), "orphans", rule_text(rule))?;
    with_number(alloc, tree, "version", 2)
}

/// The tree whose compact text is the value of a row. The error is want of memory.
pub fn row_tree(alloc: Global, row: &StoredRow) -> Result<Tree, AllocError>
    ensures data { IfOk result (λ t. data_of t ≡ text.row_data row.now) }
    ensures named { OnOk result (IsNamed row.now) }
{
    match row {
        StoredRow::Counter(_, next) => Ok(number(*next)),
        StoredRow::Provider { serial, .. } => {
            with_number(alloc, empty_map(alloc), "serial", *serial)
        }
        StoredRow::Item {
            reference,
            arrival,
            key,
            ..
        } => {
            named(reference);
            item_tree(alloc, *arrival, key.as_str())
        }
        StoredRow::Shelf { body, .. } => words(alloc, body.as_str()),
        StoredRow::Record {
            reference,
            holder,
            issues,
            number,
            output,
        } => {
            named(reference);
            let output = kept_tree(alloc, output)?;
            record_tree(alloc, *holder, issues.as_slice(), *number, output)
        }
        StoredRow::Orphan {
            reference,
            entity,
            number,
        } => {
            named(reference);
            orphan_tree(alloc, entity, *number)
        }
        StoredRow::Settings(rule) => settings_tree(alloc, *rule),
        StoredRow::Tree { tree, .. } => copy(alloc, tree.tree()),
        StoredRow::ItemOne {
            reference,
            arrival,
            key,
            tree,
            ..
        } => {
            named(reference);
            let map = item_tree(alloc, *arrival, key.as_str())?;
            with_node(alloc, map, "tree", tree)
        }
        StoredRow::RecordOne {
            reference,
            holder,
            issues,
            number,
            output,
        } => {
            named(reference);
            let output = output_tree(alloc, output)?;
            record_tree(alloc, *holder, issues.as_slice(), *number, output)
        }
    }
}
