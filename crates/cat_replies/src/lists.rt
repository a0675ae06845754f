//! Answers that list what the catalogue has, as JSON, without LF.
ghost use Rattle.std.specs.Prelude.{◌≡◌, ◌++◌, ◌∷◌, [], IfOk, OnOk, OnErr, map, string_bytes};
ghost use Rattle.std.specs.List.{list_any};
ghost use Rattle.cat_model.specs.Reply.{is_error};
ghost use Rattle.cat_tree.specs.Text.{text_of};
ghost use Rattle.cat_tree.specs.View.{data_of};
ghost use Rattle.cat_replies.specs.Lists as spec;
ghost use Rattle.cat_replies.specs.Shown as seen;

use crate::conflicts::{Conflict, conflicts};
use cat_collections::map::Map;
use cat_model::records::Records;
use cat_model::types::{Origin, Orphan, Record, Row, State};
use cat_stitch::issues::issue_items;
use cat_stitch::make::{empty_map, with_words, words};
use cat_tree::edit::with_key;
use cat_tree::tree::{Tree, Trees};
use cat_tree::write::write;
use cat_types::issue::{Issue, Level};
use cat_types::reference::Ref;
use std::alloc::{AllocError, Global};

/// Appends a document.
pub fn push_document(alloc: Global, out: &mut Vec<u8>, document: &Tree) -> Result<(), AllocError>
    ensures ok { OnOk result (out.new.items ≡ out.old.items ++ text_of (data_of document.now)) }
    ensures err { OnErr result (out.new.items ≡ out.old.items) }
{
    write(alloc, document, out)
}

/// Appends the list of the orphans' references, in order.
pub fn push_orphans(
    alloc: Global,
    out: &mut Vec<u8>,
    orphans: &Map<Ref, Orphan>,
) -> Result<(), AllocError>
    ensures ok { OnOk result (out.new.items
        ≡ out.old.items ++ text_of (spec.orphans_listed orphans.now)) }
    ensures err { OnErr result (out.new.items ≡ out.old.items) }
{
    let tree = orphans_listed(alloc, orphans)?;
    write(alloc, &tree, out)
}

/// Appends the list of the records that have an issue of level error, in order of reference, each with all its status
/// items.
pub fn push_failures(alloc: Global, out: &mut Vec<u8>, records: &Records) -> Result<(), AllocError>
    ensures ok { OnOk result (out.new.items
        ≡ out.old.items ++ text_of (spec.failures_listed records.now)) }
    ensures err { OnErr result (out.new.items ≡ out.old.items) }
{
    let tree = failures_listed(alloc, records)?;
    write(alloc, &tree, out)
}

/// Appends the list of the conflicts, by reference and arrival. A conflict is a row that waits with another key
/// than the row that holds its reference.
pub fn push_conflicts(alloc: Global, out: &mut Vec<u8>, state: &State) -> Result<(), AllocError>
    ensures ok { OnOk result (out.new.items
        ≡ out.old.items ++ text_of (spec.conflicts_listed state.now)) }
    ensures err { OnErr result (out.new.items ≡ out.old.items) }
{
    let found = conflicts(alloc, state)?;
    let tree = conflicts_shown(alloc, found.as_slice())?;
    write(alloc, &tree, out)
}

fn orphans_listed(alloc: Global, orphans: &Map<Ref, Orphan>) -> Result<Tree, AllocError>
    ensures { IfOk result (λ t. data_of t ≡ spec.orphans_listed orphans.now) }
{
    let mut trees = Vec::with_capacity(alloc, orphans.len())?;
    for (reference, _) in orphans.iter() {
        trees.push(words(alloc, reference.as_str())?)?;
    }
    Ok(Tree::List(Trees::from_vec(trees)))
}

fn failures_listed(alloc: Global, records: &Records) -> Result<Tree, AllocError>
    ensures { IfOk result (λ t. data_of t ≡ spec.failures_listed records.now) }
{
    let mut trees = Vec::new(alloc);
    for (reference, record) in records.iter() {
        push_failure(alloc, &mut trees, reference, record)?;
    }
    Ok(Tree::List(Trees::from_vec(trees)))
}

// Adds the record where it failed.
fn push_failure(
    alloc: Global,
    trees: &mut Vec<Tree>,
    reference: &Ref,
    record: &Record,
) -> Result<(), AllocError>
    ensures { OnOk result (seen.trees trees.new
        ≡ seen.trees trees.old ++ spec.failures_in ((reference.now, «record».now) ∷ [])) }
{
    if has_error(record.issues.as_slice()) {
        trees.push(failure(alloc, reference, record)?)?;
    }
    Ok(())
}

// Whether an issue has the level error.
fn has_error(issues: &[Issue]) -> bool
    ensures { result ≡ list_any is_error issues.now }
{
    issues.iter().any(|issue| issue.level == Level::Error)
}

// A record that failed, with all its status items.
fn failure(alloc: Global, reference: &Ref, record: &Record) -> Result<Tree, AllocError>
    ensures { IfOk result (λ t. data_of t ≡ spec.failure (reference.now, «record».now)) }
{
    let items = issue_items(alloc, record.issues.as_slice())?;
    let tree = with_words(alloc, empty_map(alloc), "entityRef", reference.as_str())?;
    with_key(alloc, tree, "items", items)
}

fn conflicts_shown(alloc: Global, conflicts: &[Conflict<'_>]) -> Result<Tree, AllocError>
    ensures { IfOk result (λ t. data_of t ≡ spec.conflicts_shown (map seen.conflict conflicts.now)) }
{
    let mut trees = Vec::with_capacity(alloc, conflicts.len())?;
    for conflict in conflicts {
        trees.push(conflict_shown(alloc, conflict)?)?;
    }
    Ok(Tree::List(Trees::from_vec(trees)))
}

// A conflict, by its reference and its two rows.
fn conflict_shown(alloc: Global, conflict: &Conflict<'_>) -> Result<Tree, AllocError>
    ensures { IfOk result (λ t. data_of t ≡ spec.conflict_shown (seen.conflict conflict.now)) }
{
    let holder = row_shown(alloc, conflict.holder)?;
    let waiting = row_shown(alloc, conflict.waiting)?;
    let reference = conflict.waiting.reference.as_str();
    let tree = with_words(alloc, empty_map(alloc), "entityRef", reference)?;
    let tree = with_key(alloc, tree, "holder", holder)?;
    with_key(alloc, tree, "waiting", waiting)
}

// A row, by its key and its origin.
fn row_shown(alloc: Global, row: &Row) -> Result<Tree, AllocError>
    ensures { IfOk result (λ t. data_of t ≡ spec.row_shown row.now) }
{
    let origin = origin_text(alloc, &row.origin)?;
    let tree = with_words(alloc, empty_map(alloc), "key", row.offered.key.as_str())?;
    with_words(alloc, tree, "origin", origin.as_str())
}

// `provider:` and a name, or `entity:` and a reference.
fn origin_text(alloc: Global, origin: &Origin) -> Result<String, AllocError>
    ensures { IfOk result (λ s. string_bytes s ≡ spec.origin_text origin.now) }
{
    match origin {
        Origin::Provider(name) => joined(alloc, "provider:", name.as_str()),
        Origin::Entity(reference) => joined(alloc, "entity:", reference.as_str()),
    }
}

fn joined(alloc: Global, first: &str, second: &str) -> Result<String, AllocError>
    ensures { IfOk result (λ s. string_bytes s ≡ first.now ++ second.now) }
{
    let mut text = String::from_str(alloc, first)?;
    text.push_str(second)?;
    Ok(text)
}
