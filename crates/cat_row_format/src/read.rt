//! From texts to a row.
ghost use Rattle.std.specs.Prelude.{◌≡◌, ◌↔◌, ◌≤◌, ◌&&◌, IfOk, OnOk, IsErrOf, IsTrue};
ghost use Rattle.std.specs.List.{list_all};
ghost use Rattle.cat_tree.specs.Ask.{depth_of};
ghost use Rattle.cat_tree.specs.Data.{Data};
ghost use Rattle.cat_tree.specs.Proper.{IsNarrow};
ghost use Rattle.cat_tree.specs.Read.{ReadsAs};
ghost use Rattle.cat_tree.specs.Text.{text_of};
ghost use Rattle.cat_tree.specs.View.{data_of};
ghost use Rattle.cat_row_format.specs.Formed as formed;
ghost use Rattle.cat_row_format.specs.Spelled.{IsNamed, IsSpelling};
ghost use Rattle.cat_row_format.specs.Text as text;
ghost use Rattle.cat_row_format.specs.declared.row.StoredRow.{StoredRow};

use crate::parse::row_in;
use crate::row::{RowFault, StoredOffer, StoredOutput, StoredRow};
use crate::tree::row_tree;
use crate::write::{row_key, row_table};
use cat_keeper::table::Table;
use cat_tree::ask::{depth, same};
use cat_tree::read::{TreeFault, read};
use cat_tree::tree::Tree;
use cat_tree::write::write;
use cat_types::names::{is_name, is_shelf_name};
use std::alloc::{AllocError, Global};

const MOST_DEPTH: u64 = 127;

// The tree of a value.
fn value_tree(alloc: Global, value: &str) -> Result<Tree, RowFault>
    ensures ok { IfOk result (λ t. ReadsAs value.now (data_of t)) }
    ensures narrow { IfOk result (λ t. IsNarrow (data_of t)) }
    ensures depth { IfOk result (λ t. depth_of (data_of t) ≤ 127) }
    ensures bad { IsErrOf result RowFault.BadRow → (d : Data) → ReadsAs value.now d → depth_of d ≤ 127 → ⊥ }
{
    match read(alloc, value.as_bytes()) {
        Ok(tree) => {
            if depth(&tree) <= MOST_DEPTH {
                Ok(tree)
            } else {
                Err(RowFault::BadRow)
            }
        }
        Err(TreeFault::NoMemory) => Err(RowFault::NoMemory),
        Err(_) => Err(RowFault::BadRow),
    }
}

fn are_bare(output: &Option<StoredOutput>) -> bool
    ensures { result ≡ formed.are_bare output.now }
{
    match output {
        Some(output) => lack_trees(output.offers.as_slice()),
        None => true,
    }
}

fn lack_trees(offers: &[StoredOffer]) -> bool
    ensures { result ≡ list_all formed.lacks_tree offers.now }
{
    offers.iter().all(|offer| offer.tree.is_none())
}

fn have_trees(offers: &[StoredOffer]) -> bool
    ensures { result ≡ formed.is_any offers.now && list_all formed.has_tree offers.now }
{
    !offers.is_empty() && all_have_trees(offers)
}

fn all_have_trees(offers: &[StoredOffer]) -> bool
    ensures { result ≡ list_all formed.has_tree offers.now }
{
    offers.iter().all(|offer| offer.tree.is_some())
}

/// Whether the names of a row have their forms, and its offers have their trees where its version has them.
pub fn is_formed(row: &StoredRow) -> bool
    ensures { result ≡ formed.is_formed row.now }
{
    match row {
        StoredRow::Counter(..) | StoredRow::Orphan { .. } | StoredRow::Settings(_) => true,
        StoredRow::Provider { name, .. } => is_name(name.as_str()),
        StoredRow::Item { provider, .. } | StoredRow::ItemOne { provider, .. } => {
            is_name(provider.as_str())
        }
        StoredRow::Shelf { name, .. } => is_shelf_name(name.as_str()),
        StoredRow::Record { output, .. } => are_bare(output),
        StoredRow::Tree { arrival, .. } => *arrival <= u64::MAX,
        StoredRow::RecordOne { output, .. } => have_trees(output.offers.as_slice()),
    }
}

// Whether this is the row's key.
fn has_key(alloc: Global, row: &StoredRow, key: &str) -> Result<bool, AllocError>
    ensures { IfOk result (λ b. IsTrue b ↔ (key.now ≡ text.row_key row.now)) }
{
    let own = row_key(alloc, row)?;
    Ok(own.as_str() == key)
}

// Whether this is the row's tree.
fn has_tree(alloc: Global, row: &StoredRow, tree: &Tree) -> Result<bool, AllocError>
    ensures ok { IfOk result (λ b. IsTrue b ↔ (data_of tree.now ≡ text.row_data row.now)) }
    ensures named { OnOk result (IsNamed row.now) }
{
    let own = row_tree(alloc, row)?;
    Ok(same(tree, &own))
}

// Whether this is the tree's compact text.
fn has_text(alloc: Global, tree: &Tree, value: &str) -> Result<bool, AllocError>
    ensures { IfOk result (λ b. IsTrue b ↔ (value.now ≡ text_of (data_of tree.now))) }
{
    let mut out = Vec::new(alloc);
    write(alloc, tree, &mut out)?;
    Ok(out.as_slice() == value.as_bytes())
}

// Whether these are the row's texts, the tree being that of the value.
fn has_texts(
    alloc: Global,
    row: &StoredRow,
    table: Table,
    key: &str,
    tree: &Tree,
    value: &str,
) -> Result<bool, AllocError>
    ensures ok { IfOk result (λ b. IsTrue b ↔ ((table ≡ text.row_table row.now) × (key.now ≡ text.row_key row.now)
        × (data_of tree.now ≡ text.row_data row.now) × (value.now ≡ text_of (data_of tree.now)))) }
    ensures named { OnOk result (IsNamed row.now) }
{
    let has_key = has_key(alloc, row, key)?;
    let has_tree = has_tree(alloc, row, tree)?;
    let has_text = has_text(alloc, tree, value)?;
    Ok(row_table(row) == table && has_key && has_tree && has_text)
}

/// The row that is spelled by these texts: no other row is. `BadRow` comes exactly where they are not the spelling of a row.
pub fn read_row(alloc: Global, table: Table, key: &str, value: &str) -> Result<StoredRow, RowFault>
    ensures ok { IfOk result (λ row. IsSpelling row table key.now value.now) }
    ensures alone { IfOk result (λ row. (other : StoredRow) → IsSpelling other table key.now value.now → other ≡ row) }
    ensures bad { IsErrOf result RowFault.BadRow → (row : StoredRow) → ¬ IsSpelling row table key.now value.now }
{
    let tree = value_tree(alloc, value)?;
    let row = row_in(alloc, table, key, &tree)?;
    if has_texts(alloc, &row, table, key, &tree, value)? && is_formed(&row) {
        Ok(row)
    } else {
        Err(RowFault::BadRow)
    }
}
