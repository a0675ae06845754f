//! From a row to its texts.
ghost use Rattle.std.specs.Prelude.{◌≡◌, ◌<◌, ◌≤◌, IfOk};
ghost use Rattle.cat_stitch.specs.Uid.{digit_at, last_digits};
ghost use Rattle.cat_tree.specs.Ask.{depth_of};
ghost use Rattle.cat_tree.specs.Proper.{IsNarrow};
ghost use Rattle.cat_tree.specs.Read.{ReadsAs};
ghost use Rattle.cat_tree.specs.Text.{text_of};
ghost use Rattle.cat_tree.specs.View.{data_of};
ghost use Rattle.cat_row_format.specs.Formed.{IsStorable};
ghost use Rattle.cat_row_format.specs.Spelled.{IsSpelling};
ghost use Rattle.cat_row_format.specs.Text as text;
ghost use Rattle.cat_row_format.specs.declared.row.StoredRow.{StoredRow};

use crate::names::counter_text;
use crate::row::StoredRow;
use crate::tree::row_tree;
use cat_keeper::table::Table;
use cat_tree::text::Text;
use cat_tree::tree::Tree;
use cat_tree::write::write;
use std::alloc::{AllocError, Global};

/// A row's texts: its table, its key and its value.
#[derive(Drop)]
pub struct RowText {
    pub table: Table,
    pub key: Text,
    pub value: Text,
}

/// The table of a row.
pub fn row_table(row: &StoredRow) -> Table
    ensures { result ≡ text.row_table row.now }
{
    match row {
        StoredRow::Counter(..) => Table::Counters,
        StoredRow::Provider { .. } => Table::Providers,
        StoredRow::Item { .. } | StoredRow::ItemOne { .. } => Table::Items,
        StoredRow::Shelf { .. } => Table::Shelf,
        StoredRow::Record { .. } | StoredRow::RecordOne { .. } => Table::Records,
        StoredRow::Orphan { .. } => Table::Orphans,
        StoredRow::Settings(_) => Table::Settings,
        StoredRow::Tree { .. } => Table::Trees,
    }
}

// The key of an item: its provider, a space, and its reference.
fn item_key(alloc: Global, provider: &str, reference: &str) -> Result<Text, AllocError>
    ensures { IfOk result (λ t. t ≡ text.item_key provider.now reference.now) }
{
    let mut key = String::from_str(alloc, provider)?;
    key.push_str(" ")?;
    key.push_str(reference)?;
    Ok(Text::from_string(key))
}

// The hexadecimal digit at a place, counted from the last one.
fn digit(number: u64, place: u32) -> char
    requires { place < 16 }
    ensures value { result ≡ digit_at place number }
    ensures ascii { result < 128 }
{
    let value = ((number >> (4 * place)) % 16) as u8;
    if value < 10 {
        (b'0' + value) as char
    } else {
        (b'a' + (value - 10)) as char
    }
}

// The sixteen hexadecimal digits of a number.
fn hex_text(alloc: Global, number: u64) -> Result<Text, AllocError>
    ensures { IfOk result (λ t. t ≡ last_digits 16 number) }
{
    let mut text = String::new(alloc);
    let mut place: u32 = 16;
    while place > 0 {
        place -= 1;
        text.push(digit(number, place))?;
    }
    Ok(Text::from_string(text))
}

/// The key of a row. The error is want of memory.
pub fn row_key(alloc: Global, row: &StoredRow) -> Result<Text, AllocError>
    ensures { IfOk result (λ t. t ≡ text.row_key row.now) }
{
    match row {
        StoredRow::Counter(counter, _) => Text::of(alloc, counter_text(*counter)),
        StoredRow::Provider { name, .. } | StoredRow::Shelf { name, .. } => {
            Text::of(alloc, name.as_str())
        }
        StoredRow::Item {
            provider,
            reference,
            ..
        }
        | StoredRow::ItemOne {
            provider,
            reference,
            ..
        } => item_key(alloc, provider.as_str(), reference.as_str()),
        StoredRow::Record { reference, .. }
        | StoredRow::RecordOne { reference, .. }
        | StoredRow::Orphan { reference, .. } => Text::of(alloc, reference.as_str()),
        StoredRow::Settings(_) => Text::of(alloc, "store"),
        StoredRow::Tree { arrival, .. } => hex_text(alloc, *arrival),
    }
}

// The compact text of a tree that reads back.
fn tree_text(alloc: Global, tree: &Tree) -> Result<Text, AllocError>
    requires narrow { IsNarrow (data_of tree.now) }
    requires depth { depth_of (data_of tree.now) ≤ 127 }
    ensures text { IfOk result (λ t. t ≡ text_of (data_of tree.now)) }
    ensures reads { IfOk result (λ t. ReadsAs t (data_of tree.now)) }
{
    let mut out = Vec::new(alloc);
    write(alloc, tree, &mut out)?;
    match String::from_utf8(out) {
        Ok(text) => Ok(Text::from_string(text)),
        Err(_) => unreachable!(),
    }
}

/// The compact text of the tree that is the value of a row, whether the row can be stored or not. The error is want of memory.
pub fn row_text(alloc: Global, row: &StoredRow) -> Result<Text, AllocError>
    ensures { IfOk result (λ t. t ≡ text_of (text.row_data row.now)) }
{
    let tree = row_tree(alloc, row)?;
    let mut out = Vec::new(alloc);
    write(alloc, &tree, &mut out)?;
    match String::from_utf8(out) {
        Ok(text) => Ok(Text::from_string(text)),
        // Trees are made of texts that are UTF-8, so their texts are: this arm isn't reached.
        Err(_) => Err(AllocError),
    }
}

/// The texts of a row that can be stored. No other row has them. The error is want of memory.
pub fn write_row(alloc: Global, row: &StoredRow) -> Result<RowText, AllocError>
    requires { IsStorable row.now }
    ensures spelled { IfOk result (λ t. IsSpelling row.now t.table t.key t.value) }
    ensures alone { IfOk result (λ t. (other : StoredRow) → IsSpelling other t.table t.key t.value → other ≡ row.now) }
{
    let tree = row_tree(alloc, row)?;
    let value = tree_text(alloc, &tree)?;
    let key = row_key(alloc, row)?;
    Ok(RowText {
        table: row_table(row),
        key,
        value,
    })
}
