//! The body of a record: the text of a batch, both ways.
ghost use Rattle.std.specs.Prelude.{◌≡◌, ◌⊎◌, ◌↔◌, ◌++◌, ◌∷◌, [], map, IfOk, IfErr, IsErrOf, OnOk, IsTrue, Ok, Err};
ghost use Rattle.cat_tree.specs.Data.{words, items_of};
ghost use Rattle.cat_tree.specs.Read.{ReadsAs};
ghost use Rattle.cat_tree.specs.Text.{text_of};
ghost use Rattle.cat_tree.specs.View.{data_of};
ghost use Rattle.cat_keeper.specs.Store.{Changes};
ghost use Rattle.cat_journal.specs.Batches.{change_data, batch_data, batch_text, IsText};
ghost use Rattle.cat_journal.specs.Parsed as parsed;

use cat_collections::map::rise;
use cat_keeper::rows::{Batch, Change};
use cat_keeper::table::Table;
use cat_tree::read::{TreeFault, read};
use cat_tree::text::Text;
use cat_tree::tree::{Tree, Trees};
use cat_tree::write::write;
use cat_types::reference::text_in;
use std::alloc::{AllocError, AllocFailed, Global};

/// Why a body gives no batch.
#[derive(Clone, Copy, Drop)]
pub enum BodyFault {
    /// It isn't the text of a batch.
    NoBatch,
    /// Memory is wanted.
    NoMemory,
}

impl From<AllocError> for BodyFault {
    ghost use Rattle.std.specs.Prelude.{◌≡◌};
    ghost use Rattle.cat_journal.specs.declared.body.BodyFault.TheVariants.{NoMemory};

    ghost from_gives = { λ _ e. e ≡ NoMemory };

    fn from(_refused: AllocError) -> BodyFault {
        BodyFault::NoMemory
    }
}

impl<T: Drop> From<AllocFailed<T>> for BodyFault {
    ghost use Rattle.std.specs.Prelude.{◌≡◌};
    ghost use Rattle.cat_journal.specs.declared.body.BodyFault.TheVariants.{NoMemory};

    ghost from_gives = { λ _ e. e ≡ NoMemory };

    fn from(_refused: AllocFailed<T>) -> BodyFault {
        BodyFault::NoMemory
    }
}

/// One change with the row that it is of.
pub type Entry = ((Table, Text), Change);

// A text as a tree.
fn words(alloc: Global, text: &str) -> Result<Tree, AllocError>
    ensures { IfOk result (λ t. data_of t ≡ words text.now) }
{
    Ok(Tree::Words(Text::of(alloc, text)?))
}

// The number of a table and a key, as trees.
fn key_trees(alloc: Global, key: &(Table, Text)) -> Result<Vec<Tree>, AllocError>
    ensures { IfOk result (λ v. map data_of v.items ≡ parsed.table_data key.now.0 ∷ words key.now.1 ∷ []) }
{
    let mut parts = Vec::with_capacity(alloc, 3)?;
    parts.push(Tree::Whole(key.0.number() as i128))?;
    parts.push(words(alloc, key.1.as_str())?)?;
    Ok(parts)
}

// The tree of one change.
fn change_tree(alloc: Global, key: &(Table, Text), change: &Change) -> Result<Tree, AllocError>
    ensures { IfOk result (λ t. data_of t ≡ change_data (key.now, change.now)) }
{
    let mut parts = key_trees(alloc, key)?;
    match change {
        Change::Put(value) => {
            parts.push(words(alloc, value.as_str())?)?;
            Ok(Tree::List(Trees::from_vec(parts)))
        }
        Change::Gone => Ok(Tree::List(Trees::from_vec(parts))),
    }
}

// The tree of a batch.
fn batch_tree(alloc: Global, batch: &Batch) -> Result<Tree, AllocError>
    ensures { IfOk result (λ t. data_of t ≡ batch_data batch.now) }
{
    let mut trees = Vec::with_capacity(alloc, batch.len())?;
    for entry in batch.iter() {
        trees.push(change_tree(alloc, &entry.0, &entry.1)?)?;
    }
    Ok(Tree::List(Trees::from_vec(trees)))
}

/// Appends the text of a batch: compact JSON (RFC 8259), a list of `[TABLE,KEY,VALUE]` for a value that is put and of
/// `[TABLE,KEY]` for a row that is gone, in the order of the rows.
pub fn push_batch(alloc: Global, batch: &Batch, out: &mut Vec<u8>) -> Result<(), AllocError>
    ensures ok { OnOk result (out.new.items ≡ out.old.items ++ batch_text batch.now) }
    ensures spelled { OnOk result (IsText batch.now (batch_text batch.now)) }
{
    batch.in_order();
    let tree = batch_tree(alloc, batch)?;
    write(alloc, &tree, out)
}

// The number of 64 bits that a tree is.
fn number_in(tree: &Tree) -> Result<u64, BodyFault>
    ensures { result ≡ parsed.number_in (data_of tree.now) }
{
    match tree {
        Tree::Whole(value) => {
            if 0 <= *value && *value <= u64::MAX as i128 {
                Ok(*value as u64)
            } else {
                Err(BodyFault::NoBatch)
            }
        }
        _ => Err(BodyFault::NoBatch),
    }
}

// The table of a number.
fn table_at(number: u64) -> Result<Table, BodyFault>
    ensures { result ≡ parsed.table_at number }
{
    match Table::at(number) {
        Some(table) => Ok(table),
        None => Err(BodyFault::NoBatch),
    }
}

// The table whose number a tree is.
fn table_in(tree: &Tree) -> Result<Table, BodyFault>
    ensures { result ≡ parsed.table_in (data_of tree.now) }
{
    match number_in(tree) {
        Ok(number) => table_at(number),
        Err(fault) => Err(fault),
    }
}

// A copy of the text that a tree is.
fn words_in(alloc: Global, tree: &Tree) -> Result<Text, BodyFault>
    ensures ok { IfOk result (λ t. parsed.words_in (data_of tree.now) ≡ Ok t) }
    ensures err { IfErr result (λ e. (parsed.words_in (data_of tree.now) ≡ Err e) ⊎ (e ≡ BodyFault.NoMemory)) }
{
    match text_in(tree) {
        Some(text) => Ok(Text::of(alloc, text)?),
        None => Err(BodyFault::NoBatch),
    }
}

// The row that a change is of.
fn key_in(alloc: Global, table: &Tree, key: &Tree) -> Result<(Table, Text), BodyFault>
    ensures ok { IfOk result (λ k. parsed.key_in (data_of table.now) (data_of key.now) ≡ Ok k) }
    ensures err { IfErr result (λ e. (parsed.key_in (data_of table.now) (data_of key.now) ≡ Err e) ⊎ (e ≡ BodyFault.NoMemory)) }
{
    let table = table_in(table)?;
    let key = words_in(alloc, key)?;
    Ok((table, key))
}

fn gone_in(alloc: Global, table: &Tree, key: &Tree) -> Result<Entry, BodyFault>
    ensures ok { IfOk result (λ c. parsed.gone_in (data_of table.now) (data_of key.now) ≡ Ok c) }
    ensures err { IfErr result (λ e. (parsed.gone_in (data_of table.now) (data_of key.now) ≡ Err e) ⊎ (e ≡ BodyFault.NoMemory)) }
{
    let key = key_in(alloc, table, key)?;
    Ok((key, Change::Gone))
}

fn put_in(alloc: Global, table: &Tree, key: &Tree, value: &Tree) -> Result<Entry, BodyFault>
    ensures ok { IfOk result (λ c. parsed.put_in (data_of table.now) (data_of key.now) (data_of value.now) ≡ Ok c) }
    ensures err { IfErr result (λ e. (parsed.put_in (data_of table.now) (data_of key.now) (data_of value.now) ≡ Err e) ⊎ (e ≡ BodyFault.NoMemory)) }
{
    let key = key_in(alloc, table, key)?;
    let value = words_in(alloc, value)?;
    Ok((key, Change::Put(value)))
}

// The change of two or three trees.
fn change_of(alloc: Global, trees: &[Tree]) -> Result<Entry, BodyFault>
    ensures ok { IfOk result (λ c. parsed.change_of (items_of (map data_of trees.now)) ≡ Ok c) }
    ensures err { IfErr result (λ e. (parsed.change_of (items_of (map data_of trees.now)) ≡ Err e) ⊎ (e ≡ BodyFault.NoMemory)) }
{
    if trees.len() == 2 {
        return gone_in(alloc, &trees[0], &trees[1]);
    }
    if trees.len() == 3 {
        return put_in(alloc, &trees[0], &trees[1], &trees[2]);
    }
    Err(BodyFault::NoBatch)
}

fn change_in(alloc: Global, tree: &Tree) -> Result<Entry, BodyFault>
    ensures ok { IfOk result (λ c. parsed.change_in (data_of tree.now) ≡ Ok c) }
    ensures err { IfErr result (λ e. (parsed.change_in (data_of tree.now) ≡ Err e) ⊎ (e ≡ BodyFault.NoMemory)) }
{
    match tree {
        Tree::List(trees) => change_of(alloc, trees.as_slice()),
        _ => Err(BodyFault::NoBatch),
    }
}

// The changes of a list.
fn changes_of(alloc: Global, trees: &[Tree]) -> Result<Vec<Entry>, BodyFault>
    ensures ok { IfOk result (λ cs. parsed.changes_of (items_of (map data_of trees.now)) ≡ Ok cs.items) }
    ensures err { IfErr result (λ e. (parsed.changes_of (items_of (map data_of trees.now)) ≡ Err e) ⊎ (e ≡ BodyFault.NoMemory)) }
{
    let mut changes = Vec::with_capacity(alloc, trees.len())?;
    for tree in trees {
        changes.push(change_in(alloc, tree)?)?;
    }
    Ok(changes)
}

fn changes_in(alloc: Global, tree: &Tree) -> Result<Vec<Entry>, BodyFault>
    ensures ok { IfOk result (λ cs. parsed.changes_in (data_of tree.now) ≡ Ok cs.items) }
    ensures err { IfErr result (λ e. (parsed.changes_in (data_of tree.now) ≡ Err e) ⊎ (e ≡ BodyFault.NoMemory)) }
{
    match tree {
        Tree::List(trees) => changes_of(alloc, trees.as_slice()),
        _ => Err(BodyFault::NoBatch),
    }
}

// The tree of a body.
fn body_tree(alloc: Global, body: &[u8]) -> Result<Tree, BodyFault>
    ensures ok { IfOk result (λ t. ReadsAs body.now (data_of t)) }
    ensures none { IsErrOf result BodyFault.NoBatch → (cs : Changes) → ReadsAs body.now (batch_data cs) → ⊥ }
{
    match read(alloc, body) {
        Ok(tree) => Ok(tree),
        Err(TreeFault::NoMemory) => Err(BodyFault::NoMemory),
        Err(_) => Err(BodyFault::NoBatch),
    }
}

// Whether this is the tree's compact text.
fn has_text(alloc: Global, tree: &Tree, body: &[u8]) -> Result<bool, AllocError>
    ensures { IfOk result (λ b. IsTrue b ↔ (text_of (data_of tree.now) ≡ body.now)) }
{
    let mut out = Vec::with_capacity(alloc, body.len())?;
    write(alloc, tree, &mut out)?;
    Ok(out.as_slice() == body)
}

/// The changes of the batch that has this text, in the order of the rows. `NoBatch` comes exactly where no batch has it.
pub fn changes(alloc: Global, body: &[u8]) -> Result<Vec<Entry>, BodyFault>
    ensures ok { IfOk result (λ cs. IsText cs.items body.now) }
    ensures none { IsErrOf result BodyFault.NoBatch → (cs : Changes) → IsText cs body.now → ⊥ }
{
    let tree = body_tree(alloc, body)?;
    let changes = changes_in(alloc, &tree)?;
    if has_text(alloc, &tree, body)? && rise(changes.as_slice()) {
        Ok(changes)
    } else {
        Err(BodyFault::NoBatch)
    }
}
