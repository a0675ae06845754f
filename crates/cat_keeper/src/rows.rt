//! Rows, and changes of rows.
ghost use Rattle.std.specs.Prelude.{◌≡◌, if◌then◌else◌, is_ok, IfOk};
ghost use Rattle.cat_keeper.specs.Store.{applied, changed};

use crate::table::Table;
use cat_collections::listing::Copied;
use cat_collections::map::Map;
use cat_tree::text::Text;
use std::alloc::{AllocError, Global};

/// The rows of a store: the value of each table and key, in order of the tables and, in a table, by the bytes of the keys.
pub type StoredRows = Map<(Table, Text), Text>;

/// What becomes of rows as one: a change for each table and key that changes, in the order of rows.
pub type Batch = Map<(Table, Text), Change>;

/// What becomes of a row.
#[derive(Drop)]
pub enum Change {
    /// It has this value from then on, whether it was there or not.
    Put(Text),
    /// It is gone from then on.
    Gone,
}

/// The rows after the changes of a batch. The rows that were handed in stay as they are.
pub fn apply(alloc: Global, rows: &StoredRows, batch: &Batch) -> Result<StoredRows, AllocError>
    ensures { IfOk result (λ made. made ≡ applied batch.now rows.now) }
{
    let mut made = rows.share()?;
    for entry in batch.iter() {
        change_row(alloc, &mut made, &entry.0, &entry.1)?;
    }
    Ok(made)
}

// Makes one change. Where memory is wanted, the rows are as before.
fn change_row(
    alloc: Global,
    rows: &mut StoredRows,
    key: &(Table, Text),
    change: &Change,
) -> Result<(), AllocError>
    ensures { rows.new ≡ (if is_ok result then changed key.now change.now rows.old else rows.old) }
{
    match change {
        Change::Put(value) => {
            let key = key.duplicate(alloc)?;
            let value = value.duplicate(alloc)?;
            rows.put(alloc, key, value)
        }
        Change::Gone => rows.remove(alloc, key),
    }
}
