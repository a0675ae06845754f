//! The changes at given keys.
ghost use Rattle.std.specs.Prelude.{◌≡◌, option_map, IfOk, OnOk};
ghost use Rattle.cat_keeper.specs.Store.{applied};
ghost use Rattle.cat_stored_rows.specs.Stored.{texts_of};
ghost use Rattle.cat_stored_rows.specs.Differing.{AreNeeded, AreSameBut, IsTurn, IsTurnedAt};

use crate::same::is_same_row;
use crate::stored::Stored;
use cat_collections::listing::Copied;
use cat_collections::map::Map;
use cat_keeper::rows::{Batch, Change};
use cat_keeper::table::Table;
use cat_row_format::row::StoredRow;
use cat_row_format::write::row_text;
use cat_tree::text::Text;
use std::alloc::{AllocError, Global};

// What becomes of a row that was there and is there now; nothing where it stays as it was.
fn amended(alloc: Global, was: &StoredRow, is: &StoredRow) -> Result<Option<Change>, AllocError>
    ensures { IfOk result (IsTurn (Some was.now) (Some is.now)) }
{
    if is_same_row(was, is) {
        Ok(None)
    } else {
        Ok(Some(Change::Put(row_text(alloc, is)?)))
    }
}

// What becomes of a row that was there, if it was, and is there now, if it is; nothing where it stays as it was.
fn turn(
    alloc: Global,
    was: Option<&StoredRow>,
    is: Option<&StoredRow>,
) -> Result<Option<Change>, AllocError>
    ensures { IfOk result (IsTurn (option_map (λ row. row.now) was.entry) (option_map (λ row. row.now) is.entry)) }
{
    match (was, is) {
        (None, None) => Ok(None),
        (Some(_), None) => Ok(Some(Change::Gone)),
        (Some(was), Some(is)) => amended(alloc, was, is),
        (None, Some(is)) => Ok(Some(Change::Put(row_text(alloc, is)?))),
    }
}

// Puts what becomes of the row at a key, if it changes.
fn change_at(
    alloc: Global,
    key: &(Table, Text),
    old: &Stored,
    new: &Stored,
    batch: &mut Batch,
) -> Result<(), AllocError>
    ensures { OnOk result (IsTurnedAt key.now old.now new.now batch.old batch.new) }
{
    match turn(alloc, old.get(key), new.get(key))? {
        None => Ok(()),
        Some(change) => batch.put(alloc, key.duplicate(alloc)?, change),
    }
}

/// The changes that lead from the texts of some rows to those of others, which differ at most at these keys. Only those keys are
/// looked up; rows that are equal give no change, and only rows that are new or differ are put into texts. A key may be given more than once.
/// The error is want of memory.
pub fn batch_among(
    alloc: Global,
    keys: &[(Table, Text)],
    old: &Stored,
    new: &Stored,
) -> Result<Batch, AllocError>
    requires { AreSameBut keys.now old.now new.now }
    ensures leads { IfOk result (λ b. applied b (texts_of old.now) ≡ texts_of new.now) }
    ensures needed { IfOk result (λ b. AreNeeded old.now new.now b) }
{
    old.in_order();
    new.in_order();
    let mut batch = Map::new();
    for key in keys {
        change_at(alloc, key, old, new, &mut batch)?;
    }
    batch.in_order();
    Ok(batch)
}
