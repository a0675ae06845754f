//! From the rows of the state before an event to those of the state after it.
ghost use Rattle.std.specs.Prelude.{◌≡◌, IfOk, OnOk};
ghost use Rattle.cat_stored_rows.specs.Stored.{stored};
ghost use Rattle.cat_row_updates.specs.Places as spec;
ghost use Rattle.cat_row_updates.specs.Renewed.{AreSameBut, IsBeyond, IsKept};

use crate::order::in_order;
use crate::places::{Placed, places};
use crate::reached::{Reached, Renewed};
use crate::row::row_of;
use cat_collections::listing::Copied;
use cat_keeper::table::Table;
use cat_model::types::{OrphanRule, State};
use cat_row_format::row::StoredRow;
use cat_stored_rows::stored::Stored;
use cat_tree::text::Text;
use std::alloc::{AllocError, Global};

// Puts a row under a key, or removes what stands under it.
fn set_row(
    alloc: Global,
    rows: &mut Stored,
    key: &(Table, Text),
    row: Option<StoredRow>,
) -> Result<(), AllocError>
    ensures { OnOk result (rows.new ≡ spec.set_row key.now row rows.old) }
{
    match row {
        None => rows.remove(alloc, key),
        Some(row) => rows.put(alloc, key.duplicate(alloc)?, row),
    }
}

// Rows, with those of these places as a state has them.
fn rows_with(
    alloc: Global,
    rule: OrphanRule,
    m: &State,
    places: &Placed,
    rows: &Stored,
) -> Result<Stored, AllocError>
    ensures { IfOk result (λ made. made ≡ spec.renewed rule m.now places.now rows.now) }
{
    let mut made = rows.share()?;
    for (key, place) in places.iter() {
        let row = row_of(alloc, rule, m, place)?;
        set_row(alloc, &mut made, key, row)?;
    }
    Ok(made)
}

/// The rows of the state after an event, from those of the state before it, and the keys at which they may differ. Only what was
/// reached is looked at: all that stays is shared with the rows before. The rows before stay as they are. The error is want of
/// memory.
pub fn renewed_rows(
    alloc: Global,
    rows: &Stored,
    rule: OrphanRule,
    reached: &Reached,
    before: &State,
    after: &State,
) -> Result<Renewed, AllocError>
    requires rows { rows.now ≡ stored rule before.now }
    requires beyond { IsBeyond reached.now before.now after.now }
    requires kept { IsKept before.now × IsKept after.now }
    ensures rows { IfOk result (λ x. x.rows ≡ stored rule after.now) }
    ensures keys { IfOk result (λ x. AreSameBut x.keys.items rows.now x.rows) }
{
    in_order(before);
    in_order(after);
    let places = places(alloc, reached, before, after)?;
    let made = rows_with(alloc, rule, after, &places, rows)?;
    let keys = places.keys(alloc)?.into_vec();
    Ok(Renewed { rows: made, keys })
}
