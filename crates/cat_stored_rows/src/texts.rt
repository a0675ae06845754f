//! From rows to their texts.
ghost use Rattle.std.specs.Prelude.{◌≡◌, IfOk};
ghost use Rattle.cat_stored_rows.specs.Stored.{texts_of};

use crate::stored::Stored;
use cat_collections::listing::Copied;
use cat_collections::map::Map;
use cat_keeper::rows::StoredRows;
use cat_row_format::write::row_text;
use std::alloc::{AllocError, Global};

/// The texts of rows, as a keeper holds them. The error is want of memory.
pub fn texts(alloc: Global, rows: &Stored) -> Result<StoredRows, AllocError>
    ensures { IfOk result (λ t. t ≡ texts_of rows.now) }
{
    rows.in_order();
    let _most = rows.len();
    let mut entries = Vec::new(alloc);
    for entry in rows.iter() {
        entries.push((entry.0.duplicate(alloc)?, row_text(alloc, &entry.1)?))?;
    }
    Map::from_vec(alloc, entries)
}
