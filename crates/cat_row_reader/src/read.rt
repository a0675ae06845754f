//! From the texts of a store to its rows.
ghost use Rattle.std.specs.Prelude.{IfOk, MatchOption};
ghost use Rattle.cat_row_reader.specs.Read.{AreNoTexts, AreRead};

use cat_keeper::rows::StoredRows;
use cat_row_format::read::read_row;
use cat_row_format::row::{RowFault, StoredRow};
use std::alloc::{AllocError, Global};

/// The rows that the texts of a store spell, in their order; none where some texts spell no row.
pub fn read_rows(alloc: Global, texts: &StoredRows) -> Result<Option<Vec<StoredRow>>, AllocError>
    ensures { IfOk result (λ o. MatchOption o (AreNoTexts texts.now) (λ rows. AreRead texts.now rows.items)) }
{
    let mut rows = Vec::new(alloc);
    for entry in texts.iter() {
        match read_row(alloc, entry.0.0, entry.0.1.as_str(), entry.1.as_str()) {
            Ok(row) => rows.push(row)?,
            Err(RowFault::BadRow) => return Ok(None),
            Err(RowFault::NoMemory) => return Err(AllocError),
        }
    }
    Ok(Some(rows))
}
