//! The texts of a store, each read for itself.
ghost use Rattle.std.specs.Prelude.{IfOk};
ghost use Rattle.cat_row_faults.specs.Readings.{AreReadings, IsReading};

use cat_keeper::rows::StoredRows;
use cat_keeper::table::Table;
use cat_row_format::read::read_row;
use cat_row_format::row::{RowFault, StoredRow};
use cat_tree::text::Text;
use std::alloc::{AllocError, Global};

// The row that these texts spell; none where they spell no row.
fn reading(alloc: Global, texts: &((Table, Text), Text)) -> Result<Option<StoredRow>, AllocError>
    ensures { IfOk result (λ o. IsReading texts.now o) }
{
    match read_row(alloc, texts.0.0, texts.0.1.as_str(), texts.1.as_str()) {
        Ok(row) => Ok(Some(row)),
        Err(RowFault::BadRow) => Ok(None),
        Err(RowFault::NoMemory) => Err(AllocError),
    }
}

/// What each text of a store is read to.
pub fn readings(alloc: Global, texts: &StoredRows) -> Result<Vec<Option<StoredRow>>, AllocError>
    ensures { IfOk result (λ rs. AreReadings texts.now rs.items) }
{
    let mut readings = Vec::new(alloc);
    for entry in texts.iter() {
        readings.push(reading(alloc, entry)?)?;
    }
    Ok(readings)
}
