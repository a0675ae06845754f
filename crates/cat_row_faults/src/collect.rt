//! What rows tell, row by row.
ghost use Rattle.std.specs.Prelude.{◌≡◌, ◌++◌, flat_map, IfOk};
ghost use Rattle.cat_row_faults.specs.Readings.{read_rows};

use cat_row_format::row::StoredRow;
use std::alloc::{AllocError, Global};

/// What a row tells of one kind.
pub trait Tells<X> {
    ghost use Rattle.std.specs.Prelude.{◌≡◌, ◌++◌, List, OnOk};
    ghost use Rattle.cat_row_format.specs.declared.row.StoredRow.{StoredRow};

    /// What it tells.
    ghost tells: { StoredRow → List X };

    /// Puts what the row tells behind what is there.
    fn tell(&self, alloc: Global, row: &StoredRow, out: &mut Vec<X>) -> Result<(), AllocError>
        ensures { OnOk result (out.new.items ≡ out.old.items ++ tells row.now) };
}

/// What all rows that have a reading tell, in their order.
pub fn collected<X: Drop, T: Tells<X>>(
    alloc: Global,
    readings: &[Option<StoredRow>],
    teller: &T,
) -> Result<Vec<X>, AllocError>
    ensures { IfOk result (λ xs. xs.items ≡ flat_map T.tells (read_rows readings.now)) }
{
    let mut made = Vec::new(alloc);
    for reading in readings {
        if let Some(row) = reading {
            teller.tell(alloc, row, &mut made)?;
        }
    }
    Ok(made)
}
