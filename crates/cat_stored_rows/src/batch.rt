//! The changes that lead from rows to other rows.
ghost use Rattle.std.specs.Prelude.{◌≡◌, IfOk};
ghost use Rattle.cat_keeper.specs.Store.{applied};
ghost use Rattle.cat_stored_rows.specs.Differing.{AreNeeded};
ghost use Rattle.cat_stored_rows.specs.Stored.{texts_of};

use crate::stored::Stored;
use crate::texts::texts;
use crate::walk::changes;
use cat_keeper::rows::{Batch, StoredRows};
use std::alloc::{AllocError, Global};

/// The changes that lead from the texts of some rows to those of others. Rows that are equal give no change, and only rows that
/// are new or differ are put into texts. The error is want of memory.
pub fn batch_between(alloc: Global, old: &Stored, new: &Stored) -> Result<Batch, AllocError>
    ensures leads { IfOk result (λ b. applied b (texts_of old.now) ≡ texts_of new.now) }
    ensures needed { IfOk result (λ b. AreNeeded old.now new.now b) }
{
    changes(alloc, old, new)
}

/// The changes that lead from texts to those of rows. Texts that are equal give no change. The error is want of memory.
pub fn batch_to(alloc: Global, old: &StoredRows, new: &Stored) -> Result<Batch, AllocError>
    ensures leads { IfOk result (λ b. applied b old.now ≡ texts_of new.now) }
    ensures needed { IfOk result (λ b. AreNeeded old.now (texts_of new.now) b) }
{
    let told = texts(alloc, new)?;
    changes(alloc, old, &told)
}
