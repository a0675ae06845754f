//! What keeps rows.
ghost use Rattle.std.specs.Prelude.{◌≡◌, ℕ, ◌≤◌};
ghost use Rattle.std.specs.declared.option.Option.{Option};
ghost use Rattle.cat_io.specs.Causes.{Rose};
ghost use Rattle.cat_keeper.specs.Answers.{Loads, Commits};
ghost use Rattle.cat_keeper.specs.Store.{Rows};

use crate::rows::{Batch, StoredRows};
use cat_tree::text::Text;
use std::alloc::Global;

/// Where a store is to be found.
#[derive(Drop)]
pub enum Place {
    /// Nowhere: nothing outlives the program.
    Nowhere,
    /// The database in the file of this name.
    File(Text),
    /// The journal in the file of this name.
    Journal(Text),
}

/// What a load gives.
#[derive(Drop)]
pub enum Loaded {
    /// The rows that are kept.
    Rows(StoredRows),
    /// The keeper failed: it counted a fault.
    Failed,
    /// Memory is wanted.
    NoMemory,
}

/// What a commit did.
#[derive(Clone, Copy, Debug, Drop, PartialEq, Eq)]
pub enum Committed {
    /// All changes of the batch were made.
    Kept,
    /// The keeper failed: it counted a fault, and made no change.
    Failed,
    /// Memory is wanted. No change was made.
    NoMemory,
}

/// A keeper of rows, seen by the rows that it keeps for a place, where it tells them, and by its count of faults.
pub trait Keeper {
    ghost use Rattle.cat_keeper.specs.declared.keeper.Place.{Place};

    ghost tables: { Place → Self → Option Rows };

    ghost faults: { Self → ℕ };

    /// Gives the rows that are kept for a place, from which the keeper works from then on. They stay as they are.
    ///
    /// The count of faults never falls, and `Failed` comes only where it rose in this call, or stands at the last value of a
    /// u64.
    fn load(&mut self, alloc: Global, place: &Place) -> Loaded
        ensures tables { Loads (tables place.now self.old) (tables place.now self.new) result }
        ensures later { faults self.old ≤ faults self.new }
        ensures cause { result ≡ Loaded.Failed → Rose (faults self.old) (faults self.new) };

    /// Makes all changes of a batch to the rows, or none of them: where `Failed` or `NoMemory` is answered, the rows are as
    /// before.
    ///
    /// The count of faults never falls, and `Failed` comes only where it rose in this call, or stands at the last value of a
    /// u64.
    fn commit(&mut self, alloc: Global, batch: &Batch) -> Committed
        ensures tables { (place : Place) → Commits (tables place self.old) (tables place self.new) result batch.now }
        ensures later { faults self.old ≤ faults self.new }
        ensures cause { result ≡ Committed.Failed → Rose (faults self.old) (faults self.new) };
}
