//! Rows that follow a catalogue's state.
ghost use Rattle.std.specs.Prelude.{◌≡◌, ◌≢◌, ◌≤◌, []};
ghost use Rattle.cat_io.specs.Causes.{Rose};
ghost use Rattle.cat_keeper.specs.Answers.{Are, Commits};
ghost use Rattle.cat_keeper.specs.Store.{applied};
ghost use Rattle.cat_keeper.specs.declared.keeper.Committed.TheVariants.{Kept};
ghost use Rattle.cat_keeper.specs.declared.keeper.Place.{Place};
ghost use Rattle.cat_stored_rows.specs.Differing.{AreNeeded};
ghost use Rattle.cat_stored_rows.specs.Stored.{stored, texts_of};

use cat_keeper::keeper::{Committed, Keeper, Place};
use cat_keeper::rows::Batch;
use cat_model::types::{OrphanRule, State};
use cat_stored_rows::batch::batch_between;
use cat_stored_rows::stored::{Stored, stored_rows};
use std::alloc::Global;

/// A keeper for a place, and the rows that it has there: those of a state under a rule for orphans.
#[derive(Drop)]
pub struct Store<K: Keeper> {
    pub keeper: K,
    pub place: Place,
    pub orphans: OrphanRule,
    pub rows: Stored,
}

/// Has a keeper make the changes of a batch. Where there are none, nothing is asked of it.
pub(crate) fn commit<K: Keeper>(alloc: Global, keeper: &mut K, batch: &Batch) -> Committed
    ensures tables { (place : Place) → Commits (K.tables place keeper.old) (K.tables place keeper.new) result batch.now }
    ensures later { K.faults keeper.old ≤ K.faults keeper.new }
    ensures cause { result ≡ Committed.Failed → Rose (K.faults keeper.old) (K.faults keeper.new) }
    ensures none { batch.now ≡ [] → (result ≡ Kept) × (keeper.new ≡ keeper.old) }
{
    if batch.is_empty() {
        Committed::Kept
    } else {
        keeper.commit(alloc, batch)
    }
}

impl<K: Keeper> Store<K> {
    // Has the keeper make the changes of a batch, which lead from the rows to these, and takes these in where they are kept.
    pub(crate) fn take_in(&mut self, alloc: Global, rows: Stored, batch: &Batch) -> Committed
        requires leads { applied batch.now (texts_of self.old.rows) ≡ texts_of rows }
        requires needed { AreNeeded self.old.rows rows batch.now }
        ensures rows { result ≡ Kept → self.new.rows ≡ rows }
        ensures same { result ≢ Kept → self.new.rows ≡ self.old.rows }
        ensures told { Are (K.tables self.old.place self.old.keeper) (texts_of self.old.rows) → Are (K.tables self.new.place self.new.keeper) (texts_of self.new.rows) }
        ensures place { self.new.place ≡ self.old.place }
        ensures orphans { self.new.orphans ≡ self.old.orphans }
        ensures later { K.faults self.old.keeper ≤ K.faults self.new.keeper }
        ensures cause { result ≡ Committed.Failed → Rose (K.faults self.old.keeper) (K.faults self.new.keeper) }
        ensures still { rows ≡ self.old.rows → (result ≡ Kept) × (self.new.keeper ≡ self.old.keeper) }
    {
        match commit(alloc, &mut self.keeper, batch) {
            Committed::Kept => {
                self.rows = rows;
                Committed::Kept
            }
            Committed::Failed => Committed::Failed,
            Committed::NoMemory => Committed::NoMemory,
        }
    }

    /// Has the keeper make all changes that lead to the rows of a state, as one batch. Where no row changes, nothing is asked of it. After
    /// `Failed` and `NoMemory` the rows are as before. `Failed` comes only where the keeper's count of faults rose in this call.
    pub fn follow(&mut self, alloc: Global, state: &State) -> Committed
        ensures rows { result ≡ Kept → self.new.rows ≡ stored self.old.orphans state.now }
        ensures same { result ≢ Kept → self.new.rows ≡ self.old.rows }
        ensures told { Are (K.tables self.old.place self.old.keeper) (texts_of self.old.rows) → Are (K.tables self.new.place self.new.keeper) (texts_of self.new.rows) }
        ensures place { self.new.place ≡ self.old.place }
        ensures orphans { self.new.orphans ≡ self.old.orphans }
        ensures later { K.faults self.old.keeper ≤ K.faults self.new.keeper }
        ensures cause { result ≡ Committed.Failed → Rose (K.faults self.old.keeper) (K.faults self.new.keeper) }
        ensures still { stored self.old.orphans state.now ≡ self.old.rows → (result ≢ Committed.Failed) × (self.new.keeper ≡ self.old.keeper) }
    {
        let Ok(rows) = stored_rows(alloc, self.orphans, state) else {
            return Committed::NoMemory;
        };
        let Ok(batch) = batch_between(alloc, &self.rows, &rows) else {
            return Committed::NoMemory;
        };
        self.take_in(alloc, rows, &batch)
    }
}
