//! A keeper in memory.
ghost use Rattle.std.specs.Prelude.{◌≡◌, ◌≢◌, ◌≤◌, [], Some};
ghost use Rattle.cat_io.specs.Calls.{CountsCall};
ghost use Rattle.cat_io.specs.Causes.{Rose};
ghost use Rattle.cat_keeper.specs.Answers.{Loads, Commits, CountsLoad, CountsCommit};
ghost use Rattle.cat_keeper.specs.Memory.{LoadsAsTold, CommitsAsTold};

use crate::keeper::{Committed, Keeper, Loaded, Place};
use crate::rows::{Batch, StoredRows, apply};
use cat_io::FailingCalls;
use std::alloc::Global;
use std::marker::Model;

/// A keeper that has its rows in memory, and makes no use of the place. It fails the calls of a list, and no other.
#[derive(Drop)]
pub struct MemoryKeeper {
    rows: StoredRows,
    calls: FailingCalls,
}

impl Model for MemoryKeeper {
    ghost use Rattle.cat_keeper.specs.Memory.{KeeperState};

    ghost Value = { KeeperState };

    ghost view = { λ k. record { rows = k.rows; calls = k.calls } };
}

impl MemoryKeeper {
    /// A keeper with these rows that fails the calls whose numbers, from 1 on, are in `failing`. It takes no memory.
    pub fn new(rows: StoredRows, failing: Vec<u64>) -> MemoryKeeper
        ensures { result ≡ record { rows = rows; calls = record { failing = failing.items; calls = 0; faults = 0 } } }
    {
        MemoryKeeper {
            rows,
            calls: FailingCalls::new(failing),
        }
    }
}

impl Keeper for MemoryKeeper {
    ghost tables = { λ place k. Some k.rows };

    ghost faults = { λ k. k.calls.faults };

    fn load(&mut self, _alloc: Global, _place: &Place) -> Loaded
        ensures tables { Loads (Some self.old.rows) (Some self.new.rows) result }
        ensures later { self.old.calls.faults ≤ self.new.calls.faults }
        ensures cause { result ≡ Loaded.Failed → Rose self.old.calls.faults self.new.calls.faults }
        // Just the calls of the list fail, and the others give the rows, or lack memory.
        ensures exact { LoadsAsTold self.old self.new result }
        ensures never { self.old.calls.failing ≡ [] → result ≢ Loaded.Failed }
        ensures counts { CountsLoad result self.old.calls.faults self.new.calls.faults }
        ensures calls { CountsCall self.old.calls self.new.calls }
    {
        if self.calls.next_fails() {
            return Loaded::Failed;
        }
        match self.rows.share() {
            Ok(rows) => Loaded::Rows(rows),
            Err(_) => Loaded::NoMemory,
        }
    }

    fn commit(&mut self, alloc: Global, batch: &Batch) -> Committed
        ensures tables { (place : Place) → Commits (Some self.old.rows) (Some self.new.rows) result batch.now }
        ensures later { self.old.calls.faults ≤ self.new.calls.faults }
        ensures cause { result ≡ Committed.Failed → Rose self.old.calls.faults self.new.calls.faults }
        // Just the calls of the list fail, and the others make the changes, or lack memory and make none.
        ensures exact { CommitsAsTold self.old self.new result batch.now }
        ensures never { self.old.calls.failing ≡ [] → result ≢ Committed.Failed }
        ensures counts { CountsCommit result self.old.calls.faults self.new.calls.faults }
        ensures calls { CountsCall self.old.calls self.new.calls }
    {
        if self.calls.next_fails() {
            return Committed::Failed;
        }
        match apply(alloc, &self.rows, batch) {
            Ok(rows) => {
                self.rows = rows;
                Committed::Kept
            }
            Err(_) => Committed::NoMemory,
        }
    }
}
