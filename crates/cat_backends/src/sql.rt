//! A keeper over a database.
ghost use Rattle.std.specs.Prelude.{◌≡◌, ◌≢◌, ◌≤◌, None};
ghost use Rattle.sqlite.specs.Held.{state};
ghost use Rattle.cat_io.specs.Causes.{Rose, CountsFault};
ghost use Rattle.cat_keeper.specs.Answers.{Loads, Commits, CountsLoad, CountsCommit};
ghost use Rattle.cat_backends.specs.Kept.{CommitsNothing};

use crate::refusal::Refusal;
use crate::rows::{commit_rows, load_rows};
use cat_keeper::keeper::{Committed, Keeper, Loaded, Place};
use cat_keeper::rows::Batch;
use sqlite::{Alter, Connection};
use std::alloc::Global;

/// A keeper of rows in the table `cat_rows` of a database, which is made where there is none. It makes no use of the place.
///
/// A row stands under the number of its table and its key. Each commit is one transaction. Want of memory is told as that, and
/// each other refusal counts as a fault: of the disk, of the database, and of a load that meets a row which is no row of a
/// store. So does a commit where a transaction of the connection is open already.
#[derive(Drop)]
pub struct SqlKeeper<S: Alter> {
    connection: Connection<S>,
    faults: u64,
}

impl<S: Alter> SqlKeeper<S> {
    /// A keeper over a connection, with no fault yet. It takes no memory, and doesn't call the database.
    pub fn over(connection: Connection<S>) -> SqlKeeper<S>
        ensures { result.faults ≡ 0 }
    {
        SqlKeeper {
            connection,
            faults: 0,
        }
    }

    // Counts a fault. At its greatest value the count stays.
    fn count_fault(&mut self)
        ensures counts { CountsFault self.old.faults self.new.faults }
        ensures later { self.old.faults ≤ self.new.faults }
        ensures same { self.new.connection ≡ self.old.connection }
    {
        self.faults = self.faults.saturating_add(1);
    }
}

impl<S: Alter> Keeper for SqlKeeper<S> {
    ghost tables = { λ _ _. None };

    ghost faults = { λ k. k.faults };

    fn load(&mut self, alloc: Global, _place: &Place) -> Loaded
        ensures tables { Loads None None result }
        ensures later { self.old.faults ≤ self.new.faults }
        ensures cause { result ≡ Loaded.Failed → Rose self.old.faults self.new.faults }
        ensures counts { CountsLoad result self.old.faults self.new.faults }
    {
        match load_rows(alloc, &mut self.connection) {
            Ok(rows) => Loaded::Rows(rows),
            Err(Refusal::NoMemory) => Loaded::NoMemory,
            Err(Refusal::Failed) => {
                self.count_fault();
                Loaded::Failed
            }
        }
    }

    fn commit(&mut self, _alloc: Global, batch: &Batch) -> Committed
        ensures tables { (place : Place) → Commits None None result batch.now }
        ensures later { self.old.faults ≤ self.new.faults }
        ensures cause { result ≡ Committed.Failed → Rose self.old.faults self.new.faults }
        ensures counts { CountsCommit result self.old.faults self.new.faults }
        // What isn't kept has changed nothing, as far as the disk returns what was written and the database stays open.
        ensures unmade { result ≢ Committed.Kept → CommitsNothing (state S.Store self.old.connection) (state S.Store self.new.connection) }
    {
        match commit_rows(&mut self.connection, batch) {
            Ok(()) => Committed::Kept,
            Err(Refusal::NoMemory) => Committed::NoMemory,
            Err(Refusal::Failed) => {
                self.count_fault();
                Committed::Failed
            }
        }
    }
}
