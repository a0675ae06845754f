//! A keeper for each place.
ghost use Rattle.std.specs.Prelude.{◌≡◌, ◌≢◌, ◌≤◌, [], None, Some};
ghost use Rattle.cat_io.specs.Causes.{Rose, CountsFault};
ghost use Rattle.cat_keeper.specs.Answers.{Loads, Commits, CountsLoad, CountsCommit};
ghost use Rattle.cat_keeper.specs.declared.keeper.Place.{Place};
ghost use Rattle.cat_backends.specs.Places.{told};

use crate::refusal::Refusal;
use crate::sql::SqlKeeper;
use cat_collections::map::Map;
use cat_keeper::keeper::{Committed, Keeper, Loaded, Place};
use cat_keeper::memory::MemoryKeeper;
use cat_keeper::rows::Batch;
use sqlite::{Connection, File, FileStore};
use std::alloc::Global;
use std::marker::Model;

/// What opens the files that keep rows.
pub trait Opener {
    /// What keeps the rows of a file that was opened.
    type Opened: Keeper + Drop;

    /// Opens the file of a place, which is made if it isn't there. For nowhere it fails.
    fn open(&self, alloc: Global, place: &Place) -> Result<Self::Opened, Refusal>;
}

/// Opens databases of SQLite in files, and no journals.
///
/// Beside a file lies its log, whose name ends in `-wal`: both belong together. While a file is open no other program can write
/// it, and sqlite3 finds it locked. What a commit changes is on the disk once it is answered `Kept`: each commit syncs the log,
/// as under SQLite's `synchronous=FULL`. A commit that the disk fails in that sync is `Failed`, closes the database, and may
/// be found made by the next opening. It refuses what is no database, a name that another file has too, and `:memory:`.
#[derive(Clone, Copy)]
pub struct SqlFiles {
    rt: HostRuntime,
}

impl SqlFiles {
    /// What opens files by this runtime. It takes no memory.
    pub fn new(rt: &HostRuntime) -> SqlFiles {
        SqlFiles { rt: *rt }
    }
}

impl Opener for SqlFiles {
    type Opened = SqlKeeper<FileStore<File>>;

    fn open(&self, _alloc: Global, place: &Place) -> Result<SqlKeeper<FileStore<File>>, Refusal> {
        let Place::File(path) = place else {
            return Err(Refusal::Failed);
        };
        let connection = Connection::open(&self.rt, path.as_str())?;
        Ok(SqlKeeper::over(connection))
    }
}

/// What the rows of a place are kept in.
#[derive(Drop)]
enum Store<K> {
    /// Memory, where nothing outlives the program.
    Memory(MemoryKeeper),
    /// A file.
    File(K),
    /// Nothing, since the file that was to be loaded gave no rows.
    Closed,
}

/// A keeper for each place: for a file the rows are in what the opener makes of it, and for nowhere in memory.
///
/// A load of a file closes what was open before, and opens the file anew. A load of nowhere after that of a file begins with no
/// rows, and after that of nowhere it gives the rows of the commits so far. Before the first load the keeper works for nowhere,
/// and after a load of a file that gave no rows each commit fails.
///
/// Each call that is answered `Failed` counts as a fault, and no other. For nowhere none comes.
pub struct PlaceKeeper<O: Opener> {
    opener: O,
    store: Store<O::Opened>,
    faults: u64,
}

// Written out, and not derived: so a program lets go of a keeper by one call.
impl<O: Opener + Drop> Drop for PlaceKeeper<O> {
    fn drop(self) {
        let PlaceKeeper {
            opener: _,
            store: _,
            faults: _,
        } = self;
    }
}

impl<O: Opener> Model for PlaceKeeper<O> {
    ghost use Rattle.std.specs.Prelude.{◌≡◌, []};
    ghost use Rattle.cat_backends.specs.Places.{PlaceState, failing_in, rows_in};

    ghost Value = { PlaceState };

    ghost view = { λ k. record { rows = rows_in k.store; faults = k.faults } };

    ghost invariant = { λ k. failing_in k.store ≡ [] };
}

// A keeper in memory with no rows that never fails.
fn empty(alloc: Global) -> MemoryKeeper
    ensures rows { result.rows ≡ [] }
    ensures failing { result.calls.failing ≡ [] }
{
    MemoryKeeper::new(Map::new(), Vec::new(alloc))
}

impl<O: Opener> PlaceKeeper<O> {
    /// A keeper with no rows that works for nowhere, and has no fault yet. It takes no memory.
    pub fn new(alloc: Global, opener: O) -> PlaceKeeper<O>
        ensures { result ≡ record { rows = Some []; faults = 0 } }
    {
        PlaceKeeper {
            opener,
            store: Store::Memory(empty(alloc)),
            faults: 0,
        }
    }

    // Counts a fault. At its greatest value the count stays.
    fn count_fault(&mut self)
        ensures counts { CountsFault self.old.faults self.new.faults }
        ensures later { self.old.faults ≤ self.new.faults }
        ensures same { self.new.rows ≡ self.old.rows }
    {
        self.faults = self.faults.saturating_add(1);
    }

    // Gives the rows that are in memory, none where they were elsewhere.
    fn load_memory(&mut self, alloc: Global, place: &Place) -> Loaded
        ensures tables { Loads self.old.rows self.new.rows result }
        ensures never { result ≢ Loaded.Failed }
        ensures same { self.new.faults ≡ self.old.faults }
    {
        if let Store::Memory(keeper) = &mut self.store {
            return keeper.load(alloc, place);
        }
        let mut keeper = empty(alloc);
        let loaded = keeper.load(alloc, place);
        self.store = Store::Memory(keeper);
        loaded
    }

    // Gives the rows of a file that was opened, and works with it from then on, if it gives them.
    fn load_opened(&mut self, alloc: Global, place: &Place, mut keeper: O::Opened) -> Loaded
        requires { self.old.rows ≡ None }
        ensures rows { self.new.rows ≡ None }
        ensures same { self.new.faults ≡ self.old.faults }
    {
        let loaded = keeper.load(alloc, place);
        if let Loaded::Rows(_) = &loaded {
            self.store = Store::File(keeper);
        }
        loaded
    }

    // Opens a file, and gives its rows.
    fn load_file(&mut self, alloc: Global, place: &Place) -> Loaded
        ensures rows { self.new.rows ≡ None }
        ensures same { self.new.faults ≡ self.old.faults }
    {
        self.store = Store::Closed;
        match self.opener.open(alloc, place) {
            Ok(keeper) => self.load_opened(alloc, place, keeper),
            Err(Refusal::NoMemory) => Loaded::NoMemory,
            Err(Refusal::Failed) => Loaded::Failed,
        }
    }

    // Gives the rows of a place. A fault isn't counted yet.
    fn load_at(&mut self, alloc: Global, place: &Place) -> Loaded
        ensures tables { Loads (told place.now self.old) (told place.now self.new) result }
        ensures never { place.now ≡ Place.Nowhere → result ≢ Loaded.Failed }
        ensures same { self.new.faults ≡ self.old.faults }
    {
        match place {
            Place::Nowhere => self.load_memory(alloc, place),
            Place::File(_) | Place::Journal(_) => self.load_file(alloc, place),
        }
    }

    // Makes the changes of a batch. A fault isn't counted yet.
    fn commit_all(&mut self, alloc: Global, batch: &Batch) -> Committed
        ensures tables { Commits self.old.rows self.new.rows result batch.now }
        ensures never { self.old.rows ≢ None → result ≢ Committed.Failed }
        ensures same { self.new.faults ≡ self.old.faults }
    {
        match &mut self.store {
            Store::Memory(keeper) => keeper.commit(alloc, batch),
            Store::File(keeper) => keeper.commit(alloc, batch),
            Store::Closed => Committed::Failed,
        }
    }
}

impl<O: Opener> Keeper for PlaceKeeper<O> {
    ghost tables = { told };

    ghost faults = { λ k. k.faults };

    fn load(&mut self, alloc: Global, place: &Place) -> Loaded
        ensures tables { Loads (told place.now self.old) (told place.now self.new) result }
        ensures later { self.old.faults ≤ self.new.faults }
        ensures cause { result ≡ Loaded.Failed → Rose self.old.faults self.new.faults }
        ensures counts { CountsLoad result self.old.faults self.new.faults }
        // Memory doesn't fail.
        ensures never { place.now ≡ Place.Nowhere → result ≢ Loaded.Failed }
    {
        let loaded = self.load_at(alloc, place);
        if let Loaded::Failed = &loaded {
            self.count_fault();
        }
        loaded
    }

    fn commit(&mut self, alloc: Global, batch: &Batch) -> Committed
        ensures tables { (place : Place) → Commits (told place self.old) (told place self.new) result batch.now }
        ensures later { self.old.faults ≤ self.new.faults }
        ensures cause { result ≡ Committed.Failed → Rose self.old.faults self.new.faults }
        ensures counts { CountsCommit result self.old.faults self.new.faults }
        // Memory doesn't fail.
        ensures never { self.old.rows ≢ None → result ≢ Committed.Failed }
    {
        let committed = self.commit_all(alloc, batch);
        if committed == Committed::Failed {
            self.count_fault();
        }
        committed
    }
}
