//! The keeper of each file: a database, or a journal.
ghost use Rattle.std.specs.Prelude.{◌≡◌, ◌≤◌, None};
ghost use Rattle.cat_io.specs.Causes.{Rose};
ghost use Rattle.cat_keeper.specs.Answers.{Loads, Commits};
ghost use Rattle.cat_keeper.specs.declared.keeper.Place.{Place};
ghost use Rattle.cat_backends.specs.Files.{faults_of};

use crate::file::FileDisk;
use crate::place::{Opener, SqlFiles};
use crate::refusal::Refusal;
use crate::sql::SqlKeeper;
use cat_journal::keeper::JournalKeeper;
use cat_keeper::keeper::{Committed, Keeper, Loaded, Place};
use cat_keeper::rows::Batch;
use cat_tree::text::Text;
use sqlite::{File, FileStore};
use std::alloc::Global;

/// What keeps the rows of a file. Of what the file holds nothing is told.
pub enum ToolFile {
    /// A database of SQLite.
    Sql(SqlKeeper<FileStore<File>>),
    /// A journal.
    Journal(JournalKeeper<FileDisk>),
}

// Written out, and not derived: so a program lets go of a keeper by one call.
impl Drop for ToolFile {
    fn drop(self) {
        match self {
            ToolFile::Sql(_keeper) => {}
            ToolFile::Journal(_keeper) => {}
        }
    }
}

impl Keeper for ToolFile {
    ghost tables = { λ _ _. None };

    ghost faults = { faults_of };

    fn load(&mut self, alloc: Global, place: &Place) -> Loaded
        ensures tables { Loads None None result }
        ensures later { faults_of self.old ≤ faults_of self.new }
        ensures cause { result ≡ Loaded.Failed → Rose (faults_of self.old) (faults_of self.new) }
    {
        match self {
            ToolFile::Sql(keeper) => keeper.load(alloc, place),
            ToolFile::Journal(keeper) => keeper.load(alloc, place),
        }
    }

    fn commit(&mut self, alloc: Global, batch: &Batch) -> Committed
        ensures tables { (place : Place) → Commits None None result batch.now }
        ensures later { faults_of self.old ≤ faults_of self.new }
        ensures cause { result ≡ Committed.Failed → Rose (faults_of self.old) (faults_of self.new) }
    {
        match self {
            ToolFile::Sql(keeper) => keeper.commit(alloc, batch),
            ToolFile::Journal(keeper) => keeper.commit(alloc, batch),
        }
    }
}

/// Opens the database or the journal in the file of a place, which is made if it isn't there. For nowhere it fails.
///
/// A database is opened as `SqlFiles` opens it. A journal's file is opened at its first call; another program that opens it
/// so meanwhile is refused.
#[derive(Clone, Copy)]
pub struct ToolFiles {
    rt: HostRuntime,
    sql: SqlFiles,
}

impl ToolFiles {
    /// What opens files by this runtime. It takes no memory.
    pub fn new(rt: &HostRuntime) -> ToolFiles {
        ToolFiles {
            rt: *rt,
            sql: SqlFiles::new(rt),
        }
    }
}

impl Opener for ToolFiles {
    type Opened = ToolFile;

    fn open(&self, alloc: Global, place: &Place) -> Result<ToolFile, Refusal> {
        match place {
            Place::Nowhere => Err(Refusal::Failed),
            Place::File(_) => Ok(ToolFile::Sql(self.sql.open(alloc, place)?)),
            Place::Journal(path) => {
                let path = Text::of(alloc, path.as_str())?;
                let disk = FileDisk::new(&self.rt, path);
                Ok(ToolFile::Journal(JournalKeeper::over(disk)))
            }
        }
    }
}
