//! The keepers of the program's places, over real files: a database of SQLite, or a journal.
//!
//! A `SqlKeeper` keeps rows in the table `cat_rows` of a database, in memory or in a file alike. A commit is one transaction, so its changes are
//! made all or none. `ToolFiles` opens what a place names: the database in a file, or the journal in one, so a `PlaceKeeper` over it keeps rows
//! in memory, in a database or in a journal. A `FileDisk` is the journal's disk over a file of the operating system.
//!
//! Of what a file holds nothing is told, so what is proved here is why a call fails: `Failed` comes only with a counted fault, and whatever
//! lacks memory is `NoMemory` and counts none. That a commit which isn't kept has changed nothing is proved as far as sqlite says it: while the
//! disk returns what was written, and the database stays open. What a crash leaves of a journal is proved in cat_journal over any disk that
//! keeps the promise of cat_disk; that a file of the operating system keeps it is trusted.
//!
//! The crate stands on cat_keeper and cat_disk, whose traits it implements, on cat_journal, whose keeper it opens, on cat_collections and cat_tree,
//! whose maps and texts are rows, on cat_io, whose counts of faults it uses, on sqlite, and on os and libc for the lock and the advice that a
//! file is given.
#![tactic(auto)]

pub mod file;
pub mod files;
pub mod place;
pub mod refusal;
mod rows;
pub mod sql;
