//! Where a catalogue's rows are kept.
//!
//! A store is a list of rows, each a value under a table and a key, all of them texts. A `Keeper` gives its rows when it is
//! loaded, and takes a `Batch` of changes as one: after a commit that is answered `Kept` all of them are made, and after any
//! other none. A keeper is seen by its rows, where it tells them, and by its count of faults, so a program over any keeper can
//! promise what is kept, and that it speaks of a fault only where one was counted. `MemoryKeeper` tells its rows, and fails on
//! demand.
//!
//! What the texts of rows say isn't known here. The crate stands on cat_tree and cat_collections, whose texts and maps are keys,
//! values and rows, and on cat_io, whose counts of calls and faults it uses.
#![tactic(auto)]

pub mod keeper;
pub mod memory;
pub mod rows;
pub mod table;
