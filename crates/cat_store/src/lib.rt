//! A catalogue's store: what a keeper has of a catalogue's state, how it follows each change, and how a catalogue is opened from it.
//!
//! A `Store` has the rows of the state that it follows. After an event, or the events of a settle, it makes only those rows anew that these reached
//! (cat_row_updates), and compares these alone (cat_stored_rows); where nobody says what was reached, it compares all. Only rows that differ are written. A
//! commit is one batch; where it is refused the rows are as before. A store is opened by reading its rows (cat_row_reader), testing what was read
//! (cat_state_check), and comparing the rows of that state with those that were read (cat_stored_rows), so that nobody has to believe the reading. Whether
//! the state is in order, with numbers of 64 bits alone, is tested beside, so that what its rows tell of it (cat_row_updates) can be applied to
//! whatever opens. A store that doesn't open is refused by the name of its first row at fault (cat_row_faults).
//!
//! It stands on cat_keeper for keepers, and on the crates named. It carries the promise that a keeper which tells its tables
//! holds those of the state that was last followed, and that a store of either version opens as a state whose rows it has, which those
//! rows tell, and which opens again as itself.
#![tactic(auto)]

mod narrow;
pub mod open;
pub mod reached;
pub mod store;
mod tells;
