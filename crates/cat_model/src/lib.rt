//! The abstract catalogue: its state, the rules of holding, what follows from a change, its events with their replies, a settle, and the
//! documents computed afresh; and the records and the rows of a state, which a catalogue keeps.
//!
//! It stands on the crates that give its types, and takes the lower layers as a record of functions, so that it isn't changed where a layer
//! changes. Of the layers it names one function, cat_target's shelf names that a descriptor may read, by which rows are found.
//!
//! What holds after any list of events is said by cat_laws. The law of `mending` is here: it says what a change of the rows of one origin
//! cuts off, and what then claims: to look at what such a change reaches, and at nothing else, comes to just the holders and rows that the rules
//! of holding give for all rows.
#![tactic(auto)]

pub mod mending;
pub mod records;
pub mod rows;
pub mod types;
