//! The rows that are stored of a catalogue's state, and the batch that leads from the rows of one state to those of another.
//!
//! `stored_rows` gives the rows of a state under a rule for orphans, typed and in order of their keys; their trees are shared with the state.
//! `first_rows` gives those that a store of the first version has of it. `texts` gives the texts of rows, as a keeper holds them.
//! `batch_between` walks over the rows of two states at once and gives the changes that lead from the texts of the one to the texts of the
//! other: only rows that differ are put into texts. `batch_to` does the same from texts that were loaded. A store that follows a catalogue
//! knows which rows an event may have changed: `among::batch_among` looks only at these.
//!
//! The promise: rows and texts are those of `specs/Stored.antt` and `specs/First.antt`, and a batch, applied to the rows that it was made from,
//! gives exactly the rows that it was made for, and has no change of a row that stays as it is (`specs/Differing.antt` `AreNeeded`); that of `batch_among`
//! whichever keys are given, in whichever order and however often, as long as the rows differ at no other key.
//!
//! The crate stands on cat_tree, cat_types, cat_collections and cat_model, whose states are stored, on cat_keeper for rows and batches, and on
//! cat_row_format for what rows say.
#![tactic(auto)]

pub mod among;
pub mod batch;
mod copies;
pub mod first;
pub mod same;
pub mod stored;
pub mod texts;
pub mod version;
mod walk;
