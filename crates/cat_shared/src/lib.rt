//! The book: a catalogue that several threads have in turns, with a journal of what each of them did to it, and a desk for each of them.
//!
//! The journal leads from the opening state to the present one, an entry for each command that acted and for each whose change wasn't kept, or not
//! all of it, of which there are at most as many as the keeper counted faults. What a share has seen begins the journal, and holds its own entries,
//! each once and in the order in which it made them; and each answer of a share is that of the catalogue at the state to which what it has seen
//! leads. Want of memory or the keeper's fault may come in an answer's place, and then nothing was done, but for the events that a cut settle names.
//!
//! It carries the promise that all shares of a book have one history, in which each command that acted stands once, and whose replay is the
//! catalogue.
//!
//! The journal is whole in contracts alone. Memory has its newest entries, within the limits that are given when the book is made (`cat_history`), so a book
//! that runs for years takes no more.
//!
//! It stands on cat_desk for a catalogue with its clock and its feed, which a store may keep (`TimedDesk`), on cat_history for the journal, and on cat_turns for the turns. Why a
//! book and its shares may go to other threads stands in `proofs/SentBooks.antt`.
#![tactic(auto)]

pub mod book;
pub mod closing;
pub mod entry;
mod notes;
pub mod shared;
mod tells;
mod weight;
mod work;
mod works;
