//! What a store's rows are read back to, tested before it counts as a catalogue.
//!
//! A candidate state may come from anywhere: each of its fields is tested beside the others, and what passes is given out with
//! its links and documents as a state of which all holds that holds between two events. Nobody has to believe what made the
//! candidate.
//!
//! It stands on cat_plan, and on the definitions of cat_events. The promise: what opens is the candidate with its documents, and
//! its links are the relations of its kept outputs. Each entry takes a few searches, and each holder two more for each step up its
//! chain of origins; a candidate's tables should be in order, since those that aren't are searched one by one.
#![tactic(auto)]

mod candidate;
mod documents;
mod holders;
mod links;
mod numbers;
mod offers;
pub mod reopen;
