//! How far an event of the catalogue reaches: the law, and the code that finds what an event reached, at the cost of what it reached.
//!
//! The law (`theorem`) says which references an event can change in what a store keeps of a state: outside of the references that an event is
//! about, of those that hung below a row that is lost, and of those that what left had given, no row, holder, record or orphan changes, except
//! for due moments and leases, which no store keeps; and of the inputs only those that the event gives change. So a store that follows a
//! catalogue need look only at what an event reaches, and at the counters, of which nothing is said here.
//!
//! The code carries the promise that the references of a mutation, of a finish and of a forget are just those of that law, with the catalogue
//! before and after the event, though they are found by look-ups alone: of the rows and holders only those of what is reached are looked at.
//!
//! It stands on cat_model for the abstract catalogue and the laws of holding, and on cat_claims for what a change of rows cuts off.
#![tactic(auto)]

pub mod reached;
mod refs;
pub mod seeds;
pub mod theorem;
