//! The catalogue: what the programs call.
//!
//! It stands on cat_settle and takes what reads, processes and prints entities as the trait `Layers`. Each call is one step of
//! the abstract catalogue, reply included, and a refused call changes nothing. It carries the promise of the whole: where the
//! catalogue is quiet, its documents are those computed afresh from its inputs.
#![tactic(auto)]

pub mod called;
pub mod catalogue;
pub mod extra;
pub mod fault;
pub mod known;
pub mod ledger;
pub mod orders;
pub mod questions;
pub mod waiting;
