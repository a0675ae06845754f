//! The laws of every run of the abstract catalogue: what holds of its state after any list of events, and of a settle.
//!
//! It stands on cat_model, whose definitions it speaks of. The laws are contracts of functions with empty bodies. It carries the promise that
//! a quiet catalogue's documents are those computed afresh, that a settle makes it quiet, and that what must hold between two events does.
#![tactic(auto)]

pub mod theorem;
