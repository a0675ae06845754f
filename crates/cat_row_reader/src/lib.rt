//! From the rows of a store to the state that they stand for.
//!
//! Stores of both versions are read. `candidate` reads the texts of a store to its rows (cat_row_format), and makes of these the state
//! that they stand for; `has_forms` asks whether all that this state keeps has its form.
//!
//! It stands on cat_row_format for the texts of rows, on cat_schema and cat_kinds for the rules of the descriptor format, and on
//! cat_model for the state. What it gives is a candidate: nothing here says that it is sound, but that it is what the rows stand
//! for, and at its start.
#![tactic(auto)]

pub mod candidate;
pub mod entity;
pub mod forms;
mod read;
mod state;
pub mod types;
