//! Worked examples: what the definitions of the catalogue give for texts, trees and whole sessions that are written out.
//!
//! Each function has an empty body, and each of its clauses is an equation that holds since its left side, computed in the
//! logic from the definitions alone, comes to its right side. So a reader can judge by cases that he knows whether the
//! definitions say what a catalogue should do; the sessions are those of the folder examples/, line by line and with each byte
//! of the replies, over the real lower layers and the settings of the program.
//!
//! It stands on cat_session_model for the session of the program, on cat_io and cat_session_lines for lines, on cat_layers, with the
//! leaves below, for trees, relations, results and documents, and on cat_model for the abstract catalogue.
#![tactic(auto)]

pub mod component;
pub mod holding;
pub mod limits;
pub mod lines;
pub mod locations;
pub mod mutations;
pub mod questions;
pub mod relations;
pub mod turns;
