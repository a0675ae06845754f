//! The grammar of session lines: each line is one command or one question, with its arguments read and checked.
//!
//! It stands on cat_tree and cat_types, on cat_inputs for the bodies of mutations, and on cat_query for what is
//! asked. It promises that each line is read as a definition computes it from its bytes, or refused with the first cause
//! that holds, and that a command that was read meets what the catalogue asks of it.
#![tactic(auto)]

pub mod argument;
pub mod fault;
pub mod keyword;
pub mod line;
pub mod query;
pub mod read;
pub mod references;
