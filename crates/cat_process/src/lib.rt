//! What processing an entity gives.
//!
//! The result of an entity depends on its tree and on the contents of its targets alone: the texts that the shelf has for
//! the files that a Location points to. It is good, with the processed entity and what it offers, or bad, with issues
//! that say why. The crate promises that both functions are exactly their definitions: `contents` is `contents_of` and
//! `result` is `result_of`, in `specs/Process.antt`.
//!
//! It stands on cat_schema for the rules of the descriptor format, cat_kinds for reference fields, cat_target for the
//! targets of Locations, and cat_inputs for the descriptors of shelf texts.
#![tactic(auto)]

pub mod contents;
pub mod issues;
pub mod law;
pub mod message;
pub mod offers;
pub mod result;
