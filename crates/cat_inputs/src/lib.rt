//! Reads what comes in from outside: the JSON bodies of a provider's mutations, and the texts of Location files on the
//! shelf, in JSON or in block YAML.
//!
//! It stands on cat_tree, cat_types and cat_yaml. It promises that each answer is the one that a definition
//! computes from the bytes: the mutation or the list of descriptors, or the first refusal that holds. A mutation that is
//! read has all that the catalogue asks of one.
#![tactic(auto)]

pub mod body;
pub mod fault;
pub mod form;
pub mod input;
pub mod refs;
pub mod shelf;
pub mod text;

pub use cat_types::input::{Item, Mutation};
