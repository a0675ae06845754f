//! Documents: how the catalogue shows an entity, made of its parts.
//!
//! It stands on cat_tree and cat_types. It carries the promise that a document belongs to its parts: it is
//! the one that the definition gives, whatever the processed entity has under the fields that the catalogue sets.
#![tactic(auto)]

pub mod document;
pub mod issues;
pub mod laws;
pub mod make;
pub mod uid;
