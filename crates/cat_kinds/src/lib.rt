//! The relations that entities state in their reference fields, after the well-known relations of the Backstage
//! documentation.
//!
//! It stands on cat_tree, cat_types and cat_schema, whose one table says which kinds have which reference
//! fields. The promise:
//! `relations` gives just the faults of an entity's reference fields where there is one, and else just its relations,
//! both ways, each once and in order, whatever the form of the tree.
#![tactic(auto)]

pub mod answer;
pub mod law;
pub mod mention;

pub use cat_types::relation::{RelKind, Relation};
