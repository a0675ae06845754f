//! What the rows of a store say, and how they are spelled.
//!
//! A row is kept as texts under a table: a key, and a value that is the compact JSON text (RFC 8259) of a tree with its keys
//! in byte order. `write_row` gives these texts, and `read_row` takes just them: each row has exactly one spelling, and what
//! isn't the spelling of a row is refused.
//!
//! Two versions are read and written. In the second each tree of an item or an offer has a row of its own under its arrival
//! number; in the first it stands beside the item or the offer, in rows of their own forms.
//!
//! The crate stands on cat_tree, cat_types and cat_collections, on cat_stitch for the names of issues, and on cat_keeper
//! for the tables.
#![tactic(auto)]

mod fields;
pub mod names;
mod parse;
pub mod read;
pub mod row;
mod tree;
pub mod write;
