//! Trees: the JSON values (RFC 8259) of the catalogue, whose numbers are whole.
//!
//! Everything that the catalogue reads, keeps and writes is a tree: descriptors, bodies of mutations,
//! stored rows, documents and answers. A tree is read from the tokens of `json`'s reader in one pass, or
//! by way of `serde_json`'s value where a tree can't hold what is met on the way. It is written with
//! `json`'s writer, or, where there is room, without memory.
//!
//! The promise: the tree of a text is exactly the reading of `serde_json`, and the text of a tree is
//! its compact text with the keys of each map in byte order; what is written of a tree with numbers
//! of 64 bits and at most 127 levels is read as the same tree.
//!
//! Contracts see a tree as the data of `specs/Data.antt`, a `Text` as the list of its bytes, and
//! `Trees` and `Pairs` as lists. What allocates takes the allocator and answers want of memory.
#![tactic(auto)]

pub mod ask;
pub mod clone;
pub mod edit;
pub mod read;
pub mod room;
mod stream;
pub mod text;
pub mod tree;
pub mod write;
