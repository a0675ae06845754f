//! Lists, and maps in order of their keys: what contracts see as items, and as entries by key, each key once.
//!
//! A `Listing` is a list in whatever order it was made. A `Map` is a sorted tree whose copies share its nodes: a copy takes
//! no memory, and a change copies no more than the way down to it, so it suits what is planned, kept and taken back. It
//! stands on the traits of cat_key, which it hands on.
//!
//! The promise: look-ups and changes are `find`, `put` and `without` over the entries, which stay in order of their keys;
//! where memory is wanted nothing has changed; a copy equals what it was made of; and trees stay balanced.
#![tactic(auto)]

pub mod listing;
pub mod map;
pub mod tree;

pub use cat_key::{key, pair};
