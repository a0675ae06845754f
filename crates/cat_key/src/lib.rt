//! Keys and copies: what a map is ordered by, what stands for a key in a search, and what can be copied.
//!
//! It stands on nothing but std, so that maps and the texts that are their keys are proved beside each other. Texts and
//! references are keys where they are declared.
//!
//! The promise: the order of a key is total, only equal keys tie, and a copy equals what it was made of.
#![tactic(auto)]

pub mod copied;
pub mod key;
pub mod pair;
