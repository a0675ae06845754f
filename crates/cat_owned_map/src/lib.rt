//! Maps that own their nodes: what contracts see as entries by key in order of the keys, each once.
//!
//! An `Owned` is a sorted tree whose entries come and go with their nodes: a node is made with its entry before a change, is
//! taken out and put back in another place, and what is changed so takes no memory. It suits what must not fail once it has
//! begun. A copy of it is made entry by entry; where copies are wanted often, `cat_collections` has a `Map`. It stands on cat_collections
//! for keys and for the law of balance.
//!
//! The promise: look-ups and changes are `find`, `put` and `without` over the entries, which stay in order of their keys, and
//! trees stay balanced.
#![tactic(auto)]

pub mod boxed;
pub mod owned;
