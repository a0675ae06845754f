//! Who emits which relations, and whose relations a change of emitters changes.
//!
//! Entities emit relations, also such whose source is another entity. So when what some emitters emit changes, the documents
//! of other entities may change with it. This crate keeps the relations by emitter, and beside them, by source, each relation
//! once with the number of its emitters. Both are maps whose copies share what they have in common. So a plan costs what
//! changes, and which sources have other relations than before shows in the counts of what comes and goes alone.
//!
//! It stands on cat_types and on the shared maps of cat_collections. The promise: a plan lists exactly the sources whose sorted distinct relations, over all emitters,
//! differ before and after a change, in order; applying it takes no memory; and looking up a source lends just its sorted
//! distinct relations.
#![tactic(auto)]

mod counts;
pub mod links;
mod moved;
