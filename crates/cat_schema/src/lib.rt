//! The schema of descriptors, after the Backstage documentation's Descriptor Format, as twenty-four
//! rules `S1` to `S24`.
//!
//! A descriptor is a tree. `check` lists each breach of a rule with the dotted path of its place, by
//! rule and then by position. Where the root isn't a map no other rule is asked, where `metadata` isn't
//! one none of its fields, and where `kind` isn't known or `spec` isn't a map none of the kind's. Fields
//! that no rule names are let be.
//!
//! The promise: the list is exactly that of `specs/Rules.antt`, a line for each rule, and a descriptor
//! without a breach names an entity. It stands on cat_tree and cat_types.
#![tactic(auto)]

pub mod faults;
pub mod field;
pub mod form;
pub mod kind;
pub mod rules;
