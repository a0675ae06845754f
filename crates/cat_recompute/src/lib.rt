//! The documents computed afresh, by a plain and slow program.
//!
//! It knows nothing of due moments, leases, marks, stored outputs of good inputs or stored documents: it goes over the
//! inputs under the claims and numbers of a state, processes each descriptor up its chain to a provider, collects all
//! relations, and makes each document. Its contract is the definition of fresh documents of the abstract catalogue, so tests
//! may compare a quiet catalogue with it. It stands on cat_model for the definition and on cat_plan for the lower layers.
#![tactic(auto)]

pub mod afresh;
pub mod documents;
