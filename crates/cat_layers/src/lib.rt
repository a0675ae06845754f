//! The real lower layers of the catalogue, put together, and the forms that they keep.
//!
//! What the descriptor format, the relations, the targets, the processing and the documents of the Backstage documentation come to stands here
//! as the record of functions and laws that the abstract catalogue takes, and as the code that the catalogue calls (`layered`).
//!
//! What holds of each tree and each location key that processing takes and gives is a form, with tests that tell it. The promise is that
//! processing keeps the forms: what may be processed gives an entity of its reference that breaks no rule, and offers that may be processed in
//! turn. That has no code: its laws are the contracts of functions with empty bodies.
//!
//! It stands on cat_tree and cat_types for trees and the references that they name, on cat_schema and cat_kinds for the rules of the descriptor
//! format and the reference fields, on cat_inputs for what a shelf text lists, on cat_process and cat_stitch for results and documents, and on
//! cat_model and cat_plan for what the catalogue asks of its layers.
#![tactic(auto)]

pub mod bytes;
pub mod law;
pub mod layered;
