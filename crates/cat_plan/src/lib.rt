//! Which row holds each reference, what work and parts come of that, and what follows from a change of the catalogue's inputs: which records
//! and orphans there are, what links, and whose documents have to be stitched anew. It is the lowest layer of the catalogue's code.
//!
//! It stands on the plain types, on cat_model for the abstract catalogue, and on cat_links, and takes what reads, processes and prints entities
//! as the trait `Layers`. Each function of `hold`, `parts` and `build` is one definition of the abstract catalogue, exactly, unless memory runs
//! out. `following::plan` only asks what a change reaches: putting in and taking out what it lists makes the frame of the abstract catalogue,
//! exactly. References are marked from what links and the event change, and not by comparing the parts of all.
#![tactic(auto)]

pub mod amended;
pub mod build;
pub mod change;
pub mod following;
pub mod hold;
pub mod layers;
pub mod link_plan;
pub mod linked_parts;
pub mod mark_plan;
pub mod orphan_plan;
pub mod parts;
pub mod record_plan;
