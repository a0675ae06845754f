//! The forms of all that the real catalogue keeps: the abstract catalogue's law that each tree, name and serial keeps its
//! form, at the real lower layers, and what it comes to for the program.
//!
//! It stands on cat_model for that law, on cat_layers for the real layers and their forms, on cat_session_lines and
//! cat_session_model for what lines do, and on cat_stitch for documents. Its promise is of every session, whatever its lines
//! are: a provider has a provider's name and a serial of 1 to 2^53 - 1, an item and an offer stand under the reference of
//! their tree, which is at most 100 levels deep, and each stored document is that of a processed entity of its reference.
//! It has no code: its laws are the contracts of functions whose bodies do nothing.
#![tactic(auto)]

pub mod law;
