//! The events by which a catalogue works: refreshes, takes, finishes and stitches; and the plan of an event that may reach many references.
//!
//! It stands on cat_plan, and on cat_claims for who holds what. Each event is one function that makes of a state and its links what the event comes to, which is
//! the step of the abstract catalogue, exactly, or answers the refusal; where memory runs out, nothing has changed.
//!
//! An event that may reach many references is planned first: its plan asks only what the event reaches, and has all that differs after
//! it. Then the room that the plan wants is taken, and from there on nothing can fail. Takes, refreshes and stitches change one entry
//! where it stands. The events that change what the catalogue is given are cat_mutations'.
#![tactic(auto)]

pub mod again;
mod apply;
pub mod claims;
pub mod done;
pub mod finish;
pub mod lease;
pub mod plan;
pub mod present;
pub mod refusal;
pub mod stepped;
pub mod stitch;
