//! A settle: rounds of takes and finishes until no record is due, and then the stitches.
//!
//! It stands on cat_events, and on cat_affected for what an event reached. A settle goes from event to event over one progress,
//! whose state and links each event changes in place, so that where memory runs out or an event is refused, exactly the events
//! before stand: those of the abstract catalogue's settle that is limited to as many. The references that its events reach are
//! gathered where they are asked for: beyond these all that a store keeps but the counters is as before.
#![tactic(auto)]

pub mod order;
pub mod reaching;
pub mod rounds;
pub mod settle;
pub mod stitches;
pub mod turn;
