//! The events that change what the catalogue is given: mutations of providers' inputs, changes of the shelf, and forgets.
//!
//! It stands on cat_events, by whose plans and refusals each of them goes. Each is one function that makes of a state and its links what the event
//! comes to, which is the step of the abstract catalogue, exactly, or answers the refusal; where memory runs out, nothing has changed.
#![tactic(auto)]

pub mod change;
pub mod given;
pub mod items;
pub mod mutation;
