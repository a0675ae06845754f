//! The texts of replies: a line that ends with LF for each event and refusal, and the answer to each question, which has no
//! LF, so that a session's lines and other doors share it.
//!
//! It stands on cat_model, whose state and answers it writes, on cat_query for what is asked and for the answers that show
//! documents, and on cat_stitch for status items. It carries the promise that a reply is written exactly, or not at all, and
//! that the reply to an event never lacks memory where its room was taken before.
#![tactic(auto)]

pub mod conflicts;
pub mod events;
pub mod faults;
pub mod line;
pub mod lists;
