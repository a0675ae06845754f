//! What is told of a store that can't be opened.
//!
//! `unopened` gives the status of a command for each way in which a store isn't opened: `StoreFault` where the keeper failed, `BadRow` where a row is at
//! fault, with a line that names it, and `NoMemory` for want of memory.
//!
//! It stands on cat_store for the opening, on cat_connection for statuses, on cat_io for sinks, and on cat_layers and cat_session_model for what a store
//! is of: the real layers, and the program's limit. It carries the promise that the line is written whole, or a fault was counted, that the row it
//! names is the first at fault, and that a store is refused only where its rows are those of no state that opens.
#![tactic(auto)]

mod refusal;

pub use refusal::unopened;
