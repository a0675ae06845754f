//! The command that serves HTTP connections, over doors and a clock, beside workers.
//!
//! `run_server` serves over an empty catalogue, or over the one that a keeper has in a store, which follows it. It listens at an address first, and
//! ends with the doors.
//!
//! It stands on cat_dispatcher for a catalogue that several have in turns, on cat_stored_desk for one that is kept, on cat_open_errors for a store that can't be
//! opened, on cat_command_line for how a server runs, and on cat_listener. It carries the promise that it ends well only where the doors have closed, that
//! each other status has its cause, and that a store which isn't opened is as before.
#![tactic(auto)]

mod server;

pub use server::{Ended, run_server};
