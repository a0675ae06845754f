//! The commands over a catalogue that nothing keeps: a session, a connection, a sample, and a mirror.
//!
//! `run_session` answers the lines of a source over an empty catalogue, `run_connection` the messages of one HTTP connection, `tell_sample` writes
//! the line of a sample, and `run_mirror` follows the feed whose changes are the lines of the source. Each ends with a status.
//!
//! It stands on cat_session and cat_api, whose machines are the catalogue over the real layers of cat_layers, on cat_connection and cat_io for the loops, the
//! ends and how a command ends, on cat_desk for a catalogue with its feed, on cat_mirror for a mirror, and on cat_sample. It carries the promise that
//! the bytes written are the abstract catalogue's replies to the lines or messages of the bytes that the source told, and of a sample its line; of a mirror the
//! answers to lines that are changes and the list of documents that they lead to; each status has its cause; and of the program's sessions what cat_session_model says of
//! all, whatever their lines.
#![tactic(auto)]

mod empty;
pub mod law;
mod mirror;

pub use empty::{run_connection, run_session, tell_sample};
pub use mirror::run_mirror;
