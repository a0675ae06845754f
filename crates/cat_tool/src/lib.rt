//! The top call: the words of a command line, a source and a sink, a clock, doors and a keeper in, a status out.
//!
//! `run` carries the headline. Its clause `ended` says how each command ends, by a definition for each (`specs/Ends.antt`): for `session` the bytes written are the
//! abstract catalogue's replies to the lines of the bytes that the source told, for `wire` those to the messages of one HTTP connection, for `mirror` the answers to
//! lines that are changes and the list of documents that they lead to, and for `sample` the line of a sample; `serve` ends well only where the doors have
//! closed; over a store it says what the store was opened as, and that the keeper follows; each status has its cause; and what a command doesn't have, of the
//! source, the sink, the doors and the keeper, is as it was. The other clauses are laws of all runs.
//!
//! It stands on cat_command_line for the words, on cat_in_memory, cat_stored_session and cat_server for the commands: over a catalogue that nothing keeps, over a store,
//! and a server; on cat_connection and cat_io for the ends and how a command ends, on cat_listener, and on cat_model, cat_session_model and cat_reopening_laws for what
//! events, lines and messages keep.
#![tactic(auto)]

mod top;

pub use cat_connection::Status;
pub use top::run;
