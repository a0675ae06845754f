//! What the messages of the catalogue's HTTP interface ask for, and how they are answered.
//!
//! A message is a command, a question, an ask for changes or for a file of the page, or refused: by its path, its method, the pieces of its path, its parameters or its
//! body, the first that doesn't fit. What is answered becomes the status, the body and the methods of a reply. The crate
//! promises that both are what definitions compute from the message and the answer. It knows nothing of a catalogue.
//!
//! It stands on cat_http for messages and replies, on cat_inputs for the bodies of mutations, on cat_session_lines and cat_query
//! for queries, on cat_feed for places of a feed, on cat_types for names and references, on `matchit` for routes, and on
//! `percent_encoding` for the pieces of paths.
#![tactic(auto)]

pub mod answer;
pub mod body;
mod parameters;
pub mod path;
pub mod refusal;
pub mod request;
pub mod routes;
pub mod uid;
