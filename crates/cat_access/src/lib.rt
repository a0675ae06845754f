//! Who may ask what over HTTP.
//!
//! A page that a person visits can send messages through that person's browser, to addresses that only that person reaches. So a message from a
//! browser is admitted only where it asks for the server under a name that can be no other server's, and where it may change something, only
//! where the server's own page sends it, or one that is named. `is_admitted` says which messages these are.
//!
//! The promise: the answer is exactly what the definitions of specs/ say of the message and of the names that are given.
//!
//! It stands on cat_http for messages. It knows nothing of a catalogue.
#![tactic(auto)]

pub mod access;
pub mod browser;
pub mod token;
