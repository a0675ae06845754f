//! The messages of a connection, of which bytes come in pieces.
//!
//! `next_step` has a machine answer the message that stands whole at the front of the bytes that have come, or says that none does, of which part of
//! one more is wanted, and how many bytes at the front belong to none. It keeps nothing between two calls: the bytes stand with the connection, so
//! that a connection which waits for more of them needs no thread. It promises that a step answers just the message at the front, with the bytes of its
//! reply, and that the machine does nothing else.
//!
//! `turns_are_messages` is the theorem: whatever pieces the bytes come in, the turns of a connection answer just the messages of its bytes, in their
//! order, up to the one that ends it, with the replies that the machine makes of them in that order. With `turns_are_one` of cat_listener it holds of any
//! number of turns.
//!
//! It stands on cat_connection for machines and for the messages of bytes, on cat_http for their reading, and on cat_listener for turns.
#![tactic(auto)]

mod laws;
mod next;

pub use laws::turns_are_messages;
pub use next::next_step;
