//! HTTP/1.x: the messages of a connection, cut from its bytes, and the bytes of replies.
//!
//! `next_message` says what stands at the front of the bytes of a connection: a whole message and how many bytes it
//! takes, less than a message, or a message that is refused by the first check that it fails. `write_reply` appends the
//! bytes of a reply.
//!
//! The promise: a message is exactly what the definitions of specs/ say of the bytes, of which there is one thing for
//! each buffer; what is whole or refused stays so whatever follows it; more bytes are wanted exactly where no prefix is
//! whole or refused. A reply is written whole or not at all, and always where there is room for it.
//!
//! It stands on cat_tree for its texts, on `httparse`, whose grammar says what a head is, and on `itoa`. It knows nothing of a
//! catalogue.
#![tactic(auto)]

pub mod body;
pub mod content;
pub mod fields;
pub mod fixed;
pub mod head;
pub mod message;
pub mod reply;
pub mod request_target;
pub mod status;
