//! A connection of HTTP/1.x: messages in, a reply to each out; and how a command of the program ends.
//!
//! `connection` reads the bytes of a source, cuts them into messages, asks a machine for the reply to each, and writes it to a sink before it
//! goes on. What the machine does with a message is the machine's matter: the trait `Machine` says it by two relations, what a message may do to
//! it with which reply, and what want of memory may do to it. The loop promises that the bytes written are the replies to the messages of the
//! bytes that the source told, whatever pieces they come in, up to the message that ends the connection, and that these lead the machine from
//! its first state to its last one, in their order; that a fault is told only where an end counted one; that want of memory ends it only before
//! the first read; and that it ends at 2^40 bytes. Where a machine's steps are functions of a message and of a word that says what came of it,
//! what is written is computed from the messages and their words.
//!
//! `answer_lines` and `answer_messages` answer a source by any machine that answers lines, or messages, and say by a `Status` how that ended;
//! `tell` and `usage` write a line. Each status but that for want of memory has its cause: a fault was counted at that end. They carry the part
//! of the promise on bytes that is of no machine's own: what stands written where reading or writing ends early.
//!
//! It stands on cat_http for messages and replies, and on cat_io for the ends, for what a read takes, and for the loop of a session.
#![tactic(auto)]

mod command;
mod machine;
mod message_loop;
mod window;

pub use command::{Status, answer_lines, answer_messages, tell, usage};
pub use machine::Machine;
pub use message_loop::{ConnEnd, connection, messages_are_one};
