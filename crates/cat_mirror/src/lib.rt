//! A mirror that follows a feed by lines: each line is changes as text, which the mirror applies where they lead on from its place, and
//! at the end of the input come the documents that it has.
//!
//! `follow` reads the bytes of a source, cuts them into lines, answers each line before it reads on, and writes at the end the list of
//! the documents. A line may be as long as a whole feed's text, so its memory is taken as it comes, and want of memory may end the work
//! at any line. It stands on cat_feed, which reads a line as changes and applies them, on cat_io for what the
//! lines of bytes are, on cat_query for the text of documents, and on cat_io for the ends.
//!
//! The promise: where all input was read, the bytes written are the answers to its lines and the list of the documents of a mirror that
//! applied them in order; else they are a front of that, and each way to stop has its cause.
#![tactic(auto)]

mod answer;
pub mod law;
mod line;
mod lines;
mod stop;

pub use line::LINE_LIMIT;
pub use lines::follow;
pub use stop::Stop;
