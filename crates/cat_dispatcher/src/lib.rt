//! A catalogue as a server: connections that are answered and workers that work, all over one book.
//!
//! `host` puts a catalogue with its clock and feed, which a store may keep, into a book (cat_shared), gives each of its helpers a share of it, and runs
//! them beside each other over doors that listen. A server answers messages of connections at its share (`Answering`), each connection only while it can go on; a
//! worker takes orders at its share (`Share`), works them apart from the book, and brings the results back (`Working`), until no server runs. So no
//! order is worked while others wait for the book.
//!
//! It carries the promise that what serves and what works share one history: each of them is led on by what its share does with a command or a
//! question, and by nothing else. The doors end it, closed or failing, with their cause.
//!
//! It stands on cat_shared for the book and its shares, on cat_turns for the turns, on cat_connection, cat_pieces and cat_api for messages, on cat_workers for the loops of
//! workers, and on cat_listener for the helpers beside each other.
#![tactic(auto)]

mod answering;
mod crew;
mod share;
mod working;

pub use answering::Answering;
pub use crew::{Crew, host};
pub use share::Share;
pub use working::{Part, Working};
