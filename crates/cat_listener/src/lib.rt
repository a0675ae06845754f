//! The doors of a server, which let connections in, the host's clock, and many connections beside each other with workers beside them.
//!
//! `Doors` are seen by their count of faults and, where they tell it, by whether they have closed. So a program that is generic over them can
//! promise that it tells a fault only where one was counted, and that it ends well only where the doors have closed. A connection is a source
//! and a sink of cat_io. The doors in memory hand out connections in memory, and fail on demand; `CountedDoors` close after so many connections.
//! A `Hall` is doors that are lent to several threads under a lock, and keeps why they let in no more. `TcpDoors` and `HostClock` are the edge
//! to the operating system: of what it does nothing is told but the counts.
//!
//! `serve` runs a list of helpers over doors that listen, each in a thread of its own where one can be made: servers, which let connections in
//! and serve one after another, and workers, which work as long as a server runs. What a server does with a connection and what a worker does
//! are matters of their own: the traits `Server` and `Worker` say each by a relation between the states before and after. `serve` promises that
//! each server was led on by its connections and nothing else, and each worker by its work; that the doors ended it, closed or failing, with
//! their cause; and that a connection which fails ends alone.
//!
//! It stands on cat_io for the ends of a connection, and on std.
#![tactic(auto)]

mod buffers;
mod counted;
mod doors;
mod ends;
mod hall;
mod helper;
mod host;
mod laws;
mod memory;
mod patience;
mod room;
mod running;
mod serving;
mod step;
mod tcp;
mod turn;
mod visit;

pub use counted::CountedDoors;
pub use doors::{Accepted, Connection, Doors, Listened};
pub use ends::{PromptSink, PromptSource, Watched, Wish};
pub use hall::{Comes, Ended, Hall, Named};
pub use helper::{Helper, Server, Worker};
pub use host::HostClock;
pub use laws::turns_are_one;
pub use memory::{MemoryConn, MemoryDoors};
pub use running::Running;
pub use serving::serve;
pub use step::{Part, Step, Text};
pub use tcp::{TcpConn, TcpDoors};
