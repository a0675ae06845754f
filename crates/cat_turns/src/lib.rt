//! Turns: a value that callers have one after the other, in the order in which they ask.
//!
//! It is a lock by tickets over atomic_table, and stands on nothing else. A caller holds a `Pass`, which has a number of its own;
//! it may split off another, and join another to its own. The value tells a list, each entry of it made by one pass (`Tells`).
//!
//! It carries the promise that the list has one history: each turn finds the list as the turn before left it, what a pass has
//! seen begins it, and the entries of a pass are those that it has seen. So do the counts of passes: a pass is given exactly where
//! fewer are out than there are seats and fewer than 2^59 numbers are drawn, and no two passes of one `Turns` have one number. Who
//! waits for how long, and whether a turn ever comes, is not promised.
//!
//! The rule that each step on the table keeps is `IsFair` (specs/Law.antt), and what a step tells the pass that makes it stands in
//! specs/Steps.antt. A look at the ticket that is served takes the value out where it is the pass's own, and the store that serves
//! the next puts it back; between them the value is the caller's alone.
//! That turns may be seen by several threads, and a pass may go to another one, where the value may, is proved for whoever starts
//! threads (proofs/SentTurns.antt).
#![tactic(auto)]

mod law;
mod plays;
mod tells;
mod turns;

pub use law::{Held, Law, Stage, View};
pub use tells::Tells;
pub use turns::{Closing, NoMemory, NoSeat, Pass, Turns};
