//! The loops of workers: orders are taken at a desk, worked, and what was worked is brought back.
//!
//! A desk of workers (`WorkDesk`) is seen by one relation, what a deed may do to it and answer; so a catalogue with a clock is one,
//! and so is a share of a catalogue that others change meanwhile. An order is worked before the command that brings its result back.
//! A worker tells a gate of each call before it makes it, and asks the gate whether it goes on where it was idle.
//!
//! The loops promise that a worker makes takes and brings back, each call told to its gate, and nothing else; that an order taken is
//! followed by the result of just this order, if there was memory to work it; that after an idle round, in which nothing was taken, a
//! call was refused or memory lacked, the worker goes on only where its gate says `On`; and that it ends only after such a round, where
//! its gate says `Stop`. That it ever comes to one is not promised.
//!
//! The crate stands on cat_desk for commands and replies, and on cat_core for what is worked of an order.
#![tactic(auto)]

pub mod desk;
pub mod gate;
pub mod round;
pub mod stitch;
pub mod work;
