//! The desk: what may be done to a catalogue as one command, and what may be asked of it as one question, at the moment that a clock gives; with a
//! feed that tells what changed, and a spare copy for whoever takes back what wasn't kept.
//!
//! `Timed` is a desk over a catalogue and a clock: each command is an event of the abstract catalogue, the next stitch order, or a settle, at a
//! moment that the clock gave, with the defined reply; or lacks memory and changes nothing; or is a settle that was cut, of which just the first
//! events stand. What answers lines or messages is written over `Desk`, and so for any such desk.
//!
//! `Fed` also tells what changed: who asks is told what the feed answers of the catalogue's documents at that time, and the catalogue stays as it
//! is; no command and no other question changes the feed.
//!
//! `TimedDesk` is what a book asks of a catalogue with its clock and its feed, which a store may keep (cat_stored_desk): where a command wasn't kept,
//! the catalogue is as before, or has just the first event of a settle, and the reply says so (`specs/Kept.antt`). `Fed` is one that no store keeps.
//!
//! To take back a command, what the catalogue held before it must be there, and records can't be shared. In place of a copy for each command there
//! is one spare copy (`spare.rt`), to which each command that stands is done again. The spare copy, where there is one, is what the catalogue holds:
//! what a command does from one state is the same each time, where its reply says that it was done to its end (`proofs/Again.antt`).
//!
//! It stands on cat_core for the catalogue, on cat_query for questions, on cat_replies for their texts, on cat_io for the clock, and on cat_feed
//! for the feed and the text of changes.
#![tactic(auto)]

pub mod asks;
pub mod command;
pub mod desk;
pub mod fed;
pub mod feed_desk;
pub mod spare;
pub mod timed;
pub mod timed_desk;
