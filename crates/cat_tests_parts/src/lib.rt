//! Tests of crates that don't stand on the catalogue: of what is no text, trees that no text has, and maps; and of what reads and writes: ends over
//! readers and writers, doors, servers, turns, journals, and databases. What comes of texts, and what sessions, connections, disks and keepers in memory come
//! to, is told by `cat_cases`.
//!
//! Each module has the tests of one crate, by its public calls, with calls that fail. It stands on those crates alone, so that an edit of the
//! catalogue doesn't prove it again, has no code of its own but what tests need, and promises nothing.
#![tactic(auto)]

#[cfg(test)]
mod database;
#[cfg(test)]
mod doors;
#[cfg(test)]
mod ends;
#[cfg(test)]
mod io;
#[cfg(test)]
mod journal;
#[cfg(test)]
mod serve;
#[cfg(test)]
mod table;
#[cfg(test)]
mod tree;
#[cfg(test)]
mod turns;
