//! Tests of what crosses crates, over ends in memory and over those of the machine.
//!
//! `tool` has the words that are commands. `host` and `work` have the tests of one crate each, by its public calls, and `refusals` those
//! that only large inputs or spent counters bring about. `kept_in_memory` and `kept_in_journal` each open the store of `kept_rows` over one
//! kind of keeper; `stored` and `sittings` have sessions over stores. Stores in databases are tried with the built program
//! (`tools/stores`).
//!
//! `workers`, `replayed` and `connections` each have one test, in which threads wait for each other: two workers whose orders are out at
//! once; clients beside workers, whose journal one catalogue replays; and two connections that are served at once while workers work what
//! one of them posted.
//!
//! It stands on the calls of those crates and on what their answers are made of, has no code of its own but what tests need, and promises nothing.
#![tactic(auto)]

#[cfg(test)]
mod connections;
#[cfg(test)]
mod host;
#[cfg(test)]
mod kept_in_journal;
#[cfg(test)]
mod kept_in_memory;
#[cfg(test)]
mod kept_rows;
#[cfg(test)]
mod refusals;
#[cfg(test)]
mod replayed;
#[cfg(test)]
mod sittings;
#[cfg(test)]
mod stored;
#[cfg(test)]
mod tool;
#[cfg(test)]
mod work;
#[cfg(test)]
mod workers;
