//! A history: contracts see each entry that was ever added, and just the newest ones take memory.
//!
//! A server that runs for years can't keep each thing that it did, and what is proved of it speaks of all of them. So a history has two parts: a list that
//! only contracts see (`GhostList`), which has every entry, and the newest entries in memory. Those are the end of that list, and how many stand before
//! them is known (`History::gone`), so an entry is found by its number in the whole list.
//!
//! How many entries are kept, and how much they may weigh together, is given when the history is made (`Limits`).
//!
//! It stands on std alone.
#![tactic(auto)]

mod ghost_list;
mod history;

pub use ghost_list::GhostList;
pub use history::{History, Limits};
