//! A sample catalogue: made from a seed, settled, and told in one line, to try a machine or a change at any size.
//!
//! A generator of numbers draws for each Component the Group that owns it and a Component before it that it depends on. The
//! provider `sample` gives ten Groups and the Components at once, and what is due is settled at the moment 0. The line has the
//! rounds, leases and stitches, the numbers of documents and of their relations, and how much each Group owns.
//!
//! It stands on cat_core. The promise: the line is that of the abstract catalogue after the same mutation and settle.
#![tactic(auto)]

mod generate;
mod settled;
mod summary;

pub use settled::sample;
