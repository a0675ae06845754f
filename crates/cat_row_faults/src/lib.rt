//! Which row of a store is at fault: the first, in order of table and key, that has no reading, breaks a rule of stores, or passes the
//! limit on input bytes; or one that a store must have and that isn't there, in the place where it would stand.
//!
//! Each text of a store is read for itself. What is asked of all rows that have a reading is then gathered in maps, and each row is
//! held against the rules with these answers, in the order of rows. A row that has no reading counts for no other row. Of two rows with
//! one number both break a rule, so the first of them is named. Stores of both versions are read.
//!
//! It stands on cat_row_format for the texts of rows and on cat_row_reader for what is asked of a tree. It carries the promise that a
//! store which doesn't open is refused by the name of the first row that is at fault (`first::wrong_row`), or where none is by the
//! first that differs from those of the state which the rows stand for (`difference::first_difference`).
#![tactic(auto)]

mod climb;
mod collect;
pub mod difference;
pub mod first;
mod noted;
mod readings;
mod rules;
mod tellers;
mod told;
mod weigh;
