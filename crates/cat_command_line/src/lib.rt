//! The words of a command line, as a command.
//!
//! `command_of` reads them: the first is the command, and the words behind it are read by `clap`, by a command of its own for each, with an option
//! for each thing that may be said. A `Command` owns all that its words say: the catalogue that it is over (`CatalogueOptions`: its rule for orphans, and the place where
//! it is kept), and for a server its address and how it serves (`Serving`, `ServerOptions`). Other words are no command.
//!
//! It stands on clap for what stands among words, on cat_session_lines for numbers, on cat_model for rules for orphans, on cat_keeper for places, and on cat_tree
//! for texts. The promise: words are taken exactly where clap's own definition of their command takes them and each value has its form, and the command
//! is the function of them that its definition computes; only want of memory is free. A server has one connection at least.
#![tactic(auto)]

mod given;
mod options;
mod words;

pub use options::{CatalogueOptions, ServerOptions, Serving};
pub use words::{Command, Sample, WordFault, command_of};
