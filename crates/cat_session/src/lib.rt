//! The catalogue behind session lines: a machine whose state is a desk, and the orders and stitch orders that were handed out.
//! It reads a line by cat_session_lines as a command or a question, hands it to the desk of cat_desk, and writes the reply by
//! cat_replies. Whoever takes back lines that weren't kept has a spare copy of what the catalogue holds, on which a line is carried out again (`again`).
//!
//! It carries the promise that what a line does to the catalogue and what is answered are the abstract session's
//! (cat_session_model).
#![tactic(auto)]

pub mod again;
mod orders;
mod replies;
mod session;

pub use session::{Outcome, Session};
