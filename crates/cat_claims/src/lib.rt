//! Who holds what where the rows of one origin are replaced, at the cost of what that reaches.
//!
//! It stands on the abstract catalogue and on its laws of mending. The promise: the rows, the holders and the references whose holder
//! changes are those that the rules of holding give for all rows, though only the rows of the references whose offers change are looked at,
//! and what hangs below those that lose their row.
#![tactic(auto)]

pub mod claims;
pub mod cut;
mod dropped;
mod mend;
pub mod replaced;
pub mod types;
mod waiting;
