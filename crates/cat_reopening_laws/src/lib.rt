//! Whatever a session of the real catalogue comes to can be stored and opened again, and so can whatever later runs over the same store come to.
//!
//! It stands on cat_form_laws for the forms of all that a session keeps, on cat_model and cat_session_model for what events and lines keep, on cat_stored_session for
//! what lines and messages do to a catalogue that is kept, and on cat_row_updates for what is asked of a state before a store with its rows must open. It
//! carries two promises. Each state after any lines, under either rule for orphans, is such a state: a store that has its rows is never refused for a
//! row. And so is each state that runs over one store come to, sessions and connections one after the other, whatever wasn't kept of them: the store
//! that they wrote is never refused, and the next run begins with what its state opens again as. Wherever such a state is quiet, or that of a connection which
//! nothing keeps, its documents are those computed afresh. It has no code: its laws are the contracts of
//! functions whose bodies do nothing.
#![tactic(auto)]

pub mod law;
