//! A desk whose catalogue is kept in a store.
//!
//! What a command changes of what is stored is committed as one batch before it is answered; a command whose change the keeper refuses is
//! answered `CoreFault::Keeper`, it is counted, and the catalogue is as before it. A settle is committed as one batch; where the keeper refuses it, it is
//! cut behind its first event, which changes no stored row, or answered as for want of memory where memory lacks for that event. Only those rows are made
//! and compared that a command reached (cat_affected). What a settle reached is gathered from event to event; where it wasn't, since memory lacked for that
//! or it was much, all rows are made and compared. What leaves the stored rows as they are asks nothing of the keeper.
//!
//! The catalogue is put back to a copy from before the command. The desk keeps a spare one, to which each command is done that was done to the
//! catalogue (cat_desk), so that records aren't copied for each. There is none at first, and after a settle of more than 64 leases or one that was cut, a
//! mutation of more than 64 items, and a command that wasn't kept or lacked memory: then the next command that may change the stored rows makes one.
//!
//! It stands on cat_desk for what a command does, for the feed and for what a book asks of it (`TimedDesk`), and on cat_store for the store. It
//! carries the promise that between two commands a keeper that tells its tables holds those of the catalogue's state, that the keeper's fault is
//! answered only where it counted one, and that a spare copy is what the catalogue holds.
#![tactic(auto)]

pub mod desk;
mod reaching;
mod timed;

pub use desk::KeptDesk;
