//! Sessions and HTTP connections whose catalogue is kept in a store.
//!
//! A `KeptSession` is a session over a catalogue, with the store that follows it. What a line changes is committed as one batch before the
//! line is answered; a line whose change the keeper refuses is answered `refused keeper`, and all is as before it. A settle is committed as one
//! batch; where the keeper refuses it, it is cut behind its first event, which changes no stored row, and answered `cut 1 keeper`, or where memory
//! lacks for that event it is not done at all, as any line that lacks memory. Only those rows are made that a line reached (cat_affected), and all
//! rows are made and compared for a settle alone, where the references that it reached weren't gathered. What takes a line back is a spare copy of what
//! the catalogue held before it, on which the line is carried out again where it was kept; only the first line that changes something copies the records, and
//! the first one behind a long line, a long settle, a take or a line that wasn't kept. `kept_connection` answers the messages of
//! a connection by a desk whose catalogue is kept, at the moment 0; a message whose change wasn't kept is answered 503 and counted.
//!
//! `run_stored` opens the store that a keeper has at a place, answers the lines of a source over the catalogue that it keeps, and hands the keeper
//! back; `run_stored_connection` does so for the messages of one connection. A store that can't be opened has its status, its tables as before, and, where a row is at fault, a line that names it. `sittings` opens a store for the first input, again for the second, and so on, with
//! one keeper, up to the first session that doesn't end whole; the program has one session for each call of it, and doesn't use it.
//!
//! The promise: the replies are those of the abstract catalogue from what the rows say, sound, in which a line or a message may stand whose change
//! wasn't kept and did nothing, or of a settle only the first event; between two lines, and at the end, a keeper that tells its tables holds those
//! of the catalogue's state, and it counted a fault for each change that wasn't kept; and nothing which was acknowledged is lost between two
//! sessions.
//!
//! It stands on cat_session for lines, on cat_api and cat_connection for messages and statuses, on cat_store for the opening, on cat_stored_desk for what it
//! means that a store follows a state, on cat_open_errors for what is told of one that can't be opened, and on cat_layers for
//! the real layers.
#![tactic(auto)]

mod about;
mod connection;
mod kept;
pub mod law;
mod sessions;
pub mod state;
mod stored;

pub use connection::{KeptService, kept_connection};
pub use kept::KeptSession;
pub use sessions::sittings;
pub use stored::{Ran, run_stored, run_stored_connection};
