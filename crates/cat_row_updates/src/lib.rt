//! What the rows of a store tell of a state, and the rows of a state after an event, from those of the state before it.
//!
//! The texts of stored rows (cat_row_format, cat_stored_rows) leave nothing open: of a state in order they tell all that is stored of the state, and so
//! the state that it opens again as, in either version of a store, and in the second the rule for orphans too. A store's opening (cat_store)
//! tests that the rows of what it opens are those that were read. What that test is worth stands in `law`, as contracts of functions with empty
//! bodies: whatever has the rows of a catalogue's state, and is opened, is that state as it opens again, and nothing else.
//!
//! `renewed_rows` makes the rows of the state after an event from those of the state before it, of which it shares all that stays. It looks only
//! at the places of what the event reached (cat_affected), each by look-ups in the state: a record by one for each row that it gave, an item that
//! went by one for each row of its reference, and all others by one or two. It tells the keys of these places too, so that only the rows under
//! them need be compared and written. The promise: what it gives is exactly the rows of the state after the event, as
//! `cat_stored_rows::stored::stored_rows` would make them anew; and under each key that it doesn't tell, the rows before and after are the same.
//!
//! It stands on cat_model, whose states are stored, on cat_row_format and cat_stored_rows for the rows of a state, on cat_row_reader for what rows are read
//! to, and on the law of cat_affected of which references an event can reach.
#![tactic(auto)]

mod item;
pub mod law;
mod order;
mod place;
mod places;
pub mod reached;
mod records;
pub mod renew;
mod row;
