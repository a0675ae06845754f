//! The commands of a session, and what it asks.
use cat_query::ask::Ask;
use cat_tree::text::Text;
use cat_types::input::Mutation;
use cat_types::reference::Ref;

/// What a line is, with its arguments: a command, or a question.
#[derive(Drop)]
pub enum Line {
    /// Apply a provider's mutation.
    Mutate(Text, Mutation),
    /// Put a text on the shelf, under a shelf name.
    ShelfPut(Text, Text),
    /// Take the text of this shelf name away.
    ShelfDrop(Text),
    /// Make a record due at once.
    Refresh(Ref),
    /// Delete an orphan, or let a record begin anew.
    Forget(Ref),
    /// Set the session's clock, in milliseconds.
    Clock(u64),
    /// Lease the next record that is due.
    Take,
    /// Bring back the result of the order with this token.
    Finish(u64),
    /// Take the next mark after this ticket.
    Stitch(u64),
    /// Bring back the document of the order with this ticket.
    Place(u64),
    /// Process and stitch until nothing is due.
    Settle,
    /// Ask the catalogue.
    Ask(Ask),
}
