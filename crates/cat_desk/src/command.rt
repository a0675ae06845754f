//! What a desk is told and asked, and what it answers.
use cat_core::fault::{CoreFault, Cut};
use cat_model::types::{Acted, Counts, Finished, Order, Placed, StitchOrder};
use cat_tree::text::Text;
use cat_types::input::Mutation;
use cat_types::reference::Ref;

/// What is to be done. The moment is not part of it: the desk knows it. `F` is a result with its order and `S` a document with its
/// stitch order, of types that keep that they are what is worked of these: cat_core's `Done` and `Stitched`.
#[derive(Drop)]
pub enum Command<F, S> {
    /// Change the inputs of the provider of this name.
    Mutate(Text, Mutation),
    /// Put a text on the shelf, under a name.
    ShelfPut(Text, Text),
    /// Take the text of this name away from the shelf.
    ShelfDrop(Text),
    /// Make a record due at once.
    Refresh(Ref),
    /// Delete an orphan, or let a record begin anew.
    Forget(Ref),
    /// The same of what has this number.
    ForgetNumber(u64),
    /// Lease the record that is due first and free.
    Take,
    /// Bring back the result of an order.
    Finish(F),
    /// Give the order of the mark with the least ticket above this one.
    TakeStitch(u64),
    /// Bring back the document of a stitch order.
    PutStitch(S),
    /// Process and stitch until nothing is due.
    Settle,
}

/// What is answered to a command.
#[derive(Drop)]
pub enum Reply {
    /// The mutation acted, or its serial is the last one again.
    Mutated(Acted),
    /// The shelf changed, the record is due, or what was named is forgotten.
    Changed,
    /// The order of the lease, or that nothing is due and free.
    Taken(Option<Order>),
    /// The result counts, or it is late.
    Finished(Finished),
    /// The stitch order, or that no mark has such a ticket.
    StitchTaken(Option<StitchOrder>),
    /// The document counts, or it is late.
    Placed(Placed),
    /// What the settle did; the catalogue is quiet.
    Settled(Counts),
    /// The settle was cut: just its first events stand.
    Cut(Cut),
    /// Nothing changed, for this cause.
    Refused(CoreFault),
}

/// What came of a question.
#[derive(Clone, Copy, Debug, Drop, PartialEq, Eq)]
pub enum Asked {
    /// The answer was appended.
    Written,
    /// There is no document of that reference or number.
    NotFound,
    /// The query names no facet.
    NoFacet,
    /// Want of memory.
    NoMemory,
}
