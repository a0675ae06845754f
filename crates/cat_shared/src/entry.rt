//! What stands in a journal.
use cat_desk::command::Reply;
use cat_tree::text::Text;
use cat_types::input::Mutation;
use cat_types::reference::Ref;

/// A command that changes what the catalogue is given, makes a record due, or forgets.
#[derive(Drop)]
pub enum Input {
    /// The inputs of the provider of this name change.
    Mutate(Text, Mutation),
    /// A text is put on the shelf, under a name.
    ShelfPut(Text, Text),
    /// The text of this name is taken away from the shelf.
    ShelfDrop(Text),
    /// A record is due at once.
    Refresh(Ref),
    /// An orphan is deleted, or a record begins anew.
    Forget(Ref),
    /// The same of what has this number.
    ForgetNumber(u64),
}

/// What was done, with what is needed to do it again from the state before. Moments are in milliseconds.
#[derive(Drop)]
pub enum Noted {
    /// An input command acted, and was answered so.
    Acted(Input, Reply),
    /// A take gave an order, at this moment.
    Taken {
        now: u64,
    },
    /// The result of the order of this reference with this token counted, at this moment.
    Finished {
        reference: Ref,
        token: u64,
        now: u64,
    },
    /// The document of the stitch order of this reference with this ticket counted.
    Stitched {
        reference: Ref,
        ticket: u64,
    },
    /// A settle went as far as it goes, at this moment.
    Settled {
        now: u64,
    },
    /// A settle lacked memory, at this moment: just its first events stand, as many as this.
    Cut {
        now: u64,
        events: u64,
    },
    /// The keeper failed: a command's change wasn't kept, and all was as before it.
    Unkept,
    /// A settle was cut at this moment, since what follows its first event wasn't kept: just this event stands, so the number is 1.
    CutUnkept {
        now: u64,
        events: u64,
    },
}

/// What was done under the pass of this number.
#[derive(Drop)]
pub struct Entry {
    pub pass: u64,
    pub noted: Noted,
}
