//! What rows say.
use cat_collections::listing::Listing;
use cat_tree::text::Text;
use cat_types::issue::Issue;
use cat_types::node::Node;
use cat_types::reference::Ref;
use std::alloc::{AllocError, AllocFailed};
use thiserror::Error;

/// A counter whose next number is stored.
#[derive(Clone, Copy, Debug, Drop, PartialEq, Eq)]
pub enum StoredCounter {
    /// Of the rows that providers and records give.
    Arrival,
    /// Of records and orphans.
    Number,
}

/// What becomes of a record that leaves where its parent no longer gives it.
#[derive(Clone, Copy, Debug, Drop, PartialEq, Eq)]
pub enum OrphanRule {
    /// It is kept as an orphan.
    Keep,
    /// It is deleted.
    Delete,
}

/// An offer of a record: its arrival number, its location key and its reference, and in the first version its tree.
#[derive(Drop)]
pub struct StoredOffer {
    pub arrival: u64,
    pub key: Text,
    pub reference: Ref,
    pub tree: Option<Node>,
}

/// What a record gave last: the processed entity, and what it offers.
#[derive(Drop)]
pub struct StoredOutput {
    pub entity: Node,
    pub offers: Listing<StoredOffer>,
}

/// A row of a store.
#[derive(Drop)]
pub enum StoredRow {
    /// The next number of a counter.
    Counter(StoredCounter, u64),
    /// The last serial number of a provider.
    Provider {
        name: Text,
        serial: u64,
    },
    /// An item of a provider, whose tree has a row of its own.
    Item {
        provider: Text,
        reference: Ref,
        arrival: u64,
        key: Text,
    },
    /// A text of the shelf.
    Shelf {
        name: Text,
        body: Text,
    },
    /// A record: the arrival number of the row that holds its reference, its issues, its number, and what it gave last. The
    /// trees of its offers have rows of their own.
    Record {
        reference: Ref,
        holder: u64,
        issues: Listing<Issue>,
        number: u64,
        output: Option<StoredOutput>,
    },
    /// An orphan: its last entity, and its number.
    Orphan {
        reference: Ref,
        entity: Node,
        number: u64,
    },
    /// The rule for orphans of a store of the second version.
    Settings(OrphanRule),
    /// The tree of the item or the offer with this arrival number.
    Tree {
        arrival: u64,
        tree: Node,
    },
    /// An item of a provider in a store of the first version.
    ItemOne {
        provider: Text,
        reference: Ref,
        arrival: u64,
        key: Text,
        tree: Node,
    },
    /// A record with offers in a store of the first version.
    RecordOne {
        reference: Ref,
        holder: u64,
        issues: Listing<Issue>,
        number: u64,
        output: StoredOutput,
    },
}

/// Why texts give no row.
#[derive(Clone, Copy, Debug, Drop, PartialEq, Eq, Error)]
pub enum RowFault {
    /// They are not the spelling of a row.
    #[error("not the spelling of a row")]
    BadRow,
    /// Memory is wanted.
    #[error("out of memory")]
    NoMemory,
}

impl From<AllocError> for RowFault {
    ghost use Rattle.std.specs.Prelude.{◌≡◌};
    ghost use Rattle.cat_row_format.specs.declared.row.RowFault.TheVariants.{NoMemory};

    ghost from_gives = { λ _ e. e ≡ NoMemory };

    fn from(_refused: AllocError) -> RowFault {
        RowFault::NoMemory
    }
}

impl<T: Drop> From<AllocFailed<T>> for RowFault {
    ghost use Rattle.std.specs.Prelude.{◌≡◌};
    ghost use Rattle.cat_row_format.specs.declared.row.RowFault.TheVariants.{NoMemory};

    ghost from_gives = { λ _ e. e ≡ NoMemory };

    fn from(_refused: AllocFailed<T>) -> RowFault {
        RowFault::NoMemory
    }
}
