//! Changes of documents, and places among them.
ghost use Rattle.std.specs.Prelude.{◌≡◌, IfOk, map};

use cat_collections::listing::{Copied, Listing};
use cat_types::node::Node;
use cat_types::reference::Ref;
use std::alloc::{AllocError, Global};
use std::fmt;

/// A change under a reference: the document that is there now, or that none is there any more. A feed numbers its changes in the
/// order in which it found them.
#[derive(Drop)]
pub struct Change {
    pub number: u64,
    pub reference: Ref,
    pub set: Option<Node>,
}

/// Changes in order.
pub type ChangeList = Listing<Change>;

/// A place in a feed: the feed's epoch, and the number of its last change that is known there.
#[derive(Clone, Copy, Debug, Drop, PartialEq, Eq)]
pub struct Since {
    pub epoch: u64,
    pub number: u64,
}

impl fmt::Display for Since {
    fn fmt<W: fmt::Write>(&self, f: &mut fmt::Formatter<W>) -> fmt::Result {
        write!(f, "{}.{}", self.epoch, self.number)
    }
}

/// What leads from one place to another: the changes between them; or, from nowhere, a change for each document.
#[derive(Drop)]
pub struct Changes {
    pub from: Option<Since>,
    pub to: Since,
    pub list: ChangeList,
}

impl Copied for Change {
    fn duplicate(&self, alloc: Global) -> Result<Change, AllocError> {
        Ok(Change {
            number: self.number,
            reference: self.reference.copy(alloc)?,
            set: self.set.duplicate(alloc)?,
        })
    }
}
