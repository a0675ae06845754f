//! What providers give.
use crate::node::Node;
use crate::reference::Ref;
use cat_collections::listing::{Copied, Listing};
use cat_tree::text::Text;
use std::alloc::{AllocError, Global};

/// A descriptor that a provider gives under a reference, with a location key where it names one.
#[derive(Drop)]
pub struct Item {
    pub reference: Ref,
    pub key: Option<Text>,
    pub tree: Node,
}

/// A change of a provider's items, under a serial number of the provider.
#[derive(Drop)]
pub enum Mutation {
    /// These items replace all that the provider has.
    Full {
        serial: u64,
        items: Listing<Item>,
    },
    /// The items under these references go, and then these are added or replaced.
    Delta {
        serial: u64,
        added: Listing<Item>,
        removed: Listing<Ref>,
    },
}

/// A tree that an origin offers for a reference, under a location key.
#[derive(Drop)]
pub struct Offered {
    pub key: Text,
    pub tree: Node,
}

impl Copied for Item {
    fn duplicate(&self, alloc: Global) -> Result<Item, AllocError> {
        let reference = self.reference.duplicate(alloc)?;
        let key = self.key.duplicate(alloc)?;
        let tree = self.tree.duplicate(alloc)?;
        Ok(Item {
            reference,
            key,
            tree,
        })
    }
}

impl Copied for Offered {
    fn duplicate(&self, alloc: Global) -> Result<Offered, AllocError> {
        let key = self.key.duplicate(alloc)?;
        let tree = self.tree.duplicate(alloc)?;
        Ok(Offered { key, tree })
    }
}
