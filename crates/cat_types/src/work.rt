//! What processing takes, and what comes of it.
use crate::entries::Entries;
use crate::input::Offered;
use crate::issue::Issue;
use crate::node::Node;
use crate::reference::Ref;
use cat_collections::listing::{Copied, Listing};
use cat_tree::text::Text;
use std::alloc::{AllocError, Global};

/// What the shelf has under the name of a target: a text, or nothing.
#[derive(Drop)]
pub struct Content {
    pub name: Text,
    pub body: Option<Text>,
}

/// The input of a record: its tree, and the contents of its targets in order.
#[derive(Drop)]
pub struct Work {
    pub tree: Node,
    pub contents: Listing<Content>,
}

/// What a good result gives: the processed entity, and what it offers, in order, each reference once.
#[derive(Drop)]
pub struct Output {
    pub entity: Node,
    pub offers: Entries<Ref, Offered>,
}

/// The result of a work: an output with its warnings, or issues alone.
#[derive(Drop)]
pub enum Outcome {
    Good(Output, Listing<Issue>),
    Bad(Listing<Issue>),
}

impl Copied for Content {
    fn duplicate(&self, alloc: Global) -> Result<Content, AllocError> {
        let name = self.name.duplicate(alloc)?;
        let body = self.body.duplicate(alloc)?;
        Ok(Content { name, body })
    }
}

impl Copied for Work {
    fn duplicate(&self, alloc: Global) -> Result<Work, AllocError> {
        let tree = self.tree.duplicate(alloc)?;
        let contents = self.contents.duplicate(alloc)?;
        Ok(Work { tree, contents })
    }
}

impl Copied for Output {
    fn duplicate(&self, alloc: Global) -> Result<Output, AllocError> {
        let entity = self.entity.duplicate(alloc)?;
        let offers = self.offers.duplicate(alloc)?;
        Ok(Output { entity, offers })
    }
}
