//! What a document is made of.
use crate::issue::Issue;
use crate::node::Node;
use crate::relation::Relation;
use cat_collections::listing::{Copied, Listing};
use std::alloc::{AllocError, Global};

/// The parts of a document: the processed entity, the number behind its `uid`, whether it is an orphan, its relations in
/// order, and its issues.
#[derive(Drop)]
pub struct Parts {
    pub entity: Node,
    pub number: u64,
    pub orphan: bool,
    pub relations: Listing<Relation>,
    pub issues: Listing<Issue>,
}

impl Copied for Parts {
    fn duplicate(&self, alloc: Global) -> Result<Parts, AllocError> {
        let entity = self.entity.duplicate(alloc)?;
        let relations = self.relations.duplicate(alloc)?;
        let issues = self.issues.duplicate(alloc)?;
        Ok(Parts {
            entity,
            number: self.number,
            orphan: self.orphan,
            relations,
            issues,
        })
    }
}
