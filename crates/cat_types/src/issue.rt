//! What processing an entity has to say of it, as the status items of a document show it.
use cat_collections::listing::Copied;
use cat_tree::text::Text;
use std::alloc::{AllocError, Global};

/// How grave an issue is.
#[derive(Clone, Copy, Drop, PartialEq, Eq)]
pub enum Level {
    Error,
    Warning,
}

/// What an issue is about.
#[derive(Clone, Copy, Drop, PartialEq, Eq)]
pub enum IssueName {
    /// A rule of the descriptor format is broken.
    SchemaFault,
    /// A reference field has no reading.
    ReferenceFault,
    /// A Location has no targets.
    TargetFault,
    /// Nothing stands on the shelf for a target that isn't optional.
    MissingTarget,
    /// The text on the shelf isn't a list of descriptors.
    ShelfFault,
    /// A reference was offered before.
    DuplicateOffer,
}

/// An issue of a record.
#[derive(Drop)]
pub struct Issue {
    pub level: Level,
    pub name: IssueName,
    pub message: Text,
}

impl Copied for Issue {
    fn duplicate(&self, alloc: Global) -> Result<Issue, AllocError> {
        let message = self.message.duplicate(alloc)?;
        Ok(Issue {
            level: self.level,
            name: self.name,
            message,
        })
    }
}
