//! Relations between entities, after the well-known relations of the Backstage documentation.
ghost use Rattle.std.specs.Prelude.{◌≡◌, IfOk};
ghost use Rattle.cat_types.specs.Relation.{kind_text};

use crate::reference::Ref;
use cat_collections::listing::Copied;
use std::alloc::{AllocError, Global};

/// The kind of a relation, by the well-known relations of the Backstage documentation.
#[derive(Clone, Copy, Debug, Drop, PartialEq, Eq)]
pub enum RelKind {
    OwnedBy,
    OwnerOf,
    PartOf,
    HasPart,
    ProvidesApi,
    ApiProvidedBy,
    ConsumesApi,
    ApiConsumedBy,
    DependsOn,
    DependencyOf,
    ChildOf,
    ParentOf,
    HasMember,
    MemberOf,
}

impl RelKind {
    /// The name under which documents show the relation, as `ownedBy`.
    pub fn text(self) -> &'static str
        ensures { result.now ≡ kind_text self }
    {
        match self {
            RelKind::OwnedBy => "ownedBy",
            RelKind::OwnerOf => "ownerOf",
            RelKind::PartOf => "partOf",
            RelKind::HasPart => "hasPart",
            RelKind::ProvidesApi => "providesApi",
            RelKind::ApiProvidedBy => "apiProvidedBy",
            RelKind::ConsumesApi => "consumesApi",
            RelKind::ApiConsumedBy => "apiConsumedBy",
            RelKind::DependsOn => "dependsOn",
            RelKind::DependencyOf => "dependencyOf",
            RelKind::ChildOf => "childOf",
            RelKind::ParentOf => "parentOf",
            RelKind::HasMember => "hasMember",
            RelKind::MemberOf => "memberOf",
        }
    }
}

/// That `source` stands in the relation `kind` to `target`.
#[derive(Drop)]
pub struct Relation {
    pub source: Ref,
    pub kind: RelKind,
    pub target: Ref,
}

impl Copied for Relation {
    fn duplicate(&self, alloc: Global) -> Result<Relation, AllocError> {
        let source = self.source.duplicate(alloc)?;
        let target = self.target.duplicate(alloc)?;
        Ok(Relation {
            source,
            kind: self.kind,
            target,
        })
    }
}
