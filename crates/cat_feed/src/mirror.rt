//! Documents that follow a feed.
ghost use Rattle.std.specs.Prelude.{◌≡◌, ◌⊎◌, true, false, IfErr, IfOk, OnErr, OnOk};
ghost use Rattle.cat_feed.specs.Changes as feed;
ghost use Rattle.cat_feed.specs.Mirror as spec;

use crate::apply::applied;
use crate::change::{Changes, Since};
use cat_collections::map::Map;
use cat_types::node::Node;
use cat_types::reference::Ref;
use std::alloc::{AllocError, Global};
use thiserror::Error;

/// Documents that follow a feed, and the place in it that they stand for; none before the first changes.
#[derive(Drop)]
pub struct Mirror {
    place: Option<Since>,
    documents: Map<Ref, Node>,
}

/// Why changes aren't applied.
#[derive(Clone, Copy, Debug, Drop, PartialEq, Eq, Error)]
pub enum MirrorFault {
    /// They lead on from another place than the mirror's, which this is.
    #[error("the changes lead on from another place")]
    Gap(Option<Since>),
    /// Want of memory.
    #[error("out of memory")]
    NoMemory,
}

impl From<AllocError> for MirrorFault {
    ghost use Rattle.std.specs.Prelude.{◌≡◌};
    ghost use Rattle.cat_feed.specs.declared.mirror.MirrorFault.TheVariants.{NoMemory};

    ghost from_gives = { λ _ e. e ≡ NoMemory };

    fn from(_refused: AllocError) -> MirrorFault {
        MirrorFault::NoMemory
    }
}

impl Mirror {
    /// A mirror without a place and without documents. It takes no memory.
    pub fn empty() -> Mirror
        ensures { result ≡ spec.empty }
    {
        Mirror {
            place: None,
            documents: Map::new(),
        }
    }

    /// Applies changes: those that lead from nowhere take the place of all documents, others lead on from the mirror's place.
    /// `Gap` comes exactly where they lead on from another place. After an error the mirror is as before.
    pub fn apply(&mut self, alloc: Global, changes: &Changes) -> Result<(), MirrorFault>
        ensures ok { OnOk result ((spec.leads_on changes.now self.old ≡ true) × (self.new ≡ spec.mirrored changes.now self.old)) }
        ensures err { IfErr result (λ e. ((spec.leads_on changes.now self.old ≡ false) × (e ≡ MirrorFault.Gap self.old.place)) ⊎ (e ≡ MirrorFault.NoMemory)) }
        ensures same { OnErr result (self.new ≡ self.old) }
    {
        if !leads_on(changes, self.place) {
            return Err(MirrorFault::Gap(self.place));
        }
        let documents = led_on(alloc, changes, &self.documents)?;
        *self = Mirror {
            place: Some(changes.to),
            documents,
        };
        Ok(())
    }

    /// Lends the documents, in order of reference. It takes no memory.
    pub fn documents(&self) -> &Map<Ref, Node>
        ensures { result.now ≡ self.now.documents }
    {
        &self.documents
    }

    /// The place that the documents stand for.
    pub fn place(&self) -> Option<Since>
        ensures { result ≡ self.now.place }
    {
        self.place
    }
}

// The documents after the changes: those that lead from nowhere begin with no documents.
fn led_on(
    alloc: Global,
    changes: &Changes,
    documents: &Map<Ref, Node>,
) -> Result<Map<Ref, Node>, AllocError>
    ensures { IfOk result (λ m. m ≡ feed.applied changes.now.list (spec.applied_to changes.now.from documents.now)) }
{
    match changes.from {
        None => applied(alloc, &Map::new(), changes.list.as_slice()),
        Some(_) => applied(alloc, documents, changes.list.as_slice()),
    }
}

// Whether the changes lead on from a place, or from nowhere.
fn leads_on(changes: &Changes, place: Option<Since>) -> bool
    ensures { result ≡ spec.joins changes.now.from place }
{
    match (changes.from, place) {
        (None, _) => true,
        (Some(_), None) => false,
        (Some(from), Some(place)) => from.epoch == place.epoch && from.number == place.number,
    }
}
