//! A candidate as a state of a catalogue, where it is one.
ghost use Rattle.std.specs.Prelude.{◌≡◌, true, IfOk, IfSome, is_some};
ghost use Rattle.cat_model.specs.Step.{reopened};
ghost use Rattle.cat_model.specs.Sound.{AreBegun};
ghost use Rattle.cat_events.specs.Coming.{IsSteady};
ghost use Rattle.cat_state_check.specs.Candidate.{is_candidate};

use crate::candidate::is_candidate;
use crate::documents::documents_of;
use crate::links::links_of;
use cat_links::links::Links;
use cat_model::types::State;
use cat_plan::layers::Layers;
use std::alloc::{AllocError, Global};

/// A state, in a box, so that it is moved as one, and the relations of its kept outputs.
#[derive(Drop)]
pub struct Opening {
    pub state: Box<State>,
    pub links: Links,
}

// The candidate with its documents, and its links.
fn with_documents<L: Layers>(
    alloc: Global,
    layers: &L,
    candidate: Box<State>,
) -> Result<Opening, AllocError>
    requires { is_candidate candidate.value ≡ true }
    ensures steady { IfOk result (λ x. IsSteady L.rules x.links x.state.value) }
    ensures begun { IfOk result (λ x. AreBegun x.state.value) }
    ensures state { IfOk result (λ x. x.state.value ≡ reopened L.rules candidate.value) }
{
    let links = links_of(alloc, layers, &candidate)?;
    let documents = documents_of(alloc, layers, &links, &candidate)?;
    let mut state = candidate;
    state.documents = documents;
    Ok(Opening { state, links })
}

/// The state that a store's candidate opens as: all documents are stitched, nothing is leased or marked, all is due. None where
/// the candidate is no state of a catalogue, or has leases, marks, documents, tokens or tickets. The only refusal is want of
/// memory.
pub fn opened<L: Layers>(
    alloc: Global,
    layers: &L,
    candidate: Box<State>,
) -> Result<Option<Opening>, AllocError>
    ensures steady { IfOk result (λ o. IfSome o (λ x. IsSteady L.rules x.links x.state.value)) }
    ensures begun { IfOk result (λ o. IfSome o (λ x. AreBegun x.state.value)) }
    ensures state { IfOk result (λ o. IfSome o (λ x. x.state.value ≡ reopened L.rules candidate.value)) }
    ensures exact { IfOk result (λ o. is_some o ≡ is_candidate candidate.value) }
{
    if is_candidate(alloc, &candidate)? {
        Ok(Some(with_documents(alloc, layers, candidate)?))
    } else {
        Ok(None)
    }
}
