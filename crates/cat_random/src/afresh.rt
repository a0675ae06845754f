//! Documents beside those that a plain program computes from scratch.
use cat_layers::layered::Layered;
use cat_model::types::State;
use cat_recompute::documents::documents_afresh;
use std::alloc::{AllocError, Global};

/// Whether the documents, but for those of orphans, are just those computed afresh.
pub fn are_fresh(alloc: Global, state: &State) -> Result<bool, AllocError> {
    let fresh = documents_afresh(alloc, &Layered, state)?;
    let mut count = 0usize;
    for (reference, document) in state.documents.documents().iter() {
        if state.orphans.get(reference).is_none() {
            match fresh.get(reference) {
                Some(other) if other.same(document) => count = count.saturating_add(1),
                _ => return Ok(false),
            }
        }
    }
    Ok(count == fresh.len())
}
