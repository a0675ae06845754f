//! What is found through lists, corrected by documents that are not listed yet.
ghost use Rattle.std.specs.Prelude.{◌≡◌, IfOk, OnOk};
ghost use Rattle.cat_search.specs.Index.{corrected, corrected_at, is_accepted_at};

use crate::condition::Filter;
use crate::matches::is_accepted;
use crate::sets::Set;
use cat_collections::map::Map;
use cat_types::node::Node;
use cat_types::reference::Ref;
use std::alloc::{AllocError, Global};

// Whether the reference has a document that one of the filters accepts.
fn is_accepted_at(filters: &[Filter], documents: &Map<Ref, Node>, reference: &Ref) -> bool
    ensures { result ≡ is_accepted_at filters.now documents.now reference.now }
{
    match documents.get(reference) {
        Some(document) => is_accepted(filters, document.tree()),
        None => false,
    }
}

// The reference is found just where its document is accepted.
fn correct(
    alloc: Global,
    documents: &Map<Ref, Node>,
    reference: &Ref,
    filters: &[Filter],
    found: &mut Set,
) -> Result<(), AllocError>
    ensures { OnOk result (found.new ≡ corrected_at filters.now documents.now reference.now found.old) }
{
    if is_accepted_at(filters, documents, reference) {
        found.put(alloc, reference.copy(alloc)?, ())
    } else {
        found.remove(alloc, reference)
    }
}

/// What was found, with each of the pending references found just where its document is one that the filters accept.
pub fn corrected(
    alloc: Global,
    documents: &Map<Ref, Node>,
    pending: &Set,
    filters: &[Filter],
    found: Set,
) -> Result<Set, AllocError>
    ensures { IfOk result (λ s. s ≡ corrected filters.now documents.now pending.now found) }
{
    let mut found = found;
    for (reference, _) in pending.iter() {
        correct(alloc, documents, reference, filters, &mut found)?;
    }
    Ok(found)
}
