//! Changes applied to documents.
ghost use Rattle.std.specs.Prelude.{◌≡◌, IfOk, OnOk};
ghost use Rattle.cat_feed.specs.Changes.{applied, with_set};

use crate::change::Change;
use cat_collections::listing::Copied;
use cat_collections::map::Map;
use cat_types::node::Node;
use cat_types::reference::Ref;
use std::alloc::{AllocError, Global};

/// The documents after the changes, one after the other. They share what the changes leave as it is, and the trees that the
/// changes set.
pub fn applied(
    alloc: Global,
    documents: &Map<Ref, Node>,
    changes: &[Change],
) -> Result<Map<Ref, Node>, AllocError>
    ensures { IfOk result (λ m. m ≡ applied changes.now documents.now) }
{
    let mut next = documents.share()?;
    for change in changes {
        apply(alloc, &mut next, change)?;
    }
    Ok(next)
}

// Makes a change of the documents. Where memory is wanted they are as before.
fn apply(alloc: Global, documents: &mut Map<Ref, Node>, change: &Change) -> Result<(), AllocError>
    ensures { OnOk result (documents.new ≡ with_set change.now.reference change.now.set documents.old) }
{
    match &change.set {
        Some(node) => {
            let reference = change.reference.copy(alloc)?;
            let node = node.duplicate(alloc)?;
            documents.put(alloc, reference, node)
        }
        None => documents.remove(alloc, &change.reference),
    }
}
