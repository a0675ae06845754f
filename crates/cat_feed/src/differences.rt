//! What differs between a copy of documents and the documents, found in one walk over both.
ghost use Rattle.std.specs.Prelude.{◌≡◌, ◌++◌, ◌∷◌, [], List, None, Some, IfOk, OnOk};
ghost use Rattle.cat_collections.specs.Left.{items_left};
ghost use Rattle.cat_feed.specs.Changes.{Difference, Documents, differences, sets};
ghost use Rattle.cat_feed.specs.Rest.{left};
ghost use Rattle.cat_feed.specs.Walk.{unless_same, walked_at};

use cat_collections::key::Key;
use cat_collections::listing::Copied;
use cat_collections::map::Map;
use cat_collections::tree::Items;
use cat_types::node::Node;
use cat_types::reference::Ref;
use std::alloc::{AllocError, Global};
use std::cmp::Ordering;

/// What is new under a reference: the document, or that there is none any more.
pub type Difference = (Ref, Option<Node>);

// The documents that a walk has not met yet: the first of them, and those after it.
#[derive(Drop)]
struct Rest<'a> {
    first: Option<&'a (Ref, Node)>,
    after: Items<'a, (Ref, Node)>,
}

/// What is new under each reference whose document differs from the copy's, in order of reference.
#[tactic(auto, using(crate::proofs::Walked::walk_finds))]
pub fn differences(
    alloc: Global,
    copy: &Map<Ref, Node>,
    documents: &Map<Ref, Node>,
) -> Result<Vec<Difference>, AllocError>
    ensures { IfOk result (λ v. v.items ≡ differences copy.now documents.now) }
{
    copy.in_order();
    documents.in_order();
    let mut found = Vec::new(alloc);
    let mut rest = all(documents);
    for (reference, node) in copy.iter() {
        push_met(alloc, &mut found, reference, node, &mut rest)?;
    }
    push_sets(alloc, &mut found, &mut rest)?;
    Ok(found)
}

// All documents.
fn all(documents: &Map<Ref, Node>) -> Rest<'_>
    ensures { left result ≡ documents.now }
{
    let mut after = documents.iter();
    let first = after.next();
    Rest { first, after }
}

// Goes past the first document.
fn pass(rest: &mut Rest<'_>)
    ensures { left rest.new ≡ items_left rest.old.after }
{
    rest.first = rest.after.next();
}

// Walks over the documents up to a reference of the copy, and adds what is new there.
fn push_met(
    alloc: Global,
    found: &mut Vec<Difference>,
    reference: &Ref,
    node: &Node,
    rest: &mut Rest<'_>,
) -> Result<(), AllocError>
    ensures { OnOk result ((next : Documents → List Difference)
        → found.new.items ++ next (left rest.new) ≡ found.old.items ++ walked_at (reference.now, node.now) next (left rest.old)) }
{
    while let Some(entry) = rest.first {
        match reference.compare(&entry.0) {
            Ordering::Less => return push_gone(alloc, found, reference),
            Ordering::Equal => {
                pass(rest);
                return push_unless_same(alloc, found, node, entry);
            }
            Ordering::Greater => {
                push_set(alloc, found, entry)?;
                pass(rest);
            }
        }
    }
    push_gone(alloc, found, reference)
}

// Adds that there is no document any more.
fn push_gone(alloc: Global, found: &mut Vec<Difference>, reference: &Ref) -> Result<(), AllocError>
    ensures { OnOk result (found.new.items ≡ found.old.items ++ (reference.now, None) ∷ []) }
{
    found.push((reference.copy(alloc)?, None))?;
    Ok(())
}

// Adds a document.
fn push_set(
    alloc: Global,
    found: &mut Vec<Difference>,
    entry: &(Ref, Node),
) -> Result<(), AllocError>
    ensures { OnOk result (found.new.items ≡ found.old.items ++ (entry.now.0, Some entry.now.1) ∷ []) }
{
    found.push((entry.0.copy(alloc)?, Some(entry.1.duplicate(alloc)?)))?;
    Ok(())
}

// Adds a document, unless it is the same as an old one.
fn push_unless_same(
    alloc: Global,
    found: &mut Vec<Difference>,
    old: &Node,
    entry: &(Ref, Node),
) -> Result<(), AllocError>
    ensures { OnOk result (found.new.items ≡ found.old.items ++ unless_same old.now entry.now) }
{
    if old.same(&entry.1) {
        return Ok(());
    }
    push_set(alloc, found, entry)
}

// Adds each of the documents that are left.
fn push_sets(
    alloc: Global,
    found: &mut Vec<Difference>,
    rest: &mut Rest<'_>,
) -> Result<(), AllocError>
    ensures { OnOk result (found.new.items ≡ found.old.items ++ sets (left rest.old)) }
{
    while let Some(entry) = rest.first {
        push_set(alloc, found, entry)?;
        pass(rest);
    }
    Ok(())
}
