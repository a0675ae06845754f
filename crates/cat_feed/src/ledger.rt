//! What a feed has told, and what it answers from that.
ghost use Rattle.std.specs.Prelude.{◌≡◌, ◌++◌, ◌≤◌, ◌+◌, ◌^◌, ◌⊎◌, IfOk, IfErr, OnOk, true, false, length, Err, Ok, Some, None};
ghost use Rattle.cat_feed.specs.Changes.{above, last, numbered, sets};
ghost use Rattle.cat_feed.specs.Feed as spec;

use crate::apply::applied;
use crate::change::{Change, ChangeList, Changes, Since};
use crate::differences::Difference;
use crate::fault::FeedFault;
use cat_collections::listing::{Copied, Listing};
use cat_collections::map::Map;
use cat_types::node::Node;
use cat_types::reference::Ref;
use std::alloc::{AllocError, Global};

const LAST_NUMBER: u64 = 1 << 59;

const MOST_KEPT: usize = 10_000;

/// What a feed has told: its epoch, the number of its last change, its copy of the documents, and the changes that it keeps.
#[derive(Drop)]
pub struct Ledger {
    pub epoch: u64,
    pub number: u64,
    pub copy: Map<Ref, Node>,
    pub kept: ChangeList,
}

/// The ledger with these differences as its next changes. `Spent` comes exactly where one would have a number above 2^59.
pub fn with_changes(
    alloc: Global,
    ledger: &Ledger,
    found: &[Difference],
) -> Result<Ledger, FeedFault>
    requires { ledger.now.number ≤ 2 ^ 59 }
    ensures ok { IfOk result (λ l. (spec.is_over found.now ledger.now ≡ false) × (l ≡ spec.with_changes found.now ledger.now)) }
    ensures err { IfErr result (λ e. ((spec.is_over found.now ledger.now ≡ true) × (e ≡ FeedFault.Spent)) ⊎ (e ≡ FeedFault.NoMemory)) }
{
    let count = found.len() as u64;
    if count > LAST_NUMBER - ledger.number {
        return Err(FeedFault::Spent);
    }
    let fresh = numbered(alloc, ledger.number, found)?;
    let copy = applied(alloc, &ledger.copy, fresh.as_slice())?;
    let kept = kept_with(alloc, ledger.kept.as_slice(), fresh.as_slice())?;
    Ok(Ledger {
        epoch: ledger.epoch,
        number: ledger.number + count,
        copy,
        kept: Listing::from_vec(kept),
    })
}

// The differences as changes, whose numbers follow this one.
fn numbered(alloc: Global, from: u64, found: &[Difference]) -> Result<Vec<Change>, AllocError>
    requires { from + length found.now ≤ 2 ^ 59 }
    ensures { IfOk result (λ v. v.items ≡ numbered from found.now) }
{
    let mut changes = Vec::with_capacity(alloc, found.len())?;
    let mut number = from;
    for (reference, set) in found {
        number += 1;
        changes.push(Change {
            number,
            reference: reference.copy(alloc)?,
            set: set.duplicate(alloc)?,
        })?;
    }
    Ok(changes)
}

#[tactic(auto, using(crate::proofs::Kept::last_joined))]
// The last of the changes that were kept and the new ones.
fn kept_with(alloc: Global, kept: &[Change], fresh: &[Change]) -> Result<Vec<Change>, AllocError>
    ensures { IfOk result (λ v. v.items ≡ last 10000 (kept.now ++ fresh.now)) }
{
    let mut all = Vec::new(alloc);
    push_last(alloc, &mut all, kept, MOST_KEPT.saturating_sub(fresh.len()))?;
    push_last(alloc, &mut all, fresh, MOST_KEPT)?;
    Ok(all)
}

// Adds the last of the changes, at most so many.
fn push_last(
    alloc: Global,
    kept: &mut Vec<Change>,
    changes: &[Change],
    most: usize,
) -> Result<(), AllocError>
    ensures { OnOk result (kept.new.items ≡ kept.old.items ++ last most changes.now) }
{
    let (_, later) = changes.split_at(changes.len().saturating_sub(most));
    for change in later {
        kept.push(change.duplicate(alloc)?)?;
    }
    Ok(())
}

/// What leads from a place to the ledger's, whose copy of the documents this is: without a place, a change for each document.
/// `Gone` comes exactly where the place isn't kept, else `Ahead` exactly where it wasn't reached yet.
pub fn answer(
    alloc: Global,
    ledger: &Ledger,
    documents: &Map<Ref, Node>,
    since: Option<Since>,
) -> Result<Changes, FeedFault>
    requires copy { ledger.now.copy ≡ documents.now }
    requires kept { length ledger.now.kept ≤ ledger.now.number }
    ensures ok { IfOk result (λ c. spec.answer since ledger.now ≡ Ok c) }
    ensures err { IfErr result (λ e. (spec.answer since ledger.now ≡ Err e) ⊎ (e ≡ FeedFault.NoMemory)) }
{
    match since {
        None => whole(alloc, ledger, documents),
        Some(since) => changes_since(alloc, ledger, since),
    }
}

// The ledger's place.
fn place(ledger: &Ledger) -> Since
    ensures { result ≡ spec.place ledger.now }
{
    Since {
        epoch: ledger.epoch,
        number: ledger.number,
    }
}

// What leads from nowhere to the ledger's place.
fn whole(alloc: Global, ledger: &Ledger, documents: &Map<Ref, Node>) -> Result<Changes, FeedFault>
    requires { ledger.now.copy ≡ documents.now }
    ensures ok { IfOk result (λ c. spec.answer None ledger.now ≡ Ok c) }
    ensures err { IfErr result (λ e. e ≡ FeedFault.NoMemory) }
{
    let list = all_set(alloc, documents)?;
    Ok(Changes {
        from: None,
        to: place(ledger),
        list: Listing::from_vec(list),
    })
}

// What leads from a place to the ledger's.
fn changes_since(alloc: Global, ledger: &Ledger, since: Since) -> Result<Changes, FeedFault>
    requires { length ledger.now.kept ≤ ledger.now.number }
    ensures ok { IfOk result (λ c. spec.answer (Some since) ledger.now ≡ Ok c) }
    ensures err { IfErr result (λ e. (spec.answer (Some since) ledger.now ≡ Err e) ⊎ (e ≡ FeedFault.NoMemory)) }
{
    refuse(ledger, since)?;
    let list = above(alloc, ledger.kept.as_slice(), since.number)?;
    Ok(Changes {
        from: Some(since),
        to: place(ledger),
        list: Listing::from_vec(list),
    })
}

// Refuses a place that isn't kept or wasn't reached yet.
fn refuse(ledger: &Ledger, since: Since) -> Result<(), FeedFault>
    requires { length ledger.now.kept ≤ ledger.now.number }
    ensures { result ≡ spec.refused since ledger.now }
{
    let epoch = ledger.epoch;
    let least = ledger.number - ledger.kept.len() as u64;
    if since.epoch != epoch || since.number < least {
        return Err(FeedFault::Gone(Since {
            epoch,
            number: least,
        }));
    }
    if since.number > ledger.number {
        return Err(FeedFault::Ahead(Since {
            epoch,
            number: ledger.number,
        }));
    }
    Ok(())
}

// A change for each document, numbered from 1.
fn all_set(alloc: Global, documents: &Map<Ref, Node>) -> Result<Vec<Change>, AllocError>
    ensures { IfOk result (λ v. v.items ≡ numbered 0 (sets documents.now)) }
{
    let mut changes = Vec::with_capacity(alloc, documents.len())?;
    let mut count = 0;
    for (reference, node) in documents.iter() {
        count += 1;
        changes.push(Change {
            number: count,
            reference: reference.copy(alloc)?,
            set: Some(node.duplicate(alloc)?),
        })?;
    }
    Ok(changes)
}

// The changes whose numbers are above this one.
fn above(alloc: Global, changes: &[Change], number: u64) -> Result<Vec<Change>, AllocError>
    ensures { IfOk result (λ v. v.items ≡ above number changes.now) }
{
    let mut later = Vec::new(alloc);
    for change in changes {
        if number < change.number {
            later.push(change.duplicate(alloc)?)?;
        }
    }
    Ok(later)
}
