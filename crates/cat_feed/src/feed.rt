//! A feed of changes.
ghost use Rattle.std.specs.Prelude.{◌≡◌, ◌≤◌, ◌⊎◌, [], ℕ, true, false, IfOk, IfErr, IsTrue, Err, Ok, Some, None, if◌then◌else◌};
ghost use Rattle.std.specs.FinMap.Entries.{is_sorted};
ghost use Rattle.cat_collections.specs.Table.{text_cmp};
ghost use Rattle.cat_feed.specs.Changes.{Documents, applied};
ghost use Rattle.cat_feed.specs.Feed.{Follows, IsKept, asked, begun, is_spent, is_taken, least, taken_in};
ghost use Rattle.cat_feed.specs.declared.change.Since.{Since as Place};

use crate::change::{Changes, Since};
use crate::differences::differences;
use crate::fault::FeedFault;
use crate::ledger::{Ledger, answer, with_changes};
use cat_collections::listing::Listing;
use cat_collections::map::Map;
use cat_types::node::Node;
use cat_types::reference::Ref;
use std::alloc::Global;
use std::marker::Model;

/// A feed of changes. Contracts see its ledger: its epoch, the number of its last change, its copy of the documents, and the
/// changes that it keeps, which are the last 10,000 of all.
#[derive(Drop)]
pub struct Feed {
    ledger: Ledger,
}

impl Model for Feed {
    ghost use Rattle.cat_feed.specs.declared.ledger.Ledger.{Ledger};
    ghost use Rattle.cat_feed.specs.contracts.ledger.Ledger.{the_row};
    ghost use Rattle.cat_feed.specs.Feed.{IsKept};

    ghost Value = { Ledger };

    ghost coded = { the_row.coded };

    ghost view = { λ a. a.ledger };

    ghost invariant = { λ a. IsKept a.ledger };
}

impl Feed {
    /// A feed that has told nothing. It takes no memory.
    pub fn new(alloc: Global, epoch: u64) -> Feed
        ensures { result ≡ begun epoch }
    {
        Feed {
            ledger: Ledger {
                epoch,
                number: 0,
                copy: Map::new(),
                kept: Listing::new(alloc),
            },
        }
    }

    /// Takes the documents in, and answers what leads from a place to them: without a place, a change for each document.
    ///
    /// Each reference whose document differs from the copy's gets the next number, in order of reference. After `Spent` and after
    /// `NoMemory` the feed is as before. Documents that followed the feed to a number that is still kept go on following it, and
    /// the changes of an answer lead from them to the documents that were lent.
    pub fn ask(
        &mut self,
        alloc: Global,
        documents: &Map<Ref, Node>,
        since: Option<Since>,
    ) -> Result<Changes, FeedFault>
        ensures ok { IfOk result (λ c. asked documents.now since self.old ≡ Ok c) }
        ensures err { IfErr result (λ e. (asked documents.now since self.old ≡ Err e) ⊎ (e ≡ FeedFault.NoMemory)) }
        ensures feed { self.new ≡ (if is_taken result then taken_in documents.now self.old else self.old) }
        ensures kept { (ds : Documents) (n : ℕ) → Follows ds n self.old → least self.new ≤ n → Follows ds n self.new }
        ensures follows { IfOk result (λ c. (ds : Documents) (s : Place) → since ≡ Some s → Follows ds s.number self.old → applied c.list ds ≡ documents.now) }
        ensures whole { IfOk result (λ c. since ≡ None → applied c.list [] ≡ documents.now) }
    {
        documents.in_order();
        ask(alloc, &mut self.ledger, documents, since)
    }
}

// The same on a ledger.
fn ask(
    alloc: Global,
    ledger: &mut Ledger,
    documents: &Map<Ref, Node>,
    since: Option<Since>,
) -> Result<Changes, FeedFault>
    requires { IsKept ledger.old }
    ensures ok { IfOk result (λ c. asked documents.now since ledger.old ≡ Ok c) }
    ensures err { IfErr result (λ e. (asked documents.now since ledger.old ≡ Err e) ⊎ (e ≡ FeedFault.NoMemory)) }
    ensures feed { ledger.new ≡ (if is_taken result then taken_in documents.now ledger.old else ledger.old) }
    ensures steady { IsKept ledger.new }
    ensures order { IsTrue (is_sorted text_cmp ledger.old.copy) }
{
    match advanced(alloc, ledger, documents) {
        Ok(next) => answered(alloc, ledger, next, documents, since),
        Err(fault) => Err(fault),
    }
}

// Answers from the ledger that has taken the documents in, and puts it in the place of the one before, unless memory is wanted.
fn answered(
    alloc: Global,
    ledger: &mut Ledger,
    next: Ledger,
    documents: &Map<Ref, Node>,
    since: Option<Since>,
) -> Result<Changes, FeedFault>
    requires kept { IsKept ledger.old }
    requires fits { is_spent documents.now ledger.old ≡ false }
    requires next { next ≡ taken_in documents.now ledger.old }
    requires steady { IsKept next }
    ensures ok { IfOk result (λ c. asked documents.now since ledger.old ≡ Ok c) }
    ensures err { IfErr result (λ e. (asked documents.now since ledger.old ≡ Err e) ⊎ (e ≡ FeedFault.NoMemory)) }
    ensures feed { ledger.new ≡ (if is_taken result then taken_in documents.now ledger.old else ledger.old) }
    ensures steady { IsKept ledger.new }
{
    let answer = answer(alloc, &next, documents, since);
    if !is_taken(&answer) {
        return answer;
    }
    *ledger = next;
    answer
}

// The ledger once it has taken the documents in.
fn advanced(alloc: Global, ledger: &Ledger, documents: &Map<Ref, Node>) -> Result<Ledger, FeedFault>
    requires { IsKept ledger.now }
    ensures ok { IfOk result (λ l. (is_spent documents.now ledger.now ≡ false) × (l ≡ taken_in documents.now ledger.now)) }
    ensures err { IfErr result (λ e. ((is_spent documents.now ledger.now ≡ true) × (e ≡ FeedFault.Spent)) ⊎ (e ≡ FeedFault.NoMemory)) }
    ensures steady { IfOk result IsKept }
    ensures order { IsTrue (is_sorted text_cmp ledger.now.copy) }
{
    ledger.copy.in_order();
    documents.in_order();
    let found = differences(alloc, &ledger.copy, documents)?;
    with_changes(alloc, ledger, found.as_slice())
}

// Whether the documents are taken in with this answer.
fn is_taken(answer: &Result<Changes, FeedFault>) -> bool
    ensures { result ≡ is_taken answer.now }
{
    match answer {
        Ok(_) | Err(FeedFault::Gone(_)) | Err(FeedFault::Ahead(_)) => true,
        Err(FeedFault::Spent) | Err(FeedFault::NoMemory) => false,
    }
}
