//! Terms with references, gathered over several documents, so that the references under each term change at once.
ghost use Rattle.std.specs.Prelude.{◌≡◌, ◌++◌, ◌≤◌, IfOk, IsTrue, OnOk, length, map, take};
ghost use Rattle.std.specs.List.{list_all};
ghost use Rattle.std.specs.List.Sorted.{IsPermutation};
ghost use Rattle.std.specs.Ordering.{eq_by_cmp, nat_cmp, ordering_then};
ghost use Rattle.cat_collections.specs.Table.{keys, put, text_cmp};
ghost use Rattle.cat_search.specs.Index.{postings, term_cmp, terms_at, with_references, without_references};

use crate::sets::Set;
use crate::terms::{Term, document_terms};
use cat_collections::key::Key;
use cat_collections::map::Map;
use cat_types::node::Node;
use cat_types::reference::Ref;
use std::alloc::{AllocError, Global};
use std::cmp::Ordering;
use std::marker::Model;
use std::sync::Arc;

/// The entry of a reference in sets, which many sets may have. Contracts see the reference.
#[derive(Drop)]
pub struct Entry {
    entry: Arc<(Ref, ()), Global>,
}

impl Model for Entry {
    ghost use Rattle.std.specs.Prelude.{ℕ, List};
    ghost use Rattle.std.specs.Arc.{arc_value};
    ghost use Rattle.std.specs.Coded.{coded_list, coded_ℕ};

    ghost Value = { List ℕ };

    ghost coded = { coded_list coded_ℕ };

    ghost view = { λ a. (arc_value a.entry).0 };
}

/// A term and a reference under it.
pub type Posting = (Term, Entry);

impl Entry {
    /// The entry of a reference.
    pub fn of(alloc: Global, reference: &Ref) -> Result<Entry, AllocError>
        ensures { IfOk result (λ e. e ≡ reference.now) }
    {
        Ok(Entry {
            entry: Arc::new(alloc, (reference.copy(alloc)?, ()))?,
        })
    }

    /// Lends the reference.
    pub fn reference(&self) -> &Ref
        ensures { result.now ≡ self.now }
    {
        &self.entry.0
    }

    /// A copy, which shares the entry. Takes no memory.
    pub fn share(&self) -> Result<Entry, AllocError>
        ensures { IfOk result (λ e. e ≡ self.now) }
    {
        Ok(Entry {
            entry: Arc::try_clone(&self.entry)?,
        })
    }

    /// Puts the entry into a set.
    pub fn enter(&self, alloc: Global, set: &mut Set) -> Result<(), AllocError>
        ensures { OnOk result (set.new ≡ put text_cmp self.now (tt {0}) set.old) }
    {
        set.put_shared(alloc, Arc::try_clone(&self.entry)?)
    }
}

/// The entries of the first references of a set, at most so many.
pub fn first_entries(alloc: Global, set: &Set, most: usize) -> Result<Vec<Entry>, AllocError>
    ensures { IfOk result (λ v. v.items ≡ take most (keys set.now)) }
{
    let mut entries = Vec::new(alloc);
    let mut left = most;
    for (reference, _) in set.iter() {
        if left == 0 {
            return Ok(entries);
        }
        entries.push(Entry::of(alloc, reference)?)?;
        left -= 1;
    }
    Ok(entries)
}

// Adds the terms of the reference's document, each with the reference.
fn add_postings(
    alloc: Global,
    documents: &Map<Ref, Node>,
    entry: &Entry,
    found: &mut Vec<Posting>,
) -> Result<(), AllocError>
    ensures { OnOk result (found.new.items ≡ found.old.items ++ map (λ t. (t, entry.now)) (terms_at documents.now entry.now)) }
{
    if let Some(document) = documents.get(entry.reference()) {
        for term in document_terms(alloc, document.tree())? {
            found.push((term, entry.share()?))?;
        }
    }
    Ok(())
}

// The terms of the references' documents, each with its reference, one document after the other.
fn gathered(
    alloc: Global,
    documents: &Map<Ref, Node>,
    entries: &[Entry],
) -> Result<Vec<Posting>, AllocError>
    ensures { IfOk result (λ v. v.items ≡ postings documents.now entries.now) }
{
    let mut found = Vec::new(alloc);
    for entry in entries {
        add_postings(alloc, documents, entry, &mut found)?;
    }
    Ok(found)
}

// How terms stand where those that are one stand together: by their lengths, which are at hand, and then by their bytes.
fn length_order(left: &Term, right: &Term) -> Ordering
    ensures { result ≡ ordering_then (nat_cmp (length left.now.0) (length right.now.0))
        (ordering_then (nat_cmp (length left.now.1) (length right.now.1)) (term_cmp left.now right.now)) }
{
    match left.0.as_str().len().cmp(&right.0.as_str().len()) {
        Ordering::Equal => match left.1.as_str().len().cmp(&right.1.as_str().len()) {
            Ordering::Equal => left.compare(right),
            unequal => unequal,
        },
        unequal => unequal,
    }
}

/// The terms of the references' documents, each with its reference. Those with one term stand together.
pub fn postings(
    alloc: Global,
    documents: &Map<Ref, Node>,
    entries: &[Entry],
) -> Result<Vec<Posting>, AllocError>
    ensures { IfOk result (λ v. IsPermutation (postings documents.now entries.now) v.items) }
{
    let mut found = gathered(alloc, documents, entries)?;
    found.sort_by(|a, b| length_order(&a.0, &b.0))?;
    Ok(found)
}

// Whether the posting has the term.
fn has_term(term: &Term, posting: &Posting) -> bool
    ensures { result ≡ eq_by_cmp term_cmp term.now posting.now.0 }
{
    term.compare(&posting.0) == Ordering::Equal
}

// How many postings at the front have the term.
fn run_length(term: &Term, postings: &[Posting]) -> usize
    ensures most { result ≤ length postings.now }
    ensures alike { IsTrue (list_all (λ p. eq_by_cmp term_cmp term.now p.0) (take result postings.now)) }
{
    let mut count = 0;
    while count < postings.len() && has_term(term, &postings[count]) {
        count += 1;
    }
    count
}

/// The postings at the front that have the term, and the others.
pub fn split_run<'a>(term: &Term, postings: &'a [Posting]) -> (&'a [Posting], &'a [Posting])
    ensures parts { result.0.now ++ result.1.now ≡ postings.now }
    ensures alike { IsTrue (list_all (λ p. eq_by_cmp term_cmp term.now p.0) result.0.now) }
{
    postings.split_at(run_length(term, postings))
}

/// The set with the references of the postings.
pub fn with_run(alloc: Global, set: Set, run: &[Posting]) -> Result<Set, AllocError>
    ensures { IfOk result (λ s. s ≡ with_references (map (λ p. p.1) run.now) set) }
{
    let mut set = set;
    for posting in run {
        posting.1.enter(alloc, &mut set)?;
    }
    Ok(set)
}

/// The set without the references of the postings.
pub fn without_run(alloc: Global, set: Set, run: &[Posting]) -> Result<Set, AllocError>
    ensures { IfOk result (λ s. s ≡ without_references (map (λ p. p.1) run.now) set) }
{
    let mut set = set;
    for posting in run {
        set.remove(alloc, posting.1.reference())?;
    }
    Ok(set)
}
