//! Which documents an index lists, and which ones filters find in it.
ghost use Rattle.std.specs.Prelude.{◌≡◌, ◌∷◌, [], IfOk, OnOk, length, map, unwrap_or};
ghost use Rattle.cat_collections.specs.Table.{get};
ghost use Rattle.cat_search.specs.Filter.{matching};
ghost use Rattle.cat_search.specs.Index.{AreEntered, AreLists, AreStruck, accepted, accepts_all, all_accepted, at_key, by_key, documents_of, entered, found, has_free, set_at, struck, union, with_condition, with_document, with_documents, with_set, without_references};
ghost use Rattle.cat_search.specs.Terms.{condition_term};

use crate::condition::{Condition, Filter};
use crate::corrections::corrected;
use crate::folded::lower;
use crate::postings::{Entry, Posting, first_entries, postings, split_run, with_run, without_run};
use crate::sets::{common, union};
use crate::terms::condition_term;
use cat_collections::listing::Copied;
use cat_collections::map::Map;
pub use cat_state_parts::index::{Index, IndexParts, Lists, Set, Term};
use cat_tree::text::Text;
use cat_types::node::Node;
use cat_types::reference::Ref;
use std::alloc::{AllocError, Global};

/// Lists at most so many of the documents that wait, in order of reference. The references under a term change once for all
/// of those documents. Where memory is wanted, all wait on.
pub fn list_pending(alloc: Global, index: &mut Index, most: usize) -> Result<(), AllocError>
    ensures { index.new ≡ index.old }
{
    let next = with_listed(alloc, index, most)?;
    *index = next;
    Ok(())
}

// The index with the present documents of the first references that wait listed, at most so many.
fn with_listed(alloc: Global, index: &Index, most: usize) -> Result<Index, AllocError>
    ensures { IfOk result (λ i. i ≡ index.now) }
{
    let parts = index.parts();
    let entries = first_entries(alloc, parts.pending, most)?;
    let entries = entries.as_slice();
    let lists = relisted(alloc, parts.lists, parts.listed, parts.documents, entries)?;
    let listed = with_present(alloc, parts.listed, parts.documents, entries)?;
    let pending = without_entries(alloc, parts.pending, entries)?;
    let documents = parts.documents.share()?;
    Ok(Index::of_parts(documents, listed, pending, lists))
}

/// The references of the documents that one of the filters accepts, in order; without a filter those of all documents.
pub fn find(alloc: Global, index: &Index, filters: &[Filter]) -> Result<Vec<Ref>, AllocError>
    ensures { IfOk result (λ v. v.items ≡ found filters.now index.now) }
{
    let parts = index.parts();
    if accepts_all(filters) {
        return Ok(parts.documents.keys(alloc)?.into_vec());
    }
    let listed = all_accepted(alloc, parts.lists, filters)?;
    let found = corrected(alloc, parts.documents, parts.pending, filters, listed)?;
    parts.documents.in_order();
    found.in_order();
    Ok(found.keys(alloc)?.into_vec())
}

/// How many documents one of the filters accepts; without a filter all of them are counted. Where there is one condition and no
/// document waits, it takes no longer where more documents match.
pub fn count(alloc: Global, index: &Index, filters: &[Filter]) -> Result<usize, AllocError>
    ensures { IfOk result (λ n. n ≡ length (found filters.now index.now)) }
{
    let parts = index.parts();
    if accepts_all(filters) {
        return Ok(parts.documents.len());
    }
    let listed = all_accepted(alloc, parts.lists, filters)?;
    let found = corrected(alloc, parts.documents, parts.pending, filters, listed)?;
    parts.documents.in_order();
    found.in_order();
    Ok(found.len())
}

/// Lends the documents that one of the filters accepts, with their references, in order; without a filter all of them.
pub fn matching<'a>(
    alloc: Global,
    index: &'a Index,
    filters: &[Filter],
) -> Result<Vec<&'a (Ref, Node)>, AllocError>
    ensures { IfOk result (λ v. map (λ e. e.now) v.items ≡ matching filters.now index.now) }
{
    let parts = index.parts();
    if accepts_all(filters) {
        return all_entries(alloc, parts.documents);
    }
    let listed = all_accepted(alloc, parts.lists, filters)?;
    let found = corrected(alloc, parts.documents, parts.pending, filters, listed)?;
    parts.documents.in_order();
    found.in_order();
    documents_of(alloc, parts.documents, &found)
}

// ---- changes

// The references without those of the entries.
fn without_entries(alloc: Global, references: &Set, entries: &[Entry]) -> Result<Set, AllocError>
    ensures { IfOk result (λ s. s ≡ without_references entries.now references.now) }
{
    let mut set = references.share()?;
    for entry in entries {
        set.remove(alloc, entry.reference())?;
    }
    Ok(set)
}

// The document that the reference has at present is listed, or none of it.
fn list_present(
    alloc: Global,
    listed: &mut Map<Ref, Node>,
    documents: &Map<Ref, Node>,
    reference: &Ref,
) -> Result<(), AllocError>
    ensures { OnOk result (listed.new ≡ with_document reference.now (get documents.now reference.now) listed.old) }
{
    match documents.get(reference) {
        Some(document) => {
            let document = document.duplicate(alloc)?;
            listed.put(alloc, reference.copy(alloc)?, document)
        }
        None => listed.remove(alloc, reference),
    }
}

// The listed documents, with the documents that the references have at present, or with none of them.
fn with_present(
    alloc: Global,
    listed: &Map<Ref, Node>,
    documents: &Map<Ref, Node>,
    entries: &[Entry],
) -> Result<Map<Ref, Node>, AllocError>
    ensures { IfOk result (λ m. m ≡ with_documents entries.now documents.now listed.now) }
{
    let mut listed = listed.share()?;
    for entry in entries {
        list_present(alloc, &mut listed, documents, entry.reference())?;
    }
    Ok(listed)
}

// The references under a term.
fn set_at(lists: &Lists, term: &Term) -> Result<Set, AllocError>
    ensures { IfOk result (λ s. s ≡ set_at lists.now term.now) }
{
    match lists.get(term) {
        Some(set) => set.share(),
        None => Ok(Map::new()),
    }
}

// These references stand under the term from now on.
fn put_set(alloc: Global, lists: &mut Lists, term: &Term, set: Set) -> Result<(), AllocError>
    ensures { OnOk result (lists.new ≡ with_set term.now set lists.old) }
{
    if set.is_empty() {
        return lists.remove(alloc, term);
    }
    let term = term.duplicate(alloc)?;
    lists.put(alloc, term, set)
}

// The references of the postings come under the term of the first one.
fn enter_run(
    alloc: Global,
    lists: &mut Lists,
    first: &Posting,
    run: &[Posting],
) -> Result<(), AllocError>
    ensures { OnOk result (lists.new ≡ entered first.now.0 (first.now.1 ∷ map (λ p. p.1) run.now) lists.old) }
{
    let mut set = set_at(lists, &first.0)?;
    first.1.enter(alloc, &mut set)?;
    let set = with_run(alloc, set, run)?;
    let term = first.0.duplicate(alloc)?;
    lists.put(alloc, term, set)
}

// The reference of each posting comes under its term. Where postings of one term stand together, what is under the term
// changes once.
fn enter(alloc: Global, lists: &mut Lists, postings: &[Posting]) -> Result<(), AllocError>
    ensures { OnOk result (AreEntered postings.now lists.old lists.new) }
{
    let mut left = postings;
    while let [first, rest @ ..] = left {
        let (run, others) = split_run(&first.0, rest);
        enter_run(alloc, lists, first, run)?;
        left = others;
    }
    Ok(())
}

// The references of the postings go from under the term of the first one.
fn strike_run(
    alloc: Global,
    lists: &mut Lists,
    first: &Posting,
    run: &[Posting],
) -> Result<(), AllocError>
    ensures { OnOk result (lists.new ≡ struck first.now.0 (first.now.1 ∷ map (λ p. p.1) run.now) lists.old) }
{
    let mut set = set_at(lists, &first.0)?;
    set.remove(alloc, first.1.reference())?;
    let set = without_run(alloc, set, run)?;
    put_set(alloc, lists, &first.0, set)
}

// The reference of each posting goes from under its term. Where postings of one term stand together, what is under the term
// changes once.
fn strike(alloc: Global, lists: &mut Lists, postings: &[Posting]) -> Result<(), AllocError>
    ensures { OnOk result (AreStruck postings.now lists.old lists.new) }
{
    let mut left = postings;
    while let [first, rest @ ..] = left {
        let (run, others) = split_run(&first.0, rest);
        strike_run(alloc, lists, first, run)?;
        left = others;
    }
    Ok(())
}

// The lists with the references under the terms of their present documents, in place of those of the listed ones.
fn relisted(
    alloc: Global,
    lists: &Lists,
    listed: &Map<Ref, Node>,
    documents: &Map<Ref, Node>,
    entries: &[Entry],
) -> Result<Lists, AllocError>
    requires { AreLists listed.now lists.now }
    ensures { IfOk result (λ l. AreLists (with_documents entries.now documents.now listed.now) l) }
{
    let mut lists = lists.share()?;
    let former = postings(alloc, listed, entries)?;
    strike(alloc, &mut lists, former.as_slice())?;
    let present = postings(alloc, documents, entries)?;
    enter(alloc, &mut lists, present.as_slice())?;
    Ok(lists)
}

// ---- finding

// Lends all documents with their references.
fn all_entries(alloc: Global, documents: &Map<Ref, Node>) -> Result<Vec<&(Ref, Node)>, AllocError>
    ensures { IfOk result (λ v. map (λ e. e.now) v.items ≡ documents.now) }
{
    let mut entries = Vec::with_capacity(alloc, documents.len())?;
    for entry in documents.iter() {
        entries.push(entry)?;
    }
    Ok(entries)
}

// Lends the documents of the references that were found.
fn documents_of<'a>(
    alloc: Global,
    documents: &'a Map<Ref, Node>,
    found: &Set,
) -> Result<Vec<&'a (Ref, Node)>, AllocError>
    ensures { IfOk result (λ v. map (λ e. e.now) v.items ≡ documents_of documents.now found.now) }
{
    let mut entries = Vec::with_capacity(alloc, found.len())?;
    for (reference, _) in found.iter() {
        if let Some(entry) = documents.first_from(reference) {
            entries.push(entry)?;
        }
    }
    Ok(entries)
}

// Whether there is no filter, or one without conditions.
fn accepts_all(filters: &[Filter]) -> bool
    ensures { result ≡ accepts_all filters.now }
{
    filters.is_empty() || has_free(filters)
}

fn has_free(filters: &[Filter]) -> bool
    ensures { result ≡ has_free filters.now }
{
    filters.iter().any(|filter| filter.as_slice().is_empty())
}

// The references at a key in lower case.
fn at_lower(keyed: &Map<Text, Set>, key: &Text) -> Result<Set, AllocError>
    ensures { IfOk result (λ s. s ≡ unwrap_or (get keyed.now key.now) []) }
{
    match keyed.get(key) {
        Some(set) => set.share(),
        None => Ok(Map::new()),
    }
}

// The references at a key.
fn at_key(alloc: Global, keyed: &Map<Text, Set>, key: &Text) -> Result<Set, AllocError>
    ensures { IfOk result (λ s. s ≡ at_key keyed.now key.now) }
{
    let key = lower(alloc, key.as_str())?;
    at_lower(keyed, &key)
}

// The references under a condition.
fn under(alloc: Global, lists: &Lists, condition: &Condition) -> Result<Set, AllocError>
    ensures { IfOk result (λ s. s ≡ set_at lists.now (condition_term condition.now)) }
{
    let term = condition_term(alloc, condition)?;
    set_at(lists, &term)
}

// The references under a condition, and those at its key.
fn widened(
    alloc: Global,
    lists: &Lists,
    condition: &Condition,
    keyed: &Map<Text, Set>,
) -> Result<Set, AllocError>
    ensures { IfOk result (λ s. s ≡ union (set_at lists.now (condition_term condition.now)) (at_key keyed.now condition.now.key)) }
{
    let own = under(alloc, lists, condition)?;
    let others = at_key(alloc, keyed, &condition.key)?;
    union(alloc, &own, &others)
}

// The references under the condition are found at its key, too.
fn add_key(
    alloc: Global,
    lists: &Lists,
    condition: &Condition,
    keyed: &mut Map<Text, Set>,
) -> Result<(), AllocError>
    ensures { OnOk result (keyed.new ≡ with_condition lists.now condition.now keyed.old) }
{
    let set = widened(alloc, lists, condition, keyed)?;
    let key = lower(alloc, condition.key.as_str())?;
    keyed.put(alloc, key, set)
}

// For each key of the conditions, the references under one of those with the key.
fn by_key(
    alloc: Global,
    lists: &Lists,
    conditions: &[Condition],
) -> Result<Map<Text, Set>, AllocError>
    ensures { IfOk result (λ m. m ≡ by_key lists.now conditions.now) }
{
    let mut keyed = Map::new();
    let mut left = conditions.len();
    while left > 0 {
        left -= 1;
        add_key(alloc, lists, &conditions[left], &mut keyed)?;
    }
    Ok(keyed)
}

// For each condition, the references at its key.
fn at_keys(
    alloc: Global,
    keyed: &Map<Text, Set>,
    conditions: &[Condition],
) -> Result<Vec<Set>, AllocError>
    ensures { IfOk result (λ v. v.items ≡ map (λ c. at_key keyed.now c.key) conditions.now) }
{
    let mut sets = Vec::new(alloc);
    for condition in conditions {
        sets.push(at_key(alloc, keyed, &condition.key)?)?;
    }
    Ok(sets)
}

// The references that are found for each key of the filter's conditions.
fn accepted(alloc: Global, lists: &Lists, filter: &Filter) -> Result<Set, AllocError>
    ensures { IfOk result (λ s. s ≡ accepted lists.now filter.now) }
{
    let conditions = filter.as_slice();
    let keyed = by_key(alloc, lists, conditions)?;
    let sets = at_keys(alloc, &keyed, conditions)?;
    common(alloc, sets.as_slice())
}

// The references that are found for one of the filters.
fn all_accepted(alloc: Global, lists: &Lists, filters: &[Filter]) -> Result<Set, AllocError>
    ensures { IfOk result (λ s. s ≡ all_accepted lists.now filters.now []) }
{
    let mut found = Map::new();
    for filter in filters {
        let accepted = accepted(alloc, lists, filter)?;
        found = union(alloc, &found, &accepted)?;
    }
    Ok(found)
}
