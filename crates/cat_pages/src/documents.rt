//! Documents by reference, as what keeps them lends them.
ghost use Rattle.std.specs.Prelude.{◌≡◌, IfOk, length, map, option_map, slice_get, take};
ghost use Rattle.cat_tree.specs.View.{data_of};
ghost use Rattle.cat_collections.specs.Table.{get};
ghost use Rattle.cat_pages.specs.Page.{Pair, following, pair_seen, total_of};
ghost use Rattle.cat_pages.specs.Seen.{ranked_seen};
ghost use Rattle.cat_search.specs.Filter.{matching};
ghost use Rattle.cat_search.specs.Index.{AreLists};

use crate::listed;
use crate::query::Query;
use crate::rank::{First, first_of};
use cat_collections::map::Map;
use cat_search::condition::Filter;
use cat_search::index::{self, Index, Lists};
use cat_search::matches::is_accepted;
use cat_tree::tree::Tree;
use cat_types::node::Node;
use cat_types::reference::Ref;
use std::alloc::{AllocError, Global};

/// All documents, in order of reference. Only `matching` and `first` take memory.
pub trait Documents {
    ghost use Rattle.std.specs.Prelude.{List};
    ghost use Rattle.cat_pages.specs.Page.{Pair};

    // the documents by reference
    ghost pairs: { Self → List Pair };

    /// How many documents there are.
    fn len(&self) -> usize
        ensures { result ≡ length (pairs self.now) };

    /// Lends the document at a place, with its reference.
    fn at<'a>(&'a self, place: usize) -> Option<(&'a Ref, &'a Tree)>
        ensures { option_map pair_seen result ≡ slice_get (pairs self.entry.now) place };

    /// Lends the document of a reference; none where there is none.
    fn get<'a>(&'a self, reference: &Ref) -> Option<&'a Tree>
        ensures { option_map (λ t. data_of t.now) result ≡ get (pairs self.entry.now) reference.now };

    /// Lends the documents that one of the filters accepts, with their references, in order; without a filter all of them.
    fn matching<'a>(
        &'a self,
        alloc: Global,
        filters: &[Filter],
    ) -> Result<Vec<(&'a Ref, &'a Tree)>, AllocError>
        ensures { IfOk result (λ v. map pair_seen v.items ≡ matching filters.now (pairs self.entry.now)) };

    /// Lends the first documents that match and follow the query's cursor, in its order, and says how many match.
    fn first<'a>(
        &'a self,
        alloc: Global,
        query: &Query,
        most: usize,
    ) -> Result<First<'a>, AllocError>
        ensures items { IfOk result (λ f. map ranked_seen f.items.items
            ≡ take most (following query.now.filters query.now.order query.now.cursor (pairs self.entry.now))) }
        ensures total { IfOk result (λ f. f.total ≡ total_of query.now.filters (pairs self.entry.now)) };
}

impl Documents for Map<Ref, Node> {
    ghost pairs = { λ t. t };

    fn len(&self) -> usize {
        Map::len(self)
    }

    fn at<'a>(&'a self, place: usize) -> Option<(&'a Ref, &'a Tree)> {
        let (reference, node) = Map::at(self, place)?;
        Some((reference, node.tree()))
    }

    fn get<'a>(&'a self, reference: &Ref) -> Option<&'a Tree> {
        Some(Map::get(self, reference)?.tree())
    }

    fn matching<'a>(
        &'a self,
        alloc: Global,
        filters: &[Filter],
    ) -> Result<Vec<(&'a Ref, &'a Tree)>, AllocError> {
        let mut found = Vec::new(alloc);
        for (reference, node) in self.iter() {
            if is_accepted(filters, node.tree()) {
                found.push((reference, node.tree()))?;
            }
        }
        Ok(found)
    }

    fn first<'a>(
        &'a self,
        alloc: Global,
        query: &Query,
        most: usize,
    ) -> Result<First<'a>, AllocError> {
        let matching = Documents::matching(self, alloc, query.filters.as_slice())?;
        first_of(alloc, matching.as_slice(), query, most)
    }
}

impl Documents for Index {
    ghost pairs = { λ i. i };

    fn len(&self) -> usize {
        Index::len(self)
    }

    fn at<'a>(&'a self, place: usize) -> Option<(&'a Ref, &'a Tree)> {
        let (reference, node) = Index::at(self, place)?;
        Some((reference, node.tree()))
    }

    fn get<'a>(&'a self, reference: &Ref) -> Option<&'a Tree> {
        Index::get(self, reference)
    }

    fn matching<'a>(
        &'a self,
        alloc: Global,
        filters: &[Filter],
    ) -> Result<Vec<(&'a Ref, &'a Tree)>, AllocError> {
        let entries = index::matching(alloc, self, filters)?;
        let mut found = Vec::with_capacity(alloc, entries.len())?;
        for entry in entries.as_slice() {
            found.push((&entry.0, entry.1.tree()))?;
        }
        Ok(found)
    }

    fn first<'a>(
        &'a self,
        alloc: Global,
        query: &Query,
        most: usize,
    ) -> Result<First<'a>, AllocError> {
        let total = count(alloc, self, query.filters.as_slice())?;
        match self.lists() {
            Some(lists) => first_listed(alloc, self, lists, query, most, total),
            None => first_matching(alloc, self, query, most),
        }
    }
}

// How many of the documents match.
fn count(alloc: Global, docs: &Index, filters: &[Filter]) -> Result<usize, AllocError>
    ensures { IfOk result (λ n. n ≡ length (matching filters.now docs.now)) }
{
    if filters.is_empty() {
        Ok(docs.len())
    } else {
        index::count(alloc, docs, filters)
    }
}

// Whether so many of the documents match that the first of them are found sooner in order than by a look at each.
fn is_many(total: usize, all: usize, most: usize) -> bool {
    total.saturating_mul(total) >= all.saturating_mul(most)
}

// The first of the documents, of which so many match, in the query's order.
fn first_listed<'a>(
    alloc: Global,
    docs: &'a Index,
    lists: &'a Lists,
    query: &Query,
    most: usize,
    total: usize,
) -> Result<First<'a>, AllocError>
    requires listed { AreLists docs.now lists.now }
    requires total { total ≡ total_of query.now.filters docs.now }
    ensures items { IfOk result (λ f. map ranked_seen f.items.items
        ≡ take most (following query.now.filters query.now.order query.now.cursor docs.now)) }
    ensures total { IfOk result (λ f. f.total ≡ total_of query.now.filters docs.now) }
{
    if !is_many(total, docs.len(), most) {
        return first_matching(alloc, docs, query, most);
    }
    let items = listed::first(alloc, docs.documents(), lists, query, most)?;
    Ok(First {
        items,
        total: total as u64,
    })
}

// The first of the documents that match, in the query's order, by a look at each of them.
fn first_matching<'a>(
    alloc: Global,
    docs: &'a Index,
    query: &Query,
    most: usize,
) -> Result<First<'a>, AllocError>
    ensures items { IfOk result (λ f. map ranked_seen f.items.items
        ≡ take most (following query.now.filters query.now.order query.now.cursor docs.now)) }
    ensures total { IfOk result (λ f. f.total ≡ total_of query.now.filters docs.now) }
{
    let matching = Documents::matching(docs, alloc, query.filters.as_slice())?;
    first_of(alloc, matching.as_slice(), query, most)
}
