//! Documents with their places in an order.
ghost use Rattle.std.specs.Prelude.{◌≡◌, ◌≤◌, ◌∷◌, ◌++◌, IfOk, OnOk, length, drop, map, option_map, take};
ghost use Rattle.cat_tree.specs.View.{data_of};
ghost use Rattle.cat_pages.specs.Page.{candidate, comes_before, inserted, is_after, is_falling, kept_with, least, lesser, pair_seen, ranked, value_of};
ghost use Rattle.cat_collections.specs.Table.{text_cmp};
ghost use Rattle.std.specs.Ordering.{is_lt};
ghost use Rattle.cat_pages.specs.Seen.{place_seen, ranked_seen};

use crate::query::{Cursor, OrderBy, Query};
use cat_search::folded::lower;
use cat_search::values::values_at;
use cat_tree::text::Text;
use cat_tree::tree::Tree;
use cat_types::reference::Ref;
use std::alloc::{AllocError, Global};
use std::cmp::Ordering;

/// A lent document with its reference and its value in an order.
#[derive(Drop)]
pub struct Ranked<'a> {
    pub value: Option<Text>,
    pub reference: &'a Ref,
    pub document: &'a Tree,
}

/// The first documents of an order, lent, and how many match.
#[derive(Drop)]
pub struct First<'a> {
    /// The documents, in the order.
    pub items: Vec<Ranked<'a>>,
    /// How many match, whether they follow the cursor or not.
    pub total: u64,
}

fn lesser(text: Text, other: Option<Text>) -> Text
    ensures { result ≡ lesser text other }
{
    match other {
        None => text,
        Some(other) => match text.as_str().cmp(other.as_str()) {
            Ordering::Less => text,
            Ordering::Equal | Ordering::Greater => other,
        },
    }
}

// The least of the texts in lower case.
fn least(alloc: Global, texts: &[Text]) -> Result<Option<Text>, AllocError>
    ensures { IfOk result (λ o. o ≡ least texts.now) }
{
    let mut best = None;
    let mut left = texts.len();
    while left > 0 {
        left -= 1;
        best = Some(lesser(lower(alloc, texts[left].as_str())?, best));
    }
    Ok(best)
}

fn value_of(
    alloc: Global,
    order: &Option<OrderBy>,
    document: &Tree,
) -> Result<Option<Text>, AllocError>
    ensures { IfOk result (λ o. o ≡ value_of order.now (data_of document.now)) }
{
    match order {
        None => Ok(None),
        Some(order) => least(
            alloc,
            values_at(alloc, document, order.key.as_str())?.as_slice(),
        ),
    }
}

/// Whether greater values come first.
pub fn is_falling(order: &Option<OrderBy>) -> bool
    ensures { result ≡ is_falling order.now }
{
    match order {
        None => false,
        Some(order) => order.falling,
    }
}

fn is_below(left: &Ref, right: &Ref) -> bool
    ensures { result ≡ is_lt (text_cmp left.now right.now) }
{
    left.as_str().cmp(right.as_str()) == Ordering::Less
}

fn comes_before(
    falls: bool,
    value: &Option<Text>,
    reference: &Ref,
    other_value: &Option<Text>,
    other_reference: &Ref,
) -> bool
    ensures { result ≡ comes_before falls (value.now, reference.now) (other_value.now, other_reference.now) }
{
    match (value, other_value) {
        (Some(value), Some(other)) => match value.as_str().cmp(other.as_str()) {
            Ordering::Less => !falls,
            Ordering::Equal => is_below(reference, other_reference),
            Ordering::Greater => falls,
        },
        (Some(_), None) => true,
        (None, Some(_)) => false,
        (None, None) => is_below(reference, other_reference),
    }
}

fn is_after(falls: bool, cursor: &Option<Cursor>, value: &Option<Text>, reference: &Ref) -> bool
    ensures { result ≡ is_after falls cursor.now (value.now, reference.now) }
{
    match cursor {
        None => true,
        Some(cursor) => comes_before(falls, &cursor.value, &cursor.reference, value, reference),
    }
}

/// The document with its value, where it is after the cursor.
pub fn candidate<'a>(
    alloc: Global,
    query: &Query,
    reference: &'a Ref,
    document: &'a Tree,
) -> Result<Option<Ranked<'a>>, AllocError>
    ensures { IfOk result (λ o. option_map ranked_seen o
        ≡ candidate query.now.order query.now.cursor (reference.now, data_of document.now)) }
{
    let value = value_of(alloc, &query.order, document)?;
    if is_after(is_falling(&query.order), &query.cursor, &value, reference) {
        Ok(Some(Ranked {
            value,
            reference,
            document,
        }))
    } else {
        Ok(None)
    }
}

// The place of the first document that this one comes before.
fn place_among(falls: bool, document: &Ranked, kept: &[Ranked]) -> usize
    ensures within { result ≤ length kept.now }
    ensures put { inserted falls (ranked_seen document.now) (map ranked_seen kept.now)
        ≡ map ranked_seen (take result kept.now) ++ ranked_seen document.now ∷ map ranked_seen (drop result kept.now) }
{
    let mut place = 0;
    while place < kept.len() {
        if is_before(falls, document, &kept[place]) {
            return place;
        }
        place += 1;
    }
    place
}

// Puts the document before the first one that it comes before, and keeps the first `most`.
fn insert<'a>(
    falls: bool,
    most: usize,
    document: Ranked<'a>,
    kept: &mut Vec<Ranked<'a>>,
) -> Result<(), AllocError>
    ensures { OnOk result (map ranked_seen kept.new.items
        ≡ take most (inserted falls (ranked_seen document.entry) (map ranked_seen kept.old.items))) }
{
    let place = place_among(falls, &document, kept.as_slice());
    kept.insert(place, document)?;
    kept.truncate(most);
    Ok(())
}

// Puts the candidate, if there is one, among the first documents.
fn keep<'a>(
    falls: bool,
    most: usize,
    candidate: Option<Ranked<'a>>,
    kept: &mut Vec<Ranked<'a>>,
) -> Result<(), AllocError>
    ensures { OnOk result (map ranked_seen kept.new.items
        ≡ kept_with falls most (option_map ranked_seen candidate.entry) (map ranked_seen kept.old.items)) }
{
    match candidate {
        Some(document) => insert(falls, most, document, kept),
        None => Ok(()),
    }
}

fn is_before(falls: bool, left: &Ranked, right: &Ranked) -> bool
    ensures { result ≡ comes_before falls (place_seen left.now) (place_seen right.now) }
{
    comes_before(
        falls,
        &left.value,
        left.reference,
        &right.value,
        right.reference,
    )
}

// The first of the documents that follow the query's cursor, in its order.
fn kept<'a>(
    alloc: Global,
    documents: &[(&'a Ref, &'a Tree)],
    query: &Query,
    most: usize,
) -> Result<Vec<Ranked<'a>>, AllocError>
    ensures { IfOk result (λ v. map ranked_seen v.items
        ≡ take most (ranked query.now.order query.now.cursor (map pair_seen documents.now))) }
{
    let mut kept = Vec::new(alloc);
    let mut left = documents.len();
    while left > 0 {
        left -= 1;
        let pair = documents[left];
        let candidate = candidate(alloc, query, pair.0, pair.1)?;
        keep(is_falling(&query.order), most, candidate, &mut kept)?;
    }
    Ok(kept)
}

/// The first of the documents that match, in the query's order. It looks at each of them.
pub fn first_of<'a>(
    alloc: Global,
    documents: &[(&'a Ref, &'a Tree)],
    query: &Query,
    most: usize,
) -> Result<First<'a>, AllocError>
    ensures items { IfOk result (λ f. map ranked_seen f.items.items
        ≡ take most (ranked query.now.order query.now.cursor (map pair_seen documents.now))) }
    ensures total { IfOk result (λ f. f.total ≡ length documents.now) }
{
    let items = kept(alloc, documents, query, most)?;
    Ok(First {
        items,
        total: documents.len() as u64,
    })
}
