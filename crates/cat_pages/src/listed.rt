//! The first documents of an order by the lists of terms: those at one value after the other, and then those without a
//! value. Beside the documents that it gives it looks at those with the cursor's own value that stand before the cursor, and, where
//! the documents with a value don't fill the page, at all without one.
ghost use Rattle.std.specs.Prelude.{◌≡◌, ◌∷◌, ◌++◌, [], IfOk, IfSome, IsTrue, OnOk, Some, false, is_some, map, not, option_map, slice_get, take, true};
ghost use Rattle.std.specs.FinMap.Entries.{is_sorted};
ghost use Rattle.std.specs.List.{cons_option};
ghost use Rattle.std.specs.Option.{option_and_then};
ghost use Rattle.cat_tree.specs.View.{data_of};
ghost use Rattle.cat_collections.specs.Table.{text_cmp};
ghost use Rattle.cat_search.specs.Index.{AreLists, term_cmp};
ghost use Rattle.cat_pages.specs.Page.{is_falling, matching, pair_seen, ranked};
ghost use Rattle.cat_pages.specs.Seen.{ranked_seen};
ghost use Rattle.cat_pages.specs.Walked.{AreAtKey, IsListed, at_entry, at_reference, begin_at, begins, behinds, by_value, candidates, chosen, end_at, end_of, ends, is_behind, key_of, looked, matched, passed, rest_at, rest_start, span, start_of, unvalued, with_value, without_value};

use crate::query::{Cursor, OrderBy, Query};
use crate::rank::{Ranked, candidate, is_falling};
use cat_collections::map::Map;
use cat_search::folded::lower;
use cat_search::index::Lists;
use cat_search::matches::is_accepted;
use cat_search::sets::Set;
use cat_search::terms::Term;
use cat_tree::text::Text;
use cat_tree::tree::Tree;
use cat_types::node::Node;
use cat_types::reference::Ref;
use std::alloc::{AllocError, Global};

// ---- one document

// Whether the value is the one that stands behind a key and `=`.
fn is_behind(behind: &[u8], value: &[u8]) -> bool
    ensures { result ≡ is_behind behind.now (Some value.now) }
{
    match behind.split_first() {
        Some((first, rest)) => *first == b'=' && rest == value,
        None => false,
    }
}

fn has_value(behind: &Text, value: &Option<Text>) -> bool
    ensures { result ≡ is_behind behind.now value.now }
{
    match value {
        Some(value) => is_behind(behind.as_str().as_bytes(), value.as_str().as_bytes()),
        None => false,
    }
}

// The document as a candidate, where it matches.
fn matched<'a>(
    alloc: Global,
    query: &Query,
    reference: &'a Ref,
    document: &'a Tree,
) -> Result<Option<Ranked<'a>>, AllocError>
    ensures { IfOk result (λ o. option_map ranked_seen o ≡ matched query.now (reference.now, data_of document.now)) }
{
    if is_accepted(query.filters.as_slice(), document) {
        candidate(alloc, query, reference, document)
    } else {
        Ok(None)
    }
}

// The document as a candidate, where it matches and its value stands behind the key.
fn chosen<'a>(
    alloc: Global,
    query: &Query,
    behind: &Text,
    reference: &'a Ref,
    document: &'a Tree,
) -> Result<Option<Ranked<'a>>, AllocError>
    ensures { IfOk result (λ o. option_map ranked_seen o ≡ chosen query.now behind.now (reference.now, data_of document.now)) }
{
    match matched(alloc, query, reference, document)? {
        Some(found) => Ok(with_value(behind, found)),
        None => Ok(None),
    }
}

fn with_value<'a>(behind: &Text, found: Ranked<'a>) -> Option<Ranked<'a>>
    ensures { option_map ranked_seen result ≡ passed (λ r. is_behind behind.now r.0) (Some (ranked_seen found.entry)) }
{
    if has_value(behind, &found.value) {
        Some(found)
    } else {
        None
    }
}

fn without_value<'a>(found: Ranked<'a>) -> Option<Ranked<'a>>
    ensures { option_map ranked_seen result ≡ passed (λ r. not (is_some r.0)) (Some (ranked_seen found.entry)) }
{
    if found.value.is_none() {
        Some(found)
    } else {
        None
    }
}

// The document as a candidate, where it matches and has no value.
fn unvalued<'a>(
    alloc: Global,
    query: &Query,
    reference: &'a Ref,
    document: &'a Tree,
) -> Result<Option<Ranked<'a>>, AllocError>
    ensures { IfOk result (λ o. option_map ranked_seen o ≡ unvalued query.now (reference.now, data_of document.now)) }
{
    match matched(alloc, query, reference, document)? {
        Some(found) => Ok(without_value(found)),
        None => Ok(None),
    }
}

fn add<'a>(document: Option<Ranked<'a>>, found: &mut Vec<Ranked<'a>>) -> Result<(), AllocError>
    ensures { OnOk result (map ranked_seen found.new.items
        ≡ map ranked_seen found.old.items ++ cons_option (option_map ranked_seen document.entry) []) }
{
    match document {
        Some(document) => push(document, found),
        None => Ok(()),
    }
}

fn push<'a>(document: Ranked<'a>, found: &mut Vec<Ranked<'a>>) -> Result<(), AllocError>
    ensures { OnOk result (map ranked_seen found.new.items ≡ map ranked_seen found.old.items ++ ranked_seen document.entry ∷ []) }
{
    found.push(document)?;
    Ok(())
}

// ---- the documents of a term

fn add_chosen<'a>(
    alloc: Global,
    docs: &'a Map<Ref, Node>,
    query: &Query,
    behind: &Text,
    reference: &'a Ref,
    found: &mut Vec<Ranked<'a>>,
) -> Result<(), AllocError>
    ensures { OnOk result (map ranked_seen found.new.items
        ≡ map ranked_seen found.old.items ++ cons_option (at_reference docs.now (chosen query.now behind.now) reference.now) []) }
{
    match docs.get(reference) {
        Some(node) => add(chosen(alloc, query, behind, reference, node.tree())?, found),
        None => Ok(()),
    }
}

// Adds the document of the reference at a place, where its value stands behind the key.
fn add_listed<'a>(
    alloc: Global,
    docs: &'a Map<Ref, Node>,
    query: &Query,
    behind: &Text,
    set: &'a Set,
    place: usize,
    found: &mut Vec<Ranked<'a>>,
) -> Result<(), AllocError>
    ensures { OnOk result (map ranked_seen found.new.items ≡ map ranked_seen found.old.items
        ++ cons_option (option_and_then (λ e. at_reference docs.now (chosen query.now behind.now) e.0) (slice_get set.now place)) []) }
{
    match set.at(place) {
        Some(entry) => add_chosen(alloc, docs, query, behind, &entry.0, found),
        None => Ok(()),
    }
}

// Adds the documents of the references whose values stand behind the key, until there are enough.
fn add_looked<'a>(
    alloc: Global,
    docs: &'a Map<Ref, Node>,
    query: &Query,
    most: usize,
    behind: &Text,
    set: &'a Set,
    found: &mut Vec<Ranked<'a>>,
) -> Result<(), AllocError>
    ensures { OnOk result (take most (map ranked_seen found.new.items)
        ≡ take most (map ranked_seen found.old.items ++ looked query.now docs.now behind.now set.now)) }
{
    let mut place = 0;
    while place < set.len() {
        if found.len() >= most {
            return Ok(());
        }
        add_listed(alloc, docs, query, behind, set, place, found)?;
        place += 1;
    }
    Ok(())
}

// Adds the documents with the value of the entry's term, until there are enough.
fn add_under<'a>(
    alloc: Global,
    docs: &'a Map<Ref, Node>,
    query: &Query,
    most: usize,
    entry: &'a (Term, Set),
    found: &mut Vec<Ranked<'a>>,
) -> Result<(), AllocError>
    requires listed { IsListed docs.now entry.now }
    requires key { entry.now.0.0 ≡ key_of query.now.order }
    ensures { OnOk result (take most (map ranked_seen found.new.items)
        ≡ take most (map ranked_seen found.old.items ++ with_value entry.now.0.1 (candidates query.now docs.now))) }
{
    docs.in_order();
    entry.1.in_order();
    add_looked(alloc, docs, query, most, &entry.0.1, &entry.1, found)
}

// Adds those of the entry at a place, if there is one.
fn add_at<'a>(
    alloc: Global,
    docs: &'a Map<Ref, Node>,
    lists: &'a Lists,
    query: &Query,
    most: usize,
    place: usize,
    found: &mut Vec<Ranked<'a>>,
) -> Result<(), AllocError>
    requires listed { AreLists docs.now lists.now }
    requires key { IfSome (slice_get lists.now place) (λ e. e.0.0 ≡ key_of query.now.order) }
    ensures { OnOk result (take most (map ranked_seen found.new.items)
        ≡ take most (map ranked_seen found.old.items ++ at_entry (slice_get lists.now place) (candidates query.now docs.now))) }
{
    lists.in_order();
    match lists.at(place) {
        Some(entry) => add_under(alloc, docs, query, most, entry, found),
        None => Ok(()),
    }
}

// ---- the documents by value

// The first documents by rising value, at the values from one place up to another.
fn rising<'a>(
    alloc: Global,
    docs: &'a Map<Ref, Node>,
    lists: &'a Lists,
    query: &Query,
    most: usize,
    start: usize,
    end: usize,
) -> Result<Vec<Ranked<'a>>, AllocError>
    requires listed { AreLists docs.now lists.now }
    requires key { AreAtKey (key_of query.now.order) (span start end lists.now) }
    ensures { IfOk result (λ v. take most (map ranked_seen v.items)
        ≡ take most (by_value false (behinds (span start end lists.now)) (candidates query.now docs.now))) }
{
    let mut found = Vec::new(alloc);
    let mut place = start;
    while place < end {
        if found.len() >= most {
            return Ok(found);
        }
        add_at(alloc, docs, lists, query, most, place, &mut found)?;
        place += 1;
    }
    Ok(found)
}

// The first documents by falling value, at the values from one place up to another.
fn falling<'a>(
    alloc: Global,
    docs: &'a Map<Ref, Node>,
    lists: &'a Lists,
    query: &Query,
    most: usize,
    start: usize,
    end: usize,
) -> Result<Vec<Ranked<'a>>, AllocError>
    requires listed { AreLists docs.now lists.now }
    requires key { AreAtKey (key_of query.now.order) (span start end lists.now) }
    ensures { IfOk result (λ v. take most (map ranked_seen v.items)
        ≡ take most (by_value true (behinds (span start end lists.now)) (candidates query.now docs.now))) }
{
    let mut found = Vec::new(alloc);
    let mut place = end;
    while start < place {
        if found.len() >= most {
            return Ok(found);
        }
        place -= 1;
        add_at(alloc, docs, lists, query, most, place, &mut found)?;
    }
    Ok(found)
}

// ---- where the values begin and end

// The value behind `=`, with a text behind it.
fn behind(alloc: Global, value: &str, tail: &str) -> Result<Text, AllocError>
    ensures { IfOk result (λ t. t ≡ 61 ∷ value.now ++ tail.now) }
{
    let mut text = String::from_str(alloc, "=")?;
    text.push_str(value)?;
    text.push_str(tail)?;
    Ok(Text::from_string(text))
}

fn begin_at(alloc: Global, falls: bool, value: &Option<Text>) -> Result<Text, AllocError>
    ensures { IfOk result (λ t. t ≡ begin_at falls value.now) }
{
    match value {
        None => Text::of(alloc, ">"),
        Some(_) if falls => Text::of(alloc, "="),
        Some(value) => behind(alloc, value.as_str(), ""),
    }
}

fn end_at(alloc: Global, falls: bool, value: &Option<Text>) -> Result<Text, AllocError>
    ensures { IfOk result (λ t. t ≡ end_at falls value.now) }
{
    match value {
        Some(value) if falls => behind(alloc, value.as_str(), "\0"),
        Some(_) | None => Text::of(alloc, ">"),
    }
}

fn begins(alloc: Global, falls: bool, cursor: &Option<Cursor>) -> Result<Text, AllocError>
    ensures { IfOk result (λ t. t ≡ begins falls cursor.now) }
{
    match cursor {
        None => Text::of(alloc, "="),
        Some(cursor) => begin_at(alloc, falls, &cursor.value),
    }
}

fn ends(alloc: Global, falls: bool, cursor: &Option<Cursor>) -> Result<Text, AllocError>
    ensures { IfOk result (λ t. t ≡ ends falls cursor.now) }
{
    match cursor {
        None => Text::of(alloc, ">"),
        Some(cursor) => end_at(alloc, falls, &cursor.value),
    }
}

// The key of the order in lower case.
fn key_of(alloc: Global, order: &Option<OrderBy>) -> Result<Text, AllocError>
    ensures { IfOk result (λ t. t ≡ key_of order.now) }
{
    match order {
        None => Text::of(alloc, ""),
        Some(order) => lower(alloc, order.key.as_str()),
    }
}

// The place of the first term whose documents may follow the cursor.
fn start_of(alloc: Global, query: &Query, lists: &Lists) -> Result<usize, AllocError>
    ensures { IfOk result (λ n. n ≡ start_of query.now lists.now) }
{
    let key = key_of(alloc, &query.order)?;
    let begins = begins(alloc, is_falling(&query.order), &query.cursor)?;
    Ok(lists.place(&(key, begins)))
}

// The place behind the last one.
fn end_of(alloc: Global, query: &Query, lists: &Lists) -> Result<usize, AllocError>
    ensures { IfOk result (λ n. n ≡ end_of query.now lists.now) }
{
    let key = key_of(alloc, &query.order)?;
    let ends = ends(alloc, is_falling(&query.order), &query.cursor)?;
    Ok(lists.place(&(key, ends)))
}

// ---- the whole

// The first documents with a value.
fn valued<'a>(
    alloc: Global,
    docs: &'a Map<Ref, Node>,
    lists: &'a Lists,
    query: &Query,
    most: usize,
) -> Result<Vec<Ranked<'a>>, AllocError>
    requires listed { AreLists docs.now lists.now }
    ensures { IfOk result (λ v. take most (map ranked_seen v.items)
        ≡ take most (by_value (is_falling query.now.order)
        (behinds (span (start_of query.now lists.now) (end_of query.now lists.now) lists.now)) (candidates query.now docs.now))) }
{
    lists.in_order();
    let start = start_of(alloc, query, lists)?;
    let end = end_of(alloc, query, lists)?;
    if is_falling(&query.order) {
        falling(alloc, docs, lists, query, most, start, end)
    } else {
        rising(alloc, docs, lists, query, most, start, end)
    }
}

// Adds the document at a place, where it has no value.
fn add_unvalued<'a>(
    alloc: Global,
    docs: &'a Map<Ref, Node>,
    query: &Query,
    place: usize,
    found: &mut Vec<Ranked<'a>>,
) -> Result<(), AllocError>
    ensures { OnOk result (map ranked_seen found.new.items
        ≡ map ranked_seen found.old.items ++ cons_option (option_and_then (unvalued query.now) (slice_get docs.now place)) []) }
{
    match docs.at(place) {
        Some(entry) => add(unvalued(alloc, query, &entry.0, entry.1.tree())?, found),
        None => Ok(()),
    }
}

// The place from which on documents without a value may follow the cursor.
fn rest_start(cursor: &Option<Cursor>, docs: &Map<Ref, Node>) -> usize
    ensures { result ≡ rest_start cursor.now docs.now }
{
    match cursor {
        None => 0,
        Some(cursor) => rest_at(cursor, docs),
    }
}

fn rest_at(cursor: &Cursor, docs: &Map<Ref, Node>) -> usize
    ensures { result ≡ rest_at cursor.now.value cursor.now.reference docs.now }
{
    match cursor.value {
        None => docs.place(&cursor.reference),
        Some(_) => 0,
    }
}

// Adds the documents without a value, until there are enough.
fn add_rest<'a>(
    alloc: Global,
    docs: &'a Map<Ref, Node>,
    query: &Query,
    most: usize,
    found: &mut Vec<Ranked<'a>>,
) -> Result<(), AllocError>
    ensures { OnOk result (take most (map ranked_seen found.new.items)
        ≡ take most (map ranked_seen found.old.items ++ without_value (candidates query.now docs.now))) }
{
    let mut place = rest_start(&query.cursor, docs);
    while place < docs.len() {
        if found.len() >= most {
            return Ok(());
        }
        add_unvalued(alloc, docs, query, place, found)?;
        place += 1;
    }
    Ok(())
}

/// The first of the documents that match and follow the query's cursor, in its order. The lists are those of the documents.
pub fn first<'a>(
    alloc: Global,
    docs: &'a Map<Ref, Node>,
    lists: &'a Lists,
    query: &Query,
    most: usize,
) -> Result<Vec<Ranked<'a>>, AllocError>
    requires { AreLists docs.now lists.now }
    ensures { IfOk result (λ v. map ranked_seen v.items
        ≡ take most (ranked query.now.order query.now.cursor (matching query.now.filters docs.now))) }
{
    docs.in_order();
    lists.in_order();
    let mut found = valued(alloc, docs, lists, query, most)?;
    add_rest(alloc, docs, query, most, &mut found)?;
    found.truncate(most);
    Ok(found)
}
