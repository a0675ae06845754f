//! How many documents have each value of a key.
ghost use Rattle.std.specs.Prelude.{◌≡◌, ◌≢◌, ◌⊎◌, ℕ, List, [], IfOk, IfErr, OnOk, Some, map};
ghost use Rattle.std.specs.Option.{unwrap_or};
ghost use Rattle.cat_tree.specs.Data.{items_of, list};
ghost use Rattle.cat_state_parts.specs.Rows.{document_rows, values_at};
ghost use Rattle.cat_collections.specs.Order.{in_order};
ghost use Rattle.cat_tree.specs.View.{data_of, entry_of};
ghost use Rattle.cat_collections.specs.Table.{get, keys, tabulate, text_cmp};
ghost use Rattle.cat_pages.specs.Page.{pair_seen};
ghost use Rattle.cat_query.specs.Facets.{all_more, count_data, counts, facet_data, facet_map, facets_data, how_many, one_more, values_among};

use cat_collections::listing::Copied;
use cat_collections::map::Map;
use cat_pages::documents::Documents;
use cat_pages::query::Query;
use cat_search::values::values_at;
use cat_tree::text::Text;
use cat_tree::tree::{Pairs, Tree, Trees};
use cat_types::reference::Ref;
use std::alloc::{AllocError, Global};
use thiserror::Error;

/// Why there are no facets.
#[derive(Clone, Copy, Debug, Drop, PartialEq, Eq, Error)]
pub enum FacetFault {
    /// The query names no key.
    #[error("the query names no facet")]
    NoFacet,
    /// Memory is wanted.
    #[error("out of memory")]
    NoMemory,
}

impl From<AllocError> for FacetFault {
    ghost use Rattle.std.specs.Prelude.{◌≡◌};
    ghost use Rattle.cat_query.specs.declared.facets.FacetFault.TheVariants.{NoMemory};

    ghost from_gives = { λ _ e. e ≡ NoMemory };

    fn from(_refused: AllocError) -> FacetFault {
        FacetFault::NoMemory
    }
}

// The texts in order, each once.
fn in_order(alloc: Global, texts: &[Text]) -> Result<Map<Text, ()>, AllocError>
    ensures { IfOk result (λ t. t ≡ tabulate text_cmp texts.now (λ x. Some (tt {0}))) }
{
    let mut distinct = Map::new();
    let mut left = texts.len();
    while left > 0 {
        left -= 1;
        distinct.put(alloc, texts[left].duplicate(alloc)?, ())?;
    }
    Ok(distinct)
}

fn count_at(counts: &Map<Text, u64>, text: &Text) -> u64
    ensures { result ≡ unwrap_or (get counts.now text.now) 0 }
{
    counts.get(text).copied().unwrap_or(0)
}

// One more at the text. There are never so many documents that a count doesn't fit.
fn add_one(alloc: Global, text: &Text, counts: &mut Map<Text, u64>) -> Result<(), AllocError>
    ensures { OnOk result (counts.new ≡ one_more text.now counts.old) }
{
    let count = count_at(counts, text);
    if count == u64::MAX {
        return Err(AllocError);
    }
    counts.put(alloc, text.duplicate(alloc)?, count + 1)
}

// One more at each of the texts.
fn add_all(
    alloc: Global,
    texts: &Map<Text, ()>,
    counts: &mut Map<Text, u64>,
) -> Result<(), AllocError>
    ensures { OnOk result (counts.new ≡ all_more (keys texts.now) counts.old) }
{
    for (text, _) in texts.iter() {
        add_one(alloc, text, counts)?;
    }
    Ok(())
}

// One more at each value that the document has.
fn add_document(
    alloc: Global,
    key: &str,
    document: &Tree,
    counts: &mut Map<Text, u64>,
) -> Result<(), AllocError>
    ensures { OnOk result (counts.new ≡ all_more (in_order text_cmp (values_at key.now (document_rows (data_of document.now)))) counts.old) }
{
    let values = values_at(alloc, document, key)?;
    let distinct = in_order(alloc, values.as_slice())?;
    add_all(alloc, &distinct, counts)
}

/// How many of the documents have each value of a key.
pub fn counts(
    alloc: Global,
    documents: &[(&Ref, &Tree)],
    key: &str,
) -> Result<Map<Text, u64>, AllocError>
    ensures ok { IfOk result (λ t. t ≡ counts (values_among key.now (map pair_seen documents.now))) }
    ensures each { IfOk result (λ t. (v : List ℕ) → unwrap_or (get t v) 0 ≡ how_many v (values_among key.now (map pair_seen documents.now))) }
{
    let mut counts = Map::new();
    for (_, document) in documents {
        add_document(alloc, key, document, &mut counts)?;
    }
    Ok(counts)
}

// A value with its count.
fn count_tree(alloc: Global, value: &Text, count: u64) -> Result<Tree, AllocError>
    ensures { IfOk result (λ t. data_of t ≡ count_data (value.now, count)) }
{
    let mut pairs = Pairs::new(alloc);
    pairs.insert(Text::of(alloc, "count")?, Tree::Whole(i128::from(count)))?;
    pairs.insert(
        Text::of(alloc, "value")?,
        Tree::Words(value.duplicate(alloc)?),
    )?;
    Ok(Tree::Map(pairs))
}

fn list_of(alloc: Global, counts: &Map<Text, u64>) -> Result<Tree, AllocError>
    ensures { IfOk result (λ t. data_of t ≡ list (items_of (map count_data counts.now))) }
{
    let mut items = Vec::with_capacity(alloc, counts.len())?;
    for (value, count) in counts.iter() {
        items.push(count_tree(alloc, value, *count)?)?;
    }
    Ok(Tree::List(Trees::from_vec(items)))
}

fn facet(alloc: Global, documents: &[(&Ref, &Tree)], key: &str) -> Result<Tree, AllocError>
    ensures { IfOk result (λ t. data_of t ≡ facet_data (map pair_seen documents.now) key.now) }
{
    let counts = counts(alloc, documents, key)?;
    list_of(alloc, &counts)
}

// Each of the keys with its values.
fn facet_list(
    alloc: Global,
    documents: &[(&Ref, &Tree)],
    keys: &Map<Text, ()>,
) -> Result<Vec<(Text, Tree)>, AllocError>
    ensures { IfOk result (λ v. map entry_of v.items ≡ map (λ e. (e.0, facet_data (map pair_seen documents.now) e.0)) keys.now) }
{
    let mut entries = Vec::with_capacity(alloc, keys.len())?;
    for (key, _) in keys.iter() {
        let facet = facet(alloc, documents, key.as_str())?;
        entries.push((key.duplicate(alloc)?, facet))?;
    }
    Ok(entries)
}

fn facet_map(alloc: Global, documents: &[(&Ref, &Tree)], keys: &[Text]) -> Result<Pairs, AllocError>
    ensures { IfOk result (λ ps. ps ≡ facet_map (map pair_seen documents.now) keys.now) }
{
    let distinct = in_order(alloc, keys)?;
    distinct.in_order();
    let entries = facet_list(alloc, documents, &distinct)?;
    Ok(Pairs::from_vec(entries))
}

/// For each facet key of the query, as it is written, the list of `{"count":N,"value":V}`: the distinct
/// values of the key among the documents that match, in their own spelling and in byte order, each with
/// the number of matching documents that have it. `NoFacet` comes exactly where the query names no key.
pub fn facets<D: Documents>(alloc: Global, docs: &D, query: &Query) -> Result<Tree, FacetFault>
    ensures ok { IfOk result (λ t. data_of t ≡ facets_data query.now.filters query.now.facets (D.pairs docs.now)) }
    ensures some { IfOk result (λ _. query.now.facets ≢ []) }
    ensures err { IfErr result (λ e. (e ≡ FacetFault.NoMemory)
        ⊎ ((e ≡ FacetFault.NoFacet) × (query.now.facets ≡ []))) }
{
    let keys = query.facets.as_slice();
    if keys.is_empty() {
        return Err(FacetFault::NoFacet);
    }
    let matching = docs.matching(alloc, query.filters.as_slice())?;
    let pairs = facet_map(alloc, matching.as_slice(), keys)?;
    Ok(Tree::Map(pairs))
}
