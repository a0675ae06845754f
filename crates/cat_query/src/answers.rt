//! Answers that show documents, as compact JSON. Each is appended part by part from the stored documents, so no document is
//! copied where nothing is projected; and it is appended whole, or not at all.
ghost use Rattle.std.specs.Prelude.{◌≡◌, ◌++◌, ◌∷◌, ◌⊎◌, [], None, Some, OnOk, OnErr, IfErr, IfOk, codes, decimal, false, map, option_map};
ghost use Rattle.serde_json.specs.Written.{comma_if, items_text};
ghost use Rattle.cat_tree.specs.Data.{items_of};
ghost use Rattle.cat_tree.specs.Text.{json_items, text_of};
ghost use Rattle.cat_tree.specs.View.{data_of};
ghost use Rattle.cat_query.specs.Answers.{IsKept, facets_answer, facets_in, facets_shown, list_data, listed, looked_up, many_data, page_data, page_info, page_shown, shown, shown_or_null};
ghost use Rattle.cat_pages.specs.Page.{pair_seen};
ghost use Rattle.cat_query.specs.Project.{projected};
ghost use Rattle.cat_pages.specs.Seen.{pair_of};
ghost use Rattle.cat_pages.specs.SeenPage.{items_seen};

use crate::cursor::write_cursor;
use crate::facets::{FacetFault, facets};
use crate::project::project;
use cat_collections::listing::Listing;
use cat_pages::documents::Documents;
use cat_pages::page::Page;
use cat_pages::paging::page;
use cat_pages::query::{Cursor, Query};
use cat_pages::rank::Ranked;
use cat_tree::room::{size, write_within};
use cat_tree::text::Text;
use cat_tree::tree::{Pairs, Tree};
use cat_types::reference::Ref;
use std::alloc::{AllocError, Global};

const MOST_SIZE: u64 = 1 << 62;

/// Appends the list of the documents that match, as the fields keep them, in order of reference. Where memory is wanted,
/// nothing is appended.
pub fn push_list<D: Documents>(
    alloc: Global,
    out: &mut Vec<u8>,
    docs: &D,
    query: &Query,
) -> Result<(), AllocError>
    ensures ok { OnOk result (out.new.items ≡ out.old.items ++ text_of (list_data query.now (D.pairs docs.now))) }
    ensures err { OnErr result (out.new.items ≡ out.old.items) }
{
    let start = out.len();
    let pushed = push_list_text(alloc, out, docs, query);
    if pushed.is_err() {
        out.truncate(start);
    }
    pushed
}

/// Appends the page that a query asks for: its items as the fields keep them, the next cursor where more follow, and how
/// many documents match. Where memory is wanted, nothing is appended.
pub fn push_page<D: Documents>(
    alloc: Global,
    out: &mut Vec<u8>,
    docs: &D,
    query: &Query,
) -> Result<(), AllocError>
    ensures ok { OnOk result (out.new.items ≡ out.old.items ++ text_of (page_data query.now (D.pairs docs.now))) }
    ensures err { OnErr result (out.new.items ≡ out.old.items) }
{
    let page = page(alloc, docs, query)?;
    let start = out.len();
    let pushed = push_page_text(alloc, out, &page, &query.fields);
    if pushed.is_err() {
        out.truncate(start);
    }
    pushed
}

/// Appends the facets of the documents that match. `NoFacet` comes exactly where the query names no key; after an error
/// nothing is appended.
pub fn push_facets<D: Documents>(
    alloc: Global,
    out: &mut Vec<u8>,
    docs: &D,
    query: &Query,
) -> Result<(), FacetFault>
    ensures ok { OnOk result (out.new.items ≡ out.old.items ++ text_of (facets_shown query.now (D.pairs docs.now))) }
    ensures some { OnOk result (facets_answer query.now (D.pairs docs.now) ≡ Some (facets_shown query.now (D.pairs docs.now))) }
    ensures none { IfErr result (λ e. (e ≡ FacetFault.NoMemory)
        ⊎ ((e ≡ FacetFault.NoFacet) × (facets_answer query.now (D.pairs docs.now) ≡ None))) }
    ensures err { OnErr result (out.new.items ≡ out.old.items) }
{
    let facets = facets(alloc, docs, query)?;
    push_facets_text(out, &facets)?;
    Ok(())
}

/// Appends the documents of references one by one, as the fields keep them, with null for what has no document. Where
/// memory is wanted, nothing is appended.
pub fn push_many<D: Documents>(
    alloc: Global,
    out: &mut Vec<u8>,
    docs: &D,
    references: &[Ref],
    fields: &Listing<Listing<Text>>,
) -> Result<(), AllocError>
    ensures ok { OnOk result (out.new.items ≡ out.old.items ++ text_of (many_data references.now fields.now (D.pairs docs.now))) }
    ensures err { OnErr result (out.new.items ≡ out.old.items) }
{
    let start = out.len();
    let pushed = push_many_text(alloc, out, docs, references, fields);
    if pushed.is_err() {
        out.truncate(start);
    }
    pushed
}

/// Appends the compact text of a tree, for which all room is taken first. Where memory is wanted, nothing is appended.
pub fn push_tree(out: &mut Vec<u8>, tree: &Tree) -> Result<(), AllocError>
    ensures ok { OnOk result (out.new.items ≡ out.old.items ++ text_of (data_of tree.now)) }
    ensures err { OnErr result (out.new.items ≡ out.old.items) }
{
    let size = size(tree);
    if size == MOST_SIZE {
        return Err(AllocError);
    }
    out.reserve(size as usize)?;
    write_within(tree, out);
    Ok(())
}

// Appends facets as an answer. Where memory is wanted, nothing is appended.
fn push_facets_text(out: &mut Vec<u8>, facets: &Tree) -> Result<(), AllocError>
    ensures ok { OnOk result (out.new.items ≡ out.old.items ++ text_of (facets_in (data_of facets.now))) }
    ensures err { OnErr result (out.new.items ≡ out.old.items) }
{
    let start = out.len();
    let pushed = push_last(out, b"{\"facets\":", facets);
    if pushed.is_err() {
        out.truncate(start);
    }
    pushed
}

// Appends words and the text of a tree, or the words alone.
fn push_after(out: &mut Vec<u8>, words: &[u8], tree: &Tree) -> Result<(), AllocError>
    ensures ok { OnOk result (out.new.items ≡ out.old.items ++ (words.now ++ text_of (data_of tree.now))) }
    ensures kept { IsKept out.old.items out.new.items }
{
    out.extend_from_slice(words)?;
    push_tree(out, tree)
}

// Appends words, the text of a tree and a closing brace, or a part of this.
fn push_last(out: &mut Vec<u8>, words: &[u8], tree: &Tree) -> Result<(), AllocError>
    ensures ok { OnOk result (out.new.items ≡ out.old.items ++ (words.now ++ (text_of (data_of tree.now) ++ 125 ∷ []))) }
    ensures kept { IsKept out.old.items out.new.items }
{
    push_after(out, words, tree)?;
    out.push(b'}')?;
    Ok(())
}

// Appends the document as the fields keep it.
fn push_shown(
    alloc: Global,
    out: &mut Vec<u8>,
    document: &Tree,
    fields: &Listing<Listing<Text>>,
) -> Result<(), AllocError>
    ensures ok { OnOk result (out.new.items ≡ out.old.items ++ text_of (projected fields.now (data_of document.now))) }
    ensures err { OnErr result (out.new.items ≡ out.old.items) }
{
    if fields.is_empty() {
        return push_tree(out, document);
    }
    push_tree(out, &project(alloc, document, fields)?)
}

// Appends the document as the fields keep it, behind a comma where something stands before; or a part of this.
fn push_item(
    alloc: Global,
    out: &mut Vec<u8>,
    later: bool,
    document: &Tree,
    fields: &Listing<Listing<Text>>,
) -> Result<(), AllocError>
    ensures ok { OnOk result (out.new.items
        ≡ out.old.items ++ (comma_if later ++ text_of (projected fields.now (data_of document.now)))) }
    ensures kept { IsKept out.old.items out.new.items }
{
    if later {
        out.push(b',')?;
    }
    push_shown(alloc, out, document, fields)
}

// Appends the documents with the closing bracket, or a part of this.
fn push_matching(
    alloc: Global,
    out: &mut Vec<u8>,
    documents: &[(&Ref, &Tree)],
    fields: &Listing<Listing<Text>>,
) -> Result<(), AllocError>
    ensures ok { OnOk result (out.new.items
        ≡ out.old.items ++ items_text false (json_items (items_of (shown fields.now (map pair_seen documents.now))))) }
    ensures kept { IsKept out.old.items out.new.items }
{
    let mut later = false;
    for (_, document) in documents {
        push_item(alloc, out, later, document, fields)?;
        later = true;
    }
    out.push(b']')?;
    Ok(())
}

// Appends the documents that match with the closing bracket, or a part of this.
fn push_listed<D: Documents>(
    alloc: Global,
    out: &mut Vec<u8>,
    docs: &D,
    query: &Query,
) -> Result<(), AllocError>
    ensures ok { OnOk result (out.new.items
        ≡ out.old.items ++ items_text false (json_items (items_of (listed query.now (D.pairs docs.now))))) }
    ensures kept { IsKept out.old.items out.new.items }
{
    let matching = docs.matching(alloc, query.filters.as_slice())?;
    push_matching(alloc, out, matching.as_slice(), &query.fields)
}

// Appends the list of the documents that match, or a part of it.
fn push_list_text<D: Documents>(
    alloc: Global,
    out: &mut Vec<u8>,
    docs: &D,
    query: &Query,
) -> Result<(), AllocError>
    ensures ok { OnOk result (out.new.items ≡ out.old.items ++ text_of (list_data query.now (D.pairs docs.now))) }
    ensures kept { IsKept out.old.items out.new.items }
{
    out.push(b'[')?;
    push_listed(alloc, out, docs, query)
}

// Appends the documents of a page with the closing bracket, or a part of this.
fn push_items(
    alloc: Global,
    out: &mut Vec<u8>,
    items: &[Ranked<'_>],
    fields: &Listing<Listing<Text>>,
) -> Result<(), AllocError>
    ensures ok { OnOk result (out.new.items
        ≡ out.old.items ++ items_text false (json_items (items_of (shown fields.now (map pair_of items.now))))) }
    ensures kept { IsKept out.old.items out.new.items }
{
    let mut later = false;
    for item in items {
        push_item(alloc, out, later, item.document, fields)?;
        later = true;
    }
    out.push(b']')?;
    Ok(())
}

// What a page says of the next one.
fn page_info(alloc: Global, next: &Option<Cursor>) -> Result<Tree, AllocError>
    ensures { IfOk result (λ t. data_of t ≡ page_info next.now) }
{
    let mut pairs = Pairs::new(alloc);
    if let Some(cursor) = next {
        let key = Text::of(alloc, "nextCursor")?;
        pairs.insert(key, Tree::Words(write_cursor(alloc, cursor)?))?;
    }
    Ok(Tree::Map(pairs))
}

// Appends what comes behind the items of a page, or a part of it.
fn push_page_end(alloc: Global, out: &mut Vec<u8>, page: &Page) -> Result<(), AllocError>
    ensures ok { OnOk result (out.new.items ≡ out.old.items ++ (codes ",\"pageInfo\":" ++ (text_of (page_info page.now.next)
        ++ (codes ",\"totalItems\":" ++ (decimal page.now.total ++ 125 ∷ []))))) }
    ensures kept { IsKept out.old.items out.new.items }
{
    let total = Tree::Whole(i128::from(page.total));
    push_after(out, b",\"pageInfo\":", &page_info(alloc, &page.next)?)?;
    push_last(out, b",\"totalItems\":", &total)
}

// Appends a page, or a part of it.
fn push_page_text(
    alloc: Global,
    out: &mut Vec<u8>,
    page: &Page,
    fields: &Listing<Listing<Text>>,
) -> Result<(), AllocError>
    ensures ok { OnOk result (out.new.items ≡ out.old.items ++ text_of (page_shown fields.now (items_seen page.now) page.now.next page.now.total)) }
    ensures kept { IsKept out.old.items out.new.items }
{
    out.extend_from_slice(b"{\"items\":[")?;
    push_items(alloc, out, page.items.as_slice(), fields)?;
    push_page_end(alloc, out, page)
}

// Appends the document as the fields keep it, or null where there is none, behind a comma where something stands before; or
// a part of this.
fn push_found(
    alloc: Global,
    out: &mut Vec<u8>,
    later: bool,
    document: Option<&Tree>,
    fields: &Listing<Listing<Text>>,
) -> Result<(), AllocError>
    ensures ok { OnOk result (out.new.items
        ≡ out.old.items ++ (comma_if later ++ text_of (shown_or_null fields.now (option_map (λ t. data_of t.now) document.entry)))) }
    ensures kept { IsKept out.old.items out.new.items }
{
    match document {
        Some(document) => push_item(alloc, out, later, document, fields),
        None => push_null(out, later),
    }
}

// Appends null, behind a comma where something stands before.
fn push_null(out: &mut Vec<u8>, later: bool) -> Result<(), AllocError>
    ensures ok { OnOk result (out.new.items ≡ out.old.items ++ (comma_if later ++ codes "null")) }
    ensures err { OnErr result (out.new.items ≡ out.old.items) }
{
    out.extend_from_slice(if later { b",null" } else { b"null" })
}

// Appends what there is under the references with the closing bracket, or a part of this.
fn push_looked_up<D: Documents>(
    alloc: Global,
    out: &mut Vec<u8>,
    docs: &D,
    references: &[Ref],
    fields: &Listing<Listing<Text>>,
) -> Result<(), AllocError>
    ensures ok { OnOk result (out.new.items
        ≡ out.old.items ++ items_text false (json_items (items_of (looked_up fields.now (D.pairs docs.now) references.now)))) }
    ensures kept { IsKept out.old.items out.new.items }
{
    let mut later = false;
    for reference in references {
        push_found(alloc, out, later, docs.get(reference), fields)?;
        later = true;
    }
    out.push(b']')?;
    Ok(())
}

// Appends the documents of references, or a part of this.
fn push_many_text<D: Documents>(
    alloc: Global,
    out: &mut Vec<u8>,
    docs: &D,
    references: &[Ref],
    fields: &Listing<Listing<Text>>,
) -> Result<(), AllocError>
    ensures ok { OnOk result (out.new.items ≡ out.old.items ++ text_of (many_data references.now fields.now (D.pairs docs.now))) }
    ensures kept { IsKept out.old.items out.new.items }
{
    out.extend_from_slice(b"{\"items\":[")?;
    push_looked_up(alloc, out, docs, references, fields)?;
    out.push(b'}')?;
    Ok(())
}
