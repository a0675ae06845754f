//! Queries over documents.
use crate::fault::Fault;
use cat_case::case::Case;
use cat_case::shown::{push_bytes, push_counted, push_gap, push_json};
use cat_collections::map::Map;
use cat_pages::page::Page;
use cat_pages::paging::page;
use cat_pages::query::{Cursor, Query};
use cat_query::answers::{push_facets, push_list, push_many, push_page};
use cat_query::cursor::write_cursor;
use cat_query::facets::facets;
use cat_query::project::project;
use cat_query::read::read_query;
use cat_tree::clone::copy;
use cat_tree::tree::Tree;
use cat_types::node::Node;
use cat_types::reference::{Ref, parse, ref_of};
use std::alloc::{AllocError, Global};

type Documents = Map<Ref, Node>;

// A tree as one that is shared.
fn node(alloc: Global, tree: &Tree) -> Result<Node, AllocError> {
    let copied = copy(alloc, tree)?;
    Node::new(alloc, copied)
}

// Puts a document under its reference.
fn put_document(
    alloc: Global,
    documents: &mut Documents,
    reference: Ref,
    tree: &Tree,
) -> Result<(), AllocError> {
    let document = node(alloc, tree)?;
    documents.put(alloc, reference, document)
}

// Puts a document under the reference that it has.
fn put_tree(alloc: Global, documents: &mut Documents, tree: &Tree) -> Result<(), Fault> {
    let reference = ref_of(alloc, tree)?;
    put_document(alloc, documents, reference, tree).map_err(Fault::Memory)
}

fn put_trees(alloc: Global, documents: &mut Documents, trees: &[Tree]) -> Result<(), Fault> {
    for tree in trees {
        put_tree(alloc, documents, tree)?;
    }
    Ok(())
}

// The trees that are listed in a tree.
fn listed(tree: &Tree) -> &[Tree] {
    match tree {
        Tree::List(trees) => trees.as_slice(),
        _ => &[],
    }
}

// Puts the name of the document at a place of a page, if it has one there, behind what stands so far.
fn push_name(out: &mut String, page: &Page<'_>, place: usize) -> Result<(), AllocError> {
    match page.at(place) {
        Some((reference, _)) => out.push_str(reference.parts().name),
        None => Ok(()),
    }
}

// Puts the names of a page, one after the other, and how many documents there are over all pages, behind what stands so far.
fn push_names(out: &mut String, page: &Page<'_>) -> Result<(), AllocError> {
    for place in 0..5 {
        push_name(out, page, place)?;
    }
    push_counted(out, "/", page.total())
}

// Puts the text of a cursor behind what stands so far.
fn push_cursor(out: &mut String, alloc: Global, cursor: &Cursor) -> Result<(), AllocError> {
    let text = write_cursor(alloc, cursor)?;
    out.push_str(text.as_str())
}

// Puts the text of the cursor behind a page, and nothing behind the last one, behind what stands so far.
fn push_next(out: &mut String, alloc: Global, page: &Page<'_>) -> Result<(), AllocError> {
    match page.next() {
        Some(cursor) => push_cursor(out, alloc, cursor),
        None => Ok(()),
    }
}

// Puts the names of a page behind what stands so far, and gives the text of the cursor behind it.
fn push_seen(out: &mut String, alloc: Global, page: &Page<'_>) -> Result<String, AllocError> {
    push_gap(out)?;
    push_names(out, page)?;
    let mut cursor = String::new(alloc);
    push_next(&mut cursor, alloc, page)?;
    Ok(cursor)
}

// Puts the names of the page of a query behind what stands so far, and gives the text of the cursor behind it.
fn push_queried(
    out: &mut String,
    alloc: Global,
    docs: &Documents,
    query: &Query,
) -> Result<String, Fault> {
    let page = page(alloc, docs, query)?;
    push_seen(out, alloc, &page).map_err(Fault::Memory)
}

// Puts the names of the page of a query's text behind what stands so far, and gives the text of the cursor behind it.
fn push_read(
    out: &mut String,
    alloc: Global,
    docs: &Documents,
    text: &str,
) -> Result<String, Fault> {
    let query = read_query(alloc, text)?;
    push_queried(out, alloc, docs, &query)
}

// The text of a query behind a cursor.
fn behind(alloc: Global, cursor: &str, text: &str) -> Result<String, AllocError> {
    ["cursor=", cursor, "&", text].concat(alloc)
}

// Puts the names of the page behind a cursor, if there is one, behind what stands so far, and gives the text of the cursor behind it.
fn push_behind(
    out: &mut String,
    alloc: Global,
    docs: &Documents,
    cursor: &str,
    text: &str,
) -> Result<String, Fault> {
    if cursor.is_empty() {
        return Ok(String::new(alloc));
    }
    let text = behind(alloc, cursor, text)?;
    push_read(out, alloc, docs, text.as_str())
}

// Puts the pages of a query, as far as there are four, each by the cursor behind the one before it, behind what stands so far.
fn push_pages(out: &mut String, alloc: Global, docs: &Documents, text: &str) -> Result<(), Fault> {
    let mut cursor = push_read(out, alloc, docs, text)?;
    for _ in 0..3 {
        cursor = push_behind(out, alloc, docs, cursor.as_str(), text)?;
    }
    Ok(())
}

// Puts the text of the cursor behind the page of a query behind what stands so far.
fn push_last(
    out: &mut String,
    alloc: Global,
    docs: &Documents,
    query: &Query,
) -> Result<(), AllocError> {
    let page = page(alloc, docs, query)?;
    push_next(out, alloc, &page)
}

// Puts the facets of a query as a tree behind what stands so far.
fn push_counts(
    out: &mut String,
    alloc: Global,
    docs: &Documents,
    query: &Query,
) -> Result<(), Fault> {
    let tree = facets(alloc, docs, query)?;
    push_json(out, alloc, &tree).map_err(Fault::Show)
}

// Puts the documents of two references behind bytes.
fn put_many(
    alloc: Global,
    bytes: &mut Vec<u8>,
    docs: &Documents,
    query: &Query,
    case: &Case,
) -> Result<(), Fault> {
    let first = parse(alloc, case.text(3), None, "default")?;
    let second = parse(alloc, case.text(4), None, "default")?;
    push_many(alloc, bytes, docs, &[first, second], &query.fields).map_err(Fault::Memory)
}

// Puts what is put as the answer to a question behind bytes.
fn put(
    alloc: Global,
    bytes: &mut Vec<u8>,
    question: &str,
    docs: &Documents,
    query: &Query,
    case: &Case,
) -> Result<(), Fault> {
    match question {
        "many" => put_many(alloc, bytes, docs, query, case),
        "list" => push_list(alloc, bytes, docs, query).map_err(Fault::Memory),
        "page" => push_page(alloc, bytes, docs, query).map_err(Fault::Memory),
        "counts" => push_facets(alloc, bytes, docs, query).map_err(Fault::Facet),
        _ => Err(Fault::Question),
    }
}

// Puts what is put behind nothing as the answer to a question behind what stands so far.
fn push_put(
    out: &mut String,
    alloc: Global,
    question: &str,
    docs: &Documents,
    query: &Query,
    case: &Case,
) -> Result<(), Fault> {
    let mut bytes = Vec::new(alloc);
    put(alloc, &mut bytes, question, docs, query, case)?;
    push_bytes(out, bytes.as_slice()).map_err(Fault::Show)
}

// Puts what is asked of documents by a query behind what stands so far.
fn push_of_documents(
    out: &mut String,
    alloc: Global,
    question: &str,
    docs: &Documents,
    query: &Query,
    case: &Case,
) -> Result<(), Fault> {
    match question {
        "pages" => push_pages(out, alloc, docs, case.text(1)),
        "cursor" => push_last(out, alloc, docs, query).map_err(Fault::Memory),
        "facets" => push_counts(out, alloc, docs, query),
        _ => push_put(out, alloc, question, docs, query, case),
    }
}

// Puts what is asked of the documents that are listed in a tree behind what stands so far.
fn push_of_listed(
    out: &mut String,
    alloc: Global,
    question: &str,
    tree: &Tree,
    query: &Query,
    case: &Case,
) -> Result<(), Fault> {
    let mut docs = Map::new();
    put_trees(alloc, &mut docs, listed(tree))?;
    push_of_documents(out, alloc, question, &docs, query, case)
}

// Puts what a query keeps of a tree behind what stands so far.
fn push_projected(
    out: &mut String,
    alloc: Global,
    tree: &Tree,
    query: &Query,
) -> Result<(), Fault> {
    let kept = project(alloc, tree, &query.fields)?;
    push_json(out, alloc, &kept).map_err(Fault::Show)
}

// Puts what is asked of the tree of the second field by a query behind what stands so far.
fn push_of_tree(
    out: &mut String,
    alloc: Global,
    question: &str,
    query: &Query,
    case: &Case,
) -> Result<(), Fault> {
    let tree = case.tree(alloc, 2)?;
    match question {
        "project" => push_projected(out, alloc, &tree, query),
        _ => push_of_listed(out, alloc, question, &tree, query, case),
    }
}

/// Puts what is asked of the documents of the second field by the query of the first behind what stands so far.
pub fn answer(out: &mut String, alloc: Global, question: &str, case: &Case) -> Result<(), Fault> {
    let query = read_query(alloc, case.text(1))?;
    match question {
        "read" => out.push_str("read").map_err(Fault::Memory),
        _ => push_of_tree(out, alloc, question, &query, case),
    }
}
