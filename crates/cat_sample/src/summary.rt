//! The line that says what a sample has come to.
ghost use Rattle.std.specs.Prelude.{◌≡◌, ◌++◌, IfOk, OnOk, map, option_map};
ghost use Rattle.cat_tree.specs.Data.{items_of};
ghost use Rattle.cat_tree.specs.View.{data_of};
ghost use Rattle.cat_replies.specs.Piece.{piece_text};
ghost use Rattle.cat_sample.specs.Summary as told;

use crate::generate::{GROUPS, numbered};
use cat_collections::map::Map;
use cat_model::types::Counts;
use cat_replies::line::{Piece, push_line};
use cat_tree::ask::child;
use cat_tree::tree::Tree;
use cat_types::node::Node;
use cat_types::reference::{Ref, text_at};
use std::alloc::{AllocError, Global};

// The relations of a document.
fn relations(document: &Tree) -> &[Tree]
    ensures { items_of (map data_of result.now) ≡ told.relations_of (data_of document.now) }
{
    match child(document, "relations") {
        Some(Tree::List(list)) => list.as_slice(),
        _ => &[],
    }
}

// Whether a relation has the type `ownerOf`.
fn is_ownership(relation: &Tree) -> bool
    ensures { result ≡ told.is_ownership (data_of relation.now) }
{
    match text_at(child(relation, "type")) {
        Some(text) => text == "ownerOf",
        None => false,
    }
}

// How many relations say what a Group owns.
fn ownership_count(relations: &[Tree]) -> u64
    ensures { result ≡ told.ownership_count (items_of (map data_of relations.now)) }
{
    let mut count = 0;
    let mut left = relations.len();
    while left > 0 {
        left -= 1;
        if is_ownership(&relations[left]) {
            count += 1;
        }
    }
    count
}

// How many relations a document has.
fn relations_in(document: &Tree) -> u64
    ensures { result ≡ told.item_count (told.relations_of (data_of document.now)) }
{
    relations(document).len() as u64
}

// How many relations the documents have, up to the greatest number of 64 bits.
fn relation_count(documents: &Map<Ref, Node>) -> u64
    ensures { result ≡ told.relation_count documents.now }
{
    let mut count = 0u64;
    for (_, node) in documents.iter() {
        count = count.saturating_add(relations_in(node.tree()));
    }
    count
}

// The document under this text.
fn document_at<'a>(documents: &'a Map<Ref, Node>, name: &str) -> Option<&'a (Ref, Node)>
    ensures { option_map (λ e. e.now) result ≡ told.document_at name.now documents.now }
{
    for entry in documents.iter() {
        if entry.0.as_str() == name {
            return Some(entry);
        }
    }
    None
}

// How much a Group owns.
fn owned(documents: &Map<Ref, Node>, name: &str) -> u64
    ensures { result ≡ told.owned_in (told.document_at name.now documents.now) }
{
    match document_at(documents, name) {
        None => 0,
        Some(entry) => ownership_count(relations(entry.1.tree())),
    }
}

// A space, and how much each Group owns.
fn push_owned(
    alloc: Global,
    pieces: &mut Vec<Piece<'_>>,
    documents: &Map<Ref, Node>,
) -> Result<(), AllocError>
    ensures { OnOk result (map piece_text pieces.new.items ≡ map piece_text pieces.old.items ++ told.owned_texts documents.now 0 10) }
{
    let mut number = 0;
    while number < GROUPS {
        let name = numbered(alloc, "group:default/g", number)?;
        let owned = owned(documents, name.as_str());
        pieces.push(Piece::Text(" "))?;
        pieces.push(Piece::Number(owned))?;
        number += 1;
    }
    Ok(())
}

// What a settle counted, and what the documents have.
fn counted(
    alloc: Global,
    count: u64,
    settled: Counts,
    documents: u64,
    relations: u64,
) -> Result<Vec<Piece<'static>>, AllocError>
    ensures { IfOk result (λ pieces. map piece_text pieces.items ≡ told.counted_texts count settled documents relations) }
{
    let pieces = vec![in alloc;
        Piece::Text("sample "),
        Piece::Number(count),
        Piece::Text(" settled "),
        Piece::Number(settled.rounds),
        Piece::Text(" "),
        Piece::Number(settled.leases),
        Piece::Text(" "),
        Piece::Number(settled.stitched),
        Piece::Text(" documents "),
        Piece::Number(documents),
        Piece::Text(" relations "),
        Piece::Number(relations),
        Piece::Text(" owned"),
    ]?;
    Ok(pieces)
}

/// The line of a sample of so many Components, of what its settle counted and of its documents.
pub(crate) fn summary(
    alloc: Global,
    count: u64,
    settled: Counts,
    documents: &Map<Ref, Node>,
) -> Result<Vec<u8>, AllocError>
    ensures { IfOk result (λ text. text.items ≡ told.summary count settled documents.now) }
{
    let relations = relation_count(documents);
    let mut pieces = counted(alloc, count, settled, documents.len() as u64, relations)?;
    push_owned(alloc, &mut pieces, documents)?;
    let mut out = Vec::new(alloc);
    push_line(&mut out, pieces.as_slice())?;
    Ok(out)
}
