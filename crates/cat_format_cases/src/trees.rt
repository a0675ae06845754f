//! Trees as texts, what is asked of them, and edits.
use crate::fault::Fault;
use cat_case::case::Case;
use cat_case::shown::{ShowFault, push_bytes, push_json, push_number, truth_text};
use cat_tree::ask::{child, depth, grandchild, same};
use cat_tree::clone::copy;
use cat_tree::edit::{with_key, without_key};
use cat_tree::room::{size, write_within};
use cat_tree::tree::Tree;
use std::alloc::Global;

// Puts a tree as JSON behind what stands so far, and nothing where there is none.
fn push_found(out: &mut String, alloc: Global, tree: Option<&Tree>) -> Result<(), Fault> {
    match tree {
        Some(tree) => push_json(out, alloc, tree).map_err(Fault::Show),
        None => Ok(()),
    }
}

// Puts how many bytes a tree is said to need, and the bytes that it is written as, behind what stands so far.
fn push_sized(out: &mut String, length: u64, bytes: &[u8]) -> Result<(), Fault> {
    push_number(out, length)?;
    out.push_str(" ")?;
    push_bytes(out, bytes).map_err(Fault::Show)
}

// Puts how many bytes a tree is said to need, and the tree as JSON, written where there is room for as many, behind what stands so
// far.
fn push_within(out: &mut String, alloc: Global, tree: &Tree) -> Result<(), Fault> {
    let length = size(tree);
    if length >= 1 << 62 {
        return Err(Fault::Show(ShowFault::Bytes));
    }
    let mut bytes = Vec::with_capacity(alloc, length as usize)?;
    write_within(tree, &mut bytes);
    push_sized(out, length, bytes.as_slice())
}

// Puts a copy of a tree behind what stands so far.
fn push_copy(out: &mut String, alloc: Global, tree: &Tree) -> Result<(), Fault> {
    let copied = copy(alloc, tree)?;
    push_json(out, alloc, &copied).map_err(Fault::Show)
}

// Puts whether a tree is the same as that of the second field behind what stands so far.
fn push_same(out: &mut String, alloc: Global, tree: &Tree, case: &Case) -> Result<(), Fault> {
    let other = case.tree(alloc, 2)?;
    out.push_str(truth_text(same(tree, &other)))
        .map_err(Fault::Memory)
}

// Puts what is asked of a tree that stays as it is behind what stands so far.
fn push_asked(
    out: &mut String,
    alloc: Global,
    question: &str,
    tree: &Tree,
    case: &Case,
) -> Result<(), Fault> {
    match question {
        "read" => push_json(out, alloc, tree).map_err(Fault::Show),
        "depth" => push_number(out, depth(tree)).map_err(Fault::Memory),
        "child" => push_found(out, alloc, child(tree, case.text(2))),
        "grandchild" => push_found(out, alloc, grandchild(tree, case.text(2), case.text(3))),
        "same" => push_same(out, alloc, tree, case),
        "copy" => push_copy(out, alloc, tree),
        "within" => push_within(out, alloc, tree),
        _ => Err(Fault::Question),
    }
}

// Puts what is asked of the tree of the first field behind what stands so far.
fn asked(out: &mut String, alloc: Global, question: &str, case: &Case) -> Result<(), Fault> {
    let tree = case.tree(alloc, 1)?;
    push_asked(out, alloc, question, &tree, case)
}

// The tree of the first field, with that of the third under the key of the second.
fn edited(alloc: Global, case: &Case) -> Result<Tree, Fault> {
    let tree = case.tree(alloc, 1)?;
    let value = case.tree(alloc, 3)?;
    Ok(with_key(alloc, tree, case.text(2), value)?)
}

fn with(out: &mut String, alloc: Global, case: &Case) -> Result<(), Fault> {
    let tree = edited(alloc, case)?;
    push_json(out, alloc, &tree).map_err(Fault::Show)
}

fn without(out: &mut String, alloc: Global, case: &Case) -> Result<(), Fault> {
    let tree = without_key(case.tree(alloc, 1)?, case.text(2));
    push_json(out, alloc, &tree).map_err(Fault::Show)
}

/// Puts what is asked of the tree of the first field behind what stands so far.
pub fn answer(out: &mut String, alloc: Global, question: &str, case: &Case) -> Result<(), Fault> {
    match question {
        "with" => with(out, alloc, case),
        "without" => without(out, alloc, case),
        _ => asked(out, alloc, question, case),
    }
}
