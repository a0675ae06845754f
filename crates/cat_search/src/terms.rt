//! The terms of a document: what an index lists it under.
ghost use Rattle.std.specs.Prelude.{◌≡◌, ◌++◌, ◌∷◌, [], Some, codes, option_map, IfOk, OnOk};
ghost use Rattle.std.specs.Fmt.{signed_decimal};
ghost use Rattle.cat_tree.specs.Ask.{child_of};
ghost use Rattle.cat_tree.specs.Data.{members_of};
ghost use Rattle.cat_tree.specs.View.{data_of};
ghost use Rattle.cat_state_parts.specs.Rows.{document_rows, member_rows, own_members, own_part, relation_row, relation_rows, rows, tag_rows, under};
ghost use Rattle.cat_search.specs.Terms.{behind, condition_term, document_terms, row_terms, terms};

use crate::condition::Condition;
use crate::document::{is_added, text_at};
use crate::folded::lower;
pub use cat_state_parts::index::Term;
use cat_tree::ask::child;
use cat_tree::text::Text;
use cat_tree::tree::{Pairs, Tree};
use std::alloc::{AllocError, Global};

// `=` and the value in lower case.
fn equal_to(alloc: Global, value: &str) -> Result<Text, AllocError>
    ensures { IfOk result (λ t. t ≡ behind (Some value.now)) }
{
    let mut text = String::from_str(alloc, "=")?;
    text.push_str(value)?;
    text.make_ascii_lowercase();
    Ok(Text::from_string(text))
}

fn behind(alloc: Global, value: &Option<Text>) -> Result<Text, AllocError>
    ensures { IfOk result (λ t. t ≡ behind value.now) }
{
    match value {
        Some(value) => equal_to(alloc, value.as_str()),
        None => Text::of(alloc, ""),
    }
}

/// The term of a condition.
pub fn condition_term(alloc: Global, condition: &Condition) -> Result<Term, AllocError>
    ensures { IfOk result (λ t. t ≡ condition_term condition.now) }
{
    let key = lower(alloc, condition.key.as_str())?;
    let behind = behind(alloc, &condition.value)?;
    Ok((key, behind))
}

// Adds the terms of a row.
fn add_row(alloc: Global, key: &str, value: &str, found: &mut Vec<Term>) -> Result<(), AllocError>
    ensures { OnOk result (found.new.items ≡ found.old.items ++ row_terms (key.now, value.now)) }
{
    found.push((lower(alloc, key)?, Text::of(alloc, "")?))?;
    found.push((lower(alloc, key)?, equal_to(alloc, value)?))?;
    Ok(())
}

fn add_whole(
    alloc: Global,
    path: &str,
    number: i128,
    found: &mut Vec<Term>,
) -> Result<(), AllocError>
    ensures { OnOk result (found.new.items ≡ found.old.items ++ row_terms (path.now, signed_decimal number)) }
{
    let mut buffer = itoa::Buffer::new();
    add_row(alloc, path, buffer.format(number), found)
}

fn joined(alloc: Global, first: &str, second: &str) -> Result<Text, AllocError>
    ensures { IfOk result (λ t. t ≡ first.now ++ second.now) }
{
    let mut text = String::from_str(alloc, first)?;
    text.push_str(second)?;
    Ok(Text::from_string(text))
}

fn with_point(alloc: Global, path: &str, key: &str) -> Result<Text, AllocError>
    ensures { IfOk result (λ t. t ≡ path.now ++ 46 ∷ key.now) }
{
    let mut text = String::from_str(alloc, path)?;
    text.push_str(".")?;
    text.push_str(key)?;
    Ok(Text::from_string(text))
}

// The path with a key under it.
fn under(alloc: Global, path: &str, key: &str) -> Result<Text, AllocError>
    ensures { IfOk result (λ t. t ≡ under path.now key.now) }
{
    if path.is_empty() {
        Text::of(alloc, key)
    } else {
        with_point(alloc, path, key)
    }
}

// Adds the terms of what a text in a list says of itself.
fn add_tag(alloc: Global, path: &str, tree: &Tree, found: &mut Vec<Term>) -> Result<(), AllocError>
    ensures { OnOk result (found.new.items ≡ found.old.items ++ terms (tag_rows path.now (data_of tree.now))) }
{
    match tree {
        Tree::Words(text) => {
            let key = with_point(alloc, path, text.as_str())?;
            add_row(alloc, key.as_str(), "true", found)
        }
        Tree::Null | Tree::Flag(_) | Tree::Whole(_) | Tree::List(_) | Tree::Map(_) => Ok(()),
    }
}

// Adds the terms of a tree under a path.
#[tactic(auto, using(cat_tree::proofs::Weights::falls, std::proofs::lemmas::Grind::common_steps))]
fn add_tree(alloc: Global, path: &str, tree: &Tree, found: &mut Vec<Term>) -> Result<(), AllocError>
    ensures { OnOk result (found.new.items ≡ found.old.items ++ terms (rows path.now (data_of tree.now))) }
{
    match tree {
        Tree::Null => Ok(()),
        Tree::Flag(true) => add_row(alloc, path, "true", found),
        Tree::Flag(false) => add_row(alloc, path, "false", found),
        Tree::Whole(number) => add_whole(alloc, path, *number, found),
        Tree::Words(text) => add_row(alloc, path, text.as_str(), found),
        Tree::List(trees) => {
            for tree in trees.as_slice() {
                add_tree(alloc, path, tree, found)?;
                add_tag(alloc, path, tree, found)?;
            }
            Ok(())
        }
        Tree::Map(pairs) => {
            for (key, tree) in pairs.as_slice() {
                let path = under(alloc, path, key.as_str())?;
                add_tree(alloc, path.as_str(), tree, found)?;
            }
            Ok(())
        }
    }
}

// Adds the terms of the members of the entity.
fn add_members(alloc: Global, pairs: &Pairs, found: &mut Vec<Term>) -> Result<(), AllocError>
    ensures { OnOk result (found.new.items ≡ found.old.items ++ terms (member_rows [] (own_members (members_of pairs.now)))) }
{
    for (key, tree) in pairs.as_slice() {
        if !is_added(key.as_str()) {
            add_tree(alloc, key.as_str(), tree, found)?;
        }
    }
    Ok(())
}

// Adds the terms of the entity.
fn add_own(alloc: Global, document: &Tree, found: &mut Vec<Term>) -> Result<(), AllocError>
    ensures { OnOk result (found.new.items ≡ found.old.items ++ terms (rows [] (own_part (data_of document.now)))) }
{
    match document {
        Tree::Null | Tree::Flag(_) | Tree::Whole(_) | Tree::Words(_) | Tree::List(_) => {
            add_tree(alloc, "", document, found)
        }
        Tree::Map(pairs) => add_members(alloc, pairs, found),
    }
}

// Adds the terms of a relation of a type to a target.
fn add_named(
    alloc: Global,
    kind: &str,
    target: &str,
    found: &mut Vec<Term>,
) -> Result<(), AllocError>
    ensures { OnOk result (found.new.items ≡ found.old.items ++ row_terms (codes "relations." ++ kind.now, target.now)) }
{
    let key = joined(alloc, "relations.", kind)?;
    add_row(alloc, key.as_str(), target, found)
}

// Adds the terms of a relation, if it has a row.
fn add_relation(alloc: Global, relation: &Tree, found: &mut Vec<Term>) -> Result<(), AllocError>
    ensures { OnOk result (found.new.items ≡ found.old.items ++ terms (relation_row (data_of relation.now))) }
{
    let kind = text_at(child(relation, "type"));
    let target = text_at(child(relation, "targetRef"));
    match (kind, target) {
        (Some(kind), Some(target)) => add_named(alloc, kind, target, found),
        _ => Ok(()),
    }
}

// Adds the terms of the relations.
fn add_relations(
    alloc: Global,
    relations: Option<&Tree>,
    found: &mut Vec<Term>,
) -> Result<(), AllocError>
    ensures { OnOk result (found.new.items
        ≡ found.old.items ++ terms (relation_rows (option_map (λ t. data_of t.now) relations.entry))) }
{
    if let Some(Tree::List(trees)) = relations {
        for relation in trees.as_slice() {
            add_relation(alloc, relation, found)?;
        }
    }
    Ok(())
}

/// The terms of a document's search rows.
pub fn document_terms(alloc: Global, document: &Tree) -> Result<Vec<Term>, AllocError>
    ensures { IfOk result (λ v. v.items ≡ document_terms (data_of document.now)) }
{
    let mut found = Vec::new(alloc);
    add_own(alloc, document, &mut found)?;
    add_relations(alloc, child(document, "relations"), &mut found)?;
    Ok(found)
}
