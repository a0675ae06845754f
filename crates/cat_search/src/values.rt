//! The values that a document has at a key.
ghost use Rattle.std.specs.Prelude.{◌≡◌, ◌++◌, [], codes, drop, length, option_map, true, if◌then◌else◌, IfOk, OnOk};
ghost use Rattle.std.specs.Fmt.{signed_decimal};
ghost use Rattle.cat_tree.specs.Ask.{child_of};
ghost use Rattle.cat_tree.specs.Data.{members_of};
ghost use Rattle.cat_tree.specs.View.{data_of};
ghost use Rattle.cat_state_parts.specs.Rows.{is_empty, own_members, own_part, relation_row, relation_rows, document_rows, step, values_at};
ghost use Rattle.cat_search.specs.Walk.{begins, kept, tag_values, values_found, values_in_members};

use crate::document::{is_added, is_named, text_at};
use crate::folded::{is_point_and, left_of_step};
use cat_tree::ask::child;
use cat_tree::text::Text;
use cat_tree::tree::{Pairs, Tree};
use std::alloc::{AllocError, Global};

// Adds the value where nothing is left of the key.
fn add(alloc: Global, key: &[u8], value: &str, values: &mut Vec<Text>) -> Result<(), AllocError>
    ensures { OnOk result (values.new.items ≡ values.old.items ++ kept key.now value.now) }
{
    if key.is_empty() {
        values.push(Text::of(alloc, value)?)?;
    }
    Ok(())
}

fn add_whole(
    alloc: Global,
    key: &[u8],
    number: i128,
    values: &mut Vec<Text>,
) -> Result<(), AllocError>
    ensures { OnOk result (values.new.items ≡ values.old.items ++ kept key.now (signed_decimal number)) }
{
    let mut buffer = itoa::Buffer::new();
    add(alloc, key, buffer.format(number), values)
}

// Adds what a text in a list says of itself.
fn add_tag(alloc: Global, key: &[u8], tree: &Tree, values: &mut Vec<Text>) -> Result<(), AllocError>
    ensures { OnOk result (values.new.items ≡ values.old.items ++ tag_values key.now (data_of tree.now)) }
{
    match tree {
        Tree::Words(text) => {
            if is_point_and(key, text.as_str().as_bytes()) {
                values.push(Text::of(alloc, "true")?)?;
            }
            Ok(())
        }
        Tree::Null | Tree::Flag(_) | Tree::Whole(_) | Tree::List(_) | Tree::Map(_) => Ok(()),
    }
}

// Adds the values of the tree at what is left of the key.
#[tactic(auto, using(cat_tree::proofs::Weights::falls))]
fn add_found(
    alloc: Global,
    is_start: bool,
    key: &[u8],
    tree: &Tree,
    values: &mut Vec<Text>,
) -> Result<(), AllocError>
    ensures { OnOk result (values.new.items ≡ values.old.items ++ values_found is_start key.now (data_of tree.now)) }
{
    match tree {
        Tree::Null => Ok(()),
        Tree::Flag(true) => add(alloc, key, "true", values),
        Tree::Flag(false) => add(alloc, key, "false", values),
        Tree::Whole(number) => add_whole(alloc, key, *number, values),
        Tree::Words(text) => add(alloc, key, text.as_str(), values),
        Tree::List(trees) => {
            for tree in trees.as_slice() {
                add_found(alloc, is_start, key, tree, values)?;
                add_tag(alloc, key, tree, values)?;
            }
            Ok(())
        }
        Tree::Map(pairs) => {
            for (name, tree) in pairs.as_slice() {
                let name = name.as_str().as_bytes();
                if let Some(left) = left_of_step(key, is_start, name) {
                    add_found(alloc, is_start && name.is_empty(), left, tree, values)?;
                }
            }
            Ok(())
        }
    }
}

// Adds the values of a member of the root.
fn add_found_at(
    alloc: Global,
    name: &[u8],
    key: &[u8],
    tree: &Tree,
    values: &mut Vec<Text>,
) -> Result<(), AllocError>
    ensures { OnOk result (values.new.items ≡ values.old.items
        ++ (if begins (step true name.now) key.now
        then values_found (is_empty name.now) (drop (length (step true name.now)) key.now) (data_of tree.now)
        else [])) }
{
    match left_of_step(key, true, name) {
        Some(left) => add_found(alloc, name.is_empty(), left, tree, values),
        None => Ok(()),
    }
}

// Adds the values of the members of the entity.
fn add_members(
    alloc: Global,
    pairs: &Pairs,
    key: &[u8],
    values: &mut Vec<Text>,
) -> Result<(), AllocError>
    ensures { OnOk result (values.new.items ≡ values.old.items ++ values_in_members true key.now (own_members (members_of pairs.now))) }
{
    for (name, tree) in pairs.as_slice() {
        if !is_added(name.as_str()) {
            add_found_at(alloc, name.as_str().as_bytes(), key, tree, values)?;
        }
    }
    Ok(())
}

// Adds the values of the entity.
fn add_own(
    alloc: Global,
    document: &Tree,
    key: &[u8],
    values: &mut Vec<Text>,
) -> Result<(), AllocError>
    ensures { OnOk result (values.new.items ≡ values.old.items ++ values_found true key.now (own_part (data_of document.now))) }
{
    match document {
        Tree::Null | Tree::Flag(_) | Tree::Whole(_) | Tree::Words(_) | Tree::List(_) => {
            add_found(alloc, true, key, document, values)
        }
        Tree::Map(pairs) => add_members(alloc, pairs, key, values),
    }
}

// Adds the target of the relation, where it has the key.
fn add_relation(
    alloc: Global,
    key: &[u8],
    relation: &Tree,
    values: &mut Vec<Text>,
) -> Result<(), AllocError>
    ensures { OnOk result (values.new.items ≡ values.old.items ++ values_at key.now (relation_row (data_of relation.now))) }
{
    let kind = text_at(child(relation, "type"));
    let target = text_at(child(relation, "targetRef"));
    match (kind, target) {
        (Some(kind), Some(target)) => {
            if is_named(key, kind.as_bytes()) {
                values.push(Text::of(alloc, target)?)?;
            }
            Ok(())
        }
        _ => Ok(()),
    }
}

// Adds the targets of the relations with the key.
fn add_relations(
    alloc: Global,
    relations: Option<&Tree>,
    key: &[u8],
    values: &mut Vec<Text>,
) -> Result<(), AllocError>
    ensures { OnOk result (values.new.items ≡ values.old.items
        ++ values_at key.now (relation_rows (option_map (λ t. data_of t.now) relations.entry))) }
{
    if let Some(Tree::List(trees)) = relations {
        for relation in trees.as_slice() {
            add_relation(alloc, key, relation, values)?;
        }
    }
    Ok(())
}

fn all_values(alloc: Global, document: &Tree, key: &[u8]) -> Result<Vec<Text>, AllocError>
    ensures { IfOk result (λ v. v.items ≡ values_found true key.now (own_part (data_of document.now))
        ++ values_at key.now (relation_rows (child_of (codes "relations") (data_of document.now)))) }
{
    let mut values = Vec::new(alloc);
    add_own(alloc, document, key, &mut values)?;
    add_relations(alloc, child(document, "relations"), key, &mut values)?;
    Ok(values)
}

/// The values of the document's rows with the key, compared in lower case, as they are spelled and in
/// the order of the rows.
#[tactic(auto, using(crate::proofs::Valued::document_values))]
pub fn values_at(alloc: Global, document: &Tree, key: &str) -> Result<Vec<Text>, AllocError>
    ensures { IfOk result (λ v. v.items ≡ values_at key.now (document_rows (data_of document.now))) }
{
    all_values(alloc, document, key.as_bytes())
}
