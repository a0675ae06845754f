//! Looking for a search row in a document, without memory.
ghost use Rattle.std.specs.Prelude.{◌≡◌, ◌&&◌, ◌||◌, ◌++◌, codes, drop, length, option_map, true};
ghost use Rattle.std.specs.Option.{option_copied};
ghost use Rattle.cat_tree.specs.Ask.{child_of};
ghost use Rattle.cat_tree.specs.Data.{members_of};
ghost use Rattle.cat_tree.specs.View.{data_of, entry_of};
ghost use Rattle.cat_types.specs.Reference.{text_at};
ghost use Rattle.cat_state_parts.specs.Rows.{is_added, is_empty, own_members, own_part, relation_row, relation_rows, document_rows, has_row, same_text, step};
ghost use Rattle.cat_search.specs.Walk.{begins, is_found, is_found_in_members};

use crate::folded::{left_of, left_of_step, same_text};
use crate::walk::{is_found, value_fits};
use cat_tree::ask::child;
use cat_tree::tree::{Pairs, Tree};

pub(crate) fn is_added(key: &str) -> bool
    ensures { result ≡ is_added key.now }
{
    key == "relations" || key == "status"
}

// Whether a member of the root has the row.
fn is_found_at(name: &[u8], key: &[u8], value: Option<&str>, tree: &Tree) -> bool
    ensures { result ≡ (begins (step true name.now) key.now
        && is_found (is_empty name.now) (drop (length (step true name.now)) key.now) (option_copied value.entry) (data_of tree.now)) }
{
    match left_of_step(key, true, name) {
        Some(left) => is_found(name.is_empty(), left, value, tree),
        None => false,
    }
}

// Whether a member of the entity has the row.
fn has_member_row(pairs: &Pairs, key: &[u8], value: Option<&str>) -> bool
    ensures { result ≡ is_found_in_members true key.now (option_copied value.entry) (own_members (members_of pairs.now)) }
{
    for (name, tree) in pairs.as_slice() {
        if !is_added(name.as_str()) && is_found_at(name.as_str().as_bytes(), key, value, tree) {
            return true;
        }
    }
    false
}

pub(crate) fn text_at<'a>(part: Option<&'a Tree>) -> Option<&'a str>
    ensures { option_copied result ≡ text_at (option_map (λ t. data_of t.now) part.entry) }
{
    match part {
        Some(Tree::Words(text)) => Some(text.as_str()),
        _ => None,
    }
}

// Whether the row of the relation, if it has one, is the wanted one.
fn is_relation(key: &[u8], value: Option<&str>, relation: &Tree) -> bool
    ensures { result ≡ has_row key.now (option_copied value.entry) (relation_row (data_of relation.now)) }
{
    let kind = text_at(child(relation, "type"));
    let target = text_at(child(relation, "targetRef"));
    match (kind, target) {
        (Some(kind), Some(target)) => {
            is_named(key, kind.as_bytes()) && value_fits(value, target)
        }
        _ => false,
    }
}

// Whether the key is that of a relation of this type.
pub(crate) fn is_named(key: &[u8], kind: &[u8]) -> bool
    ensures { result ≡ same_text key.now (codes "relations." ++ kind.now) }
{
    match left_of(key, b"relations.") {
        Some(left) => same_text(left, kind),
        None => false,
    }
}

// Whether one of the relations has the row.
fn has_relation_row(relations: Option<&Tree>, key: &[u8], value: Option<&str>) -> bool
    ensures { result ≡ has_row key.now (option_copied value.entry)
        (relation_rows (option_map (λ t. data_of t.now) relations.entry)) }
{
    if let Some(Tree::List(trees)) = relations {
        for relation in trees.as_slice() {
            if is_relation(key, value, relation) {
                return true;
            }
        }
    }
    false
}

// Whether the entity has the row.
fn has_own_row(document: &Tree, key: &[u8], value: Option<&str>) -> bool
    ensures { result ≡ is_found true key.now (option_copied value.entry) (own_part (data_of document.now)) }
{
    match document {
        Tree::Null | Tree::Flag(_) | Tree::Whole(_) | Tree::Words(_) | Tree::List(_) => {
            is_found(true, key, value, document)
        }
        Tree::Map(pairs) => has_member_row(pairs, key, value),
    }
}

// Whether the entity or one of the relations has the row.
fn has_row_among(document: &Tree, key: &[u8], value: Option<&str>) -> bool
    ensures { result ≡ (is_found true key.now (option_copied value.entry) (own_part (data_of document.now))
        || has_row key.now (option_copied value.entry) (relation_rows (child_of (codes "relations") (data_of document.now)))) }
{
    has_own_row(document, key, value) || has_relation_row(child(document, "relations"), key, value)
}

/// Whether the document has a row with the key, and with the value where one is given, in lower case.
/// Takes no memory, and time by the size of the document alone.
#[tactic(auto, using(crate::proofs::Found::document_found))]
pub fn has_row(document: &Tree, key: &str, value: Option<&str>) -> bool
    ensures { result ≡ has_row key.now (option_copied value.entry) (document_rows (data_of document.now)) }
{
    has_row_among(document, key.as_bytes(), value)
}
