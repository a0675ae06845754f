//! Which documents a filter accepts.
ghost use Rattle.std.specs.Prelude.{◌≡◌, option_map};
ghost use Rattle.std.specs.List.{list_any};
ghost use Rattle.cat_tree.specs.View.{data_of};
ghost use Rattle.cat_search.specs.Filter.{holds, key_holds, is_accepted, is_match};
ghost use Rattle.cat_state_parts.specs.Rows.{document_rows, same_text};

use crate::condition::{Condition, Filter};
use crate::document::has_row;
use crate::folded::same_text;
use cat_tree::tree::Tree;

fn holds(condition: &Condition, document: &Tree) -> bool
    ensures { result ≡ holds (document_rows (data_of document.now)) condition.now }
{
    let value = match &condition.value {
        Some(value) => Some(value.as_str()),
        None => None,
    };
    has_row(document, condition.key.as_str(), value)
}

fn is_same_key(left: &Condition, right: &Condition) -> bool
    ensures { result ≡ same_text left.now.key right.now.key }
{
    same_text(left.key.as_str().as_bytes(), right.key.as_str().as_bytes())
}

// Whether one of the conditions with the key of this one holds.
fn key_holds(conditions: &[Condition], wanted: &Condition, document: &Tree) -> bool
    ensures { result ≡ key_holds (document_rows (data_of document.now)) conditions.now wanted.now.key }
{
    conditions.iter().any(|condition| is_same_key(wanted, condition) && holds(condition, document))
}

/// Whether the filter accepts the document: of the conditions with one key at least one holds, and so
/// for each key. A filter without conditions accepts every document. Takes no memory.
pub fn matches(filter: &Filter, document: &Tree) -> bool
    ensures { result ≡ is_match filter.now (data_of document.now) }
{
    let conditions = filter.as_slice();
    conditions
        .iter()
        .all(|condition| key_holds(conditions, condition, document))
}

fn is_any_match(filters: &[Filter], document: &Tree) -> bool
    ensures { result ≡ list_any (λ cs. is_match cs (data_of document.now)) filters.now }
{
    filters.iter().any(|filter| matches(filter, document))
}

/// Whether one of the filters accepts the document; without a filter all documents match. Takes no memory.
pub fn is_accepted(filters: &[Filter], document: &Tree) -> bool
    ensures { result ≡ is_accepted filters.now (data_of document.now) }
{
    filters.is_empty() || is_any_match(filters, document)
}
