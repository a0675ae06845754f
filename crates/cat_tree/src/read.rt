//! From JSON text to a tree.
ghost use Rattle.std.specs.Prelude.{◌≡◌, ◌≢◌, true, false, Some, None, map, IfOk, IfSome, IsErrOf};
ghost use Rattle.serde_json.specs.Data.{Data as Json};
ghost use Rattle.serde_json.specs.Find.{as_integer};
ghost use Rattle.serde_json.specs.Read.{read as read_text};
ghost use Rattle.serde_json.specs.View.{number_view, view, items_view, members_view};
ghost use Rattle.serde_json.specs.Written.{has_float, items_have_float, members_have_float};
ghost use Rattle.cat_tree.specs.Read.{IsReading, ReadsAs, tree_of};
ghost use Rattle.cat_tree.specs.Seen.{seen_tree, seen_entry};
ghost use Rattle.cat_tree.specs.View.{data_of, entry_of};
ghost use Rattle.cat_tree.specs.Data.{IsRising, whole, items_of, members_of};
ghost use Rattle.cat_tree.specs.Proper.{IsNarrow, ItemsNarrow, MembersNarrow};

use crate::stream::{Stop, read_tokens};
use crate::text::Text;
use crate::tree::{Pairs, Tree, Trees};
use serde_json::{Map, Number, Value};
use std::alloc::{AllocError, AllocFailed, Global};
use std::str;
use thiserror::Error;

/// Why bytes give no tree.
#[derive(Clone, Copy, Debug, Drop, PartialEq, Eq, Error)]
pub enum TreeFault {
    /// They aren't JSON text: bad UTF-8, a breach of the grammar, nesting over 127, a number past the
    /// floats.
    #[error("not JSON text")]
    Syntax,
    /// They are JSON text with a number that isn't an integer of 64 bits: one with a fraction or an
    /// exponent, one too large, or `-0`.
    #[error("a number is not an integer of 64 bits")]
    Fraction,
    /// Memory is wanted.
    #[error("out of memory")]
    NoMemory,
}

impl From<AllocError> for TreeFault {
    ghost use Rattle.std.specs.Prelude.{◌≡◌};
    ghost use Rattle.cat_tree.specs.declared.read.TreeFault.TheVariants.{NoMemory};

    ghost from_gives = { λ _ e. e ≡ NoMemory };

    fn from(_refused: AllocError) -> TreeFault {
        TreeFault::NoMemory
    }
}

impl<T: Drop> From<AllocFailed<T>> for TreeFault {
    ghost use Rattle.std.specs.Prelude.{◌≡◌};
    ghost use Rattle.cat_tree.specs.declared.read.TreeFault.TheVariants.{NoMemory};

    ghost from_gives = { λ _ e. e ≡ NoMemory };

    fn from(_refused: AllocFailed<T>) -> TreeFault {
        TreeFault::NoMemory
    }
}

/// The tree of a JSON text (RFC 8259), as `serde_json` reads it: of a key that stands twice the last
/// value counts. `Syntax` comes exactly where there is no such reading, `Fraction` exactly where there
/// is one and it holds a number that isn't an integer of 64 bits.
pub fn read(alloc: Global, bytes: &[u8]) -> Result<Tree, TreeFault>
    ensures ok { IfOk result (λ t. ReadsAs bytes.now (data_of t)) }
    ensures narrow { IfOk result (λ t. IsNarrow (data_of t)) }
    ensures syntax { IsErrOf result TreeFault.Syntax → (json : Json) → ¬ IsReading bytes.now json }
    ensures fraction { IsErrOf result TreeFault.Fraction → (json : Json)
        × IsReading bytes.now json × (has_float json ≡ true) }
{
    let Ok(text) = str::from_utf8(bytes) else {
        return Err(TreeFault::Syntax);
    };
    match read_tokens(alloc, text) {
        Ok(tree) => Ok(tree),
        Err(Stop::Syntax) => Err(TreeFault::Syntax),
        Err(Stop::Aside) => read_value(alloc, text),
        Err(Stop::NoMemory) => Err(TreeFault::NoMemory),
    }
}

// The tree of a JSON text, by way of its value.
fn read_value(alloc: Global, text: &str) -> Result<Tree, TreeFault>
    ensures ok { IfOk result (λ t. (json : Json) × (read_text text.now ≡ Some json)
        × (has_float json ≡ false) × (tree_of json ≡ data_of t)) }
    ensures narrow { IfOk result (λ t. IsNarrow (data_of t)) }
    ensures syntax { IsErrOf result TreeFault.Syntax → read_text text.now ≡ None }
    ensures fraction { IsErrOf result TreeFault.Fraction → (json : Json)
        × (read_text text.now ≡ Some json) × (has_float json ≡ true) }
{
    match Value::from_str(alloc, text) {
        Ok(value) => tree_from(alloc, &value),
        Err(e) => {
            if e.is_memory() {
                Err(TreeFault::NoMemory)
            } else {
                Err(TreeFault::Syntax)
            }
        }
    }
}

// The number, if it is an integer of 64 bits.
fn whole_in(number: &Number) -> Option<i128>
    ensures value { result ≡ as_integer (number_view number.now) }
    ensures narrow { IfSome result (λ z. IsNarrow (whole z)) }
{
    match number.as_i64() {
        Some(z) => Some(z as i128),
        None => match number.as_u64() {
            Some(n) => Some(n as i128),
            None => None,
        },
    }
}

// The tree of a value that was read, unless it holds a float.
#[cycle(read)]
fn tree_from(alloc: Global, value: &Value) -> Result<Tree, TreeFault>
    ensures ok { IfOk result (λ t. data_of t ≡ tree_of (view value.now)) }
    ensures no_float { IfOk result (λ _. has_float (view value.now) ≡ false) }
    ensures narrow { IfOk result (λ t. IsNarrow (data_of t)) }
    ensures syntax { result ≢ Err TreeFault.Syntax }
    ensures fraction { IsErrOf result TreeFault.Fraction → has_float (view value.now) ≡ true }
{
    match value {
        Value::Null => Ok(Tree::Null),
        Value::Bool(b) => Ok(Tree::Flag(*b)),
        Value::Number(number) => match whole_in(number) {
            Some(z) => Ok(Tree::Whole(z)),
            None => Err(TreeFault::Fraction),
        },
        Value::String(text) => Ok(Tree::Words(Text::of(alloc, text.as_str())?)),
        Value::Array(values) => Ok(Tree::List(Trees::from_vec(trees_from(alloc, values)?))),
        Value::Object(members) => Ok(Tree::Map(Pairs::from_vec(pairs_from(alloc, members)?))),
    }
}

#[cycle(read)]
fn trees_from(alloc: Global, values: &Vec<Value>) -> Result<Vec<Tree>, TreeFault>
    ensures ok { IfOk result (λ v. map data_of v.items ≡ map seen_tree values.now.items) }
    ensures no_float { IfOk result (λ _. items_have_float (items_view values.now.items) ≡ false) }
    ensures narrow { IfOk result (λ v. ItemsNarrow (items_of (map data_of v.items))) }
    ensures syntax { result ≢ Err TreeFault.Syntax }
    ensures fraction { IsErrOf result TreeFault.Fraction
        → items_have_float (items_view values.now.items) ≡ true }
{
    let mut found = Vec::with_capacity(alloc, values.len())?;
    for value in values {
        found.push(tree_from(alloc, value)?)?;
    }
    Ok(found)
}

#[cycle(read)]
fn pairs_from(alloc: Global, members: &Map<String, Value>) -> Result<Vec<(Text, Tree)>, TreeFault>
    ensures ok { IfOk result (λ v. map entry_of v.items ≡ map seen_entry members.now.entries) }
    ensures rising { IfOk result (λ v. IsRising (map entry_of v.items)) }
    ensures no_float { IfOk result
        (λ _. members_have_float (members_view members.now.entries) ≡ false) }
    ensures narrow { IfOk result (λ v. MembersNarrow (members_of (map entry_of v.items))) }
    ensures syntax { result ≢ Err TreeFault.Syntax }
    ensures fraction { IsErrOf result TreeFault.Fraction
        → members_have_float (members_view members.now.entries) ≡ true }
{
    let mut found = Vec::with_capacity(alloc, members.len())?;
    for (key, member) in members.iter() {
        let name = Text::of(alloc, key.as_str())?;
        let tree = tree_from(alloc, member)?;
        found.push((name, tree))?;
    }
    Ok(found)
}
