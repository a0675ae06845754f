//! Cursors as texts.
ghost use Rattle.std.specs.Prelude.{◌≡◌, ◌≢◌, ◌⊎◌, ℕ, List, Option, None, Ok, IfOk, IfErr, MatchOption, codes, map};
ghost use Rattle.base64.specs.Engines.{url_safe_no_pad};
ghost use Rattle.base64.specs.GeneralPurpose.{decode_of};
ghost use Rattle.cat_tree.specs.Data.{Data, item, items_of, list, no_items, words};
ghost use Rattle.cat_tree.specs.Read.{ReadsAs};
ghost use Rattle.cat_tree.specs.Text.{text_of};
ghost use Rattle.cat_tree.specs.View.{data_of};
ghost use Rattle.cat_types.specs.Reference.{parsed};
ghost use Rattle.cat_query.specs.Cursor.{CursorIs, HasNoCursor, IsCursor, IsNamed, cursor_data, cursor_text, value_data};
ghost use Rattle.cat_pages.specs.declared.query.Cursor.{Cursor as CursorData};

use crate::fault::QueryFault;
use base64::DecodeAllocError;
use base64::engine::general_purpose::URL_SAFE_NO_PAD;
use cat_pages::query::Cursor;
use cat_tree::read::{TreeFault, read};
use cat_tree::text::Text;
use cat_tree::tree::{Tree, Trees};
use cat_tree::write::write;
use cat_types::fault::RefFault;
use cat_types::reference::{Ref, parse};
use std::alloc::{AllocError, Global};

fn value_tree(alloc: Global, value: &Option<Text>) -> Result<Tree, AllocError>
    ensures { IfOk result (λ t. data_of t ≡ value_data value.now) }
{
    match value {
        None => Ok(Tree::Null),
        Some(text) => Ok(Tree::Words(Text::of(alloc, text.as_str())?)),
    }
}

fn cursor_tree(alloc: Global, cursor: &Cursor) -> Result<Tree, AllocError>
    ensures { IfOk result (λ t. data_of t ≡ cursor_data cursor.now) }
{
    let value = value_tree(alloc, &cursor.value)?;
    let reference = Text::of(alloc, cursor.reference.as_str())?;
    let mut items = Vec::new(alloc);
    items.push(value)?;
    items.push(Tree::Words(reference))?;
    Ok(Tree::List(Trees::from_vec(items)))
}

fn json_of(alloc: Global, cursor: &Cursor) -> Result<Vec<u8>, AllocError>
    ensures text { IfOk result (λ v. v.items ≡ text_of (cursor_data cursor.now)) }
    ensures reads_back { IfOk result (λ v. ReadsAs v.items (cursor_data cursor.now)) }
{
    let tree = cursor_tree(alloc, cursor)?;
    let mut bytes = Vec::new(alloc);
    write(alloc, &tree, &mut bytes)?;
    Ok(bytes)
}

/// The text of a cursor: the base64url text without padding of the JSON list of its value, or null, and
/// its reference. Where its reference is one, the text reads as the cursor again.
pub fn write_cursor(alloc: Global, cursor: &Cursor) -> Result<Text, AllocError>
    ensures text { IfOk result (λ t. t ≡ cursor_text cursor.now) }
    ensures reads_back { IfOk result (λ t. IsNamed cursor.now → IsCursor t cursor.now) }
{
    let bytes = json_of(alloc, cursor)?;
    Ok(Text::from_string(URL_SAFE_NO_PAD.encode(alloc, bytes.as_slice())?))
}

fn decoded(alloc: Global, text: &str) -> Result<Vec<u8>, QueryFault>
    ensures ok { IfOk result (λ v. decode_of url_safe_no_pad text.now ≡ Ok v.items) }
    ensures err { IfErr result (λ e. (e ≡ QueryFault.NoMemory)
        ⊎ ((e ≡ QueryFault.BadCursor) × ((b : List ℕ) → decode_of url_safe_no_pad text.now ≢ Ok b))) }
{
    match URL_SAFE_NO_PAD.decode(alloc, text.as_bytes()) {
        Ok(bytes) => Ok(bytes),
        Err(DecodeAllocError::DecodeError(_)) => Err(QueryFault::BadCursor),
        Err(DecodeAllocError::OutOfMemory) => Err(QueryFault::NoMemory),
    }
}

fn tree_of(alloc: Global, bytes: &[u8]) -> Result<Tree, QueryFault>
    ensures ok { IfOk result (λ t. ReadsAs bytes.now (data_of t)) }
    ensures err { IfErr result (λ e. (e ≡ QueryFault.NoMemory)
        ⊎ ((e ≡ QueryFault.BadCursor) × ((d : Data) → ¬ ReadsAs bytes.now d))) }
{
    match read(alloc, bytes) {
        Ok(tree) => Ok(tree),
        Err(TreeFault::Syntax) => Err(QueryFault::BadCursor),
        Err(TreeFault::Fraction) => Err(QueryFault::BadCursor),
        Err(TreeFault::NoMemory) => Err(QueryFault::NoMemory),
    }
}

// The two members of a list of two.
#[tactic(auto, using(crate::proofs::Spelled::twos))]
fn two_of(items: &[Tree]) -> Option<(&Tree, &Tree)>
    ensures { MatchOption result
        ((a b : Data) → items_of (map data_of items.now) ≢ item a (item b no_items))
        (λ p. items_of (map data_of items.now) ≡ item (data_of p.0.now) (item (data_of p.1.now) no_items)) }
{
    if items.len() == 2 {
        Some((&items[0], &items[1]))
    } else {
        None
    }
}

// The two members of a list of two.
fn pair_in(tree: &Tree) -> Option<(&Tree, &Tree)>
    ensures { MatchOption result
        ((a b : Data) → data_of tree.now ≢ list (item a (item b no_items)))
        (λ p. data_of tree.now ≡ list (item (data_of p.0.now) (item (data_of p.1.now) no_items))) }
{
    match tree {
        Tree::List(trees) => two_of(trees.as_slice()),
        Tree::Null | Tree::Flag(_) | Tree::Whole(_) | Tree::Words(_) | Tree::Map(_) => None,
    }
}

// The value of a cursor, or null.
fn value_in(alloc: Global, tree: &Tree) -> Result<Option<Option<Text>>, AllocError>
    ensures { IfOk result (λ o. MatchOption o
        ((v : Option (List ℕ)) → data_of tree.now ≢ value_data v)
        (λ v. data_of tree.now ≡ value_data v)) }
{
    match tree {
        Tree::Null => Ok(Some(None)),
        Tree::Words(text) => Ok(Some(Some(Text::of(alloc, text.as_str())?))),
        Tree::Flag(_) | Tree::Whole(_) | Tree::List(_) | Tree::Map(_) => Ok(None),
    }
}

// The reference that the text is.
fn reference_of(alloc: Global, text: &str) -> Result<Option<Ref>, AllocError>
    ensures { IfOk result (λ o. MatchOption o
        (parsed text.now None (codes "default") ≢ Ok text.now)
        (λ r. (r ≡ text.now) × (parsed text.now None (codes "default") ≡ Ok text.now))) }
{
    match parse(alloc, text, None, "default") {
        Ok(reference) => {
            if reference.as_str() == text {
                Ok(Some(reference))
            } else {
                Ok(None)
            }
        }
        Err(RefFault::NoMemory) => Err(AllocError),
        Err(_) => Ok(None),
    }
}

fn reference_in(alloc: Global, tree: &Tree) -> Result<Option<Ref>, AllocError>
    ensures { IfOk result (λ o. MatchOption o
        ((r : List ℕ) → parsed r None (codes "default") ≡ Ok r → data_of tree.now ≢ words r)
        (λ r. (data_of tree.now ≡ words r) × (parsed r None (codes "default") ≡ Ok r))) }
{
    match tree {
        Tree::Words(text) => reference_of(alloc, text.as_str()),
        Tree::Null | Tree::Flag(_) | Tree::Whole(_) | Tree::List(_) | Tree::Map(_) => Ok(None),
    }
}

// The cursor whose list the tree is.
fn cursor_in(alloc: Global, tree: &Tree) -> Result<Option<Cursor>, AllocError>
    ensures { IfOk result (λ o. MatchOption o
        ((c : CursorData) → IsNamed c → data_of tree.now ≢ cursor_data c)
        (λ c. (data_of tree.now ≡ cursor_data c) × IsNamed c)) }
{
    let Some((first, second)) = pair_in(tree) else {
        return Ok(None);
    };
    let Some(value) = value_in(alloc, first)? else {
        return Ok(None);
    };
    match reference_in(alloc, second)? {
        Some(reference) => Ok(Some(Cursor { value, reference })),
        None => Ok(None),
    }
}

// The cursor whose list the tree is, where the text is what is written for it.
fn spelled(alloc: Global, text: &str, tree: &Tree) -> Result<Cursor, QueryFault>
    ensures ok { IfOk result (λ c. (data_of tree.now ≡ cursor_data c) × IsNamed c × (cursor_text c ≡ text.now)) }
    ensures err { IfErr result (λ e. (e ≡ QueryFault.NoMemory)
        ⊎ ((e ≡ QueryFault.BadCursor)
        × ((c : CursorData) → IsNamed c → data_of tree.now ≡ cursor_data c → cursor_text c ≢ text.now))) }
{
    match cursor_in(alloc, tree)? {
        Some(cursor) => {
            let written = write_cursor(alloc, &cursor)?;
            if written.as_str() == text {
                Ok(cursor)
            } else {
                Err(QueryFault::BadCursor)
            }
        }
        None => Err(QueryFault::BadCursor),
    }
}

/// Reads a cursor, of which a text is one at most. `BadCursor` comes exactly where the text isn't what is written for a
/// cursor.
#[tactic(auto, using(crate::proofs::Spelled::one_cursor))]
pub fn read_cursor(alloc: Global, text: &str) -> Result<Cursor, QueryFault>
    ensures ok { IfOk result (λ c. IsCursor text.now c) }
    ensures one { IfOk result (λ c. (d : CursorData) → IsCursor text.now d → d ≡ c) }
    ensures err { IfErr result (λ e. (e ≡ QueryFault.NoMemory)
        ⊎ ((e ≡ QueryFault.BadCursor) × ((c : CursorData) → ¬ IsCursor text.now c))) }
{
    let bytes = decoded(alloc, text)?;
    match tree_of(alloc, bytes.as_slice()) {
        Ok(tree) => spelled(alloc, text, &tree),
        Err(fault) => Err(fault),
    }
}

/// Reads at most one cursor.
pub fn cursor(alloc: Global, texts: &[&str]) -> Result<Option<Cursor>, QueryFault>
    ensures ok { IfOk result (λ c. CursorIs (map (λ t. t.now) texts.now) c) }
    ensures err { IfErr result (λ e. (e ≡ QueryFault.NoMemory)
        ⊎ ((e ≡ QueryFault.BadCursor) × HasNoCursor (map (λ t. t.now) texts.now))) }
{
    match texts {
        [] => Ok(None),
        [text] => Ok(Some(read_cursor(alloc, text)?)),
        _ => Err(QueryFault::BadCursor),
    }
}
