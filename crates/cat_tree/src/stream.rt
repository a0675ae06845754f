//! From the tokens of a JSON text to a tree, in one pass.
//!
//! What a tree can't hold while it is read is left to the reader by way of `serde_json`'s value: a number
//! that isn't an integer of 64 bits, which a later value of the same key may still replace, and a wide
//! map whose keys aren't in order.
ghost use Rattle.std.specs.Prelude.{◌≡◌, ◌≢◌, ◌<◌, ◌==◌, length, map, slice_index, true, false, Some, None, Err, IfOk, IfSome, OnOk, IsErrOf, IsTrue};
ghost use Rattle.std.specs.Ordering.{nat_cmp};
ghost use Rattle.std.specs.Cmp.Lexicographic.{slice_cmp};
ghost use Rattle.std.specs.FinMap.Entries.{put};
ghost use Rattle.json.specs.Json.{value, items, members};
ghost use Rattle.serde_json.specs.Data.{no_members as no_json_members};
ghost use Rattle.serde_json.specs.Read.{of_json, of_items, of_members, converted, number_of as number_in, number_from, read as read_text};
ghost use Rattle.cat_tree.specs.Data.{whole, items_of, members_of};
ghost use Rattle.cat_tree.specs.Proper.{IsNarrow, ItemsNarrow, MembersNarrow};
ghost use Rattle.cat_tree.specs.Text.{number_of, json_of, json_items, json_members};
ghost use Rattle.cat_tree.specs.View.{data_of};

use crate::text::Text;
use crate::tree::{Pairs, Tree, Trees};
use fast_float::Numeral;
use json::{Invalid, Reader, Scratch, Token};
use std::alloc::{AllocError, AllocFailed, Global};

const MAX_DEPTH: usize = 127;

// A map with more members, whose keys aren't in order, is left to the other reader.
const WIDE: usize = 64;

/// Why a text isn't read in one pass.
#[derive(Clone, Copy, Drop, PartialEq, Eq)]
pub enum Stop {
    /// It isn't JSON text.
    Syntax,
    /// It is left to the reader by way of a value.
    Aside,
    /// Memory is wanted.
    NoMemory,
}

impl From<AllocError> for Stop {
    ghost use Rattle.std.specs.Prelude.{◌≡◌};
    ghost use Rattle.cat_tree.specs.declared.stream.Stop.TheVariants.{NoMemory};

    ghost from_gives = { λ _ e. e ≡ NoMemory };

    fn from(_refused: AllocError) -> Stop {
        Stop::NoMemory
    }
}

impl<T: Drop> From<AllocFailed<T>> for Stop {
    ghost use Rattle.std.specs.Prelude.{◌≡◌};
    ghost use Rattle.cat_tree.specs.declared.stream.Stop.TheVariants.{NoMemory};

    ghost from_gives = { λ _ e. e ≡ NoMemory };

    fn from(_refused: AllocFailed<T>) -> Stop {
        Stop::NoMemory
    }
}

impl From<Invalid> for Stop {
    ghost use Rattle.std.specs.Prelude.{◌≡◌};
    ghost use Rattle.cat_tree.specs.declared.stream.Stop.TheVariants.{Syntax};

    ghost from_gives = { λ _ e. e ≡ Syntax };

    fn from(_refused: Invalid) -> Stop {
        Stop::Syntax
    }
}

/// The tree of a JSON text, if it can be read in one pass.
pub fn read_tokens(alloc: Global, text: &str) -> Result<Tree, Stop>
    ensures ok { IfOk result (λ t. read_text text.now ≡ Some (json_of (data_of t))) }
    ensures narrow { IfOk result (λ t. IsNarrow (data_of t)) }
    ensures syntax { IsErrOf result Stop.Syntax → read_text text.now ≡ None }
{
    let mut scratch = Scratch::new(alloc);
    let mut reader = Reader::new(text, &mut scratch)?;
    let tree = read_tree(alloc, &mut reader, MAX_DEPTH)?;
    if reader.next().is_some() {
        return Err(Stop::Syntax);
    }
    Ok(tree)
}

fn has_minus(bytes: &[u8]) -> bool
    ensures value { result ≡ (slice_index bytes.now 0 == 45) }
    ensures len { IsTrue result → 0 < length bytes.now }
{
    !bytes.is_empty() && bytes[0] == b'-'
}

fn whole_from_zero(numeral: &Numeral<'_>) -> Option<i128>
    ensures value { IfSome result (λ z. number_from false numeral.now ≡ Some (number_of z)) }
    ensures narrow { IfSome result (λ z. IsNarrow (whole z)) }
{
    match numeral.to_u64() {
        Some(n) => Some(n as i128),
        None => None,
    }
}

fn whole_below_zero(numeral: &Numeral<'_>) -> Option<i128>
    ensures value { IfSome result (λ z. number_from true numeral.now ≡ Some (number_of z)) }
    ensures narrow { IfSome result (λ z. IsNarrow (whole z)) }
{
    if let Some(z) = numeral.to_i64(true) {
        if z < 0 {
            return Some(z as i128);
        }
    }
    None
}

// The number, if it is an integer of 64 bits.
fn whole_in(text: &str) -> Option<i128>
    ensures value { IfSome result (λ z. number_in text.now ≡ Some (number_of z)) }
    ensures narrow { IfSome result (λ z. IsNarrow (whole z)) }
{
    let bytes = text.as_bytes();
    if has_minus(bytes) {
        whole_below_zero(&Numeral::scan(&bytes[1..]))
    } else {
        whole_from_zero(&Numeral::scan(bytes))
    }
}

#[cycle(read_tree)]
fn read_tree(alloc: Global, reader: &mut Reader<'_>, depth: usize) -> Result<Tree, Stop>
    ensures ok { IfOk result (λ t. converted of_json (value depth reader.old)
        ≡ Some (json_of (data_of t), reader.new)) }
    ensures narrow { IfOk result (λ t. IsNarrow (data_of t)) }
    ensures shorter { OnOk result (length reader.new < length reader.old) }
    ensures syntax { IsErrOf result Stop.Syntax
        → converted of_json (value depth reader.old) ≡ None }
{
    let token = reader.next().ok_or(Stop::Syntax)?;
    match token {
        Token::String(text) => Ok(Tree::Words(Text::of(alloc, text)?)),
        Token::Number(text) => match whole_in(text) {
            Some(z) => Ok(Tree::Whole(z)),
            None => Err(Stop::Aside),
        },
        Token::Bool(b) => Ok(Tree::Flag(b)),
        Token::Null => Ok(Tree::Null),
        Token::EndObject | Token::EndArray | Token::Key(_) | Token::Bad => Err(Stop::Syntax),
        Token::BeginArray => {
            if depth == 0 {
                return Err(Stop::Syntax);
            }
            Ok(Tree::List(Trees::from_vec(read_items(alloc, reader, depth - 1)?)))
        }
        Token::BeginObject => {
            if depth == 0 {
                return Err(Stop::Syntax);
            }
            Ok(Tree::Map(read_members(alloc, reader, depth - 1)?))
        }
    }
}

#[cycle(read_tree)]
fn read_items(alloc: Global, reader: &mut Reader<'_>, depth: usize) -> Result<Vec<Tree>, Stop>
    ensures ok { IfOk result
        (λ v. converted of_items (items (value depth) (length reader.old) reader.old)
        ≡ Some (json_items (items_of (map data_of v.items)), reader.new)) }
    ensures narrow { IfOk result (λ v. ItemsNarrow (items_of (map data_of v.items))) }
    ensures shorter { OnOk result (length reader.new < length reader.old) }
    ensures syntax { IsErrOf result Stop.Syntax
        → converted of_items (items (value depth) (length reader.old) reader.old) ≡ None }
{
    let mut found = Vec::new(alloc);
    'items: while !reader.take_end_array() {
        let item = read_tree(alloc, reader, depth)?;
        found.push(item)?;
    }
    Ok(found)
}

// Whether the last key comes behind the key.
fn is_above(found: &[(Text, Tree)], key: &str) -> bool {
    match found.last() {
        Some((last, _)) => key < last.as_str(),
        None => false,
    }
}

// Puts a member in, unless the map is wide and its keys aren't in order.
fn put_member(found: &mut Pairs, key: Text, tree: Tree) -> Result<(), Stop>
    ensures ok { OnOk result (found.new ≡ put (slice_cmp nat_cmp) key (data_of tree) found.old) }
    ensures syntax { result ≢ Err Stop.Syntax }
{
    if WIDE < found.len() && is_above(found.as_slice(), key.as_str()) {
        return Err(Stop::Aside);
    }
    found.insert(key, tree)?;
    Ok(())
}

#[cycle(read_tree)]
fn read_members(alloc: Global, reader: &mut Reader<'_>, depth: usize) -> Result<Pairs, Stop>
    ensures ok { IfOk result
        (λ m. converted (λ ms. of_members ms no_json_members)
        (members (value depth) (length reader.old) reader.old)
        ≡ Some (json_members (members_of m), reader.new)) }
    ensures narrow { IfOk result (λ m. MembersNarrow (members_of m)) }
    ensures shorter { OnOk result (length reader.new < length reader.old) }
    ensures syntax { IsErrOf result Stop.Syntax
        → converted (λ ms. of_members ms no_json_members)
        (members (value depth) (length reader.old) reader.old) ≡ None }
{
    let mut found = Pairs::new(alloc);
    'members: while let Some(name) = reader.next_key()? {
        let key = Text::of(alloc, name)?;
        let tree = read_tree(alloc, reader, depth)?;
        put_member(&mut found, key, tree)?;
    }
    Ok(found)
}
