//! A value on one line: a quoted text, a list in brackets, an empty map, or a plain value.
ghost use Rattle.std.specs.Prelude.{◌≡◌, ◌≤◌, ◌⊎◌, [], map, IfOk, IfErr, IfSome, Ok, Err, drop, length};
ghost use Rattle.cat_tree.specs.View.{data_of};
ghost use Rattle.cat_yaml.specs.Quoted.{quoted_end as quoted_end_of};
ghost use Rattle.cat_yaml.specs.Value as spec;
ghost use Rattle.cat_yaml.specs.Value.{item_end as item_end_of};

use crate::fault::Refusal;
use crate::quoted::{quoted_end, quoted_text};
use crate::scalar::plain_value;
use crate::scan::{begins_with, comment_at, is_end, is_quoted, stripped, trimmed, uncommented};
use cat_tree::tree::{Pairs, Tree, Trees};
use std::alloc::Global;

fn is_flow_mark(byte: u8) -> bool
    ensures { result ≡ spec.is_flow_mark byte }
{
    b",[]{}".contains(&byte)
}

// Where the first comma, bracket or brace stands, or the end.
fn flow_mark_at(bytes: &[u8]) -> usize
    ensures value { result ≡ spec.flow_from 0 bytes.now }
    ensures within { result ≤ length bytes.now }
{
    for (i, byte) in bytes.iter().enumerate() {
        if is_flow_mark(*byte) {
            return i;
        }
    }
    bytes.len()
}

// Where the value in brackets that begins here ends.
fn item_end(bytes: &[u8]) -> Option<usize>
    ensures value { result ≡ spec.item_end bytes.now }
    ensures within { IfSome result (λ n. n ≤ length bytes.now) }
{
    if is_quoted(bytes) {
        quoted_end(bytes)
    } else {
        Some(flow_mark_at(bytes))
    }
}

fn flow_plain(alloc: Global, bytes: &[u8]) -> Result<Tree, Refusal>
    ensures ok { IfOk result (λ t. spec.flow_plain bytes.now ≡ Ok (data_of t)) }
    ensures err { IfErr result (λ e. (spec.flow_plain bytes.now ≡ Err e) ⊎ (e ≡ Refusal.NoMemory)) }
{
    if comment_at(bytes) == bytes.len() {
        plain_value(alloc, bytes)
    } else {
        Err(Refusal::NoReading)
    }
}

// A value in brackets.
fn flow_value(alloc: Global, bytes: &[u8]) -> Result<Tree, Refusal>
    ensures ok { IfOk result (λ t. spec.flow_value bytes.now ≡ Ok (data_of t)) }
    ensures err { IfErr result (λ e. (spec.flow_value bytes.now ≡ Err e) ⊎ (e ≡ Refusal.NoMemory)) }
{
    if is_quoted(bytes) {
        return Ok(Tree::Words(quoted_text(alloc, bytes)?));
    }
    flow_plain(alloc, trimmed(b' ', bytes))
}

// The value in brackets that begins here.
fn item_at(alloc: Global, bytes: &[u8]) -> Result<Tree, Refusal>
    ensures ok { IfOk result (λ t. spec.item_by bytes.now (item_end_of bytes.now) ≡ Ok (data_of t)) }
    ensures err { IfErr result (λ e. (spec.item_by bytes.now (item_end_of bytes.now) ≡ Err e)
        ⊎ (e ≡ Refusal.NoMemory)) }
{
    match item_end(bytes) {
        Some(end) => {
            let (item, _) = bytes.split_at(end);
            flow_value(alloc, item)
        }
        None => Err(Refusal::NoReading),
    }
}

// What follows the value that begins here, without spaces in front.
fn after_item(bytes: &[u8]) -> &[u8]
    ensures { result.now ≡ spec.after_by bytes.now (item_end_of bytes.now) }
{
    match item_end(bytes) {
        Some(end) => {
            let (_, after) = bytes.split_at(end);
            stripped(after)
        }
        None => &[],
    }
}

// What follows the first byte.
fn next(bytes: &[u8]) -> &[u8]
    ensures { result.now ≡ drop 1 bytes.now }
{
    match bytes.split_first() {
        Some((_, rest)) => rest,
        None => bytes,
    }
}

// The values, where nothing more follows.
fn closed(items: Vec<Tree>, rest: &[u8]) -> Result<Vec<Tree>, Refusal>
    ensures ok { IfOk result (λ v. spec.closed (map data_of items.items) rest.now ≡ Ok (map data_of v.items)) }
    ensures err { IfErr result (λ e. (spec.closed (map data_of items.items) rest.now ≡ Err e)
        ⊎ (e ≡ Refusal.NoMemory)) }
{
    if is_end(rest) {
        Ok(items)
    } else {
        Err(Refusal::NoReading)
    }
}

// The values up to the closing bracket, parted by commas.
fn flow_items(alloc: Global, bytes: &[u8]) -> Result<Vec<Tree>, Refusal>
    ensures ok { IfOk result (λ v. spec.flow_items bytes.now [] bytes.now ≡ Ok (map data_of v.items)) }
    ensures err { IfErr result (λ e. (spec.flow_items bytes.now [] bytes.now ≡ Err e)
        ⊎ (e ≡ Refusal.NoMemory)) }
{
    let mut items = Vec::new(alloc);
    let mut rest = bytes;
    for _turn in bytes {
        items.push(item_at(alloc, rest)?)?;
        let after = after_item(rest);
        if begins_with(b',', after) {
            rest = stripped(next(after));
        } else if begins_with(b']', after) {
            return closed(items, next(after));
        } else {
            return Err(Refusal::NoReading);
        }
    }
    Err(Refusal::NoReading)
}

fn flow_list_at(alloc: Global, bytes: &[u8]) -> Result<Vec<Tree>, Refusal>
    ensures ok { IfOk result (λ v. spec.flow_list_at bytes.now ≡ Ok (map data_of v.items)) }
    ensures err { IfErr result (λ e. (spec.flow_list_at bytes.now ≡ Err e) ⊎ (e ≡ Refusal.NoMemory)) }
{
    match bytes.split_first() {
        Some((b']', rest)) => {
            if is_end(rest) {
                Ok(Vec::new(alloc))
            } else {
                Err(Refusal::NoReading)
            }
        }
        _ => flow_items(alloc, bytes),
    }
}

// The list that follows an opening bracket.
fn flow_list(alloc: Global, bytes: &[u8]) -> Result<Tree, Refusal>
    ensures ok { IfOk result (λ t. spec.flow_list bytes.now ≡ Ok (data_of t)) }
    ensures err { IfErr result (λ e. (spec.flow_list bytes.now ≡ Err e) ⊎ (e ≡ Refusal.NoMemory)) }
{
    let items = flow_list_at(alloc, stripped(bytes))?;
    Ok(Tree::List(Trees::from_vec(items)))
}

// The empty map, whose closing brace stands here.
fn empty_map(alloc: Global, bytes: &[u8]) -> Result<Tree, Refusal>
    ensures ok { IfOk result (λ t. spec.empty_map bytes.now ≡ Ok (data_of t)) }
    ensures err { IfErr result (λ e. (spec.empty_map bytes.now ≡ Err e) ⊎ (e ≡ Refusal.NoMemory)) }
{
    match bytes.split_first() {
        Some((b'}', rest)) => {
            if is_end(rest) {
                Ok(Tree::Map(Pairs::new(alloc)))
            } else {
                Err(Refusal::NoReading)
            }
        }
        _ => Err(Refusal::NoReading),
    }
}

fn quoted_value(alloc: Global, bytes: &[u8]) -> Result<Tree, Refusal>
    ensures ok { IfOk result (λ t. spec.quoted_value bytes.now (quoted_end_of bytes.now) ≡ Ok (data_of t)) }
    ensures err { IfErr result (λ e. (spec.quoted_value bytes.now (quoted_end_of bytes.now) ≡ Err e)
        ⊎ (e ≡ Refusal.NoMemory)) }
{
    match quoted_end(bytes) {
        Some(end) => {
            let (text, after) = bytes.split_at(end);
            if !is_end(after) {
                return Err(Refusal::NoReading);
            }
            Ok(Tree::Words(quoted_text(alloc, text)?))
        }
        None => Err(Refusal::NoReading),
    }
}

/// A value on one line, where so many more levels of lists and maps may open.
pub fn value(alloc: Global, levels: usize, bytes: &[u8]) -> Result<Tree, Refusal>
    ensures ok { IfOk result (λ t. spec.value levels bytes.now ≡ Ok (data_of t)) }
    ensures err { IfErr result (λ e. (spec.value levels bytes.now ≡ Err e) ⊎ (e ≡ Refusal.NoMemory)) }
{
    if is_quoted(bytes) {
        return quoted_value(alloc, bytes);
    }
    match bytes.split_first() {
        Some((b'[', rest)) => {
            if levels == 0 {
                return Err(Refusal::NoReading);
            }
            flow_list(alloc, rest)
        }
        Some((b'{', rest)) => {
            if levels == 0 {
                return Err(Refusal::NoReading);
            }
            empty_map(alloc, stripped(rest))
        }
        _ => plain_value(alloc, uncommented(bytes)),
    }
}
