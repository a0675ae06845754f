//! Parts of a row's tree, where it has them.
ghost use Rattle.std.specs.Prelude.{◌≡◌, ◌⊎◌, ◌<◌, ◌≤◌, length, IfOk, IfErr, IfSome, Ok, Err};
ghost use Rattle.cat_tree.specs.Ask.{child_of};
ghost use Rattle.cat_tree.specs.View.{data_of};
ghost use Rattle.cat_row_format.specs.Parsed as parsed;

use crate::row::RowFault;
use cat_tree::ask::child;
use cat_tree::clone::copy;
use cat_tree::text::Text;
use cat_tree::tree::Tree;
use cat_types::fault::RefFault;
use cat_types::node::Node;
use cat_types::reference::{Ref, parse, text_at, text_in};
use std::alloc::Global;

/// Lends the tree at a key.
pub fn field<'a>(tree: &'a Tree, key: &str) -> Result<&'a Tree, RowFault>
    ensures ok { IfOk result (λ t. parsed.field key.now (data_of tree.now) ≡ Ok (data_of t.now)) }
    ensures err { IfErr result (λ e. parsed.field key.now (data_of tree.now) ≡ Err e) }
{
    match child(tree, key) {
        Some(part) => Ok(part),
        None => Err(RowFault::BadRow),
    }
}

/// Lends the text at a key.
pub fn words_at<'a>(tree: &'a Tree, key: &str) -> Result<&'a str, RowFault>
    ensures ok { IfOk result (λ t. parsed.words_at key.now (data_of tree.now) ≡ Ok t.now) }
    ensures err { IfErr result (λ e. parsed.words_at key.now (data_of tree.now) ≡ Err e) }
{
    match text_at(child(tree, key)) {
        Some(text) => Ok(text),
        None => Err(RowFault::BadRow),
    }
}

/// Lends the text that a tree is.
pub fn words_in(tree: &Tree) -> Result<&str, RowFault>
    ensures ok { IfOk result (λ t. parsed.words_in (data_of tree.now) ≡ Ok t.now) }
    ensures err { IfErr result (λ e. parsed.words_in (data_of tree.now) ≡ Err e) }
{
    match text_in(tree) {
        Some(text) => Ok(text),
        None => Err(RowFault::BadRow),
    }
}

/// The number of 64 bits that a tree is.
pub fn number_in(tree: &Tree) -> Result<u64, RowFault>
    ensures { result ≡ parsed.number_in (data_of tree.now) }
{
    match tree {
        Tree::Whole(value) => {
            if 0 <= *value && *value <= u64::MAX as i128 {
                Ok(*value as u64)
            } else {
                Err(RowFault::BadRow)
            }
        }
        _ => Err(RowFault::BadRow),
    }
}

/// The number at a key.
pub fn number_at(tree: &Tree, key: &str) -> Result<u64, RowFault>
    ensures { result ≡ parsed.number_at key.now (data_of tree.now) }
{
    match field(tree, key) {
        Ok(part) => number_in(part),
        Err(fault) => Err(fault),
    }
}

/// A copy of a lent text.
pub fn owned(alloc: Global, text: &str) -> Result<Text, RowFault>
    ensures ok { IfOk result (λ t. t ≡ text.now) }
    ensures err { IfErr result (λ e. e ≡ RowFault.NoMemory) }
{
    Ok(Text::of(alloc, text)?)
}

/// A copy of a lent tree.
pub fn node(alloc: Global, tree: &Tree) -> Result<Node, RowFault>
    ensures ok { IfOk result (λ n. n ≡ data_of tree.now) }
    ensures err { IfErr result (λ e. e ≡ RowFault.NoMemory) }
{
    Ok(Node::new(alloc, copy(alloc, tree)?)?)
}

/// A copy of the text at a key.
pub fn text_field(alloc: Global, tree: &Tree, key: &str) -> Result<Text, RowFault>
    ensures ok { IfOk result (λ t. parsed.words_at key.now (data_of tree.now) ≡ Ok t) }
    ensures err { IfErr result (λ e. (parsed.words_at key.now (data_of tree.now) ≡ Err e) ⊎ (e ≡ RowFault.NoMemory)) }
{
    match words_at(tree, key) {
        Ok(text) => owned(alloc, text),
        Err(fault) => Err(fault),
    }
}

/// A copy of the tree at a key.
pub fn node_field(alloc: Global, tree: &Tree, key: &str) -> Result<Node, RowFault>
    ensures ok { IfOk result (λ n. parsed.field key.now (data_of tree.now) ≡ Ok n) }
    ensures err { IfErr result (λ e. (parsed.field key.now (data_of tree.now) ≡ Err e) ⊎ (e ≡ RowFault.NoMemory)) }
{
    match field(tree, key) {
        Ok(part) => node(alloc, part),
        Err(fault) => Err(fault),
    }
}

/// A copy of the tree at a key, if there is one.
pub fn node_at(alloc: Global, tree: &Tree, key: &str) -> Result<Option<Node>, RowFault>
    ensures ok { IfOk result (λ n. n ≡ child_of key.now (data_of tree.now)) }
    ensures err { IfErr result (λ e. e ≡ RowFault.NoMemory) }
{
    match child(tree, key) {
        Some(part) => Ok(Some(node(alloc, part)?)),
        None => Ok(None),
    }
}

/// The reference that a text names, which leaves out no kind and no namespace.
pub fn reference_in(alloc: Global, text: &str) -> Result<Ref, RowFault>
    ensures ok { IfOk result (λ r. parsed.reference_in text.now ≡ Ok r) }
    ensures err { IfErr result (λ e. (parsed.reference_in text.now ≡ Err e) ⊎ (e ≡ RowFault.NoMemory)) }
{
    match parse(alloc, text, None, "") {
        Ok(reference) => Ok(reference),
        Err(RefFault::NoMemory) => Err(RowFault::NoMemory),
        Err(_) => Err(RowFault::BadRow),
    }
}

/// The reference at a key.
pub fn reference_at(alloc: Global, tree: &Tree, key: &str) -> Result<Ref, RowFault>
    ensures ok { IfOk result (λ r. parsed.reference_at key.now (data_of tree.now) ≡ Ok r) }
    ensures err { IfErr result (λ e. (parsed.reference_at key.now (data_of tree.now) ≡ Err e) ⊎ (e ≡ RowFault.NoMemory)) }
{
    match words_at(tree, key) {
        Ok(text) => reference_in(alloc, text),
        Err(fault) => Err(fault),
    }
}

// The value of a hexadecimal digit in lower case.
fn digit_in(byte: u8) -> Option<u64>
    ensures value { result ≡ parsed.digit_in byte }
    ensures small { IfSome result (λ d. d < 16) }
{
    match byte {
        b'0'..=b'9' => Some((byte - b'0') as u64),
        b'a'..=b'f' => Some((byte - b'a') as u64 + 10),
        _ => None,
    }
}

// The number of at most sixteen hexadecimal digits.
fn hex_of(digits: &[u8]) -> Result<u64, RowFault>
    requires { length digits.now ≤ 16 }
    ensures { result ≡ parsed.hex_from 0 digits.now }
{
    let mut value: u64 = 0;
    for digit in digits {
        match digit_in(*digit) {
            Some(digit) => value = value * 16 + digit,
            None => return Err(RowFault::BadRow),
        }
    }
    Ok(value)
}

/// The number of sixteen hexadecimal digits.
pub fn hex_in(text: &str) -> Result<u64, RowFault>
    ensures { result ≡ parsed.hex_in text.now }
{
    if text.len() == 16 {
        hex_of(text.as_bytes())
    } else {
        Err(RowFault::BadRow)
    }
}
