//! Quoted texts: where one ends, and what it stands for.
ghost use Rattle.std.specs.Prelude.{◌≡◌, ◌+◌, ◌≤◌, ◌⊎◌, false, IfOk, IfErr, IfSome, Ok, Err, length};
ghost use Rattle.cat_tree.specs.View.{data_of};
ghost use Rattle.cat_yaml.specs.Quoted as spec;
ghost use Rattle.cat_yaml.specs.Seen.{words_of, refusal_of};

use crate::fault::Refusal;
use crate::scalar::text_of;
use crate::scan::begins_with;
use cat_tree::read::{TreeFault, read};
use cat_tree::text::Text;
use cat_tree::tree::Tree;
use std::alloc::{AllocError, Global};

// Past the closing single quote, if there is one: the bytes are those after the opening quote.
fn single_end(bytes: &[u8]) -> Option<usize>
    ensures value { result ≡ spec.single_from 1 false bytes.now }
    ensures within { IfSome result (λ n. n ≤ length bytes.now + 1) }
{
    let mut after = false;
    for (i, byte) in bytes.iter().enumerate() {
        if *byte == b'\'' {
            after = !after;
        } else if after {
            return Some(i + 1);
        }
    }
    if after { Some(bytes.len() + 1) } else { None }
}

// Past the closing double quote, if there is one: the bytes are those after the opening quote.
fn double_end(bytes: &[u8]) -> Option<usize>
    ensures value { result ≡ spec.double_from 1 false bytes.now }
    ensures within { IfSome result (λ n. n ≤ length bytes.now + 1) }
{
    let mut escaped = false;
    for (i, byte) in bytes.iter().enumerate() {
        if *byte == b'"' && !escaped {
            return Some(i + 2);
        }
        escaped = *byte == b'\\' && !escaped;
    }
    None
}

/// Where the quoted text that begins here has its end, past the closing quote; none where it has none.
pub fn quoted_end(bytes: &[u8]) -> Option<usize>
    ensures value { result ≡ spec.quoted_end bytes.now }
    ensures within { IfSome result (λ n. n ≤ length bytes.now) }
{
    match bytes.split_first() {
        Some((b'\'', rest)) => single_end(rest),
        Some((_, rest)) => double_end(rest),
        None => None,
    }
}

// The bytes between the quotes.
fn inner(bytes: &[u8]) -> &[u8]
    ensures { result.now ≡ spec.inner bytes.now }
{
    match bytes {
        [_, inner @ .., _] => inner,
        _ => &[],
    }
}

// The bytes with each doubled single quote as one.
fn undoubled(alloc: Global, bytes: &[u8]) -> Result<Vec<u8>, AllocError>
    ensures { IfOk result (λ v. v.items ≡ spec.undoubled false bytes.now) }
{
    let mut text = Vec::with_capacity(alloc, bytes.len())?;
    let mut after = false;
    for byte in bytes {
        if *byte == b'\'' && !after {
            after = true;
        } else {
            text.push(*byte)?;
            after = false;
        }
    }
    Ok(text)
}

// The text that a tree is.
fn words_in(tree: Tree) -> Result<Text, Refusal>
    ensures ok { IfOk result (λ t. words_of (data_of tree) ≡ Ok t) }
    ensures err { IfErr result (λ e. words_of (data_of tree) ≡ Err e) }
{
    match tree {
        Tree::Words(text) => Ok(text),
        _ => Err(Refusal::NoReading),
    }
}

fn refusal_of(fault: TreeFault) -> Refusal
    ensures { result ≡ refusal_of fault }
{
    match fault {
        TreeFault::Syntax | TreeFault::Fraction => Refusal::NoReading,
        TreeFault::NoMemory => Refusal::NoMemory,
    }
}

// The text of a JSON string (RFC 8259).
fn json_text(alloc: Global, bytes: &[u8]) -> Result<Text, Refusal>
    ensures ok { IfOk result (λ t. spec.json_text bytes.now ≡ Ok t) }
    ensures err { IfErr result (λ e. (spec.json_text bytes.now ≡ Err e) ⊎ (e ≡ Refusal.NoMemory)) }
{
    match read(alloc, bytes) {
        Ok(tree) => words_in(tree),
        Err(fault) => Err(refusal_of(fault)),
    }
}

/// The text of a quoted text, with its quotes: in double quotes JSON's escapes, in single ones a
/// doubled quote.
pub fn quoted_text(alloc: Global, bytes: &[u8]) -> Result<Text, Refusal>
    ensures ok { IfOk result (λ t. spec.quoted_text bytes.now ≡ Ok t) }
    ensures err { IfErr result (λ e. (spec.quoted_text bytes.now ≡ Err e) ⊎ (e ≡ Refusal.NoMemory)) }
{
    if begins_with(b'\'', bytes) {
        let text = undoubled(alloc, inner(bytes))?;
        return text_of(alloc, text.as_slice());
    }
    json_text(alloc, bytes)
}
