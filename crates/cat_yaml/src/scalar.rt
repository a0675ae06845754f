//! Plain values: which bytes are one, and what it stands for.
ghost use Rattle.std.specs.Prelude.{◌≡◌, ◌⊎◌, ◌≤◌, ◌^◌, IfOk, IfErr, Ok, Err};
ghost use Rattle.cat_tree.specs.View.{data_of};
ghost use Rattle.cat_yaml.specs.Scalar as spec;

use crate::fault::Refusal;
use crate::scan::{begins_with, colon_at, ends_word};
use cat_tree::text::Text;
use cat_tree::tree::Tree;
use std::alloc::Global;

// One past the greatest integer of 64 bits, which stands for each number that is none.
const REFUSED: i128 = 1 << 64;

// The same; digits of a greater value count as this one.
const MOST: u128 = 1 << 64;

fn is_indicator(byte: u8) -> bool
    ensures { result ≡ spec.is_indicator byte }
{
    b",[]{}#&*!|>'\"%@`".contains(&byte)
}

fn is_mark(byte: u8) -> bool
    ensures { result ≡ spec.is_mark byte }
{
    b"-?:".contains(&byte)
}

fn begins_plain(bytes: &[u8]) -> bool
    ensures { result ≡ spec.begins_plain bytes.now }
{
    match bytes.split_first() {
        Some((first, rest)) => !is_indicator(*first) && !(is_mark(*first) && ends_word(rest)),
        None => false,
    }
}

/// Whether the bytes are a plain text.
pub fn is_plain(bytes: &[u8]) -> bool
    ensures { result ≡ spec.is_plain bytes.now }
{
    begins_plain(bytes) && colon_at(bytes).is_none()
}

fn after_digits(bytes: &[u8]) -> &[u8]
    ensures { result.now ≡ spec.after_digits bytes.now }
{
    for (i, byte) in bytes.iter().enumerate() {
        if !byte.is_ascii_digit() {
            return &bytes[i..];
        }
    }
    &[]
}

fn begins_digit(bytes: &[u8]) -> bool
    ensures { result ≡ spec.begins_digit bytes.now }
{
    match bytes.first() {
        Some(first) => first.is_ascii_digit(),
        None => false,
    }
}

fn is_digits(bytes: &[u8]) -> bool
    ensures { result ≡ spec.is_digits bytes.now }
{
    begins_digit(bytes) && after_digits(bytes).is_empty()
}

fn unsigned(bytes: &[u8]) -> &[u8]
    ensures { result.now ≡ spec.unsigned bytes.now }
{
    match bytes.split_first() {
        Some((first, rest)) => {
            if *first == b'+' || *first == b'-' {
                rest
            } else {
                bytes
            }
        }
        None => bytes,
    }
}

fn is_exponent(bytes: &[u8]) -> bool
    ensures { result ≡ spec.is_exponent bytes.now }
{
    match bytes.split_first() {
        Some((first, rest)) => (*first == b'e' || *first == b'E') && is_digits(unsigned(rest)),
        None => false,
    }
}

fn ends_number(bytes: &[u8]) -> bool
    ensures { result ≡ spec.ends_number bytes.now }
{
    bytes.is_empty() || is_exponent(bytes)
}

// Whether the bytes without a sign are those of a number that is no whole one.
fn is_fraction(bytes: &[u8]) -> bool
    ensures { result ≡ spec.is_fraction bytes.now }
{
    let rest = after_digits(bytes);
    match rest.split_first() {
        Some((b'.', decimals)) => {
            (begins_digit(bytes) || begins_digit(decimals)) && ends_number(after_digits(decimals))
        }
        _ => begins_digit(bytes) && is_exponent(rest),
    }
}

fn digits_value(digits: &[u8]) -> u128
    ensures value { result ≡ spec.digits_value 0 digits.now }
    ensures most { result ≤ 2 ^ 64 }
{
    let mut value: u128 = 0;
    for digit in digits {
        value = (value * 10 + digit.saturating_sub(b'0') as u128).min(MOST);
    }
    value
}

// The value of a sign or none and digits.
fn signed_value(bytes: &[u8]) -> i128
    ensures { result ≡ spec.signed_value bytes.now }
{
    let value = digits_value(unsigned(bytes)) as i128;
    if begins_with(b'-', bytes) {
        -value
    } else {
        value
    }
}

fn is_null(bytes: &[u8]) -> bool
    ensures { result ≡ spec.is_null bytes.now }
{
    bytes == b"~".as_slice()
        || bytes == b"null".as_slice()
        || bytes == b"Null".as_slice()
        || bytes == b"NULL".as_slice()
}

fn is_true(bytes: &[u8]) -> bool
    ensures { result ≡ spec.is_true bytes.now }
{
    bytes == b"true".as_slice() || bytes == b"True".as_slice() || bytes == b"TRUE".as_slice()
}

fn is_false(bytes: &[u8]) -> bool
    ensures { result ≡ spec.is_false bytes.now }
{
    bytes == b"false".as_slice() || bytes == b"False".as_slice() || bytes == b"FALSE".as_slice()
}

/// The text that the bytes are.
pub fn text_of(alloc: Global, bytes: &[u8]) -> Result<Text, Refusal>
    ensures ok { IfOk result (λ t. spec.text_of bytes.now ≡ Ok t) }
    ensures err { IfErr result (λ e. (spec.text_of bytes.now ≡ Err e) ⊎ (e ≡ Refusal.NoMemory)) }
{
    match str::from_utf8(bytes) {
        Ok(text) => Ok(Text::of(alloc, text)?),
        Err(_) => Err(Refusal::NoReading),
    }
}

fn typed(alloc: Global, bytes: &[u8]) -> Result<Tree, Refusal>
    ensures ok { IfOk result (λ t. spec.typed bytes.now ≡ Ok (data_of t)) }
    ensures err { IfErr result (λ e. (spec.typed bytes.now ≡ Err e) ⊎ (e ≡ Refusal.NoMemory)) }
{
    if is_null(bytes) {
        return Ok(Tree::Null);
    }
    if is_true(bytes) {
        return Ok(Tree::Flag(true));
    }
    if is_false(bytes) {
        return Ok(Tree::Flag(false));
    }
    if is_digits(unsigned(bytes)) {
        return Ok(Tree::Whole(signed_value(bytes)));
    }
    if is_fraction(unsigned(bytes)) {
        return Ok(Tree::Whole(REFUSED));
    }
    Ok(Tree::Words(text_of(alloc, bytes)?))
}

/// What a plain value stands for.
pub fn plain_value(alloc: Global, bytes: &[u8]) -> Result<Tree, Refusal>
    ensures ok { IfOk result (λ t. spec.plain_value bytes.now ≡ Ok (data_of t)) }
    ensures err { IfErr result (λ e. (spec.plain_value bytes.now ≡ Err e) ⊎ (e ≡ Refusal.NoMemory)) }
{
    if !is_plain(bytes) {
        return Err(Refusal::NoReading);
    }
    typed(alloc, bytes)
}
