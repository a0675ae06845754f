//! Places of feeds as texts.
ghost use Rattle.std.specs.Prelude.{◌≡◌, ◌++◌, IfOk, OnOk, bytes_eq, decimal, string_bytes};
ghost use Rattle.cat_feed.specs.Place as spec;

use crate::change::Since;
use cat_session_lines::argument::number;
use cat_tree::text::Text;
use itoa::Buffer;
use std::alloc::{AllocError, Global};

/// The text of a place: its epoch and its number in decimal, with a point between them.
pub fn since_text(alloc: Global, since: Since) -> Result<Text, AllocError>
    ensures { IfOk result (λ t. t ≡ spec.since_text since) }
{
    let mut text = String::new(alloc);
    push_number(&mut text, since.epoch)?;
    text.push_str(".")?;
    push_number(&mut text, since.number)?;
    Ok(Text::from_string(text))
}

fn push_number(text: &mut String, number: u64) -> Result<(), AllocError>
    ensures { OnOk result (string_bytes text.new ≡ string_bytes text.old ++ decimal number) }
{
    let mut digits = Buffer::new();
    text.push_str(digits.format(number))
}

// The number below 2^64 whose decimal text this is.
fn plain_number(text: &str) -> Option<u64>
    ensures { result ≡ spec.plain_number text.now }
{
    match number(text) {
        Some(number) => {
            if is_text_of(number, text) {
                Some(number)
            } else {
                None
            }
        }
        None => None,
    }
}

fn is_text_of(number: u64, text: &str) -> bool
    ensures { result ≡ bytes_eq (decimal number) text.now }
{
    let mut digits = Buffer::new();
    digits.format(number) == text
}

/// The place that a text `E.N` is, with both numbers in decimal, without needless zeros and below 2^64.
pub fn since_of(text: &str) -> Option<Since>
    ensures { result ≡ spec.since_of text.now }
{
    match text.split_once('.') {
        Some((epoch, number)) => since_in(epoch, number),
        None => None,
    }
}

fn since_in(epoch: &str, number: &str) -> Option<Since>
    ensures { result ≡ spec.since_with (spec.plain_number epoch.now) (spec.plain_number number.now) }
{
    since_with(plain_number(epoch), plain_number(number))
}

fn since_with(epoch: Option<u64>, number: Option<u64>) -> Option<Since>
    ensures { result ≡ spec.since_with epoch number }
{
    Some(Since {
        epoch: epoch?,
        number: number?,
    })
}
