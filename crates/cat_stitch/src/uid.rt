//! Unique ids: the numbers of entities in the form of a UUID of version 8 (RFC 9562, section 5.8).
ghost use Rattle.std.specs.Prelude.{◌≡◌, ◌++◌, ◌/◌, ◌%◌, ◌^◌, ◌<◌, ◌≤◌, IfOk, OnOk, string_bytes};
ghost use Rattle.cat_stitch.specs.Uid as spec;

use cat_tree::text::Text;
use std::alloc::{AllocError, Global};

/// The unique id of a number: `00000000-0000-8000-8`, then the number's last fifteen hexadecimal digits in lower case,
/// with `-` behind the first three of them.
///
/// Numbers below 2^60 have different ids. The error is want of memory.
#[tactic(auto, unfolding(crate::specs::Uid::uid))]
pub fn uid(alloc: Global, number: u64) -> Result<Text, AllocError>
    ensures { IfOk result (λ t. t ≡ spec.uid number) }
{
    let mut text = String::from_str(alloc, "00000000-0000-8000-8")?;
    push_digits(&mut text, number >> 48, 3)?;
    text.push('-')?;
    push_digits(&mut text, number, 12)?;
    Ok(Text::from_string(text))
}

// Appends the number's last `count` hexadecimal digits.
fn push_digits(text: &mut String, number: u64, count: u32) -> Result<(), AllocError>
    requires { count ≤ 16 }
    ensures { OnOk result (string_bytes text.new ≡ string_bytes text.old ++ spec.last_digits count number) }
{
    let mut place = count;
    while place > 0 {
        place -= 1;
        text.push(digit(number, place))?;
    }
    Ok(())
}

// The hexadecimal digit at a place, counted from the last one.
fn digit(number: u64, place: u32) -> char
    requires { place < 16 }
    ensures value { result ≡ spec.digit_at place number }
    ensures ascii { result < 128 }
{
    let value = ((number >> (4 * place)) % 16) as u8;
    if value < 10 {
        (b'0' + value) as char
    } else {
        (b'a' + (value - 10)) as char
    }
}
