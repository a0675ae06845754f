//! Texts in lower case, in ASCII alone.
ghost use Rattle.std.specs.Prelude.{◌≡◌, ◌^◌, ◌<◌, ◌++◌, ◌∷◌, length, codes, IfOk};
ghost use Rattle.std.specs.Option.{option_copied};
ghost use Rattle.cat_state_parts.specs.Rows.{folded, same_text, step};
ghost use Rattle.cat_search.specs.Walk.{left_of};

use cat_tree::text::Text;
use std::alloc::{AllocError, Global};

/// The text in lower case.
pub fn lower(alloc: Global, text: &str) -> Result<Text, AllocError>
    ensures { IfOk result (λ t. t ≡ folded text.now) }
{
    let mut copy = String::from_str(alloc, text)?;
    copy.make_ascii_lowercase();
    Ok(Text::from_string(copy))
}

/// Whether the texts are the same in lower case. Takes no memory.
pub fn same_text(left: &[u8], right: &[u8]) -> bool
    ensures { result ≡ same_text left.now right.now }
{
    left.eq_ignore_ascii_case(right)
}

/// Lends what is left of the text after the front, where it begins with it in lower case.
pub fn left_of<'a>(text: &'a [u8], front: &[u8]) -> Option<&'a [u8]>
    ensures { option_copied result ≡ left_of front.now text.now }
{
    if text.len() < front.len() {
        return None;
    }
    let (begin, end) = text.split_at(front.len());
    if same_text(front, begin) {
        Some(end)
    } else {
        None
    }
}

/// Lends what is left of the text after a point and the front; at the start of a path after the front
/// alone.
pub fn left_of_step<'a>(text: &'a [u8], is_start: bool, key: &[u8]) -> Option<&'a [u8]>
    ensures { option_copied result ≡ left_of (step is_start key.now) text.now }
{
    if is_start {
        left_of(text, key)
    } else {
        left_of(left_of(text, b".")?, key)
    }
}

/// Whether the text is a point and the word in lower case.
pub fn is_point_and(text: &[u8], word: &[u8]) -> bool
    ensures { result ≡ same_text text.now (46 ∷ word.now) }
{
    match text {
        [b'.', rest @ ..] => same_text(rest, word),
        _ => false,
    }
}
