//! Texts cut at separators, and their spaces. Nothing here takes memory.
ghost use Rattle.std.specs.Prelude.{◌≡◌, ◌<◌, ◌∷◌, [], length, reverse, MatchOption};
ghost use Rattle.std.specs.Option.{option_copied};
ghost use Rattle.cat_search.specs.Filter.{unspaced, trimmed, pieces};

/// Lends the piece before the first separator, and what stands after it, if there is one.
pub fn next_piece<'a>(text: &'a str, separator: char) -> (&'a str, Option<&'a str>)
    requires { separator < 128 }
    ensures pieces { MatchOption result.1
        (pieces separator text.now ≡ result.0.now ∷ [])
        (λ rest. pieces separator text.now ≡ result.0.now ∷ pieces separator rest.now) }
    ensures shorter { MatchOption result.1 (result.0.now ≡ text.now) (λ rest. length rest.now < length text.now) }
{
    match text.split_once(separator) {
        Some((piece, rest)) => (piece, Some(rest)),
        None => (text, None),
    }
}

/// Lends the text without the spaces at its ends.
pub fn trimmed(text: &str) -> &str
    ensures { result.now ≡ trimmed text.now }
{
    without_spaces_after(without_spaces_before(text))
}

fn without_spaces_before(text: &str) -> &str
    ensures { result.now ≡ unspaced text.now }
{
    let mut left = text;
    loop {
        match left.strip_prefix(' ') {
            Some(rest) => left = rest,
            None => return left,
        }
    }
}

fn without_spaces_after(text: &str) -> &str
    ensures { result.now ≡ reverse (unspaced (reverse text.now)) }
{
    let mut left = text;
    loop {
        match left.strip_suffix(' ') {
            Some(rest) => left = rest,
            None => return left,
        }
    }
}
