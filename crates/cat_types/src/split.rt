//! The pieces of a reference text.
ghost use Rattle.std.specs.Prelude.{◌≡◌, ◌&&◌, ◌<◌, ℕ, List, Some, None, IfOk, IfErr, MatchResult};
ghost use Rattle.std.specs.List.{list_all};
ghost use Rattle.std.specs.Option.{option_copied};
ghost use Rattle.cat_types.specs.Pieces.{pieces_of};
ghost use Rattle.cat_types.specs.Reading.{Pieces, ReadsAs, cut, is_piece_byte, is_piece, may_be_piece, reading};

use crate::fault::RefFault;

/// The pieces of a reference text `[kind:][namespace/]name`, as they are spelled.
#[derive(Clone, Copy, Debug)]
pub struct RefParts<'a> {
    /// What stands before `:`, if it is there.
    pub kind: Option<&'a str>,
    /// What stands before `/`, if it is there.
    pub namespace: Option<&'a str>,
    /// What stands last.
    pub name: &'a str,
}

fn is_piece_byte(byte: u8) -> bool
    ensures { result ≡ is_piece_byte byte }
{
    byte != b':' && byte != b'/'
}

fn are_piece_bytes(bytes: &[u8]) -> bool
    ensures { result ≡ list_all is_piece_byte bytes.now }
{
    bytes.iter().all(|byte| is_piece_byte(*byte))
}

fn is_piece(text: &str) -> bool
    ensures { result ≡ is_piece text.now }
{
    !text.is_empty() && are_piece_bytes(text.as_bytes())
}

fn may_be_piece(text: Option<&str>) -> bool
    ensures { result ≡ may_be_piece (option_copied text.entry) }
{
    match text {
        Some(text) => is_piece(text),
        None => true,
    }
}

// What stands before the first separator, if there is one, and what stands after it.
fn cut<'a>(text: &'a str, separator: char) -> (Option<&'a str>, &'a str)
    requires { separator < 128 }
    ensures { (option_copied result.0, result.1.now) ≡ cut separator text.now }
{
    match text.split_once(separator) {
        Some((before, after)) => (Some(before), after),
        None => (None, text),
    }
}

fn are_pieces(kind: Option<&str>, namespace: Option<&str>, name: &str) -> bool
    ensures { result ≡ (may_be_piece (option_copied kind.entry)
        && (may_be_piece (option_copied namespace.entry) && is_piece name.now)) }
{
    may_be_piece(kind) && may_be_piece(namespace) && is_piece(name)
}

/// Lends the pieces of `[kind:][namespace/]name`: no piece is empty, and `:` and `/` stand between
/// pieces alone. `Shape`, the one refusal, comes exactly where the text isn't of this form. No memory
/// is taken.
pub fn split<'a>(text: &'a str) -> Result<RefParts<'a>, RefFault>
    ensures ok { IfOk result (λ p. ReadsAs text.now (pieces_of p)) }
    ensures err { IfErr result (λ e. (e ≡ RefFault.Shape)
        × ((p : Pieces) → ¬ ReadsAs text.now p)) }
    ensures reading { MatchResult result (λ p. reading text.now ≡ Some (pieces_of p))
        (λ _. reading text.now ≡ None) }
{
    let (kind, rest) = cut(text, ':');
    let (namespace, name) = cut(rest, '/');
    if are_pieces(kind, namespace, name) {
        Ok(RefParts {
            kind,
            namespace,
            name,
        })
    } else {
        Err(RefFault::Shape)
    }
}

/// A text reads in at most one way.
pub fn reads_one_way()
    ensures { (text : List ℕ) (p q : Pieces) → ReadsAs text p → ReadsAs text q → p ≡ q }
{}
