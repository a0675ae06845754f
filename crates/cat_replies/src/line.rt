//! Lines and texts, appended piece by piece.
ghost use Rattle.std.specs.Prelude.{◌≡◌, ◌++◌, ◌+◌, ◌≤◌, is_ok, if◌then◌else◌, OnOk, IsOk, length, map, take, vec_len, vec_capacity};
ghost use Rattle.cat_replies.specs.Line.{Appends, ended, joined, line};
ghost use Rattle.cat_replies.specs.Piece.{most, piece_most, piece_text};

use itoa::Buffer;
use std::alloc::AllocError;

/// A piece of a line or text: a text, or a number in decimal.
#[derive(Clone, Copy, Debug, Drop)]
pub enum Piece<'a> {
    Text(&'a str),
    Number(u64),
}

/// Appends the pieces one after the other, and LF. Where memory is wanted, nothing is appended; with room for the whole
/// line memory is never wanted.
pub fn push_line(out: &mut Vec<u8>, pieces: &[Piece<'_>]) -> Result<(), AllocError>
    ensures appends { Appends out.old out.new result (line (map piece_text pieces.now)) }
    ensures short { vec_len out.old + most 1 pieces.now ≤ vec_capacity out.old → IsOk result }
{
    push_ended(out, pieces, "\n")
}

/// The same without LF.
pub fn push_text(out: &mut Vec<u8>, pieces: &[Piece<'_>]) -> Result<(), AllocError>
    ensures appends { Appends out.old out.new result (joined (map piece_text pieces.now)) }
    ensures short { vec_len out.old + most 0 pieces.now ≤ vec_capacity out.old → IsOk result }
{
    push_ended(out, pieces, "")
}

// Appends the pieces and an end. Where memory is wanted, nothing is appended.
fn push_ended(out: &mut Vec<u8>, pieces: &[Piece<'_>], end: &str) -> Result<(), AllocError>
    ensures appends { Appends out.old out.new result (ended end.now (map piece_text pieces.now)) }
    ensures short { vec_len out.old + most (length end.now) pieces.now ≤ vec_capacity out.old → IsOk result }
{
    let start = out.len();
    let pushed = push_pieces(out, pieces, end);
    if pushed.is_err() {
        out.truncate(start);
    }
    pushed
}

// Appends the pieces and an end, or a part of this.
fn push_pieces(out: &mut Vec<u8>, pieces: &[Piece<'_>], end: &str) -> Result<(), AllocError>
    ensures ok { OnOk result (out.new.items ≡ out.old.items ++ ended end.now (map piece_text pieces.now)) }
    ensures kept { take (vec_len out.old) out.new.items ≡ out.old.items }
    ensures room { vec_len out.old + length (ended end.now (map piece_text pieces.now)) ≤ vec_capacity out.old
        → IsOk result }
    ensures short { vec_len out.old + most (length end.now) pieces.now ≤ vec_capacity out.old → IsOk result }
{
    for piece in pieces {
        push_piece(out, piece)?;
    }
    out.extend_from_slice(end.as_bytes())?;
    Ok(())
}

fn push_piece(out: &mut Vec<u8>, piece: &Piece<'_>) -> Result<(), AllocError>
    ensures items { out.new.items
        ≡ (if is_ok result then out.old.items ++ piece_text piece.now else out.old.items) }
    ensures capacity { vec_capacity out.old ≤ vec_capacity out.new }
    ensures room { vec_len out.old + length (piece_text piece.now) ≤ vec_capacity out.old → IsOk result }
    ensures short { vec_len out.old + piece_most piece.now ≤ vec_capacity out.old → IsOk result }
    ensures most { vec_len out.new ≤ vec_len out.old + piece_most piece.now }
{
    match piece {
        Piece::Text(text) => out.extend_from_slice(text.as_bytes()),
        Piece::Number(number) => {
            let mut buffer = Buffer::new();
            out.extend_from_slice(buffer.format(*number).as_bytes())
        }
    }
}
