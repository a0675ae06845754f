//! What has come of a line.

ghost use Rattle.std.specs.Prelude.{◌≡◌, ℕ, ◌≤◌, ◌++◌, ◌∷◌, [], List, IfSome, IfNone, OnOk, length, take};
ghost use Rattle.std.specs.Str.Lines.{strip_carriage_return};
ghost use Rattle.cat_io.specs.Lines.{HasNoLf};
ghost use Rattle.cat_mirror.specs.declared.line.TheConstants.{ROOM};

use memchr::memchr;
use std::alloc::{AllocError, Global};
use std::marker::Model;

/// The most bytes that a line may have, its LF and one CR before it not counted.
pub const LINE_LIMIT: usize = 1_073_741_824;

/// Where so many bytes have come, the line is too long, with a carriage return at its end or without.
pub(crate) const ROOM: usize = LINE_LIMIT + 2;

/// What has come of a line, up to `ROOM` bytes. It takes its memory as bytes come.
#[derive(Drop)]
pub(crate) struct LineBuffer {
    bytes: Vec<u8>,
}

impl Model for LineBuffer {
    ghost Value = { List ℕ };

    ghost view = { λ b. b.bytes.items };

    ghost invariant = { λ b. length b.bytes.items ≤ ROOM };
}

impl LineBuffer {
    /// A buffer with nothing in it. It takes no memory.
    pub(crate) fn new(alloc: Global) -> LineBuffer
        ensures { result ≡ [] }
    {
        LineBuffer {
            bytes: Vec::new(alloc),
        }
    }

    /// More has come of the line. What is over `ROOM` bytes is dropped.
    pub(crate) fn extend(&mut self, more: &[u8]) -> Result<(), AllocError>
        ensures { OnOk result (self.new ≡ take ROOM (self.old ++ more.now)) }
    {
        let room = ROOM - self.bytes.len();
        let (kept, _) = more.split_at(room.min(more.len()));
        self.bytes.extend_from_slice(kept)
    }

    /// The next line begins.
    pub(crate) fn clear(&mut self)
        ensures { self.new ≡ [] }
    {
        self.bytes.clear();
    }

    /// What has come, less one carriage return at its end.
    pub(crate) fn ended(&self) -> &[u8]
        ensures { result.now ≡ strip_carriage_return self.now }
    {
        let bytes = self.bytes.as_slice();
        let len = bytes.len();
        if len > 0 && bytes[len - 1] == b'\r' {
            &bytes[..len - 1]
        } else {
            bytes
        }
    }

    /// What has come.
    pub(crate) fn bytes(&self) -> &[u8]
        ensures { result.now ≡ self.now }
    {
        &self.bytes
    }
}

/// What stands before the first LF of a piece, and what stands behind it.
pub(crate) fn split_line(piece: &[u8]) -> Option<(&[u8], &[u8])>
    ensures some { IfSome result (λ parts. (piece.now ≡ parts.0.now ++ 10 ∷ parts.1.now) × HasNoLf parts.0.now) }
    ensures none { IfNone result (HasNoLf piece.now) }
{
    let at = memchr(b'\n', piece)?;
    let (front, behind) = piece.split_at(at);
    Some((front, &behind[1..]))
}
