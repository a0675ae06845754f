//! What has come of a message.

ghost use Rattle.std.specs.Prelude.{◌≡◌, ℕ, ◌+◌, ◌≤◌, ◌++◌, [], List, IfOk, length, drop, vec_capacity};
ghost use Rattle.cat_connection.specs.declared.window.TheConstants.{ROOM};

use std::alloc::{AllocError, Global};
use std::marker::Model;

/// The most bytes that a message has: those of a head and of a body.
pub(crate) const ROOM: usize = 16_384 + 4_194_304;

/// The bytes that have come and aren't answered yet, up to `ROOM` of them. It takes its memory at the start.
#[derive(Drop)]
pub(crate) struct Window {
    bytes: Vec<u8>,
}

impl Model for Window {
    ghost Value = { List ℕ };

    ghost view = { λ w. w.bytes.items };

    ghost invariant = { λ w. (ROOM ≤ vec_capacity w.bytes) × (length w.bytes.items ≤ ROOM) };
}

impl Window {
    /// A window with nothing in it and room for the longest message.
    pub(crate) fn new(alloc: Global) -> Result<Window, AllocError>
        ensures { IfOk result (λ w. w ≡ []) }
    {
        let bytes = Vec::with_capacity(alloc, ROOM)?;
        Ok(Window { bytes })
    }

    /// How many bytes there is room for.
    pub(crate) fn room(&self) -> usize
        ensures { result + length self.now ≡ ROOM }
    {
        ROOM - self.bytes.len()
    }

    /// More bytes have come.
    pub(crate) fn extend(&mut self, more: &[u8])
        requires { length self.old + length more.now ≤ ROOM }
        ensures { self.new ≡ self.old ++ more.now }
    {
        let _ = self.bytes.extend_from_slice(more);
    }

    /// So many bytes at the front are done with.
    pub(crate) fn skip(&mut self, count: usize)
        requires { count ≤ length self.old }
        ensures { self.new ≡ drop count self.old }
    {
        let left = self.bytes.len() - count;
        self.bytes.rotate_left(count);
        self.bytes.truncate(left);
    }

    /// The bytes.
    pub(crate) fn bytes(&self) -> &[u8]
        ensures { result.now ≡ self.now }
    {
        &self.bytes
    }
}
