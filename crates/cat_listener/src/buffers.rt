//! What stands with a connection between its turns.

ghost use Rattle.std.specs.Prelude.{◌≡◌, ◌≤◌, [], true, drop, length, IfOk};
ghost use Rattle.cat_listener.specs.Step.{text_bytes};
ghost use Rattle.cat_listener.specs.Turn.{IsRead, Standing, nothing};

use crate::ends::PromptSource;
use crate::step::{Part, Text};
use cat_io::ReadAnswer;
use std::alloc::{AllocError, Global};
use std::marker::Model;

/// The most bytes that are taken of a connection.
const BOUND: u64 = 1 << 40;

/// The most bytes that are taken in one read.
const PIECE: usize = 16_384;

/// What came of a read.
#[derive(Clone, Copy)]
pub(crate) enum Came {
    /// Bytes came.
    Bytes,
    /// Nothing has come yet.
    Later,
    /// Nothing comes any more, or nothing can be taken.
    Ended,
}

/// So many zeros.
pub(crate) fn zeros(alloc: Global, count: usize) -> Result<Vec<u8>, AllocError>
    ensures { IfOk result (λ bytes. length bytes.items ≡ count) }
{
    vec![in alloc; 0u8; count]
}

/// The bytes that came and aren't answered, and those of a reply that aren't taken. They take memory as they come.
#[derive(Drop)]
pub(crate) struct Buffers {
    alloc: Global,
    came: Vec<u8>,
    going: Text,
    gone: usize,
    last: bool,
    // Of which part more is wanted, where that is known.
    wanted: Option<Part>,
    // The last read left nothing.
    drained: bool,
    // How many bytes came so far.
    taken: u64,
    // How many replies were made.
    replies: u64,
}

impl Model for Buffers {
    ghost Value = { Standing };

    ghost view = { λ b. record { came = b.came.items; going = drop b.gone (text_bytes b.going); last = b.last } };

    ghost invariant = { λ b. b.gone ≤ length (text_bytes b.going) };
}

impl Buffers {
    /// Nothing has come. They take no memory.
    pub(crate) fn new(alloc: Global) -> Buffers
        ensures { result ≡ nothing }
    {
        Buffers {
            alloc,
            came: Vec::new(alloc),
            going: Text::Fixed(b""),
            gone: 0,
            last: false,
            wanted: None,
            drained: false,
            taken: 0,
            replies: 0,
        }
    }

    /// The bytes that came and aren't answered.
    pub(crate) fn came(&self) -> &[u8]
        ensures { result.now ≡ self.now.came }
    {
        &self.came
    }

    /// The bytes that aren't taken.
    pub(crate) fn going(&self) -> &[u8]
        ensures { result.now ≡ self.now.going }
    {
        let bytes = self.going.as_slice();
        &bytes[self.gone..]
    }

    /// The reply with which the connection ends was made.
    pub(crate) fn is_last(&self) -> bool
        ensures { result ≡ self.now.last }
    {
        self.last
    }

    /// Of which part of a message more is wanted, where that is known.
    pub(crate) fn wanted(&self) -> Option<Part> {
        self.wanted
    }

    /// How many replies were made.
    pub(crate) fn replies(&self) -> u64 {
        self.replies
    }

    /// How many bytes of memory stand with the connection.
    pub(crate) fn held(&self) -> usize {
        self.came.len().saturating_add(self.going.as_slice().len())
    }

    /// So many of the bytes that go were taken.
    pub(crate) fn take_going(&mut self, count: usize)
        requires { count ≤ length self.old.going }
        ensures { self.new ≡ record self.old { going = drop count self.old.going } }
    {
        let left = self.going().len() - count;
        self.gone = self.going.as_slice().len() - left;
    }

    // Reads what has come to the room of a piece, and keeps it.
    fn read_piece<I: PromptSource>(&mut self, source: &mut I, piece: &mut [u8]) -> Came
        ensures read { IsRead self.old self.new (I.left source.old) (I.left source.new) }
    {
        if self.came.reserve(piece.len()).is_err() {
            return Came::Ended;
        }
        match source.read_now(piece) {
            Some(ReadAnswer::Read(count)) if count > 0 => {
                let _ = self.came.extend_from_slice(&piece[..count as usize]);
                self.wanted = None;
                self.taken = self.taken.saturating_add(count);
                self.drained = (count as usize) < piece.len();
                Came::Bytes
            }
            Some(_) => Came::Ended,
            None => Came::Later,
        }
    }

    /// Reads what has come, up to a piece. Where a read before this one left nothing, that is said without another one, once. Want of memory
    /// and the bound end the connection; nothing was taken then.
    pub(crate) fn read<I: PromptSource>(&mut self, source: &mut I) -> Came
        ensures read { IsRead self.old self.new (I.left source.old) (I.left source.new) }
    {
        if self.drained {
            self.drained = false;
            return Came::Later;
        }
        if self.taken >= BOUND {
            return Came::Ended;
        }
        match zeros(self.alloc, PIECE) {
            Ok(mut piece) => self.read_piece(source, piece.as_mut_slice()),
            Err(_) => Came::Ended,
        }
    }

    // So many bytes at the front are done with. Where none is left, no memory is kept for them.
    fn skip(&mut self, count: usize)
        requires { count ≤ length self.old.came }
        ensures { self.new ≡ record self.old { came = drop count self.old.came } }
    {
        let left = self.came.len() - count;
        if left == 0 {
            self.came = Vec::new(self.alloc);
            return;
        }
        self.came.rotate_left(count);
        self.came.truncate(left);
    }

    /// The message of so many bytes at the front was answered.
    pub(crate) fn reply(&mut self, used: usize, text: Text)
        requires within { used ≤ length self.old.came }
        requires taken { self.old.going ≡ [] }
        ensures { self.new ≡ record self.old { came = drop used self.old.came; going = text_bytes text } }
    {
        self.skip(used);
        self.going = text;
        self.gone = 0;
        self.replies = self.replies.saturating_add(1);
    }

    /// The last message was answered.
    pub(crate) fn reply_last(&mut self, text: Text)
        requires taken { self.old.going ≡ [] }
        ensures { self.new ≡ record self.old { going = text_bytes text; last = true } }
    {
        self.going = text;
        self.gone = 0;
        self.last = true;
        self.replies = self.replies.saturating_add(1);
    }

    /// So many bytes at the front belong to no message, and more is wanted.
    pub(crate) fn want(&mut self, blank: usize, part: Part)
        requires { blank ≤ length self.old.came }
        ensures { self.new ≡ record self.old { came = drop blank self.old.came } }
    {
        self.skip(blank);
        self.wanted = Some(part);
    }
}
