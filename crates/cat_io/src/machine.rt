//! What answers the lines of a session.

ghost use Rattle.std.specs.Prelude.{◌≡◌, ℕ, List, IfOk, OnErr};
ghost use Rattle.cat_io.specs.Word.{Word, AnswersLine};

use std::alloc::AllocError;

/// What answers the lines of a session, seen by what it does with a line: the state after it, and the reply to it, its
/// LF at the end. Both depend on the line's word, which says whether the line acted, lacked memory, was cut for want
/// of memory after so many events, or wasn't kept.
///
/// A line whose word is `memory`, and one of over 8,388,608 bytes, is the loop's own matter: it is answered `no memory`
/// or `refused long`, and the state stays. So what these functions say of such a line doesn't count.
pub trait Machine {
    ghost after: { Self → Word → List ℕ → Self };

    ghost reply: { Self → Word → List ℕ → List ℕ };

    /// Acts on a line, given without its LF and without the CR before it, and gives the reply with an LF at the end.
    ///
    /// `Err` is want of memory: the machine is then as before the line.
    fn answer(&mut self, line: &[u8]) -> Result<Vec<u8>, AllocError>
        ensures ok { IfOk result (λ text. AnswersLine after reply self.old self.new line.now text.items) }
        ensures err { OnErr result (self.new ≡ self.old) };
}
