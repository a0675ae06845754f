//! What answers the messages of a connection.

ghost use Rattle.std.specs.Prelude.{ℕ, List, IfOk, OnErr};
ghost use Rattle.cat_http.specs.declared.message.Message.{Message as Seen};

use cat_http::message::Message;
use std::alloc::AllocError;

/// What answers the messages of a connection, seen by two relations: what a message may do to it, with the bytes of the reply, and
/// what want of memory may do to it. So a catalogue is one, and so is a share of a catalogue that others change meanwhile.
pub trait Machine {
    // From the first machine, the message leads to the second one, with these bytes as the reply.
    ghost answers: { Self → Seen → Self → List ℕ → Type 0 };

    // From the first machine, want of memory at the message leads to the second one.
    ghost lacks: { Self → Seen → Self → Type 0 };

    /// Acts on a message, and gives the bytes of the reply. `Err` is want of memory.
    fn answer(&mut self, message: &Message) -> Result<Vec<u8>, AllocError>
        ensures ok { IfOk result (λ text. answers self.old message.now self.new text.items) }
        ensures err { OnErr result (lacks self.old message.now self.new) };
}
