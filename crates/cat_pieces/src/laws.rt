//! The messages of the bytes of a connection, whatever pieces they come in.

ghost use Rattle.cat_listener.specs.Turn.{IsTurn, Turn, nothing};
ghost use Rattle.std.specs.Prelude.{◌≡◌};
ghost use Rattle.cat_pieces.specs.Replies.{HasAnswered, Replies};

use cat_connection::Machine;

/// From the first turn of a connection on, a machine answers just the messages of the bytes that came, in their order, whatever pieces they came
/// in; and what was written is the front of its replies to them.
pub fn turns_are_messages<M: Machine>()
    ensures { (old new : M) (t : Turn) → t.before ≡ nothing → IsTurn (Replies M.answers M.lacks) old t new → HasAnswered M.answers M.lacks old t new }
{}
