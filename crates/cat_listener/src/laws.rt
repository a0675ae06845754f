//! Turns of a connection, whatever pieces its bytes come in.

ghost use Rattle.cat_listener.specs.Turn.{Follows, IsTurn, Turn, joined};

use crate::helper::Server;

/// Two turns of a connection, of which the second one begins where the first one ended, are one turn, in which the bytes of both came. So however
/// the bytes are cut into pieces, what a server makes of them is a turn.
pub fn turns_are_one<S: Server>()
    ensures { (old mid new : S) (t u : Turn) → IsTurn S.answers old t mid → IsTurn S.answers mid u new → Follows t u → IsTurn S.answers old (joined t u) new }
{}
