//! How a book's turns end.
ghost use Rattle.std.specs.Prelude.{◌≡◌, List, IfSome};
ghost use Rattle.cat_model.specs.declared.types.State.{State};
ghost use Rattle.cat_shared.specs.Closed.{IsClosed};
ghost use Rattle.cat_shared.specs.declared.entry.Entry.{Entry};

use crate::book::{Book, Named};
use crate::work::at_turn;
use crate::works::Looking;
use cat_desk::timed_desk::TimedDesk;
use cat_plan::layers::Layers;
use cat_turns::{Closing, Pass, Turns};
use std::sync::Wait;

// Waits for the turn of a pass, and does nothing: the pass has then seen the whole journal.
fn look<L: Layers, B: TimedDesk<L>, N: Named, R: Wait>(
    rt: &R,
    turns: &Turns<Book<L, B, N>>,
    pass: &mut Pass<Book<L, B, N>>,
)
    requires { pass.old.turns ≡ turns.now.id }
    ensures { (last : State) × IsClosed L.rules N.settings N.opening pass.old.seen pass.new.seen last }
{
    at_turn(rt, turns, pass, Looking);
}

/// Ends the turns of a book, and gives its catalogue back where no other pass is out. Its journal, which begins with what the pass has seen, leads from the
/// opening state to the last one, and the catalogue that is given back is at that one.
pub fn close<L: Layers + Drop, B: TimedDesk<L> + Drop, N: Named, R: Wait>(
    rt: &R,
    turns: Turns<Book<L, B, N>>,
    pass: Pass<Book<L, B, N>>,
) -> Option<B>
    requires { pass.turns ≡ turns.id }
    ensures { (journal : List Entry) × (last : State) × IsClosed L.rules N.settings N.opening pass.seen journal last × IfSome result (λ desk. B.ledger desk ≡ record { settings = N.settings; state = last }) }
{
    match turns.close(rt, pass) {
        Closing::Value(book) => Some(book.into_desk()),
        Closing::Others(turns, mut pass, _) => {
            look(rt, &turns, &mut pass);
            None
        }
    }
}
