//! What the turns know of a book.
ghost use Rattle.std.specs.Prelude.{◌≡◌};

use crate::book::{Book, Named};
use crate::entry::Entry;
use cat_desk::timed_desk::TimedDesk;
use cat_plan::layers::Layers;
use cat_turns::Tells;

impl<L: Layers, B: TimedDesk<L>, N: Named> Tells for Book<L, B, N> {
    ghost use Rattle.cat_shared.specs.Shared.{pass_of};

    type Entry = Entry;

    ghost list = { λ book. book.journal.all.items };

    ghost pass_of = { pass_of };

    fn entries(&self) -> u64 {
        self.journal().len()
    }
}
