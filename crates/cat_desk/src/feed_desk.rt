//! Desks that tell what changed.
ghost use Rattle.std.specs.Prelude.{◌≡◌, ◌≢◌, ◌++◌, List, ℕ, Option};
ghost use Rattle.cat_feed.specs.declared.change.Since.{Since as Place};
ghost use Rattle.cat_desk.specs.declared.feed_desk.FeedAnswer.{FeedAnswer as Told};

use crate::desk::Desk;
use cat_feed::change::Since;
use std::alloc::Global;

/// What came of a question for changes.
#[derive(Clone, Copy, Debug, Drop, PartialEq, Eq)]
pub enum FeedAnswer {
    /// The changes were appended.
    Written,
    /// The place isn't kept any more; the first place that is.
    Gone(Since),
    /// The place wasn't reached yet; the feed's place.
    Ahead(Since),
    /// The feed has no numbers left.
    Spent,
    /// Want of memory.
    NoMemory,
}

/// A desk that also tells what changed among its documents since a place.
pub trait FeedDesk<F, S>: Desk<F, S> {
    // At the first desk, a question for the changes since a place leads to the second one with this answer, and appends this text.
    ghost tells: { Self → Option Place → Self → Told → List ℕ → Type 0 };

    /// Answers what changed since a place; without a place, a change for each document. Only what is answered `Written` changes
    /// `out`, by appending a text.
    fn changes(&mut self, alloc: Global, since: Option<Since>, out: &mut Vec<u8>) -> FeedAnswer
        ensures answer { (text : List ℕ) × (out.new.items ≡ out.old.items ++ text) × tells self.old since self.new result text }
        ensures same { result ≢ FeedAnswer.Written → out.new.items ≡ out.old.items };
}
