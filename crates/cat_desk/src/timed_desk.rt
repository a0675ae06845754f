//! A catalogue whose commands come at moments, which a store may keep.
ghost use Rattle.std.specs.Prelude.{◌≡◌, ◌≢◌, ◌≤◌, ◌⊎◌, ◌++◌, List, ℕ, true};
ghost use Rattle.cat_core.specs.declared.ledger.Ledger.{Ledger};
ghost use Rattle.cat_desk.specs.Acts.{Acts};
ghost use Rattle.cat_desk.specs.Asks.{AsksOnce};
ghost use Rattle.cat_desk.specs.Deed.{deed_of};
ghost use Rattle.cat_desk.specs.Kept.{IsLost, is_lost};
ghost use Rattle.cat_desk.specs.Told.{Tells};
ghost use Rattle.cat_feed.specs.declared.ledger.Ledger.{Ledger as Feed};
ghost use Rattle.cat_io.specs.Causes.{Rose};
ghost use Rattle.cat_io.specs.Clock.{CountsReading};

use crate::command::{Asked, Command, Reply};
use crate::desk::Desk;
use crate::fed::Fed;
use crate::feed_desk::{FeedAnswer, FeedDesk};
use cat_core::catalogue::{Catalogue, Done, Stitched};
use cat_feed::change::Since;
use cat_io::Clock;
use cat_plan::layers::Layers;
use cat_query::ask::Ask;
use std::alloc::Global;

/// A catalogue with a clock and a feed, which may be kept in a store. It is seen by its settings and its state, by its feed, by the moment that its
/// clock gave last and how often it was read, and by the faults that its keeper counted, none where it has no store.
pub trait TimedDesk<L: Layers> {
    ghost ledger: { Self → Ledger };

    ghost feed: { Self → Feed };

    // the moment that the clock gave last
    ghost moment: { Self → ℕ };

    // how often the clock was read, in its own count
    ghost readings: { Self → ℕ };

    // how the clock may go on
    ghost ticks: { Self → Self → Type 0 };

    // how many faults the keeper counted
    ghost faults: { Self → ℕ };

    /// Does what a command says, which stays with the caller, and answers it with the moment at which it came. Where its change isn't kept, the
    /// catalogue is as before, or has just the first event of a settle. The answer has the keeper's fault then, and only where the keeper's count rose
    /// in this call.
    fn act_at(
        &mut self,
        alloc: Global,
        command: &Command<Done<'_, L>, Stitched<'_, L>>,
    ) -> (u64, Reply)
        ensures moment { result.0 ≡ moment self.new }
        ensures acts { Acts L.rules (moment self.new) (deed_of command.now) (ledger self.old) (ledger self.new) result.1
            ⊎ IsLost L.rules (moment self.new) (deed_of command.now) (ledger self.old) (ledger self.new) result.1 }
        ensures reads { CountsReading (readings self.old) (readings self.new) }
        ensures ticks { ticks self.old self.new }
        ensures feed { feed self.new ≡ feed self.old }
        ensures later { faults self.old ≤ faults self.new }
        ensures cause { is_lost result.1 ≡ true → Rose (faults self.old) (faults self.new) };

    /// Lends the catalogue.
    fn catalogue(&self) -> &Catalogue<L>
        ensures { result.now ≡ ledger self.now };

    /// Prepares the catalogue for a question, which may come later. Contracts see no difference.
    fn prepare(&mut self, alloc: Global, ask: &Ask)
        ensures ledger { ledger self.new ≡ ledger self.old }
        ensures feed { feed self.new ≡ feed self.old }
        ensures faults { faults self.new ≡ faults self.old };

    /// Answers a question. Only what is answered `Written` changes `out`, by appending the answer.
    fn ask_at(&mut self, alloc: Global, ask: &Ask, out: &mut Vec<u8>) -> Asked
        ensures answer { (text : List ℕ) × (out.new.items ≡ out.old.items ++ text)
            × (AsksOnce (moment self.new) (readings self.old) (readings self.new) ask.now (ledger self.old) (ledger self.new) result text × ticks self.old self.new) }
        ensures same { result ≢ Asked.Written → out.new.items ≡ out.old.items }
        ensures feed { feed self.new ≡ feed self.old }
        ensures faults { faults self.new ≡ faults self.old };

    /// Answers what changed since a place. Only what is answered `Written` changes `out`, by appending the text.
    fn changes_since(
        &mut self,
        alloc: Global,
        since: Option<Since>,
        out: &mut Vec<u8>,
    ) -> FeedAnswer
        ensures answer { (text : List ℕ) × (out.new.items ≡ out.old.items ++ text)
            × Tells (ledger self.old).state.documents since (feed self.old) (feed self.new) result text }
        ensures same { result ≢ FeedAnswer.Written → out.new.items ≡ out.old.items }
        ensures ledger { ledger self.new ≡ ledger self.old }
        ensures faults { faults self.new ≡ faults self.old };
}

/// A catalogue that no store keeps.
impl<L: Layers, C: Clock> TimedDesk<L> for Fed<L, C> {
    ghost ledger = { λ fed. fed.timed.catalogue };

    ghost feed = { λ fed. fed.feed };

    ghost moment = { λ fed. C.moment fed.timed.clock };

    ghost readings = { λ fed. C.readings fed.timed.clock };

    ghost ticks = { λ old new. C.ticks old.timed.clock new.timed.clock };

    ghost faults = { λ _. 0 };

    fn act_at(
        &mut self,
        alloc: Global,
        command: &Command<Done<'_, L>, Stitched<'_, L>>,
    ) -> (u64, Reply) {
        self.act_at(alloc, command)
    }

    fn catalogue(&self) -> &Catalogue<L> {
        self.timed().catalogue()
    }

    fn prepare(&mut self, alloc: Global, ask: &Ask) {
        Fed::prepare(self, alloc, ask);
    }

    fn ask_at(&mut self, alloc: Global, ask: &Ask, out: &mut Vec<u8>) -> Asked {
        <Fed<L, C> as Desk<Done<'_, L>, Stitched<'_, L>>>::ask(self, alloc, ask, out)
    }

    fn changes_since(
        &mut self,
        alloc: Global,
        since: Option<Since>,
        out: &mut Vec<u8>,
    ) -> FeedAnswer {
        <Fed<L, C> as FeedDesk<Done<'_, L>, Stitched<'_, L>>>::changes(self, alloc, since, out)
    }
}
