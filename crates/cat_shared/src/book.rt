//! A catalogue with a journal.
ghost use Rattle.std.specs.Prelude.{◌≡◌, ◌≢◌, ◌⊎◌, ◌++◌, ◌+◌, ◌-◌, ◌^◌, ◌<◌, ◌≤◌, List, ℕ, Some, [], IfOk, length, min};
ghost use Rattle.std.specs.Coded.{Coded-set, coded_option};
ghost use Rattle.cat_desk.specs.Asks.{AsksOnce};
ghost use Rattle.cat_desk.specs.Deed.{deed_of};
ghost use Rattle.cat_desk.specs.Told.{Tells};
ghost use Rattle.cat_io.specs.Clock.{CountsReading};
ghost use Rattle.cat_model.specs.Sound.{Sound};
ghost use Rattle.cat_model.specs.Step.{start};
ghost use Rattle.cat_model.specs.contracts.types.State.{the_row};
ghost use Rattle.cat_model.specs.declared.types.Settings.{Settings as SettingsOf};
ghost use Rattle.cat_model.specs.declared.types.State.{State};
ghost use Rattle.cat_shared.specs.Book.{Does, Lacks};
ghost use Rattle.cat_shared.specs.Notes.{lost};
ghost use Rattle.cat_shared.specs.Replay.{replay};

use crate::entry::Entry;
use crate::notes::{lacking, note, worked};
use cat_core::catalogue::{Done, Stitched};
use cat_desk::command::{Asked, Command, Reply};
use cat_desk::feed_desk::FeedAnswer;
use cat_desk::timed_desk::TimedDesk;
use cat_feed::change::Since;
use cat_history::{History, Limits};
use cat_plan::layers::Layers;
use cat_query::ask::Ask;
use cat_search::index::Index;
use std::alloc::{AllocError, Global};
use std::marker::{Brand, PhantomData};

/// With what a book began. Each sharing picks it.
pub trait Named {
    // The settings of the catalogue.
    ghost settings: { SettingsOf };

    // Its state when the book was made.
    ghost opening: { State };

    // How many faults its keeper had counted then.
    ghost faults: { ℕ };
}

impl Named for Brand {
    ghost use Rattle.cat_model.specs.declared.types.OrphanRule.TheVariants.{Keep};

    ghost settings = { record { interval = 1; lease = 1; input_limit = 0; orphans = Keep } };

    ghost opening = { start };

    ghost faults = { 0 };
}

/// A catalogue with a clock and a feed, which may be kept in a store, and a journal of what was done to it. Contracts see each entry of the journal, as
/// `journal.all.items`; memory has the newest ones, and how many are gone is known. Its type keeps that the journal leads from the opening state to the present one, that what must hold between two events holds, and that as many commands of the journal weren't kept, or not
/// all of them, as faults were counted since the book was made, at most.
#[derive(Drop)]
pub struct Book<L: Layers, B: TimedDesk<L>, N: Named> {
    desk: B,
    journal: History<Entry>,
    layers: PhantomData<L>,
    named: PhantomData<N>,
    pub ghost settings: { (B.ledger desk).settings ≡ N.settings },
    pub ghost replayed: { replay L.rules N.settings N.opening journal.all.items ≡ Some (B.ledger desk).state } by { Coded-set (coded_option the_row.coded) _ _ },
    pub ghost sound: { ∥ Sound L.rules (B.ledger desk).state ∥₁ },
    pub ghost counted: { min (N.faults + lost journal.all.items) (2 ^ 64 - 1) ≤ B.faults desk },
}

impl<L: Layers, B: TimedDesk<L>, N: Named> Book<L, B, N> {
    /// A book of a catalogue, with an empty journal, of which so much is kept. It takes no memory.
    pub fn new(alloc: Global, desk: B, limits: Limits) -> Book<L, B, N>
        requires settings { (B.ledger desk).settings ≡ N.settings }
        requires opening { (B.ledger desk).state ≡ N.opening }
        requires faults { B.faults desk ≡ N.faults }
        requires sound { Sound L.rules (B.ledger desk).state }
        requires some { 0 < limits.entries }
        ensures desk { result.desk ≡ desk }
        ensures journal { result.journal.all.items ≡ [] }
    {
        Book {
            desk,
            journal: History::new(alloc, limits),
            layers: PhantomData,
            named: PhantomData,
        }
    }

    /// Gives the catalogue with its clock and its feed back. It takes no memory.
    pub fn into_desk(self) -> B
        ensures { result ≡ self.desk }
    {
        self.desk
    }

    /// Lends the catalogue with its clock and its feed.
    pub fn desk(&self) -> &B
        ensures { result.now ≡ self.now.desk }
    {
        &self.desk
    }

    /// Lends the journal, of which just the newest entries are kept.
    pub fn journal(&self) -> &History<Entry>
        ensures { result.now ≡ self.now.journal }
    {
        &self.journal
    }

    /// The journal leads from the opening state to the present one, under the settings that the book began with, and what must hold between
    /// two events holds. At most as many of its commands weren't kept, or not all of them, as faults were counted since the book was made, where that count
    /// isn't at the last value of a u64; so over a keeper that never fails there is none.
    pub fn leads(&self)
        ensures settings { (B.ledger self.now.desk).settings ≡ N.settings }
        ensures replayed { replay L.rules N.settings N.opening self.now.journal.all.items ≡ Some (B.ledger self.now.desk).state }
        ensures sound { ∥ Sound L.rules (B.ledger self.now.desk).state ∥₁ }
        ensures counted { min (N.faults + lost self.now.journal.all.items) (2 ^ 64 - 1) ≤ B.faults self.now.desk }
    {
        let _book = &self.desk;
    }

    /// Does what a command of a weight says, under the number of a pass, and answers it. What is to be noted of it stands at the end of the
    /// journal; the room for that is taken first, and where there is none the command isn't done.
    pub fn act(
        &mut self,
        alloc: Global,
        pass: u64,
        weight: u64,
        command: Command<Done<'_, L>, Stitched<'_, L>>,
    ) -> Reply
        ensures acts { (Does L.rules pass (B.moment self.new.desk) (deed_of command.entry) (B.ledger self.old.desk) (B.ledger self.new.desk) self.old.journal.all.items self.new.journal.all.items result
            × CountsReading (B.readings self.old.desk) (B.readings self.new.desk) × B.ticks self.old.desk self.new.desk)
            ⊎ Lacks (deed_of command.entry) self.old.desk self.new.desk self.old.journal.all.items self.new.journal.all.items result }
        ensures feed { B.feed self.new.desk ≡ B.feed self.old.desk }
        ensures later { B.faults self.old.desk ≤ B.faults self.new.desk }
    {
        let Ok(reference) = worked(alloc, &command) else {
            return lacking(&command);
        };
        if self.journal.reserve().is_err() {
            return lacking(&command);
        }
        let (now, reply) = self.desk.act_at(alloc, &command);
        if let Some(noted) = note(command, reference, now, &reply) {
            self.journal.push(Entry { pass, noted }, weight);
        }
        reply
    }

    /// Answers a question. Only what is answered `Written` changes `out`, by appending the answer.
    pub fn ask(&mut self, alloc: Global, ask: &Ask, out: &mut Vec<u8>) -> Asked
        ensures answer { (text : List ℕ) × (out.new.items ≡ out.old.items ++ text)
            × (AsksOnce (B.moment self.new.desk) (B.readings self.old.desk) (B.readings self.new.desk) ask.now (B.ledger self.old.desk) (B.ledger self.new.desk) result text
            × B.ticks self.old.desk self.new.desk) }
        ensures same { result ≢ Asked.Written → out.new.items ≡ out.old.items }
        ensures feed { B.feed self.new.desk ≡ B.feed self.old.desk }
        ensures journal { self.new.journal.all.items ≡ self.old.journal.all.items }
    {
        self.desk.ask_at(alloc, ask, out)
    }

    /// Prepares the catalogue for a question. Contracts see no difference.
    pub fn prepare(&mut self, alloc: Global, ask: &Ask)
        ensures ledger { B.ledger self.new.desk ≡ B.ledger self.old.desk }
        ensures journal { self.new.journal.all.items ≡ self.old.journal.all.items }
    {
        self.desk.prepare(alloc, ask);
    }

    /// A copy of the documents, which shares them. It takes no memory.
    pub fn documents(&self) -> Result<Index, AllocError>
        ensures { IfOk result (λ m. m ≡ (B.ledger self.now.desk).state.documents) }
    {
        self.desk.catalogue().index().share()
    }

    /// Answers what changed since a place. Only what is answered `Written` changes `out`, by appending the text.
    pub fn changes(&mut self, alloc: Global, since: Option<Since>, out: &mut Vec<u8>) -> FeedAnswer
        ensures answer { (text : List ℕ) × (out.new.items ≡ out.old.items ++ text)
            × Tells (B.ledger self.old.desk).state.documents since (B.feed self.old.desk) (B.feed self.new.desk) result text }
        ensures same { result ≢ FeedAnswer.Written → out.new.items ≡ out.old.items }
        ensures ledger { B.ledger self.new.desk ≡ B.ledger self.old.desk }
        ensures journal { self.new.journal.all.items ≡ self.old.journal.all.items }
    {
        self.desk.changes_since(alloc, since, out)
    }
}
