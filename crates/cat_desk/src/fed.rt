//! A catalogue with a clock and a feed.
ghost use Rattle.std.specs.Prelude.{◌≡◌, ◌≢◌, ◌++◌, List, ℕ};
ghost use Rattle.cat_desk.specs.Acts.{ActsOnce};
ghost use Rattle.cat_desk.specs.Asks.{AsksOnce};
ghost use Rattle.cat_desk.specs.Deed.{deed_of};
ghost use Rattle.cat_desk.specs.Told.{Tells, refused_as, written_as};
ghost use Rattle.cat_feed.specs.Feed.{begun};

use crate::command::{Asked, Command, Reply};
use crate::desk::Desk;
use crate::feed_desk::{FeedAnswer, FeedDesk};
use crate::timed::Timed;
use cat_collections::map::Map;
use cat_core::catalogue::{Done, Stitched};
use cat_feed::change::Since;
use cat_feed::fault::FeedFault;
use cat_feed::feed::Feed;
use cat_feed::write::write_changes;
use cat_io::Clock;
use cat_plan::layers::Layers;
use cat_query::ask::Ask;
use cat_types::node::Node;
use cat_types::reference::Ref;
use std::alloc::{AllocError, Global};

/// A catalogue with a clock, and a feed of what changes among its documents.
#[derive(Drop)]
pub struct Fed<L: Layers, C: Clock> {
    timed: Timed<L, C>,
    feed: Feed,
}

impl<L: Layers, C: Clock> Fed<L, C> {
    /// Puts a feed of this epoch that has told nothing beside a catalogue with a clock. It takes no memory.
    pub fn new(alloc: Global, timed: Timed<L, C>, epoch: u64) -> Fed<L, C>
        ensures { result ≡ record { timed = timed; feed = begun epoch } }
    {
        Fed {
            timed,
            feed: Feed::new(alloc, epoch),
        }
    }

    /// Lends the catalogue with its clock.
    pub fn timed(&self) -> &Timed<L, C>
        ensures { result.now ≡ self.now.timed }
    {
        &self.timed
    }

    /// Prepares the catalogue for a question. Contracts see no difference.
    pub fn prepare(&mut self, alloc: Global, ask: &Ask)
        ensures catalogue { self.new.timed.catalogue ≡ self.old.timed.catalogue }
        ensures clock { self.new.timed.clock ≡ self.old.timed.clock }
        ensures feed { self.new.feed ≡ self.old.feed }
    {
        self.timed.prepare(alloc, ask);
    }

    /// Does what a command says, which stays with the caller, and answers it with the moment at which it came.
    pub fn act_at(
        &mut self,
        alloc: Global,
        command: &Command<Done<'_, L>, Stitched<'_, L>>,
    ) -> (u64, Reply)
        ensures moment { result.0 ≡ C.moment self.new.timed.clock }
        ensures acts { ActsOnce L.rules (C.moment self.new.timed.clock) (C.readings self.old.timed.clock) (C.readings self.new.timed.clock) (deed_of command.now) self.old.timed.catalogue self.new.timed.catalogue result.1 }
        ensures ticks { C.ticks self.old.timed.clock self.new.timed.clock }
        ensures feed { self.new.feed ≡ self.old.feed }
    {
        self.timed.act_at(alloc, command)
    }
}

impl<'a, L: Layers, C: Clock> Desk<Done<'a, L>, Stitched<'a, L>> for Fed<L, C> {
    ghost order = { λ done. done.order.now };

    ghost stitch_order = { λ stitched. stitched.order.now };

    ghost acts = { λ old d new reply. (ActsOnce L.rules (C.moment new.timed.clock) (C.readings old.timed.clock) (C.readings new.timed.clock) d old.timed.catalogue new.timed.catalogue reply × C.ticks old.timed.clock new.timed.clock) × (new.feed ≡ old.feed) };

    ghost asks = { λ old ask new asked text. (AsksOnce (C.moment new.timed.clock) (C.readings old.timed.clock) (C.readings new.timed.clock) ask old.timed.catalogue new.timed.catalogue asked text × C.ticks old.timed.clock new.timed.clock) × (new.feed ≡ old.feed) };

    fn act(&mut self, alloc: Global, command: Command<Done<'a, L>, Stitched<'a, L>>) -> Reply
        ensures acts { (ActsOnce L.rules (C.moment self.new.timed.clock) (C.readings self.old.timed.clock) (C.readings self.new.timed.clock) (deed_of command.entry) self.old.timed.catalogue self.new.timed.catalogue result × C.ticks self.old.timed.clock self.new.timed.clock) × (self.new.feed ≡ self.old.feed) }
    {
        self.timed.act(alloc, command)
    }

    fn ask(&mut self, alloc: Global, ask: &Ask, out: &mut Vec<u8>) -> Asked
        ensures answer { (text : List ℕ) × (out.new.items ≡ out.old.items ++ text)
            × ((AsksOnce (C.moment self.new.timed.clock) (C.readings self.old.timed.clock) (C.readings self.new.timed.clock) ask.now self.old.timed.catalogue self.new.timed.catalogue result text × C.ticks self.old.timed.clock self.new.timed.clock) × (self.new.feed ≡ self.old.feed)) }
        ensures same { result ≢ Asked.Written → out.new.items ≡ out.old.items }
    {
        <Timed<L, C> as Desk<Done<'a, L>, Stitched<'a, L>>>::ask(&mut self.timed, alloc, ask, out)
    }
}

impl<'a, L: Layers, C: Clock> FeedDesk<Done<'a, L>, Stitched<'a, L>> for Fed<L, C> {
    ghost tells = { λ old since new told text. Tells old.timed.catalogue.state.documents since old.feed new.feed told text × (new.timed ≡ old.timed) };

    fn changes(&mut self, alloc: Global, since: Option<Since>, out: &mut Vec<u8>) -> FeedAnswer
        ensures answer { (text : List ℕ) × (out.new.items ≡ out.old.items ++ text)
            × (Tells self.old.timed.catalogue.state.documents since self.old.feed self.new.feed result text × (self.new.timed ≡ self.old.timed)) }
        ensures same { result ≢ FeedAnswer.Written → out.new.items ≡ out.old.items }
    {
        tell(
            alloc,
            &mut self.feed,
            self.timed.catalogue().docs(),
            since,
            out,
        )
    }
}

/// Asks a feed about the documents, and appends the text of the changes since a place. Only what is answered `Written` changes `out`.
pub fn tell(
    alloc: Global,
    feed: &mut Feed,
    documents: &Map<Ref, Node>,
    since: Option<Since>,
    out: &mut Vec<u8>,
) -> FeedAnswer
    ensures answer { (text : List ℕ) × (out.new.items ≡ out.old.items ++ text) × Tells documents.now since feed.old feed.new result text }
    ensures same { result ≢ FeedAnswer.Written → out.new.items ≡ out.old.items }
{
    match feed.ask(alloc, documents, since) {
        Ok(changes) => written(write_changes(alloc, &changes, out)),
        Err(fault) => refused(fault),
    }
}

fn written(pushed: Result<(), AllocError>) -> FeedAnswer
    ensures { result ≡ written_as pushed }
{
    match pushed {
        Ok(()) => FeedAnswer::Written,
        Err(_) => FeedAnswer::NoMemory,
    }
}

fn refused(fault: FeedFault) -> FeedAnswer
    ensures { result ≡ refused_as fault }
{
    match fault {
        FeedFault::Gone(first) => FeedAnswer::Gone(first),
        FeedFault::Ahead(place) => FeedAnswer::Ahead(place),
        FeedFault::Spent => FeedAnswer::Spent,
        FeedFault::NoMemory => FeedAnswer::NoMemory,
    }
}
