//! A desk whose catalogue is kept in a store.
ghost use Rattle.std.specs.Prelude.{◌≡◌, ◌≢◌, ◌<◌, ◌≤◌, ◌++◌, ◌^◌, List, ℕ, false, true};
ghost use Rattle.cat_desk.specs.Acts.{Acts};
ghost use Rattle.cat_desk.specs.Asks.{AsksOnce};
ghost use Rattle.cat_desk.specs.Deed.{deed_of};
ghost use Rattle.cat_desk.specs.Deed.Deed.{Settle};
ghost use Rattle.cat_desk.specs.Told.{Tells};
ghost use Rattle.cat_feed.specs.Feed.{begun};
ghost use Rattle.cat_io.specs.Causes.{Rose};
ghost use Rattle.cat_io.specs.Clock.{CountsReading};
ghost use Rattle.cat_desk.specs.Kept.{KeptActs, is_lost, is_settle, leaves_rows};
ghost use Rattle.cat_keeper.specs.Answers.{Are};
ghost use Rattle.cat_keeper.specs.declared.keeper.Committed.TheVariants.{Kept};
ghost use Rattle.cat_stored_desk.specs.Followed.{IsFollowed};
ghost use Rattle.cat_stored_desk.specs.Reached.{IsReached};
ghost use Rattle.cat_affected.specs.Gathered.{IsWithin};
ghost use Rattle.cat_desk.specs.Spare.{IsSpare};
ghost use Rattle.cat_model.specs.Sound.{AreOffers, AreSmall};
ghost use Rattle.cat_row_updates.specs.Renewed.{IsBeyond};
ghost use Rattle.cat_row_updates.specs.declared.reached.Reached.{Reached};
ghost use Rattle.cat_stored_rows.specs.Stored.{stored, texts_of};

use crate::reaching::reached;
use cat_collections::listing::Listing;
use cat_core::catalogue::{Catalogue, Done, Saved, Stitched};
use cat_core::fault::{CoreFault, Cut};
use cat_desk::asks::{prepare, write_ask};
use cat_desk::command::{Asked, Command, Reply};
use cat_desk::desk::Desk;
use cat_desk::fed::tell;
use cat_desk::feed_desk::{FeedAnswer, FeedDesk};
use cat_desk::spare::{bring_up, brought_up, taken};
use cat_desk::timed::{act, settle_reaching};
use cat_feed::change::Since;
use cat_feed::feed::Feed;
use cat_io::Clock;
use cat_keeper::keeper::{Committed, Keeper};
use cat_model::types::State;
use cat_mutations::given::serial_of;
use cat_mutations::mutation::last_serial;
use cat_plan::layers::Layers;
use cat_query::ask::Ask;
use cat_store::store::Store;
use cat_types::reference::Ref;
use std::alloc::Global;

/// A catalogue with a clock and a feed, and the store that follows it. Its type keeps that a keeper which tells its tables holds those of
/// the catalogue's state, that it has counted at least as many faults as there were commands that weren't kept, and that a spare copy is what the
/// catalogue holds.
#[derive(Drop)]
pub struct KeptDesk<L: Layers, C: Clock, K: Keeper> {
    catalogue: Catalogue<L>,
    clock: C,
    feed: Feed,
    store: Store<K>,
    // how many commands weren't kept
    refusals: u64,
    // a second copy of what the catalogue holds, to which it is put back where the next command isn't kept
    spare: Option<Saved<L>>,
    pub ghost counted: { refusals ≤ K.faults store.keeper },
    pub ghost followed: { ∥ IsFollowed (K.tables store.place store.keeper) store.orphans store.rows catalogue.settings.orphans catalogue.state ∥₁ },
    pub ghost spared: { ∥ IsSpare spare catalogue.state ∥₁ },
}

impl<L: Layers, C: Clock, K: Keeper> KeptDesk<L, C, K> {
    /// Puts a feed of this epoch that has told nothing, and a clock, beside a catalogue with the store that follows it. It takes no memory.
    pub fn new(
        alloc: Global,
        catalogue: Catalogue<L>,
        clock: C,
        epoch: u64,
        store: Store<K>,
    ) -> KeptDesk<L, C, K>
        requires { IsFollowed (K.tables store.place store.keeper) store.orphans store.rows catalogue.settings.orphans catalogue.state }
        ensures catalogue { result.catalogue ≡ catalogue }
        ensures clock { result.clock ≡ clock }
        ensures feed { result.feed ≡ begun epoch }
        ensures place { result.store.place ≡ store.place }
        ensures refusals { result.refusals ≡ 0 }
    {
        KeptDesk {
            catalogue,
            clock,
            feed: Feed::new(alloc, epoch),
            store,
            refusals: 0,
            spare: None,
        }
    }

    /// Lends the catalogue.
    pub fn catalogue(&self) -> &Catalogue<L>
        ensures { result.now ≡ self.now.catalogue }
    {
        &self.catalogue
    }
}

impl<L: Layers, C: Clock, K: Keeper> KeptDesk<L, C, K> {
    /// Prepares the catalogue for a question. Contracts see no difference.
    pub fn prepare(&mut self, alloc: Global, ask: &Ask)
        ensures catalogue { self.new.catalogue ≡ self.old.catalogue }
        ensures clock { self.new.clock ≡ self.old.clock }
        ensures feed { self.new.feed ≡ self.old.feed }
        ensures store { self.new.store ≡ self.old.store }
    {
        prepare(alloc, &mut self.catalogue, ask);
    }
}

impl<L: Layers + Drop, C: Clock + Drop, K: Keeper> KeptDesk<L, C, K> {
    /// The store. Where its keeper tells its tables, these are those of the catalogue's state. It has counted at least as many faults as there
    /// were commands that weren't kept.
    pub fn into_store(self) -> Store<K>
        ensures store { result ≡ self.store }
        ensures faults { self.refusals ≤ K.faults result.keeper }
        ensures followed { ∥ IsFollowed (K.tables result.place result.keeper) result.orphans result.rows self.catalogue.settings.orphans self.catalogue.state ∥₁ }
    {
        self.store
    }
}

// Whether a command leaves the stored rows as they are.
fn leaves_rows<L: Layers>(
    catalogue: &Catalogue<L>,
    command: &Command<Done<'_, L>, Stitched<'_, L>>,
) -> bool
    ensures { result ≡ leaves_rows (deed_of command.now) catalogue.now.state }
{
    match command {
        Command::Mutate(provider, mutation) => {
            serial_of(mutation) <= last_serial(catalogue.view(), provider)
        }
        Command::ShelfDrop(name) => catalogue.view().shelf.get(name).is_none(),
        Command::Forget(reference) => catalogue.number_of(reference).is_none(),
        Command::ForgetNumber(number) => catalogue.ref_at(*number).is_none(),
        Command::Refresh(_) | Command::Take | Command::TakeStitch(_) | Command::PutStitch(_) =>
            true,
        Command::ShelfPut(..) | Command::Finish(_) | Command::Settle => false,
    }
}

// Does what a command says that leaves the stored rows as they are, to the spare copy too.
fn pass<L: Layers>(
    alloc: Global,
    catalogue: &mut Catalogue<L>,
    spare: &mut Option<Saved<L>>,
    command: &Command<Done<'_, L>, Stitched<'_, L>>,
    now: u64,
) -> Reply
    requires now { now < 2 ^ 53 }
    requires leaves { leaves_rows (deed_of command.now) catalogue.old.state ≡ true }
    requires spared { IsSpare spare.old catalogue.old.state }
    ensures acts { Acts L.rules now (deed_of command.now) catalogue.old catalogue.new result }
    ensures never { is_lost result ≡ false }
    ensures rows { stored catalogue.old.settings.orphans catalogue.new.state ≡ stored catalogue.old.settings.orphans catalogue.old.state }
    ensures spared { IsSpare spare.new catalogue.new.state }
{
    let _state = catalogue.view();
    let reply = act(alloc, catalogue, command, now);
    bring_up(alloc, catalogue, spare, command, now, &reply);
    reply
}

// Does what a command says, and hands on the references that a settle reached, if they were gathered.
fn act_reaching<L: Layers>(
    alloc: Global,
    catalogue: &mut Catalogue<L>,
    command: &Command<Done<'_, L>, Stitched<'_, L>>,
    now: u64,
) -> (Reply, Option<Listing<Ref>>)
    requires { now < 2 ^ 53 }
    ensures acts { Acts L.rules now (deed_of command.now) catalogue.old catalogue.new result.0 }
    ensures reaches { IsWithin result.1 catalogue.old.state catalogue.new.state }
{
    match command {
        Command::Settle => settle_reaching(alloc, catalogue, now),
        _ => (act(alloc, catalogue, command, now), None),
    }
}

// Has the store follow a command, given what the catalogue held before it and holds after it, and the references that a settle reached.
fn keep<L: Layers, K: Keeper>(
    alloc: Global,
    store: &mut Store<K>,
    command: &Command<Done<'_, L>, Stitched<'_, L>>,
    settled: Option<Listing<Ref>>,
    saved: &Saved<L>,
    after: &State,
) -> Committed
    requires rows { store.old.rows ≡ stored store.old.orphans saved.now }
    requires beyond { (x : Reached) → IsReached (deed_of command.now) settled saved.now after.now x → IsBeyond x saved.now after.now }
    requires offers { AreOffers after.now }
    requires small { AreSmall after.now }
    ensures rows { result ≡ Kept → store.new.rows ≡ stored store.old.orphans after.now }
    ensures same { result ≢ Kept → store.new.rows ≡ store.old.rows }
    ensures told { Are (K.tables store.old.place store.old.keeper) (texts_of store.old.rows) → Are (K.tables store.new.place store.new.keeper) (texts_of store.new.rows) }
    ensures place { store.new.place ≡ store.old.place }
    ensures orphans { store.new.orphans ≡ store.old.orphans }
    ensures later { K.faults store.old.keeper ≤ K.faults store.new.keeper }
    ensures cause { result ≡ Committed.Failed → Rose (K.faults store.old.keeper) (K.faults store.new.keeper) }
{
    match reached(alloc, command, settled, saved, after) {
        Err(_) => Committed::NoMemory,
        Ok(None) => store.follow(alloc, after),
        Ok(Some(reached)) => store.follow_reached(alloc, &reached, saved.state(), after),
    }
}

// Whether a command is a settle.
fn is_settle<L: Layers>(command: &Command<Done<'_, L>, Stitched<'_, L>>) -> bool
    ensures { result ≡ is_settle (deed_of command.now) }
{
    match command {
        Command::Settle => true,
        Command::Mutate(..)
        | Command::ShelfPut(..)
        | Command::ShelfDrop(_)
        | Command::Refresh(_)
        | Command::Forget(_)
        | Command::ForgetNumber(_)
        | Command::Take
        | Command::Finish(_)
        | Command::TakeStitch(_)
        | Command::PutStitch(_) => false,
    }
}

// Of a settle that wasn't kept, before which the catalogue stands again, the first event alone is done, which leaves the stored rows as they are, and the
// settle is counted. Where memory lacks for that event, nothing is done, and it isn't counted.
fn cut_short<L: Layers>(
    alloc: Global,
    catalogue: &mut Catalogue<L>,
    refusals: &mut u64,
    now: u64,
) -> Reply
    requires { now < 2 ^ 53 }
    ensures acts { KeptActs L.rules now Settle catalogue.old catalogue.new refusals.old refusals.new result }
    ensures rows { stored catalogue.old.settings.orphans catalogue.new.state ≡ stored catalogue.old.settings.orphans catalogue.old.state }
    ensures settings { catalogue.new.settings ≡ catalogue.old.settings }
{
    let _state = catalogue.view();
    let events = catalogue.settle_within(alloc, now, 1);
    if events == 0 {
        Reply::Refused(CoreFault::NoMemory)
    } else {
        *refusals = refusals.saturating_add(1);
        Reply::Cut(Cut {
            events,
            fault: CoreFault::Keeper,
        })
    }
}

// What is answered to a command whose change wasn't kept, before which the catalogue stands again. It is counted, unless it is a settle for whose first
// event memory lacks.
fn unkept<L: Layers>(
    alloc: Global,
    catalogue: &mut Catalogue<L>,
    refusals: &mut u64,
    command: &Command<Done<'_, L>, Stitched<'_, L>>,
    now: u64,
) -> Reply
    requires now { now < 2 ^ 53 }
    requires changes { leaves_rows (deed_of command.now) catalogue.old.state ≡ false }
    ensures acts { KeptActs L.rules now (deed_of command.now) catalogue.old catalogue.new refusals.old refusals.new result }
    ensures rows { stored catalogue.old.settings.orphans catalogue.new.state ≡ stored catalogue.old.settings.orphans catalogue.old.state }
    ensures settings { catalogue.new.settings ≡ catalogue.old.settings }
{
    if is_settle(command) {
        cut_short(alloc, catalogue, refusals, now)
    } else {
        *refusals = refusals.saturating_add(1);
        Reply::Refused(CoreFault::Keeper)
    }
}

// Does what a command says, and has the store follow. Where the keeper fails, which is counted, or memory lacks, all is as before, but for the first event
// of a settle that wasn't kept. Where memory lacks for that event, the settle isn't counted.
fn follow<L: Layers, K: Keeper>(
    alloc: Global,
    catalogue: &mut Catalogue<L>,
    spare: &mut Option<Saved<L>>,
    store: &mut Store<K>,
    refusals: &mut u64,
    command: &Command<Done<'_, L>, Stitched<'_, L>>,
    now: u64,
) -> Reply
    requires now { now < 2 ^ 53 }
    requires changes { leaves_rows (deed_of command.now) catalogue.old.state ≡ false }
    requires followed { ∥ IsFollowed (K.tables store.old.place store.old.keeper) store.old.orphans store.old.rows catalogue.old.settings.orphans catalogue.old.state ∥₁ }
    requires spared { IsSpare spare.old catalogue.old.state }
    ensures acts { KeptActs L.rules now (deed_of command.now) catalogue.old catalogue.new refusals.old refusals.new result }
    ensures counts { refusals.old ≤ K.faults store.old.keeper → refusals.new ≤ K.faults store.new.keeper }
    ensures cause { is_lost result ≡ true → Rose (K.faults store.old.keeper) (K.faults store.new.keeper) }
    ensures followed { ∥ IsFollowed (K.tables store.new.place store.new.keeper) store.new.orphans store.new.rows catalogue.new.settings.orphans catalogue.new.state ∥₁ }
    ensures place { store.new.place ≡ store.old.place }
    ensures later { K.faults store.old.keeper ≤ K.faults store.new.keeper }
    ensures spared { IsSpare spare.new catalogue.new.state }
{
    let Ok(saved) = taken(alloc, catalogue, spare) else {
        return Reply::Refused(CoreFault::NoMemory);
    };
    let _before = saved.state();
    let (reply, settled) = act_reaching(alloc, catalogue, command, now);
    match keep(
        alloc,
        store,
        command,
        settled,
        &saved,
        catalogue.sound_state(),
    ) {
        Committed::Kept => {
            *spare = brought_up(alloc, catalogue, saved, command, now, &reply);
            reply
        }
        Committed::Failed => {
            catalogue.put_back(saved);
            unkept(alloc, catalogue, refusals, command, now)
        }
        Committed::NoMemory => {
            catalogue.put_back(saved);
            Reply::Refused(CoreFault::NoMemory)
        }
    }
}

impl<L: Layers, C: Clock, K: Keeper> KeptDesk<L, C, K> {
    /// Does what a command says, which stays with the caller, and answers it with the moment at which it came. The keeper's fault, also as what cut a
    /// settle, comes only where the keeper's count of faults rose in this call.
    pub fn act_at(
        &mut self,
        alloc: Global,
        command: &Command<Done<'_, L>, Stitched<'_, L>>,
    ) -> (u64, Reply)
        ensures moment { result.0 ≡ C.moment self.new.clock }
        ensures acts { KeptActs L.rules (C.moment self.new.clock) (deed_of command.now) self.old.catalogue self.new.catalogue self.old.refusals self.new.refusals result.1 }
        ensures reads { CountsReading (C.readings self.old.clock) (C.readings self.new.clock) }
        ensures ticks { C.ticks self.old.clock self.new.clock }
        ensures feed { self.new.feed ≡ self.old.feed }
        ensures place { self.new.store.place ≡ self.old.store.place }
        ensures later { K.faults self.old.store.keeper ≤ K.faults self.new.store.keeper }
        ensures cause { is_lost result.1 ≡ true → Rose (K.faults self.old.store.keeper) (K.faults self.new.store.keeper) }
    {
        let now = self.clock.now();
        if leaves_rows(&self.catalogue, command) {
            return (
                now,
                pass(alloc, &mut self.catalogue, &mut self.spare, command, now),
            );
        }
        let reply = follow(
            alloc,
            &mut self.catalogue,
            &mut self.spare,
            &mut self.store,
            &mut self.refusals,
            command,
            now,
        );
        (now, reply)
    }
}

impl<'a, L: Layers, C: Clock, K: Keeper> Desk<Done<'a, L>, Stitched<'a, L>> for KeptDesk<L, C, K> {
    ghost order = { λ done. done.order.now };

    ghost stitch_order = { λ stitched. stitched.order.now };

    ghost acts = { λ old d new reply. (KeptActs L.rules (C.moment new.clock) d old.catalogue new.catalogue old.refusals new.refusals reply × (CountsReading (C.readings old.clock) (C.readings new.clock) × C.ticks old.clock new.clock)) × ((new.feed ≡ old.feed) × (new.store.place ≡ old.store.place)) };

    ghost asks = { λ old ask new asked text. (AsksOnce (C.moment new.clock) (C.readings old.clock) (C.readings new.clock) ask old.catalogue new.catalogue asked text × C.ticks old.clock new.clock) × ((new.feed ≡ old.feed) × ((new.store.place ≡ old.store.place) × (new.refusals ≡ old.refusals))) };

    fn act(&mut self, alloc: Global, command: Command<Done<'a, L>, Stitched<'a, L>>) -> Reply
        ensures acts { (KeptActs L.rules (C.moment self.new.clock) (deed_of command.entry) self.old.catalogue self.new.catalogue self.old.refusals self.new.refusals result × (CountsReading (C.readings self.old.clock) (C.readings self.new.clock) × C.ticks self.old.clock self.new.clock)) × ((self.new.feed ≡ self.old.feed) × (self.new.store.place ≡ self.old.store.place)) }
        ensures later { K.faults self.old.store.keeper ≤ K.faults self.new.store.keeper }
    {
        self.act_at(alloc, &command).1
    }

    fn ask(&mut self, alloc: Global, ask: &Ask, out: &mut Vec<u8>) -> Asked
        ensures answer { (text : List ℕ) × (out.new.items ≡ out.old.items ++ text)
            × ((AsksOnce (C.moment self.new.clock) (C.readings self.old.clock) (C.readings self.new.clock) ask.now self.old.catalogue self.new.catalogue result text × C.ticks self.old.clock self.new.clock) × ((self.new.feed ≡ self.old.feed) × ((self.new.store.place ≡ self.old.store.place) × (self.new.refusals ≡ self.old.refusals)))) }
        ensures same { result ≢ Asked.Written → out.new.items ≡ out.old.items }
        ensures store { self.new.store ≡ self.old.store }
    {
        let now = self.clock.now();
        prepare(alloc, &mut self.catalogue, ask);
        write_ask(alloc, &self.catalogue, ask, now, out)
    }
}

impl<'a, L: Layers, C: Clock, K: Keeper> FeedDesk<Done<'a, L>, Stitched<'a, L>>
    for KeptDesk<L, C, K> {
    ghost tells = { λ old since new told text. Tells old.catalogue.state.documents since old.feed new.feed told text × ((new.catalogue ≡ old.catalogue) × ((new.clock ≡ old.clock) × ((new.store.place ≡ old.store.place) × (new.refusals ≡ old.refusals)))) };

    fn changes(&mut self, alloc: Global, since: Option<Since>, out: &mut Vec<u8>) -> FeedAnswer
        ensures answer { (text : List ℕ) × (out.new.items ≡ out.old.items ++ text)
            × (Tells self.old.catalogue.state.documents since self.old.feed self.new.feed result text × ((self.new.catalogue ≡ self.old.catalogue) × ((self.new.clock ≡ self.old.clock) × ((self.new.store.place ≡ self.old.store.place) × (self.new.refusals ≡ self.old.refusals))))) }
        ensures same { result ≢ FeedAnswer.Written → out.new.items ≡ out.old.items }
        ensures store { self.new.store ≡ self.old.store }
    {
        tell(alloc, &mut self.feed, self.catalogue.docs(), since, out)
    }
}
