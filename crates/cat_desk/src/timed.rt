//! A catalogue with a clock.
ghost use Rattle.std.specs.Prelude.{◌≡◌, ◌≢◌, ◌<◌, ◌≤◌, ◌-◌, ◌++◌, ◌^◌, List, ℕ};
ghost use Rattle.std.specs.declared.option.Option.TheVariants.{Some};
ghost use Rattle.cat_affected.specs.Gathered.{IsWithin};
ghost use Rattle.cat_desk.specs.Acts.{Acts, ActsOnce, reply_as, settled_as};
ghost use Rattle.cat_desk.specs.Asks.{AsksOnce};
ghost use Rattle.cat_desk.specs.Deed.{Deed, deed_of};
ghost use Rattle.cat_desk.specs.declared.command.Reply.TheVariants as replies;
ghost use Rattle.cat_model.specs.Settle.{try_settle};

use crate::asks::{prepare, write_ask};
use crate::command::{Asked, Command, Reply};
use crate::desk::Desk;
use cat_collections::listing::Listing;
use cat_core::catalogue::{Catalogue, Done, Saved, Stitched};
use cat_core::fault::{CoreFault, Cut};
use cat_io::{Clock, FixedClock};
use cat_model::types::{Acted, Counts, Finished, Order, Placed, StitchOrder};
use cat_plan::layers::Layers;
use cat_query::ask::Ask;
use cat_types::reference::Ref;
use std::alloc::Global;

/// A catalogue with a clock, which is read once for each command and each question.
#[derive(Drop)]
pub struct Timed<L: Layers, C: Clock> {
    catalogue: Catalogue<L>,
    clock: C,
}

impl<L: Layers, C: Clock> Timed<L, C> {
    /// Puts a catalogue and a clock together. It takes no memory.
    pub fn new(catalogue: Catalogue<L>, clock: C) -> Timed<L, C>
        ensures { result ≡ record { catalogue = catalogue; clock = clock } }
    {
        Timed { catalogue, clock }
    }

    /// Lends the catalogue.
    pub fn catalogue(&self) -> &Catalogue<L>
        ensures { result.now ≡ self.now.catalogue }
    {
        &self.catalogue
    }

    /// Puts the catalogue back to what it held when it was saved. No memory is taken.
    pub fn put_back(&mut self, saved: Saved<L>)
        ensures state { self.new.catalogue.state ≡ saved }
        ensures settings { self.new.catalogue.settings ≡ self.old.catalogue.settings }
        ensures clock { self.new.clock ≡ self.old.clock }
    {
        self.catalogue.put_back(saved);
    }

    /// Exchanges what the catalogue holds with what was saved. No memory is taken.
    pub fn exchange(&mut self, saved: &mut Saved<L>)
        ensures state { self.new.catalogue.state ≡ saved.old }
        ensures saved { saved.new ≡ self.old.catalogue.state }
        ensures settings { self.new.catalogue.settings ≡ self.old.catalogue.settings }
        ensures clock { self.new.clock ≡ self.old.clock }
    {
        self.catalogue.exchange(saved);
    }

    /// Does what a command says, which stays with the caller, and answers it with the moment at which it came.
    pub fn act_at(
        &mut self,
        alloc: Global,
        command: &Command<Done<'_, L>, Stitched<'_, L>>,
    ) -> (u64, Reply)
        ensures moment { result.0 ≡ C.moment self.new.clock }
        ensures acts { ActsOnce L.rules (C.moment self.new.clock) (C.readings self.old.clock) (C.readings self.new.clock) (deed_of command.now) self.old.catalogue self.new.catalogue result.1 }
        ensures ticks { C.ticks self.old.clock self.new.clock }
    {
        let now = self.clock.now();
        let reply = act(alloc, &mut self.catalogue, command, now);
        (now, reply)
    }

    /// Settles the catalogue, and answers as the command does. Beside the answer it gives the references that the settle's events reached
    /// (`Catalogue::settle_reaching`).
    pub fn settle_reaching(&mut self, alloc: Global) -> (Reply, Option<Listing<Ref>>)
        ensures acts { ActsOnce L.rules (C.moment self.new.clock) (C.readings self.old.clock) (C.readings self.new.clock) Deed.Settle self.old.catalogue self.new.catalogue result.0 }
        ensures ticks { C.ticks self.old.clock self.new.clock }
        ensures reaches { IsWithin result.1 self.old.catalogue.state self.new.catalogue.state }
    {
        let now = self.clock.now();
        settle_reaching(alloc, &mut self.catalogue, now)
    }
}

impl<L: Layers, C: Clock> Timed<L, C> {
    /// Prepares the catalogue for a question. Contracts see no difference.
    pub fn prepare(&mut self, alloc: Global, ask: &Ask)
        ensures catalogue { self.new.catalogue ≡ self.old.catalogue }
        ensures clock { self.new.clock ≡ self.old.clock }
    {
        prepare(alloc, &mut self.catalogue, ask);
    }
}

impl<L: Layers> Timed<L, FixedClock> {
    /// The moment at which the next command or question comes.
    pub fn moment(&self) -> u64
        ensures moment { result ≡ self.now.clock.moment }
        ensures bound { result < 2 ^ 53 }
    {
        self.clock.moment()
    }

    /// Does the first events of a settle, `most` of them at most, and gives how many stand (`Catalogue::settle_within`).
    pub fn settle_within(&mut self, alloc: Global, most: u64) -> u64
        requires { most < 2 ^ 64 - 1 }
        ensures most { result ≤ most }
        ensures state { self.new.catalogue.state ≡ (try_settle L.rules self.old.catalogue.settings self.old.clock.moment (Some result) self.old.catalogue.state).state }
        ensures events { (try_settle L.rules self.old.catalogue.settings self.old.clock.moment (Some result) self.old.catalogue.state).events ≡ result }
        ensures none { result ≡ 0 → self.new.catalogue.state ≡ self.old.catalogue.state }
        ensures settings { self.new.catalogue.settings ≡ self.old.catalogue.settings }
        ensures clock { self.new.clock ≡ self.old.clock }
    {
        let now = self.moment();
        self.catalogue.settle_within(alloc, now, most)
    }

    /// The clock stands at this moment from here on.
    pub fn set_moment(&mut self, now: u64)
        requires { now < 2 ^ 53 }
        ensures clock { self.new.clock ≡ record self.old.clock { moment = now } }
        ensures same { self.new.catalogue ≡ self.old.catalogue }
    {
        self.clock.set(now);
    }
}

impl<'a, L: Layers, C: Clock> Desk<Done<'a, L>, Stitched<'a, L>> for Timed<L, C> {
    ghost order = { λ done. done.order.now };

    ghost stitch_order = { λ stitched. stitched.order.now };

    ghost acts = { λ old d new reply. ActsOnce L.rules (C.moment new.clock) (C.readings old.clock) (C.readings new.clock) d old.catalogue new.catalogue reply × C.ticks old.clock new.clock };

    ghost asks = { λ old ask new asked text. AsksOnce (C.moment new.clock) (C.readings old.clock) (C.readings new.clock) ask old.catalogue new.catalogue asked text × C.ticks old.clock new.clock };

    fn act(&mut self, alloc: Global, command: Command<Done<'a, L>, Stitched<'a, L>>) -> Reply
        ensures acts { ActsOnce L.rules (C.moment self.new.clock) (C.readings self.old.clock) (C.readings self.new.clock) (deed_of command.entry) self.old.catalogue self.new.catalogue result × C.ticks self.old.clock self.new.clock }
    {
        self.act_at(alloc, &command).1
    }

    fn ask(&mut self, alloc: Global, ask: &Ask, out: &mut Vec<u8>) -> Asked
        ensures answer { (text : List ℕ) × (out.new.items ≡ out.old.items ++ text)
            × (AsksOnce (C.moment self.new.clock) (C.readings self.old.clock) (C.readings self.new.clock) ask.now self.old.catalogue self.new.catalogue result text × C.ticks self.old.clock self.new.clock) }
        ensures same { result ≢ Asked.Written → out.new.items ≡ out.old.items }
    {
        let now = self.clock.now();
        prepare(alloc, &mut self.catalogue, ask);
        write_ask(alloc, &self.catalogue, ask, now, out)
    }
}

/// Does what a command says at this moment, and answers it.
pub fn act<L: Layers>(
    alloc: Global,
    catalogue: &mut Catalogue<L>,
    command: &Command<Done<'_, L>, Stitched<'_, L>>,
    now: u64,
) -> Reply
    requires { now < 2 ^ 53 }
    ensures { Acts L.rules now (deed_of command.now) catalogue.old catalogue.new result }
{
    match command {
        Command::Mutate(provider, mutation) => {
            mutated(catalogue.mutate(alloc, provider, mutation))
        }
        Command::ShelfPut(name, text) => changed(catalogue.shelf_put(alloc, name, text)),
        Command::ShelfDrop(name) => changed(catalogue.shelf_drop(alloc, name)),
        Command::Refresh(reference) => changed(catalogue.refresh(reference)),
        Command::Forget(reference) => changed(catalogue.forget(alloc, reference)),
        Command::ForgetNumber(number) => changed(catalogue.forget_number(alloc, *number)),
        Command::Take => taken(catalogue.take(alloc, now)),
        Command::Finish(done) => finished(catalogue.finish(alloc, done, now)),
        Command::TakeStitch(after) => stitch_taken(catalogue.take_stitch(alloc, *after)),
        Command::PutStitch(stitched) => placed(catalogue.put_stitch(alloc, stitched)),
        Command::Settle => settled(catalogue.settle(alloc, now)),
    }
}

/// Settles a catalogue at this moment, and answers as the command does. Beside the answer it gives the references that the settle's events reached
/// (`Catalogue::settle_reaching`).
pub fn settle_reaching<L: Layers>(
    alloc: Global,
    catalogue: &mut Catalogue<L>,
    now: u64,
) -> (Reply, Option<Listing<Ref>>)
    requires { now < 2 ^ 53 }
    ensures acts { Acts L.rules now Deed.Settle catalogue.old catalogue.new result.0 }
    ensures reaches { IsWithin result.1 catalogue.old.state catalogue.new.state }
{
    let (came, reached) = catalogue.settle_reaching(alloc, now);
    (settled(came), reached)
}

fn mutated(came: Result<Acted, CoreFault>) -> Reply
    ensures { result ≡ reply_as replies.Mutated came }
{
    match came {
        Ok(acted) => Reply::Mutated(acted),
        Err(fault) => Reply::Refused(fault),
    }
}

fn changed(came: Result<(), CoreFault>) -> Reply
    ensures { result ≡ reply_as (λ _. replies.Changed) came }
{
    match came {
        Ok(()) => Reply::Changed,
        Err(fault) => Reply::Refused(fault),
    }
}

fn taken(came: Result<Option<Order>, CoreFault>) -> Reply
    ensures { result ≡ reply_as replies.Taken came }
{
    match came {
        Ok(order) => Reply::Taken(order),
        Err(fault) => Reply::Refused(fault),
    }
}

fn finished(came: Result<Finished, CoreFault>) -> Reply
    ensures { result ≡ reply_as replies.Finished came }
{
    match came {
        Ok(finished) => Reply::Finished(finished),
        Err(fault) => Reply::Refused(fault),
    }
}

fn stitch_taken(came: Result<Option<StitchOrder>, CoreFault>) -> Reply
    ensures { result ≡ reply_as replies.StitchTaken came }
{
    match came {
        Ok(order) => Reply::StitchTaken(order),
        Err(fault) => Reply::Refused(fault),
    }
}

fn placed(came: Result<Placed, CoreFault>) -> Reply
    ensures { result ≡ reply_as replies.Placed came }
{
    match came {
        Ok(placed) => Reply::Placed(placed),
        Err(fault) => Reply::Refused(fault),
    }
}

fn settled(came: Result<Counts, Cut>) -> Reply
    ensures { result ≡ settled_as came }
{
    match came {
        Ok(counts) => Reply::Settled(counts),
        Err(cut) => Reply::Cut(cut),
    }
}
