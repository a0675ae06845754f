//! The catalogue.
ghost use Rattle.std.specs.Prelude.{◌≡◌, ℕ, ◌<◌, ◌≤◌, ◌-◌, ◌^◌, IfOk, IfErr, Option, IsTrue, ◌↔◌, is_ok, option_map, slice_get};
ghost use Rattle.std.specs.declared.option.Option.TheVariants.{None, Some};
ghost use Rattle.std.specs.FinMap.Entries.{is_sorted};
ghost use Rattle.cat_collections.specs.Table.{get, text_cmp};
ghost use Rattle.cat_model.specs.Catalogue.{holding};
ghost use Rattle.cat_model.specs.Fresh.{IsFresh};
ghost use Rattle.cat_model.specs.Given.{given};
ghost use Rattle.cat_model.specs.Reply.{acted, counts, finished, issues_at, next_known, next_stitch, placed, resting, state_counts, taken, waiting};
ghost use Rattle.cat_model.specs.Settle.{not_begun, try_settle};
ghost use Rattle.cat_model.specs.Sound.{AreBegun, AreSmall, Quiet, Sound, its_number};
ghost use Rattle.cat_events.specs.Coming.{HasCome, IsSteady};
ghost use Rattle.cat_events.specs.Stepped.{come_to, AreMoments};
ghost use Rattle.cat_affected.specs.Gathered.{Gathers, IsWithin};
ghost use Rattle.cat_core.specs.Answer.{IsSettled, settle_answer};
ghost use Rattle.cat_model.specs.Step.{ref_at, refusal, source_at, start, step};
ghost use Rattle.cat_model.specs.Step.Event.{Finish, Forget, ForgetNumber, Mutate, PutStitch, Refresh, ShelfDrop, ShelfPut, Take};

use crate::called::{answered, answered_with, core_fault, with_reply};
use crate::extra::forget_number;
use crate::fault::{CoreFault, Cut};
use crate::known::{next_of, with_number};
use crate::ledger::Ledger;
use crate::orders::{finish_reply, take_first};
use crate::questions::{
    counts_of, is_quiet, issues_of, number_of, rests, stitch_after, stitch_reply,
};
use crate::waiting::waiting_at;
use cat_collections::listing::{Copied, Listing};
use cat_collections::map::Map;
pub use cat_events::done::{Done, Stitched};
use cat_events::finish::finish;
use cat_events::lease::refresh;
use cat_events::stitch::put_stitch;
use cat_links::links::Links;
use cat_model::records::Records;
use cat_model::rows::IndexedRows;
use cat_model::types::{
    Acted, Counts, Fault, Finished, Order, Placed, Progress, Row, Settings, State, StateCounts,
    StitchOrder, Stop,
};
use cat_mutations::change::{forget, shelf_drop, shelf_put};
use cat_mutations::given::{given_by, serial_of};
use cat_mutations::mutation::{last_serial, mutate};
use cat_plan::hold::row_of;
use cat_plan::layers::Layers;
use cat_search::index::{Index, list_pending};
use cat_settle::order::MOST_EVENTS;
use cat_settle::settle::settled;
use cat_state_parts::marks::Marks;
use cat_tree::text::Text;
use cat_types::input::Mutation;
use cat_types::issue::Issue;
use cat_types::node::Node;
use cat_types::reference::Ref;
use std::alloc::{AllocError, Global};
use std::marker::{Model, PhantomData};
use std::mem;

/// A catalogue over its lower layers. Beside its state it keeps what each kept output emits.
pub struct Catalogue<L: Layers> {
    layers: L,
    ledger: Ledger,
    links: Links,
}

// Written out, and not derived: so the crates above let go of a catalogue by one call.
impl<L: Layers + Drop> Drop for Catalogue<L> {
    fn drop(self) {
        let Catalogue {
            layers: _,
            ledger: _,
            links: _,
        } = self;
    }
}

impl<L: Layers> Model for Catalogue<L> {
    ghost use Rattle.cat_core.specs.declared.ledger.Ledger.{Ledger};
    ghost use Rattle.cat_core.specs.contracts.ledger.Ledger.{the_row};
    ghost use Rattle.cat_core.specs.Kept.{IsKept};

    ghost Value = { Ledger };

    ghost coded = { the_row.coded };

    ghost view = { λ a. a.ledger };

    ghost invariant = { λ a. IsKept L.rules a.links a.ledger };
}

// What a catalogue held, and what its kept outputs emitted.
#[derive(Drop)]
struct Held {
    state: State,
    links: Links,
}

/// What a catalogue held, with what its kept outputs emitted, in a box, so that it is moved as one. Its type keeps that what must hold between two
/// events holds.
#[derive(Drop)]
pub struct Saved<L: Layers> {
    held: Box<Held>,
    layers: PhantomData<L>,
}

impl<L: Layers> Model for Saved<L> {
    ghost use Rattle.cat_core.specs.Kept.{IsSaved};
    ghost use Rattle.cat_model.specs.contracts.types.State.{the_row};
    ghost use Rattle.cat_model.specs.declared.types.State.{State};

    ghost Value = { State };

    ghost coded = { the_row.coded };

    ghost view = { λ a. a.held.value.state };

    ghost invariant = { λ a. IsSaved L.rules a.held.value.links a.held.value.state };
}

impl<L: Layers> Saved<L> {
    /// The state that was held, of which what must hold between two events holds.
    pub fn state(&self) -> &State
        ensures state { result.now ≡ self.now }
        ensures sound { Sound L.rules self.now }
        ensures small { AreSmall self.now }
    {
        &self.held.state
    }

    /// The reference of a record or an orphan with this number. No memory is taken.
    pub fn ref_at(&self, number: u64) -> Option<&Ref>
        ensures { option_map (λ r. r.now) result ≡ ref_at self.now number }
    {
        with_number(&self.held.state, number)
    }

    /// The records of what was saved. All else is let go.
    pub fn into_records(self) -> Records
        ensures { result ≡ self.records }
    {
        let held = Box::into_inner(self.held);
        held.state.into_records()
    }
}

fn empty_state(alloc: Global) -> State
    ensures { result ≡ start }
{
    State {
        providers: Map::new(),
        shelf: Map::new(),
        rows: IndexedRows::new(),
        holders: Map::new(),
        records: Records::new(),
        orphans: Map::new(),
        marks: Marks::new(),
        documents: Index::empty(),
        arrival: 1,
        number: 1,
        token: 1,
        ticket: 1,
    }
}

// A mutation with a new serial, with all that follows.
fn mutated<L: Layers>(
    alloc: Global,
    layers: &L,
    settings: &Settings,
    provider: &Text,
    mutation: &Mutation,
    state: &mut State,
    links: &mut Links,
) -> Result<Option<Fault>, AllocError>
    requires steady { IsSteady L.rules links.old state.old }
    requires later { (source_at (get state.old.providers provider.now)).serial < (given provider.now mutation.now).serial }
    ensures { HasCome L.rules (come_to L.rules settings.now (Mutate provider.now (given provider.now mutation.now)) state.old) result state.old state.new links.new }
{
    match given_by(alloc, provider, mutation) {
        Ok(x) => mutate(alloc, layers, settings, provider, &x, state, links),
        Err(refused) => Err(refused),
    }
}

fn begun(state: State) -> Progress
    ensures { result ≡ not_begun state }
{
    Progress {
        state,
        rounds: 0,
        leases: 0,
        stitched: 0,
        events: 0,
        stop: None,
    }
}

// Takes a state out, for a settle that has done nothing yet.
fn taken_out(alloc: Global, state: &mut State) -> Progress
    ensures { result ≡ not_begun state.old }
{
    let mut p = begun(empty_state(alloc));
    mem::swap(state, &mut p.state);
    p
}

// Puts the state of a settle where it was taken out.
fn put_in(p: Progress, state: &mut State)
    ensures { state.new ≡ p.state }
{
    *state = p.state;
}

// What a settle answers.
fn settle_reply(came: Result<(), AllocError>, p: &Progress) -> Result<Counts, Cut>
    ensures { result ≡ settle_answer came p.now }
{
    match came {
        Err(_) => Err(Cut {
            events: p.events,
            fault: CoreFault::NoMemory,
        }),
        Ok(()) => match p.stop {
            None => Ok(Counts {
                rounds: p.rounds,
                leases: p.leases,
                stitched: p.stitched,
            }),
            Some(Stop::Refused(fault)) => Err(Cut {
                events: p.events,
                fault: core_fault(fault),
            }),
            Some(Stop::Limit) => Err(Cut {
                events: p.events,
                fault: CoreFault::NoMemory,
            }),
        },
    }
}

// Settles a state, and gathers what its events reached, if this is gathered. It is taken out for as long as it is settled.
fn settle_state<L: Layers>(
    alloc: Global,
    layers: &L,
    settings: &Settings,
    now: u64,
    state: &mut State,
    links: &mut Links,
    reached: &mut Option<Listing<Ref>>,
) -> Result<Counts, Cut>
    requires steady { IsSteady L.rules links.old state.old }
    requires begun { AreBegun state.old }
    requires moments { AreMoments settings.now now }
    requires interval { 1 ≤ settings.now.interval }
    ensures settled { IsSettled L.rules settings.now now state.old result state.new }
    ensures steady { IsSteady L.rules links.new state.new }
    ensures begun { AreBegun state.new }
    ensures gathers { Gathers reached.old state.old reached.new state.new }
{
    let mut p = taken_out(alloc, state);
    let came = settled(
        alloc,
        layers,
        settings,
        MOST_EVENTS,
        now,
        &mut p,
        links,
        reached,
    );
    let reply = settle_reply(came, &p);
    put_in(p, state);
    reply
}

// Does at most so many events of a settle to a state, and gives how many stand. It is taken out for as long as it is settled.
fn settle_begun<L: Layers>(
    alloc: Global,
    layers: &L,
    settings: &Settings,
    most: u64,
    now: u64,
    state: &mut State,
    links: &mut Links,
) -> u64
    requires steady { IsSteady L.rules links.old state.old }
    requires begun { AreBegun state.old }
    requires moments { AreMoments settings.now now }
    requires interval { 1 ≤ settings.now.interval }
    requires few { most < 2 ^ 64 - 1 }
    ensures most { result ≤ most }
    ensures state { state.new ≡ (try_settle L.rules settings.now now (Some result) state.old).state }
    ensures events { (try_settle L.rules settings.now now (Some result) state.old).events ≡ result }
    ensures none { result ≡ 0 → state.new ≡ state.old }
    ensures steady { IsSteady L.rules links.new state.new }
    ensures begun { AreBegun state.new }
{
    let mut p = taken_out(alloc, state);
    let mut reached = None;
    let _came = settled(
        alloc,
        layers,
        settings,
        most,
        now,
        &mut p,
        links,
        &mut reached,
    );
    let events = p.events;
    put_in(p, state);
    events
}

impl<L: Layers> Catalogue<L> {
    ghost use Rattle.cat_core.specs.Answer.{IsCutSettle, IsReply, after};
    ghost use Rattle.cat_core.specs.Kept.{AreSettings};

    /// A catalogue with nothing in it. No memory is taken.
    pub fn empty(alloc: Global, layers: L, settings: Settings) -> Catalogue<L>
        requires { AreSettings settings }
        ensures state { result.state ≡ start }
        ensures settings { result.settings ≡ settings }
    {
        let state = empty_state(alloc);
        Catalogue {
            layers,
            ledger: Ledger { settings, state },
            links: Links::empty(),
        }
    }

    /// A catalogue with this state, whose kept outputs emit these links. No memory is taken.
    pub fn over(layers: L, settings: Settings, state: Box<State>, links: Links) -> Catalogue<L>
        requires bounds { AreSettings settings }
        requires steady { IsSteady L.rules links state.value }
        requires begun { AreBegun state.value }
        ensures state { result.state ≡ state.value }
        ensures settings { result.settings ≡ settings }
    {
        let state = Box::into_inner(state);
        Catalogue {
            layers,
            ledger: Ledger { settings, state },
            links,
        }
    }

    /// A copy of what the catalogue holds, to which it can be put back. The only error is want of memory.
    pub fn saved(&self, alloc: Global) -> Result<Saved<L>, AllocError>
        ensures { IfOk result (λ saved. saved ≡ self.now.state) }
    {
        let records = self.ledger.state.records.duplicate(alloc)?;
        self.saved_with(alloc, records)
    }

    /// What the catalogue holds, over a copy of its records; all else is shared. The only error is want of memory.
    pub fn saved_with(&self, alloc: Global, records: Records) -> Result<Saved<L>, AllocError>
        requires { records ≡ self.now.state.records }
        ensures { IfOk result (λ saved. saved ≡ self.now.state) }
    {
        let links = self.links.share()?;
        let state = self.ledger.state.with_records(records)?;
        Ok(Saved {
            held: Box::new(alloc, Held { state, links })?,
            layers: PhantomData,
        })
    }

    /// Exchanges what the catalogue holds with what was saved. No memory is taken.
    pub fn exchange(&mut self, saved: &mut Saved<L>)
        ensures state { self.new.state ≡ saved.old }
        ensures saved { saved.new ≡ self.old.state }
        ensures settings { self.new.settings ≡ self.old.settings }
    {
        mem::swap(&mut self.ledger.state, &mut saved.held.state);
        mem::swap(&mut self.links, &mut saved.held.links);
    }

    /// Puts the catalogue back to what it held when it was saved. No memory is taken.
    pub fn put_back(&mut self, mut saved: Saved<L>)
        ensures state { self.new.state ≡ saved }
        ensures settings { self.new.settings ≡ self.old.settings }
    {
        self.exchange(&mut saved);
    }

    /// A provider's inputs change, and what follows from that. A serial that is the last one again changes nothing. Neither
    /// that nor a lower serial takes memory.
    pub fn mutate(
        &mut self,
        alloc: Global,
        provider: &Text,
        mutation: &Mutation,
    ) -> Result<Acted, CoreFault>
        ensures state { self.new.state ≡ after result self.old.state (step L.rules self.old.settings (Mutate provider.now (given provider.now mutation.now)) self.old.state) }
        ensures settings { self.new.settings ≡ self.old.settings }
        ensures reply { IsReply result (refusal L.rules self.old.settings (Mutate provider.now (given provider.now mutation.now)) self.old.state) (acted provider.now (given provider.now mutation.now) self.old.state) }
        ensures again { (given provider.now mutation.now).serial ≡ (source_at (get self.old.state.providers provider.now)).serial → result ≡ Ok Acted.Again }
        ensures old { (given provider.now mutation.now).serial < (source_at (get self.old.state.providers provider.now)).serial → result ≡ Err (CoreFault.OldSerial (source_at (get self.old.state.providers provider.now)).serial) }
    {
        let last = last_serial(&self.ledger.state, provider);
        let serial = serial_of(mutation);
        if serial < last {
            return Err(CoreFault::OldSerial(last));
        }
        if serial == last {
            return Ok(Acted::Again);
        }
        let came = mutated(
            alloc,
            &self.layers,
            &self.ledger.settings,
            provider,
            mutation,
            &mut self.ledger.state,
            &mut self.links,
        );
        with_reply(answered(came), Acted::Now)
    }

    /// Puts a text on the shelf; every record that reads its name is due.
    pub fn shelf_put(&mut self, alloc: Global, name: &Text, body: &Text) -> Result<(), CoreFault>
        ensures state { self.new.state ≡ after result self.old.state (step L.rules self.old.settings (ShelfPut name.now body.now) self.old.state) }
        ensures settings { self.new.settings ≡ self.old.settings }
        ensures reply { IsReply result (refusal L.rules self.old.settings (ShelfPut name.now body.now) self.old.state) tt }
    {
        let came = shelf_put(
            alloc,
            &self.layers,
            &self.ledger.settings,
            name,
            body,
            &mut self.ledger.state,
            &mut self.links,
        );
        answered(came)
    }

    /// Drops a text from the shelf. A name that the shelf hasn't is not found, without memory.
    pub fn shelf_drop(&mut self, alloc: Global, name: &Text) -> Result<(), CoreFault>
        ensures state { self.new.state ≡ after result self.old.state (step L.rules self.old.settings (ShelfDrop name.now) self.old.state) }
        ensures settings { self.new.settings ≡ self.old.settings }
        ensures reply { IsReply result (refusal L.rules self.old.settings (ShelfDrop name.now) self.old.state) tt }
        ensures not_found { get self.old.state.shelf name.now ≡ None → result ≡ Err CoreFault.NotFound }
    {
        if self.ledger.state.shelf.get(name).is_none() {
            return Err(CoreFault::NotFound);
        }
        let came = shelf_drop(
            alloc,
            &self.layers,
            &self.ledger.settings,
            name,
            &mut self.ledger.state,
            &mut self.links,
        );
        answered(came)
    }

    /// Forgets a record or an orphan with all that it emitted. What is still offered for the reference gets a new number. A
    /// reference that is neither is not found, without memory.
    pub fn forget(&mut self, alloc: Global, reference: &Ref) -> Result<(), CoreFault>
        ensures state { self.new.state ≡ after result self.old.state (step L.rules self.old.settings (Forget reference.now) self.old.state) }
        ensures settings { self.new.settings ≡ self.old.settings }
        ensures reply { IsReply result (refusal L.rules self.old.settings (Forget reference.now) self.old.state) tt }
        ensures not_found { its_number self.old.state reference.now ≡ None → result ≡ Err CoreFault.NotFound }
    {
        if number_of(&self.ledger.state, reference).is_none() {
            return Err(CoreFault::NotFound);
        }
        let came = forget(
            alloc,
            &self.layers,
            &self.ledger.settings,
            reference,
            &mut self.ledger.state,
            &mut self.links,
        );
        answered(came)
    }

    /// Runs rounds until no record is due at this moment, and then stitches all marked references.
    pub fn settle(&mut self, alloc: Global, now: u64) -> Result<Counts, Cut>
        requires { now < 2 ^ 53 }
        ensures settings { self.new.settings ≡ self.old.settings }
        ensures state { IfOk result (λ x. self.new.state ≡ (try_settle L.rules self.old.settings now None self.old.state).state) }
        ensures counts { IfOk result (λ x. x ≡ counts (try_settle L.rules self.old.settings now None self.old.state)) }
        ensures quiet { IfOk result (λ x. Quiet self.new.state now) }
        ensures ended { IfOk result (λ x. (try_settle L.rules self.old.settings now None self.old.state).stop ≡ None) }
        ensures cut { IfErr result (λ x. IsCutSettle L.rules self.old.settings now self.old.state self.new.state x) }
    {
        let mut reached = None;
        settle_state(
            alloc,
            &self.layers,
            &self.ledger.settings,
            now,
            &mut self.ledger.state,
            &mut self.links,
            &mut reached,
        )
    }

    /// Settles as `settle` does, and gives beside its answer the references that its events reached: beyond them the state before and the one after
    /// are the same in all that a store keeps but the counters. None where memory lacked for them, or where they are more than rows that hold one.
    pub fn settle_reaching(
        &mut self,
        alloc: Global,
        now: u64,
    ) -> (Result<Counts, Cut>, Option<Listing<Ref>>)
        requires { now < 2 ^ 53 }
        ensures settings { self.new.settings ≡ self.old.settings }
        ensures state { IfOk result.0 (λ x. self.new.state ≡ (try_settle L.rules self.old.settings now None self.old.state).state) }
        ensures counts { IfOk result.0 (λ x. x ≡ counts (try_settle L.rules self.old.settings now None self.old.state)) }
        ensures quiet { IfOk result.0 (λ x. Quiet self.new.state now) }
        ensures ended { IfOk result.0 (λ x. (try_settle L.rules self.old.settings now None self.old.state).stop ≡ None) }
        ensures cut { IfErr result.0 (λ x. IsCutSettle L.rules self.old.settings now self.old.state self.new.state x) }
        ensures reaches { IsWithin result.1 self.old.state self.new.state }
    {
        let mut reached = Some(Listing::new(alloc));
        let reply = settle_state(
            alloc,
            &self.layers,
            &self.ledger.settings,
            now,
            &mut self.ledger.state,
            &mut self.links,
            &mut reached,
        );
        (reply, reached)
    }

    /// Does the first events of a settle, `most` of them at most, and gives how many stand: fewer where there are no more, where the next is
    /// refused, or where memory lacks. Another settle goes on from there.
    pub fn settle_within(&mut self, alloc: Global, now: u64, most: u64) -> u64
        requires moment { now < 2 ^ 53 }
        requires few { most < 2 ^ 64 - 1 }
        ensures most { result ≤ most }
        ensures settings { self.new.settings ≡ self.old.settings }
        ensures state { self.new.state ≡ (try_settle L.rules self.old.settings now (Some result) self.old.state).state }
        ensures events { (try_settle L.rules self.old.settings now (Some result) self.old.state).events ≡ result }
        ensures none { result ≡ 0 → self.new.state ≡ self.old.state }
    {
        settle_begun(
            alloc,
            &self.layers,
            &self.ledger.settings,
            most,
            now,
            &mut self.ledger.state,
            &mut self.links,
        )
    }

    /// Stores the document of an order's parts, where the order is that of the present mark with the present parts. Any other
    /// is late and changes nothing.
    pub fn put_stitch(
        &mut self,
        alloc: Global,
        stitched: &Stitched<'_, L>,
    ) -> Result<Placed, CoreFault>
        ensures state { self.new.state ≡ after result self.old.state (step L.rules self.old.settings (PutStitch stitched.now.order.now) self.old.state) }
        ensures settings { self.new.settings ≡ self.old.settings }
        ensures reply { IsReply result (refusal L.rules self.old.settings (PutStitch stitched.now.order.now) self.old.state) (placed L.rules stitched.now.order.now self.old.state) }
    {
        match stitch_reply(
            alloc,
            &self.layers,
            stitched,
            &self.links,
            &self.ledger.state,
        ) {
            Ok(placed) => {
                let came = put_stitch(
                    alloc,
                    &self.layers,
                    &self.ledger.settings,
                    stitched,
                    &mut self.ledger.state,
                    &self.links,
                );
                with_reply(answered(came), placed)
            }
            Err(_) => Err(CoreFault::NoMemory),
        }
    }

    /// Makes a record due at once. No memory is taken.
    pub fn refresh(&mut self, reference: &Ref) -> Result<(), CoreFault>
        ensures state { self.new.state ≡ after result self.old.state (step L.rules self.old.settings (Refresh reference.now) self.old.state) }
        ensures settings { self.new.settings ≡ self.old.settings }
        ensures reply { IsReply result (refusal L.rules self.old.settings (Refresh reference.now) self.old.state) tt }
        ensures memory { result ≡ Err CoreFault.NoMemory → ⊥ }
    {
        let fault = refresh(
            &self.layers,
            &self.ledger.settings,
            reference,
            &mut self.ledger.state,
        );
        answered(Ok(fault))
    }

    /// Forgets the record or orphan with this number. A number that none has is not found, without memory.
    pub fn forget_number(&mut self, alloc: Global, number: u64) -> Result<(), CoreFault>
        ensures state { self.new.state ≡ after result self.old.state (step L.rules self.old.settings (ForgetNumber number) self.old.state) }
        ensures settings { self.new.settings ≡ self.old.settings }
        ensures reply { IsReply result (refusal L.rules self.old.settings (ForgetNumber number) self.old.state) tt }
        ensures not_found { ref_at self.old.state number ≡ None → result ≡ Err CoreFault.NotFound }
    {
        if with_number(&self.ledger.state, number).is_none() {
            return Err(CoreFault::NotFound);
        }
        let came = forget_number(
            alloc,
            &self.layers,
            &self.ledger.settings,
            number,
            &mut self.ledger.state,
            &mut self.links,
        );
        answered(came)
    }

    /// The reference of a record or an orphan with this number. No memory is taken.
    pub fn ref_at(&self, number: u64) -> Option<&Ref>
        ensures { option_map (λ r. r.now) result ≡ ref_at self.now.state number }
    {
        with_number(&self.ledger.state, number)
    }

    /// The next reference that is a record or an orphan, or the first. No memory is taken.
    pub fn after(&self, reference: Option<&Ref>) -> Option<&Ref>
        ensures { option_map (λ r. r.now) result ≡ next_known self.now.state (option_map (λ r. r.now) reference.entry) }
    {
        next_of(&self.ledger.state, reference)
    }

    /// Leases the record that is due first and free, and gives its order; none where nothing is due and free.
    pub fn take(&mut self, alloc: Global, now: u64) -> Result<Option<Order>, CoreFault>
        requires { now < 2 ^ 53 }
        ensures state { self.new.state ≡ after result self.old.state (step L.rules self.old.settings (Take now) self.old.state) }
        ensures settings { self.new.settings ≡ self.old.settings }
        ensures reply { IsReply result (refusal L.rules self.old.settings (Take now) self.old.state) (taken L.rules self.old.settings now self.old.state) }
    {
        let came = take_first(
            alloc,
            &self.layers,
            &self.ledger.settings,
            now,
            &mut self.ledger.state,
        );
        answered_with(came)
    }

    /// Takes in the result of an order's work, where the order is that of the present lease. Any other is late and changes
    /// nothing.
    pub fn finish(
        &mut self,
        alloc: Global,
        done: &Done<'_, L>,
        now: u64,
    ) -> Result<Finished, CoreFault>
        requires { now < 2 ^ 53 }
        ensures state { self.new.state ≡ after result self.old.state (step L.rules self.old.settings (Finish done.now.order.now now) self.old.state) }
        ensures settings { self.new.settings ≡ self.old.settings }
        ensures reply { IsReply result (refusal L.rules self.old.settings (Finish done.now.order.now now) self.old.state) (finished L.rules done.now.order.now self.old.state) }
    {
        match finish_reply(alloc, &self.layers, done, &self.ledger.state) {
            Ok(reply) => {
                let came = finish(
                    alloc,
                    &self.layers,
                    &self.ledger.settings,
                    done,
                    now,
                    &mut self.ledger.state,
                    &mut self.links,
                );
                with_reply(answered(came), reply)
            }
            Err(_) => Err(CoreFault::NoMemory),
        }
    }

    /// The order of the mark with the least ticket above `after`, with the parts of its reference; none where no mark has such
    /// a ticket.
    pub fn take_stitch(&self, alloc: Global, after: u64) -> Result<Option<StitchOrder>, CoreFault>
        ensures ok { IfOk result (λ o. o ≡ next_stitch L.rules self.now.state after) }
        ensures err { IfErr result (λ e. e ≡ CoreFault.NoMemory) }
    {
        match stitch_after(alloc, &self.layers, &self.links, &self.ledger.state, after) {
            Ok(order) => Ok(order),
            Err(_) => Err(CoreFault::NoMemory),
        }
    }

    /// Whether no record is due at this moment and no reference is marked. No memory is taken.
    pub fn quiet(&self, now: u64) -> bool
        ensures { IsTrue result ↔ Quiet self.now.state now }
    {
        is_quiet(&self.ledger.state, now)
    }

    /// How many records, orphans, due records, live leases and marks there are. No memory is taken.
    pub fn state(&self, now: u64) -> StateCounts
        ensures { result ≡ state_counts self.now.state now }
    {
        counts_of(&self.ledger.state, now)
    }

    /// All that the catalogue holds, to be read.
    pub fn view(&self) -> &State
        ensures state { result.now ≡ self.now.state }
        ensures records { IsTrue (is_sorted text_cmp result.now.records) }
    {
        &self.ledger.state
    }

    /// All that the catalogue holds, of which what must hold between two events holds.
    pub fn sound_state(&self) -> &State
        ensures state { result.now ≡ self.now.state }
        ensures sound { Sound L.rules self.now.state }
        ensures small { AreSmall self.now.state }
    {
        &self.ledger.state
    }

    /// The documents, in order of reference. Where the catalogue is quiet they are those computed afresh from its inputs.
    pub fn docs(&self) -> &Map<Ref, Node>
        ensures docs { result.now ≡ self.now.state.documents }
        ensures fresh { (now : ℕ) → Quiet self.now.state now → IsFresh L.rules self.now.state }
    {
        self.ledger.state.documents.documents()
    }

    /// The documents as an index, which answers filters and orders.
    pub fn index(&self) -> &Index
        ensures { result.now ≡ self.now.state.documents }
    {
        &self.ledger.state.documents
    }

    /// Brings the index up to date for at most `most` of the documents that were stored or removed since it was asked to last. Contracts see no
    /// difference: what isn't listed yet is asked one by one. Where memory is wanted, some wait on.
    pub fn list_documents(&mut self, alloc: Global, most: usize)
        ensures { self.new ≡ self.old }
    {
        let _listed = list_pending(alloc, &mut self.ledger.state.documents, most);
    }

    /// The document of a reference. Where the catalogue is quiet the documents are those computed afresh from its inputs.
    pub fn get(&self, reference: &Ref) -> Option<&Node>
        ensures document { option_map (λ x. x.now) result ≡ get self.now.state.documents reference.now }
        ensures fresh { (now : ℕ) → Quiet self.now.state now → IsFresh L.rules self.now.state }
    {
        self.docs().get(reference)
    }

    /// The number of a record or an orphan, which its `uid` shows.
    pub fn number_of(&self, reference: &Ref) -> Option<u64>
        ensures { result ≡ its_number self.now.state reference.now }
    {
        number_of(&self.ledger.state, reference)
    }

    /// A record's issues.
    pub fn issues(&self, reference: &Ref) -> Option<&Listing<Issue>>
        ensures { option_map (λ x. x.now) result ≡ issues_at self.now.state reference.now }
    {
        issues_of(&self.ledger.state, reference)
    }

    /// Whether what is known under a reference is an orphan; none where nothing is known.
    pub fn resting(&self, reference: &Ref) -> Option<bool>
        ensures { result ≡ resting self.now.state reference.now }
    {
        rests(&self.ledger.state, reference)
    }

    /// The row at this place, from 0, among those that don't hold their reference, by reference and then by arrival; none where
    /// there are no more. No memory is taken, but each row is asked once for each place up to this one.
    pub fn waiting(&self, place: u64) -> Option<&Row>
        ensures { option_map (λ x. x.now) result ≡ option_map (λ e. e.1) (slice_get (waiting self.now.state) place) }
    {
        waiting_at(&self.ledger.state, place)
    }

    /// The row that holds a reference.
    pub fn holder(&self, reference: &Ref) -> Option<&Row>
        ensures { option_map (λ x. x.now) result ≡ holding self.now.state.rows self.now.state.holders reference.now }
    {
        row_of(
            &self.ledger.state.rows,
            &self.ledger.state.holders,
            reference,
        )
    }
}
