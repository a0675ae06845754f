//! A session's state, and its answer to a line.
ghost use Rattle.std.specs.Prelude.{◌≡◌, ◌<◌, ◌≤◌, ◌-◌, ◌^◌, [], true, IfOk, IsTrue, OnErr, option_map};
ghost use Rattle.std.specs.declared.option.Option.TheVariants.{None, Some};
ghost use Rattle.std.specs.FinMap.Entries.{is_sorted};
ghost use Rattle.cat_session_lines.specs.declared.line.Line.TheVariants as asks;
ghost use Rattle.cat_session_lines.specs.Ready.{IsReady};
ghost use Rattle.cat_desk.specs.Acts.{done};
ghost use Rattle.cat_desk.specs.Deed.{Deed, deed_of};
ghost use Rattle.cat_desk.specs.Spare.{IsSpare};
ghost use Rattle.cat_affected.specs.Gathered.{IsWithin};
ghost use Rattle.cat_io.specs.Word.{AnswersLine, cut};
ghost use Rattle.cat_model.specs.Settle.{try_settle};
ghost use Rattle.cat_model.specs.Sound.{AreSmall, Sound};
ghost use Rattle.cat_model.specs.Step.{next_taken};
ghost use Rattle.cat_session.specs.Carried.{Carries, CarriesDeed, IsShort, Stays, after_whole, order_taken, put_back};
ghost use Rattle.cat_session.specs.Replies.{IsLineRefusal};
ghost use Rattle.cat_session_model.specs.Program.{program_settings, ruled_after, ruled_reply, session_start};
ghost use Rattle.cat_collections.specs.Table.{text_cmp};
ghost use Rattle.cat_session_model.specs.Session.{add_order, after_reading, order_numbered};

use crate::orders::{keep, keep_stitch, order_in, order_numbered, room_for, stitch_in};
use crate::replies::{ROOM, ended, line_refused, push_reply, unknown};
use cat_collections::listing::Listing;
use cat_collections::map::Map;
use cat_core::catalogue::{Catalogue, Done, Saved, Stitched};
use cat_core::extra::take_ref;
use cat_desk::command::Command;
use cat_desk::desk::Desk;
use cat_desk::spare::{is_long_settle, says_whole, shared, taken};
use cat_desk::timed::Timed;
use cat_io::{FixedClock, Machine};
use cat_model::types::{Order, OrphanRule, Settings, State, StitchOrder};
use cat_plan::layers::Layers;
use cat_query::ask::Ask;
use cat_replies::events::push_changed;
use cat_session_lines::fault::LineFault;
use cat_session_lines::line::Line;
use cat_session_lines::read::read_line;
use cat_types::reference::Ref;
use std::alloc::{AllocError, Global};
use std::marker::Model;

/// How long a good or bad result lasts, in milliseconds.
pub const INTERVAL: u64 = 120_000;

/// How long a lease lasts, in milliseconds.
pub const LEASE: u64 = 60_000;

/// The most stored input bytes.
pub const INPUT_LIMIT: u64 = 67_108_864;

/// What came of a line.
#[derive(Drop)]
pub struct Outcome {
    /// The reply, with an LF at the end.
    pub text: Vec<u8>,
    /// Whether the line was carried out to its end, and isn't a settle with so many leases that it should not be carried out again.
    pub repeatable: bool,
    /// The references that a settle reached, where they were gathered.
    pub reached: Option<Listing<Ref>>,
}

/// A catalogue under a rule for orphans with a clock that stands, and the orders and stitch orders that were handed out.
#[derive(Drop)]
pub struct Session<L: Layers> {
    alloc: Global,
    layers: L,
    orphans: OrphanRule,
    desk: Timed<L, FixedClock>,
    orders: Vec<Order>,
    stitches: Map<u64, StitchOrder>,
}

impl<L: Layers> Model for Session<L> {
    ghost use Rattle.std.specs.Prelude.{◌≡◌};
    ghost use Rattle.cat_session_model.specs.declared.state.RuledSession.{RuledSession};
    ghost use Rattle.cat_session_model.specs.contracts.state.RuledSession.{the_row};
    ghost use Rattle.cat_session_model.specs.Program.{program_settings};

    ghost Value = { RuledSession };

    ghost coded = { the_row.coded };

    ghost view = { λ a. record { orphans = a.orphans; session = record { state = a.desk.catalogue.state; now = a.desk.clock.moment; orders = a.orders.items; stitches = a.stitches } } };

    ghost invariant = { λ a. a.desk.catalogue.settings ≡ program_settings a.orphans };
}

// Has the desk act, and gives its reply as a line. The room for it is taken first.
fn act<L: Layers>(
    alloc: Global,
    desk: &mut Timed<L, FixedClock>,
    command: Command<Done<'_, L>, Stitched<'_, L>>,
) -> Result<Vec<u8>, AllocError>
    requires { IsShort (deed_of command) }
    ensures ok { IfOk result (λ text. CarriesDeed L.rules desk.old.clock.moment (deed_of command.entry) desk.old.catalogue desk.new.catalogue text.items) }
    ensures err { OnErr result (Stays desk.old.catalogue desk.new.catalogue) }
    ensures clock { desk.new.clock.moment ≡ desk.old.clock.moment }
{
    let mut out = Vec::with_capacity(alloc, ROOM)?;
    let reply = desk.act(alloc, command);
    push_reply(&mut out, &reply)?;
    Ok(out)
}

// Settles, and gives what came of it. The room for the reply is taken first.
fn settle<L: Layers>(alloc: Global, desk: &mut Timed<L, FixedClock>) -> Result<Outcome, AllocError>
    ensures ok { IfOk result (λ x. CarriesDeed L.rules desk.old.clock.moment Deed.Settle desk.old.catalogue desk.new.catalogue x.text.items) }
    ensures whole { IfOk result (λ x. x.repeatable ≡ true → desk.new.catalogue.state ≡ done L.rules desk.old.catalogue.settings desk.old.clock.moment None Deed.Settle desk.old.catalogue.state) }
    ensures reaches { IfOk result (λ x. IsWithin x.reached desk.old.catalogue.state desk.new.catalogue.state) }
    ensures err { OnErr result (Stays desk.old.catalogue desk.new.catalogue) }
    ensures clock { desk.new.clock.moment ≡ desk.old.clock.moment }
{
    let mut text = Vec::with_capacity(alloc, ROOM)?;
    let (reply, reached) = desk.settle_reaching(alloc);
    push_reply(&mut text, &reply)?;
    Ok(Outcome {
        text,
        repeatable: says_whole(&reply) && !is_long_settle(&reply),
        reached,
    })
}

// The reference of the record that the next take leases.
fn next_taken<L: Layers>(
    alloc: Global,
    desk: &Timed<L, FixedClock>,
) -> Result<Option<Ref>, AllocError>
    ensures { IfOk result (λ r. r ≡ next_taken desk.now.clock.moment desk.now.catalogue.state) }
{
    let now = desk.moment();
    take_ref(alloc, desk.catalogue().view(), now)
}

// The record that is due first is leased, and its order is kept. The room for the reply and for the order is taken first.
fn take<L: Layers>(
    alloc: Global,
    desk: &mut Timed<L, FixedClock>,
    orders: &mut Vec<Order>,
) -> Result<Vec<u8>, AllocError>
    ensures ok { IfOk result (λ text. CarriesDeed L.rules desk.old.clock.moment Deed.Take desk.old.catalogue desk.new.catalogue text.items) }
    ensures order { IfOk result (λ _. orders.new.items ≡ add_order (order_taken L.rules desk.old.clock.moment desk.old.catalogue) orders.old.items) }
    ensures err { OnErr result (Stays desk.old.catalogue desk.new.catalogue) }
    ensures kept { OnErr result (orders.new.items ≡ orders.old.items) }
    ensures clock { desk.new.clock.moment ≡ desk.old.clock.moment }
{
    let reference = next_taken(alloc, desk)?;
    let mut out = room_for(alloc, &reference)?;
    orders.reserve(1)?;
    let reply = desk.act(alloc, Command::Take);
    push_reply(&mut out, &reply)?;
    keep(orders, order_in(reply));
    Ok(out)
}

impl<L: Layers> Session<L> {
    /// A session over an empty catalogue, at the moment 0, under a rule for orphans. The lower layers are given twice: for the catalogue, and for what is
    /// worked of the orders that were handed out.
    pub fn new(alloc: Global, layers: L, same: L, orphans: OrphanRule) -> Session<L>
        ensures { result ≡ record { orphans = orphans; session = session_start } }
    {
        let settings = Settings {
            interval: INTERVAL,
            lease: LEASE,
            input_limit: INPUT_LIMIT,
            orphans,
        };
        Session {
            alloc,
            layers,
            orphans,
            desk: Timed::new(Catalogue::empty(alloc, same, settings), FixedClock::at(0)),
            orders: Vec::new(alloc),
            stitches: Map::new(),
        }
    }

    /// A session over a catalogue, at the moment 0, under the rule for orphans of its settings.
    pub fn over(
        alloc: Global,
        layers: L,
        catalogue: Catalogue<L>,
        orphans: OrphanRule,
    ) -> Session<L>
        requires { catalogue.settings ≡ program_settings orphans }
        ensures { result ≡ record { orphans = orphans; session = record { state = catalogue.state; now = 0; orders = []; stitches = [] } } }
    {
        Session {
            alloc,
            layers,
            orphans,
            desk: Timed::new(catalogue, FixedClock::at(0)),
            orders: Vec::new(alloc),
            stitches: Map::new(),
        }
    }

    /// What the catalogue holds, to be read.
    pub fn view(&self) -> &State
        ensures state { result.now ≡ self.now.session.state }
        ensures records { IsTrue (is_sorted text_cmp result.now.records) }
    {
        self.desk.catalogue().view()
    }

    /// All that the catalogue holds, of which what must hold between two events holds.
    pub fn sound_state(&self) -> &State
        ensures state { result.now ≡ self.now.session.state }
        ensures sound { Sound L.rules self.now.session.state }
        ensures small { AreSmall self.now.session.state }
    {
        self.desk.catalogue().sound_state()
    }

    /// The reference of the first order with this token that was handed out.
    pub fn order_reference(&self, token: u64) -> Option<&Ref>
        ensures { option_map (λ r. r.now) result ≡ option_map (λ x. x.reference) (order_numbered token self.now.session.orders) }
    {
        match order_numbered(self.orders.as_slice(), token) {
            Some(order) => Some(&order.reference),
            None => None,
        }
    }

    /// A copy of what the catalogue holds, to which the session can be put back: the spare copy, which is taken out, or a new one where there is none. The
    /// only error is want of memory.
    pub fn saved(&self, spare: &mut Option<Saved<L>>) -> Result<Saved<L>, AllocError>
        requires { IsSpare spare.old self.now.session.state }
        ensures saved { IfOk result (λ saved. saved ≡ self.now.session.state) }
        ensures none { spare.new ≡ None }
    {
        taken(self.alloc, self.desk.catalogue(), spare)
    }

    /// What was saved as a spare copy, all but its records shared with the catalogue, which holds the same records. None where memory lacks.
    pub fn shared(&self, saved: Saved<L>) -> Option<Saved<L>>
        requires { saved.records ≡ self.now.session.state.records }
        ensures { IsSpare result self.now.session.state }
    {
        shared(self.alloc, self.desk.catalogue(), saved)
    }

    /// Exchanges what the catalogue holds with what was saved. No memory is taken.
    pub fn exchange(&mut self, saved: &mut Saved<L>)
        ensures session { self.new ≡ put_back self.old saved.old }
        ensures saved { saved.new ≡ self.old.session.state }
    {
        self.desk.exchange(saved);
    }

    /// Puts the catalogue back to what it held when it was saved. No memory is taken.
    pub fn put_back(&mut self, saved: Saved<L>)
        ensures { self.new ≡ put_back self.old saved }
    {
        self.desk.put_back(saved);
    }

    /// Does the first events of a settle, `most` of them at most, and gives how many stand (`Catalogue::settle_within`).
    pub fn settle_within(&mut self, most: u64) -> u64
        requires { most < 2 ^ 64 - 1 }
        ensures most { result ≤ most }
        ensures state { self.new ≡ record self.old { session = after_reading L.rules (program_settings self.old.orphans) (cut result) asks.Settle self.old.session } }
        ensures events { (try_settle L.rules (program_settings self.old.orphans) self.old.session.now (Some result) self.old.session.state).events ≡ result }
        // Where none stands, nothing has changed.
        ensures none { result ≡ 0 → self.new ≡ self.old }
    {
        self.desk.settle_within(self.alloc, most)
    }

    // Carries out the line `settle`. The only error is want of memory: the session is then as before.
    fn settle_reaching(&mut self) -> Result<Outcome, AllocError>
        ensures ok { IfOk result (λ x. Carries L.rules asks.Settle self.old self.new x.text.items) }
        ensures whole { IfOk result (λ x. x.repeatable ≡ true → self.new ≡ after_whole L.rules asks.Settle self.old) }
        ensures reaches { IfOk result (λ x. IsWithin x.reached self.old.session.state self.new.session.state) }
        ensures err { OnErr result (self.new ≡ self.old) }
    {
        settle(self.alloc, &mut self.desk)
    }

    /// The reply to a line that is no command. The only error is want of memory.
    pub fn refused(&self, fault: LineFault) -> Result<Vec<u8>, AllocError>
        ensures { IfOk result (λ text. IsLineRefusal fault text.items) }
    {
        line_refused(self.alloc, fault)
    }

    fn set_clock(&mut self, now: u64) -> Result<Vec<u8>, AllocError>
        requires { now < 2 ^ 53 }
        ensures ok { IfOk result (λ text. Carries L.rules (asks.Clock now) self.old self.new text.items) }
        ensures err { OnErr result (self.new ≡ self.old) }
    {
        let mut out = Vec::new(self.alloc);
        push_changed(&mut out)?;
        self.desk.set_moment(now);
        Ok(out)
    }

    // The result of an order that was handed out is brought back; it is worked anew.
    fn finish(&mut self, token: u64) -> Result<Vec<u8>, AllocError>
        ensures ok { IfOk result (λ text. Carries L.rules (asks.Finish token) self.old self.new text.items) }
        ensures err { OnErr result (self.new ≡ self.old) }
    {
        match order_numbered(self.orders.as_slice(), token) {
            Some(order) => {
                let done = Done::of(self.alloc, &self.layers, order)?;
                act(self.alloc, &mut self.desk, Command::Finish(done))
            }
            None => unknown(self.alloc),
        }
    }

    // The order of the next mark is kept.
    fn stitch(&mut self, after: u64) -> Result<Vec<u8>, AllocError>
        ensures ok { IfOk result (λ text. Carries L.rules (asks.Stitch after) self.old self.new text.items) }
        ensures err { OnErr result (self.new ≡ self.old) }
    {
        let mut out = Vec::new(self.alloc);
        let reply = self.desk.act(self.alloc, Command::TakeStitch(after));
        push_reply(&mut out, &reply)?;
        keep_stitch(self.alloc, &mut self.stitches, stitch_in(reply))?;
        Ok(out)
    }

    // The document of a stitch order that was handed out is brought back; it is stitched anew.
    fn place(&mut self, ticket: u64) -> Result<Vec<u8>, AllocError>
        ensures ok { IfOk result (λ text. Carries L.rules (asks.Place ticket) self.old self.new text.items) }
        ensures err { OnErr result (self.new ≡ self.old) }
    {
        match self.stitches.get(&ticket) {
            Some(order) => {
                let stitched = Stitched::of(self.alloc, &self.layers, order)?;
                act(self.alloc, &mut self.desk, Command::PutStitch(stitched))
            }
            None => unknown(self.alloc),
        }
    }

    fn ask(&mut self, ask: &Ask) -> Result<Vec<u8>, AllocError>
        ensures ok { IfOk result (λ text. Carries L.rules (asks.Ask ask.now) self.old self.new text.items) }
        ensures err { OnErr result (self.new ≡ self.old) }
    {
        let mut out = Vec::new(self.alloc);
        let asked = self.desk.ask(self.alloc, ask, &mut out);
        ended(out, asked)
    }

    /// Carries out a line, and gives the reply with an LF at the end. The only error is want of memory: the session is then as before.
    pub fn carry_out(&mut self, line: Line) -> Result<Vec<u8>, AllocError>
        requires { IsReady line }
        ensures ok { IfOk result (λ text. Carries L.rules line self.old self.new text.items) }
        ensures err { OnErr result (self.new ≡ self.old) }
    {
        let alloc = self.alloc;
        let desk = &mut self.desk;
        match line {
            Line::Mutate(provider, mutation) => {
                act(alloc, desk, Command::Mutate(provider, mutation))
            }
            Line::ShelfPut(name, text) => act(alloc, desk, Command::ShelfPut(name, text)),
            Line::ShelfDrop(name) => act(alloc, desk, Command::ShelfDrop(name)),
            Line::Refresh(reference) => act(alloc, desk, Command::Refresh(reference)),
            Line::Forget(reference) => act(alloc, desk, Command::Forget(reference)),
            Line::Settle => act(alloc, desk, Command::Settle),
            Line::Clock(now) => self.set_clock(now),
            Line::Take => take(alloc, desk, &mut self.orders),
            Line::Finish(token) => self.finish(token),
            Line::Stitch(after) => self.stitch(after),
            Line::Place(ticket) => self.place(ticket),
            Line::Ask(ask) => self.ask(&ask),
        }
    }

    /// Carries out a line as `carry_out` does, and gives what came of it.
    pub fn carry_reaching(&mut self, line: Line) -> Result<Outcome, AllocError>
        requires { IsReady line }
        ensures ok { IfOk result (λ x. Carries L.rules line self.old self.new x.text.items) }
        ensures whole { IfOk result (λ x. x.repeatable ≡ true → self.new ≡ after_whole L.rules line self.old) }
        ensures reaches { IfOk result (λ x. IsWithin x.reached self.old.session.state self.new.session.state) }
        ensures err { OnErr result (self.new ≡ self.old) }
    {
        match line {
            Line::Settle => self.settle_reaching(),
            line => {
                let text = self.carry_out(line)?;
                Ok(Outcome {
                    text,
                    repeatable: true,
                    reached: None,
                })
            }
        }
    }

    // Reads a line and carries it out, or says why it is refused. For want of memory the session is as before.
    #[tactic(auto, unfolding(cat_session_model::specs::Session::session_after, cat_session_model::specs::Session::session_reply))]
    fn answer_line(&mut self, line: &[u8]) -> Result<Vec<u8>, AllocError>
        ensures ok { IfOk result (λ text. AnswersLine (ruled_after L.rules) (ruled_reply L.rules) self.old self.new line.now text.items) }
        ensures err { OnErr result (self.new ≡ self.old) }
    {
        match read_line(self.alloc, line) {
            Ok(line) => self.carry_out(line),
            Err(fault) => self.refused(fault),
        }
    }
}

impl<L: Layers> Machine for Session<L> {
    ghost after = { ruled_after L.rules };

    ghost reply = { ruled_reply L.rules };

    fn answer(&mut self, line: &[u8]) -> Result<Vec<u8>, AllocError> {
        self.answer_line(line)
    }
}
