//! The turns, and the passes to them.
ghost use Rattle.std.specs.Prelude.{◌≡◌, ◌≢◌, ◌⊎◌, ℕ, ◌+◌, ◌%◌, ◌^◌, ◌<◌, ◌≤◌, [], ◌∷◌, All, IfOk, IfErr};
ghost use Rattle.std.specs.Fn.{FnOnceReturnsAtMut};
ghost use mathlib.Core.List.{IsPrefix};
ghost use denote.Ref.{MutBor};
ghost use Rattle.std.specs.declared.option.Option.TheVariants.{None, Some};
ghost use Rattle.cat_turns.specs.declared.law.Stage.TheVariants.{Idle, Out};
ghost use Rattle.cat_turns.specs.Law.{GrowsBeside, GrowsBy, IsMet, joined, view};
ghost use Rattle.cat_turns.specs.Steps.{Carries, Has};
ghost use Rattle.cat_turns.specs.Turns.{AreOut, Mine, Place, IsSamePass, IsSameView};

use crate::law::{Held, Law, View};
use crate::plays::{Draw, Fork, Look, Merge, PassOn, PutBack, Tell};
use crate::tells::Tells;
use atomic_table::{Refused, Seat, Table};
use std::alloc::{AllocFailed, Global};
use std::hint::spin_loop;
use std::marker::Model;
use std::sync::Wait;
use thiserror::Error;

// The word of the list's length.
const LENGTH: usize = 0;

// The word of the next ticket.
const TICKET: usize = 1;

// The word of the ticket that is served.
const SERVING: usize = 2;

/// The most numbers that are drawn.
const MOST: u64 = 1 << 59;

const LOW_BITS: u64 = 0xffff_ffff;

/// So often a caller looks for its turn before it parks, which takes some ten microseconds, as a turn does. Callers that look for longer hold the processors
/// that those need which are woken for their turn.
const LOOKS: u32 = 200;

/// There was no memory.
#[derive(Clone, Copy, Debug, Error)]
#[error("out of memory")]
pub struct NoMemory;

/// No pass is given out: so many passes are out, and so many numbers are drawn.
#[derive(Clone, Copy, Debug, Error)]
#[error("no seat is free: {out} passes are out, and {drawn} numbers are drawn")]
pub struct NoSeat {
    pub out: u64,
    pub drawn: u64,
}

/// How the turns ended.
#[derive(Drop)]
pub enum Closing<V: Tells> {
    Value(V),
    /// Other passes are out, so many with this one.
    Others(Turns<V>, Pass<V>, u64),
}

/// The value, its seats, and the order in which they have it.
#[derive(Drop)]
pub struct Turns<V: Tells> {
    table: Table<Held<V>, View<V::Entry>, (), Law<V>, Global>,
    seats: u64,
}

impl<V: Tells> Model for Turns<V> {
    ghost use Rattle.cat_turns.specs.Turns.{Place};
    ghost use Rattle.std.specs.Prelude.{◌≡◌, ◌<◌};

    ghost Value = { Place };

    ghost view = { λ t. record { id = t.table.shared.table_id; seats = t.seats } };

    ghost invariant = { λ t. (t.table.shared.table_id.words ≡ 3) × (t.table.shared.table_id.slots ≡ 1) × (0 < t.seats) };
}

/// The right to act on the value, one caller's own.
#[derive(Drop)]
pub struct Pass<V: Tells> {
    seat: Seat<Held<V>, View<V::Entry>>,
    number: u64,
}

impl<V: Tells> Model for Pass<V> {
    ghost use Rattle.cat_turns.specs.Turns.{Mine};
    ghost use Rattle.std.specs.Prelude.{◌≡◌, []};
    ghost use Rattle.std.specs.declared.option.Option.TheVariants.{Some};
    ghost use Rattle.cat_turns.specs.declared.law.Stage.TheVariants.{Idle};

    ghost Value = { Mine V.Entry };

    ghost view = { λ p. record { turns = p.seat.table_id; number = p.number; seen = p.seat.me.0.seen; came = p.seat.me.0.came; gone = p.seat.me.0.gone } };

    ghost invariant = { λ p. (p.seat.me.1 ≡ []) × (p.seat.me.0.stage ≡ Idle) × (p.seat.me.0.number ≡ Some p.number) };
}

impl<V: Tells> Pass<V> {
    /// The number that no other pass of its turns has. The first pass has 0.
    pub fn number(&self) -> u64
        ensures { result ≡ self.now.number }
    {
        self.number
    }
}

impl<V: Tells> Turns<V> {
    ghost use Rattle.cat_turns.specs.Closing.{IfValue, IfOthers};

    /// Turns at this value with so many seats, and the first pass.
    pub fn new(alloc: Global, value: V, seats: u64) -> Result<(Turns<V>, Pass<V>), NoMemory>
    where
        V: Drop,
        requires some_seat { 0 < seats }
        requires empty { V.list value ≡ [] }
        ensures turns { IfOk result (λ r. r.0.seats ≡ seats) }
        ensures pass { IfOk result (λ r. (r.1.turns ≡ r.0.id) × (r.1.number ≡ 0) × (r.1.seen ≡ []) × (r.1.came ≡ 0) × (r.1.gone ≡ 0)) }
    {
        let mut slots = Vec::new(alloc);
        if let Err(failed) = slots.push(Held {
            value,
            out: 1,
            drawn: 1,
        }) {
            let AllocFailed { value } = failed;
            drop(value);
            drop(slots);
            return Err(NoMemory);
        }
        match Table::new(alloc, &[0, 0, 0], slots, &()) {
            Ok((table, seat)) => Ok((Turns { table, seats }, Pass { seat, number: 0 })),
            Err(refused) => {
                let Refused { slots } = refused;
                drop(slots);
                Err(NoMemory)
            }
        }
    }

    /// Waits for the turn, and does the work on the value. The work may add entries of this pass to the list, and nothing else.
    pub fn act<T, F: FnOnce(&mut V) -> T, R: Wait>(&self, rt: &R, pass: &mut Pass<V>, work: F) -> T
        requires own { pass.old.turns ≡ self.now.id }
        requires callable { (p : MutBor V) → GrowsBeside V.pass_of pass.old.number pass.old.seen (V.list p.now) → F.pre work p }
        requires grows { (before : V) (after : V) (r : T) → GrowsBeside V.pass_of pass.old.number pass.old.seen (V.list before) → FnOnceReturnsAtMut F.FnOnce work before r after → GrowsBy V.pass_of pass.old.number (V.list before) (V.list after) }
        ensures same { IsSamePass pass.old pass.new }
        ensures acts { (before : V) × (after : V) × GrowsBeside V.pass_of pass.old.number pass.old.seen (V.list before) × FnOnceReturnsAtMut F.FnOnce work before result after × (pass.new.seen ≡ V.list after) }
    {
        let ticket = self.enter(rt, &mut pass.seat);
        let answer = self.change(&mut pass.seat, work);
        self.leave(&mut pass.seat, ticket);
        answer
    }

    /// A second pass, which has seen as much. There is none exactly where as many passes are out as there are seats, or 2^59
    /// numbers are drawn.
    pub fn split<R: Wait>(&self, rt: &R, pass: &mut Pass<V>) -> Result<Pass<V>, NoSeat>
        requires own { pass.old.turns ≡ self.now.id }
        ensures same { IsSamePass pass.old pass.new }
        ensures seen { GrowsBeside V.pass_of pass.old.number pass.old.seen pass.new.seen }
        ensures ok { IfOk result (λ p. (p.turns ≡ pass.old.turns) × (p.seen ≡ pass.new.seen) × (p.came ≡ pass.new.came) × (p.gone ≡ pass.new.gone) × All (λ e. V.pass_of e ≢ p.number) p.seen) }
        ensures number { IfOk result (λ p. (p.number ≡ pass.new.came) × (pass.old.came < p.number) × (pass.old.number < p.number) × (p.number < 2 ^ 59)) }
        ensures free { IfOk result (λ _. self.now.seats + pass.new.gone ≢ pass.new.came) }
        ensures err { IfErr result (λ n. AreOut n.out pass.new × (n.drawn ≡ pass.new.came + 1) × ((n.out ≡ self.now.seats) ⊎ (n.drawn ≡ 2 ^ 59))) }
    {
        let ticket = self.enter(rt, &mut pass.seat);
        let answer = self.split_out(&mut pass.seat);
        self.leave(&mut pass.seat, ticket);
        answer
    }

    /// Ends the other pass. This one has seen what it had.
    pub fn join<R: Wait>(&self, rt: &R, pass: &mut Pass<V>, other: Pass<V>)
        requires own { (pass.old.turns ≡ self.now.id) × (other.turns ≡ self.now.id) }
        ensures same { IsSamePass pass.old pass.new }
        ensures seen { GrowsBeside V.pass_of pass.old.number pass.old.seen pass.new.seen }
        ensures joined { IsPrefix other.seen pass.new.seen }
        ensures number { (other.number ≢ pass.old.number) × (other.number ≤ pass.new.came) }
        ensures gone { pass.old.gone < pass.new.gone }
    {
        let Pass {
            seat: other,
            number: _,
        } = other;
        let ticket = self.enter(rt, &mut pass.seat);
        self.join_out(&mut pass.seat, other);
        self.leave(&mut pass.seat, ticket);
    }

    /// Gives the value back, if no other pass is out; else hands everything back, and says how many are.
    pub fn close<R: Wait>(self, rt: &R, pass: Pass<V>) -> Closing<V>
        requires own { pass.turns ≡ self.id }
        ensures value { IfValue result (λ v. GrowsBeside V.pass_of pass.number pass.seen (V.list v)) }
        ensures others { IfOthers result (λ t p n. (t ≡ self) × IsSamePass pass p × GrowsBeside V.pass_of pass.number pass.seen p.seen × AreOut n p × (n ≢ 1)) }
    {
        let Pass { mut seat, number } = pass;
        let ticket = self.enter(rt, &mut seat);
        let (out, _) = self.counts(&mut seat);
        if out != 1 {
            self.leave(&mut seat, ticket);
            return Closing::Others(self, Pass { seat, number }, out);
        }
        self.table.shared.load::<PutBack>(&mut seat, LENGTH);
        let Turns { table, seats: _ } = self;
        let mut closed = table.close_with(seat);
        let Held {
            value,
            out: _,
            drawn: _,
        } = closed.take(0);
        closed.free();
        Closing::Value(value)
    }

    // Draws a ticket, and waits until it is served.
    fn enter<R: Wait>(&self, rt: &R, seat: &mut Seat<Held<V>, View<V::Entry>>) -> u64
        requires own { seat.old.table_id ≡ self.now.id }
        requires idle { (seat.old.me.0.stage ≡ Idle) × (seat.old.me.1 ≡ []) }
        requires numbered { (n : ℕ) × (seat.old.me.0.number ≡ Some n) }
        ensures same { (seat.new.table_id ≡ seat.old.table_id) × (seat.new.id ≡ seat.old.id) }
        ensures turn { (t : ℕ) × (h : Held V) × (result ≡ t % 2 ^ 64) × Has V.list V.pass_of seat.old.me.0 t h seat.new.me }
    {
        let shared = &self.table.shared;
        let ticket = shared.fetch_add::<Draw>(seat, TICKET, 1);
        let mut looks = 0;
        for _ in rt.forever() {
            let served = shared.load::<Look>(seat, SERVING);
            if served == ticket {
                return ticket;
            }
            if looks < LOOKS {
                looks += 1;
                spin_loop();
            } else {
                shared.park(rt, SERVING, (served & LOW_BITS) as u32);
            }
        }
        unreachable!()
    }

    // Does the work on the value that is out with the seat.
    fn change<T, F: FnOnce(&mut V) -> T>(
        &self,
        seat: &mut Seat<Held<V>, View<V::Entry>>,
        work: F,
    ) -> T
        requires own { seat.old.table_id ≡ self.now.id }
        requires out { (h : Held V) × (seat.old.me.1 ≡ (0, h) ∷ []) × ((p : MutBor V) → p.now ≡ h.value → F.pre work p) }
        ensures same { (seat.new.table_id ≡ seat.old.table_id) × (seat.new.id ≡ seat.old.id) × (seat.new.me.0 ≡ seat.old.me.0) }
        ensures done { (h : Held V) → seat.old.me.1 ≡ (0, h) ∷ [] → (h' : Held V) × (seat.new.me.1 ≡ (0, h') ∷ []) × FnOnceReturnsAtMut F.FnOnce work h.value result h'.value × (h'.out ≡ h.out) × (h'.drawn ≡ h.drawn) }
    {
        let held = seat.slot_mut(&self.table.shared, 0);
        work(&mut held.value)
    }

    // How many passes are out, and how many numbers are drawn.
    fn counts(&self, seat: &mut Seat<Held<V>, View<V::Entry>>) -> (u64, u64)
        requires own { seat.old.table_id ≡ self.now.id }
        requires out { (h : Held V) × (seat.old.me.1 ≡ (0, h) ∷ []) }
        ensures same { seat.new ≡ seat.old }
        ensures counts { (h : Held V) → seat.old.me.1 ≡ (0, h) ∷ [] → (result.0 ≡ h.out) × (result.1 ≡ h.drawn) }
    {
        let held = seat.slot_mut(&self.table.shared, 0);
        (held.out, held.drawn)
    }

    fn set_counts(&self, seat: &mut Seat<Held<V>, View<V::Entry>>, out: u64, drawn: u64)
        requires own { seat.old.table_id ≡ self.now.id }
        requires out { (h : Held V) × (seat.old.me.1 ≡ (0, h) ∷ []) }
        ensures same { (seat.new.table_id ≡ seat.old.table_id) × (seat.new.id ≡ seat.old.id) × (seat.new.me.0 ≡ seat.old.me.0) }
        ensures value { (h : Held V) → seat.old.me.1 ≡ (0, h) ∷ [] → seat.new.me.1 ≡ (0, record { value = h.value; out = out; drawn = drawn }) ∷ [] }
    {
        let held = seat.slot_mut(&self.table.shared, 0);
        held.out = out;
        held.drawn = drawn;
    }

    // Splits a seat that has the value out.
    fn split_out(&self, seat: &mut Seat<Held<V>, View<V::Entry>>) -> Result<Pass<V>, NoSeat>
        requires own { seat.old.table_id ≡ self.now.id }
        requires out { (t : ℕ) × (h : Held V) × Carries V.list V.pass_of t h seat.old.me }
        ensures same { (seat.new.table_id ≡ seat.old.table_id) × (seat.new.id ≡ seat.old.id) × IsSameView seat.old.me.0 seat.new.me.0 }
        ensures out { (t : ℕ) (h : Held V) → Carries V.list V.pass_of t h seat.old.me → (h' : Held V) × Carries V.list V.pass_of t h' seat.new.me × (h'.value ≡ h.value) }
        ensures ok { IfOk result (λ p. (p.turns ≡ seat.old.table_id) × (p.seen ≡ seat.old.me.0.seen) × (p.came ≡ seat.new.me.0.came) × (p.gone ≡ seat.new.me.0.gone) × (p.number ≡ seat.old.me.0.came + 1) × (p.number < 2 ^ 59)) }
        ensures later { (seat.old.me.0.came ≤ seat.new.me.0.came) × (seat.new.me.0.gone ≡ seat.old.me.0.gone) }
        ensures came { IfOk result (λ _. (seat.new.me.0.came ≡ seat.old.me.0.came + 1) × (seat.new.me.0.gone ≡ seat.old.me.0.gone) × (self.now.seats + seat.old.me.0.gone ≢ seat.old.me.0.came + 1)) }
        ensures err { IfErr result (λ n. (seat.new.me.0 ≡ seat.old.me.0) × (n.out + seat.old.me.0.gone ≡ seat.old.me.0.came + 1) × (n.drawn ≡ seat.old.me.0.came + 1) × ((n.out ≡ self.now.seats) ⊎ (n.drawn ≡ 2 ^ 59))) }
    {
        let (out, drawn) = self.counts(seat);
        if out == self.seats || drawn == MOST {
            return Err(NoSeat { out, drawn });
        }
        let chair = self.table.shared.split_seat::<Fork>(seat);
        self.set_counts(seat, out + 1, drawn + 1);
        Ok(Pass {
            seat: chair,
            number: drawn,
        })
    }

    // Ends another seat by one that has the value out.
    fn join_out(
        &self,
        seat: &mut Seat<Held<V>, View<V::Entry>>,
        other: Seat<Held<V>, View<V::Entry>>,
    )
        requires own { (seat.old.table_id ≡ self.now.id) × (other.table_id ≡ self.now.id) }
        requires out { (t : ℕ) × (h : Held V) × Carries V.list V.pass_of t h seat.old.me × (seat.old.me.0.gone ≤ seat.old.me.0.came) }
        requires numbered { (n : ℕ) × (seat.old.me.0.number ≡ Some n) }
        requires other { (m : ℕ) × (other.me.0.stage ≡ Idle) × (other.me.0.number ≡ Some m) × (other.me.1 ≡ []) }
        ensures same { (seat.new.table_id ≡ seat.old.table_id) × (seat.new.id ≡ seat.old.id) × (seat.new.me.0 ≡ joined seat.old.me.0 other.me.0) }
        ensures out { (t : ℕ) (h : Held V) → Carries V.list V.pass_of t h seat.old.me → (h' : Held V) × Carries V.list V.pass_of t h' seat.new.me × (h'.value ≡ h.value) }
    {
        self.table.shared.join_seat::<Merge>(seat, other);
        let (out, drawn) = self.counts(seat);
        self.set_counts(seat, out - 1, drawn);
    }

    // Tells the length of the list, puts the value back, and serves the next.
    fn leave(&self, seat: &mut Seat<Held<V>, View<V::Entry>>, ticket: u64)
        requires own { seat.old.table_id ≡ self.now.id }
        requires out { (t : ℕ) × (h : Held V) × (n : ℕ) × (ticket ≡ t % 2 ^ 64) × Carries V.list V.pass_of t h seat.old.me × (seat.old.me.0.number ≡ Some n) × GrowsBy V.pass_of n seat.old.me.0.seen (V.list h.value) }
        ensures same { (seat.new.table_id ≡ seat.old.table_id) × (seat.new.id ≡ seat.old.id) }
        ensures left { (h : Held V) → seat.old.me.1 ≡ (0, h) ∷ [] → (seat.new.me ≡ (view Idle seat.old.me.0.number (V.list h.value) seat.old.me.0.came seat.old.me.0.gone [] None, [])) × IsPrefix seat.old.me.0.noted (V.list h.value) × IsMet seat.old.me.0.came seat.old.me.0 }
    {
        let shared = &self.table.shared;
        let length = seat.slot_mut(shared, 0).value.entries();
        shared.store::<Tell>(seat, LENGTH, length);
        let next = ticket.wrapping_add(1);
        shared.store::<PassOn>(seat, SERVING, next);
        self.wake(next);
    }

    // Wakes those who wait. Who draws a ticket after this look finds `next` served.
    fn wake(&self, next: u64) {
        if self.table.shared.peek(TICKET) != next {
            self.table.shared.wake_all(SERVING);
        }
    }
}
