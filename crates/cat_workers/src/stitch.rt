//! The loop of what stitches documents.
ghost use Rattle.std.specs.Prelude.{◌≡◌};
ghost use Rattle.cat_desk.specs.Deed.{Deed};
ghost use Rattle.cat_workers.specs.Kinds.{begins_anew, is_placed, leapt, next_ticket, stitch_order_in, stitcher};
ghost use Rattle.cat_workers.specs.Rounds.{BringsBack, IsRound, Loops, is_back};
ghost use Rattle.cat_workers.specs.Steps.{DoesGated};

use crate::desk::WorkDesk;
use crate::gate::{Gate, GateCall};
use crate::round::goes_on;
use cat_desk::command::Reply;
use cat_model::types::{Placed, StitchOrder};
use std::alloc::Global;
use std::sync::Wait;

/// How many tickets further a stitcher goes whose document came late: it meets another one there, and they would make each document twice.
const LEAP: u64 = 64;

// The stitch order that a reply gives.
fn order_in(reply: Reply) -> Option<StitchOrder>
    ensures { result ≡ stitch_order_in reply }
{
    match reply {
        Reply::StitchTaken(order) => order,
        _other => None,
    }
}

// The ticket above which the next take is.
fn next_ticket(after: u64, taken: &Reply) -> u64
    ensures { result ≡ next_ticket after taken.now }
{
    match taken {
        Reply::StitchTaken(Some(order)) => order.ticket,
        Reply::StitchTaken(None) => 0,
        _ => after,
    }
}

// Whether no mark has a higher ticket, and the next take begins anew.
fn begins_anew(after: u64, taken: &Reply) -> bool
    ensures { result ≡ begins_anew after taken.now }
{
    match taken {
        Reply::StitchTaken(None) => after != 0,
        _ => false,
    }
}

// Whether a document was made and counts or is late.
fn is_placed(brought: &Option<Reply>) -> bool
    ensures { result ≡ is_back is_placed brought.now }
{
    matches!(brought, Some(Reply::Placed(_)))
}

// The ticket above which the next take is, by what came of the document of this one.
fn leapt(ticket: u64, brought: &Option<Reply>) -> u64
    ensures { result ≡ leapt ticket brought.now }
{
    match brought {
        Some(Reply::Placed(Placed::Late(_))) => ticket.saturating_add(LEAP),
        _ => ticket,
    }
}

// Takes the stitch order with the least ticket above `after`, through the gate.
fn take<L, D: WorkDesk<L>, G: Gate>(alloc: Global, desk: &mut D, gate: &G, after: u64) -> Reply
    ensures { DoesGated D.acts (G.told gate.now) desk.old (Deed.TakeStitch after) desk.new result }
{
    gate.before(GateCall::StitchTake);
    desk.take_stitch(alloc, after)
}

// Stitches the document of an order and brings it back, through the gate. Gives what was answered, unless there was no memory to stitch it.
fn put<L, D: WorkDesk<L>, G: Gate>(
    alloc: Global,
    layers: &L,
    desk: &mut D,
    gate: &G,
    order: &StitchOrder,
) -> Option<Reply>
    ensures { BringsBack D.acts (G.told gate.now) (Deed.PutStitch order.now) result desk.old desk.new }
{
    gate.before(GateCall::StitchPut(order.ticket));
    desk.put_stitch(alloc, layers, order).ok()
}

// Takes the stitch order with the least ticket above `after`, stitches its document and brings that back. Answers whether all of this
// came to pass, or no mark has a ticket above `after` and the next take begins anew.
fn stitch<L, D: WorkDesk<L>, G: Gate>(
    alloc: Global,
    layers: &L,
    desk: &mut D,
    gate: &G,
    after: &mut u64,
) -> bool
    ensures { IsRound stitcher D.acts (G.told gate.now) after.old after.new result desk.old desk.new }
{
    let last = *after;
    let taken = take(alloc, desk, gate, last);
    let ticket = next_ticket(last, &taken);
    let anew = begins_anew(last, &taken);
    match order_in(taken) {
        Some(order) => {
            let brought = put(alloc, layers, desk, gate, &order);
            *after = leapt(ticket, &brought);
            is_placed(&brought)
        }
        None => {
            *after = ticket;
            anew
        }
    }
}

/// Stitches the documents of stitch orders and brings them back, round by round, each time of the next higher ticket, and from the
/// lowest one where none is higher; where a document came late, another stitcher is there, and it goes on 64 tickets further. It ends after an idle round at which the gate says `Stop`.
///
/// A round is idle where there is no stitch order at all, a call was refused, or there was no memory to stitch the document.
pub fn stitch_loop<R: Wait, L, D: WorkDesk<L>, G: Gate>(
    rt: &R,
    alloc: Global,
    layers: &L,
    desk: &mut D,
    gate: &G,
)
    ensures { Loops stitcher D.acts (G.told gate.now) (G.said gate.now) desk.old desk.new }
{
    let mut after = 0;
    for _ in rt.forever() {
        let busy = stitch(alloc, layers, desk, gate, &mut after);
        if !goes_on(gate, busy) {
            return;
        }
    }
}
