//! The loop of what works the orders.
ghost use Rattle.std.specs.Prelude.{◌≡◌};
ghost use Rattle.cat_desk.specs.Deed.{Deed};
ghost use Rattle.cat_workers.specs.Kinds.{is_finished, order_in, worker};
ghost use Rattle.cat_workers.specs.Rounds.{BringsBack, IsRound, Loops, is_back};
ghost use Rattle.cat_workers.specs.Steps.{DoesGated};

use crate::desk::WorkDesk;
use crate::gate::{Gate, GateCall};
use crate::round::goes_on;
use cat_desk::command::Reply;
use cat_model::types::Order;
use std::alloc::Global;
use std::sync::Wait;

// The order that a reply gives.
fn order_in(reply: Reply) -> Option<Order>
    ensures { result ≡ order_in reply }
{
    match reply {
        Reply::Taken(order) => order,
        _other => None,
    }
}

// Whether an order was worked and its result counts or is late.
fn is_finished(brought: &Option<Reply>) -> bool
    ensures { result ≡ is_back is_finished brought.now }
{
    matches!(brought, Some(Reply::Finished(_)))
}

// Takes an order, through the gate.
fn take<L, D: WorkDesk<L>, G: Gate>(alloc: Global, desk: &mut D, gate: &G) -> Reply
    ensures { DoesGated D.acts (G.told gate.now) desk.old Deed.Take desk.new result }
{
    gate.before(GateCall::Take);
    desk.take(alloc)
}

// Works an order and brings its result back, through the gate. Gives what was answered, unless there was no memory to work it.
fn finish<L, D: WorkDesk<L>, G: Gate>(
    alloc: Global,
    layers: &L,
    desk: &mut D,
    gate: &G,
    order: &Order,
) -> Option<Reply>
    ensures { BringsBack D.acts (G.told gate.now) (Deed.Finish order.now) result desk.old desk.new }
{
    gate.before(GateCall::Finish(order.token));
    desk.finish(alloc, layers, order).ok()
}

// Takes an order, works it and brings its result back. Answers whether all of this came to pass.
fn work<L, D: WorkDesk<L>, G: Gate>(alloc: Global, layers: &L, desk: &mut D, gate: &G) -> bool
    ensures { IsRound worker D.acts (G.told gate.now) 0 0 result desk.old desk.new }
{
    let taken = take(alloc, desk, gate);
    match order_in(taken) {
        Some(order) => is_finished(&finish(alloc, layers, desk, gate, &order)),
        None => false,
    }
}

/// Takes orders, works them and brings their results back, round by round. It ends after an idle round at which the gate says `Stop`.
///
/// A round is idle where no order was taken, the finish was refused, or there was no memory to work the order.
pub fn work_loop<R: Wait, L, D: WorkDesk<L>, G: Gate>(
    rt: &R,
    alloc: Global,
    layers: &L,
    desk: &mut D,
    gate: &G,
)
    ensures { Loops worker D.acts (G.told gate.now) (G.said gate.now) desk.old desk.new }
{
    for _ in rt.forever() {
        let busy = work(alloc, layers, desk, gate);
        if !goes_on(gate, busy) {
            return;
        }
    }
}
