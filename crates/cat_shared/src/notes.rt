//! What is noted of a command.
ghost use Rattle.std.specs.Prelude.{◌≡◌, ◌⊎◌, true, IfOk};
ghost use Rattle.cat_core.specs.declared.ledger.Ledger.{Ledger};
ghost use Rattle.cat_desk.specs.Acts.{Acts};
ghost use Rattle.cat_desk.specs.Deed.{deed_of};
ghost use Rattle.cat_desk.specs.Kept.{IsLost, is_keeper, is_lost};
ghost use Rattle.cat_shared.specs.Book.{lacking};
ghost use Rattle.cat_shared.specs.Notes.{IsNoteOf, IsNoted, is_noted, settled_note, unkept_note, worked};

use crate::entry::{Input, Noted};
use cat_core::catalogue::{Done, Stitched};
use cat_core::fault::{CoreFault, Cut};
use cat_desk::command::{Command, Reply};
use cat_model::types::{Acted, Finished, Placed};
use cat_plan::layers::Layers;
use cat_types::reference::Ref;
use std::alloc::{AllocError, Global};

// Whether a fault is the keeper's.
fn is_keeper(fault: &CoreFault) -> bool
    ensures { result ≡ is_keeper fault.now }
{
    matches!(fault, CoreFault::Keeper)
}

// Whether what was answered so acted, and is to be noted.
fn is_noted(reply: &Reply) -> bool
    ensures { result ≡ is_noted reply.now }
{
    match reply {
        Reply::Mutated(acted) => matches!(acted, Acted::Now),
        Reply::Changed => true,
        Reply::Taken(order) => order.is_some(),
        Reply::Finished(finished) => matches!(finished, Finished::Good | Finished::Bad),
        Reply::StitchTaken(_) => false,
        Reply::Placed(placed) => matches!(placed, Placed::Counted),
        Reply::Settled(counts) => counts.leases > 0 || counts.stitched > 0,
        Reply::Cut(cut) => !is_keeper(&cut.fault) && cut.events > 0,
        Reply::Refused(_) => false,
    }
}

// Whether what was answered so wasn't kept, or not all of it.
fn is_lost(reply: &Reply) -> bool
    ensures { result ≡ is_lost reply.now }
{
    match reply {
        Reply::Refused(fault) => is_keeper(fault),
        Reply::Cut(cut) => is_keeper(&cut.fault),
        _ => false,
    }
}

/// The reply to a command for which there is no room.
pub(crate) fn lacking<L: Layers>(command: &Command<Done<'_, L>, Stitched<'_, L>>) -> Reply
    ensures { result ≡ lacking (deed_of command.now) }
{
    match command {
        Command::Settle => Reply::Cut(Cut {
            events: 0,
            fault: CoreFault::NoMemory,
        }),
        _ => Reply::Refused(CoreFault::NoMemory),
    }
}

/// The reference of the order that a command brings back, if it brings one back. It shares the order's reference.
pub(crate) fn worked<L: Layers>(
    alloc: Global,
    command: &Command<Done<'_, L>, Stitched<'_, L>>,
) -> Result<Option<Ref>, AllocError>
    ensures { IfOk result (λ reference. reference ≡ worked (deed_of command.now)) }
{
    match command {
        Command::Finish(done) => Ok(Some(done.order().reference.copy(alloc)?)),
        Command::PutStitch(stitched) => Ok(Some(stitched.order().reference.copy(alloc)?)),
        _ => Ok(None),
    }
}

// What is noted of a command that acted at this moment, whose order has this reference, if it brings one back.
fn acted<L: Layers>(
    command: Command<Done<'_, L>, Stitched<'_, L>>,
    reference: Option<Ref>,
    now: u64,
    reply: &Reply,
) -> Noted
    requires acts { (old : Ledger) × (new : Ledger) × Acts L.rules now (deed_of command) old new reply.now }
    requires noted { is_noted reply.now ≡ true }
    requires reference { reference ≡ worked (deed_of command) }
    ensures { IsNoteOf now (deed_of command.entry) reply.now result }
{
    match command {
        Command::Mutate(provider, mutation) => Noted::Acted(
            Input::Mutate(provider, mutation),
            Reply::Mutated(Acted::Now),
        ),
        Command::ShelfPut(name, text) => changed(Input::ShelfPut(name, text)),
        Command::ShelfDrop(name) => changed(Input::ShelfDrop(name)),
        Command::Refresh(reference) => changed(Input::Refresh(reference)),
        Command::Forget(reference) => changed(Input::Forget(reference)),
        Command::ForgetNumber(number) => changed(Input::ForgetNumber(number)),
        Command::Take => Noted::Taken { now },
        Command::Finish(done) => Noted::Finished {
            reference: reference.unwrap(),
            token: done.order().token,
            now,
        },
        Command::TakeStitch(_) => unreachable!(),
        Command::PutStitch(stitched) => Noted::Stitched {
            reference: reference.unwrap(),
            ticket: stitched.order().ticket,
        },
        Command::Settle => settled(now, reply),
    }
}

/// What is noted of a command that came at this moment, whose order has this reference, if it brings one back: nothing where it changed nothing, and
/// that it or the rest of it wasn't kept where it wasn't.
#[tactic(auto, using(crate::proofs::Losing::done_acts))]
pub(crate) fn note<L: Layers>(
    command: Command<Done<'_, L>, Stitched<'_, L>>,
    reference: Option<Ref>,
    now: u64,
    reply: &Reply,
) -> Option<Noted>
    requires acts { (old : Ledger) × (new : Ledger) × (Acts L.rules now (deed_of command) old new reply.now ⊎ IsLost L.rules now (deed_of command) old new reply.now) }
    requires reference { reference ≡ worked (deed_of command) }
    ensures { IsNoted now (deed_of command.entry) reply.now result }
{
    if is_lost(reply) {
        Some(unkept(now, reply))
    } else if is_noted(reply) {
        Some(acted(command, reference, now, reply))
    } else {
        None
    }
}

fn changed(input: Input) -> Noted
    ensures { result ≡ Noted.Acted input Reply.Changed }
{
    Noted::Acted(input, Reply::Changed)
}

// What is noted of a command that wasn't kept: of a settle, how many events stand.
fn unkept(now: u64, reply: &Reply) -> Noted
    ensures { result ≡ unkept_note now reply.now }
{
    match reply {
        Reply::Cut(cut) => Noted::CutUnkept {
            now,
            events: cut.events,
        },
        _ => Noted::Unkept,
    }
}

// What is noted of a settle, by whether want of memory cut it.
fn settled(now: u64, reply: &Reply) -> Noted
    ensures { result ≡ settled_note now reply.now }
{
    match reply {
        Reply::Cut(
            Cut {
                events,
                fault: CoreFault::NoMemory,
            },
        ) => Noted::Cut {
            now,
            events: *events,
        },
        _ => Noted::Settled { now },
    }
}
