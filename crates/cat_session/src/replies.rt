//! The replies of a desk as lines.
ghost use Rattle.std.specs.Prelude.{◌≡◌, ◌++◌, ◌+◌, ◌≤◌, IfOk, IsOk, OnOk, vec_capacity, vec_len};
ghost use Rattle.cat_replies.specs.Events as say;
ghost use Rattle.cat_session.specs.Replies.{IsEnded, IsLineRefusal, IsSaid, cut_line, fault_line, reply_line, shown};
ghost use Rattle.cat_desk.specs.declared.command.Reply.TheVariants as replies;

use cat_core::fault::{CoreFault, Cut};
use cat_desk::command::{Asked, Reply};
use cat_model::types::Fault;
use cat_replies::events::{
    push_acted, push_changed, push_cut_by_counter, push_cut_by_keeper, push_cut_by_memory,
    push_finished, push_nothing, push_order, push_placed, push_refused, push_settled, push_ticket,
    push_unknown,
};
use cat_replies::faults::{
    push_bad_arguments, push_bad_word, push_long_line, push_no_facet, push_no_mutation,
    push_no_query, push_no_reference,
};
use cat_session_lines::fault::LineFault;
use std::alloc::{AllocError, Global};

/// The most bytes that a reply may have beside the reference that it shows, and some. This room is taken before an event acts,
/// so that no event acts whose reply lacks memory.
pub(crate) const ROOM: usize = 128;

/// Appends a reply and LF. The refusal for want of memory has no text here, since the line is then answered by the loop.
pub(crate) fn push_reply(out: &mut Vec<u8>, reply: &Reply) -> Result<(), AllocError>
    ensures said { OnOk result (IsSaid reply.now) }
    ensures ok { OnOk result (out.new.items ≡ out.old.items ++ reply_line reply.now) }
    ensures room { IsSaid reply.now → vec_len out.old + (128 + shown reply.now) ≤ vec_capacity out.old → IsOk result }
{
    match reply {
        Reply::Mutated(acted) => push_acted(out, *acted),
        Reply::Changed => push_changed(out),
        Reply::Taken(None) | Reply::StitchTaken(None) => push_nothing(out),
        Reply::Taken(Some(order)) => push_order(out, order.token, &order.reference),
        Reply::StitchTaken(Some(order)) => push_ticket(out, order.ticket, &order.reference),
        Reply::Finished(finished) => push_finished(out, *finished),
        Reply::Placed(placed) => push_placed(out, *placed),
        Reply::Settled(counts) => push_settled(out, *counts),
        Reply::Cut(cut) => push_cut(out, *cut),
        Reply::Refused(fault) => push_fault(out, *fault),
    }
}

fn push_cut(out: &mut Vec<u8>, cut: Cut) -> Result<(), AllocError>
    ensures ok { OnOk result (out.new.items ≡ out.old.items ++ cut_line cut) }
    ensures room { vec_len out.old + 128 ≤ vec_capacity out.old → IsOk result }
{
    match cut.fault {
        CoreFault::Spent(counter) => push_cut_by_counter(out, cut.events, counter),
        CoreFault::Keeper => push_cut_by_keeper(out, cut.events),
        CoreFault::OldSerial(_)
        | CoreFault::NotFound
        | CoreFault::TooLarge(_)
        | CoreFault::NoMemory => push_cut_by_memory(out, cut.events),
    }
}

fn push_fault(out: &mut Vec<u8>, fault: CoreFault) -> Result<(), AllocError>
    ensures said { OnOk result (IsSaid (replies.Refused fault)) }
    ensures ok { OnOk result (out.new.items ≡ out.old.items ++ fault_line fault) }
    ensures room { IsSaid (replies.Refused fault) → vec_len out.old + 128 ≤ vec_capacity out.old → IsOk result }
{
    match fault {
        CoreFault::OldSerial(last) => push_refused(out, Fault::OldSerial(last)),
        CoreFault::NotFound => push_refused(out, Fault::NotFound),
        CoreFault::TooLarge(sum) => push_refused(out, Fault::TooLarge(sum)),
        CoreFault::Spent(counter) => push_refused(out, Fault::Spent(counter)),
        CoreFault::Keeper | CoreFault::NoMemory => Err(AllocError),
    }
}

/// The line of an answer: its text and LF, or why there is none.
pub(crate) fn ended(out: Vec<u8>, asked: Asked) -> Result<Vec<u8>, AllocError>
    ensures { IfOk result (λ text. IsEnded asked out.items text.items) }
{
    let mut out = out;
    match asked {
        Asked::Written => out.push(b'\n')?,
        Asked::NotFound => push_refused(&mut out, Fault::NotFound)?,
        Asked::NoFacet => push_no_facet(&mut out)?,
        Asked::NoMemory => return Err(AllocError),
    }
    Ok(out)
}

/// That no order was handed out under a number.
pub(crate) fn unknown(alloc: Global) -> Result<Vec<u8>, AllocError>
    ensures { IfOk result (λ text. text.items ≡ say.unknown) }
{
    let mut out = Vec::new(alloc);
    push_unknown(&mut out)?;
    Ok(out)
}

/// The reply to a line that is no command; none for want of memory.
pub(crate) fn line_refused(alloc: Global, fault: LineFault) -> Result<Vec<u8>, AllocError>
    ensures { IfOk result (λ text. IsLineRefusal fault text.items) }
{
    let mut out = Vec::new(alloc);
    match fault {
        LineFault::LongLine => push_long_line(&mut out)?,
        LineFault::BadWord => push_bad_word(&mut out)?,
        LineFault::BadArguments => push_bad_arguments(&mut out)?,
        LineFault::Input(fault) => push_no_mutation(&mut out, fault)?,
        LineFault::Reference(place) => push_no_reference(&mut out, place)?,
        LineFault::Query(fault) => push_no_query(&mut out, fault)?,
        LineFault::NoMemory => return Err(AllocError),
    }
    Ok(out)
}
