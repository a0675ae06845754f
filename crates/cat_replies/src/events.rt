//! Replies to events, and the answers that are no lists. A reply to an event never wants memory where room for 128 bytes, and for
//! the reference that it shows, was taken before.
ghost use Rattle.std.specs.Prelude.{◌≡◌, ◌+◌, ◌≤◌, IsOk, length, vec_len, vec_capacity};
ghost use Rattle.cat_replies.specs.Line.{Appends};
ghost use Rattle.cat_replies.specs.Events as spec;

use crate::line::{Piece, push_line, push_text};
use cat_model::types::{Acted, Counter, Counts, Fault, Finished, Placed, StateCounts};
use cat_types::reference::Ref;
use std::alloc::AllocError;

fn say(out: &mut Vec<u8>, words: &str) -> Result<(), AllocError>
    ensures appends { Appends out.old out.new result (spec.said words.now) }
    ensures short { vec_len out.old + (length words.now + 1) ≤ vec_capacity out.old → IsOk result }
{
    push_line(out, &[Piece::Text(words)])
}

/// The name of a counter, as `arrival`.
pub fn counter_text(counter: Counter) -> &'static str
    ensures text { result.now ≡ spec.counter_text counter }
    ensures short { length result.now ≤ 7 }
{
    match counter {
        Counter::Arrival => "arrival",
        Counter::Number => "number",
        Counter::Token => "token",
        Counter::Ticket => "ticket",
    }
}

/// Appends why an event is refused, as `refused old 5`.
pub fn push_refused(out: &mut Vec<u8>, fault: Fault) -> Result<(), AllocError>
    ensures appends { Appends out.old out.new result (spec.refused fault) }
    ensures short { vec_len out.old + 128 ≤ vec_capacity out.old → IsOk result }
{
    match fault {
        Fault::OldSerial(last) => push_line(
            out,
            &[Piece::Text("refused old "), Piece::Number(last)],
        ),
        Fault::NotFound => say(out, "refused not_found"),
        Fault::TooLarge(sum) => {
            push_line(
                out,
                &[Piece::Text("refused too_large "), Piece::Number(sum)],
            )
        }
        Fault::Spent(counter) => {
            let name = counter_text(counter);
            push_line(out, &[Piece::Text("refused spent "), Piece::Text(name)])
        }
    }
}

/// Appends that no order was handed out under a number.
pub fn push_unknown(out: &mut Vec<u8>) -> Result<(), AllocError>
    ensures appends { Appends out.old out.new result spec.unknown }
    ensures short { vec_len out.old + 128 ≤ vec_capacity out.old → IsOk result }
{
    say(out, "refused unknown")
}

/// Appends that a line acted not for want of memory.
pub fn push_no_memory(out: &mut Vec<u8>) -> Result<(), AllocError>
    ensures appends { Appends out.old out.new result spec.no_memory }
    ensures short { vec_len out.old + 128 ≤ vec_capacity out.old → IsOk result }
{
    say(out, "no memory")
}

/// Appends that an event acted.
pub fn push_changed(out: &mut Vec<u8>) -> Result<(), AllocError>
    ensures appends { Appends out.old out.new result spec.changed }
    ensures short { vec_len out.old + 128 ≤ vec_capacity out.old → IsOk result }
{
    say(out, "ok")
}

/// Appends what a mutation did.
pub fn push_acted(out: &mut Vec<u8>, acted: Acted) -> Result<(), AllocError>
    ensures appends { Appends out.old out.new result (spec.acted acted) }
    ensures short { vec_len out.old + 128 ≤ vec_capacity out.old → IsOk result }
{
    match acted {
        Acted::Now => say(out, "ok"),
        Acted::Again => say(out, "ok again"),
    }
}

fn push_late(out: &mut Vec<u8>, present: Option<u64>) -> Result<(), AllocError>
    ensures appends { Appends out.old out.new result (spec.late present) }
    ensures short { vec_len out.old + 128 ≤ vec_capacity out.old → IsOk result }
{
    match present {
        None => say(out, "late none"),
        Some(present) => push_line(out, &[Piece::Text("late "), Piece::Number(present)]),
    }
}

/// Appends what a finish did; a late one shows the token of the present lease.
pub fn push_finished(out: &mut Vec<u8>, finished: Finished) -> Result<(), AllocError>
    ensures appends { Appends out.old out.new result (spec.finished finished) }
    ensures short { vec_len out.old + 128 ≤ vec_capacity out.old → IsOk result }
{
    match finished {
        Finished::Good => say(out, "ok good"),
        Finished::Bad => say(out, "ok bad"),
        Finished::Late(token) => push_late(out, token),
    }
}

/// Appends what the put of a stitch did; a late one shows the present ticket.
pub fn push_placed(out: &mut Vec<u8>, placed: Placed) -> Result<(), AllocError>
    ensures appends { Appends out.old out.new result (spec.placed placed) }
    ensures short { vec_len out.old + 128 ≤ vec_capacity out.old → IsOk result }
{
    match placed {
        Placed::Counted => say(out, "ok"),
        Placed::Late(ticket) => push_late(out, ticket),
    }
}

/// Appends that there is nothing to take.
pub fn push_nothing(out: &mut Vec<u8>) -> Result<(), AllocError>
    ensures appends { Appends out.old out.new result spec.nothing }
    ensures short { vec_len out.old + 128 ≤ vec_capacity out.old → IsOk result }
{
    say(out, "none")
}

/// Appends the token and the reference of an order.
pub fn push_order(out: &mut Vec<u8>, token: u64, reference: &Ref) -> Result<(), AllocError>
    ensures appends { Appends out.old out.new result (spec.ordered token reference.now) }
    ensures short { vec_len out.old + (128 + length reference.now) ≤ vec_capacity out.old → IsOk result }
{
    push_line(
        out,
        &[
            Piece::Text("order "),
            Piece::Number(token),
            Piece::Text(" "),
            Piece::Text(reference.as_str()),
        ],
    )
}

/// Appends the ticket and the reference of a stitch order.
pub fn push_ticket(out: &mut Vec<u8>, ticket: u64, reference: &Ref) -> Result<(), AllocError>
    ensures appends { Appends out.old out.new result (spec.ticketed ticket reference.now) }
    ensures short { vec_len out.old + (128 + length reference.now) ≤ vec_capacity out.old → IsOk result }
{
    push_line(
        out,
        &[
            Piece::Text("ticket "),
            Piece::Number(ticket),
            Piece::Text(" "),
            Piece::Text(reference.as_str()),
        ],
    )
}

/// Appends the rounds, leases and stitches of a settle.
pub fn push_settled(out: &mut Vec<u8>, counts: Counts) -> Result<(), AllocError>
    ensures appends { Appends out.old out.new result (spec.settled counts) }
    ensures short { vec_len out.old + 128 ≤ vec_capacity out.old → IsOk result }
{
    push_line(
        out,
        &[
            Piece::Text("settled "),
            Piece::Number(counts.rounds),
            Piece::Text(" "),
            Piece::Number(counts.leases),
            Piece::Text(" "),
            Piece::Number(counts.stitched),
        ],
    )
}

/// Appends that a settle was cut for want of memory behind its first events.
pub fn push_cut_by_memory(out: &mut Vec<u8>, events: u64) -> Result<(), AllocError>
    ensures appends { Appends out.old out.new result (spec.cut_by_memory events) }
    ensures short { vec_len out.old + 128 ≤ vec_capacity out.old → IsOk result }
{
    push_line(
        out,
        &[
            Piece::Text("cut "),
            Piece::Number(events),
            Piece::Text(" memory"),
        ],
    )
}

/// Appends that a settle was cut behind its first events, since what follows them wasn't kept.
pub fn push_cut_by_keeper(out: &mut Vec<u8>, events: u64) -> Result<(), AllocError>
    ensures appends { Appends out.old out.new result (spec.cut_by_keeper events) }
    ensures short { vec_len out.old + 128 ≤ vec_capacity out.old → IsOk result }
{
    push_line(
        out,
        &[
            Piece::Text("cut "),
            Piece::Number(events),
            Piece::Text(" keeper"),
        ],
    )
}

/// Appends that a settle was cut behind its first events by a counter at its end.
pub fn push_cut_by_counter(
    out: &mut Vec<u8>,
    events: u64,
    counter: Counter,
) -> Result<(), AllocError>
    ensures appends { Appends out.old out.new result (spec.cut_by_counter events counter) }
    ensures short { vec_len out.old + 128 ≤ vec_capacity out.old → IsOk result }
{
    push_line(
        out,
        &[
            Piece::Text("cut "),
            Piece::Number(events),
            Piece::Text(" spent "),
            Piece::Text(counter_text(counter)),
        ],
    )
}

/// Appends whether the catalogue is quiet, without LF.
pub fn push_quiet(out: &mut Vec<u8>, is_quiet: bool) -> Result<(), AllocError>
    ensures appends { Appends out.old out.new result (spec.quiet is_quiet) }
    ensures short { vec_len out.old + 128 ≤ vec_capacity out.old → IsOk result }
{
    if is_quiet {
        push_text(out, &[Piece::Text("yes")])
    } else {
        push_text(out, &[Piece::Text("no")])
    }
}

/// Appends how many records, orphans, due records, live leases and marks there are, without LF.
pub fn push_counts(out: &mut Vec<u8>, counts: StateCounts) -> Result<(), AllocError>
    ensures appends { Appends out.old out.new result (spec.counted counts) }
    ensures short { vec_len out.old + 256 ≤ vec_capacity out.old → IsOk result }
{
    push_text(
        out,
        &[
            Piece::Text("state records "),
            Piece::Number(counts.records),
            Piece::Text(" orphans "),
            Piece::Number(counts.orphans),
            Piece::Text(" due "),
            Piece::Number(counts.due),
            Piece::Text(" leased "),
            Piece::Number(counts.leased),
            Piece::Text(" marked "),
            Piece::Number(counts.marked),
        ],
    )
}
