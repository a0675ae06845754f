//! The loop of a connection.

ghost use Rattle.std.specs.Prelude.{◌≡◌, ◌≢◌, ℕ, ◌<◌, ◌≤◌, [], List, OnOk, OnErr, IfOk, IfSome, length};
ghost use Rattle.cat_io.specs.Causes.{Rose};
ghost use Rattle.cat_io.specs.Source.{Reads};
ghost use Rattle.cat_io.specs.Session.{IsAtMost};
ghost use Rattle.cat_connection.specs.Items.{HasOneList};
ghost use Rattle.cat_connection.specs.Items.Item.{message as message_item};
ghost use Rattle.cat_connection.specs.Runs.{AnswersItems};
ghost use Rattle.cat_connection.specs.Connection.{step_by, Serves, ServesPart, Steps, StepsPart, Feeds, FeedsPart, Outcome, Transcript};

use crate::machine::Machine;
use crate::window::Window;
use cat_http::fixed::{no_memory, refusal};
use cat_http::head::blank_length;
use cat_http::message::{Message, Next, next_message};
use cat_io::{Failed, ReadAnswer, Sink, Source, write_all};
use std::alloc::{AllocError, Global};

/// The most bytes that are taken of a connection.
const BOUND: u64 = 1 << 40;

/// The most bytes that are taken in a turn.
const PIECE: usize = 65_536;

/// How a connection ended.
#[derive(Clone, Copy, Debug, PartialEq, Eq)]
pub enum ConnEnd {
    /// The input was read to its end or to the message that ends the connection, and each message was answered.
    Whole,
    /// The source failed.
    ReadFault,
    /// The sink failed.
    WriteFault,
    /// 2^40 bytes were taken, and the connection hadn't ended.
    Bound,
    /// There was no memory for a message and a piece, before the first read.
    NoMemory,
}

/// What came of the front of the bytes.
#[derive(Clone, Copy, Debug, PartialEq, Eq)]
pub(crate) enum Step {
    /// A message of so many bytes was answered.
    On(usize),
    /// A message was answered, and the connection ends.
    Last,
    /// There is no whole message.
    Short,
}

/// What came of the bytes.
#[derive(Clone, Copy, Debug, PartialEq, Eq)]
pub(crate) enum Served {
    /// So many bytes at the front are done with, and what follows is no whole message.
    Open(usize),
    /// The connection ends.
    Closed,
}

/// So many zeros.
fn zeros(alloc: Global, count: usize) -> Result<Vec<u8>, AllocError>
    ensures { IfOk result (λ bytes. length bytes.items ≡ count) }
{
    vec![in alloc; 0u8; count]
}

/// Answers a whole message.
fn serve<M: Machine, O: Sink>(
    machine: &mut M,
    message: &Message,
    sink: &mut O,
) -> Result<(), Failed>
    ensures ok { OnOk result (Serves M.answers M.lacks (O.written sink.old) (O.written sink.new) machine.old (message_item message.now) machine.new) }
    ensures err { OnErr result (ServesPart M.answers M.lacks (O.written sink.old) (O.written sink.new) machine.old (message_item message.now) machine.new) }
    ensures later { O.faults sink.old ≤ O.faults sink.new }
    ensures cause { OnErr result (Rose (O.faults sink.old) (O.faults sink.new)) }
{
    match machine.answer(message) {
        Ok(text) => write_all(sink, text.as_slice()),
        Err(_) => {
            let bare = message.method.as_str() == "HEAD";
            write_all(sink, no_memory(message.last, bare))
        }
    }
}

fn step_after(last: bool, used: usize) -> Step
    ensures { result ≡ step_by last used }
{
    if last { Step::Last } else { Step::On(used) }
}

/// Answers the message at the front of the bytes, if there is a whole one.
fn serve_next<M: Machine, O: Sink>(
    alloc: Global,
    machine: &mut M,
    bytes: &[u8],
    sink: &mut O,
) -> Result<Step, Failed>
    ensures ok { IfOk result (λ step. Steps M.answers M.lacks (O.written sink.old) (O.written sink.new) machine.old machine.new bytes.now step) }
    ensures err { OnErr result (StepsPart M.answers M.lacks (O.written sink.old) (O.written sink.new) machine.old machine.new bytes.now) }
    ensures later { O.faults sink.old ≤ O.faults sink.new }
    ensures cause { OnErr result (Rose (O.faults sink.old) (O.faults sink.new)) }
{
    match next_message(alloc, bytes) {
        Ok(Next::Whole(message, used)) => match serve(machine, &message, sink) {
            Ok(()) => Ok(step_after(message.last, used as usize)),
            Err(failed) => Err(failed),
        },
        Ok(Next::More) => Ok(Step::Short),
        Ok(Next::Refused(_, rule)) => match write_all(sink, refusal(rule)) {
            Ok(()) => Ok(Step::Last),
            Err(failed) => Err(failed),
        },
        Err(lack) => match write_all(sink, no_memory(lack.last, lack.bare)) {
            Ok(()) => Ok(step_after(lack.last, lack.used as usize)),
            Err(failed) => Err(failed),
        },
    }
}

/// Answers the messages that stand whole in the bytes, one after another.
fn feed<M: Machine, O: Sink>(
    alloc: Global,
    machine: &mut M,
    bytes: &[u8],
    sink: &mut O,
) -> Result<Served, Failed>
    ensures ok { IfOk result (λ served. Feeds M.answers M.lacks (O.written sink.old) (O.written sink.new) machine.old machine.new bytes.now served) }
    ensures err { OnErr result (FeedsPart M.answers M.lacks (O.written sink.old) (O.written sink.new) machine.old machine.new bytes.now) }
    ensures later { O.faults sink.old ≤ O.faults sink.new }
    ensures cause { OnErr result (Rose (O.faults sink.old) (O.faults sink.new)) }
{
    let mut at = 0;
    loop {
        match serve_next(alloc, machine, &bytes[at..], sink) {
            Ok(Step::On(used)) => at += used,
            Ok(Step::Last) => return Ok(Served::Closed),
            Ok(Step::Short) => return Ok(Served::Open(at + blank_length(&bytes[at..]))),
            Err(failed) => return Err(failed),
        }
    }
}

/// Reads up to `most` bytes to the front of the buffer.
fn read_piece<S: Source>(source: &mut S, buffer: &mut [u8], most: usize) -> ReadAnswer
    requires some { 0 < most }
    requires room { most ≤ length buffer.old }
    ensures bytes { Reads (S.left source.old) (S.left source.new) result buffer.new }
    ensures at_most { IsAtMost most result }
    ensures later { S.faults source.old ≤ S.faults source.new }
    ensures cause { result ≡ ReadAnswer.Failed → Rose (S.faults source.old) (S.faults source.new) }
{
    source.read(&mut buffer[..most])
}

/// Reads and answers, turn by turn, up to the end of the connection or the bound.
fn answer_all<M: Machine, S: Source, O: Sink>(
    alloc: Global,
    machine: &mut M,
    window: &mut Window,
    buffer: &mut [u8],
    source: &mut S,
    sink: &mut O,
) -> ConnEnd
    requires empty { window.old ≡ [] }
    requires room { PIECE ≤ length buffer.old }
    ensures outcome { Outcome (AnswersItems M.answers M.lacks) result (S.left source.old) (S.left source.new)
        (O.written sink.old) (O.written sink.new) machine.old machine.new }
    ensures memory { result ≢ ConnEnd.NoMemory }
    ensures read_fault { result ≡ ConnEnd.ReadFault → Rose (S.faults source.old) (S.faults source.new) }
    ensures write_fault { result ≡ ConnEnd.WriteFault → Rose (O.faults sink.old) (O.faults sink.new) }
    ensures read_later { S.faults source.old ≤ S.faults source.new }
    ensures write_later { O.faults sink.old ≤ O.faults sink.new }
{
    let mut taken = 0u64;
    while taken < BOUND {
        let most = PIECE.min(window.room()).min((BOUND - taken) as usize);
        let count = match read_piece(source, buffer, most) {
            ReadAnswer::Read(count) => count,
            ReadAnswer::End => 0,
            ReadAnswer::Failed => return ConnEnd::ReadFault,
        };
        if count == 0 {
            return ConnEnd::Whole;
        }
        window.extend(&buffer[..count as usize]);
        taken += count;
        match feed(alloc, machine, window.bytes(), sink) {
            Ok(Served::Open(gone)) => window.skip(gone),
            Ok(Served::Closed) => return ConnEnd::Whole,
            Err(Failed) => return ConnEnd::WriteFault,
        }
    }
    ConnEnd::Bound
}

/// Answers the messages of a source, each before the next is read, up to the one that ends the connection.
///
/// A refused message and one that says so end the connection; a rest that is no whole message gets no reply. A message for
/// which memory lacks is answered 507: where it lacks for the message itself the machine stays, and else the machine says what
/// it did. All memory of the loop is taken at the start, for one message and one piece of input. A turn takes at least one
/// byte, and the connection ends at 2^40 bytes.
pub fn connection<M: Machine, S: Source, O: Sink>(
    alloc: Global,
    machine: &mut M,
    source: &mut S,
    sink: &mut O,
) -> ConnEnd
    ensures outcome { Outcome (AnswersItems M.answers M.lacks) result (S.left source.old) (S.left source.new)
        (O.written sink.old) (O.written sink.new) machine.old machine.new }
    ensures transcript { IfSome (S.left source.old)
        (Transcript (AnswersItems M.answers M.lacks) result (O.written sink.old) (O.written sink.new) machine.old machine.new) }

    // A fault is told only where that end counted one in this call.
    ensures read_fault { result ≡ ConnEnd.ReadFault → Rose (S.faults source.old) (S.faults source.new) }
    ensures write_fault { result ≡ ConnEnd.WriteFault → Rose (O.faults sink.old) (O.faults sink.new) }
    ensures read_later { S.faults source.old ≤ S.faults source.new }
    ensures write_later { O.faults sink.old ≤ O.faults sink.new }

    // Want of memory comes before the first read.
    ensures no_memory { result ≡ ConnEnd.NoMemory → (source.new ≡ source.old) × (sink.new ≡ sink.old) }
{
    let Ok(mut window) = Window::new(alloc) else {
        return ConnEnd::NoMemory;
    };
    let Ok(mut buffer) = zeros(alloc, PIECE) else {
        return ConnEnd::NoMemory;
    };
    answer_all(
        alloc,
        machine,
        &mut window,
        buffer.as_mut_slice(),
        source,
        sink,
    )
}

/// The bytes of a connection have one list of messages.
pub fn messages_are_one()
    ensures { (bytes : List ℕ) → HasOneList bytes }
{}
