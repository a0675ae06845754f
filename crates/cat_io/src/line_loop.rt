//! The loop of a session.

ghost use Rattle.std.specs.Prelude.{◌≡◌, ◌≢◌, ℕ, ◌<◌, ◌≤◌, [], List, OnOk, OnErr, IfOk, IfSome, length};
ghost use Rattle.cat_io.specs.Causes.{Rose};
ghost use Rattle.cat_io.specs.Source.{Reads};
ghost use Rattle.cat_io.specs.Lines.{last_line};
ghost use Rattle.cat_io.specs.Session.{Serves, ServesPart, Feeds, FeedsPart, IsKept, WritesReplies, WritesPart, Outcome, Transcript, IsAtMost};

use crate::buffer::{LINE_LIMIT, LineBuffer, split_line};
use crate::machine::Machine;
use crate::{Failed, ReadAnswer, Sink, Source, write_all};
use std::alloc::{AllocError, Global};

/// The most bytes that a session takes.
const BOUND: u64 = 1 << 40;

/// The most bytes that a session takes in a turn.
const PIECE: usize = 65_536;

/// How a session ended.
#[derive(Clone, Copy, Debug, PartialEq, Eq)]
pub enum SessionEnd {
    /// The input was read to its end, and each line was answered.
    Whole,
    /// The source failed.
    ReadFault,
    /// The sink failed.
    WriteFault,
    /// 2^40 bytes were taken, and the input hadn't ended.
    Bound,
    /// There was no memory for a line and a piece, before the first read.
    NoMemory,
}

/// So many zeros.
fn zeros(alloc: Global, count: usize) -> Result<Vec<u8>, AllocError>
    ensures { IfOk result (λ bytes. length bytes.items ≡ count) }
{
    vec![in alloc; 0u8; count]
}

/// Answers one line.
fn serve<M: Machine, O: Sink>(machine: &mut M, line: &[u8], sink: &mut O) -> Result<(), Failed>
    ensures ok { OnOk result (Serves M.after M.reply (O.written sink.old) (O.written sink.new) machine.old line.now machine.new) }
    ensures err { OnErr result (ServesPart M.after M.reply (O.written sink.old) (O.written sink.new) machine.old line.now machine.new) }
    ensures later { O.faults sink.old ≤ O.faults sink.new }
    ensures cause { OnErr result (Rose (O.faults sink.old) (O.faults sink.new)) }
{
    if line.len() > LINE_LIMIT {
        return write_all(sink, b"refused long\n");
    }
    match machine.answer(line) {
        Ok(text) => write_all(sink, text.as_slice()),
        Err(_) => write_all(sink, b"no memory\n"),
    }
}

/// Answers each line that the piece ends, and keeps what comes after the last of them.
fn feed<M: Machine, O: Sink>(
    machine: &mut M,
    line: &mut LineBuffer,
    piece: &[u8],
    sink: &mut O,
) -> Result<(), Failed>
    ensures ok { OnOk result (Feeds M.after M.reply (O.written sink.old) (O.written sink.new) machine.old machine.new line.old line.new piece.now) }
    ensures err { OnErr result (FeedsPart M.after M.reply (O.written sink.old) (O.written sink.new) machine.old machine.new line.old piece.now) }
    ensures later { O.faults sink.old ≤ O.faults sink.new }
    ensures cause { OnErr result (Rose (O.faults sink.old) (O.faults sink.new)) }
{
    let mut rest = piece;
    while let Some((front, behind)) = split_line(rest) {
        line.extend(front);
        serve(machine, line.ended(), sink)?;
        line.clear();
        rest = behind;
    }
    line.extend(rest);
    Ok(())
}

/// Answers a last line without LF, if it isn't empty.
fn finish<M: Machine, O: Sink>(
    machine: &mut M,
    line: &LineBuffer,
    sink: &mut O,
) -> Result<(), Failed>
    ensures ok { OnOk result ((begun : List ℕ) → IsKept line.now begun
        → WritesReplies M.after M.reply (O.written sink.old) (O.written sink.new) machine.old (last_line begun) machine.new) }
    ensures err { OnErr result ((begun : List ℕ) → IsKept line.now begun
        → WritesPart M.after M.reply (O.written sink.old) (O.written sink.new) machine.old (last_line begun) machine.new) }
    ensures later { O.faults sink.old ≤ O.faults sink.new }
    ensures cause { OnErr result (Rose (O.faults sink.old) (O.faults sink.new)) }
{
    if line.bytes().is_empty() {
        return Ok(());
    }
    serve(machine, line.bytes(), sink)
}

/// Reads up to `most` bytes to the front of the buffer.
fn read_piece<S: Source>(source: &mut S, buffer: &mut [u8], most: usize) -> ReadAnswer
    requires some { 0 < most }
    requires room { most ≤ length buffer.old }
    ensures bytes { Reads (S.left source.old) (S.left source.new) result buffer.new }
    ensures at_most { IsAtMost most result }
    ensures later { S.faults source.old ≤ S.faults source.new }
    ensures cause { result ≡ ReadAnswer.Failed → Rose (S.faults source.old) (S.faults source.new) }
{
    source.read(&mut buffer[..most])
}

/// Reads and answers, turn by turn, up to the end of the input or the bound.
fn answer_all<M: Machine, S: Source, O: Sink>(
    machine: &mut M,
    line: &mut LineBuffer,
    buffer: &mut [u8],
    source: &mut S,
    sink: &mut O,
) -> SessionEnd
    requires empty { line.old ≡ [] }
    requires room { PIECE ≤ length buffer.old }
    ensures outcome { Outcome M.after M.reply result (S.left source.old) (S.left source.new)
        (O.written sink.old) (O.written sink.new) machine.old machine.new }
    ensures memory { result ≢ SessionEnd.NoMemory }
    ensures read_fault { result ≡ SessionEnd.ReadFault → Rose (S.faults source.old) (S.faults source.new) }
    ensures write_fault { result ≡ SessionEnd.WriteFault → Rose (O.faults sink.old) (O.faults sink.new) }
    ensures read_later { S.faults source.old ≤ S.faults source.new }
    ensures write_later { O.faults sink.old ≤ O.faults sink.new }
{
    let mut taken = 0u64;
    while taken < BOUND {
        let most = PIECE.min((BOUND - taken) as usize);
        let count = match read_piece(source, buffer, most) {
            ReadAnswer::Read(count) => count,
            ReadAnswer::End => 0,
            ReadAnswer::Failed => return SessionEnd::ReadFault,
        };
        if count == 0 {
            return match finish(machine, line, sink) {
                Ok(()) => SessionEnd::Whole,
                Err(Failed) => SessionEnd::WriteFault,
            };
        }
        if feed(machine, line, &buffer[..count as usize], sink).is_err() {
            return SessionEnd::WriteFault;
        }
        taken += count;
    }
    SessionEnd::Bound
}

/// Answers the lines of a source, each before the next is read.
///
/// A line ends with LF, and one CR before it is dropped; a last line without LF counts if it isn't empty. A line of over
/// 8,388,608 bytes is answered `refused long`, and its rest is skipped; a line for which the machine lacks memory is
/// answered `no memory`. All memory of the loop is taken at the start, for one line and one piece of input. A turn takes
/// at least one byte, and the session ends at 2^40 bytes.
pub fn session<M: Machine, S: Source, O: Sink>(
    alloc: Global,
    machine: &mut M,
    source: &mut S,
    sink: &mut O,
) -> SessionEnd
    ensures outcome { Outcome M.after M.reply result (S.left source.old) (S.left source.new)
        (O.written sink.old) (O.written sink.new) machine.old machine.new }
    ensures transcript { IfSome (S.left source.old)
        (Transcript M.after M.reply result (O.written sink.old) (O.written sink.new) machine.old machine.new) }

    // A fault is told only where that end counted one in this call.
    ensures read_fault { result ≡ SessionEnd.ReadFault → Rose (S.faults source.old) (S.faults source.new) }
    ensures write_fault { result ≡ SessionEnd.WriteFault → Rose (O.faults sink.old) (O.faults sink.new) }
    ensures read_later { S.faults source.old ≤ S.faults source.new }
    ensures write_later { O.faults sink.old ≤ O.faults sink.new }

    // Want of memory comes before the first read.
    ensures no_memory { result ≡ SessionEnd.NoMemory → (source.new ≡ source.old) × (sink.new ≡ sink.old) }
{
    let Ok(mut line) = LineBuffer::new(alloc) else {
        return SessionEnd::NoMemory;
    };
    let Ok(mut buffer) = zeros(alloc, PIECE) else {
        return SessionEnd::NoMemory;
    };
    answer_all(machine, &mut line, buffer.as_mut_slice(), source, sink)
}
