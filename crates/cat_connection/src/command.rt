//! The commands, over any machine that answers lines or messages.

ghost use Rattle.std.specs.Prelude.{◌≡◌, ◌≤◌, List, [], ◌∷◌};
ghost use Rattle.cat_io.specs.Causes.{Rose};
ghost use Rattle.cat_connection.specs.Runs.{AnswersItems};
ghost use Rattle.cat_connection.specs.Status.{EndsAsUsage, HasRun, HasServed, HasTold, IsOneOf, connection_status, exit_number, status_of};

use crate::{ConnEnd, Machine as MessageMachine, connection};
use cat_io::{Machine as LineMachine, SessionEnd, Sink, Source, session, write_all};
use std::alloc::Global;

/// What is written where the words are no command.
const USAGE: &[u8] = b"usage: catalogue session|wire|serve|sample|mirror\n";

/// How a command of the program ended.
#[derive(Clone, Copy, Debug, Drop, PartialEq, Eq)]
pub enum Status {
    /// All input was read and answered, a sample was told, or the doors of a server have closed.
    Whole,
    /// The words are no command.
    Usage,
    /// The source failed.
    ReadFault,
    /// The sink failed.
    WriteFault,
    /// The keeper failed as the store was opened.
    StoreFault,
    /// A row of the store has no reading or breaks a rule.
    BadRow,
    /// The doors failed.
    DoorsFault,
    /// Memory was wanted: before the first line, message or connection, at any line of a mirror, or for a sample.
    NoMemory,
    /// 2^40 bytes were taken, and there is more.
    Bound,
}

impl Status {
    /// The number with which the program ends.
    pub fn number(self) -> u8
        ensures { result ≡ exit_number self }
    {
        match self {
            Status::Whole => 0,
            Status::Usage => 2,
            Status::ReadFault => 3,
            Status::WriteFault => 4,
            Status::StoreFault => 5,
            Status::BadRow => 6,
            Status::DoorsFault => 7,
            Status::NoMemory => 9,
            Status::Bound => 10,
        }
    }
}

impl From<SessionEnd> for Status {
    ghost from_gives = { λ end status. status ≡ status_of end };

    fn from(end: SessionEnd) -> Status {
        match end {
            SessionEnd::Whole => Status::Whole,
            SessionEnd::ReadFault => Status::ReadFault,
            SessionEnd::WriteFault => Status::WriteFault,
            SessionEnd::NoMemory => Status::NoMemory,
            SessionEnd::Bound => Status::Bound,
        }
    }
}

impl From<ConnEnd> for Status {
    ghost from_gives = { λ end status. status ≡ connection_status end };

    fn from(end: ConnEnd) -> Status {
        match end {
            ConnEnd::Whole => Status::Whole,
            ConnEnd::ReadFault => Status::ReadFault,
            ConnEnd::WriteFault => Status::WriteFault,
            ConnEnd::NoMemory => Status::NoMemory,
            ConnEnd::Bound => Status::Bound,
        }
    }
}

/// Answers the lines of the source by the machine.
pub fn answer_lines<M: LineMachine, S: Source, O: Sink>(
    alloc: Global,
    machine: &mut M,
    source: &mut S,
    sink: &mut O,
) -> Status
    ensures ran { HasRun M.after M.reply result (S.left source.old) (S.left source.new) (O.written sink.old) (O.written sink.new) machine.old machine.new }
    ensures read_fault { result ≡ Status.ReadFault → Rose (S.faults source.old) (S.faults source.new) }
    ensures write_fault { result ≡ Status.WriteFault → Rose (O.faults sink.old) (O.faults sink.new) }
    ensures memory { result ≡ Status.NoMemory → (source.new ≡ source.old) × (sink.new ≡ sink.old) }
    ensures read_later { S.faults source.old ≤ S.faults source.new }
    ensures write_later { O.faults sink.old ≤ O.faults sink.new }
    ensures ended { IsOneOf result (Status.Whole ∷ Status.ReadFault ∷ Status.WriteFault ∷ Status.NoMemory ∷ Status.Bound ∷ []) }
{
    Status::from(session(alloc, machine, source, sink))
}

/// Answers the messages of the source by the machine.
pub fn answer_messages<M: MessageMachine, S: Source, O: Sink>(
    alloc: Global,
    machine: &mut M,
    source: &mut S,
    sink: &mut O,
) -> Status
    ensures served { HasServed (AnswersItems M.answers M.lacks) result (S.left source.old) (S.left source.new) (O.written sink.old) (O.written sink.new) machine.old machine.new }
    ensures read_fault { result ≡ Status.ReadFault → Rose (S.faults source.old) (S.faults source.new) }
    ensures write_fault { result ≡ Status.WriteFault → Rose (O.faults sink.old) (O.faults sink.new) }
    ensures memory { result ≡ Status.NoMemory → (source.new ≡ source.old) × (sink.new ≡ sink.old) }
    ensures read_later { S.faults source.old ≤ S.faults source.new }
    ensures write_later { O.faults sink.old ≤ O.faults sink.new }
    ensures ended { IsOneOf result (Status.Whole ∷ Status.ReadFault ∷ Status.WriteFault ∷ Status.NoMemory ∷ Status.Bound ∷ []) }
{
    Status::from(connection(alloc, machine, source, sink))
}

/// Writes a line. The status is `Whole` where it stands whole, and `WriteFault` where the sink failed.
pub fn tell<O: Sink>(line: &[u8], sink: &mut O) -> Status
    ensures told { HasTold line.now result (O.written sink.old) (O.written sink.new) (O.faults sink.old) (O.faults sink.new) }
    ensures write_fault { result ≡ Status.WriteFault → Rose (O.faults sink.old) (O.faults sink.new) }
    ensures later { O.faults sink.old ≤ O.faults sink.new }
    ensures ended { IsOneOf result (Status.Whole ∷ Status.WriteFault ∷ []) }
{
    match write_all(sink, line) {
        Ok(()) => Status::Whole,
        Err(_) => Status::WriteFault,
    }
}

/// Writes the line that says how the program is called, once. The status is `Usage`, whether the sink failed or not.
pub fn usage<O: Sink>(sink: &mut O) -> Status
    ensures { EndsAsUsage O.written O.faults result sink.old sink.new }
{
    let _ = write_all(sink, USAGE);
    Status::Usage
}
