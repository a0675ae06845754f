//! A turn of a connection: what can be done of it without waiting.

ghost use Rattle.std.specs.Prelude.{◌≡◌, ℕ, List, [], Option, false, IfNone};
ghost use Rattle.cat_listener.specs.Turn.{HasAsked, IsTurn, IsWritten, turn};

use crate::buffers::{Buffers, Came};
use crate::ends::{PromptSink, PromptSource};
use crate::helper::Server;
use crate::step::Step;
use cat_io::WriteAnswer;
use std::sync::Wait;

/// How a turn ended.
#[derive(Clone, Copy)]
pub(crate) enum Turned {
    /// Bytes are wanted.
    Reads,
    /// Room is wanted for bytes that are to go.
    Writes,
    /// The last message was answered, and its reply was taken.
    Said,
    /// The connection has ended.
    Ended,
}

// Writes what goes. `None` says that all of it was taken.
fn write_going<O: PromptSink>(buffers: &mut Buffers, sink: &mut O) -> Option<Turned>
    ensures written { IsWritten buffers.old buffers.new (O.written sink.old) (O.written sink.new) }
    ensures all { IfNone result (buffers.new.going ≡ []) }
{
    while !buffers.going().is_empty() {
        match sink.write_now(buffers.going()) {
            Some(WriteAnswer::Wrote(count)) => buffers.take_going(count as usize),
            Some(WriteAnswer::Failed) => return Some(Turned::Ended),
            None => return Some(Turned::Writes),
        }
    }
    None
}

// Shows the server what came.
fn ask<S: Server>(server: &mut S, buffers: &mut Buffers)
    requires taken { buffers.old.going ≡ [] }
    ensures asked { HasAsked S.answers server.old buffers.old server.new buffers.new }
{
    match server.answer(buffers.came()) {
        Step::Reply(used, text) => buffers.reply(used, text),
        Step::Last(text) => buffers.reply_last(text),
        Step::More(blank, part) => buffers.want(blank, part),
    }
}

// Asks the server, or reads where it wants more.
fn go_on<S: Server, I: PromptSource>(
    server: &mut S,
    buffers: &mut Buffers,
    source: &mut I,
) -> Option<Turned>
    requires taken { buffers.old.going ≡ [] }
    requires open { buffers.old.last ≡ false }
    ensures turned { (written : Option (List ℕ)) → IsTurn S.answers server.old (turn buffers.old (I.left source.old) written buffers.new (I.left source.new) written) server.new }
{
    if buffers.wanted().is_none() {
        ask(server, buffers);
        return None;
    }
    match buffers.read(source) {
        Came::Bytes => None,
        Came::Later => Some(Turned::Reads),
        Came::Ended => Some(Turned::Ended),
    }
}

// Does one thing of a connection. `None` says that there may be more to do.
#[tactic(auto, using(crate::proofs::Turns::turn_written))]
fn step_on<S: Server, I: PromptSource, O: PromptSink>(
    server: &mut S,
    buffers: &mut Buffers,
    source: &mut I,
    sink: &mut O,
) -> Option<Turned>
    ensures turned { IsTurn S.answers server.old (turn buffers.old (I.left source.old) (O.written sink.old) buffers.new (I.left source.new) (O.written sink.new)) server.new }
{
    if let Some(turned) = write_going(buffers, sink) {
        return Some(turned);
    }
    if buffers.is_last() {
        return Some(Turned::Said);
    }
    go_on(server, buffers, source)
}

/// Does what can be done of a connection without waiting: writes what goes, has the messages answered that stand whole in what came, and reads more.
pub(crate) fn take_turn<S: Server, I: PromptSource, O: PromptSink, R: Wait>(
    rt: &R,
    server: &mut S,
    buffers: &mut Buffers,
    source: &mut I,
    sink: &mut O,
) -> Turned
    ensures turned { IsTurn S.answers server.old (turn buffers.old (I.left source.old) (O.written sink.old) buffers.new (I.left source.new) (O.written sink.new)) server.new }
{
    for _ in rt.forever() {
        if let Some(turned) = step_on(server, buffers, source, sink) {
            return turned;
        }
    }
    unreachable!()
}
