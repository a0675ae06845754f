//! A connection that is open.

ghost use Rattle.cat_listener.specs.Turn.{IsTurn, Turn};

use crate::buffers::{Buffers, zeros};
use crate::doors::Connection;
use crate::ends::{PromptSink, PromptSource, Watched, Wish};
use crate::helper::Server;
use crate::patience::Stage;
use crate::step::Part;
use crate::turn::{Turned, take_turn};
use cat_io::ReadAnswer;
use std::alloc::Global;
use std::sync::Wait;

/// The most bytes that are thrown away in one go.
const PIECE: usize = 16_384;

/// How many pieces are thrown away in one go.
const PIECES: u64 = 64;

/// A connection that is open, with what stands with it. It needs no thread between its turns.
#[derive(Drop)]
pub(crate) struct Visit<C: Connection> {
    alloc: Global,
    source: C::Source,
    sink: C::Sink,
    buffers: Buffers,
    // The last reply was taken. What still comes is thrown away.
    said: bool,
    stage: Stage,
    // When it came to the stage.
    since: u64,
    // How many replies had been made then.
    replies: u64,
}

impl<C: Connection> Visit<C> {
    /// A connection that was just let in.
    pub(crate) fn new(alloc: Global, conn: C) -> Visit<C> {
        let (source, sink) = conn.ends();
        Visit {
            alloc,
            source,
            sink,
            buffers: Buffers::new(alloc),
            said: false,
            stage: Stage::Idle,
            since: 0,
            replies: 0,
        }
    }

    /// Does what can be done of it without waiting.
    pub(crate) fn turn<S: Server, R: Wait>(&mut self, rt: &R, server: &mut S) -> Turned
        ensures { (t : Turn) × IsTurn S.answers server.old t server.new }
    {
        take_turn(
            rt,
            server,
            &mut self.buffers,
            &mut self.source,
            &mut self.sink,
        )
    }

    /// Says that nothing more is written.
    pub(crate) fn finish(&mut self) {
        self.said = true;
        self.sink.finish();
    }

    /// The last reply was taken.
    pub(crate) fn is_said(&self) -> bool {
        self.said
    }

    /// How many replies were made.
    pub(crate) fn replies(&self) -> u64 {
        self.buffers.replies()
    }

    /// How many bytes of memory stand with it.
    pub(crate) fn held(&self) -> usize {
        self.buffers.held()
    }

    /// Throws away what has come. False says that nothing more comes.
    pub(crate) fn throw_away(&mut self) -> bool {
        let Ok(mut piece) = zeros(self.alloc, PIECE) else {
            return false;
        };
        for _ in 0..PIECES {
            match self.source.read_now(piece.as_mut_slice()) {
                Some(ReadAnswer::Read(count)) if count > 0 => {}
                Some(_) => return false,
                None => return true,
            }
        }
        true
    }

    // What it waits for.
    fn next_stage(&self, wish: Wish) -> Stage {
        if self.said {
            return Stage::Said;
        }
        match (wish, self.buffers.wanted()) {
            (Wish::Write, _) => Stage::Reply,
            (Wish::Read, _) if self.buffers.came().is_empty() => Stage::Idle,
            (Wish::Read, Some(Part::Body)) => Stage::Body,
            (Wish::Read, _) => Stage::Head,
        }
    }

    /// It waits from this moment on. A head and a reply that it waited for before go on waiting.
    pub(crate) fn wait(&mut self, wish: Wish, moment: u64) {
        let stage = self.next_stage(wish);
        let same = stage == self.stage && self.replies == self.buffers.replies();
        if !same || stage.begins_anew() {
            self.since = moment;
        }
        self.stage = stage;
        self.replies = self.buffers.replies();
    }

    /// Has the doors tell when it may go on.
    pub(crate) fn watch(&mut self, number: u64, wish: Wish) -> Watched {
        self.source.watch(number, wish)
    }

    /// For what it waits.
    pub(crate) fn stage(&self) -> Stage {
        self.stage
    }

    /// How long it has waited at this moment.
    pub(crate) fn waited(&self, moment: u64) -> u64 {
        moment.saturating_sub(self.since)
    }
}
