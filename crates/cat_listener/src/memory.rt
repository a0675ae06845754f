//! Doors and connections in memory.

ghost use Rattle.std.specs.Prelude.{◌≡◌, ◌≢◌, ◌≤◌, ◌↔◌, [], Some};
ghost use Rattle.cat_io.specs.Calls.{CountsCall, FailsNext};
ghost use Rattle.cat_io.specs.Causes.{Rose};
ghost use Rattle.cat_listener.specs.Doors.{Admits, HasFailed, StayClosed};
ghost use Rattle.cat_listener.specs.Memory.{AcceptsAsTold, CountsAccept, CountsListen, has_none};

use crate::doors::{Accepted, Connection, Doors, Listened};
use cat_io::{FailingCalls, MemorySink, MemorySource};
use std::marker::Model;

/// A connection in memory: it is read from a source and written to a sink, both in memory.
#[derive(Drop)]
pub struct MemoryConn {
    /// What is read.
    pub source: MemorySource,
    /// What is written.
    pub sink: MemorySink,
}

impl Model for MemoryConn {
    ghost use Rattle.cat_listener.specs.Memory.{ConnState};

    ghost Value = { ConnState };

    ghost view = { λ c. record { source = c.source; sink = c.sink } };
}

impl Connection for MemoryConn {
    type Source = MemorySource;

    type Sink = MemorySink;

    ghost source = { λ c. c.source };

    ghost sink = { λ c. c.sink };

    fn ends(self) -> (MemorySource, MemorySink) {
        (self.source, self.sink)
    }
}

/// Doors that hand out the connections of a list, in order, and have closed once none is left. They fail the calls of another
/// list, and no other.
#[derive(Drop)]
pub struct MemoryDoors {
    waiting: Vec<MemoryConn>,
    calls: FailingCalls,
}

impl Model for MemoryDoors {
    ghost use Rattle.cat_listener.specs.Memory.{DoorsState};

    ghost Value = { DoorsState };

    ghost view = { λ d. record { waiting = d.waiting.items; calls = d.calls } };
}

impl MemoryDoors {
    /// Doors with these connections that fail the calls whose numbers, from 1 on, are in `failing`. They take no memory.
    pub fn new(conns: Vec<MemoryConn>, failing: Vec<u64>) -> MemoryDoors
        ensures { result ≡ record { waiting = conns.items; calls = record { failing = failing.items; calls = 0; faults = 0 } } }
    {
        MemoryDoors {
            waiting: conns,
            calls: FailingCalls::new(failing),
        }
    }
}

impl Doors for MemoryDoors {
    type Conn = MemoryConn;

    ghost faults = { λ d. d.calls.faults };

    ghost closed = { λ d. Some (has_none d.waiting) };

    fn listen(&mut self, _address: &str) -> Listened
        ensures later { self.old.calls.faults ≤ self.new.calls.faults }
        ensures cause { result ≡ Listened.Failed → Rose self.old.calls.faults self.new.calls.faults }
        ensures stay { StayClosed (Some (has_none self.old.waiting)) (Some (has_none self.new.waiting)) }
        // Just the calls of the list fail.
        ensures exact { (result ≡ Listened.Failed) ↔ FailsNext self.old.calls }
        ensures counts { CountsListen result self.old.calls.faults self.new.calls.faults }
        ensures calls { CountsCall self.old.calls self.new.calls }
        ensures same { self.new.waiting ≡ self.old.waiting }
    {
        if self.calls.next_fails() {
            Listened::Failed
        } else {
            Listened::Ready
        }
    }

    fn accept(&mut self) -> Accepted<MemoryConn>
        ensures admits { Admits (Some (has_none self.old.waiting)) (Some (has_none self.new.waiting)) result }
        ensures later { self.old.calls.faults ≤ self.new.calls.faults }
        ensures cause { HasFailed result → Rose self.old.calls.faults self.new.calls.faults }
        ensures stay { StayClosed (Some (has_none self.old.waiting)) (Some (has_none self.new.waiting)) }
        // Just the calls of the list fail, and the others hand out the next connection, if there is one.
        ensures exact { AcceptsAsTold self.old self.new result }
        ensures counts { CountsAccept result self.old.calls.faults self.new.calls.faults }
        ensures calls { CountsCall self.old.calls self.new.calls }
    {
        if self.calls.next_fails() {
            return Accepted::Failed;
        }
        if self.waiting.is_empty() {
            return Accepted::Closed;
        }
        Accepted::Conn(self.waiting.remove(0))
    }
}
