//! What serves connections, and what works beside them.

ghost use Rattle.std.specs.Prelude.{ℕ, List, length};
ghost use Rattle.cat_listener.specs.Step.{IsWithin};
ghost use Rattle.cat_listener.specs.declared.step.Step.{Step as Seen};

use crate::running::Running;
use crate::step::Step;
use std::sync::Wait;

/// What serves connections, message by message, seen by what the bytes of one do to it.
pub trait Server {
    // From the first server, the bytes and what it makes of them lead to the second one.
    ghost answers: { Self → List ℕ → Seen → Self → Type 0 };

    /// Answers the message at the front of the bytes, if a whole one stands there.
    fn answer(&mut self, bytes: &[u8]) -> Step
        ensures answers { answers self.old bytes.now result self.new }
        ensures within { IsWithin (length bytes.now) result };
}

/// What works beside the connections, seen by what its work does to it.
pub trait Worker {
    // Its work leads from the first state to the second one.
    ghost works: { Self → Self → Type 0 };

    /// Works. Where there is nothing to do, it rests, and ends where no server runs.
    fn work<R: Wait>(&mut self, rt: &R, running: &Running)
        ensures { works self.old self.new };
}

/// One of those that serve and work beside each other.
#[derive(Drop)]
pub enum Helper<S, W> {
    /// Lets connections in, and serves them.
    Serves(S),
    /// Works beside them.
    Works(W),
}
