//! A server that answers the messages of its connections.
ghost use Rattle.std.specs.Prelude.{◌≡◌};
ghost use Rattle.cat_pieces.specs.Replies.{Replies};

use cat_connection::Machine;
use cat_listener::{Server, Step};
use cat_pieces::next_step;
use std::alloc::Global;

/// A machine that answers the messages of its connections, one after another.
#[derive(Drop)]
pub struct Answering<M> {
    alloc: Global,
    machine: M,
}

impl<M: Machine> Answering<M> {
    /// A machine as a server. It takes no memory.
    pub fn new(alloc: Global, machine: M) -> Answering<M>
        ensures { result.machine ≡ machine }
    {
        Answering { alloc, machine }
    }

    /// Lends the machine.
    pub fn machine(&self) -> &M
        ensures { result.now ≡ self.now.machine }
    {
        &self.machine
    }
}

impl<M: Machine> Server for Answering<M> {
    ghost answers = { λ old bytes step new. Replies M.answers M.lacks old.machine bytes step new.machine };

    fn answer(&mut self, bytes: &[u8]) -> Step {
        next_step(self.alloc, &mut self.machine, bytes)
    }
}
