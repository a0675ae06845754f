//! A worker that works as long as a server runs.
ghost use Rattle.std.specs.Prelude.{◌≡◌};
ghost use Rattle.cat_dispatcher.specs.Worked.{Works};

use cat_listener::{Running, Worker};
use cat_workers::desk::WorkDesk;
use cat_workers::gate::{Gate, GateCall, Go};
use cat_workers::stitch::stitch_loop;
use cat_workers::work::work_loop;
use std::alloc::Global;
use std::sync::Wait;

/// What a worker works.
#[derive(Clone, Copy, Debug, PartialEq, Eq)]
pub enum Part {
    /// The orders of records that are due.
    Orders,
    /// The documents of marked references.
    Documents,
}

/// A worker of one part at a desk of its own, over layers that it shares with others.
#[derive(Drop)]
pub struct Working<'l, L, D> {
    alloc: Global,
    layers: &'l L,
    desk: D,
    part: Part,
}

impl<'l, L, D: WorkDesk<L>> Working<'l, L, D> {
    /// A worker of this part. It takes no memory.
    pub fn new(alloc: Global, layers: &'l L, desk: D, part: Part) -> Working<'l, L, D>
        ensures desk { result.desk ≡ desk }
        ensures part { result.part ≡ part }
    {
        Working {
            alloc,
            layers,
            desk,
            part,
        }
    }

    /// Lends the desk.
    pub fn desk(&self) -> &D
        ensures { result.now ≡ self.now.desk }
    {
        &self.desk
    }
}

/// The gate of a worker beside servers: where it was idle it rests, and it stops once no server runs.
#[derive(Drop)]
struct WhileServed<'a, R: Wait> {
    rt: &'a R,
    running: &'a Running,
}

impl<'a, R: Wait> Gate for WhileServed<'a, R> {
    ghost use Rattle.std.specs.Prelude.{⊤};

    ghost told = { λ _ _. ⊤ };

    ghost said = { λ _ _. ⊤ };

    fn before(&self, _call: GateCall) {}

    fn idle(&self) -> Go {
        if self.running.rests(self.rt) {
            Go::On
        } else {
            Go::Stop
        }
    }
}

impl<'l, L, D: WorkDesk<L>> Worker for Working<'l, L, D> {
    ghost works = { λ old new. (new.part ≡ old.part) × Works D.acts old.part old.desk new.desk };

    fn work<R: Wait>(&mut self, rt: &R, running: &Running) {
        let gate = WhileServed { rt, running };
        match self.part {
            Part::Orders => work_loop(rt, self.alloc, self.layers, &mut self.desk, &gate),
            Part::Documents => stitch_loop(rt, self.alloc, self.layers, &mut self.desk, &gate),
        }
    }
}
