//! The desk of a worker.
ghost use Rattle.std.specs.Prelude.{◌≡◌, IfOk, OnErr};
ghost use Rattle.cat_desk.specs.Acts.{ActsOnce};
ghost use Rattle.cat_desk.specs.Deed.{Deed};
ghost use Rattle.cat_desk.specs.declared.command.Reply.{Reply};

use cat_core::catalogue::{Done, Stitched};
use cat_desk::command::{Command, Reply};
use cat_desk::desk::Desk;
use cat_desk::timed::Timed;
use cat_io::Clock;
use cat_model::types::{Order, StitchOrder};
use cat_plan::layers::Layers;
use std::alloc::{AllocError, Global};

/// What workers take orders from and bring results back to, seen by what a deed may do to it and answer. Orders are worked by the
/// layers `L`, before the desk is told of the result. A `Desk` names how long the orders of all its results live; here each lives for its
/// call alone, as an order that a loop takes does.
pub trait WorkDesk<L> {
    // From the first desk, the deed leads to the second one with this reply.
    ghost acts: { Self → Deed → Self → Reply → Type 0 };

    /// Leases the record that is due first and free, and answers its order.
    fn take(&mut self, alloc: Global) -> Reply
        ensures { acts self.old Deed.Take self.new result };

    /// Works an order and brings its result back. The only error is want of memory to work it; the desk is then as before.
    fn finish(&mut self, alloc: Global, layers: &L, order: &Order) -> Result<Reply, AllocError>
        ensures ok { IfOk result (λ reply. acts self.old (Deed.Finish order.now) self.new reply) }
        ensures err { OnErr result (self.new ≡ self.old) };

    /// Answers the stitch order of the mark with the least ticket above this one.
    fn take_stitch(&mut self, alloc: Global, after: u64) -> Reply
        ensures { acts self.old (Deed.TakeStitch after) self.new result };

    /// Stitches the document of an order and brings it back. The only error is want of memory to stitch it; the desk is then as before.
    fn put_stitch(
        &mut self,
        alloc: Global,
        layers: &L,
        order: &StitchOrder,
    ) -> Result<Reply, AllocError>
        ensures ok { IfOk result (λ reply. acts self.old (Deed.PutStitch order.now) self.new reply) }
        ensures err { OnErr result (self.new ≡ self.old) };
}

impl<L: Layers, C: Clock> WorkDesk<L> for Timed<L, C> {
    ghost acts = { λ old d new reply. ActsOnce L.rules (C.moment new.clock) (C.readings old.clock) (C.readings new.clock) d old.catalogue new.catalogue reply × C.ticks old.clock new.clock };

    fn take(&mut self, alloc: Global) -> Reply {
        self.act(alloc, Command::Take)
    }

    fn finish(&mut self, alloc: Global, layers: &L, order: &Order) -> Result<Reply, AllocError> {
        let done = Done::of(alloc, layers, order)?;
        Ok(self.act(alloc, Command::Finish(done)))
    }

    fn take_stitch(&mut self, alloc: Global, after: u64) -> Reply {
        self.act(alloc, Command::TakeStitch(after))
    }

    fn put_stitch(
        &mut self,
        alloc: Global,
        layers: &L,
        order: &StitchOrder,
    ) -> Result<Reply, AllocError> {
        let stitched = Stitched::of(alloc, layers, order)?;
        Ok(self.act(alloc, Command::PutStitch(stitched)))
    }
}
