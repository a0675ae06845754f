//! A share of a book, as the desk of a worker.
ghost use Rattle.std.specs.Prelude.{◌≡◌};
ghost use Rattle.cat_shared.specs.Shared.{SharedActs};

use cat_core::catalogue::{Done, Stitched};
use cat_desk::command::{Command, Reply};
use cat_desk::desk::Desk;
use cat_desk::timed_desk::TimedDesk;
use cat_model::types::{Order, StitchOrder};
use cat_plan::layers::Layers;
use cat_shared::book::Named;
use cat_shared::shared::SharedDesk;
use cat_workers::desk::WorkDesk;
use std::alloc::{AllocError, Global};
use std::sync::Wait;

/// A share of a book at which a worker takes orders and brings back their results. An order is worked before the turn is waited for.
#[derive(Drop)]
pub struct Share<'a, L: Layers, B: TimedDesk<L>, N: Named, R: Wait> {
    desk: SharedDesk<'a, L, B, N, R>,
}

impl<'a, L: Layers, B: TimedDesk<L>, N: Named, R: Wait> Share<'a, L, B, N, R> {
    /// A worker's desk over a share. It takes no memory.
    pub fn over(desk: SharedDesk<'a, L, B, N, R>) -> Share<'a, L, B, N, R>
        ensures { result.desk ≡ desk.entry }
    {
        Share { desk }
    }
}

impl<'a, L: Layers, B: TimedDesk<L>, N: Named, R: Wait> WorkDesk<L> for Share<'a, L, B, N, R> {
    ghost acts = { λ old d new reply. SharedActs L.rules N.settings N.opening d old.desk.pass new.desk.pass reply };

    fn take(&mut self, alloc: Global) -> Reply {
        self.desk.act(alloc, Command::Take)
    }

    fn finish(&mut self, alloc: Global, layers: &L, order: &Order) -> Result<Reply, AllocError> {
        let done = Done::of(alloc, layers, order)?;
        Ok(self.desk.act(alloc, Command::Finish(done)))
    }

    fn take_stitch(&mut self, alloc: Global, after: u64) -> Reply {
        self.desk.act(alloc, Command::TakeStitch(after))
    }

    fn put_stitch(
        &mut self,
        alloc: Global,
        layers: &L,
        order: &StitchOrder,
    ) -> Result<Reply, AllocError> {
        let stitched = Stitched::of(alloc, layers, order)?;
        Ok(self.desk.act(alloc, Command::PutStitch(stitched)))
    }
}
