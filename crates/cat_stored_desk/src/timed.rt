//! The desk that a store keeps, as one whose commands come at moments.
use crate::desk::KeptDesk;
use cat_core::catalogue::{Catalogue, Done, Stitched};
use cat_desk::command::{Asked, Command, Reply};
use cat_desk::desk::Desk;
use cat_desk::feed_desk::{FeedAnswer, FeedDesk};
use cat_desk::timed_desk::TimedDesk;
use cat_feed::change::Since;
use cat_io::Clock;
use cat_keeper::keeper::Keeper;
use cat_plan::layers::Layers;
use cat_query::ask::Ask;
use std::alloc::Global;

/// A catalogue that a store keeps.
impl<L: Layers, C: Clock, K: Keeper> TimedDesk<L> for KeptDesk<L, C, K> {
    ghost ledger = { λ desk. desk.catalogue };

    ghost feed = { λ desk. desk.feed };

    ghost moment = { λ desk. C.moment desk.clock };

    ghost readings = { λ desk. C.readings desk.clock };

    ghost ticks = { λ old new. C.ticks old.clock new.clock };

    ghost faults = { λ desk. K.faults desk.store.keeper };

    fn act_at(
        &mut self,
        alloc: Global,
        command: &Command<Done<'_, L>, Stitched<'_, L>>,
    ) -> (u64, Reply) {
        self.act_at(alloc, command)
    }

    fn catalogue(&self) -> &Catalogue<L> {
        KeptDesk::catalogue(self)
    }

    fn prepare(&mut self, alloc: Global, ask: &Ask) {
        KeptDesk::prepare(self, alloc, ask);
    }

    fn ask_at(&mut self, alloc: Global, ask: &Ask, out: &mut Vec<u8>) -> Asked {
        <KeptDesk<L, C, K> as Desk<Done<'_, L>, Stitched<'_, L>>>::ask(self, alloc, ask, out)
    }

    fn changes_since(
        &mut self,
        alloc: Global,
        since: Option<Since>,
        out: &mut Vec<u8>,
    ) -> FeedAnswer {
        <KeptDesk<L, C, K> as FeedDesk<Done<'_, L>, Stitched<'_, L>>>::changes(
            self, alloc, since, out,
        )
    }
}
