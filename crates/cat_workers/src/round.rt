//! What the rounds of all workers have in common.
ghost use Rattle.cat_workers.specs.Rounds.{MayGoOn};

use crate::gate::{Gate, Go};

/// Whether a worker goes on after a round: after an idle one it asks its gate.
pub(crate) fn goes_on<G: Gate>(gate: &G, busy: bool) -> bool
    ensures { MayGoOn (G.said gate.now) busy result }
{
    if busy {
        return true;
    }
    match gate.idle() {
        Go::On => true,
        Go::Stop => false,
    }
}
