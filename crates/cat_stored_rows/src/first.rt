//! The rows of a state in the first version.
ghost use Rattle.std.specs.Prelude.{◌≡◌, IfOk, OnOk};
ghost use Rattle.cat_stored_rows.specs.First as spec;
ghost use Rattle.cat_stored_rows.specs.Stored.{put_rows};

use crate::stored::{Stored, is_blank, put_counters, put_kept};
use crate::version::Version;
use cat_collections::map::Map;
use cat_model::types::{OrphanRule, State};
use std::alloc::{AllocError, Global};

// Puts all rows of a state.
#[tactic(auto, using(crate::proofs::Putting::put_parts))]
fn put_state(alloc: Global, made: &mut Stored, m: &State) -> Result<(), AllocError>
    ensures { OnOk result (made.new ≡ put_rows (spec.all_first m.now) made.old) }
{
    put_counters(alloc, made, m)?;
    put_kept(alloc, made, Version::One, m)
}

/// The rows that a store of the first version has of a state. None are where the state is empty and no number was drawn. Trees are
/// shared with the state. The error is want of memory.
#[tactic(auto, unfolding(crate::specs::First::first))]
pub fn first_rows(alloc: Global, m: &State) -> Result<Stored, AllocError>
    ensures { IfOk result (λ rows. rows ≡ spec.first m.now) }
{
    let mut made = Map::new();
    if !is_blank(OrphanRule::Keep, m) {
        put_state(alloc, &mut made, m)?;
    }
    Ok(made)
}
