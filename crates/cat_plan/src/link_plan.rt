//! The links that follow from a change, asked of what it reaches.
ghost use Rattle.std.specs.Prelude.{◌≡◌, ◌++◌, [], IfOk, Option, map, option_map};
ghost use Rattle.std.specs.Option.{option_and_then};
ghost use Rattle.cat_links.specs.Changes.{AreChanged};
ghost use Rattle.cat_model.specs.declared.types.State.{State};
ghost use Rattle.cat_model.specs.Catalogue.{emits, reheld, rerecorded};
ghost use Rattle.cat_model.specs.Sound.{Sound};
ghost use Rattle.cat_plan.specs.Linked.{AreLinked};
ghost use Rattle.cat_plan.specs.Following.{kept_now, link_changes, own_emits};
ghost use Rattle.cat_plan.specs.Made.{AreReached, IsMade};

use crate::change::{Change, kept_now};
use crate::layers::Layers;
use cat_collections::listing::{Copied, Listing};
use cat_links::links::{EmitChange, LinkPlan};
use cat_model::types::Record;
use cat_types::reference::Ref;
use cat_types::relation::Relation;
use std::alloc::{AllocError, Global};

// What a record emits.
fn relations_kept<L: Layers>(
    alloc: Global,
    layers: &L,
    reference: &Ref,
    kept: Option<&Record>,
) -> Result<Listing<Relation>, AllocError>
    ensures { IfOk result (λ l. l ≡ emits L.rules reference.now (option_and_then (λ x. x.output) (option_map (λ x. x.now) kept.entry))) }
{
    match kept {
        None => Ok(Listing::new(alloc)),
        Some(kept) => match &kept.output {
            None => Ok(Listing::new(alloc)),
            Some(output) => layers.relations(alloc, &output.entity, reference),
        },
    }
}

// What no longer holds emits nothing.
fn left_changes(alloc: Global, leaving: &[Ref]) -> Result<Vec<EmitChange>, AllocError>
    ensures { IfOk result (λ l. l.items ≡ map (λ r. record { emitter = r; relations = [] }) leaving.now) }
{
    let mut changes = Vec::new(alloc);
    for reference in leaving {
        changes.push(EmitChange {
            emitter: reference.duplicate(alloc)?,
            relations: Listing::new(alloc),
        })?;
    }
    Ok(changes)
}

// What emitters emit otherwise than before.
fn link_changes<L: Layers>(
    alloc: Global,
    layers: &L,
    change: &Change<'_>,
) -> Result<Vec<EmitChange>, AllocError>
    ensures { IfOk result (λ l. l.items ≡ link_changes L.rules change.now.own.now change.now.m.now change.now.holders.now change.now.leaving.now) }
{
    let mut changes = left_changes(alloc, change.leaving)?;
    match change.own {
        None => {}
        Some(own) => {
            let kept = kept_now(change, &own.reference);
            changes.push(EmitChange {
                emitter: own.reference.duplicate(alloc)?,
                relations: relations_kept(alloc, layers, &own.reference, kept)?,
            })?
        }
    }
    Ok(changes)
}

/// The links that follow from a change, and the sources whose relations aren't those before it. The only refusal is want of
/// memory.
pub fn plan_links<L: Layers>(
    alloc: Global,
    layers: &L,
    change: &Change<'_>,
) -> Result<LinkPlan, AllocError>
    requires linked { AreLinked L.rules change.now.links.now change.now.m.now }
    requires sound { Sound L.rules change.now.m.now }
    requires reach { AreReached L.rules change.now }
    ensures linked { IfOk result (λ plan. (n : State) → IsMade change.now n
        → AreLinked L.rules plan.after (rerecorded L.rules change.now.how change.now.m.now n (reheld n))) }
    ensures changed { IfOk result (λ plan. AreChanged change.now.links.now plan.after plan.changed) }
{
    let changes = link_changes(alloc, layers, change)?;
    change.links.plan(alloc, changes.as_slice())
}
