//! What an event comes to.
ghost use Rattle.std.specs.Prelude.{◌≡◌, IfOk, IsTrue, Option};
ghost use Rattle.std.specs.FinMap.Entries.{is_sorted};
ghost use Rattle.cat_collections.specs.Table.{text_cmp};
ghost use Rattle.cat_model.specs.Sound.{AreOrdered};
ghost use Rattle.cat_events.specs.Coming.{came_fault, links_after, seen, state_after};

use crate::apply::applied;
use crate::plan::Plan;
use cat_links::links::Links;
use cat_model::types::{Fault, State};
use std::alloc::{AllocError, Global};

/// A refusal, which changes nothing, or the state after.
#[derive(Drop)]
pub enum Stepped {
    Refused(Fault),
    Acts(State),
}

/// What an event that may reach many references comes to: a refusal, or the plan of what differs after it.
#[derive(Drop)]
pub enum Step {
    Refused(Fault),
    Acts(Box<Plan>),
}

/// Takes a step in, or answers its refusal. Where memory is wanted, nothing changes.
pub fn take_in(
    alloc: Global,
    step: Step,
    state: &mut State,
    links: &mut Links,
) -> Result<Option<Fault>, AllocError>
    requires ordered { AreOrdered state.old }
    requires records { IsTrue (is_sorted text_cmp state.old.records) }
    ensures state { state.new ≡ state_after result (seen step state.old) state.old }
    ensures links { links.new ≡ links_after result step links.old }
    ensures fault { IfOk result (λ f. f ≡ came_fault (seen step state.old)) }
{
    match step {
        Step::Refused(fault) => Ok(Some(fault)),
        Step::Acts(plan) => {
            applied(alloc, Box::into_inner(plan), state, links)?;
            Ok(None)
        }
    }
}
