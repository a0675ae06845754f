//! What an event comes to, and the refusals that any event may have.
ghost use Rattle.std.specs.Prelude.{◌≡◌, ◌<◌, ◌^◌, IfOk, Option};
ghost use Rattle.cat_plan.specs.Linked.{AreLinked};
ghost use Rattle.cat_model.specs.declared.types.State.{State as StateValue};
ghost use Rattle.cat_model.specs.Catalogue.{Rules};
ghost use Rattle.cat_model.specs.Step.{or_else, spent};
ghost use Rattle.cat_events.specs.Coming.{IsLinkedStep, seen};
ghost use Rattle.cat_events.specs.Planned.{arrival_after, planned, providers_after, shelf_after};
ghost use Rattle.cat_events.specs.Stepped.{over_limit, stepped};

use crate::plan::{Inputs, Plan, shelf_after};
use crate::stepped::Step;
use cat_claims::types::Claimed;
use cat_collections::map::Map;
use cat_model::types::{Counter, Fault, ProviderInputs, Settings, State};
use cat_plan::layers::Layers;
use cat_tree::text::Text;
use std::alloc::{AllocError, Global};

/// No counter passes this.
pub const MOST: u64 = 1 << 59;

fn arrival_after(claims: &Option<Box<Claimed>>, arrival: u64) -> u64
    ensures { result ≡ arrival_after claims.now arrival }
{
    match claims {
        None => arrival,
        Some(claimed) => claimed.arrival,
    }
}

/// The first counter that passes its bound where a plan comes true.
pub fn spent_after(plan: &Plan, m: &State) -> Option<Fault>
    ensures { result ≡ spent (planned plan.now m.now) }
{
    if arrival_after(&plan.claims, m.arrival) > MOST {
        return Some(Fault::Spent(Counter::Arrival));
    }
    if plan.following.records.number > MOST {
        return Some(Fault::Spent(Counter::Number));
    }
    if m.token > MOST {
        return Some(Fault::Spent(Counter::Token));
    }
    if plan.following.marks.ticket > MOST {
        return Some(Fault::Spent(Counter::Ticket));
    }
    None
}

fn providers_after<'a>(
    inputs: &'a Inputs,
    providers: &'a Map<Text, ProviderInputs>,
) -> &'a Map<Text, ProviderInputs>
    ensures { result.now ≡ providers_after inputs.now providers.now }
{
    match inputs {
        Inputs::Providers(after) => after,
        _ => providers,
    }
}

/// The refusals of what adds to the inputs, where this is its plan.
pub fn input_fault<L: Layers>(
    alloc: Global,
    layers: &L,
    settings: &Settings,
    plan: &Plan,
    m: &State,
) -> Result<Option<Fault>, AllocError>
    ensures { IfOk result (λ f. f ≡ or_else (over_limit L.rules settings.now (planned plan.now m.now)) (spent (planned plan.now m.now))) }
{
    let providers = providers_after(&plan.inputs, &m.providers);
    let shelf = shelf_after(&plan.inputs, &m.shelf);
    let sum = layers.bytes(alloc, providers, shelf)?;
    if settings.input_limit < sum {
        return Ok(Some(Fault::TooLarge(sum)));
    }
    Ok(spent_after(plan, m))
}

/// What an event comes to that may be refused by `fault`, where this is its plan.
pub fn unless(fault: Option<Fault>, plan: Box<Plan>) -> Step
    ensures seen { (m : StateValue) → seen result m ≡ stepped fault (planned plan.value m) }
    ensures linked { (rules : Rules) (m : StateValue) → AreLinked rules plan.value.following.links.after (planned plan.value m) → IsLinkedStep rules result m }
{
    match fault {
        Some(fault) => Step::Refused(fault),
        None => Step::Acts(plan),
    }
}

/// What an event without other refusals comes to, where this is its plan.
pub fn unless_spent(plan: Box<Plan>, m: &State) -> Step
    ensures seen { seen result m.now ≡ stepped (spent (planned plan.value m.now)) (planned plan.value m.now) }
    ensures linked { (rules : Rules) → AreLinked rules plan.value.following.links.after (planned plan.value m.now) → IsLinkedStep rules result m.now }
{
    let fault = spent_after(&plan, m);
    unless(fault, plan)
}
