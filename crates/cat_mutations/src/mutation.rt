//! Mutations.
ghost use Rattle.std.specs.Prelude.{◌≡◌, ◌<◌, ◌≤◌, ◌^◌, ◌++◌, IfOk, Option};
ghost use Rattle.cat_collections.specs.Table.{get, keys, put, text_cmp};
ghost use Rattle.cat_model.specs.declared.types.Leaving.TheVariants.{Deleted};
ghost use Rattle.cat_model.specs.declared.types.Origin.TheVariants.{Provider};
ghost use Rattle.cat_model.specs.Catalogue.{frame};
ghost use Rattle.cat_model.specs.Step.{items_after, mutated_state, replaced, source_at};
ghost use Rattle.cat_model.specs.Step.Event.{Mutate};
ghost use Rattle.cat_plan.specs.Linked.{AreLinked};
ghost use Rattle.cat_model.specs.Mend.{IsReady};
ghost use Rattle.cat_claims.specs.Change.{IsChangedAmong};
ghost use Rattle.cat_claims.specs.Claimed.{IsClaimed};
ghost use Rattle.cat_events.specs.Coming.{HasCome, IsLinkedStep, IsSteady, seen};
ghost use Rattle.cat_events.specs.Planned.{planned};
ghost use Rattle.cat_events.specs.OwnChanges.{IsMutating, given_or_removed};
ghost use Rattle.cat_events.specs.Stepped.{come_to};

use crate::items::next_items;
use cat_claims::types::Claimed;
use cat_collections::listing::{Copied, Listing};
use cat_collections::map::Map;
use cat_events::claims::{claimed, touched};
use cat_events::plan::{Inputs, OwnChange, Plan, planned};
use cat_events::refusal::{input_fault, unless};
use cat_events::stepped::{Step, take_in};
use cat_links::links::Links;
use cat_model::types::{Fault, Given, Leaving, Origin, ProviderInputs, Settings, State};
use cat_plan::layers::Layers;
use cat_plan::parts::append;
use cat_state_parts::items::OfferedItems;
use cat_tree::text::Text;
use cat_types::input::Offered;
use cat_types::reference::Ref;
use std::alloc::{AllocError, Global};

// The provider's inputs, none at first.
fn source_of(alloc: Global, m: &State, p: &Text) -> Result<ProviderInputs, AllocError>
    ensures { IfOk result (λ x. x ≡ source_at (get m.now.providers p.now)) }
{
    match m.providers.get(p) {
        None => Ok(ProviderInputs {
            serial: 0,
            items: OfferedItems::new(),
        }),
        Some(source) => source.duplicate(alloc),
    }
}

/// The provider's last serial number, 0 at first.
pub fn last_serial(m: &State, p: &Text) -> u64
    ensures { result ≡ (source_at (get m.now.providers p.now)).serial }
{
    match m.providers.get(p) {
        None => 0,
        Some(source) => source.serial,
    }
}

// The references whose item may be another one after a mutation.
fn given_or_removed(
    alloc: Global,
    x: &Given,
    items: &OfferedItems,
) -> Result<Listing<Ref>, AllocError>
    ensures { IfOk result (λ l. l ≡ given_or_removed x.now items.now) }
{
    let given = x.items.keys(alloc)?;
    let mut changed = if x.full {
        items.keys(alloc)?
    } else {
        x.removed.duplicate(alloc)?
    };
    append(alloc, &mut changed, given.as_slice())?;
    Ok(changed)
}

// Who holds what once a provider offers these items.
fn claimed_by(
    alloc: Global,
    p: &Text,
    items: &OfferedItems,
    order: &[Ref],
    changed: &[Ref],
    m: &State,
) -> Result<Box<Claimed>, AllocError>
    requires small { m.now.arrival ≤ 2 ^ 59 }
    requires ready { IsReady m.now }
    requires changed { IsChangedAmong (Provider p.now) (get items.now) changed.now m.now.rows }
    ensures { IfOk result (λ x. IsClaimed x.value m.now.holders (replaced (Provider p.now) (get items.now) order.now m.now)) }
{
    let origin = Origin::Provider(p.duplicate(alloc)?);
    let claimed = claimed(alloc, &origin, items, order, changed, m)?;
    Ok(claimed)
}

// The providers with these inputs of one.
fn providers_with(
    alloc: Global,
    p: &Text,
    inputs: ProviderInputs,
    m: &State,
) -> Result<Map<Text, ProviderInputs>, AllocError>
    ensures { IfOk result (λ t. t ≡ put text_cmp p.now inputs m.now.providers) }
{
    let mut providers = m.providers.share()?;
    providers.put(alloc, p.duplicate(alloc)?, inputs)?;
    Ok(providers)
}

// A mutation's own change, where these are the provider's items after it.
fn own_change(
    alloc: Global,
    p: &Text,
    x: &Given,
    items: OfferedItems,
    changed: &[Ref],
    m: &State,
) -> Result<OwnChange, AllocError>
    requires small { m.now.arrival ≤ 2 ^ 59 }
    requires ready { IsReady m.now }
    requires changed { IsChangedAmong (Provider p.now) (get items) changed.now m.now.rows }
    ensures { IfOk result (λ own. IsMutating p.now x.now items m.now own) }
{
    let order = x.items.keys(alloc)?;
    let claimed = claimed_by(alloc, p, &items, order.as_slice(), changed, m)?;
    let touched = touched(alloc, &claimed, order.as_slice())?;
    let inputs = ProviderInputs {
        serial: x.serial,
        items,
    };
    let providers = providers_with(alloc, p, inputs, m)?;
    Ok(OwnChange {
        how: Leaving::Deleted,
        own: None,
        inputs: Inputs::Providers(providers),
        claims: Some(claimed),
        touched,
    })
}

// The plan of a mutation with a new serial.
fn mutation_plan<L: Layers>(
    alloc: Global,
    layers: &L,
    p: &Text,
    x: &Given,
    m: &State,
    links: &Links,
) -> Result<Box<Plan>, AllocError>
    requires { IsSteady L.rules links.now m.now }
    ensures state { IfOk result (λ y. planned y.value m.now ≡ frame L.rules Deleted m.now (mutated_state p.now x.now (source_at (get m.now.providers p.now)) m.now)) }
    ensures linked { IfOk result (λ y. AreLinked L.rules y.value.following.links.after (planned y.value m.now)) }
{
    let source = source_of(alloc, m, p)?;
    let changed = given_or_removed(alloc, x, &source.items)?;
    let items = next_items(alloc, x, &source.items)?;
    let own = own_change(alloc, p, x, items, changed.as_slice(), m)?;
    let plan = planned(alloc, layers, own, m, links)?;
    Ok(plan)
}

// What a mutation comes to whose serial is above the provider's last one.
fn mutation_step<L: Layers>(
    alloc: Global,
    layers: &L,
    settings: &Settings,
    p: &Text,
    x: &Given,
    m: &State,
    links: &Links,
) -> Result<Step, AllocError>
    requires steady { IsSteady L.rules links.now m.now }
    requires later { (source_at (get m.now.providers p.now)).serial < x.now.serial }
    ensures come { IfOk result (λ o. seen o m.now ≡ come_to L.rules settings.now (Mutate p.now x.now) m.now) }
    ensures linked { IfOk result (λ o. IsLinkedStep L.rules o m.now) }
{
    let plan = mutation_plan(alloc, layers, p, x, m, links)?;
    let fault = input_fault(alloc, layers, settings, &plan, m)?;
    let o = unless(fault, plan);
    Ok(o)
}

/// A provider gives what changed, under a serial above its last one, with all that follows.
pub fn mutate<L: Layers>(
    alloc: Global,
    layers: &L,
    settings: &Settings,
    p: &Text,
    x: &Given,
    state: &mut State,
    links: &mut Links,
) -> Result<Option<Fault>, AllocError>
    requires steady { IsSteady L.rules links.old state.old }
    requires later { (source_at (get state.old.providers p.now)).serial < x.now.serial }
    ensures { HasCome L.rules (come_to L.rules settings.now (Mutate p.now x.now) state.old) result state.old state.new links.new }
{
    let step = mutation_step(alloc, layers, settings, p, x, state, links)?;
    take_in(alloc, step, state, links)
}
