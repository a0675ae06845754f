//! Finishes.
ghost use Rattle.std.specs.Prelude.{◌≡◌, ◌+◌, ◌<◌, ◌≤◌, ◌^◌, true, IfOk, MatchBool, Option};
ghost use Rattle.std.specs.declared.option.Option.TheVariants.{Some};
ghost use Rattle.cat_collections.specs.Table.{get};
ghost use Rattle.cat_types.specs.declared.work.Outcome.TheVariants.{Good};
ghost use Rattle.cat_plan.specs.Linked.{AreLinked};
ghost use Rattle.cat_model.specs.Catalogue.{Issues, frame, held};
ghost use Rattle.cat_model.specs.Sound.{AreOffers};
ghost use Rattle.cat_model.specs.Step.{finished_record, finished_state, leaving};
ghost use Rattle.cat_model.specs.Step.Event.{Finish};
ghost use Rattle.cat_events.specs.Again.{is_present_order, offers_again};
ghost use Rattle.cat_model.specs.Mend.{IsReady};
ghost use Rattle.cat_events.specs.Coming.{HasCome, IsLinkedStep, IsSteady, seen};
ghost use Rattle.cat_events.specs.OwnChanges.{IsFinishing, finishing_alone};
ghost use Rattle.cat_events.specs.Planned.{planned};
ghost use Rattle.cat_events.specs.Stepped.{come_to, AreMoments};

use crate::again::offers_again;
use crate::claims::{claimed_by_entity, touched};
use crate::done::Done;
use crate::plan::{Inputs, OwnChange, Plan, planned};
use crate::present::present_order;
use crate::refusal::unless_spent;
use crate::stepped::{Step, take_in};
use cat_collections::listing::{Copied, Listing};
use cat_links::links::Links;
use cat_model::types::{Fault, Leaving, OrphanRule, Record, Settings, State};
use cat_plan::change::Own;
use cat_plan::layers::Layers;
use cat_types::work::{Outcome, Output};
use std::alloc::{AllocError, Global};

// What becomes of what leaves at a finish.
fn leaving(rule: OrphanRule) -> Leaving
    ensures { result ≡ leaving rule }
{
    match rule {
        OrphanRule::Keep => Leaving::Orphaned,
        OrphanRule::Delete => Leaving::Deleted,
    }
}

fn record_finished(
    alloc: Global,
    settings: &Settings,
    now: u64,
    kept: &Record,
    outcome: &Outcome,
) -> Result<Record, AllocError>
    requires { AreMoments settings.now now }
    ensures { IfOk result (λ x. x ≡ finished_record settings.now now kept.now outcome.now) }
{
    let due = now + settings.interval;
    match outcome {
        Outcome::Good(output, issues) => {
            let issues = issues.duplicate(alloc)?;
            let output = output.duplicate(alloc)?;
            Ok(Record {
                number: kept.number,
                output: Some(output),
                issues,
                due,
                lease: None,
            })
        }
        Outcome::Bad(issues) => {
            let issues = issues.duplicate(alloc)?;
            let output = kept.output.duplicate(alloc)?;
            Ok(Record {
                number: kept.number,
                output,
                issues,
                due,
                lease: None,
            })
        }
    }
}

// The own change of a good result that offers something else.
fn change_of_rows(
    alloc: Global,
    how: Leaving,
    own: Own,
    output: &Output,
    m: &State,
) -> Result<OwnChange, AllocError>
    requires small { m.now.arrival ≤ 2 ^ 59 }
    requires ready { IsReady m.now }
    requires offers { AreOffers m.now }
    requires held { held m.now.holders own.reference ≡ true }
    ensures { IfOk result (λ x. (issues : Issues) → IsFinishing how own (Good output.now issues) m.now x) }
{
    let order = output.offers.keys(alloc)?;
    let claimed = claimed_by_entity(alloc, &own.reference, &output.offers, order.as_slice(), m)?;
    let touched = touched(alloc, &claimed, order.as_slice())?;
    Ok(OwnChange {
        how,
        own: Some(own),
        inputs: Inputs::Same,
        claims: Some(claimed),
        touched,
    })
}

// The own change of a result that offers what was offered, and so leaves all rows as they are.
fn change_alone(alloc: Global, how: Leaving, own: Own) -> OwnChange
    ensures { result ≡ finishing_alone how own }
{
    OwnChange {
        how,
        own: Some(own),
        inputs: Inputs::Same,
        claims: None,
        touched: Listing::new(alloc),
    }
}

// The own change of a result.
fn own_change(
    alloc: Global,
    how: Leaving,
    own: Own,
    kept: &Record,
    outcome: &Outcome,
    m: &State,
) -> Result<OwnChange, AllocError>
    requires small { m.now.arrival ≤ 2 ^ 59 }
    requires ready { IsReady m.now }
    requires offers { AreOffers m.now }
    requires held { held m.now.holders own.reference ≡ true }
    ensures { IfOk result (λ x. MatchBool (offers_again (Some kept.now) outcome.now) (x ≡ finishing_alone how own) (IsFinishing how own outcome.now m.now x)) }
{
    match outcome {
        Outcome::Bad(_) => Ok(change_alone(alloc, how, own)),
        Outcome::Good(output, _) => {
            if offers_again(Some(kept), outcome) {
                Ok(change_alone(alloc, how, own))
            } else {
                change_of_rows(alloc, how, own, output, m)
            }
        }
    }
}

// The plan of the finish of the present order.
fn finish_plan<L: Layers>(
    alloc: Global,
    layers: &L,
    settings: &Settings,
    done: &Done<'_, L>,
    now: u64,
    m: &State,
    links: &Links,
    kept: &Record,
) -> Result<Box<Plan>, AllocError>
    requires steady { IsSteady L.rules links.now m.now }
    requires moments { AreMoments settings.now now }
    requires there { get m.now.records done.now.order.now.reference ≡ Some kept.now }
    ensures state { IfOk result (λ x. planned x.value m.now ≡ frame L.rules (leaving settings.now.orphans) m.now (finished_state settings.now done.now.order.now.reference now kept.now (L.rules.result done.now.order.now.work) m.now)) }
    ensures linked { IfOk result (λ x. AreLinked L.rules x.value.following.links.after (planned x.value m.now)) }
{
    let outcome = done.outcome();
    let own = Own {
        reference: done.order().reference.duplicate(alloc)?,
        kept: Some(record_finished(alloc, settings, now, kept, outcome)?),
    };
    let change = own_change(alloc, leaving(settings.orphans), own, kept, outcome, m)?;
    let plan = planned(alloc, layers, change, m, links)?;
    Ok(plan)
}

// What the finish of the present order comes to.
fn finish_step<L: Layers>(
    alloc: Global,
    layers: &L,
    settings: &Settings,
    done: &Done<'_, L>,
    now: u64,
    m: &State,
    links: &Links,
    kept: &Record,
) -> Result<Step, AllocError>
    requires steady { IsSteady L.rules links.now m.now }
    requires moments { AreMoments settings.now now }
    requires there { get m.now.records done.now.order.now.reference ≡ Some kept.now }
    requires present { is_present_order L.rules m.now done.now.order.now (Some kept.now) ≡ true }
    ensures come { IfOk result (λ o. seen o m.now ≡ come_to L.rules settings.now (Finish done.now.order.now now) m.now) }
    ensures linked { IfOk result (λ o. IsLinkedStep L.rules o m.now) }
{
    let plan = finish_plan(alloc, layers, settings, done, now, m, links, kept)?;
    let o = unless_spent(plan, m);
    Ok(o)
}

// Takes in the result of the present order.
fn finish_present<L: Layers>(
    alloc: Global,
    layers: &L,
    settings: &Settings,
    done: &Done<'_, L>,
    now: u64,
    state: &mut State,
    links: &mut Links,
) -> Result<Option<Fault>, AllocError>
    requires steady { IsSteady L.rules links.old state.old }
    requires moments { AreMoments settings.now now }
    requires present { is_present_order L.rules state.old done.now.order.now (get state.old.records done.now.order.now.reference) ≡ true }
    ensures { HasCome L.rules (come_to L.rules settings.now (Finish done.now.order.now now) state.old) result state.old state.new links.new }
{
    match state.records.get(&done.order().reference) {
        None => Ok(None),
        Some(kept) => {
            let step = finish_step(alloc, layers, settings, done, now, state, links, kept)?;
            take_in(alloc, step, state, links)
        }
    }
}

/// Takes in a result, where its order is the present one, with all that follows. Otherwise it is late, and changes nothing.
pub fn finish<L: Layers>(
    alloc: Global,
    layers: &L,
    settings: &Settings,
    done: &Done<'_, L>,
    now: u64,
    state: &mut State,
    links: &mut Links,
) -> Result<Option<Fault>, AllocError>
    requires steady { IsSteady L.rules links.old state.old }
    requires moments { AreMoments settings.now now }
    ensures { HasCome L.rules (come_to L.rules settings.now (Finish done.now.order.now now) state.old) result state.old state.new links.new }
{
    if present_order(alloc, layers, done.order(), state)? {
        finish_present(alloc, layers, settings, done, now, state, links)
    } else {
        Ok(None)
    }
}
