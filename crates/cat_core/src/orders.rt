//! Takes and finishes, with their replies.
ghost use Rattle.std.specs.Prelude.{◌≡◌, IfOk, option_map};
ghost use Rattle.std.specs.declared.option.Option.TheVariants.{None};
ghost use Rattle.cat_model.specs.Catalogue.{work};
ghost use Rattle.cat_model.specs.Reply.{finished, finished_as, taken, token_of};
ghost use Rattle.cat_model.specs.Sound.{AreSmall};
ghost use Rattle.cat_model.specs.Step.Event.{Take};
ghost use Rattle.cat_events.specs.Coming.{came_fault, state_after};
ghost use Rattle.cat_events.specs.Stepped.{come_to, AreMoments};
ghost use Rattle.cat_core.specs.Answer.{order_ahead, order_for};

use crate::extra::take_ref;
use cat_collections::listing::Copied;
use cat_events::done::Done;
use cat_events::lease::take_at;
use cat_events::present::present_order;
use cat_model::types::{Fault, Finished, Order, Record, Settings, State};
use cat_plan::layers::Layers;
use cat_plan::parts::work_of;
use cat_types::reference::Ref;
use cat_types::work::{Outcome, Work};
use std::alloc::{AllocError, Global};

fn order_for(
    alloc: Global,
    reference: &Ref,
    token: u64,
    kept: Option<&Record>,
    work: Option<Work>,
) -> Result<Option<Order>, AllocError>
    ensures { IfOk result (λ o. o ≡ order_for reference.now token (option_map (λ x. x.now) kept.entry) work) }
{
    match (kept, work) {
        (Some(_), Some(work)) => Ok(Some(Order {
            reference: reference.duplicate(alloc)?,
            token,
            work,
        })),
        _ => Ok(None),
    }
}

// The order that the next lease of a reference gives.
fn order_ahead<L: Layers>(
    alloc: Global,
    layers: &L,
    m: &State,
    reference: &Ref,
) -> Result<Option<Order>, AllocError>
    ensures { IfOk result (λ o. o ≡ order_ahead L.rules m.now reference.now) }
{
    let work = work_of(alloc, layers, m, reference)?;
    order_for(alloc, reference, m.token, m.records.get(reference), work)
}

/// Leases the record that is due first and free, if there is one, and gives its order. The order is copied first, so that
/// where memory is wanted nothing has changed.
pub fn take_first<L: Layers>(
    alloc: Global,
    layers: &L,
    settings: &Settings,
    now: u64,
    m: &mut State,
) -> Result<(Option<Fault>, Option<Order>), AllocError>
    requires small { AreSmall m.old }
    requires moments { AreMoments settings.now now }
    ensures state { m.new ≡ state_after result (come_to L.rules settings.now (Take now) m.old) m.old }
    ensures fault { IfOk result (λ x. x.0 ≡ came_fault (come_to L.rules settings.now (Take now) m.old)) }
    ensures order { IfOk result (λ x. x.0 ≡ None → x.1 ≡ taken L.rules settings.now now m.old) }
{
    match take_ref(alloc, m, now) {
        Ok(None) => Ok((None, None)),
        Ok(Some(reference)) => match order_ahead(alloc, layers, m, &reference) {
            Ok(order) => {
                let fault = take_at(layers, settings, &reference, now, m);
                Ok((fault, order))
            }
            Err(refused) => Err(refused),
        },
        Err(refused) => Err(refused),
    }
}

fn token_of(kept: Option<&Record>) -> Option<u64>
    ensures { result ≡ token_of (option_map (λ x. x.now) kept.entry) }
{
    match &kept?.lease {
        None => None,
        Some(lease) => Some(lease.token),
    }
}

fn as_finished(outcome: &Outcome) -> Finished
    ensures { result ≡ finished_as outcome.now }
{
    match outcome {
        Outcome::Good(_, _) => Finished::Good,
        Outcome::Bad(_) => Finished::Bad,
    }
}

/// What a finish answers where nothing is refused.
pub fn finish_reply<L: Layers>(
    alloc: Global,
    layers: &L,
    done: &Done<'_, L>,
    m: &State,
) -> Result<Finished, AllocError>
    ensures { IfOk result (λ x. x ≡ finished L.rules done.now.order.now m.now) }
{
    let order = done.order();
    if present_order(alloc, layers, order, m)? {
        Ok(as_finished(done.outcome()))
    } else {
        Ok(Finished::Late(token_of(m.records.get(&order.reference))))
    }
}
