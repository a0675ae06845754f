//! What calls make of other events: a take of what is due first, and a forget by number.
ghost use Rattle.std.specs.Prelude.{◌≡◌, IfOk};
ghost use Rattle.cat_core.specs.Numbered.{AreApart};
ghost use Rattle.cat_model.specs.Step.{next_taken, ref_at};
ghost use Rattle.cat_model.specs.Step.Event.{ForgetNumber};
ghost use Rattle.cat_events.specs.Coming.{HasCome, IsSteady};
ghost use Rattle.cat_events.specs.Stepped.{come_to};

use crate::known::with_number;
use cat_collections::listing::Copied;
use cat_links::links::Links;
use cat_model::types::{Fault, Settings, State};
use cat_mutations::change::forget;
use cat_plan::layers::Layers;
use cat_types::reference::Ref;
use std::alloc::{AllocError, Global};

// A copy of the reference of a record or an orphan with this number.
fn known_copy(alloc: Global, m: &State, number: u64) -> Result<Option<Ref>, AllocError>
    requires { AreApart m.now }
    ensures { IfOk result (λ r. r ≡ ref_at m.now number) }
{
    match with_number(m, number) {
        None => Ok(None),
        Some(reference) => Ok(Some(reference.duplicate(alloc)?)),
    }
}

/// Forgets the record or orphan with this number, with all that follows.
pub fn forget_number<L: Layers>(
    alloc: Global,
    layers: &L,
    settings: &Settings,
    number: u64,
    state: &mut State,
    links: &mut Links,
) -> Result<Option<Fault>, AllocError>
    requires { IsSteady L.rules links.old state.old }
    ensures { HasCome L.rules (come_to L.rules settings.now (ForgetNumber number) state.old) result state.old state.new links.new }
{
    match known_copy(alloc, state, number) {
        Ok(None) => Ok(Some(Fault::NotFound)),
        Ok(Some(reference)) => forget(alloc, layers, settings, &reference, state, links),
        Err(refused) => Err(refused),
    }
}

/// The record that a take at this moment leases. Only its reference is copied.
pub fn take_ref(alloc: Global, m: &State, now: u64) -> Result<Option<Ref>, AllocError>
    ensures { IfOk result (λ r. r ≡ next_taken now m.now) }
{
    m.records.in_order();
    match m.records.first_due(now) {
        None => Ok(None),
        Some(reference) => Ok(Some(reference.duplicate(alloc)?)),
    }
}
