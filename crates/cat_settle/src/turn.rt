//! A turn: a record that is due is taken, whatever lease it has, and finished.
ghost use Rattle.std.specs.Prelude.{◌≡◌, ◌≤◌, [], IfOk, IfErr, ℕ, Option, Bool};
ghost use Rattle.std.specs.declared.option.Option.TheVariants.{Some};
ghost use Rattle.cat_collections.specs.Table.{get, keys};
ghost use Rattle.cat_links.specs.Links.{Emitted};
ghost use Rattle.cat_model.specs.Settle.{is_due, order, try_event, try_finish, try_take_and_finish, try_turn, try_turns};
ghost use Rattle.cat_model.specs.Sound.{AreSmall, Sound};
ghost use Rattle.cat_model.specs.Step.Event.{Finish, TakeAt};
ghost use Rattle.cat_events.specs.Coming.{IsSteady};
ghost use Rattle.cat_events.specs.Stepped.{come_to, AreMoments};
ghost use Rattle.cat_affected.specs.Gathered.{Gathers, IsWithin};
ghost use Rattle.cat_settle.specs.Part.{Came, Goes, moved, moved_in};

use crate::order::{due, finish_noted, lease_noted, order_of};
use crate::reaching::{gathered, rows_before};
use cat_collections::listing::Listing;
use cat_events::done::Done;
use cat_events::finish::finish;
use cat_events::lease::take_at;
use cat_links::links::Links;
use cat_model::types::{Order, Progress, Settings};
use cat_plan::layers::Layers;
use cat_types::reference::Ref;
use std::alloc::{AllocError, Global};

// A record is taken, which is counted or stops the settle. The links are as before.
fn taken<L: Layers>(layers: &L, settings: &Settings, now: u64, reference: &Ref, p: &mut Progress)
    requires sound { Sound L.rules p.old.state }
    requires small { AreSmall p.old.state }
    requires moments { AreMoments settings.now now }
    ensures { p.new ≡ moved (TakeAt reference.now now) (come_to L.rules settings.now (TakeAt reference.now now) p.old.state) p.old }
{
    let came = take_at(layers, settings, reference, now, &mut p.state);
    lease_noted(came, p);
}

fn take_tried<L: Layers>(
    alloc: Global,
    layers: &L,
    settings: &Settings,
    most: u64,
    now: u64,
    reference: &Ref,
    p: &mut Progress,
) -> Result<(), AllocError>
    requires sound { Sound L.rules p.old.state }
    requires small { AreSmall p.old.state }
    requires moments { AreMoments settings.now now }
    ensures came { Came result (λ limit. try_event L.rules settings.now limit (TakeAt reference.now now) p.old) p.new }
    ensures steady { (links : Emitted) → IsSteady L.rules links p.old.state → IsSteady L.rules links p.new.state }
    ensures goes { Goes L.rules p.old p.new }
    ensures within { p.old.events ≤ most → p.new.events ≤ most }
    ensures still { IsWithin (Some []) p.old.state p.new.state }
{
    if p.stop.is_some() {
        return Ok(());
    }
    if p.events >= most {
        return Err(AllocError);
    }
    taken(layers, settings, now, reference, p);
    Ok(())
}

// The result of an order's work is taken in, which is counted or stops the settle.
fn finished<L: Layers>(
    alloc: Global,
    layers: &L,
    settings: &Settings,
    now: u64,
    order: &Order,
    p: &mut Progress,
    links: &mut Links,
) -> Result<(), AllocError>
    requires steady { IsSteady L.rules links.old p.old.state }
    requires moments { AreMoments settings.now now }
    ensures moved { p.new ≡ moved_in result (Finish order.now now) (come_to L.rules settings.now (Finish order.now now) p.old.state) p.old }
    ensures steady { IsSteady L.rules links.new p.new.state }
{
    match Done::of(alloc, layers, order) {
        Ok(done) => match finish(alloc, layers, settings, &done, now, &mut p.state, links) {
            Ok(came) => {
                finish_noted(came, p);
                Ok(())
            }
            Err(refused) => Err(refused),
        },
        Err(refused) => Err(refused),
    }
}

// The same, and what it reached is gathered.
fn finished_and_gathered<L: Layers>(
    alloc: Global,
    layers: &L,
    settings: &Settings,
    now: u64,
    order: &Order,
    p: &mut Progress,
    links: &mut Links,
    reached: &mut Option<Listing<Ref>>,
) -> Result<(), AllocError>
    requires steady { IsSteady L.rules links.old p.old.state }
    requires moments { AreMoments settings.now now }
    ensures moved { p.new ≡ moved_in result (Finish order.now now) (come_to L.rules settings.now (Finish order.now now) p.old.state) p.old }
    ensures steady { IsSteady L.rules links.new p.new.state }
    ensures gathers { Gathers reached.old p.old.state reached.new p.new.state }
{
    let before = rows_before(alloc, reached, &p.state);
    let came = finished(alloc, layers, settings, now, order, p, links);
    *reached = gathered(alloc, reached.take(), &before, &order.reference, &p.state);
    came
}

fn finish_tried<L: Layers>(
    alloc: Global,
    layers: &L,
    settings: &Settings,
    most: u64,
    now: u64,
    order: &Order,
    p: &mut Progress,
    links: &mut Links,
    reached: &mut Option<Listing<Ref>>,
) -> Result<(), AllocError>
    requires steady { IsSteady L.rules links.old p.old.state }
    requires moments { AreMoments settings.now now }
    ensures came { Came result (λ limit. try_event L.rules settings.now limit (Finish order.now now) p.old) p.new }
    ensures steady { IsSteady L.rules links.new p.new.state }
    ensures goes { Goes L.rules p.old p.new }
    ensures within { p.old.events ≤ most → p.new.events ≤ most }
    ensures gathers { Gathers reached.old p.old.state reached.new p.new.state }
{
    if p.stop.is_some() {
        return Ok(());
    }
    if p.events >= most {
        return Err(AllocError);
    }
    finished_and_gathered(alloc, layers, settings, now, order, p, links, reached)
}

// An order is finished, if there is one.
fn given_tried<L: Layers>(
    alloc: Global,
    layers: &L,
    settings: &Settings,
    most: u64,
    now: u64,
    given: Option<Order>,
    p: &mut Progress,
    links: &mut Links,
    reached: &mut Option<Listing<Ref>>,
) -> Result<(), AllocError>
    requires steady { IsSteady L.rules links.old p.old.state }
    requires moments { AreMoments settings.now now }
    ensures came { Came result (λ limit. try_finish L.rules settings.now now limit given p.old) p.new }
    ensures steady { IsSteady L.rules links.new p.new.state }
    ensures goes { Goes L.rules p.old p.new }
    ensures within { p.old.events ≤ most → p.new.events ≤ most }
    ensures gathers { Gathers reached.old p.old.state reached.new p.new.state }
{
    match given {
        Some(order) => finish_tried(
            alloc, layers, settings, most, now, &order, p, links, reached,
        ),
        None => Ok(()),
    }
}

// The order of the present lease is finished.
fn order_tried<L: Layers>(
    alloc: Global,
    layers: &L,
    settings: &Settings,
    most: u64,
    now: u64,
    reference: &Ref,
    p: &mut Progress,
    links: &mut Links,
    reached: &mut Option<Listing<Ref>>,
) -> Result<(), AllocError>
    requires steady { IsSteady L.rules links.old p.old.state }
    requires moments { AreMoments settings.now now }
    ensures came { Came result (λ limit. try_finish L.rules settings.now now limit (order L.rules p.old.state reference.now) p.old) p.new }
    ensures steady { IsSteady L.rules links.new p.new.state }
    ensures goes { Goes L.rules p.old p.new }
    ensures within { p.old.events ≤ most → p.new.events ≤ most }
    ensures gathers { Gathers reached.old p.old.state reached.new p.new.state }
{
    match order_of(alloc, layers, &p.state, reference) {
        Ok(given) => given_tried(alloc, layers, settings, most, now, given, p, links, reached),
        Err(refused) => Err(refused),
    }
}

fn taken_and_finished<L: Layers>(
    alloc: Global,
    layers: &L,
    settings: &Settings,
    most: u64,
    now: u64,
    reference: &Ref,
    p: &mut Progress,
    links: &mut Links,
    reached: &mut Option<Listing<Ref>>,
) -> Result<(), AllocError>
    requires steady { IsSteady L.rules links.old p.old.state }
    requires moments { AreMoments settings.now now }
    ensures came { Came result (λ limit. try_take_and_finish L.rules settings.now now limit reference.now p.old) p.new }
    ensures steady { IsSteady L.rules links.new p.new.state }
    ensures goes { Goes L.rules p.old p.new }
    ensures within { p.old.events ≤ most → p.new.events ≤ most }
    ensures gathers { Gathers reached.old p.old.state reached.new p.new.state }
{
    match take_tried(alloc, layers, settings, most, now, reference, p) {
        Ok(()) => order_tried(
            alloc, layers, settings, most, now, reference, p, links, reached,
        ),
        Err(refused) => Err(refused),
    }
}

fn turned<L: Layers>(
    alloc: Global,
    layers: &L,
    settings: &Settings,
    most: u64,
    now: u64,
    reference: &Ref,
    p: &mut Progress,
    links: &mut Links,
    reached: &mut Option<Listing<Ref>>,
) -> Result<(), AllocError>
    requires steady { IsSteady L.rules links.old p.old.state }
    requires moments { AreMoments settings.now now }
    ensures came { Came result (λ limit. try_turn L.rules settings.now now limit reference.now p.old) p.new }
    ensures steady { IsSteady L.rules links.new p.new.state }
    ensures goes { Goes L.rules p.old p.new }
    ensures within { p.old.events ≤ most → p.new.events ≤ most }
    ensures gathers { Gathers reached.old p.old.state reached.new p.new.state }
{
    if due(now, p.state.records.get(reference)) {
        taken_and_finished(
            alloc, layers, settings, most, now, reference, p, links, reached,
        )
    } else {
        Ok(())
    }
}

/// Each of these records that is still due has its turn.
pub fn all_turned<L: Layers>(
    alloc: Global,
    layers: &L,
    settings: &Settings,
    most: u64,
    now: u64,
    refs: &[Ref],
    p: &mut Progress,
    links: &mut Links,
    reached: &mut Option<Listing<Ref>>,
) -> Result<(), AllocError>
    requires steady { IsSteady L.rules links.old p.old.state }
    requires moments { AreMoments settings.now now }
    ensures came { Came result (λ limit. try_turns L.rules settings.now now limit refs.now p.old) p.new }
    ensures steady { IsSteady L.rules links.new p.new.state }
    ensures goes { Goes L.rules p.old p.new }
    ensures within { p.old.events ≤ most → p.new.events ≤ most }
    ensures gathers { Gathers reached.old p.old.state reached.new p.new.state }
{
    for reference in refs {
        match turned(
            alloc, layers, settings, most, now, reference, p, links, reached,
        ) {
            Ok(()) => {}
            Err(refused) => return Err(refused),
        }
    }
    Ok(())
}
