//! The stitches at the end of a settle, in order of ticket.
ghost use Rattle.std.specs.Prelude.{◌≡◌, ◌≤◌, [], IfOk, IfErr, ℕ, List, Option};
ghost use Rattle.std.specs.declared.option.Option.TheVariants.{Some};
ghost use Rattle.cat_collections.specs.Table.{get, keys};
ghost use Rattle.cat_model.specs.Settle.{by_ticket, mark_order, marks_in_order, try_event, try_marks, try_stitch_with, try_stitches};
ghost use Rattle.cat_model.specs.Step.Event.{PutStitch};
ghost use Rattle.cat_events.specs.Coming.{IsSteady};
ghost use Rattle.cat_events.specs.Stepped.{come_to};
ghost use Rattle.cat_affected.specs.Gathered.{IsWithin};
ghost use Rattle.cat_settle.specs.Part.{Came, Goes, moved_in};

use crate::order::{stitch_noted, stitch_order_of};
use cat_collections::listing::{Copied, Listing};
use cat_events::done::Stitched;
use cat_events::stitch::put_stitch;
use cat_links::links::Links;
use cat_model::types::{Progress, Settings, StitchOrder};
use cat_plan::layers::Layers;
use cat_state_parts::marks::Marks;
use cat_types::reference::Ref;
use std::alloc::{AllocError, Global};

// Copies of the marks.
fn copied(alloc: Global, marks: &Marks) -> Result<Vec<(Ref, u64)>, AllocError>
    ensures { IfOk result (λ l. l.items ≡ marks.now) }
{
    let mut made = Vec::new(alloc);
    for (reference, ticket) in marks.iter() {
        made.push((reference.duplicate(alloc)?, *ticket))?;
    }
    Ok(made)
}

// The marks in order of ticket.
fn sorted_marks(alloc: Global, marks: &Marks) -> Result<Vec<(Ref, u64)>, AllocError>
    ensures { IfOk result (λ l. l.items ≡ marks_in_order marks.now) }
{
    let mut made = copied(alloc, marks)?;
    made.sort_by_key(|mark| mark.1)?;
    Ok(made)
}

// The references of marks, which are taken out of them.
fn refs_of(alloc: Global, marks: Vec<(Ref, u64)>) -> Result<Listing<Ref>, AllocError>
    ensures { IfOk result (λ l. l ≡ keys marks.items) }
{
    let mut refs = Vec::new(alloc);
    for (reference, _) in marks {
        refs.push(reference)?;
    }
    Ok(Listing::from_vec(refs))
}

// The marked references in order of ticket.
fn marked_refs(alloc: Global, marks: &Marks) -> Result<Listing<Ref>, AllocError>
    ensures { IfOk result (λ l. l ≡ by_ticket marks.now) }
{
    let sorted = sorted_marks(alloc, marks)?;
    refs_of(alloc, sorted)
}

// The document of an order is stored, which is counted or stops the settle.
fn stitched<L: Layers>(
    alloc: Global,
    layers: &L,
    settings: &Settings,
    order: &StitchOrder,
    p: &mut Progress,
    links: &Links,
) -> Result<(), AllocError>
    requires steady { IsSteady L.rules links.now p.old.state }
    ensures moved { p.new ≡ moved_in result (PutStitch order.now) (come_to L.rules settings.now (PutStitch order.now) p.old.state) p.old }
    ensures steady { IsSteady L.rules links.now p.new.state }
{
    match Stitched::of(alloc, layers, order) {
        Ok(made) => match put_stitch(alloc, layers, settings, &made, &mut p.state, links) {
            Ok(came) => {
                stitch_noted(came, p);
                Ok(())
            }
            Err(refused) => Err(refused),
        },
        Err(refused) => Err(refused),
    }
}

fn stitch_tried<L: Layers>(
    alloc: Global,
    layers: &L,
    settings: &Settings,
    most: u64,
    order: &StitchOrder,
    p: &mut Progress,
    links: &Links,
) -> Result<(), AllocError>
    requires steady { IsSteady L.rules links.now p.old.state }
    ensures came { Came result (λ limit. try_event L.rules settings.now limit (PutStitch order.now) p.old) p.new }
    ensures steady { IsSteady L.rules links.now p.new.state }
    ensures goes { Goes L.rules p.old p.new }
    ensures within { p.old.events ≤ most → p.new.events ≤ most }
    ensures still { IsWithin (Some []) p.old.state p.new.state }
{
    if p.stop.is_some() {
        return Ok(());
    }
    if p.events >= most {
        return Err(AllocError);
    }
    stitched(alloc, layers, settings, order, p, links)
}

// An order is stitched, if there is one.
fn given_stitched<L: Layers>(
    alloc: Global,
    layers: &L,
    settings: &Settings,
    most: u64,
    given: Option<StitchOrder>,
    p: &mut Progress,
    links: &Links,
) -> Result<(), AllocError>
    requires steady { IsSteady L.rules links.now p.old.state }
    ensures came { Came result (λ limit. try_stitch_with L.rules settings.now limit given p.old) p.new }
    ensures steady { IsSteady L.rules links.now p.new.state }
    ensures goes { Goes L.rules p.old p.new }
    ensures within { p.old.events ≤ most → p.new.events ≤ most }
    ensures still { IsWithin (Some []) p.old.state p.new.state }
{
    match given {
        Some(order) => stitch_tried(alloc, layers, settings, most, &order, p, links),
        None => Ok(()),
    }
}

// A marked reference is stitched.
fn mark_tried<L: Layers>(
    alloc: Global,
    layers: &L,
    settings: &Settings,
    most: u64,
    reference: &Ref,
    p: &mut Progress,
    links: &Links,
) -> Result<(), AllocError>
    requires steady { IsSteady L.rules links.now p.old.state }
    ensures came { Came result (λ limit. try_stitch_with L.rules settings.now limit (mark_order L.rules p.old.state reference.now) p.old) p.new }
    ensures steady { IsSteady L.rules links.now p.new.state }
    ensures goes { Goes L.rules p.old p.new }
    ensures within { p.old.events ≤ most → p.new.events ≤ most }
    ensures still { IsWithin (Some []) p.old.state p.new.state }
{
    match stitch_order_of(alloc, layers, &p.state, reference, links) {
        Ok(given) => given_stitched(alloc, layers, settings, most, given, p, links),
        Err(refused) => Err(refused),
    }
}

fn all_stitched<L: Layers>(
    alloc: Global,
    layers: &L,
    settings: &Settings,
    most: u64,
    refs: &[Ref],
    p: &mut Progress,
    links: &Links,
) -> Result<(), AllocError>
    requires steady { IsSteady L.rules links.now p.old.state }
    ensures came { Came result (λ limit. try_stitches L.rules settings.now limit refs.now p.old) p.new }
    ensures steady { IsSteady L.rules links.now p.new.state }
    ensures goes { Goes L.rules p.old p.new }
    ensures within { p.old.events ≤ most → p.new.events ≤ most }
    ensures still { IsWithin (Some []) p.old.state p.new.state }
{
    for reference in refs {
        match mark_tried(alloc, layers, settings, most, reference, p, links) {
            Ok(()) => {}
            Err(refused) => return Err(refused),
        }
    }
    Ok(())
}

/// The marked references are stitched in order of ticket.
pub fn all_marks<L: Layers>(
    alloc: Global,
    layers: &L,
    settings: &Settings,
    most: u64,
    p: &mut Progress,
    links: &Links,
) -> Result<(), AllocError>
    requires steady { IsSteady L.rules links.now p.old.state }
    ensures came { Came result (λ limit. try_marks L.rules settings.now limit p.old) p.new }
    ensures steady { IsSteady L.rules links.now p.new.state }
    ensures goes { Goes L.rules p.old p.new }
    ensures within { p.old.events ≤ most → p.new.events ≤ most }
    ensures still { IsWithin (Some []) p.old.state p.new.state }
{
    match marked_refs(alloc, &p.state.marks) {
        Ok(refs) => all_stitched(alloc, layers, settings, most, refs.as_slice(), p, links),
        Err(refused) => Err(refused),
    }
}
