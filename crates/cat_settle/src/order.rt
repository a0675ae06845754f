//! The orders of a settle, and what its events count.
ghost use Rattle.std.specs.Prelude.{◌≡◌, ◌≤◌, IfOk, ℕ, List, Option, Bool, min, length, option_map, option_and_then};
ghost use Rattle.cat_collections.specs.Table.{get};
ghost use Rattle.cat_model.specs.declared.types.Order.{Order as OrderValue};
ghost use Rattle.cat_model.specs.declared.types.StitchOrder.{StitchOrder as StitchOrderValue};
ghost use Rattle.cat_model.specs.declared.types.State.{State as StateValue};
ghost use Rattle.cat_model.specs.Catalogue.{Rules, parts};
ghost use Rattle.cat_model.specs.Settle.{counted, is_due, mark_order, order, order_with, stitch_order};
ghost use Rattle.cat_model.specs.Step.Event.{Finish, PutStitch, TakeAt};
ghost use Rattle.cat_plan.specs.Linked.{AreLinked, AreRecorded};
ghost use Rattle.cat_settle.specs.Part.{noted};

use cat_collections::listing::Copied;
use cat_links::links::Links;
use cat_model::types::{Fault, Lease, Order, Progress, Record, State, StitchOrder, Stop};
use cat_plan::layers::Layers;
use cat_plan::linked_parts::present_parts;
use cat_plan::parts::work_of;
use cat_types::parts::Parts;
use cat_types::reference::Ref;
use cat_types::work::Work;
use std::alloc::{AllocError, Global};

/// A settle without a limit of its own that comes to so many events is cut as for want of memory. None does: each lease draws a token below 2^59.
pub const MOST_EVENTS: u64 = u64::MAX - 1;

/// One more, up to the greatest number of 64 bits.
pub fn counted(count: u64) -> u64
    ensures { result ≡ counted count }
{
    if count < u64::MAX { count + 1 } else { count }
}

/// A take that came to this is counted, or stops the settle.
pub fn lease_noted(came: Option<Fault>, p: &mut Progress)
    ensures { (r : List ℕ) (now : ℕ) → p.new ≡ noted (TakeAt r now) came p.old }
{
    match came {
        None => {
            p.leases = counted(p.leases);
            p.events = counted(p.events);
        }
        Some(fault) => p.stop = Some(Stop::Refused(fault)),
    }
}

/// A finish that came to this is counted, or stops the settle.
pub fn finish_noted(came: Option<Fault>, p: &mut Progress)
    ensures { (x : OrderValue) (now : ℕ) → p.new ≡ noted (Finish x now) came p.old }
{
    match came {
        None => p.events = counted(p.events),
        Some(fault) => p.stop = Some(Stop::Refused(fault)),
    }
}

/// A stitch that came to this is counted, or stops the settle.
pub fn stitch_noted(came: Option<Fault>, p: &mut Progress)
    ensures { (x : StitchOrderValue) → p.new ≡ noted (PutStitch x) came p.old }
{
    match came {
        None => {
            p.stitched = counted(p.stitched);
            p.events = counted(p.events);
        }
        Some(fault) => p.stop = Some(Stop::Refused(fault)),
    }
}

fn ordered(
    alloc: Global,
    reference: &Ref,
    lease: Option<&Lease>,
    work: Option<Work>,
) -> Result<Option<Order>, AllocError>
    ensures { IfOk result (λ o. o ≡ order_with reference.now (option_map (λ x. x.now) lease.entry) work) }
{
    match (lease, work) {
        (Some(lease), Some(work)) => Ok(Some(Order {
            reference: reference.duplicate(alloc)?,
            token: lease.token,
            work,
        })),
        _ => Ok(None),
    }
}

fn lease_of<'a>(m: &'a State, reference: &Ref) -> Option<&'a Lease>
    ensures { option_map (λ x. x.now) result ≡ option_and_then (λ x. x.lease) (get m.now.records reference.now) }
{
    match m.records.get(reference) {
        None => None,
        Some(kept) => kept.lease.as_ref(),
    }
}

/// The order of the present lease of a reference.
pub fn order_of<L: Layers>(
    alloc: Global,
    layers: &L,
    m: &State,
    reference: &Ref,
) -> Result<Option<Order>, AllocError>
    ensures { IfOk result (λ o. o ≡ order L.rules m.now reference.now) }
{
    let work = work_of(alloc, layers, m, reference)?;
    ordered(alloc, reference, lease_of(m, reference), work)
}

fn stitch_ordered(
    alloc: Global,
    reference: &Ref,
    ticket: Option<&u64>,
    parts: Option<Parts>,
) -> Result<Option<StitchOrder>, AllocError>
    ensures { IfOk result (λ o. (rules : Rules) (m : StateValue) → o ≡ stitch_order rules m reference.now (option_map (λ x. x.now) ticket.entry) parts) }
{
    match (ticket, parts) {
        (Some(ticket), Some(parts)) => Ok(Some(StitchOrder {
            reference: reference.duplicate(alloc)?,
            ticket: *ticket,
            parts,
        })),
        _ => Ok(None),
    }
}

/// The order of the present mark of a reference.
pub fn stitch_order_of<L: Layers>(
    alloc: Global,
    layers: &L,
    m: &State,
    reference: &Ref,
    links: &Links,
) -> Result<Option<StitchOrder>, AllocError>
    requires linked { AreLinked L.rules links.now m.now }
    requires recorded { AreRecorded m.now }
    ensures { IfOk result (λ o. o ≡ mark_order L.rules m.now reference.now) }
{
    let parts = present_parts(alloc, layers, links, m, reference)?;
    let given = stitch_ordered(alloc, reference, m.marks.get(reference), parts)?;
    Ok(given)
}

/// Whether a record's due moment has come.
pub(crate) fn due(now: u64, kept: Option<&Record>) -> bool
    ensures { result ≡ is_due now (option_map (λ x. x.now) kept.entry) }
{
    match kept {
        None => false,
        Some(kept) => kept.due <= now,
    }
}
