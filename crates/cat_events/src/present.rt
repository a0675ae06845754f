//! Whether an order is the present one.
ghost use Rattle.std.specs.Prelude.{◌≡◌, ◌&&◌, IfOk, Option, Bool, option_map};
ghost use Rattle.std.specs.declared.option.Option.TheVariants.{Some};
ghost use Rattle.cat_collections.specs.Table.{get};
ghost use Rattle.cat_links.specs.Links.{Emitted};
ghost use Rattle.cat_plan.specs.Linked.{AreLinked, AreRecorded};
ghost use Rattle.cat_model.specs.Catalogue.{same_option, work};
ghost use Rattle.cat_model.specs.Step.{has_token, is_present, is_present_stitch, is_ticket};
ghost use Rattle.cat_events.specs.Again.{is_present_order};

use cat_links::links::Links;
use cat_model::types::{Lease, Order, Record, State, StitchOrder};
use cat_plan::layers::Layers;
use cat_plan::linked_parts::present_parts;
use cat_plan::parts::work_of;
use cat_types::parts::Parts;
use cat_types::work::Work;
use std::alloc::{AllocError, Global};

fn token_fits(token: u64, lease: &Option<Lease>) -> bool
    ensures { result ≡ has_token token lease.now }
{
    match lease {
        None => false,
        Some(lease) => token == lease.token,
    }
}

fn same_as_work<L: Layers>(layers: &L, left: &Work, right: &Option<Work>) -> bool
    ensures { result ≡ same_option L.rules.same_work (Some left.now) right.now }
{
    match right {
        None => false,
        Some(right) => layers.same_work(left, right),
    }
}

fn present<L: Layers>(
    alloc: Global,
    layers: &L,
    m: &State,
    order: &Order,
    kept: &Record,
) -> Result<bool, AllocError>
    ensures { IfOk result (λ b. b ≡ is_present L.rules m.now order.now kept.now) }
{
    if !token_fits(order.token, &kept.lease) {
        return Ok(false);
    }
    let now = work_of(alloc, layers, m, &order.reference)?;
    Ok(same_as_work(layers, &order.work, &now))
}

/// Whether an order is that of the present lease of its reference.
pub fn present_order<L: Layers>(
    alloc: Global,
    layers: &L,
    order: &Order,
    m: &State,
) -> Result<bool, AllocError>
    ensures { IfOk result (λ b. b ≡ is_present_order L.rules m.now order.now (get m.now.records order.now.reference)) }
{
    match m.records.get(&order.reference) {
        None => Ok(false),
        Some(kept) => present(alloc, layers, m, order, kept),
    }
}

fn ticket_fits(ticket: u64, mark: Option<&u64>) -> bool
    ensures { result ≡ is_ticket ticket (option_map (λ x. x.now) mark.entry) }
{
    match mark {
        None => false,
        Some(mark) => ticket == *mark,
    }
}

fn same_as_parts<L: Layers>(layers: &L, left: &Parts, right: &Option<Parts>) -> bool
    ensures { result ≡ same_option L.rules.same_parts (Some left.now) right.now }
{
    match right {
        None => false,
        Some(right) => layers.same_parts(left, right),
    }
}

/// Whether an order is that of the present mark, with the present parts.
pub fn present_stitch<L: Layers>(
    alloc: Global,
    layers: &L,
    order: &StitchOrder,
    m: &State,
    links: &Links,
) -> Result<bool, AllocError>
    requires linked { AreLinked L.rules links.now m.now }
    requires recorded { AreRecorded m.now }
    ensures { IfOk result (λ b. b ≡ is_present_stitch L.rules m.now order.now) }
{
    if !ticket_fits(order.ticket, m.marks.get(&order.reference)) {
        return Ok(false);
    }
    let now = present_parts(alloc, layers, links, m, &order.reference)?;
    Ok(same_as_parts(layers, &order.parts, &now))
}
