//! The rows of one origin are replaced, and only those of the references whose offers change are looked at.
ghost use Rattle.std.specs.Prelude.{◌≡◌, ◌+◌, ◌<◌, ◌≤◌, ◌^◌, ℕ, IfOk, None, nat_le, option_map, true};
ghost use Rattle.std.specs.List.{filter, list_any};
ghost use Rattle.std.specs.Ordering.{eq_by_cmp, nat_cmp};
ghost use Rattle.cat_collections.specs.Table.{get, keys, over, same_text};
ghost use Rattle.cat_model.specs.Mend.{IsReady, lost};
ghost use Rattle.cat_model.specs.Catalogue.{Ref as Name, row_at};
ghost use Rattle.cat_model.specs.Rows.{given, is_from, same_origin};
ghost use Rattle.cat_model.specs.Step.{add_offer, add_offers, has_row, is_offer, offered_again, replaced, row_after};
ghost use Rattle.cat_claims.specs.Change.{AreAmong, IsChangedAmong, among};
ghost use Rattle.cat_claims.specs.Renewed.{AreBelow, is_gone, loses, renewed};

use crate::types::Replaced;
use cat_collections::key::Key;
use cat_collections::listing::{Copied, Listing};
use cat_collections::map::Map;
use cat_model::rows::IndexedRows;
use cat_model::types::{Numbered, Origin, Row, State};
use cat_state_parts::items::OfferedItems;
use cat_types::entries::Entries;
use cat_types::input::Offered;
use cat_types::reference::Ref;
use std::alloc::{AllocError, Global};
use std::cmp::Ordering;

/// What an origin offers, by reference.
pub trait Offering {
    ghost use Rattle.std.specs.Prelude.{Option as Maybe};
    ghost use Rattle.cat_collections.specs.Table.{Text};
    ghost use Rattle.cat_types.specs.declared.input.Offered.{Offered as Offer};

    ghost offers: { Self → Text → Maybe Offer };

    /// What is offered for a reference, if anything is.
    fn offer(&self, reference: &Ref) -> Option<&Offered>
        ensures { option_map (λ x. x.now) result ≡ offers self.now reference.now };
}

impl Offering for OfferedItems {
    ghost offers = { get };

    fn offer(&self, reference: &Ref) -> Option<&Offered> {
        self.get(reference)
    }
}

impl Offering for Entries<Ref, Offered> {
    ghost offers = { get };

    fn offer(&self, reference: &Ref) -> Option<&Offered> {
        self.get(reference)
    }
}

/// No offers at all.
#[derive(Drop)]
pub struct Nothing;

impl Offering for Nothing {
    ghost offers = { λ s r. None };

    fn offer(&self, _reference: &Ref) -> Option<&Offered> {
        None
    }
}

// Whether two keys are one.
fn is_same<K: Key>(left: &K, right: &K) -> bool
    ensures { result ≡ eq_by_cmp K.order left.now right.now }
{
    left.compare(right) == Ordering::Equal
}

// Whether two origins are one.
fn is_same_origin(left: &Origin, right: &Origin) -> bool
    ensures { result ≡ same_origin left.now right.now }
{
    match (left, right) {
        (Origin::Provider(p), Origin::Provider(q)) => is_same(p, q),
        (Origin::Entity(e), Origin::Entity(f)) => is_same(e, f),
        _ => false,
    }
}

// The row with what is offered now, where it is offered with the row's key.
fn kept_row(alloc: Global, row: &Row, offered: Option<&Offered>) -> Result<Option<Row>, AllocError>
    ensures { IfOk result (λ x. x ≡ offered_again row.now (option_map (λ y. y.now) offered.entry)) }
{
    match offered {
        None => Ok(None),
        Some(offered) => {
            if is_same(&offered.key, &row.offered.key) {
                Ok(Some(Row {
                    origin: row.origin.duplicate(alloc)?,
                    reference: row.reference.duplicate(alloc)?,
                    offered: offered.duplicate(alloc)?,
                }))
            } else {
                Ok(None)
            }
        }
    }
}

// Brings the row with this arrival to what its origin offers now, where it is of the origin.
fn renew<O: Offering>(
    alloc: Global,
    origin: &Origin,
    offers: &O,
    arrival: u64,
    rows: &mut IndexedRows,
) -> Result<(), AllocError>
    ensures { IfOk result (λ _. rows.new ≡ renewed origin.now (O.offers offers.now) (λ a r. eq_by_cmp nat_cmp a arrival) rows.old) }
{
    rows.in_order();
    let Some(row) = rows.get(&arrival) else {
        return Ok(());
    };
    if !is_same_origin(origin, &row.origin) {
        return Ok(());
    }
    match kept_row(alloc, row, offers.offer(&row.reference))? {
        Some(next) => {
            rows.replace(alloc, arrival, next)?;
            Ok(())
        }
        None => {
            let reference = row.reference.duplicate(alloc)?;
            rows.remove(alloc, arrival, origin, &reference)?;
            Ok(())
        }
    }
}

// Brings the rows with these arrivals to what their origin offers now.
fn renew_all<O: Offering>(
    alloc: Global,
    origin: &Origin,
    offers: &O,
    arrivals: &[u64],
    rows: &mut IndexedRows,
) -> Result<(), AllocError>
    ensures { IfOk result (λ _. rows.new ≡ renewed origin.now (O.offers offers.now) (λ a r. among a arrivals.now) rows.old) }
{
    for arrival in arrivals {
        renew(alloc, origin, offers, *arrival, rows)?;
    }
    rows.in_order();
    Ok(())
}

// Brings the rows of a reference to what their origin offers now.
fn renew_named<O: Offering>(
    alloc: Global,
    origin: &Origin,
    offers: &O,
    reference: &Ref,
    rows: &mut IndexedRows,
) -> Result<(), AllocError>
    ensures { IfOk result (λ _. rows.new ≡ renewed origin.now (O.offers offers.now) (λ a r. same_text r reference.now) rows.old) }
{
    let arrivals = rows.named(alloc, reference)?;
    renew_all(alloc, origin, offers, arrivals.as_slice(), rows)
}

// The rows, those of the origin as it offers them now.
fn renewed_rows<O: Offering>(
    alloc: Global,
    origin: &Origin,
    offers: &O,
    changed: &[Ref],
    rows: &IndexedRows,
) -> Result<IndexedRows, AllocError>
    requires { IsChangedAmong origin.now (O.offers offers.now) changed.now rows.now }
    ensures { IfOk result (λ x. x ≡ over nat_cmp rows.now (λ a row. row_after origin.now (O.offers offers.now) row)) }
{
    let mut renewed = rows.share()?;
    for reference in changed {
        renew_named(alloc, origin, offers, reference, &mut renewed)?;
    }
    renewed.in_order();
    Ok(renewed)
}

fn is_row_from(origin: &Origin, row: Option<&Row>) -> bool
    ensures { result ≡ is_from origin.now (option_map (λ y. y.now) row.entry) }
{
    match row {
        None => false,
        Some(row) => is_same_origin(origin, &row.origin),
    }
}

// Whether one of these rows is of the origin.
fn any_from(rows: &IndexedRows, arrivals: &[u64], origin: &Origin) -> bool
    ensures { result ≡ list_any (λ a. is_from origin.now (row_at rows.now a)) arrivals.now }
{
    for arrival in arrivals {
        if is_row_from(origin, rows.get(arrival)) {
            return true;
        }
    }
    false
}

// Whether there is a row of this origin and reference.
fn has_row(
    alloc: Global,
    rows: &IndexedRows,
    origin: &Origin,
    reference: &Ref,
) -> Result<bool, AllocError>
    ensures { IfOk result (λ x. x ≡ has_row rows.now origin.now reference.now) }
{
    let arrivals = rows.named(alloc, reference)?;
    Ok(any_from(rows, arrivals.as_slice(), origin))
}

// The row of an offer.
fn offered_row(
    alloc: Global,
    origin: &Origin,
    reference: &Ref,
    offered: &Offered,
) -> Result<Row, AllocError>
    ensures { IfOk result (λ row. row ≡ record { origin = origin.now; reference = reference.now; offered = offered.now }) }
{
    Ok(Row {
        origin: origin.duplicate(alloc)?,
        reference: reference.duplicate(alloc)?,
        offered: offered.duplicate(alloc)?,
    })
}

// An offer that has no row gets one, with the next arrival.
fn with_offer(
    alloc: Global,
    origin: &Origin,
    reference: &Ref,
    offered: Option<&Offered>,
    numbered: Numbered,
) -> Result<Numbered, AllocError>
    requires next { numbered.next < 2 ^ 63 + 2 ^ 59 }
    requires below { AreBelow numbered.rows numbered.next }
    ensures value { IfOk result (λ x. x ≡ add_offer origin.now reference.now (option_map (λ y. y.now) offered.entry) numbered) }
    ensures next { IfOk result (λ x. x.next ≤ numbered.next + 1) }
    ensures below { IfOk result (λ x. AreBelow x.rows x.next) }
{
    let Some(offered) = offered else {
        return Ok(numbered);
    };
    if has_row(alloc, &numbered.rows, origin, reference)? {
        return Ok(numbered);
    }
    let arrival = numbered.next;
    let row = offered_row(alloc, origin, reference, offered)?;
    let mut rows = numbered.rows;
    rows.put(alloc, arrival, row)?;
    Ok(Numbered {
        rows,
        next: arrival + 1,
    })
}

// Offers that have no row get one, in this order.
fn added<O: Offering>(
    alloc: Global,
    origin: &Origin,
    offers: &O,
    order: &[Ref],
    first: Numbered,
) -> Result<Numbered, AllocError>
    requires small { first.next ≤ 2 ^ 59 }
    requires below { AreBelow first.rows first.next }
    ensures value { IfOk result (λ x. x ≡ add_offers origin.now (O.offers offers.now) order.now first) }
    ensures below { IfOk result (λ x. AreBelow x.rows x.next) }
{
    let mut numbered = first;
    for reference in order {
        numbered = with_offer(alloc, origin, reference, offers.offer(reference), numbered)?;
    }
    Ok(numbered)
}

fn offers_it(origin: &Origin, reference: &Ref, row: Option<&Row>) -> bool
    ensures { result ≡ is_offer origin.now reference.now (option_map (λ y. y.now) row.entry) }
{
    match row {
        None => false,
        Some(row) => is_same_origin(origin, &row.origin) && is_same(reference, &row.reference),
    }
}

// Whether the row with this arrival was of this origin and reference, and is gone.
fn is_gone(
    origin: &Origin,
    before: &IndexedRows,
    after: &IndexedRows,
    reference: &Ref,
    arrival: Option<&u64>,
) -> bool
    ensures { result ≡ is_gone origin.now before.now after.now reference.now (option_map (λ a. a.now) arrival.entry) }
{
    match arrival {
        None => false,
        Some(arrival) => {
            offers_it(origin, reference, before.get(arrival)) && after.get(arrival).is_none()
        }
    }
}

// Those of the references that were held by a row of this origin that is gone.
fn lost_among(
    alloc: Global,
    origin: &Origin,
    changed: &[Ref],
    before: &IndexedRows,
    after: &IndexedRows,
    holders: &Map<Ref, u64>,
) -> Result<Listing<Ref>, AllocError>
    ensures { IfOk result (λ refs. refs ≡ filter (loses origin.now before.now after.now holders.now) changed.now) }
{
    let mut lost = Vec::new(alloc);
    for reference in changed {
        if is_gone(origin, before, after, reference, holders.get(reference)) {
            lost.push(reference.duplicate(alloc)?)?;
        }
    }
    Ok(Listing::from_vec(lost))
}

// The arrivals from one up to another.
fn arrivals_from(alloc: Global, first: u64, next: u64) -> Result<Map<u64, ()>, AllocError>
    ensures { IfOk result (λ x. (a : ℕ) → first ≤ a → a < next → among a (keys x) ≡ true) }
{
    let mut arrivals = Map::new();
    for arrival in first..next {
        arrivals.put(alloc, arrival, ())?;
    }
    Ok(arrivals)
}

/// The rows of `m` once this origin offers just these: a row keeps its arrival where its reference is still offered with its
/// key, and what is new is numbered in the given order. `changed` has all references outside of which the origin offers what
/// its rows have.
pub fn replaced_rows<O: Offering>(
    alloc: Global,
    origin: &Origin,
    offers: &O,
    order: &[Ref],
    changed: &[Ref],
    m: &State,
) -> Result<Replaced, AllocError>
    requires small { m.now.arrival ≤ 2 ^ 59 }
    requires ready { IsReady m.now }
    requires changed { IsChangedAmong origin.now (O.offers offers.now) changed.now m.now.rows }
    ensures rows { IfOk result (λ x. x.numbered ≡ replaced origin.now (O.offers offers.now) order.now m.now) }
    ensures lost { IfOk result (λ x. (r : Name) → list_any (same_text r) x.lost ≡ list_any (same_text r) (lost origin.now m.now.rows x.numbered.rows m.now.holders)) }
    ensures new { IfOk result (λ x. AreAmong (filter (nat_le m.now.arrival) (given x.numbered.rows origin.now)) (keys x.new)) }
{
    let first = Numbered {
        rows: renewed_rows(alloc, origin, offers, changed, &m.rows)?,
        next: m.arrival,
    };
    let numbered = added(alloc, origin, offers, order, first)?;
    let lost = lost_among(alloc, origin, changed, &m.rows, &numbered.rows, &m.holders)?;
    let new = arrivals_from(alloc, m.arrival, numbered.next)?;
    Ok(Replaced {
        numbered,
        lost,
        new,
    })
}
