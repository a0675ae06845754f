//! Who holds what once one origin offers something else.
ghost use Rattle.std.specs.Prelude.{◌≡◌, ◌++◌, ◌≤◌, ◌^◌, IfOk, option_map, true};
ghost use Rattle.std.specs.declared.option.Option.TheVariants.{Some};
ghost use Rattle.cat_collections.specs.Table.{get, keys};
ghost use Rattle.cat_types.specs.declared.input.Offered.{Offered as OfferedValue};
ghost use Rattle.cat_model.specs.declared.types.Origin.TheVariants.{Entity};
ghost use Rattle.cat_model.specs.Catalogue.{Ref as RefValue, may_offer};
ghost use Rattle.cat_model.specs.Sound.{AreOffers};
ghost use Rattle.cat_model.specs.Step.{replaced};
ghost use Rattle.cat_model.specs.Mend.{IsReady};
ghost use Rattle.cat_claims.specs.Change.{IsChangedAmong};
ghost use Rattle.cat_claims.specs.Claimed.{IsClaimed};
ghost use Rattle.cat_events.specs.OwnChanges.{offered_or};

use crate::again::kept_offers;
use cat_claims::claims::reclaimed;
use cat_claims::replaced::{Offering, replaced_rows};
use cat_claims::types::Claimed;
use cat_collections::listing::{Copied, Listing};
use cat_model::types::{Origin, Record, State};
use cat_plan::parts::append;
use cat_types::input::Offered;
use cat_types::reference::Ref;
use std::alloc::{AllocError, Global};

/// Who holds what once this origin offers just these, where outside of the changed references it offers what it did, and what is new
/// is numbered in the given order. It is handed on in a box, so that it is moved as one.
pub fn claimed<O: Offering>(
    alloc: Global,
    origin: &Origin,
    offers: &O,
    order: &[Ref],
    changed: &[Ref],
    m: &State,
) -> Result<Box<Claimed>, AllocError>
    requires small { m.now.arrival ≤ 2 ^ 59 }
    requires ready { IsReady m.now }
    requires changed { IsChangedAmong origin.now (O.offers offers.now) changed.now m.now.rows }
    requires open { (r : RefValue) (x : OfferedValue) → O.offers offers.now r ≡ Some x → may_offer m.now.holders origin.now ≡ true }
    ensures { IfOk result (λ x. IsClaimed x.value m.now.holders (replaced origin.now (O.offers offers.now) order.now m.now)) }
{
    let replaced = replaced_rows(alloc, origin, offers, order, changed, m)?;
    let claimed = reclaimed(alloc, replaced, &m.holders)?;
    Ok(Box::new(alloc, claimed)?)
}

// The references of these offers.
fn refs_of(alloc: Global, offers: &[(Ref, Offered)]) -> Result<Listing<Ref>, AllocError>
    ensures { IfOk result (λ l. l ≡ keys offers.now) }
{
    let mut refs = Listing::new(alloc);
    for (reference, _) in offers {
        refs.push(reference.duplicate(alloc)?)?;
    }
    Ok(refs)
}

// The references that a record's kept output offers, and these.
fn offered_or(
    alloc: Global,
    kept: Option<&Record>,
    order: &[Ref],
) -> Result<Listing<Ref>, AllocError>
    ensures { IfOk result (λ l. l ≡ offered_or (option_map (λ x. x.now) kept.entry) order.now) }
{
    let mut changed = refs_of(alloc, kept_offers(kept))?;
    append(alloc, &mut changed, order)?;
    Ok(changed)
}

/// Who holds what once an entity offers just these, where what is new is numbered in the given order.
pub fn claimed_by_entity<O: Offering>(
    alloc: Global,
    entity: &Ref,
    offers: &O,
    order: &[Ref],
    m: &State,
) -> Result<Box<Claimed>, AllocError>
    requires small { m.now.arrival ≤ 2 ^ 59 }
    requires ready { IsReady m.now }
    requires offers { AreOffers m.now }
    requires open { (r : RefValue) (x : OfferedValue) → O.offers offers.now r ≡ Some x → may_offer m.now.holders (Entity entity.now) ≡ true }
    ensures { IfOk result (λ x. IsClaimed x.value m.now.holders (replaced (Entity entity.now) (O.offers offers.now) order.now m.now)) }
{
    let origin = Origin::Entity(entity.duplicate(alloc)?);
    let changed = offered_or(alloc, m.records.get(entity), order)?;
    let claimed = claimed(alloc, &origin, offers, order, changed.as_slice(), m)?;
    Ok(claimed)
}

/// The references that another row holds than before, and those that the origin offers.
pub fn touched(
    alloc: Global,
    claimed: &Claimed,
    offered: &[Ref],
) -> Result<Listing<Ref>, AllocError>
    ensures { IfOk result (λ l. l ≡ claimed.now.moved ++ offered.now) }
{
    let mut all = claimed.moved.duplicate(alloc)?;
    append(alloc, &mut all, offered)?;
    Ok(all)
}
