//! Who holds what once the rows of one origin were replaced.
ghost use Rattle.std.specs.Prelude.{◌≡◌, ◌++◌, ◌∷◌, [], IfOk};
ghost use Rattle.std.specs.List.{filter};
ghost use Rattle.cat_collections.specs.Table.{keys};
ghost use Rattle.cat_claims.specs.Change.{IsMendable};
ghost use Rattle.cat_claims.specs.Claimed.{IsClaimed};
ghost use Rattle.cat_claims.specs.Reheld.{IsReheld};
ghost use Rattle.cat_claims.specs.Touched.{is_fresh, is_leaving, is_moved};

use crate::dropped::drop_all_given;
use crate::mend::mend;
use crate::types::{Claimed, Replaced};
use cat_collections::listing::Listing;
use cat_collections::map::Map;
use cat_types::reference::Ref;
use std::alloc::{AllocError, Global};

// The references that are newly held, those that are no longer held, and those that another row holds than before.
#[derive(Drop)]
struct Changed {
    fresh: Listing<Ref>,
    leaving: Listing<Ref>,
    moved: Listing<Ref>,
}

// A reference goes where its holders before and after say, if anywhere.
fn note(
    reference: Ref,
    before: &Map<Ref, u64>,
    after: &Map<Ref, u64>,
    changed: &mut Changed,
) -> Result<(), AllocError>
    ensures fresh { IfOk result (λ _. changed.new.fresh ≡ changed.old.fresh ++ filter (is_fresh before.now after.now) (reference ∷ [])) }
    ensures leaving { IfOk result (λ _. changed.new.leaving ≡ changed.old.leaving ++ filter (is_leaving before.now after.now) (reference ∷ [])) }
    ensures moved { IfOk result (λ _. changed.new.moved ≡ changed.old.moved ++ filter (is_moved before.now after.now) (reference ∷ [])) }
{
    match before.get(&reference) {
        None => match after.get(&reference) {
            None => Ok(()),
            Some(_) => changed.fresh.push(reference),
        },
        Some(old) => match after.get(&reference) {
            None => changed.leaving.push(reference),
            Some(new) => {
                if *old == *new {
                    Ok(())
                } else {
                    changed.moved.push(reference)
                }
            }
        },
    }
}

// Which of these references are newly held, which are no longer held, and which another row holds, in order.
fn sort_out(
    alloc: Global,
    touched: &Map<Ref, ()>,
    before: &Map<Ref, u64>,
    after: &Map<Ref, u64>,
) -> Result<Changed, AllocError>
    ensures fresh { IfOk result (λ x. x.fresh ≡ filter (is_fresh before.now after.now) (keys touched.now)) }
    ensures leaving { IfOk result (λ x. x.leaving ≡ filter (is_leaving before.now after.now) (keys touched.now)) }
    ensures moved { IfOk result (λ x. x.moved ≡ filter (is_moved before.now after.now) (keys touched.now)) }
{
    let refs = touched.keys(alloc)?;
    let mut changed = Changed {
        fresh: Listing::new(alloc),
        leaving: Listing::new(alloc),
        moved: Listing::new(alloc),
    };
    for reference in refs.into_vec() {
        note(reference, before, after, &mut changed)?;
    }
    Ok(changed)
}

// Who holds what once rows were replaced, and what changes for references by that.
#[derive(Drop)]
struct Reheld {
    holders: Map<Ref, u64>,
    changed: Changed,
}

// Who holds what once rows were replaced.
fn hold_again(
    alloc: Global,
    replaced: &Replaced,
    holders: &Map<Ref, u64>,
) -> Result<Reheld, AllocError>
    requires { IsMendable replaced.now holders.now }
    ensures { IfOk result (λ x. IsReheld x holders.now replaced.now.numbered.rows) }
{
    let mut after = holders.share()?;
    let touched = mend(alloc, replaced, &mut after)?;
    touched.in_order();
    let changed = sort_out(alloc, &touched, holders, &after)?;
    Ok(Reheld {
        holders: after,
        changed,
    })
}

/// The rules of holding are applied to rows of which those of one origin were replaced: what has lost its row, and all that
/// hangs below it, is released; then the new rows and those of what was released claim, the least arrival first; and the rows
/// of what isn't held any more go.
pub fn reclaimed(
    alloc: Global,
    replaced: Replaced,
    holders: &Map<Ref, u64>,
) -> Result<Claimed, AllocError>
    requires { IsMendable replaced holders.now }
    ensures { IfOk result (λ x. IsClaimed x holders.now replaced.numbered) }
{
    let reheld = hold_again(alloc, &replaced, holders)?;
    let changed = reheld.changed;
    let numbered = replaced.numbered;
    let mut rows = numbered.rows;
    drop_all_given(alloc, changed.leaving.as_slice(), &mut rows)?;
    Ok(Claimed {
        rows,
        holders: reheld.holders,
        arrival: numbered.next,
        fresh: changed.fresh,
        leaving: changed.leaving,
        moved: changed.moved,
    })
}
