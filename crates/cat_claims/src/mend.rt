//! The holders after a change of rows, and the references that it touches.
ghost use Rattle.std.specs.Prelude.{◌≡◌, ◌++◌, IfOk};
ghost use Rattle.std.specs.List.{flat_map};
ghost use Rattle.cat_collections.specs.Table.{keys};
ghost use Rattle.cat_model.specs.Catalogue.{rehold};
ghost use Rattle.cat_model.specs.Rows.{named};
ghost use Rattle.cat_model.specs.Mend.{released};
ghost use Rattle.cat_claims.specs.Change.{AreAmong, IsMendable};
ghost use Rattle.cat_claims.specs.Touched.{AreKeptBut, HasAll};

use crate::cut::cut_off;
use crate::types::Replaced;
use crate::waiting::{call, claim_waiting};
use cat_collections::listing::{Copied, Listing};
use cat_collections::map::Map;
use cat_model::rows::IndexedRows;
use cat_types::reference::Ref;
use std::alloc::{AllocError, Global};

// These references are held no more.
fn withdraw(alloc: Global, refs: &[Ref], holders: &mut Map<Ref, u64>) -> Result<(), AllocError>
    ensures { IfOk result (λ _. holders.new ≡ released refs.now holders.old) }
{
    holders.in_order();
    for reference in refs.iter() {
        holders.remove(alloc, reference)?;
    }
    Ok(())
}

// The rows of these references wait too.
#[tactic(auto, using(crate::proofs::Released::all_wait))]
fn call_all(
    alloc: Global,
    rows: &IndexedRows,
    refs: &[Ref],
    waiting: &mut Map<u64, ()>,
) -> Result<(), AllocError>
    ensures { IfOk result (λ _. AreAmong (keys waiting.old ++ flat_map (named rows.now) refs.now) (keys waiting.new)) }
{
    for reference in refs.iter() {
        call(alloc, rows, reference, waiting)?;
    }
    Ok(())
}

// These references are noted too.
fn note_all(alloc: Global, refs: Vec<Ref>, noted: &mut Map<Ref, ()>) -> Result<(), AllocError>
    ensures { IfOk result (λ _. HasAll (refs.items ++ keys noted.old) (keys noted.new)) }
{
    for reference in refs {
        noted.put(alloc, reference, ())?;
    }
    Ok(())
}

// All these references in order.
fn noted(alloc: Global, cut: Vec<Ref>, claimed: Listing<Ref>) -> Result<Map<Ref, ()>, AllocError>
    ensures { IfOk result (λ noted. HasAll (claimed ++ cut.items) (keys noted)) }
{
    let mut noted = Map::new();
    note_all(alloc, cut, &mut noted)?;
    note_all(alloc, claimed.into_vec(), &mut noted)?;
    Ok(noted)
}

/// The holders once the rows were replaced: what has lost its row, and all that hangs below it, is released, and then the new
/// rows and those of what was released claim. Gives the references that it touches: all others are held as before.
pub fn mend(
    alloc: Global,
    replaced: &Replaced,
    holders: &mut Map<Ref, u64>,
) -> Result<Map<Ref, ()>, AllocError>
    requires { IsMendable replaced.now holders.now }
    ensures holders { IfOk result (λ _. holders.new ≡ rehold replaced.now.numbered.rows holders.old) }
    ensures others { IfOk result (λ touched. AreKeptBut (keys touched) holders.old holders.new) }
{
    let rows = &replaced.numbered.rows;
    let lost = replaced.lost.duplicate(alloc)?;
    let cut = cut_off(alloc, rows, holders, lost.into_vec())?;
    let mut waiting = replaced.new.share()?;
    call_all(alloc, rows, cut.as_slice(), &mut waiting)?;
    withdraw(alloc, cut.as_slice(), holders)?;
    let claimed = claim_waiting(alloc, rows, waiting, holders)?;
    noted(alloc, cut, claimed)
}
