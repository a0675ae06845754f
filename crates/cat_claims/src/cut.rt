//! What a change of rows cuts off.
ghost use Rattle.std.specs.Prelude.{◌≡◌, ◌++◌, [], IfOk, length};
ghost use Rattle.std.specs.List.{cons_option, filter_map, flat_map};
ghost use Rattle.cat_model.specs.Rows.{row_at};
ghost use Rattle.cat_model.specs.Mend.{below, children, held_by};

use cat_collections::listing::Copied;
use cat_collections::map::Map;
use cat_model::rows::IndexedRows;
use cat_types::reference::Ref;
use std::alloc::{AllocError, Global};

// The reference of a row, where the row holds it.
fn held_ref(
    alloc: Global,
    rows: &IndexedRows,
    holders: &Map<Ref, u64>,
    arrival: u64,
) -> Result<Option<Ref>, AllocError>
    ensures { IfOk result (λ r. r ≡ held_by holders.now arrival (row_at rows.now arrival)) }
{
    let Some(row) = rows.get(&arrival) else {
        return Ok(None);
    };
    match holders.get(&row.reference) {
        Some(holder) => {
            if arrival == *holder {
                Ok(Some(row.reference.duplicate(alloc)?))
            } else {
                Ok(None)
            }
        }
        None => Ok(None),
    }
}

fn push_some(refs: &mut Vec<Ref>, reference: Option<Ref>) -> Result<(), AllocError>
    ensures { IfOk result (λ _. refs.new.items ≡ refs.old.items ++ cons_option reference []) }
{
    match reference {
        Some(reference) => {
            refs.push(reference)?;
            Ok(())
        }
        None => Ok(()),
    }
}

// The references that these rows hold.
#[tactic(auto, using(crate::proofs::Levels::filter_map_more))]
fn push_held(
    alloc: Global,
    rows: &IndexedRows,
    holders: &Map<Ref, u64>,
    arrivals: &[u64],
    refs: &mut Vec<Ref>,
) -> Result<(), AllocError>
    ensures { IfOk result (λ _. refs.new.items ≡ refs.old.items ++ filter_map (λ a. held_by holders.now a (row_at rows.now a)) arrivals.now) }
{
    for arrival in arrivals.iter() {
        push_some(refs, held_ref(alloc, rows, holders, *arrival)?)?;
    }
    Ok(())
}

// The references that hang below one.
fn push_children(
    alloc: Global,
    rows: &IndexedRows,
    holders: &Map<Ref, u64>,
    entity: &Ref,
    refs: &mut Vec<Ref>,
) -> Result<(), AllocError>
    ensures { IfOk result (λ _. refs.new.items ≡ refs.old.items ++ children rows.now holders.now entity.now) }
{
    let arrivals = rows.given(alloc, entity)?;
    push_held(alloc, rows, holders, arrivals.as_slice(), refs)
}

// The references that hang below these.
#[tactic(auto, using(crate::proofs::Levels::flat_map_one_more))]
fn beneath(
    alloc: Global,
    rows: &IndexedRows,
    holders: &Map<Ref, u64>,
    refs: &[Ref],
) -> Result<Vec<Ref>, AllocError>
    ensures { IfOk result (λ l. l.items ≡ flat_map (children rows.now holders.now) refs.now) }
{
    let mut next = Vec::new(alloc);
    for entity in refs.iter() {
        push_children(alloc, rows, holders, entity, &mut next)?;
    }
    Ok(next)
}

fn append(refs: Vec<Ref>, cut: &mut Vec<Ref>) -> Result<(), AllocError>
    ensures { IfOk result (λ _. cut.new.items ≡ cut.old.items ++ refs.items) }
{
    for reference in refs {
        cut.push(reference)?;
    }
    Ok(())
}

/// These references, and all that hangs below them.
#[tactic(auto, using(crate::proofs::Levels::below_more, crate::proofs::Levels::below_end, crate::proofs::Levels::below_zero))]
pub fn cut_off(
    alloc: Global,
    rows: &IndexedRows,
    holders: &Map<Ref, u64>,
    lost: Vec<Ref>,
) -> Result<Vec<Ref>, AllocError>
    ensures { IfOk result (λ cut. cut.items ≡ below (length holders.now) rows.now holders.now lost.items) }
{
    let mut cut = Vec::new(alloc);
    let mut refs = lost;
    let mut left = holders.len();
    while left > 0 {
        if refs.is_empty() {
            return Ok(cut);
        }
        let next = beneath(alloc, rows, holders, refs.as_slice())?;
        append(refs, &mut cut)?;
        refs = next;
        left -= 1;
    }
    Ok(cut)
}
