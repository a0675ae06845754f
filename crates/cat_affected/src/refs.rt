//! The references of rows, put at the end of others.
ghost use Rattle.std.specs.Prelude.{◌≡◌, ◌++◌, [], IfOk, option_map};
ghost use Rattle.std.specs.List.{cons_option, filter_map, flat_map};
ghost use Rattle.cat_model.specs.Catalogue.{row_at};
ghost use Rattle.cat_model.specs.declared.types.Origin.TheVariants.{Entity};
ghost use Rattle.cat_affected.specs.Reach.{refs_given};

use cat_collections::listing::Copied;
use cat_model::rows::IndexedRows;
use cat_types::reference::Ref;
use std::alloc::{AllocError, Global};

/// Puts references at the end of others.
pub fn append(more: Vec<Ref>, refs: &mut Vec<Ref>) -> Result<(), AllocError>
    ensures { IfOk result (λ _. refs.new.items ≡ refs.old.items ++ more.items) }
{
    for reference in more {
        refs.push(reference)?;
    }
    Ok(())
}

// Pushes the reference of the row with this arrival, if there is one.
fn push_reference(
    alloc: Global,
    rows: &IndexedRows,
    arrival: u64,
    refs: &mut Vec<Ref>,
) -> Result<(), AllocError>
    ensures { IfOk result (λ _. refs.new.items ≡ refs.old.items ++ cons_option (option_map (λ row. row.reference) (row_at rows.now arrival)) []) }
{
    if let Some(row) = rows.get(&arrival) {
        refs.push(row.reference.duplicate(alloc)?)?;
    }
    Ok(())
}

// Pushes the references of the rows with these arrivals.
fn push_references(
    alloc: Global,
    rows: &IndexedRows,
    arrivals: &[u64],
    refs: &mut Vec<Ref>,
) -> Result<(), AllocError>
    ensures { IfOk result (λ _. refs.new.items ≡ refs.old.items ++ filter_map (λ a. option_map (λ row. row.reference) (row_at rows.now a)) arrivals.now) }
{
    for arrival in arrivals.iter() {
        push_reference(alloc, rows, *arrival, refs)?;
    }
    Ok(())
}

/// Pushes the references of the rows that an entity gives.
pub fn push_given(
    alloc: Global,
    rows: &IndexedRows,
    entity: &Ref,
    refs: &mut Vec<Ref>,
) -> Result<(), AllocError>
    ensures { IfOk result (λ _. refs.new.items ≡ refs.old.items ++ refs_given rows.now (Entity entity.now)) }
{
    let arrivals = rows.given(alloc, entity)?;
    push_references(alloc, rows, arrivals.as_slice(), refs)
}

/// The references of the rows that these entities give.
#[tactic(auto, using(cat_claims::proofs::Levels::flat_map_one_more))]
pub fn given_by(alloc: Global, rows: &IndexedRows, entities: &[Ref]) -> Result<Vec<Ref>, AllocError>
    ensures { IfOk result (λ refs. refs.items ≡ flat_map (λ e. refs_given rows.now (Entity e)) entities.now) }
{
    let mut refs = Vec::new(alloc);
    for entity in entities.iter() {
        push_given(alloc, rows, entity, &mut refs)?;
    }
    Ok(refs)
}
