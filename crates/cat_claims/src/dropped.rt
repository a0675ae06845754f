//! Rows whose origin isn't held any more go.
ghost use Rattle.std.specs.Prelude.{◌≡◌, ◌∷◌, [], IfOk};
ghost use Rattle.std.specs.Ordering.{nat_cmp};
ghost use Rattle.cat_collections.specs.Rows.{without};
ghost use Rattle.cat_model.specs.Mend.{left_by};
ghost use Rattle.cat_claims.specs.Touched.{outside};

use cat_model::rows::IndexedRows;
use cat_types::reference::Ref;
use std::alloc::{AllocError, Global};

// Removes the row of an arrival, if there is one.
#[tactic(auto, using(crate::proofs::Outside::without_none))]
fn remove_row(alloc: Global, arrival: u64, rows: &mut IndexedRows) -> Result<(), AllocError>
    ensures { IfOk result (λ _. rows.new ≡ without nat_cmp arrival rows.old) }
{
    let whole = rows.share()?;
    match whole.get(&arrival) {
        Some(row) => rows.remove(alloc, arrival, &row.origin, &row.reference),
        None => Ok(()),
    }
}

fn remove_rows(alloc: Global, arrivals: &[u64], rows: &mut IndexedRows) -> Result<(), AllocError>
    ensures { IfOk result (λ _. rows.new ≡ outside nat_cmp arrivals.now rows.old) }
{
    rows.in_order();
    for arrival in arrivals.iter() {
        remove_row(alloc, *arrival, rows)?;
    }
    Ok(())
}

// Removes the rows that an entity gave.
fn drop_given(alloc: Global, entity: &Ref, rows: &mut IndexedRows) -> Result<(), AllocError>
    ensures { IfOk result (λ _. rows.new ≡ left_by (entity.now ∷ []) rows.old) }
{
    let arrivals = rows.given(alloc, entity)?;
    remove_rows(alloc, arrivals.as_slice(), rows)
}

/// Removes the rows that these references gave.
pub fn drop_all_given(alloc: Global, refs: &[Ref], rows: &mut IndexedRows) -> Result<(), AllocError>
    ensures { IfOk result (λ _. rows.new ≡ left_by refs.now rows.old) }
{
    rows.in_order();
    for reference in refs.iter() {
        drop_given(alloc, reference, rows)?;
    }
    Ok(())
}
