//! The tables of a state are in order.
ghost use Rattle.cat_row_updates.specs.Renewed.{AreSorted};

use cat_model::types::State;

/// The tables of which rows are made are in order. Does nothing; its callers learn it.
pub fn in_order(m: &State)
    ensures { AreSorted m.now }
{
    m.providers.in_order();
    m.shelf.in_order();
    m.rows.in_order();
    m.records.in_order();
    m.orphans.in_order();
}
