//! How many input bytes rows add.
ghost use Rattle.std.specs.Prelude.{◌≡◌, ◌+◌, ◌^◌, ◌≤◌, min, option_map};
ghost use Rattle.cat_row_faults.specs.Rules as spec;
ghost use Rattle.cat_row_faults.specs.Told.{asked};

use crate::rules::tree_of;
use crate::told::Told;
use cat_row_format::row::StoredRow;
use cat_tree::room::size;
use cat_types::node::Node;

/// Where the sum stands still.
const MOST: u64 = 1 << 62;

fn added(total: u64, more: u64) -> u64
    requires { total ≤ 2 ^ 62 }
    ensures { result ≡ min (total + more) (2 ^ 62) }
{
    (total + more.min(MOST)).min(MOST)
}

fn tree_weight(tree: Option<&Node>) -> u64
    ensures { result ≡ min (spec.tree_weight (option_map (λ x. x.now) tree.entry)) (2 ^ 62) }
{
    match tree {
        None => 0,
        Some(tree) => size(tree.tree()),
    }
}

/// The total with what a row adds: the compact text of an item's tree, or a name and a text of the shelf. It stands still at 2^62.
pub fn weighed(told: &Told, row: &StoredRow, total: u64) -> u64
    requires { total ≤ 2 ^ 62 }
    ensures { result ≡ min (total + spec.weight (asked told.now) row.now) (2 ^ 62) }
{
    match row {
        StoredRow::Item { arrival, .. } => {
            added(total, tree_weight(tree_of(told, *arrival, None)))
        }
        StoredRow::ItemOne { arrival, tree, .. } => {
            added(total, tree_weight(tree_of(told, *arrival, Some(tree))))
        }
        StoredRow::Shelf { name, body } => added(
            added(total, name.as_str().len() as u64),
            body.as_str().len() as u64,
        ),
        _ => total,
    }
}

/// Whether a row adds input bytes.
pub fn is_input(row: &StoredRow) -> bool
    ensures { result ≡ spec.is_input row.now }
{
    matches!(
        row,
        StoredRow::Item { .. } | StoredRow::ItemOne { .. } | StoredRow::Shelf { .. }
    )
}
