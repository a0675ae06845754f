//! Lists in order, with each item once.
ghost use Rattle.std.specs.Prelude.{◌≡◌, ◌++◌, IfOk};
ghost use Rattle.std.specs.List.{list_any};
ghost use Rattle.std.specs.List.Sorted.{IsStrictlySortedBy};
ghost use Rattle.std.specs.Ordering.{eq_by_cmp};
ghost use Rattle.cat_collections.specs.Order.{in_order};

use cat_collections::key::Key;
use cat_collections::listing::Copied;
use std::alloc::{AllocError, Global};
use std::cmp::Ordering;

/// Appends copies.
pub fn append<X: Copied + Drop>(
    alloc: Global,
    list: &mut Vec<X>,
    more: &[X],
) -> Result<(), AllocError>
    ensures { IfOk result (λ _. list.new.items ≡ list.old.items ++ more.now) }
{
    list.reserve(more.len())?;
    for item in more {
        list.push(item.duplicate(alloc)?)?;
    }
    Ok(())
}

/// The items in order, each once. Takes no memory.
pub fn in_order<K: Key + Drop>(mut items: Vec<K>) -> Vec<K>
    ensures { result.items ≡ in_order K.order items.items }
{
    items.sort_unstable_by(|left, right| left.compare(right));
    items.dedup_by(|later, earlier| later.compare(earlier) == Ordering::Equal);
    items
}

/// Whether an item is among items in order. It is found by halving.
pub fn is_among<K: Key>(item: &K, items: &[K]) -> bool
    requires { IsStrictlySortedBy K.order items.now }
    ensures { result ≡ list_any (eq_by_cmp K.order item.now) items.now }
{
    items
        .binary_search_by(|other| item.compare(other).reverse())
        .is_ok()
}
