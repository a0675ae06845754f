//! The items of a provider after a mutation. Each that is removed or added takes the logarithm of their number.
ghost use Rattle.std.specs.Prelude.{◌≡◌, IfOk, [], cond};
ghost use Rattle.cat_model.specs.Step.{items_after, put_all, without};

use cat_collections::listing::Copied;
use cat_model::types::Given;
use cat_state_parts::items::OfferedItems;
use cat_types::input::Offered;
use cat_types::reference::Ref;
use std::alloc::{AllocError, Global};

// The items that are not of these references.
fn items_left(alloc: Global, refs: &[Ref], items: &OfferedItems) -> Result<OfferedItems, AllocError>
    ensures { IfOk result (λ rest. rest ≡ without refs.now items.now) }
{
    items.in_order();
    let mut rest = items.share()?;
    for reference in refs {
        rest.remove(alloc, reference)?;
    }
    Ok(rest)
}

// What a mutation's items are put into.
fn base_of(alloc: Global, x: &Given, items: &OfferedItems) -> Result<OfferedItems, AllocError>
    ensures { IfOk result (λ m. m ≡ cond x.now.full [] (without x.now.removed items.now)) }
{
    if x.full {
        Ok(OfferedItems::new())
    } else {
        items_left(alloc, x.removed.as_slice(), items)
    }
}

// All entries are put, the first one last.
fn with_all(
    alloc: Global,
    entries: &[(Ref, Offered)],
    base: OfferedItems,
) -> Result<OfferedItems, AllocError>
    ensures { IfOk result (λ m. m ≡ put_all entries.now base) }
{
    let mut made = base;
    let mut left = entries.len();
    while left > 0 {
        left -= 1;
        let (key, offered) = entries[left].duplicate(alloc)?;
        made.put(alloc, key, offered)?;
    }
    Ok(made)
}

/// The items of a provider once it gives these: without what is removed, and with what is added; of equal references the
/// first counts.
pub fn next_items(
    alloc: Global,
    x: &Given,
    items: &OfferedItems,
) -> Result<OfferedItems, AllocError>
    ensures { IfOk result (λ t. t ≡ items_after x.now items.now) }
{
    let base = base_of(alloc, x, items)?;
    with_all(alloc, x.items.as_slice(), base)
}
