//! The page of the documents that a query asks for.
ghost use Rattle.std.specs.Prelude.{◌≡◌, ◌≤◌, IfOk, map};
ghost use Rattle.cat_pages.specs.Page.{following, next_after, page_items, total_of};
ghost use Rattle.cat_pages.specs.Seen.{ranked_seen};
ghost use Rattle.cat_pages.specs.SeenPage.{items_seen};

use crate::documents::Documents;
use crate::page::Page;
use crate::query::{Cursor, Query};
use crate::rank::Ranked;
use cat_tree::text::Text;
use std::alloc::{AllocError, Global};

fn copied(alloc: Global, text: &Option<Text>) -> Result<Option<Text>, AllocError>
    ensures { IfOk result (λ o. o ≡ text.now) }
{
    match text {
        Some(text) => Ok(Some(Text::of(alloc, text.as_str())?)),
        None => Ok(None),
    }
}

fn cursor_of(alloc: Global, document: &Ranked) -> Result<Cursor, AllocError>
    ensures { IfOk result (λ c. (c.value ≡ document.now.value) × (c.reference ≡ document.now.reference.now)) }
{
    let value = copied(alloc, &document.value)?;
    let reference = document.reference.copy(alloc)?;
    Ok(Cursor { value, reference })
}

// The cursor of the last of the first documents, where more follow.
fn next_after(alloc: Global, limit: usize, items: &[Ranked]) -> Result<Option<Cursor>, AllocError>
    requires { 1 ≤ limit }
    ensures { IfOk result (λ o. o ≡ next_after limit (map ranked_seen items.now)) }
{
    if limit < items.len() {
        Ok(Some(cursor_of(alloc, &items[limit - 1])?))
    } else {
        Ok(None)
    }
}

/// The page of the documents that a query asks for: the first `limit` that match after the cursor's
/// place, in the order that is asked for. Lends the documents themselves.
pub fn page<'a, D: Documents>(
    alloc: Global,
    docs: &'a D,
    query: &Query,
) -> Result<Page<'a>, AllocError>
    ensures items { IfOk result (λ p. items_seen p
        ≡ page_items query.now.limit (following query.now.filters query.now.order query.now.cursor (D.pairs docs.now))) }
    ensures total { IfOk result (λ p. p.total ≡ total_of query.now.filters (D.pairs docs.now)) }
    ensures next { IfOk result (λ p. p.next
        ≡ next_after query.now.limit (following query.now.filters query.now.order query.now.cursor (D.pairs docs.now))) }
{
    let limit = query.limit as usize;
    let first = docs.first(alloc, query, limit + 1)?;
    let next = next_after(alloc, limit, first.items.as_slice())?;
    let total = first.total;
    let mut items = first.items;
    items.truncate(limit);
    Ok(Page { items, total, next })
}
