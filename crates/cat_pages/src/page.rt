//! A page of documents, lent.
ghost use Rattle.std.specs.Prelude.{◌≡◌, option_map, slice_get};
ghost use Rattle.std.specs.Option.{option_copied};
ghost use Rattle.cat_pages.specs.Page.{pair_seen};
ghost use Rattle.cat_pages.specs.SeenPage.{items_seen};

use crate::query::Cursor;
use crate::rank::Ranked;
use cat_tree::tree::Tree;
use cat_types::reference::Ref;

/// The first documents of an order after a place, lent.
#[derive(Drop)]
pub struct Page<'a> {
    /// The documents, in the order.
    pub items: Vec<Ranked<'a>>,
    /// How many match, on this page or not.
    pub total: u64,
    /// The cursor of the next page, where documents follow this one.
    pub next: Option<Cursor>,
}

impl<'a> Page<'a> {
    /// Lends the item at a place, with its reference; none exactly where the page has no such place.
    pub fn at(&self, place: usize) -> Option<(&'a Ref, &'a Tree)>
        ensures { option_map pair_seen result ≡ slice_get (items_seen self.now) place }
    {
        let item = self.items.get(place)?;
        Some((item.reference, item.document))
    }

    /// How many documents match, on this page or not.
    pub fn total(&self) -> u64
        ensures { result ≡ self.now.total }
    {
        self.total
    }

    /// Lends the cursor of the next page; none exactly where no document follows this one.
    pub fn next(&self) -> Option<&Cursor>
        ensures { option_copied result ≡ self.now.next }
    {
        self.next.as_ref()
    }
}
