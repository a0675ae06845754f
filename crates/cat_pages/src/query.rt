//! What a query asks for.
ghost use Rattle.std.specs.Prelude.{◌≤◌};

use cat_collections::listing::{Copied, Listing};
use cat_search::condition::Filter;
use cat_tree::text::Text;
use cat_types::reference::Ref;
use std::alloc::{AllocError, Global};

/// An order of documents: by their least value at a key in lower case, rising or falling.
#[derive(Drop)]
pub struct OrderBy {
    /// The key of the rows whose values count.
    pub key: Text,
    /// Whether greater values come first.
    pub falling: bool,
}

/// A place in an order of documents: that of a document with this value and reference.
#[derive(Drop)]
pub struct Cursor {
    /// The value in lower case, if there is one.
    pub value: Option<Text>,
    /// The reference.
    pub reference: Ref,
}

impl Copied for Cursor {
    fn duplicate(&self, alloc: Global) -> Result<Cursor, AllocError> {
        let value = self.value.duplicate(alloc)?;
        let reference = self.reference.duplicate(alloc)?;
        Ok(Cursor { value, reference })
    }
}

/// A query. Its limit is from 1 to 1,000.
#[derive(Drop)]
pub struct Query {
    /// Alternatives; without one all documents match.
    pub filters: Listing<Filter>,
    /// The paths that a projection keeps; without one it keeps the whole document.
    pub fields: Listing<Listing<Text>>,
    /// The keys whose values are counted.
    pub facets: Listing<Text>,
    /// The order, if one is asked for.
    pub order: Option<OrderBy>,
    /// How many documents a page has at most.
    pub limit: u64,
    /// The place after which a page begins, if not at the start.
    pub cursor: Option<Cursor>,
    pub ghost least: { 1 ≤ limit },
    pub ghost most: { limit ≤ 1000 },
}
