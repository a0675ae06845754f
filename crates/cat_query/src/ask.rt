//! What is asked of a catalogue.
use cat_collections::listing::Listing;
use cat_pages::query::Query;
use cat_tree::text::Text;
use cat_types::reference::Ref;

/// A question to a catalogue. It changes nothing.
#[derive(Drop)]
pub enum Ask {
    /// The document of a reference.
    Get(Ref),
    /// The document of the entity with a number, which is the one behind its `uid`.
    Number(u64),
    /// The documents that match a query, as its fields keep them, in order of reference.
    List(Query),
    /// The page of the documents that a query asks for, with the next cursor and the number of all that match.
    Page(Query),
    /// How many of the documents that match a query have each value of its facet keys.
    Facets(Query),
    /// The documents of these references one by one, as these fields keep them.
    Many(Listing<Ref>, Listing<Listing<Text>>),
    /// The rows that wait with another key than the row that holds their reference.
    Conflicts,
    /// The records that have an issue of level error.
    Failed,
    /// The references of the orphans.
    Orphans,
    /// How many records, orphans, due records, live leases and marks there are.
    State,
    /// Whether the catalogue is quiet.
    Quiet,
}
