//! What a replacement of the rows of one origin comes to.
use cat_collections::listing::Listing;
use cat_collections::map::Map;
use cat_model::rows::IndexedRows;
use cat_model::types::Numbered;
use cat_types::reference::Ref;

/// The rows once those of one origin were replaced, with the next arrival; the references that have lost the row that held them; and,
/// among others, the arrivals of all rows that are new.
#[derive(Drop)]
pub struct Replaced {
    pub numbered: Numbered,
    pub lost: Listing<Ref>,
    pub new: Map<u64, ()>,
}

/// Who holds what once the rows of one origin were replaced: the rows and holders after it and the next arrival, the
/// references that are newly held, those that are no longer held in order, and those that another row holds than before.
#[derive(Drop)]
pub struct Claimed {
    pub rows: IndexedRows,
    pub holders: Map<Ref, u64>,
    pub arrival: u64,
    pub fresh: Listing<Ref>,
    pub leaving: Listing<Ref>,
    pub moved: Listing<Ref>,
}
