//! Queries over documents, after the query parameters of the Backstage catalogue's API: their texts, what is asked of a catalogue, and
//! the answers that show documents.
//!
//! Facets count the documents at each value of a key; a projection keeps what paths reach; lists, pages and facets are shown as compact
//! JSON. What each answer is stands in `specs/`, over the list of all documents in order of reference.
//!
//! The promise: each answer is the one that is defined, appended whole or not at all, what a cursor is written as reads back as
//! it, and a query text is read, or refused by its first fault. It stands on cat_pages, for pages and their order, and on cat_search.
#![tactic(auto)]

pub mod answers;
pub mod ask;
pub mod cursor;
pub mod facets;
pub mod fault;
mod parameters;
mod parts;
pub mod project;
pub mod read;
