//! Filters over documents, after the query parameters of the Backstage catalogue's API, and an index of documents.
//!
//! A document is seen as search rows, each a path through it with a value. A filter asks for rows:
//! conditions with one key are alternatives, and each key must hold. Letters are compared in lower
//! case, in ASCII alone. The rows stand in `specs/Rows.antt` of cat_state_parts, the reading of a filter and
//! what it accepts in `specs/Filter.antt`.
//!
//! The index keeps documents by reference, and lists each reference under the terms of its document: the key of each row,
//! and the key with the value, in lower case (`specs/Terms.antt`). So what a filter finds is a matter of unions and
//! intersections of lists (`specs/Index.antt`), and no document is looked into but those that changed since they were listed:
//! a change is noted at once, and listed when the index is told to. Its copies share what they have in common.
//!
//! The promise: a filter is read as its text says, a refusal names the first condition without a key, `matches` answers
//! exactly whether a document's rows meet the filter, without memory, and the index finds just the documents that `matches`
//! accepts. It stands on cat_state_parts for the index, and on the shared maps of cat_collections.
#![tactic(auto)]

pub mod condition;
pub mod corrections;
pub mod document;
pub mod folded;
pub mod index;
pub mod matches;
pub mod pieces;
pub mod postings;
pub mod read;
pub mod sets;
pub mod terms;
pub mod values;
pub mod walk;
