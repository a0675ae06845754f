//! A feed of changes: what changed among documents since a place that a follower knows; its text; and a mirror, which follows it.
//!
//! A feed keeps a copy of the documents that it saw last. When it is asked it compares the documents with its copy, numbers what differs, and
//! answers the changes above the follower's number; or every document, to a follower that knows no place yet. It needs nothing of what changed
//! the documents, and its copy shares them. As text, changes are a JSON object, and places are `E.N`. A mirror begins with every document and
//! then takes each answer of the feed from where it is.
//!
//! The promise: who applies the changes of an answer to the documents that it followed to its place has just the documents that were lent; a
//! place that is no longer kept, or not yet made, is refused with the place that is; and where memory or numbers are wanted the feed is as
//! before. What is written is the text of the changes, whole or not at all, and no document is copied for it; what is read is the changes that a
//! text is, or the first fault that holds. A mirror applies an answer only where it leads on from its own place, else it is refused with that
//! place and nothing changes; and a mirror that asks a feed from where it is, and applies what is answered, has after each answer just the
//! documents of that time, whoever else asks meanwhile.
//!
//! It stands on cat_collections for the shared map that is the copy, on cat_types and cat_tree for references and shared trees, on cat_inputs and
//! cat_session_lines for the reading of trees and numbers, and on cat_query for what appends trees.
#![tactic(auto)]

pub mod apply;
pub mod change;
mod differences;
pub mod fault;
pub mod feed;
pub mod law;
mod ledger;
pub mod mirror;
pub mod place;
pub mod read;
pub mod text_fault;
pub mod write;
