//! Pages of documents: the order in which a query asks for them, and the first of them after a cursor's place.
//!
//! An order is by a document's least value at a key, in lower case, rising or falling, and between equal values by reference;
//! documents without a value come last. Where no order is asked for, all come by reference. A page is the first documents of an order
//! after a place, with the number of all that match and, where more follow, the cursor of its last document. Both stand in
//! `specs/Page.antt`, over the list of all documents in order of reference, which a table or an index lends (`Documents`).
//!
//! Where nothing waits in an index and many match, the first documents of an order are taken from its lists: those at one value after
//! the other, and then those without a value (`specs/Walked.antt`). Else each document that matches is looked at. The contracts are the
//! same for both.
//!
//! The promise: a page is the one that is defined, and it lends the documents themselves. It stands on cat_search.
#![tactic(auto)]

pub mod documents;
mod listed;
pub mod page;
pub mod paging;
pub mod query;
pub mod rank;
