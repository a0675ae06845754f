//! Values that a catalogue's state holds and that count or list what they have: the index of documents, the items of a provider, the marks.
//!
//! A document is seen as search rows, each a path through it with a value (`specs/Rows.antt`), and its terms are what it is listed under: the
//! key of each row, and the key with the value, in lower case (`specs/Terms.antt`). A change of a document is noted at once, and listed when
//! cat_search is told to, which also finds what filters accept. So the types and the laws of the catalogue, which stand on this crate, wait
//! for neither. A provider's items know the length of what they say. A mark says that a reference's document has to be stitched again, under
//! the ticket of the mark; marks are kept by reference and, beside that, by ticket, so that the next mark above a ticket is found in
//! logarithmic time.
//!
//! The promise: contracts see the documents alone; beyond the references that wait, a reference stands under a term exactly where its document
//! has the term (`specs/Index.antt`). The bytes of items are counted as they come and go. Each call on marks is one change of the table from
//! references to tickets, exactly, and the next mark above a ticket is the one with the least ticket above it, the first by reference where
//! several have it. Where memory is wanted all is as before; a copy of marks shares all of them and takes no memory.
//!
//! It stands on cat_tree and cat_types, and on the shared maps of cat_collections.
#![tactic(auto)]

pub mod index;
pub mod items;
pub mod marks;
