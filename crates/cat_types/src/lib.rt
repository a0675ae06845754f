//! The plain types that the definitions of the catalogue speak of: names and references of entities, trees that contracts see as data,
//! entries by key in the order in which they are given, relations and issues.
//!
//! A reference names an entity by kind, namespace and name, after the Backstage documentation's Descriptor Format and its page on entity
//! references. It is kept in lower case as its full text `kind:namespace/name`, by which it is ordered, and contracts see it as that text. The
//! forms of names stand in `specs/Names.antt`, the grammar of reference texts in `specs/Reading.antt`, apart from the code that cuts them.
//!
//! It stands on cat_tree and cat_collections. Code and definitions share these types, so no mapping lies between them: the value that a contract
//! sees is the plain record or list itself.
//!
//! The promise: a text has at most one reading as a reference, each refusal names the first rule that is broken, and a reference's text names
//! the reference again; a look-up among entries finds the first at its key, a copy equals what it was made of, relations are ordered by
//! source, name and target, and the tests of equality, by which the catalogue makes a record due where its work isn't what it was and
//! stitches a document where its parts aren't what they were, are true of equals and of equals alone.
#![tactic(auto)]

pub mod entries;
pub mod fault;
pub mod input;
pub mod issue;
pub mod names;
pub mod node;
pub mod order;
pub mod parts;
pub mod reference;
pub mod relation;
pub mod same;
pub mod sorted;
pub mod split;
pub mod work;
