//! The versions of stores.

/// The version of a store. In the first the tree of an item or an offer stands beside it, in the second in a row of its own.
#[derive(Clone, Copy, Drop)]
pub enum Version {
    One,
    Two,
}
