//! The two forms of a mutation.

/// How a mutation changes the items of its provider.
#[derive(Clone, Copy, Debug, Drop, PartialEq, Eq)]
pub enum Form {
    /// The items given replace all that the provider has.
    Full,
    /// Some references are taken away, and some items are added or replaced.
    Delta,
}
