//! Two lent halves of a key.

/// What stands for the key of these two halves in a search.
#[derive(Drop)]
pub struct Pair<'a, A, B> {
    /// The first half.
    pub first: &'a A,
    /// The second half.
    pub second: &'a B,
}
