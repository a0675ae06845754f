//! What the turns know of the value.
ghost use Rattle.std.specs.Prelude.{◌≡◌, ℕ, [], List, length};

/// A value with a list of entries, each of one pass.
pub trait Tells {
    /// What the list is of.
    type Entry;

    ghost list: { Self → List Self.Entry };

    // The number of the pass that made the entry.
    ghost pass_of: { Self.Entry → ℕ };

    /// The length of the list.
    fn entries(&self) -> u64
        ensures { result ≡ length (list self.now) };
}

/// A number tells no entry.
impl Tells for u64 {
    type Entry = ();

    ghost list = { λ _. [] };

    ghost pass_of = { λ _. 0 };

    fn entries(&self) -> u64 {
        0
    }
}
