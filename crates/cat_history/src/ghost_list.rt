//! A list that only contracts see.
ghost use Rattle.std.specs.Prelude.{◌≡◌, List, [], ◌∷◌, ◌++◌};
ghost use Rattle.std.specs.Borrow.{ftrue};

use std::marker::{Model, PhantomData};

/// A list of entries, which contracts see as `items`. It takes no memory, and its methods do nothing at run time.
#[derive(Drop)]
pub struct GhostList<E> {
    entry: PhantomData<E>,
    pub ghost items: { List E },
}

impl<E> Model for GhostList<E> {
    ghost also_owns = { λ _. ftrue };
}

// It holds no entry.
unsafe impl<E: Send> Send for GhostList<E> {}

impl<E> GhostList<E> {
    /// The empty list.
    pub fn new() -> GhostList<E>
        ensures { result.items ≡ [] }
    {
        GhostList { entry: PhantomData }
    }

    /// This list with an entry more at its end.
    pub fn and(&self, entry: &E) -> GhostList<E>
        ensures { result.items ≡ self.now.items ++ entry.now ∷ [] }
    {
        GhostList { entry: PhantomData }
    }
}
