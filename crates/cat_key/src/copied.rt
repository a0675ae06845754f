//! What can be copied with memory of its own.
ghost use Rattle.std.specs.Prelude.{◌≡◌, IfOk};

use std::alloc::{AllocError, Global};

/// What can be copied with memory of its own.
pub trait Copied {
    /// An equal value.
    fn duplicate(&self, alloc: Global) -> Result<Self, AllocError>
        ensures { IfOk result (λ x. x ≡ self.now) };
}

impl Copied for u64 {
    fn duplicate(&self, _alloc: Global) -> Result<u64, AllocError> {
        Ok(*self)
    }
}

impl<X: Copied> Copied for Option<X> {
    fn duplicate(&self, alloc: Global) -> Result<Option<X>, AllocError> {
        match self {
            None => Ok(None),
            Some(x) => Ok(Some(x.duplicate(alloc)?)),
        }
    }
}

impl<X: Copied + Drop, Y: Copied> Copied for (X, Y) {
    fn duplicate(&self, alloc: Global) -> Result<(X, Y), AllocError> {
        let first = self.0.duplicate(alloc)?;
        let second = self.1.duplicate(alloc)?;
        Ok((first, second))
    }
}
