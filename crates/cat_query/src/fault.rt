//! Why a text is no query.
use std::alloc::{AllocError, AllocFailed};
use thiserror::Error;

/// Why a text is no query: the first of these that holds.
#[derive(Clone, Copy, Debug, Drop, PartialEq, Eq, Error)]
pub enum QueryFault {
    /// A condition without a key: the place of its filter among the filters, and its place in it.
    #[error("condition {1} of filter {0} has no key")]
    Filter(usize, usize),
    /// The order isn't a key, or a key and `asc` or `desc`, or it stands twice.
    #[error("bad order")]
    BadOrder,
    /// The limit isn't a number from 1 to 1,000 in decimal digits, or it stands twice.
    #[error("the limit is not a number from 1 to 1,000")]
    BadLimit,
    /// The cursor isn't what is written for one, or it stands twice.
    #[error("bad cursor")]
    BadCursor,
    /// Memory is wanted.
    #[error("out of memory")]
    NoMemory,
}

impl From<AllocError> for QueryFault {
    ghost use Rattle.std.specs.Prelude.{◌≡◌};
    ghost use Rattle.cat_query.specs.declared.fault.QueryFault.TheVariants.{NoMemory};

    ghost from_gives = { λ _ e. e ≡ NoMemory };

    fn from(_refused: AllocError) -> QueryFault {
        QueryFault::NoMemory
    }
}

impl<T: Drop> From<AllocFailed<T>> for QueryFault {
    ghost use Rattle.std.specs.Prelude.{◌≡◌};
    ghost use Rattle.cat_query.specs.declared.fault.QueryFault.TheVariants.{NoMemory};

    ghost from_gives = { λ _ e. e ≡ NoMemory };

    fn from(_refused: AllocFailed<T>) -> QueryFault {
        QueryFault::NoMemory
    }
}
