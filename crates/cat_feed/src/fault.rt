//! Why a feed has no changes to answer.
use crate::change::Since;
use std::alloc::{AllocError, AllocFailed};
use thiserror::Error;

/// Why a feed has no changes to answer from a place. `Spent` is asked first, then `Gone`, then `Ahead`.
#[derive(Clone, Copy, Debug, Drop, PartialEq, Eq, Error)]
pub enum FeedFault {
    /// The place is of another epoch, or its number is below the least that is kept. It carries the feed's epoch with that least.
    #[error("the place is gone; the first that is kept is {0}")]
    Gone(Since),
    /// The place's number is above the feed's last. It carries the feed's own place.
    #[error("the place is ahead of {0}")]
    Ahead(Since),
    /// A change would have a number above 2^59. The feed is as before.
    #[error("no number is left for a change")]
    Spent,
    /// Want of memory. The feed is as before.
    #[error("out of memory")]
    NoMemory,
}

impl From<AllocError> for FeedFault {
    ghost use Rattle.std.specs.Prelude.{◌≡◌};
    ghost use Rattle.cat_feed.specs.declared.fault.FeedFault.TheVariants.{NoMemory};

    ghost from_gives = { λ _ e. e ≡ NoMemory };

    fn from(_refused: AllocError) -> FeedFault {
        FeedFault::NoMemory
    }
}

impl<T: Drop> From<AllocFailed<T>> for FeedFault {
    ghost use Rattle.std.specs.Prelude.{◌≡◌};
    ghost use Rattle.cat_feed.specs.declared.fault.FeedFault.TheVariants.{NoMemory};

    ghost from_gives = { λ _ e. e ≡ NoMemory };

    fn from(_refused: AllocFailed<T>) -> FeedFault {
        FeedFault::NoMemory
    }
}
