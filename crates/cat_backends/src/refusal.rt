//! Why a call of a database gave nothing.
ghost use Rattle.std.specs.Prelude.{◌≡◌};
ghost use Rattle.cat_backends.specs.Refusals.{refusal_of};

use sqlite::{Error, ErrorCode};
use std::alloc::{AllocError, AllocFailed};

/// Why a call gave nothing.
#[derive(Clone, Copy, Drop)]
pub enum Refusal {
    /// Memory is wanted.
    NoMemory,
    /// The disk or the database refused, or a row has no reading.
    Failed,
}

// The refusal of a call that had this error.
fn refusal_of(error: &Error) -> Refusal
    ensures { result ≡ refusal_of error.now }
{
    match error {
        Error::SqliteFailure(ErrorCode::OutOfMemory) => Refusal::NoMemory,
        _ => Refusal::Failed,
    }
}

impl From<Error> for Refusal {
    ghost use Rattle.std.specs.Prelude.{◌≡◌};
    ghost use Rattle.cat_backends.specs.Refusals.{refusal_of};

    ghost from_gives = { λ error refusal. refusal ≡ refusal_of error };

    fn from(error: Error) -> Refusal {
        refusal_of(&error)
    }
}

impl From<AllocError> for Refusal {
    ghost use Rattle.std.specs.Prelude.{◌≡◌};
    ghost use Rattle.cat_backends.specs.declared.refusal.Refusal.TheVariants.{NoMemory};

    ghost from_gives = { λ _ refusal. refusal ≡ NoMemory };

    fn from(_: AllocError) -> Refusal {
        Refusal::NoMemory
    }
}

impl<T: Drop> From<AllocFailed<T>> for Refusal {
    ghost use Rattle.std.specs.Prelude.{◌≡◌};
    ghost use Rattle.cat_backends.specs.declared.refusal.Refusal.TheVariants.{NoMemory};

    ghost from_gives = { λ _ refusal. refusal ≡ NoMemory };

    fn from(_: AllocFailed<T>) -> Refusal {
        Refusal::NoMemory
    }
}
