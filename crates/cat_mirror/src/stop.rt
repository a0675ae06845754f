//! Why a mirror's lines aren't answered to their end.
use cat_io::Failed;
use std::alloc::AllocError;
use thiserror::Error;

/// Why the lines of a mirror weren't answered up to the end of the input.
#[derive(Clone, Copy, Debug, PartialEq, Eq, Error)]
pub enum Stop {
    /// The source failed.
    #[error("the source failed")]
    ReadFault,
    /// The sink failed.
    #[error("the sink failed")]
    WriteFault,
    /// 2^40 bytes were taken, and the input hadn't ended.
    #[error("more than 2^40 bytes")]
    Bound,
    /// Want of memory: before the first read, while a line was read or applied, or for the list of the documents.
    #[error("out of memory")]
    NoMemory,
}

impl From<AllocError> for Stop {
    ghost use Rattle.std.specs.Prelude.{◌≡◌};
    ghost use Rattle.cat_mirror.specs.declared.stop.Stop.TheVariants.{NoMemory};

    ghost from_gives = { λ _ stop. stop ≡ NoMemory };

    fn from(_refused: AllocError) -> Stop {
        Stop::NoMemory
    }
}

impl From<Failed> for Stop {
    ghost use Rattle.std.specs.Prelude.{◌≡◌};
    ghost use Rattle.cat_mirror.specs.declared.stop.Stop.TheVariants.{WriteFault};

    ghost from_gives = { λ _ stop. stop ≡ WriteFault };

    fn from(_failed: Failed) -> Stop {
        Stop::WriteFault
    }
}
