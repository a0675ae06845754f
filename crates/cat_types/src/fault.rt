//! Why a text or a descriptor names no entity.
use std::alloc::{AllocError, AllocFailed};
use thiserror::Error;

/// Why a text or a descriptor names no entity: the first of these that holds.
#[derive(Clone, Copy, Debug, Drop, PartialEq, Eq, Error)]
pub enum RefFault {
    /// The text isn't `[kind:][namespace/]name`, or the descriptor or its metadata isn't a map.
    #[error("not of the form [kind:][namespace/]name")]
    Shape,
    /// There is no kind, and no default for it.
    #[error("no kind")]
    NoKind,
    /// The kind breaks its rule.
    #[error("bad kind")]
    BadKind,
    /// The namespace breaks its rule.
    #[error("bad namespace")]
    BadNamespace,
    /// The name breaks its rule.
    #[error("bad name")]
    BadName,
    /// Memory is wanted.
    #[error("out of memory")]
    NoMemory,
}

impl RefFault {
    ghost use Rattle.std.specs.Prelude.{◌≡◌};
    ghost use Rattle.cat_types.specs.Faults.{fault_text};

    /// The name of the fault, as `NoKind`. Takes no memory.
    pub fn text(self) -> &'static str
        ensures { result.now ≡ fault_text self }
    {
        match self {
            RefFault::Shape => "Shape",
            RefFault::NoKind => "NoKind",
            RefFault::BadKind => "BadKind",
            RefFault::BadNamespace => "BadNamespace",
            RefFault::BadName => "BadName",
            RefFault::NoMemory => "NoMemory",
        }
    }
}

impl From<AllocError> for RefFault {
    ghost use Rattle.std.specs.Prelude.{◌≡◌};
    ghost use Rattle.cat_types.specs.declared.fault.RefFault.TheVariants.{NoMemory};

    ghost from_gives = { λ _ e. e ≡ NoMemory };

    fn from(_refused: AllocError) -> RefFault {
        RefFault::NoMemory
    }
}

impl<T: Drop> From<AllocFailed<T>> for RefFault {
    ghost use Rattle.std.specs.Prelude.{◌≡◌};
    ghost use Rattle.cat_types.specs.declared.fault.RefFault.TheVariants.{NoMemory};

    ghost from_gives = { λ _ e. e ≡ NoMemory };

    fn from(_refused: AllocFailed<T>) -> RefFault {
        RefFault::NoMemory
    }
}
