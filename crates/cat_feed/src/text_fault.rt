//! Why bytes are no changes.
ghost use Rattle.std.specs.Prelude.{◌≡◌};
ghost use Rattle.cat_feed.specs.Read.{field_text, json_fault};

use cat_tree::read::TreeFault;
use std::alloc::{AllocError, AllocFailed};
use std::fmt;
use thiserror::Error;

/// A field of the text of changes.
#[derive(Clone, Copy, Debug, Drop, PartialEq, Eq)]
pub enum Field {
    Changes,
    From,
    To,
}

impl Field {
    /// The name of the field, as `changes`.
    pub fn text(self) -> &'static str
        ensures { result.now ≡ field_text self }
    {
        match self {
            Field::Changes => "changes",
            Field::From => "from",
            Field::To => "to",
        }
    }
}

impl fmt::Display for Field {
    fn fmt<W: fmt::Write>(&self, f: &mut fmt::Formatter<W>) -> fmt::Result {
        write!(f, "{}", self.text())
    }
}

/// Why bytes are no changes: the first of these that holds, in this order.
#[derive(Clone, Copy, Debug, Drop, PartialEq, Eq, Error)]
pub enum ChangesFault {
    /// The bytes are no tree.
    #[error("{0}")]
    Json(TreeFault),
    /// The first of `changes`, `from` and `to` that is missing or of another form.
    #[error("the field {0} is missing or of another form")]
    Shape(Field),
    /// There is no memory for the changes.
    #[error("out of memory")]
    NoMemory,
}

/// The fault of bytes that have no tree.
pub fn json_fault(fault: TreeFault) -> ChangesFault
    ensures { result ≡ json_fault fault }
{
    match fault {
        TreeFault::Syntax | TreeFault::Fraction => ChangesFault::Json(fault),
        TreeFault::NoMemory => ChangesFault::NoMemory,
    }
}

impl From<AllocError> for ChangesFault {
    ghost use Rattle.std.specs.Prelude.{◌≡◌};
    ghost use Rattle.cat_feed.specs.declared.text_fault.ChangesFault.TheVariants.{NoMemory};

    ghost from_gives = { λ _ e. e ≡ NoMemory };

    fn from(_refused: AllocError) -> ChangesFault {
        ChangesFault::NoMemory
    }
}

impl<T: Drop> From<AllocFailed<T>> for ChangesFault {
    ghost use Rattle.std.specs.Prelude.{◌≡◌};
    ghost use Rattle.cat_feed.specs.declared.text_fault.ChangesFault.TheVariants.{NoMemory};

    ghost from_gives = { λ _ e. e ≡ NoMemory };

    fn from(_refused: AllocFailed<T>) -> ChangesFault {
        ChangesFault::NoMemory
    }
}
