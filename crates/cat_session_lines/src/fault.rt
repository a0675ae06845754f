//! Why a line is no command.
ghost use Rattle.std.specs.Prelude.{◌≡◌};
ghost use Rattle.cat_session_lines.specs.Faults.{input_fault, query_fault};

use cat_inputs::fault::InputFault;
use cat_query::fault::QueryFault;
use std::alloc::{AllocError, AllocFailed};
use thiserror::Error;

/// Why a line is no command: the first of these that holds, in this order.
#[derive(Clone, Copy, Debug, Drop, PartialEq, Eq, Error)]
pub enum LineFault {
    /// The line has over 8,388,608 bytes.
    #[error("the line has over 8,388,608 bytes")]
    LongLine,
    /// No command has this word.
    #[error("no command has this word")]
    BadWord,
    /// The rest isn't UTF-8, or the arguments are of another number or form.
    #[error("bad arguments")]
    BadArguments,
    /// The body is no mutation, or no list of texts.
    #[error("{0}")]
    Input(InputFault),
    /// This text of a list, counted from 0, names no entity.
    #[error("text {0} names no entity")]
    Reference(usize),
    /// The text is no query.
    #[error("{0}")]
    Query(QueryFault),
    /// There is no memory for the answer.
    #[error("out of memory")]
    NoMemory,
}

/// The fault of a line whose body isn't what its command takes.
pub fn input_fault(fault: InputFault) -> LineFault
    ensures { result ≡ input_fault fault }
{
    match fault {
        InputFault::NoMemory => LineFault::NoMemory,
        _ => LineFault::Input(fault),
    }
}

/// The fault of a line whose query text is no query.
pub fn query_fault(fault: QueryFault) -> LineFault
    ensures { result ≡ query_fault fault }
{
    match fault {
        QueryFault::NoMemory => LineFault::NoMemory,
        _ => LineFault::Query(fault),
    }
}

impl From<AllocError> for LineFault {
    ghost use Rattle.std.specs.Prelude.{◌≡◌};
    ghost use Rattle.cat_session_lines.specs.declared.fault.LineFault.TheVariants.{NoMemory};

    ghost from_gives = { λ _ e. e ≡ NoMemory };

    fn from(_refused: AllocError) -> LineFault {
        LineFault::NoMemory
    }
}

impl<T: Drop> From<AllocFailed<T>> for LineFault {
    ghost use Rattle.std.specs.Prelude.{◌≡◌};
    ghost use Rattle.cat_session_lines.specs.declared.fault.LineFault.TheVariants.{NoMemory};

    ghost from_gives = { λ _ e. e ≡ NoMemory };

    fn from(_refused: AllocFailed<T>) -> LineFault {
        LineFault::NoMemory
    }
}
