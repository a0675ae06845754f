//! Why a body is no mutation, and why a shelf text lists no descriptors.
ghost use Rattle.std.specs.Prelude.{◌≡◌};
ghost use Rattle.cat_inputs.specs.Faults.{place_text, json_fault, text_fault, unnamed, unlisted};

use cat_tree::read::TreeFault;
use cat_types::fault::RefFault;
use std::alloc::{AllocError, AllocFailed};
use std::fmt;
use thiserror::Error;

/// A field of the body of a request.
#[derive(Clone, Copy, Debug, Drop, PartialEq, Eq)]
pub enum Place {
    Serial,
    Entities,
    Added,
    Removed,
    EntityRefs,
    EntityRef,
    Fields,
}

impl Place {
    /// The name of the field, as `entityRefs`.
    pub fn text(self) -> &'static str
        ensures { result.now ≡ place_text self }
    {
        match self {
            Place::Serial => "serial",
            Place::Entities => "entities",
            Place::Added => "added",
            Place::Removed => "removed",
            Place::EntityRefs => "entityRefs",
            Place::EntityRef => "entityRef",
            Place::Fields => "fields",
        }
    }
}

impl fmt::Display for Place {
    fn fmt<W: fmt::Write>(&self, f: &mut fmt::Formatter<W>) -> fmt::Result {
        write!(f, "{}", self.text())
    }
}

/// Why a body is no mutation: the first of these that holds, in this order.
#[derive(Clone, Copy, Debug, Drop, PartialEq, Eq, Error)]
pub enum InputFault {
    /// The bytes are no tree.
    #[error("{0}")]
    Json(TreeFault),
    /// The field is missing or of another form.
    #[error("the field {0} is missing or of another form")]
    Shape(Place),
    /// There are over 100,000 items.
    #[error("over 100,000 items")]
    TooMany,
    /// The descriptor of this item is over 100 levels deep.
    #[error("item {0} is over 100 levels deep")]
    Deep(usize),
    /// This item, or removed text, names no entity.
    #[error("item {0} names no entity: {1}")]
    NoRef(usize, RefFault),
    /// This item, or removed text, has a reference that stands before it.
    #[error("item {0} has the reference of one before it")]
    Duplicate(usize),
    /// There is no memory for the answer.
    #[error("out of memory")]
    NoMemory,
}

/// Why a shelf text lists no descriptors: the first of these that holds, in this order.
#[derive(Clone, Copy, Debug, Drop, PartialEq, Eq, Error)]
pub enum ShelfFault {
    /// The text has no reading, in JSON or in block YAML.
    #[error("neither JSON nor block YAML")]
    Syntax,
    /// The text has a number that is no integer of 64 bits.
    #[error("a number is not an integer of 64 bits")]
    Fraction,
    /// The text is neither an object nor a list of objects, or has a document that is none.
    #[error("neither an object nor a list of objects")]
    Shape,
    /// This descriptor is over 100 levels deep.
    #[error("descriptor {0} is over 100 levels deep")]
    Deep(usize),
    /// This descriptor names no entity.
    #[error("descriptor {0} names no entity: {1}")]
    NoRef(usize, RefFault),
    /// There is no memory for the answer.
    #[error("out of memory")]
    NoMemory,
}

/// The fault of a body that has no tree.
pub fn json_fault(fault: TreeFault) -> InputFault
    ensures { result ≡ json_fault fault }
{
    match fault {
        TreeFault::Syntax | TreeFault::Fraction => InputFault::Json(fault),
        TreeFault::NoMemory => InputFault::NoMemory,
    }
}

/// The fault of a body whose item, or removed text, at this place has no reference.
pub fn unnamed(place: usize, fault: RefFault) -> InputFault
    ensures { result ≡ unnamed place fault }
{
    match fault {
        RefFault::NoMemory => InputFault::NoMemory,
        _ => InputFault::NoRef(place, fault),
    }
}

/// The fault of a shelf text that has no tree.
pub fn text_fault(fault: TreeFault) -> ShelfFault
    ensures { result ≡ text_fault fault }
{
    match fault {
        TreeFault::Syntax => ShelfFault::Syntax,
        TreeFault::Fraction => ShelfFault::Fraction,
        TreeFault::NoMemory => ShelfFault::NoMemory,
    }
}

/// The fault of a shelf text whose descriptor at this place has no reference.
pub fn unlisted(place: usize, fault: RefFault) -> ShelfFault
    ensures { result ≡ unlisted place fault }
{
    match fault {
        RefFault::NoMemory => ShelfFault::NoMemory,
        _ => ShelfFault::NoRef(place, fault),
    }
}

impl From<AllocError> for InputFault {
    ghost use Rattle.std.specs.Prelude.{◌≡◌};
    ghost use Rattle.cat_inputs.specs.declared.fault.InputFault.TheVariants.{NoMemory};

    ghost from_gives = { λ _ e. e ≡ NoMemory };

    fn from(_refused: AllocError) -> InputFault {
        InputFault::NoMemory
    }
}

impl<T: Drop> From<AllocFailed<T>> for InputFault {
    ghost use Rattle.std.specs.Prelude.{◌≡◌};
    ghost use Rattle.cat_inputs.specs.declared.fault.InputFault.TheVariants.{NoMemory};

    ghost from_gives = { λ _ e. e ≡ NoMemory };

    fn from(_refused: AllocFailed<T>) -> InputFault {
        InputFault::NoMemory
    }
}

impl From<AllocError> for ShelfFault {
    ghost use Rattle.std.specs.Prelude.{◌≡◌};
    ghost use Rattle.cat_inputs.specs.declared.fault.ShelfFault.TheVariants.{NoMemory};

    ghost from_gives = { λ _ e. e ≡ NoMemory };

    fn from(_refused: AllocError) -> ShelfFault {
        ShelfFault::NoMemory
    }
}

impl<T: Drop> From<AllocFailed<T>> for ShelfFault {
    ghost use Rattle.std.specs.Prelude.{◌≡◌};
    ghost use Rattle.cat_inputs.specs.declared.fault.ShelfFault.TheVariants.{NoMemory};

    ghost from_gives = { λ _ e. e ≡ NoMemory };

    fn from(_refused: AllocFailed<T>) -> ShelfFault {
        ShelfFault::NoMemory
    }
}
