//! Conditions and filters.
ghost use Rattle.std.specs.Prelude.{◌≡◌};

use cat_tree::text::Text;
use std::alloc::{AllocError, AllocFailed};
use std::marker::Model;
use thiserror::Error;

/// What one condition asks: that a document has a row with the key, and where there is a value, with
/// this value.
#[derive(Drop)]
pub struct Condition {
    /// The path, its keys parted by `.`.
    pub key: Text,
    /// The value at the path, if one is asked for.
    pub value: Option<Text>,
}

/// Conditions in the order of their text. Contracts see the list of them.
#[derive(Drop)]
pub struct Filter {
    conditions: Vec<Condition>,
}

impl Model for Filter {
    ghost use Rattle.std.specs.Prelude.{List};
    ghost use Rattle.cat_search.specs.declared.condition.Condition.{Condition};

    ghost Value = { List Condition };

    ghost view = { λ a. a.conditions.items };
}

impl Filter {
    /// The filter of these conditions, whose memory it takes over.
    pub fn from_vec(conditions: Vec<Condition>) -> Filter
        ensures { result ≡ conditions.items }
    {
        Filter { conditions }
    }

    /// Lends the conditions.
    pub fn as_slice(&self) -> &[Condition]
        ensures { result.now ≡ self.now }
    {
        self.conditions.as_slice()
    }
}

/// Why a text is no filter.
#[derive(Clone, Copy, Debug, Drop, PartialEq, Eq, Error)]
pub enum FilterFault {
    /// The condition at this place among the pieces between the commas has no key.
    #[error("condition {0} has no key")]
    EmptyKey(usize),
    /// Memory is wanted.
    #[error("out of memory")]
    NoMemory,
}

impl From<AllocError> for FilterFault {
    ghost use Rattle.std.specs.Prelude.{◌≡◌};
    ghost use Rattle.cat_search.specs.declared.condition.FilterFault.TheVariants.{NoMemory};

    ghost from_gives = { λ _ e. e ≡ NoMemory };

    fn from(_refused: AllocError) -> FilterFault {
        FilterFault::NoMemory
    }
}

impl<T: Drop> From<AllocFailed<T>> for FilterFault {
    ghost use Rattle.std.specs.Prelude.{◌≡◌};
    ghost use Rattle.cat_search.specs.declared.condition.FilterFault.TheVariants.{NoMemory};

    ghost from_gives = { λ _ e. e ≡ NoMemory };

    fn from(_refused: AllocFailed<T>) -> FilterFault {
        FilterFault::NoMemory
    }
}
