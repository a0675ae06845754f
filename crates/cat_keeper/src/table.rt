//! The tables of a store.
ghost use Rattle.std.specs.Prelude.{◌≡◌, ◌≢◌, MatchOption};
ghost use Rattle.cat_keeper.specs.Tables.{table_antisymmetric, table_cmp, table_name, table_number, table_total};

use cat_collections::key::Key;
use cat_collections::listing::Copied;
use std::alloc::{AllocError, Global};
use std::cmp::Ordering;

/// A table of a store. Tables are ordered as they stand here.
#[derive(Clone, Copy, Debug, Drop, PartialEq, Eq)]
pub enum Table {
    /// The next numbers to be drawn.
    Counters,
    /// The last serial number of each provider.
    Providers,
    /// What providers give.
    Items,
    /// The texts of the shelf.
    Shelf,
    /// The records, with what they gave last.
    Records,
    /// The orphans.
    Orphans,
    /// What the store was written by.
    Settings,
    /// The trees of items and offers.
    Trees,
}

impl Table {
    /// The number of the table, from 1 to 8.
    pub fn number(self) -> u8
        ensures { result ≡ table_number self }
    {
        match self {
            Table::Counters => 1,
            Table::Providers => 2,
            Table::Items => 3,
            Table::Shelf => 4,
            Table::Records => 5,
            Table::Orphans => 6,
            Table::Settings => 7,
            Table::Trees => 8,
        }
    }

    /// The table of a number; none where no table has it.
    pub fn at(number: u64) -> Option<Table>
        ensures { MatchOption result ((t : Self) → table_number t ≢ number) (λ t. table_number t ≡ number) }
    {
        match number {
            1 => Some(Table::Counters),
            2 => Some(Table::Providers),
            3 => Some(Table::Items),
            4 => Some(Table::Shelf),
            5 => Some(Table::Records),
            6 => Some(Table::Orphans),
            7 => Some(Table::Settings),
            8 => Some(Table::Trees),
            _ => None,
        }
    }

    /// The name of the table, as `counters`.
    pub fn name(self) -> &'static str
        ensures { result.now ≡ table_name self }
    {
        match self {
            Table::Counters => "counters",
            Table::Providers => "providers",
            Table::Items => "items",
            Table::Shelf => "shelf",
            Table::Records => "records",
            Table::Orphans => "orphans",
            Table::Settings => "settings",
            Table::Trees => "trees",
        }
    }
}

impl Key for Table {
    ghost order = { table_cmp };

    ghost total = { table_total };

    ghost apart = { table_antisymmetric };

    fn compare(&self, other: &Table) -> Ordering {
        self.number().cmp(&other.number())
    }
}

impl Copied for Table {
    fn duplicate(&self, _alloc: Global) -> Result<Table, AllocError> {
        Ok(*self)
    }
}
