//! Entries by key in the order in which they are given.
ghost use Rattle.std.specs.Prelude.{◌≡◌, [], IfOk, IsTrue, MatchResult, length, option_map};
ghost use Rattle.std.specs.FinMap.Entries.{is_sorted};
ghost use Rattle.std.specs.Ordering.{ordering_reverse};
ghost use Rattle.cat_collections.specs.Rows.{IsAt, IsBetween};
ghost use Rattle.cat_collections.specs.Table.{find, keys};

use crate::sorted::append;
use cat_collections::key::Key;
use cat_collections::listing::{Copied, Listing};
use cat_collections::map::rise;
use std::alloc::{AllocError, Global};
use std::cmp::Ordering;
use std::marker::Model;

/// Entries by key, in the order in which they are given. Contracts see the list of keys with values. Where the keys rise, which
/// the entries know, a key is found by halving.
pub struct Entries<K: Key, X> {
    items: Vec<(K, X)>,
    // whether the keys are known to rise
    rising: bool,
}

// Written out, and not derived: so the crates above let go of entries by one call.
impl<K: Key + Drop, X: Drop> Drop for Entries<K, X> {
    fn drop(self) {
        let Entries {
            items: _,
            rising: _,
        } = self;
    }
}

impl<K: Key, X> Model for Entries<K, X> {
    ghost use Rattle.std.specs.Prelude.{List};
    ghost use Rattle.cat_types.specs.Rising.{RiseWhere};

    ghost Value = { List (K × X) };

    ghost view = { λ a. a.items.items };

    ghost invariant = { λ a. RiseWhere K.order a.rising a.items.items };
}

impl<K: Key + Copied + Drop, X: Copied + Drop> Copied for Entries<K, X> {
    fn duplicate(&self, alloc: Global) -> Result<Entries<K, X>, AllocError> {
        let mut items = Vec::new(alloc);
        append(alloc, &mut items, self.items.as_slice())?;
        Ok(Entries {
            items,
            rising: self.rising,
        })
    }
}

impl<K: Key, X> Entries<K, X> {
    /// No entries. Takes no memory.
    pub fn new(alloc: Global) -> Entries<K, X>
        ensures { result ≡ [] }
    {
        Entries {
            items: Vec::new(alloc),
            rising: true,
        }
    }

    /// The entries of a vector, in whatever order they stand.
    pub fn from_vec(items: Vec<(K, X)>) -> Entries<K, X>
        ensures { result ≡ items.items }
    {
        let rising = rise(items.as_slice());
        Entries { items, rising }
    }

    /// How many entries there are.
    pub fn len(&self) -> usize
        ensures { result ≡ length self.now }
    {
        self.items.len()
    }

    /// Copies of the keys, as they stand.
    pub fn keys(&self, alloc: Global) -> Result<Listing<K>, AllocError>
    where
        K: Copied + Drop,
        ensures { IfOk result (λ ks. ks ≡ keys self.now) }
    {
        let mut names = Vec::new(alloc);
        for (key, _) in &self.items {
            names.push(key.duplicate(alloc)?)?;
        }
        Ok(Listing::from_vec(names))
    }

    /// Lends the entries in order.
    pub fn as_slice(&self) -> &[(K, X)]
        ensures { result.now ≡ self.now }
    {
        self.items.as_slice()
    }

    /// Lends the value at a key; none where the key is absent.
    pub fn get(&self, key: &K) -> Option<&X>
        ensures { option_map (λ x. x.now) result ≡ find K.order key.now self.now }
    {
        if self.rising {
            get(self.items.as_slice(), key)
        } else {
            first_at(self.items.as_slice(), key)
        }
    }
}

fn compare_to<K: Key, X>(row: &(K, X), key: &K) -> Ordering
    ensures { result ≡ ordering_reverse (K.order key.now row.now.0) }
{
    key.compare(&row.0).reverse()
}

// The place of the key's row; where there is none, the place where it would be.
fn place_of<K: Key, X>(rows: &[(K, X)], key: &K) -> Result<usize, usize>
    requires { IsTrue (is_sorted K.order rows.now) }
    ensures { MatchResult result (IsAt K.order key.now rows.now) (IsBetween K.order key.now rows.now) }
{
    rows.binary_search_by(|row| compare_to(row, key))
}

// Lends the value at a key; none where the key is absent.
fn get<'a, K: Key, X>(rows: &'a [(K, X)], key: &K) -> Option<&'a X>
    requires { IsTrue (is_sorted K.order rows.now) }
    ensures { option_map (λ x. x.now) result ≡ find K.order key.now rows.now }
{
    match place_of(rows, key) {
        Ok(place) => Some(&rows[place].1),
        Err(_) => None,
    }
}

// Lends the first value at a key among rows in any order; none where the key is absent.
fn first_at<'a, K: Key, X>(rows: &'a [(K, X)], key: &K) -> Option<&'a X>
    ensures { option_map (λ x. x.now) result ≡ find K.order key.now rows.now }
{
    for (other, value) in rows {
        if key.compare(other) == Ordering::Equal {
            return Some(value);
        }
    }
    None
}
