//! Maps and lists that are made key by key.
ghost use Rattle.std.specs.Prelude.{◌≡◌, true, IfOk};
ghost use Rattle.std.specs.List.{filter};
ghost use Rattle.std.specs.List.Sorted.{IsStrictlySortedBy};
ghost use Rattle.cat_collections.specs.Table.{first, tabulate};

use cat_collections::key::Key;
use cat_collections::listing::{Copied, Listing};
use cat_collections::map::Map;
use cat_collections::tree::MOST;
use cat_types::sorted::{append, in_order};
use std::alloc::{AllocError, Global};
use std::cmp::Ordering;

/// A function from keys to values, for some keys none.
pub trait Gives<K, X> {
    ghost use Rattle.std.specs.Prelude.{Option};

    ghost gives: { Self → K → Option X };

    /// The value of a key.
    fn give(&self, alloc: Global, key: &K) -> Result<Option<X>, AllocError>
        ensures { IfOk result (λ v. v ≡ gives self.now key.now) };
}

/// A test of keys.
pub trait Passes<K> {
    ghost use Rattle.std.specs.Prelude.{Bool};

    ghost passes: { Self → K → Bool };

    /// Whether a key passes.
    fn test(&self, alloc: Global, key: &K) -> Result<bool, AllocError>
        ensures { IfOk result (λ v. v ≡ passes self.now key.now) };
}

// Whether each key is below the next.
fn rise<K: Key>(keys: &[K]) -> bool
    ensures { result ≡ true → IsStrictlySortedBy K.order keys.now }
{
    let mut place = 1;
    while place < keys.len() {
        if keys[place - 1].compare(&keys[place]) != Ordering::Less {
            return false;
        }
        place += 1;
    }
    true
}

// Keys that rise need no search for their places: each entry goes to the end.
fn in_turn<K: Key + Copied + Drop, X: Drop, F: Gives<K, X>>(
    alloc: Global,
    keys: &[K],
    f: &F,
) -> Result<Map<K, X>, AllocError>
    requires { IsStrictlySortedBy K.order keys.now }
    ensures { IfOk result (λ t. t ≡ tabulate K.order keys.now (F.gives f.now)) }
{
    let mut made = Vec::new(alloc);
    for key in keys {
        if let Some(value) = f.give(alloc, key)? {
            made.push((key.duplicate(alloc)?, value))?;
        }
    }
    if made.len() > MOST {
        return Err(AllocError);
    }
    Map::from_vec(alloc, made)
}

// Keys in whatever order are put in order first.
fn out_of_turn<K: Key + Copied + Drop, X: Drop, F: Gives<K, X>>(
    alloc: Global,
    keys: &[K],
    f: &F,
) -> Result<Map<K, X>, AllocError>
    ensures { IfOk result (λ t. t ≡ tabulate K.order keys.now (F.gives f.now)) }
{
    let mut copies = Vec::new(alloc);
    append(alloc, &mut copies, keys)?;
    let sorted = in_order(copies);
    in_turn(alloc, sorted.as_slice(), f)
}

/// The map of the values that the function gives these keys, in order of the keys; a key without a value is left out. Keys
/// that rise are asked as they stand, others are sorted first.
pub fn tabulated<K: Key + Copied + Drop, X: Drop, F: Gives<K, X>>(
    alloc: Global,
    keys: &[K],
    f: &F,
) -> Result<Map<K, X>, AllocError>
    ensures { IfOk result (λ t. t ≡ tabulate K.order keys.now (F.gives f.now)) }
{
    if rise(keys) {
        in_turn(alloc, keys, f)
    } else {
        out_of_turn(alloc, keys, f)
    }
}

/// The keys that pass, in their order.
pub fn filtered<K: Copied + Drop, F: Passes<K>>(
    alloc: Global,
    keys: &[K],
    f: &F,
) -> Result<Listing<K>, AllocError>
    ensures { IfOk result (λ ks. ks ≡ filter (F.passes f.now) keys.now) }
{
    let mut made = Vec::new(alloc);
    for key in keys {
        if f.test(alloc, key)? {
            made.push(key.duplicate(alloc)?)?;
        }
    }
    Ok(Listing::from_vec(made))
}

/// The first key that passes.
pub fn first_of<K: Copied, F: Passes<K>>(
    alloc: Global,
    keys: &[K],
    f: &F,
) -> Result<Option<K>, AllocError>
    ensures { IfOk result (λ k. k ≡ first (F.passes f.now) keys.now) }
{
    for key in keys {
        if f.test(alloc, key)? {
            return Ok(Some(key.duplicate(alloc)?));
        }
    }
    Ok(None)
}
