//! Maps: what contracts see as entries by key in order of the keys.
ghost use Rattle.std.specs.Prelude.{◌≡◌, ◌+◌, ◌*◌, ◌==◌, ◌^◌, ◌≤◌, [], drop, length, option_map, is_ok, if◌then◌else◌, IfOk, IsTrue, MatchResult, OnOk, slice_get};
ghost use Rattle.std.specs.FinMap.Entries.{is_sorted};
ghost use Rattle.cat_collections.specs.Rows.{IsAt, IsBetween, without};
ghost use Rattle.cat_collections.specs.Table.{find, keys, put, puts};
ghost use Rattle.std.specs.Arc.{arc_value};
ghost use Rattle.std.specs.List.{fold};
ghost use Rattle.cat_collections.specs.Left.{items_left};
ghost use Rattle.cat_collections.specs.Places.{before, first_from, from};

use crate::listing::{Copied, Listing};
use crate::tree::{Items, MOST, Tree, Visit};
use cat_key::key::{Key, Seek};
use std::alloc::{AllocError, Global};
use std::cmp::Ordering;
use std::marker::Model;
use std::sync::Arc;

/// Entries by key. Contracts see the list of keys with values, in order of the keys, each once. A copy shares the entries
/// with what it was made of, and takes no memory.
pub struct Map<K: Key, X> {
    tree: Tree<(K, X)>,
}

// Written out, and not derived: so the crates above let go of a map by one call.
impl<K: Key + Drop, X: Drop> Drop for Map<K, X> {
    fn drop(self) {
        let Map { tree: _ } = self;
    }
}

impl<K: Key, X> Model for Map<K, X> {
    ghost use Rattle.std.specs.Prelude.{List, IsTrue};
    ghost use Rattle.std.specs.FinMap.Entries.{is_sorted};

    ghost Value = { List (K × X) };

    ghost view = { λ a. a.tree };

    ghost invariant = { λ a. IsTrue (is_sorted K.order a.tree) };
}

/// Whether the keys rise.
pub fn rise<K: Key, X>(entries: &[(K, X)]) -> bool
    ensures { result ≡ is_sorted K.order entries.now }
{
    let mut place = 1;
    while place < entries.len() {
        if entries[place - 1].0.compare(&entries[place].0) != Ordering::Less {
            return false;
        }
        place += 1;
    }
    true
}

impl<K: Key, X> Map<K, X> {
    /// Shows each entry to a visitor, in order of the keys, until it answers that memory is wanted.
    pub fn visit<V: Visit<(K, X)>>(&self, visitor: &mut V) -> Result<(), AllocError>
        ensures { OnOk result (visitor.new ≡ fold V.after visitor.old self.now) }
    {
        self.tree.visit(visitor)
    }

    /// No entries. Takes no memory.
    pub fn new() -> Map<K, X>
        ensures { result ≡ [] }
    {
        Map { tree: Tree::new() }
    }

    /// How many entries there are.
    pub fn len(&self) -> usize
        ensures entries { result ≡ length self.now }
        ensures most { result ≤ MOST }
    {
        self.tree.len()
    }

    /// Whether there are no entries.
    pub fn is_empty(&self) -> bool
        ensures { result ≡ (length self.now == 0) }
    {
        self.tree.len() == 0
    }

    /// The keys rise, each above the one before it.
    pub fn in_order(&self)
        ensures { IsTrue (is_sorted K.order self.now) }
    {
        let _tree = &self.tree;
    }

    /// How many entries lie one below the other at most, which is how many keys a search looks at: no more than the logarithm
    /// of the number of entries and one, to the base 4/3.
    pub fn height(&self) -> usize
        ensures low { 4 ^ result ≤ 3 ^ result * (length self.now + 1) }
        ensures entries { result ≤ length self.now }
    {
        self.tree.height()
    }

    /// Lends the value at a key; none where the key is absent.
    pub fn get(&self, key: &K) -> Option<&X>
        ensures { option_map (λ x. x.now) result ≡ find K.order key.now self.now }
    {
        self.tree.find(key)
    }

    /// Lends the entry at a place in the order of the keys.
    pub fn at(&self, place: usize) -> Option<&(K, X)>
        ensures { option_map (λ e. e.now) result ≡ slice_get self.now place }
    {
        self.tree.get(place)
    }

    /// The place of a key; where it is absent, the place where it would be.
    pub fn search(&self, key: &K) -> Result<usize, usize>
        ensures { MatchResult result (IsAt K.order key.now self.now) (IsBetween K.order key.now self.now) }
    {
        self.tree.search(key)
    }

    /// How many keys stand before a key, which may be absent.
    pub fn place(&self, key: &K) -> usize
        ensures { result ≡ before K.order key.now self.now }
    {
        self.seek_place(key)
    }

    #[tactic(auto, using(crate::proofs::Places::first_from_is))]
    /// Lends the first entry whose key is not below a key.
    pub fn first_from(&self, key: &K) -> Option<&(K, X)>
        ensures { option_map (λ e. e.now) result ≡ first_from K.order key.now self.now }
    {
        self.tree.get(self.place(key))
    }

    /// The entries in order of their keys.
    pub fn iter(&self) -> Items<'_, (K, X)>
        ensures { items_left result ≡ self.now }
    {
        self.tree.from(0)
    }

    /// The entries from a place on, in order of their keys.
    pub fn iter_at(&self, place: usize) -> Items<'_, (K, X)>
        ensures { items_left result ≡ drop place self.now }
    {
        self.tree.from(place)
    }

    #[tactic(auto, using(crate::proofs::Places::from_is))]
    /// The entries whose keys are not below a key, in order of their keys.
    pub fn iter_from(&self, key: &K) -> Items<'_, (K, X)>
        ensures { items_left result ≡ from K.order key.now self.now }
    {
        self.tree.from(self.place(key))
    }
}

impl<K: Key, X> Map<K, X> {
    /// Lends the value at the key that is sought; none where the key is absent.
    pub fn seek<S: Seek<K>>(&self, key: &S) -> Option<&X>
        ensures { option_map (λ x. x.now) result ≡ find K.order (S.sought key.now) self.now }
    {
        self.tree.find(key)
    }

    /// How many keys stand before the key that is sought, which may be absent.
    pub fn seek_place<S: Seek<K>>(&self, key: &S) -> usize
        ensures { result ≡ before K.order (S.sought key.now) self.now }
    {
        match self.tree.search(key) {
            Ok(place) => place,
            Err(place) => place,
        }
    }

    #[tactic(auto, using(crate::proofs::Places::from_is))]
    /// The entries whose keys are not below the key that is sought, in order of their keys.
    pub fn seek_from<S: Seek<K>>(&self, key: &S) -> Items<'_, (K, X)>
        ensures { items_left result ≡ from K.order (S.sought key.now) self.now }
    {
        self.tree.from(self.seek_place(key))
    }
}

impl<K: Key + Drop, X: Drop> Map<K, X> {
    /// A copy, which shares all entries. Takes no memory.
    pub fn share(&self) -> Result<Map<K, X>, AllocError>
        ensures { IfOk result (λ m. m ≡ self.now) }
    {
        Ok(Map {
            tree: self.tree.share()?,
        })
    }

    /// The map of entries whose keys rise. Where memory is wanted, the entries are dropped.
    pub fn from_vec(alloc: Global, entries: Vec<(K, X)>) -> Result<Map<K, X>, AllocError>
        requires rising { IsTrue (is_sorted K.order entries.items) }
        requires room { length entries.items ≤ MOST }
        ensures { IfOk result (λ m. m ≡ entries.items) }
    {
        Ok(Map {
            tree: Tree::from_vec(alloc, entries)?,
        })
    }

    /// Puts the value at its key's place: before the first greater key, or in place of the value of its key. Where memory is
    /// wanted, the map is as before. Copies of the map stay as they are.
    pub fn put(&mut self, alloc: Global, key: K, value: X) -> Result<(), AllocError>
        ensures { self.new ≡ (if is_ok result then put K.order key value self.old else self.old) }
    {
        let entry = Arc::new(alloc, (key, value))?;
        self.put_shared(alloc, entry)
    }

    /// Puts an entry that others may have too, as `put` does.
    pub fn put_shared(
        &mut self,
        alloc: Global,
        entry: Arc<(K, X), Global>,
    ) -> Result<(), AllocError>
        ensures { self.new ≡ (if is_ok result then put K.order (arc_value entry).0 (arc_value entry).1 self.old else self.old) }
    {
        match self.tree.search(&entry.0) {
            Ok(place) => {
                self.tree.replace(alloc, place, entry)?;
                Ok(())
            }
            Err(place) => {
                if self.tree.len() == MOST {
                    return Err(AllocError);
                }
                self.tree.insert(alloc, place, entry)?;
                Ok(())
            }
        }
    }

    /// Removes the key's entry, if there is one. Where memory is wanted, the map is as before. Copies of the map stay as they
    /// are.
    pub fn remove(&mut self, alloc: Global, key: &K) -> Result<(), AllocError>
        ensures { self.new ≡ (if is_ok result then without K.order key.now self.old else self.old) }
    {
        match self.tree.search(key) {
            Ok(place) => {
                self.tree.remove(alloc, place)?;
                Ok(())
            }
            Err(_) => Ok(()),
        }
    }

    /// Puts these entries, one after the other; where memory is wanted, none of them.
    pub fn put_all(&mut self, alloc: Global, entries: Vec<(K, X)>) -> Result<(), AllocError>
        ensures { self.new ≡ (if is_ok result then puts K.order entries.items self.old else self.old) }
    {
        let mut next = self.share()?;
        for (key, value) in entries {
            next.put(alloc, key, value)?;
        }
        *self = next;
        Ok(())
    }

    #[tactic(auto, using(crate::proofs::Sides::drop_get))]
    /// Puts the entries of another map, which then share them; where memory is wanted, none of them.
    pub fn put_map(&mut self, alloc: Global, other: &Map<K, X>) -> Result<(), AllocError>
        ensures { self.new ≡ (if is_ok result then puts K.order other.now self.old else self.old) }
    {
        let mut next = self.share()?;
        for place in 0..other.tree.len() {
            let Some(entry) = other.tree.get_shared(place) else {
                unreachable!()
            };
            next.put_shared(alloc, Arc::try_clone(entry)?)?;
        }
        *self = next;
        Ok(())
    }
}

impl<K: Key + Drop, X: Drop> Copied for Map<K, X> {
    fn duplicate(&self, _alloc: Global) -> Result<Map<K, X>, AllocError> {
        self.share()
    }
}

impl<K: Key + Copied + Drop, X> Map<K, X> {
    /// Copies of the keys in order.
    pub fn keys(&self, alloc: Global) -> Result<Listing<K>, AllocError>
        ensures { IfOk result (λ ks. ks ≡ keys self.now) }
    {
        let mut names = Vec::new(alloc);
        for entry in self.iter() {
            names.push(entry.0.duplicate(alloc)?)?;
        }
        Ok(Listing::from_vec(names))
    }
}
