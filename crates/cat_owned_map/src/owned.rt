//! Maps that own their nodes: what contracts see as entries by key in order of the keys. Entries come and go with their
//! nodes, without memory; a copy is never taken.
ghost use Rattle.std.specs.Prelude.{◌≡◌, ◌<◌, ◌≤◌, ◌==◌, [], Some, drop, length, option_map, is_ok, is_some, if◌then◌else◌, IfOk, IfSome, IsTrue, MatchResult, slice_get};
ghost use Rattle.std.specs.FinMap.Entries.{is_sorted};
ghost use Rattle.cat_owned_map.specs.BoxedLeft.{boxed_left};
ghost use Rattle.cat_collections.specs.Places.{before, first_from, from};
ghost use Rattle.cat_collections.specs.Rows.{IsAt, IsBetween, without};
ghost use Rattle.cat_collections.specs.Table.{find, put};

use crate::boxed::{Boxed, BoxedItems, Node, Slot};
use cat_collections::key::{Key, Seek};
use cat_collections::tree::MOST;
use std::alloc::{AllocError, Global};
use std::marker::Model;

/// Entries by key. Contracts see the list of keys with values, in order of the keys, each once.
pub struct Owned<K: Key, X> {
    tree: Boxed<(K, X)>,
}

// Written out, and not derived: so the crates above let go of a map by one call.
impl<K: Key + Drop, X: Drop> Drop for Owned<K, X> {
    fn drop(self) {
        let Owned { tree: _ } = self;
    }
}

impl<K: Key, X> Model for Owned<K, X> {
    ghost use Rattle.std.specs.Prelude.{List, IsTrue};
    ghost use Rattle.std.specs.FinMap.Entries.{is_sorted};

    ghost Value = { List (K × X) };

    ghost view = { λ a. a.tree };

    ghost invariant = { λ a. IsTrue (is_sorted K.order a.tree) };
}

impl<K: Key, X> Owned<K, X> {
    /// No entries. Takes no memory.
    pub fn new() -> Owned<K, X>
        ensures { result ≡ [] }
    {
        Owned { tree: Boxed::new() }
    }

    /// How many entries there are.
    pub fn len(&self) -> usize
        ensures entries { result ≡ length self.now }
        ensures most { result ≤ MOST }
    {
        self.tree.len()
    }

    /// Whether there are no entries.
    pub fn is_empty(&self) -> bool
        ensures { result ≡ (length self.now == 0) }
    {
        self.tree.len() == 0
    }

    /// The keys rise, each above the one before it.
    pub fn in_order(&self)
        ensures { IsTrue (is_sorted K.order self.now) }
    {
        let _tree = &self.tree;
    }

    /// Lends the value at a key; none where the key is absent.
    pub fn get(&self, key: &K) -> Option<&X>
        ensures { option_map (λ x. x.now) result ≡ find K.order key.now self.now }
    {
        self.tree.find(key)
    }

    /// Lends the entry at a place in the order of the keys.
    pub fn at(&self, place: usize) -> Option<&(K, X)>
        ensures { option_map (λ e. e.now) result ≡ slice_get self.now place }
    {
        self.tree.get(place)
    }

    /// The place of a key; where it is absent, the place where it would be.
    pub fn search(&self, key: &K) -> Result<usize, usize>
        ensures { MatchResult result (IsAt K.order key.now self.now) (IsBetween K.order key.now self.now) }
    {
        self.tree.search(key)
    }

    /// How many keys stand before a key, which may be absent.
    pub fn place(&self, key: &K) -> usize
        ensures { result ≡ before K.order key.now self.now }
    {
        self.seek_place(key)
    }

    #[tactic(auto, using(cat_collections::proofs::Places::first_from_is))]
    /// Lends the first entry whose key is not below a key.
    pub fn first_from(&self, key: &K) -> Option<&(K, X)>
        ensures { option_map (λ e. e.now) result ≡ first_from K.order key.now self.now }
    {
        self.tree.get(self.place(key))
    }

    /// The entries in order of their keys.
    pub fn iter(&self) -> BoxedItems<'_, (K, X)>
        ensures { boxed_left result ≡ self.now }
    {
        self.tree.from(0)
    }

    /// The entries from a place on, in order of their keys.
    pub fn iter_at(&self, place: usize) -> BoxedItems<'_, (K, X)>
        ensures { boxed_left result ≡ drop place self.now }
    {
        self.tree.from(place)
    }

    #[tactic(auto, using(cat_collections::proofs::Places::from_is))]
    /// The entries whose keys are not below a key, in order of their keys.
    pub fn iter_from(&self, key: &K) -> BoxedItems<'_, (K, X)>
        ensures { boxed_left result ≡ from K.order key.now self.now }
    {
        self.tree.from(self.place(key))
    }

    /// Lends the value at the key that is sought; none where the key is absent.
    pub fn seek<S: Seek<K>>(&self, key: &S) -> Option<&X>
        ensures { option_map (λ x. x.now) result ≡ find K.order (S.sought key.now) self.now }
    {
        self.tree.find(key)
    }

    /// How many keys stand before the key that is sought, which may be absent.
    pub fn seek_place<S: Seek<K>>(&self, key: &S) -> usize
        ensures { result ≡ before K.order (S.sought key.now) self.now }
    {
        match self.tree.search(key) {
            Ok(place) => place,
            Err(place) => place,
        }
    }

    #[tactic(auto, using(cat_collections::proofs::Places::from_is))]
    /// The entries whose keys are not below the key that is sought, in order of their keys.
    pub fn seek_from<S: Seek<K>>(&self, key: &S) -> BoxedItems<'_, (K, X)>
        ensures { boxed_left result ≡ from K.order (S.sought key.now) self.now }
    {
        self.tree.from(self.seek_place(key))
    }
}

impl<K: Key + Drop, X: Drop> Owned<K, X> {
    /// The map of entries whose keys rise. Where memory is wanted, the entries are dropped.
    pub fn from_vec(alloc: Global, entries: Vec<(K, X)>) -> Result<Owned<K, X>, AllocError>
        requires rising { IsTrue (is_sorted K.order entries.items) }
        requires room { length entries.items ≤ MOST }
        ensures { IfOk result (λ m. m ≡ entries.items) }
    {
        Ok(Owned {
            tree: Boxed::from_vec(alloc, entries)?,
        })
    }

    /// Puts a node's entry at its key's place: before the first greater key, or in place of the entry of its key, which is
    /// answered in the node. Takes no memory.
    pub fn put_node(&mut self, node: Node<(K, X)>) -> Option<Node<(K, X)>>
        requires room { length self.old < MOST }
        ensures before { result ≡ option_map (λ x. (node.0, x)) (find K.order node.0 self.old) }
        ensures entries { self.new ≡ put K.order node.0 node.1 self.old }
    {
        match self.tree.search(&node.item().0) {
            Ok(place) => {
                let (entry, slot) = node.open();
                let before = self.tree.exchange(place, entry);
                Some(slot.fill(before))
            }
            Err(place) => {
                self.tree.insert(place, node);
                None
            }
        }
    }

    /// Takes the entry of the key that is sought out, with its node; none where the key is absent. Takes no memory. Where there
    /// was one, there is room to put the node back.
    pub fn seek_take<S: Seek<K>>(&mut self, key: &S) -> Option<Node<(K, X)>>
        ensures node { result ≡ option_map (λ x. (S.sought key.now, x)) (find K.order (S.sought key.now) self.old) }
        ensures entries { self.new ≡ without K.order (S.sought key.now) self.old }
        ensures room { IfSome result (λ e. length self.new < MOST) }
    {
        let _most = self.tree.len();
        match self.tree.search(key) {
            Ok(place) => Some(self.tree.remove(place)),
            Err(_) => None,
        }
    }

    /// Takes the key's entry out, with its node; none where the key is absent. Takes no memory. Where there was one, there is room
    /// to put the node back.
    pub fn take(&mut self, key: &K) -> Option<Node<(K, X)>>
        ensures node { result ≡ option_map (λ x. (key.now, x)) (find K.order key.now self.old) }
        ensures entries { self.new ≡ without K.order key.now self.old }
        ensures room { IfSome result (λ e. length self.new < MOST) }
    {
        self.seek_take(key)
    }

    /// Removes the key's entry, if there is one. Takes no memory.
    pub fn remove(&mut self, key: &K)
        ensures { self.new ≡ without K.order key.now self.old }
    {
        let _node = self.seek_take(key);
    }

    /// Puts the value in place of the one at its key, and answers that one. Where the key is absent the map is as before.
    /// Takes no memory.
    pub fn replace(&mut self, key: &K, value: X) -> Option<X>
        ensures value { result ≡ find K.order key.now self.old }
        ensures entries { self.new ≡ (if is_some (find K.order key.now self.old) then put K.order key.now value self.old else self.old) }
    {
        self.tree.replace(key, value)
    }

    /// Puts the value at its key's place: before the first greater key, or in place of the value of its key. Where memory is
    /// wanted, the map is as before.
    pub fn put(&mut self, alloc: Global, key: K, value: X) -> Result<(), AllocError>
        ensures { self.new ≡ (if is_ok result then put K.order key value self.old else self.old) }
    {
        if self.tree.len() == MOST {
            return Err(AllocError);
        }
        let slot = Slot::new(alloc)?;
        let _before = self.put_node(slot.fill((key, value)));
        Ok(())
    }
}
