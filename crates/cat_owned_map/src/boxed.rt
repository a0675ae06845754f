//! Lists kept as balanced trees that own their nodes. Nodes come and go by themselves, so that what is put in and taken
//! out takes no memory.
ghost use Rattle.std.specs.Prelude.{◌≡◌, ◌+◌, ◌*◌, ◌<◌, ◌≤◌, ◌∷◌, ◌++◌, [], length, drop, is_some, if◌then◌else◌, IfOk, IsSome, IsTrue, MatchResult, OnOk, Some, option_map, slice_get, slice_set};
ghost use Rattle.std.specs.FinMap.Entries.{is_sorted};
ghost use Rattle.std.specs.Iterator.{YieldsFirstRef, item_count};
ghost use Rattle.std.specs.List.{insert, remove};
ghost use Rattle.cat_owned_map.specs.Boxed.{held};
ghost use Rattle.cat_owned_map.specs.BoxedLeft.{boxed_left};
ghost use Rattle.cat_owned_map.specs.BoxedParts.{AreWhole, IsFirstWhole, first_of, parted};
ghost use Rattle.cat_collections.specs.Rows.{IsAt, IsBetween};
ghost use Rattle.cat_collections.specs.Table.{find, put};
ghost use Rattle.cat_collections.specs.Tree.{Balance, NearBalance};

use cat_collections::key::{Key, Seek};
use cat_collections::tree::MOST;
use std::alloc::{AllocError, Global};
use std::cmp::Ordering;
use std::marker::Model;
use std::mem;

/// Items in order. Contracts see the list of them.
#[cycle(boxed)]
#[derive(Drop)]
pub struct Boxed<E> {
    link: Link<E>,
}

#[cycle(boxed)]
#[derive(Drop)]
enum Link<E> {
    Leaf,
    Fork(Box<Fork<E>>),
}

// In a tree it has an item; outside of one it is the memory of a node.
#[cycle(boxed)]
#[derive(Drop)]
struct Fork<E> {
    left: Boxed<E>,
    item: Option<E>,
    right: Boxed<E>,
    size: usize,
}

// What a tree that is not empty is made of: the node has the item, and nothing on its sides.
#[derive(Drop)]
struct Parts<E> {
    left: Boxed<E>,
    fork: Box<Fork<E>>,
    right: Boxed<E>,
}

impl<E> Model for Boxed<E> {
    ghost use Rattle.std.specs.Prelude.{List, length};

    ghost Value = { List E };

    ghost use Rattle.cat_owned_map.specs.Boxed.{items, IsKept};

    ghost view = { λ a. items a.link };

    ghost invariant = { λ a. IsKept a.link };

    ghost size = { length };

    ghost use Rattle.cat_owned_map.specs.BoxedFalls.{depth_le-length};

    ghost size_decreases = { λ a h. depth_le-length E a.link h };
}

/// The memory of one node, without an item. Contracts see nothing of it.
#[derive(Drop)]
pub struct Slot<E> {
    fork: Box<Fork<E>>,
}

/// An item with the memory of its node, out of a tree. Contracts see the item.
#[derive(Drop)]
pub struct Node<E> {
    item: E,
    slot: Slot<E>,
}

impl<E> Model for Node<E> {
    ghost Value = { E };

    ghost view = { λ a. a.item };
}

impl<E: Drop> Slot<E> {
    /// Takes memory for a node.
    pub fn new(alloc: Global) -> Result<Slot<E>, AllocError> {
        let fork = Box::new(
            alloc,
            Fork {
                left: Boxed::new(),
                item: None,
                right: Boxed::new(),
                size: 0,
            },
        )?;
        Ok(Slot { fork })
    }
}

impl<E> Slot<E> {
    /// Puts an item into the node. Takes no memory.
    pub fn fill(self, item: E) -> Node<E>
        ensures { result ≡ item }
    {
        Node { item, slot: self }
    }
}

impl<E> Node<E> {
    /// Lends the item.
    pub fn item(&self) -> &E
        ensures { result.now ≡ self.now }
    {
        &self.item
    }

    /// The item, and the memory of the node.
    pub fn open(self) -> (E, Slot<E>)
        ensures { result.0 ≡ self }
    {
        (self.item, self.slot)
    }
}

impl<E> Boxed<E> {
    /// No items. Takes no memory.
    pub fn new() -> Boxed<E>
        ensures { result ≡ [] }
    {
        Boxed { link: Link::Leaf }
    }

    /// How many items there are.
    pub fn len(&self) -> usize
        ensures items { result ≡ length self.now }
        ensures most { result ≤ MOST }
    {
        match &self.link {
            Link::Leaf => 0,
            Link::Fork(fork) => fork.size,
        }
    }

    /// Lends the item at a place.
    pub fn get(&self, place: usize) -> Option<&E>
        ensures { option_map (λ x. x.now) result ≡ slice_get self.now place }
    {
        match &self.link {
            Link::Leaf => None,
            Link::Fork(fork) => {
                let before = fork.left.len();
                if place < before {
                    fork.left.get(place)
                } else if place == before {
                    fork.item.as_ref()
                } else {
                    fork.right.get(place - before - 1)
                }
            }
        }
    }

    /// Puts an item in place of the one at a place, and answers that one. Takes no memory.
    pub fn exchange(&mut self, place: usize, item: E) -> E
        requires { place < length self.old }
        ensures items { self.new ≡ slice_set self.old place item }
        ensures item { slice_get self.old place ≡ Some result }
    {
        match &mut self.link {
            Link::Leaf => item,
            Link::Fork(fork) => {
                let before = fork.left.len();
                if place < before {
                    fork.left.exchange(place, item)
                } else if place == before {
                    match fork.item.replace(item) {
                        None => unreachable!(),
                        Some(old) => old,
                    }
                } else {
                    fork.right.exchange(place - before - 1, item)
                }
            }
        }
    }
}

impl<E: Drop> Boxed<E> {
    // The topmost node, with what stands before and after it; none where there are no items.
    fn parts(self) -> Option<Parts<E>>
        ensures items { parted result ≡ self }
        ensures whole { AreWhole result }
        ensures most { length self ≤ MOST }
    {
        match self.link {
            Link::Leaf => None,
            Link::Fork(fork) => {
                let mut fork = fork;
                let left = mem::replace(&mut fork.left, Boxed::new());
                let right = mem::replace(&mut fork.right, Boxed::new());
                Some(Parts { left, fork, right })
            }
        }
    }

    // A tree of these parts.
    fn fork(left: Boxed<E>, fork: Box<Fork<E>>, right: Boxed<E>) -> Boxed<E>
        requires item { IsSome fork.value.item }
        requires room { length left + length right < MOST }
        requires sides { Balance (length left) (length right) }
        ensures { result ≡ left ++ (held fork.value.item ++ right) }
    {
        let mut fork = fork;
        fork.size = left.len() + right.len() + 1;
        fork.left = left;
        fork.right = right;
        Boxed {
            link: Link::Fork(fork),
        }
    }

    // A tree of these parts, of which the right one is too large: what stands first in it goes to the left.
    fn lean_left(left: Boxed<E>, fork: Box<Fork<E>>, right: Boxed<E>) -> Boxed<E>
        requires item { IsSome fork.value.item }
        requires room { length left + length right < MOST }
        requires large { 3 * length left + 2 < length right }
        requires near { length right ≤ 3 * length left + 5 }
        ensures { result ≡ left ++ (held fork.value.item ++ right) }
    {
        let Some(outer) = right.parts() else {
            unreachable!()
        };
        if outer.left.len() <= 2 * outer.right.len() {
            let low = Boxed::fork(left, fork, outer.left);
            return Boxed::fork(low, outer.fork, outer.right);
        }
        let Some(inner) = outer.left.parts() else {
            unreachable!()
        };
        let low = Boxed::fork(left, fork, inner.left);
        let high = Boxed::fork(inner.right, outer.fork, outer.right);
        Boxed::fork(low, inner.fork, high)
    }

    // A tree of these parts, of which the left one is too large: what stands last in it goes to the right.
    fn lean_right(left: Boxed<E>, fork: Box<Fork<E>>, right: Boxed<E>) -> Boxed<E>
        requires item { IsSome fork.value.item }
        requires room { length left + length right < MOST }
        requires large { 3 * length right + 2 < length left }
        requires near { length left ≤ 3 * length right + 5 }
        ensures { result ≡ left ++ (held fork.value.item ++ right) }
    {
        let Some(outer) = left.parts() else {
            unreachable!()
        };
        if outer.right.len() <= 2 * outer.left.len() {
            let high = Boxed::fork(outer.right, fork, right);
            return Boxed::fork(outer.left, outer.fork, high);
        }
        let Some(inner) = outer.right.parts() else {
            unreachable!()
        };
        let low = Boxed::fork(outer.left, outer.fork, inner.left);
        let high = Boxed::fork(inner.right, fork, right);
        Boxed::fork(low, inner.fork, high)
    }

    // A tree of these parts, of which one has got or lost an item. Where it leans, some items change sides.
    fn join(left: Boxed<E>, fork: Box<Fork<E>>, right: Boxed<E>) -> Boxed<E>
        requires item { IsSome fork.value.item }
        requires room { length left + length right < MOST }
        requires near { NearBalance (length left) (length right) }
        ensures { result ≡ left ++ (held fork.value.item ++ right) }
    {
        let (low, high) = (left.len(), right.len());
        if high > 3 * low + 2 {
            Boxed::lean_left(left, fork, right)
        } else if low > 3 * high + 2 {
            Boxed::lean_right(left, fork, right)
        } else {
            Boxed::fork(left, fork, right)
        }
    }

    // The tree of one node.
    fn single(node: Node<E>) -> Boxed<E>
        ensures { result ≡ node ∷ [] }
    {
        let (item, slot) = node.open();
        let mut fork = slot.fork;
        fork.item = Some(item);
        Boxed::fork(Boxed::new(), fork, Boxed::new())
    }

    #[tactic(auto, using(cat_collections::proofs::Sides::insert_after))]
    // The tree with a node put in at a place, before what stands there.
    fn inserted(self, place: usize, node: Node<E>) -> Boxed<E>
        requires within { place ≤ length self }
        requires room { length self < MOST }
        ensures { result ≡ insert self place node }
    {
        let Some(parts) = self.parts() else {
            return Boxed::single(node);
        };
        let before = parts.left.len();
        if place <= before {
            let left = parts.left.inserted(place, node);
            Boxed::join(left, parts.fork, parts.right)
        } else {
            let right = parts.right.inserted(place - before - 1, node);
            Boxed::join(parts.left, parts.fork, right)
        }
    }

    // The first node, with its item in it, and the tree without it; none where there are no items.
    fn without_first(self) -> Option<(Box<Fork<E>>, Boxed<E>)>
        ensures items { first_of result ≡ self }
        ensures whole { IsFirstWhole result }
    {
        let parts = self.parts()?;
        match parts.left.without_first() {
            None => Some((parts.fork, parts.right)),
            Some((first, left)) => {
                let rest = Boxed::join(left, parts.fork, parts.right);
                Some((first, rest))
            }
        }
    }

    // A node with its item taken out of its memory.
    fn taken_out(fork: Box<Fork<E>>) -> Node<E>
        requires { IsSome fork.value.item }
        ensures { fork.value.item ≡ Some result }
    {
        let mut fork = fork;
        match fork.item.take() {
            None => unreachable!(),
            Some(item) => Node {
                item,
                slot: Slot { fork },
            },
        }
    }

    // The tree of what stands before and after an item that goes.
    fn closed(left: Boxed<E>, right: Boxed<E>) -> Boxed<E>
        requires room { length left + length right < MOST }
        requires sides { Balance (length left) (length right) }
        ensures { result ≡ left ++ right }
    {
        match right.without_first() {
            None => left,
            Some((first, right)) => Boxed::join(left, first, right),
        }
    }

    #[tactic(auto, using(cat_collections::proofs::Sides::remove_before, cat_collections::proofs::Sides::remove_here, cat_collections::proofs::Sides::remove_after))]
    // The node at a place, and the tree without it.
    fn removed(self, place: usize) -> (Node<E>, Boxed<E>)
        requires { place < length self }
        ensures item { slice_get self place ≡ Some result.0 }
        ensures rest { result.1 ≡ remove self place }
    {
        let Some(parts) = self.parts() else {
            unreachable!()
        };
        let before = parts.left.len();
        if place < before {
            let (node, left) = parts.left.removed(place);
            (node, Boxed::join(left, parts.fork, parts.right))
        } else if place == before {
            let node = Boxed::taken_out(parts.fork);
            (node, Boxed::closed(parts.left, parts.right))
        } else {
            let (node, right) = parts.right.removed(place - before - 1);
            (node, Boxed::join(parts.left, parts.fork, right))
        }
    }

    /// Puts a node in at a place, before what stands there. Takes no memory.
    pub fn insert(&mut self, place: usize, node: Node<E>)
        requires within { place ≤ length self.old }
        requires room { length self.old < MOST }
        ensures { self.new ≡ insert self.old place node }
    {
        let tree = mem::replace(self, Boxed::new());
        *self = tree.inserted(place, node);
    }

    /// Takes the node at a place out. Takes no memory.
    pub fn remove(&mut self, place: usize) -> Node<E>
        requires { place < length self.old }
        ensures node { slice_get self.old place ≡ Some result }
        ensures rest { self.new ≡ remove self.old place }
    {
        let tree = mem::replace(self, Boxed::new());
        let (node, rest) = tree.removed(place);
        *self = rest;
        node
    }

    /// A tree of items, whose order it keeps. Where memory is wanted, the items are dropped.
    pub fn from_vec(alloc: Global, items: Vec<E>) -> Result<Boxed<E>, AllocError>
        requires { length items.items ≤ MOST }
        ensures { IfOk result (λ t. t ≡ items.items) }
    {
        let mut items = items;
        let count = items.len();
        Boxed::from_last(alloc, &mut items, count)
    }

    // A tree of the last items, as many as asked for, which leave the vector.
    fn from_last(alloc: Global, items: &mut Vec<E>, count: usize) -> Result<Boxed<E>, AllocError>
        requires within { count ≤ length items.old.items }
        requires room { count ≤ MOST }
        ensures items { IfOk result (λ t. items.old.items ≡ items.new.items ++ t) }
        ensures count { OnOk result (length items.new.items + count ≡ length items.old.items) }
    {
        if count == 0 {
            return Ok(Boxed::new());
        }
        let after = count / 2;
        let right = Boxed::from_last(alloc, items, after)?;
        match items.pop() {
            None => Ok(right),
            Some(item) => {
                let mut slot = Slot::new(alloc)?;
                slot.fork.item = Some(item);
                let left = Boxed::from_last(alloc, items, count - after - 1)?;
                Ok(Boxed::fork(left, slot.fork, right))
            }
        }
    }
}

impl<K: Key, X> Boxed<(K, X)> {
    /// The place of a key; where it is absent, the place where it would be.
    pub fn search<S: Seek<K>>(&self, key: &S) -> Result<usize, usize>
        requires { IsTrue (is_sorted K.order self.now) }
        ensures { MatchResult result (IsAt K.order (S.sought key.now) self.now) (IsBetween K.order (S.sought key.now) self.now) }
    {
        match &self.link {
            Link::Leaf => Err(0),
            Link::Fork(fork) => {
                let fork: &Fork<(K, X)> = fork;
                let Some(entry) = &fork.item else {
                    unreachable!()
                };
                match key.compare_with(&entry.0) {
                    Ordering::Less => fork.left.search(key),
                    Ordering::Equal => Ok(fork.left.len()),
                    Ordering::Greater => {
                        let before = fork.left.len() + 1;
                        match fork.right.search(key) {
                            Ok(place) => Ok(before + place),
                            Err(place) => Err(before + place),
                        }
                    }
                }
            }
        }
    }

    /// Lends the value at a key; none where the key is absent.
    pub fn find<S: Seek<K>>(&self, key: &S) -> Option<&X>
        requires { IsTrue (is_sorted K.order self.now) }
        ensures { option_map (λ x. x.now) result ≡ find K.order (S.sought key.now) self.now }
    {
        match &self.link {
            Link::Leaf => None,
            Link::Fork(fork) => {
                let fork: &Fork<(K, X)> = fork;
                let Some(entry) = &fork.item else {
                    unreachable!()
                };
                match key.compare_with(&entry.0) {
                    Ordering::Less => fork.left.find(key),
                    Ordering::Equal => Some(&entry.1),
                    Ordering::Greater => fork.right.find(key),
                }
            }
        }
    }
}

// Puts a value in place of the one beside the key, and answers that one.
fn revalue<K, X>(item: &mut Option<(K, X)>, value: X) -> X
    requires { IsSome item.old }
    ensures { (entry : K × X) → item.old ≡ Some entry → (result ≡ entry.1) × (item.new ≡ Some (entry.0, value)) }
{
    match item {
        None => unreachable!(),
        Some(entry) => mem::replace(&mut entry.1, value),
    }
}

impl<K: Key, X: Drop> Boxed<(K, X)> {
    /// Puts the value in place of the one at its key, and answers that one; none where the key is absent. Takes no memory.
    pub fn replace<S: Seek<K>>(&mut self, key: &S, value: X) -> Option<X>
        requires { IsTrue (is_sorted K.order self.old) }
        ensures value { result ≡ find K.order (S.sought key.now) self.old }
        ensures entries { self.new ≡ (if is_some (find K.order (S.sought key.now) self.old) then put K.order (S.sought key.now) value self.old else self.old) }
        ensures count { length self.new ≡ length self.old }
    {
        match &mut self.link {
            Link::Leaf => None,
            Link::Fork(fork) => {
                let Some(entry) = &fork.item else {
                    unreachable!()
                };
                let order = key.compare_with(&entry.0);
                match order {
                    Ordering::Less => fork.left.replace(key, value),
                    Ordering::Equal => Some(revalue(&mut fork.item, value)),
                    Ordering::Greater => fork.right.replace(key, value),
                }
            }
        }
    }
}

/// The items of a tree from a place on, in order.
#[derive(Drop)]
pub struct BoxedItems<'a, E> {
    tree: &'a Boxed<E>,
    place: usize,
}

impl<E> Boxed<E> {
    /// The items from a place on, in order.
    pub fn from(&self, place: usize) -> BoxedItems<'_, E>
        ensures { boxed_left result ≡ drop place self.now }
    {
        BoxedItems { tree: self, place }
    }
}

impl<'a, E> Iterator for BoxedItems<'a, E> {
    type Item = &'a E;

    ghost next_gives = { YieldsFirstRef boxed_left };

    ghost remaining = { item_count boxed_left };

    #[tactic(auto, using(cat_collections::proofs::Sides::drop_get))]
    fn next(&mut self) -> Option<&'a E> {
        if self.place >= self.tree.len() {
            return None;
        }
        match self.tree.get(self.place) {
            None => None,
            Some(item) => {
                self.place += 1;
                Some(item)
            }
        }
    }
}
