//! Lists kept as balanced trees, whose copies share their parts.
ghost use Rattle.std.specs.Prelude.{◌≡◌, ◌+◌, ◌*◌, ◌^◌, ◌<◌, ◌≤◌, ◌∷◌, ◌++◌, [], length, drop, if◌then◌else◌, is_ok, IfOk, IfSome, IsTrue, MatchResult, OnOk, option_map, slice_get, slice_set};
ghost use Rattle.std.specs.FinMap.Entries.{is_sorted};
ghost use Rattle.cat_collections.specs.Rows.{IsAt, IsBetween};
ghost use Rattle.cat_collections.specs.Table.{find};
ghost use Rattle.std.specs.List.{fold, insert, remove};
ghost use Rattle.std.specs.Arc.{arc_value};
ghost use Rattle.std.specs.Iterator.{YieldsFirstRef, item_count};
ghost use Rattle.cat_collections.specs.Parts.{IsBalanced, first_of, parted};
ghost use Rattle.cat_collections.specs.Left.{items_left, step_left};
ghost use Rattle.cat_collections.specs.Tree.{Balance, NearBalance};

use cat_key::key::{Key, Seek};
use std::alloc::{AllocError, Global};
use std::cmp::Ordering;
use std::marker::Model;
use std::sync::Arc;

/// A tree has at most this many items.
pub const MOST: usize = 0x3fff_ffff_ffff_ffff;

/// Items in order. Contracts see the list of them. A copy shares all items with what it was made of.
#[cycle(tree)]
#[derive(Drop)]
pub struct Tree<A> {
    node: Node<A>,
}

#[cycle(tree)]
#[derive(Drop)]
enum Node<A> {
    Leaf,
    Fork(Arc<Fork<A>, Global>),
}

#[cycle(tree)]
#[derive(Drop)]
struct Fork<A> {
    left: Tree<A>,
    item: Arc<A, Global>,
    right: Tree<A>,
    size: usize,
}

// What a tree that is not empty is made of.
#[derive(Drop)]
struct Parts<A> {
    left: Tree<A>,
    item: Arc<A, Global>,
    right: Tree<A>,
}

impl<A> Model for Tree<A> {
    ghost use Rattle.std.specs.Prelude.{List, length};

    ghost Value = { List A };

    ghost use Rattle.cat_collections.specs.Tree.{items, IsSized};

    ghost view = { λ a. items a.node };

    ghost invariant = { λ a. IsSized a.node };

    ghost size = { length };

    ghost use Rattle.cat_collections.specs.TreeFalls.{depth_le-length};

    ghost size_decreases = { λ a h. depth_le-length A a.node };
}

impl<A> Tree<A> {
    /// No items. Takes no memory.
    pub fn new() -> Tree<A>
        ensures { result ≡ [] }
    {
        Tree { node: Node::Leaf }
    }

    /// How many items there are.
    pub fn len(&self) -> usize
        ensures items { result ≡ length self.now }
        ensures most { result ≤ MOST }
    {
        match &self.node {
            Node::Leaf => 0,
            Node::Fork(fork) => fork.size,
        }
    }

    /// Lends the item at a place as the tree keeps it, to share it with others.
    pub fn get_shared(&self, place: usize) -> Option<&Arc<A, Global>>
        ensures { option_map (λ x. arc_value x.now) result ≡ slice_get self.now place }
    {
        match &self.node {
            Node::Leaf => None,
            Node::Fork(fork) => {
                let before = fork.left.len();
                if place < before {
                    fork.left.get_shared(place)
                } else if place == before {
                    Some(&fork.item)
                } else {
                    fork.right.get_shared(place - before - 1)
                }
            }
        }
    }

    /// Lends the item at a place.
    pub fn get(&self, place: usize) -> Option<&A>
        ensures { option_map (λ x. x.now) result ≡ slice_get self.now place }
    {
        match &self.node {
            Node::Leaf => None,
            Node::Fork(fork) => {
                let before = fork.left.len();
                if place < before {
                    fork.left.get(place)
                } else if place == before {
                    Some(&*fork.item)
                } else {
                    fork.right.get(place - before - 1)
                }
            }
        }
    }
}

/// What goes over items in order.
pub trait Visit<A> {
    /// What it is after an item.
    ghost after: { Self → A → Self };

    /// Takes an item.
    fn visit(&mut self, item: &A) -> Result<(), AllocError>
        ensures { OnOk result (self.new ≡ after self.old item.now) };
}

impl<A> Tree<A> {
    /// Shows each item to a visitor, in order, until it answers that memory is wanted.
    pub fn visit<V: Visit<A>>(&self, visitor: &mut V) -> Result<(), AllocError>
        ensures { OnOk result (visitor.new ≡ fold V.after visitor.old self.now) }
    {
        match &self.node {
            Node::Leaf => Ok(()),
            Node::Fork(fork) => {
                fork.left.visit(visitor)?;
                visitor.visit(&fork.item)?;
                fork.right.visit(visitor)
            }
        }
    }
}

impl<K: Key, X> Tree<(K, X)> {
    /// The place of a key; where it is absent, the place where it would be.
    pub fn search<S: Seek<K>>(&self, key: &S) -> Result<usize, usize>
        requires { IsTrue (is_sorted K.order self.now) }
        ensures { MatchResult result (IsAt K.order (S.sought key.now) self.now) (IsBetween K.order (S.sought key.now) self.now) }
    {
        match &self.node {
            Node::Leaf => Err(0),
            Node::Fork(fork) => {
                let fork: &Fork<(K, X)> = fork;
                let entry: &(K, X) = &fork.item;
                match key.compare_with(&entry.0) {
                    Ordering::Less => fork.left.search(key),
                    Ordering::Equal => Ok(fork.left.len()),
                    Ordering::Greater => {
                        let before = fork.left.len() + 1;
                        match fork.right.search(key) {
                            Ok(place) => Ok(before + place),
                            Err(place) => Err(before + place),
                        }
                    }
                }
            }
        }
    }

    /// Lends the value at a key; none where the key is absent.
    pub fn find<S: Seek<K>>(&self, key: &S) -> Option<&X>
        requires { IsTrue (is_sorted K.order self.now) }
        ensures { option_map (λ x. x.now) result ≡ find K.order (S.sought key.now) self.now }
    {
        match &self.node {
            Node::Leaf => None,
            Node::Fork(fork) => {
                let fork: &Fork<(K, X)> = fork;
                let entry: &(K, X) = &fork.item;
                match key.compare_with(&entry.0) {
                    Ordering::Less => fork.left.find(key),
                    Ordering::Equal => Some(&entry.1),
                    Ordering::Greater => fork.right.find(key),
                }
            }
        }
    }
}

impl<A> Tree<A> {
    /// How many items lie one below the other at most: no more than the logarithm of their number and one, to the base 4/3.
    pub fn height(&self) -> usize
        ensures low { 4 ^ result ≤ 3 ^ result * (length self.now + 1) }
        ensures items { result ≤ length self.now }
    {
        match &self.node {
            Node::Leaf => 0,
            Node::Fork(fork) => {
                let fork: &Fork<A> = fork;
                let (low, high) = (fork.left.height(), fork.right.height());
                if low > high { low + 1 } else { high + 1 }
            }
        }
    }
}

impl<A: Drop> Fork<A> {
    // The parts of a fork that others keep too.
    fn shared_parts(&self) -> Result<Parts<A>, AllocError>
        ensures left { IfOk result (λ parts. parts.left ≡ self.now.left) }
        ensures item { IfOk result (λ parts. arc_value parts.item ≡ arc_value self.now.item) }
        ensures right { IfOk result (λ parts. parts.right ≡ self.now.right) }
    {
        Ok(Parts {
            left: self.left.share()?,
            item: Arc::try_clone(&self.item)?,
            right: self.right.share()?,
        })
    }
}

impl<A: Drop> Tree<A> {
    /// A copy, which shares all items. Takes no memory.
    pub fn share(&self) -> Result<Tree<A>, AllocError>
        ensures { IfOk result (λ t. t ≡ self.now) }
    {
        match &self.node {
            Node::Leaf => Ok(Tree::new()),
            Node::Fork(fork) => Ok(Tree {
                node: Node::Fork(Arc::try_clone(fork)?),
            }),
        }
    }

    // The topmost item with what stands before and after it; none where there are no items.
    fn parts(self) -> Result<Option<Parts<A>>, AllocError>
        ensures items { IfOk result (λ parts. parted parts ≡ self) }
        ensures balanced { IfOk result IsBalanced }
    {
        match self.node {
            Node::Leaf => Ok(None),
            Node::Fork(fork) => match Arc::try_unwrap(fork) {
                Ok(fork) => Ok(Some(Parts {
                    left: fork.left,
                    item: fork.item,
                    right: fork.right,
                })),
                Err(fork) => {
                    let fork: &Fork<A> = &fork;
                    Ok(Some(fork.shared_parts()?))
                }
            },
        }
    }

    // A tree of these parts, whatever their sizes.
    fn fork(
        alloc: Global,
        left: Tree<A>,
        item: Arc<A, Global>,
        right: Tree<A>,
    ) -> Result<Tree<A>, AllocError>
        requires room { length left + length right < MOST }
        requires sides { Balance (length left) (length right) }
        ensures { IfOk result (λ t. t ≡ left ++ arc_value item ∷ right) }
    {
        let size = left.len() + right.len() + 1;
        Ok(Tree {
            node: Node::Fork(Arc::new(
                alloc,
                Fork {
                    left,
                    item,
                    right,
                    size,
                },
            )?),
        })
    }

    // A tree of these parts, whose first two trees go below the second item.
    fn fork_low(
        alloc: Global,
        left: Tree<A>,
        item: Arc<A, Global>,
        rest: Parts<A>,
    ) -> Result<Tree<A>, AllocError>
        requires room { length left + length rest.left + length rest.right + 1 < MOST }
        requires low { Balance (length left) (length rest.left) }
        requires sides { Balance (length left + length rest.left + 1) (length rest.right) }
        ensures { IfOk result (λ t. t ≡ left ++ arc_value item ∷ (rest.left ++ arc_value rest.item ∷ rest.right)) }
    {
        let low = Tree::fork(alloc, left, item, rest.left)?;
        Tree::fork(alloc, low, rest.item, rest.right)
    }

    // A tree of these parts, whose last two trees go below the first item.
    fn fork_high(
        alloc: Global,
        rest: Parts<A>,
        item: Arc<A, Global>,
        right: Tree<A>,
    ) -> Result<Tree<A>, AllocError>
        requires room { length rest.left + length rest.right + length right + 1 < MOST }
        requires high { Balance (length rest.right) (length right) }
        requires sides { Balance (length rest.left) (length rest.right + length right + 1) }
        ensures { IfOk result (λ t. t ≡ rest.left ++ arc_value rest.item ∷ (rest.right ++ arc_value item ∷ right)) }
    {
        let high = Tree::fork(alloc, rest.right, item, right)?;
        Tree::fork(alloc, rest.left, rest.item, high)
    }

    // A tree of these parts, whose middle item goes above all.
    fn fork_both(
        alloc: Global,
        left: Tree<A>,
        before: Arc<A, Global>,
        middle: Parts<A>,
        after: Arc<A, Global>,
        right: Tree<A>,
    ) -> Result<Tree<A>, AllocError>
        requires room { length left + length middle.left + length middle.right + length right + 2 < MOST }
        requires low { Balance (length left) (length middle.left) }
        requires high { Balance (length middle.right) (length right) }
        requires sides { Balance (length left + length middle.left + 1) (length middle.right + length right + 1) }
        ensures { IfOk result (λ t. t ≡ left ++ arc_value before ∷ (middle.left ++ arc_value middle.item ∷ (middle.right ++ arc_value after ∷ right))) }
    {
        let low = Tree::fork(alloc, left, before, middle.left)?;
        let high = Tree::fork(alloc, middle.right, after, right)?;
        Tree::fork(alloc, low, middle.item, high)
    }

    // A tree of these parts, of which the right one is too large: what stands first in it goes to the left.
    fn lean_left(
        alloc: Global,
        left: Tree<A>,
        item: Arc<A, Global>,
        right: Tree<A>,
    ) -> Result<Tree<A>, AllocError>
        requires room { length left + length right < MOST }
        requires large { 3 * length left + 2 < length right }
        requires near { length right ≤ 3 * length left + 5 }
        ensures { IfOk result (λ t. t ≡ left ++ arc_value item ∷ right) }
    {
        let Some(outer) = right.parts()? else {
            unreachable!()
        };
        if outer.left.len() <= 2 * outer.right.len() {
            return Tree::fork_low(alloc, left, item, outer);
        }
        let Some(inner) = outer.left.parts()? else {
            unreachable!()
        };
        Tree::fork_both(alloc, left, item, inner, outer.item, outer.right)
    }

    // A tree of these parts, of which the left one is too large: what stands last in it goes to the right.
    fn lean_right(
        alloc: Global,
        left: Tree<A>,
        item: Arc<A, Global>,
        right: Tree<A>,
    ) -> Result<Tree<A>, AllocError>
        requires room { length left + length right < MOST }
        requires large { 3 * length right + 2 < length left }
        requires near { length left ≤ 3 * length right + 5 }
        ensures { IfOk result (λ t. t ≡ left ++ arc_value item ∷ right) }
    {
        let Some(outer) = left.parts()? else {
            unreachable!()
        };
        if outer.right.len() <= 2 * outer.left.len() {
            return Tree::fork_high(alloc, outer, item, right);
        }
        let Some(inner) = outer.right.parts()? else {
            unreachable!()
        };
        Tree::fork_both(alloc, outer.left, outer.item, inner, item, right)
    }

    // A tree of these parts, of which one has got or lost an item. Where it leans, some items change sides.
    fn join(
        alloc: Global,
        left: Tree<A>,
        item: Arc<A, Global>,
        right: Tree<A>,
    ) -> Result<Tree<A>, AllocError>
        requires room { length left + length right < MOST }
        requires near { NearBalance (length left) (length right) }
        ensures { IfOk result (λ t. t ≡ left ++ arc_value item ∷ right) }
    {
        let (low, high) = (left.len(), right.len());
        if high > 3 * low + 2 {
            Tree::lean_left(alloc, left, item, right)
        } else if low > 3 * high + 2 {
            Tree::lean_right(alloc, left, item, right)
        } else {
            Tree::fork(alloc, left, item, right)
        }
    }

    // The tree of a fork with another left side, which may have an item more or less than the one that is there.
    fn with_left(alloc: Global, left: Tree<A>, fork: &Fork<A>) -> Result<Tree<A>, AllocError>
        requires room { length left + length fork.now.right < MOST }
        requires near { NearBalance (length left) (length fork.now.right) }
        ensures { IfOk result (λ t. t ≡ left ++ arc_value fork.now.item ∷ fork.now.right) }
    {
        let right = fork.right.share()?;
        Tree::join(alloc, left, Arc::try_clone(&fork.item)?, right)
    }

    // The tree of a fork with another right side, which may have an item more or less than the one that is there.
    fn with_right(alloc: Global, fork: &Fork<A>, right: Tree<A>) -> Result<Tree<A>, AllocError>
        requires room { length fork.now.left + length right < MOST }
        requires near { NearBalance (length fork.now.left) (length right) }
        ensures { IfOk result (λ t. t ≡ fork.now.left ++ arc_value fork.now.item ∷ right) }
    {
        let left = fork.left.share()?;
        Tree::join(alloc, left, Arc::try_clone(&fork.item)?, right)
    }

    #[tactic(auto, using(crate::proofs::Sides::insert_after))]
    /// The tree with the item put in at a place, before what stands there.
    pub fn with_inserted(
        &self,
        alloc: Global,
        place: usize,
        item: Arc<A, Global>,
    ) -> Result<Tree<A>, AllocError>
        requires within { place ≤ length self.now }
        requires room { length self.now < MOST }
        ensures { IfOk result (λ t. t ≡ insert self.now place (arc_value item)) }
    {
        match &self.node {
            Node::Leaf => Tree::fork(alloc, Tree::new(), item, Tree::new()),
            Node::Fork(fork) => {
                let before = fork.left.len();
                if place <= before {
                    let left = fork.left.with_inserted(alloc, place, item)?;
                    Tree::with_left(alloc, left, fork)
                } else {
                    let right = fork.right.with_inserted(alloc, place - before - 1, item)?;
                    Tree::with_right(alloc, fork, right)
                }
            }
        }
    }

    #[tactic(auto, using(crate::proofs::Sides::set_before, crate::proofs::Sides::set_here, crate::proofs::Sides::set_after))]
    /// The tree with another item at a place.
    pub fn with_replaced(
        &self,
        alloc: Global,
        place: usize,
        item: Arc<A, Global>,
    ) -> Result<Tree<A>, AllocError>
        requires within { place < length self.now }
        ensures { IfOk result (λ t. t ≡ slice_set self.now place (arc_value item)) }
    {
        match &self.node {
            Node::Leaf => Ok(Tree::new()),
            Node::Fork(fork) => {
                let before = fork.left.len();
                if place < before {
                    let left = fork.left.with_replaced(alloc, place, item)?;
                    Tree::with_left(alloc, left, fork)
                } else if place == before {
                    Tree::fork(alloc, fork.left.share()?, item, fork.right.share()?)
                } else {
                    let right = fork.right.with_replaced(alloc, place - before - 1, item)?;
                    Tree::with_right(alloc, fork, right)
                }
            }
        }
    }

    /// Puts an item in at a place, before what stands there. Where memory is wanted, the tree is as before. Copies of the tree
    /// stay as they are.
    pub fn insert(
        &mut self,
        alloc: Global,
        place: usize,
        item: Arc<A, Global>,
    ) -> Result<(), AllocError>
        requires within { place ≤ length self.old }
        requires room { length self.old < MOST }
        ensures { self.new ≡ (if is_ok result then insert self.old place (arc_value item) else self.old) }
    {
        match &mut self.node {
            Node::Leaf => {
                *self = Tree::fork(alloc, Tree::new(), item, Tree::new())?;
                Ok(())
            }
            Node::Fork(fork) => match Arc::get_mut(fork) {
                None => {
                    *self = self.with_inserted(alloc, place, item)?;
                    Ok(())
                }
                Some(fork) => {
                    let (low, high) = (fork.left.len(), fork.right.len());
                    if place <= low {
                        if low > 3 * high + 1 {
                            *self = self.with_inserted(alloc, place, item)?;
                            return Ok(());
                        }
                        fork.left.insert(alloc, place, item)?;
                    } else {
                        if high > 3 * low + 1 {
                            *self = self.with_inserted(alloc, place, item)?;
                            return Ok(());
                        }
                        fork.right.insert(alloc, place - low - 1, item)?;
                    }
                    fork.size += 1;
                    Ok(())
                }
            },
        }
    }

    /// The first item, and the tree without it; none where there are no items.
    pub fn without_first(
        &self,
        alloc: Global,
    ) -> Result<Option<(Arc<A, Global>, Tree<A>)>, AllocError>
        ensures { IfOk result (λ first. first_of first ≡ self.now) }
    {
        match &self.node {
            Node::Leaf => Ok(None),
            Node::Fork(fork) => match fork.left.without_first(alloc)? {
                None => Ok(Some((Arc::try_clone(&fork.item)?, fork.right.share()?))),
                Some((first, left)) => {
                    let rest = Tree::with_left(alloc, left, fork)?;
                    Ok(Some((first, rest)))
                }
            },
        }
    }

    #[tactic(auto, using(crate::proofs::Sides::remove_before, crate::proofs::Sides::remove_here, crate::proofs::Sides::remove_after))]
    /// The tree without the item at a place.
    pub fn with_removed(&self, alloc: Global, place: usize) -> Result<Tree<A>, AllocError>
        requires within { place < length self.now }
        ensures { IfOk result (λ t. t ≡ remove self.now place) }
    {
        match &self.node {
            Node::Leaf => Ok(Tree::new()),
            Node::Fork(fork) => {
                let before = fork.left.len();
                if place < before {
                    let left = fork.left.with_removed(alloc, place)?;
                    Tree::with_left(alloc, left, fork)
                } else if place == before {
                    match fork.right.without_first(alloc)? {
                        None => fork.left.share(),
                        Some((first, right)) => {
                            Tree::join(alloc, fork.left.share()?, first, right)
                        }
                    }
                } else {
                    let right = fork.right.with_removed(alloc, place - before - 1)?;
                    Tree::with_right(alloc, fork, right)
                }
            }
        }
    }

    /// Puts another item in place of the one at a place. Where memory is wanted, the tree is as before. Copies of the tree stay
    /// as they are.
    pub fn replace(
        &mut self,
        alloc: Global,
        place: usize,
        item: Arc<A, Global>,
    ) -> Result<(), AllocError>
        requires { place < length self.old }
        ensures { self.new ≡ (if is_ok result then slice_set self.old place (arc_value item) else self.old) }
    {
        match &mut self.node {
            Node::Leaf => Ok(()),
            Node::Fork(fork) => match Arc::get_mut(fork) {
                None => {
                    *self = self.with_replaced(alloc, place, item)?;
                    Ok(())
                }
                Some(fork) => {
                    let before = fork.left.len();
                    if place < before {
                        fork.left.replace(alloc, place, item)
                    } else if place == before {
                        fork.item = item;
                        Ok(())
                    } else {
                        fork.right.replace(alloc, place - before - 1, item)
                    }
                }
            },
        }
    }

    /// Removes the item at a place. Where memory is wanted, the tree is as before. Copies of the tree stay as they are.
    pub fn remove(&mut self, alloc: Global, place: usize) -> Result<(), AllocError>
        requires { place < length self.old }
        ensures { self.new ≡ (if is_ok result then remove self.old place else self.old) }
    {
        match &mut self.node {
            Node::Leaf => Ok(()),
            Node::Fork(fork) => match Arc::get_mut(fork) {
                None => {
                    *self = self.with_removed(alloc, place)?;
                    Ok(())
                }
                Some(fork) => {
                    let (low, high) = (fork.left.len(), fork.right.len());
                    if place == low {
                        *self = self.with_removed(alloc, place)?;
                        return Ok(());
                    }
                    if place < low {
                        if high + 1 > 3 * low {
                            *self = self.with_removed(alloc, place)?;
                            return Ok(());
                        }
                        fork.left.remove(alloc, place)?;
                    } else {
                        if low + 1 > 3 * high {
                            *self = self.with_removed(alloc, place)?;
                            return Ok(());
                        }
                        fork.right.remove(alloc, place - low - 1)?;
                    }
                    fork.size -= 1;
                    Ok(())
                }
            },
        }
    }

    /// A tree of items, whose order it keeps. Where memory is wanted, the items are dropped.
    pub fn from_vec(alloc: Global, items: Vec<A>) -> Result<Tree<A>, AllocError>
        requires { length items.items ≤ MOST }
        ensures { IfOk result (λ t. t ≡ items.items) }
    {
        let mut items = items;
        let count = items.len();
        Tree::from_last(alloc, &mut items, count)
    }

    // A tree of the last items, as many as asked for, which leave the vector.
    fn from_last(alloc: Global, items: &mut Vec<A>, count: usize) -> Result<Tree<A>, AllocError>
        requires within { count ≤ length items.old.items }
        requires room { count ≤ MOST }
        ensures items { IfOk result (λ t. items.old.items ≡ items.new.items ++ t) }
        ensures count { OnOk result (length items.new.items + count ≡ length items.old.items) }
    {
        if count == 0 {
            return Ok(Tree::new());
        }
        let after = count / 2;
        let right = Tree::from_last(alloc, items, after)?;
        match items.pop() {
            None => Ok(right),
            Some(item) => {
                let item = Arc::new(alloc, item)?;
                let left = Tree::from_last(alloc, items, count - after - 1)?;
                Tree::fork(alloc, left, item, right)
            }
        }
    }
}

// A part of a tree with at most this many items is small.
const SMALL: usize = 15;

/// The items of a tree from a place on, in order. A small part of the tree is at hand, so that most items are found below it
/// and not from the top.
#[derive(Drop)]
pub struct Items<'a, A> {
    // The part at hand, and the place in it of the next item.
    part: &'a Tree<A>,
    place: usize,
    // The tree, and the place in it of the first item behind the part.
    tree: &'a Tree<A>,
    behind: usize,
}

// An item, and what comes behind it: first the items of a part from a place on, then those of the tree from a place on.
#[derive(Drop)]
struct Step<'a, A> {
    item: &'a A,
    part: &'a Tree<A>,
    place: usize,
    behind: usize,
}

impl<A> Tree<A> {
    /// The items from a place on, in order.
    pub fn from(&self, place: usize) -> Items<'_, A>
        ensures { items_left result ≡ drop place self.now }
    {
        Items {
            part: self,
            place: self.len(),
            tree: self,
            behind: place,
        }
    }

    // The item at a place of a part that is small.
    fn small_step(&self, place: usize) -> Option<Step<'_, A>>
        ensures items { step_left self.now result ≡ drop place self.now }
        ensures behind { IfSome result (λ s. s.behind ≤ length self.now) }
    {
        let behind = self.len();
        match self.get(place) {
            None => None,
            Some(item) => Some(Step {
                item,
                part: self,
                place: place + 1,
                behind,
            }),
        }
    }

    // The item at a place, and what comes behind it.
    fn step(&self, place: usize) -> Option<Step<'_, A>>
        ensures items { step_left self.now result ≡ drop place self.now }
        ensures behind { IfSome result (λ s. s.behind ≤ length self.now) }
    {
        match &self.node {
            Node::Leaf => None,
            Node::Fork(fork) => {
                let fork: &Fork<A> = fork;
                if fork.size <= SMALL {
                    return self.small_step(place);
                }
                let before = fork.left.len();
                if place < before {
                    return fork.left.step(place);
                }
                if place == before {
                    return Some(Step {
                        item: &fork.item,
                        part: self,
                        place: fork.size,
                        behind: before + 1,
                    });
                }
                match fork.right.step(place - before - 1) {
                    None => None,
                    Some(step) => Some(Step {
                        item: step.item,
                        part: step.part,
                        place: step.place,
                        behind: before + 1 + step.behind,
                    }),
                }
            }
        }
    }
}

impl<'a, A> Items<'a, A> {
    // The next item, where the part at hand is spent.
    #[tactic(auto, using(crate::proofs::Steps::part_spent))]
    fn step(&mut self) -> Option<&'a A>
        requires { length self.old.part.now ≤ self.old.place }
        ensures { YieldsFirstRef items_left self.old result self.new }
    {
        match self.tree.step(self.behind) {
            None => None,
            Some(step) => {
                self.part = step.part;
                self.place = step.place;
                self.behind = step.behind;
                Some(step.item)
            }
        }
    }
}

impl<'a, A> Iterator for Items<'a, A> {
    type Item = &'a A;

    ghost next_gives = { YieldsFirstRef items_left };

    ghost remaining = { item_count items_left };

    #[tactic(auto, using(crate::proofs::Steps::part_left))]
    fn next(&mut self) -> Option<&'a A> {
        if self.place >= self.part.len() {
            return self.step();
        }
        match self.part.get(self.place) {
            None => None,
            Some(item) => {
                self.place += 1;
                Some(item)
            }
        }
    }
}
