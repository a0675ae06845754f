//! Looking into a tree. Nothing here takes memory.
ghost use Rattle.std.specs.Prelude.{◌≡◌, ◌↔◌, ◌^◌, min, map, option_map, option_and_then, IsTrue};
ghost use Rattle.cat_tree.specs.Ask.{child_of, depth_of};
ghost use Rattle.cat_tree.specs.Data.{items_of, members_of};
ghost use Rattle.cat_tree.specs.Same.{is_same, same_items, same_members};
ghost use Rattle.cat_tree.specs.View.{data_of, entry_of};

use crate::text::Text;
use crate::tree::Tree;

const MOST_DEPTH: u64 = 1 << 62;

/// Lends the tree at a key; none exactly where the tree isn't a map with that key.
pub fn child<'a>(tree: &'a Tree, key: &str) -> Option<&'a Tree>
    ensures { option_map (λ t. data_of t.now) result ≡ child_of key.now (data_of tree.now) }
{
    match tree {
        Tree::Map(pairs) => pairs.get(key),
        _ => None,
    }
}

/// Lends the tree at a key of the map at a key; none exactly where a step isn't a map with that key.
pub fn grandchild<'a>(tree: &'a Tree, first: &str, second: &str) -> Option<&'a Tree>
    ensures { option_map (λ t. data_of t.now) result
        ≡ option_and_then (child_of second.now) (child_of first.now (data_of tree.now)) }
{
    child(child(tree, first)?, second)
}

/// How deep lists and maps nest: 1 for an empty list or map, 1 more than the deepest member for
/// another one, 0 for all else; 2^62 where it is more.
#[tactic(auto, using(crate::proofs::Weights::falls))]
pub fn depth(tree: &Tree) -> u64
    ensures { result ≡ min (depth_of (data_of tree.now)) (2 ^ 62) }
{
    match tree {
        Tree::Null | Tree::Flag(_) | Tree::Whole(_) | Tree::Words(_) => 0,
        Tree::List(trees) => {
            let mut deepest: u64 = 0;
            for tree in trees.as_slice() {
                deepest = deepest.max(depth(tree));
            }
            (deepest + 1).min(MOST_DEPTH)
        }
        Tree::Map(pairs) => {
            let mut deepest: u64 = 0;
            for (_, tree) in pairs.as_slice() {
                deepest = deepest.max(depth(tree));
            }
            (deepest + 1).min(MOST_DEPTH)
        }
    }
}

/// Whether the trees are equal: the same values at the same keys and positions.
pub fn same(left: &Tree, right: &Tree) -> bool
    ensures exact { IsTrue result ↔ (data_of left.now ≡ data_of right.now) }
    ensures tested { result ≡ is_same (data_of left.now) (data_of right.now) }
{
    agree(left, right)
}

#[tactic(auto, using(crate::proofs::Weights::falls))]
#[cycle(agree)]
fn agree(left: &Tree, right: &Tree) -> bool
    ensures { result ≡ is_same (data_of left.now) (data_of right.now) }
{
    match (left, right) {
        (Tree::Null, Tree::Null) => true,
        (Tree::Flag(a), Tree::Flag(b)) => *a == *b,
        (Tree::Whole(a), Tree::Whole(b)) => *a == *b,
        (Tree::Words(a), Tree::Words(b)) => a.as_str() == b.as_str(),
        (Tree::List(a), Tree::List(b)) => lists_agree(a.as_slice(), b.as_slice()),
        (Tree::Map(a), Tree::Map(b)) => maps_agree(a.as_slice(), b.as_slice()),
        _ => false,
    }
}

#[tactic(auto, using(crate::proofs::Weights::falls))]
#[cycle(agree)]
fn lists_agree(left: &[Tree], right: &[Tree]) -> bool
    ensures { result ≡ same_items (items_of (map data_of left.now)) (items_of (map data_of right.now)) }
{
    let mut others = right.iter();
    for tree in left {
        match others.next() {
            Some(other) => {
                if !agree(tree, other) {
                    return false;
                }
            }
            None => return false,
        }
    }
    others.next().is_none()
}

#[tactic(auto, using(crate::proofs::Weights::falls))]
#[cycle(agree)]
fn maps_agree(left: &[(Text, Tree)], right: &[(Text, Tree)]) -> bool
    ensures { result
        ≡ same_members (members_of (map entry_of left.now)) (members_of (map entry_of right.now)) }
{
    let mut others = right.iter();
    for (key, tree) in left {
        match others.next() {
            Some((other_key, other)) => {
                if key.as_str() != other_key.as_str() || !agree(tree, other) {
                    return false;
                }
            }
            None => return false,
        }
    }
    others.next().is_none()
}
