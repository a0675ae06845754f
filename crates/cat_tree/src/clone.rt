//! Copies of a tree.
ghost use Rattle.std.specs.Prelude.{◌≡◌, IfOk, map};
ghost use Rattle.cat_tree.specs.View.{data_of, entry_of};

use crate::text::Text;
use crate::tree::{Pairs, Tree, Trees};
use std::alloc::{AllocError, Global};

/// An equal tree with memory of its own.
#[tactic(auto, using(crate::proofs::Weights::falls))]
pub fn copy(alloc: Global, tree: &Tree) -> Result<Tree, AllocError>
    ensures { IfOk result (λ t. data_of t ≡ data_of tree.now) }
{
    match tree {
        Tree::Null => Ok(Tree::Null),
        Tree::Flag(b) => Ok(Tree::Flag(*b)),
        Tree::Whole(z) => Ok(Tree::Whole(*z)),
        Tree::Words(text) => Ok(Tree::Words(Text::of(alloc, text.as_str())?)),
        Tree::List(trees) => {
            let mut items = Vec::with_capacity(alloc, trees.len())?;
            for tree in trees.as_slice() {
                items.push(copy(alloc, tree)?)?;
            }
            Ok(Tree::List(Trees::from_vec(items)))
        }
        Tree::Map(pairs) => {
            let mut items = Vec::with_capacity(alloc, pairs.as_slice().len())?;
            for (key, tree) in pairs.as_slice() {
                let key = Text::of(alloc, key.as_str())?;
                items.push((key, copy(alloc, tree)?))?;
            }
            Ok(Tree::Map(Pairs::from_vec(items)))
        }
    }
}
