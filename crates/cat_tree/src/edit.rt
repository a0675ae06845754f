//! Trees with one entry of a map put in or taken out.
ghost use Rattle.std.specs.Prelude.{◌≡◌, IfOk};
ghost use Rattle.cat_tree.specs.Edit.{with_key, without_key};
ghost use Rattle.cat_tree.specs.View.{data_of};

use crate::text::Text;
use crate::tree::Tree;
use std::alloc::{AllocError, Global};

/// The map with the value at the key: a new entry stands in byte order of the keys, and an entry of
/// that key is replaced. Any other tree stays as it is, and the value is dropped. Where memory is
/// wanted, tree and value are dropped.
pub fn with_key(alloc: Global, tree: Tree, key: &str, value: Tree) -> Result<Tree, AllocError>
    ensures { IfOk result (λ t. data_of t ≡ with_key key.now (data_of value) (data_of tree)) }
{
    match tree {
        Tree::Map(mut pairs) => {
            let key = Text::of(alloc, key)?;
            pairs.insert(key, value)?;
            Ok(Tree::Map(pairs))
        }
        other => Ok(other),
    }
}

/// The map without the entry of the key, if it has one. Any other tree stays as it is.
pub fn without_key(tree: Tree, key: &str) -> Tree
    ensures { data_of result ≡ without_key key.now (data_of tree) }
{
    match tree {
        Tree::Map(mut pairs) => {
            pairs.remove(key);
            Tree::Map(pairs)
        }
        other => other,
    }
}
