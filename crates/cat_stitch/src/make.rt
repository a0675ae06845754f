//! Trees of texts and maps, made entry by entry.
ghost use Rattle.std.specs.Prelude.{◌≡◌, IfOk};
ghost use Rattle.cat_tree.specs.Data.{words, dict, no_members};
ghost use Rattle.cat_tree.specs.Edit.{with_key};
ghost use Rattle.cat_tree.specs.View.{data_of};

use cat_tree::edit::with_key;
use cat_tree::text::Text;
use cat_tree::tree::{Pairs, Tree};
use std::alloc::{AllocError, Global};

/// A map without entries. It takes no memory.
pub fn empty_map(alloc: Global) -> Tree
    ensures { data_of result ≡ dict no_members }
{
    Tree::Map(Pairs::new(alloc))
}

/// A text as a tree. The error is want of memory.
pub fn words(alloc: Global, text: &str) -> Result<Tree, AllocError>
    ensures { IfOk result (λ t. data_of t ≡ words text.now) }
{
    Ok(Tree::Words(Text::of(alloc, text)?))
}

/// The map with a text at the key; another tree stays as it is. The error is want of memory.
pub fn with_words(alloc: Global, tree: Tree, key: &str, text: &str) -> Result<Tree, AllocError>
    ensures { IfOk result (λ t. data_of t ≡ with_key key.now (words text.now) (data_of tree)) }
{
    let value = words(alloc, text)?;
    with_key(alloc, tree, key, value)
}
