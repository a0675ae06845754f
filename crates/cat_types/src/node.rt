//! A tree that contracts see as its data.
use cat_collections::listing::Copied;
use cat_tree::ask::same;
use cat_tree::tree::Tree;
use std::alloc::{AllocError, Global};
use std::marker::Model;
use std::sync::Arc;

/// A tree with all that is below it, as data. Copies share the tree, so a copy costs no more for a large one.
pub struct Node {
    tree: Arc<Tree, Global>,
}

// Written out, and not derived: so the crates above let go of a node by one call.
impl Drop for Node {
    fn drop(self) {
        let Node { tree: _ } = self;
    }
}

impl Model for Node {
    ghost use Rattle.cat_tree.specs.Data.{Data, data_code};
    ghost use Rattle.std.specs.Arc.{arc_value};

    ghost Value = { Data };

    ghost coded = { data_code };

    ghost use Rattle.cat_tree.specs.View.{data_of};

    ghost view = { λ a. data_of (arc_value a.tree) };
}

impl Node {
    ghost use Rattle.std.specs.Prelude.{◌≡◌, IfOk};
    ghost use Rattle.cat_tree.specs.Same.{is_same};
    ghost use Rattle.cat_tree.specs.View.{data_of};

    /// The node of a tree, which is moved to where it can be shared.
    pub fn new(alloc: Global, tree: Tree) -> Result<Node, AllocError>
        ensures { IfOk result (λ node. node ≡ data_of tree) }
    {
        Ok(Node {
            tree: Arc::new(alloc, tree)?,
        })
    }

    /// Lends the tree.
    pub fn tree(&self) -> &Tree
        ensures { data_of result.now ≡ self.now }
    {
        &*self.tree
    }

    /// Whether the trees are equal: the same values at the same keys and positions.
    pub fn same(&self, other: &Node) -> bool
        ensures { result ≡ is_same self.now other.now }
    {
        same(&self.tree, &other.tree)
    }
}

impl Copied for Node {
    fn duplicate(&self, _alloc: Global) -> Result<Node, AllocError> {
        Ok(Node {
            tree: Arc::try_clone(&self.tree)?,
        })
    }
}
