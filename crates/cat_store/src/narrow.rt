//! Whether the numbers of a tree are integers of 64 bits. Nothing here takes memory.
ghost use Rattle.std.specs.Prelude.{◌≡◌, true};
ghost use Rattle.cat_tree.specs.Proper.{IsProper};
ghost use Rattle.cat_store.specs.Narrow as spec;
ghost use Rattle.cat_tree.specs.View.{data_of};

use cat_tree::tree::Tree;

// The least integer of 64 bits.
const LEAST: i128 = -(1 << 63);

// One past the greatest.
const PAST: i128 = 1 << 64;

fn is_short(number: i128) -> bool
    ensures { result ≡ spec.is_short number }
{
    LEAST <= number && number < PAST
}

/// Whether each number of the tree is an integer of 64 bits. Where all are, the keys of each of its maps were seen to rise.
#[tactic(auto, using(cat_tree::proofs::Weights::falls))]
pub(crate) fn is_narrow(tree: &Tree) -> bool
    ensures narrow { result ≡ spec.is_narrow (data_of tree.now) }
    ensures proper { result ≡ true → IsProper (data_of tree.now) }
{
    match tree {
        Tree::Null | Tree::Flag(_) | Tree::Words(_) => true,
        Tree::Whole(number) => is_short(*number),
        Tree::List(trees) => {
            for tree in trees.as_slice() {
                if !is_narrow(tree) {
                    return false;
                }
            }
            true
        }
        Tree::Map(pairs) => {
            for (_, tree) in pairs.as_slice() {
                if !is_narrow(tree) {
                    return false;
                }
            }
            true
        }
    }
}
