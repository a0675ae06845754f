//! Looking for a row in a tree, without memory.
ghost use Rattle.std.specs.Prelude.{◌≡◌, ◌&&◌, map};
ghost use Rattle.std.specs.Fmt.{signed_decimal};
ghost use Rattle.std.specs.Option.{option_copied};
ghost use Rattle.cat_tree.specs.Data.{items_of, members_of};
ghost use Rattle.cat_tree.specs.View.{data_of, entry_of};
ghost use Rattle.cat_state_parts.specs.Rows.{value_fits, is_empty};
ghost use Rattle.cat_search.specs.Walk.{is_tag, is_found};

use crate::folded::{is_point_and, left_of_step, same_text};
use cat_tree::tree::Tree;

/// Whether the value is the wanted one in lower case, where one is wanted.
pub fn value_fits(wanted: Option<&str>, value: &str) -> bool
    ensures { result ≡ value_fits (option_copied wanted.entry) value.now }
{
    match wanted {
        Some(wanted) => same_text(wanted.as_bytes(), value.as_bytes()),
        None => true,
    }
}

fn whole_fits(wanted: Option<&str>, number: i128) -> bool
    ensures { result ≡ value_fits (option_copied wanted.entry) (signed_decimal number) }
{
    let mut buffer = itoa::Buffer::new();
    value_fits(wanted, buffer.format(number))
}

// Whether the tree is a text that is what is left of the key.
fn is_tag(key: &[u8], value: Option<&str>, tree: &Tree) -> bool
    ensures { result ≡ is_tag key.now (option_copied value.entry) (data_of tree.now) }
{
    match tree {
        Tree::Words(text) => {
            is_point_and(key, text.as_str().as_bytes()) && value_fits(value, "true")
        }
        _ => false,
    }
}

/// Whether the tree has a row at what is left of the key.
#[tactic(auto, using(cat_tree::proofs::Weights::falls))]
pub fn is_found(is_start: bool, key: &[u8], value: Option<&str>, tree: &Tree) -> bool
    ensures { result ≡ is_found is_start key.now (option_copied value.entry) (data_of tree.now) }
{
    match tree {
        Tree::Null => false,
        Tree::Flag(true) => key.is_empty() && value_fits(value, "true"),
        Tree::Flag(false) => key.is_empty() && value_fits(value, "false"),
        Tree::Whole(number) => key.is_empty() && whole_fits(value, *number),
        Tree::Words(text) => key.is_empty() && value_fits(value, text.as_str()),
        Tree::List(trees) => {
            for tree in trees.as_slice() {
                if is_found(is_start, key, value, tree) || is_tag(key, value, tree) {
                    return true;
                }
            }
            false
        }
        Tree::Map(pairs) => {
            for (name, tree) in pairs.as_slice() {
                let name = name.as_str().as_bytes();
                if let Some(left) = left_of_step(key, is_start, name) {
                    if is_found(is_start && name.is_empty(), left, value, tree) {
                        return true;
                    }
                }
            }
            false
        }
    }
}
