//! The type of trees. A tree is one level, whose lists and maps are seen with all that is below them.
ghost use Rattle.std.specs.Prelude.{◌≡◌, ◌↔◌, [], length, IsTrue, option_map, bytes_eq, is_ok, if◌then◌else◌, List as ListOf};
ghost use Rattle.std.specs.Ordering.{nat_cmp};
ghost use Rattle.std.specs.Cmp.Lexicographic.{slice_cmp};
ghost use Rattle.std.specs.FinMap.Entries.{put};
ghost use Rattle.std.specs.Map.{remove_entry};
ghost use Rattle.cat_tree.specs.Data.{null, list, dict};

use crate::text::Text;
use std::alloc::{AllocError, Global};
use std::cmp::Ordering;
use std::marker::Model;

/// A JSON value (RFC 8259) whose numbers are whole. The reader gives integers of 64 bits alone; a
/// tree that is built may hold any of 128 bits.
#[cycle(tree)]
#[derive(Drop)]
pub enum Tree {
    /// `null`.
    Null,
    /// `true` or `false`.
    Flag(bool),
    /// A whole number.
    Whole(i128),
    /// A string.
    Words(Text),
    /// An array.
    List(Trees),
    /// An object, its keys in byte order, each once.
    Map(Pairs),
}

/// Trees in order: the members of a list. Contracts see the list of their data.
#[cycle(tree)]
pub struct Trees {
    items: Vec<Tree>,
}

impl Drop for Trees {
    #[cycle(let_go)]
    fn drop(self) {
        let Trees { items: _ } = self;
    }
}

/// Keys with their trees, in byte order of the keys, each key once: the members of a map. Contracts
/// see the list of keys with data.
#[cycle(tree)]
pub struct Pairs {
    items: Vec<(Text, Tree)>,
}

impl Drop for Pairs {
    #[cycle(let_go)]
    fn drop(self) {
        let Pairs { items: _ } = self;
    }
}

impl Model for Trees {
    ghost use Rattle.std.specs.Prelude.{List, map};
    ghost use Rattle.std.specs.Coded.{coded_list};
    ghost use Rattle.cat_tree.specs.Data.{Data, data_code};

    ghost Value = { List Data };

    ghost coded = { coded_list data_code };

    ghost use Rattle.cat_tree.specs.View.{data_of, list_weight};

    ghost view = { λ a. map data_of a.items.items };

    ghost size = { list_weight };

    ghost use Rattle.cat_tree.specs.Falls.{most_trees-le};

    ghost size_decreases = { λ a h. most_trees-le a.items.items };
}

impl Model for Pairs {
    ghost use Rattle.std.specs.Prelude.{ℕ, List, map};
    ghost use Rattle.std.specs.Coded.{coded_list, coded×, coded_ℕ};
    ghost use Rattle.cat_tree.specs.Data.{Data, data_code, IsRising};

    ghost Value = { List (List ℕ × Data) };

    ghost coded = { coded_list (coded× (coded_list coded_ℕ) data_code) };

    ghost use Rattle.cat_tree.specs.View.{entry_of, map_weight};

    ghost view = { λ a. map entry_of a.items.items };

    ghost invariant = { λ a. IsRising (map entry_of a.items.items) };

    ghost size = { map_weight };

    ghost use Rattle.cat_tree.specs.Falls.{most_pairs-le};

    ghost size_decreases = { λ a h. most_pairs-le a.items.items };
}

impl Trees {
    ghost use Rattle.std.specs.Prelude.{map};
    ghost use Rattle.cat_tree.specs.View.{data_of};

    /// No trees. Takes no memory.
    pub fn new(alloc: Global) -> Trees
        ensures { result ≡ [] }
    {
        Trees {
            items: Vec::new(alloc),
        }
    }

    /// How many trees there are.
    pub fn len(&self) -> usize
        ensures { result ≡ length self.now }
    {
        self.items.len()
    }

    /// Whether there are no trees.
    pub fn is_empty(&self) -> bool
        ensures { IsTrue result ↔ (self.now ≡ []) }
    {
        self.items.is_empty()
    }

    /// The trees of a vector, whose memory they take over.
    pub fn from_vec(items: Vec<Tree>) -> Trees
        ensures { result ≡ map data_of items.items }
    {
        Trees { items }
    }

    /// The vector of the trees.
    pub fn into_vec(self) -> Vec<Tree>
        ensures { map data_of result.items ≡ self }
    {
        let Trees { items } = self;
        items
    }

    /// Lends the trees.
    pub fn as_slice(&self) -> &[Tree]
        ensures { map data_of result.now ≡ self.now }
    {
        self.items.as_slice()
    }
}

impl Pairs {
    ghost use Rattle.std.specs.Prelude.{map};
    ghost use Rattle.cat_tree.specs.Data.{IsRising, members_of};
    ghost use Rattle.cat_tree.specs.Ask.{member_at};
    ghost use Rattle.cat_tree.specs.View.{data_of, entry_of};

    /// No pairs. Takes no memory.
    pub fn new(alloc: Global) -> Pairs
        ensures { result ≡ [] }
    {
        Pairs {
            items: Vec::new(alloc),
        }
    }

    /// The pairs of a vector whose keys stand in byte order, each once.
    pub fn from_vec(items: Vec<(Text, Tree)>) -> Pairs
        requires { IsRising (map entry_of items.items) }
        ensures { result ≡ map entry_of items.items }
    {
        Pairs { items }
    }

    /// The vector of the pairs, still in byte order of the keys.
    pub fn into_vec(self) -> Vec<(Text, Tree)>
        ensures entries { map entry_of result.items ≡ self }
        ensures rising { IsRising self }
    {
        let Pairs { items } = self;
        items
    }

    /// Lends the tree at a key; none where the key is absent.
    pub fn get(&self, key: &str) -> Option<&Tree>
        ensures { option_map (λ t. data_of t.now) result ≡ member_at key.now (members_of self.now) }
    {
        for (name, tree) in &self.items {
            if name.as_str() == key {
                return Some(tree);
            }
        }
        None
    }

    /// Lends the pairs in byte order of the keys.
    pub fn as_slice(&self) -> &[(Text, Tree)]
        ensures entries { map entry_of result.now ≡ self.now }
        ensures rising { IsRising self.now }
    {
        self.items.as_slice()
    }

    /// How many pairs there are.
    pub fn len(&self) -> usize
        ensures { result ≡ length self.now }
    {
        self.items.len()
    }

    /// Whether there are no pairs.
    pub fn is_empty(&self) -> bool
        ensures { IsTrue result ↔ (self.now ≡ []) }
    {
        self.items.is_empty()
    }

    /// Puts the tree at its key's place, or in the place of the tree that stands there. Where memory
    /// is wanted, the pairs are as before.
    pub fn insert(&mut self, key: Text, tree: Tree) -> Result<(), AllocError>
        ensures { self.new ≡ (if is_ok result
            then put (slice_cmp nat_cmp) key (data_of tree) self.old
            else self.old) }
    {
        put_in(&mut self.items, key, tree)
    }

    /// Takes the entry of the key out, if there is one.
    pub fn remove(&mut self, key: &str)
        ensures { self.new ≡ remove_entry (bytes_eq key.now) self.old }
    {
        take_out(&mut self.items, key)
    }
}

// Puts the entry at its key's place, or in the place of the entry with its key.
fn put_in(items: &mut Vec<(Text, Tree)>, key: Text, tree: Tree) -> Result<(), AllocError>
    ensures { items.new.items ≡ (if is_ok result
        then put (slice_cmp nat_cmp) key tree items.old.items
        else items.old.items) }
{
    let mut place = 0;
    while place < items.len() {
        match key.as_str().cmp(items[place].0.as_str()) {
            Ordering::Greater => place += 1,
            Ordering::Equal => {
                items[place].1 = tree;
                return Ok(());
            }
            Ordering::Less => break,
        }
    }
    items.insert(place, (key, tree))?;
    Ok(())
}

// Takes the entry of the key out.
fn take_out(items: &mut Vec<(Text, Tree)>, key: &str)
    ensures { items.new.items ≡ remove_entry (bytes_eq key.now) items.old.items }
{
    let mut place = 0;
    while place < items.len() {
        if items[place].0.as_str() == key {
            items.remove(place);
            return;
        }
        place += 1;
    }
}
