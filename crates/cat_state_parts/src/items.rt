//! Items by reference, with the sum of the lengths of their texts.
ghost use Rattle.std.specs.Prelude.{◌≡◌, ◌+◌, ◌^◌, [], ◌<◌, IfOk, IsTrue, if◌then◌else◌, is_ok, length, option_map};
ghost use Rattle.std.specs.FinMap.Entries.{is_sorted};
ghost use Rattle.std.specs.List.{sum_by};
ghost use Rattle.cat_collections.specs.Left.{items_left};
ghost use Rattle.cat_collections.specs.Rows.{without};
ghost use Rattle.cat_collections.specs.Table.{get, keys, put, text_cmp};
ghost use Rattle.cat_tree.specs.Text.{text_of};
ghost use Rattle.cat_state_parts.specs.Bytes.{bytes_of, item_bytes};

use cat_collections::listing::{Copied, Listing};
use cat_collections::map::Map;
use cat_collections::tree::Items;
use cat_tree::room::size;
use cat_types::input::Offered;
use cat_types::node::Node;
use cat_types::reference::Ref;
use std::alloc::{AllocError, Global};
use std::marker::Model;

// So many bytes are never counted: they lack memory.
const MOST: u64 = 1 << 62;

/// Items by reference. Contracts see the list of references with what is offered, in order of the references, each once. A copy shares
/// the items with what it was made of, and takes no memory.
pub struct OfferedItems {
    items: Map<Ref, Offered>,
    bytes: u64,
}

// Written out, and not derived: so the crates above let go of items by one call.
impl Drop for OfferedItems {
    fn drop(self) {
        let OfferedItems { items: _, bytes: _ } = self;
    }
}

impl Model for OfferedItems {
    ghost use Rattle.std.specs.Prelude.{List};
    ghost use Rattle.cat_types.specs.declared.input.Offered.{Offered};
    ghost use Rattle.cat_collections.specs.Table.{Text};
    ghost use Rattle.cat_state_parts.specs.Bytes.{AreCounted};
    ghost use Rattle.cat_types.specs.contracts.input.Offered.{the_row};
    ghost use Rattle.std.specs.Coded.{coded_list, coded×, coded_ℕ};

    ghost Value = { List (Text × Offered) };

    ghost coded = { coded_list (coded× (coded_list coded_ℕ) the_row.coded) };

    ghost view = { λ a. a.items };

    ghost invariant = { λ a. AreCounted a.items a.bytes };
}

// The length of a tree's text, where it is less than 2^62.
fn counted(tree: &Node) -> Result<u64, AllocError>
    ensures length { IfOk result (λ n. n ≡ length (text_of tree.now)) }
    ensures small { IfOk result (λ n. n < 2 ^ 62) }
{
    let bytes = size(tree.tree());
    if bytes < MOST {
        Ok(bytes)
    } else {
        Err(AllocError)
    }
}

impl Copied for OfferedItems {
    fn duplicate(&self, _alloc: Global) -> Result<OfferedItems, AllocError> {
        self.share()
    }
}

impl OfferedItems {
    /// No items. Takes no memory.
    pub fn new() -> OfferedItems
        ensures { result ≡ [] }
    {
        OfferedItems {
            items: Map::new(),
            bytes: 0,
        }
    }

    /// A copy that shares the items. Takes no memory.
    pub fn share(&self) -> Result<OfferedItems, AllocError>
        ensures { IfOk result (λ x. x ≡ self.now) }
    {
        Ok(OfferedItems {
            items: self.items.share()?,
            bytes: self.bytes,
        })
    }

    /// How many items there are.
    pub fn len(&self) -> usize
        ensures { result ≡ length self.now }
    {
        self.items.len()
    }

    /// The sum of the lengths of the compact texts of the items' trees.
    pub fn bytes(&self) -> u64
        ensures { result ≡ sum_by item_bytes self.now }
    {
        self.bytes
    }

    /// References rise. Does nothing; its callers learn it.
    pub fn in_order(&self)
        ensures { IsTrue (is_sorted text_cmp self.now) }
    {
        self.items.in_order();
    }

    /// Lends what is offered for a reference; none where nothing is.
    pub fn get(&self, reference: &Ref) -> Option<&Offered>
        ensures { option_map (λ x. x.now) result ≡ get self.now reference.now }
    {
        self.items.get(reference)
    }

    /// Lends the items in order of the references.
    pub fn iter(&self) -> Items<'_, (Ref, Offered)>
        ensures { items_left result ≡ self.now }
    {
        self.items.iter()
    }

    /// Copies of the references in order.
    pub fn keys(&self, alloc: Global) -> Result<Listing<Ref>, AllocError>
        ensures { IfOk result (λ ks. ks ≡ keys self.now) }
    {
        self.items.keys(alloc)
    }

    // The bytes of what is offered for a reference: none where nothing is.
    fn bytes_at(&self, reference: &Ref) -> u64
        ensures { result ≡ bytes_of (get self.now reference.now) }
    {
        self.items.in_order();
        match self.items.get(reference) {
            None => 0,
            Some(offered) => size(offered.tree.tree()),
        }
    }

    /// Puts what is offered for a reference. Where memory is wanted, or 2^62 bytes would be passed, all is as before.
    pub fn put(&mut self, alloc: Global, reference: Ref, offered: Offered) -> Result<(), AllocError>
        ensures { self.new ≡ (if is_ok result then put text_cmp reference offered self.old else self.old) }
    {
        let bytes = self.bytes_without(&reference) + counted(&offered.tree)?;
        if bytes >= MOST {
            return Err(AllocError);
        }
        self.items.in_order();
        self.items.put(alloc, reference, offered)?;
        self.bytes = bytes;
        Ok(())
    }

    // The bytes of all items but that of a reference.
    fn bytes_without(&self, reference: &Ref) -> u64
        ensures left { result ≡ sum_by item_bytes (without text_cmp reference.now self.now) }
        ensures small { result < 2 ^ 62 }
    {
        self.items.in_order();
        self.bytes - self.bytes_at(reference)
    }

    /// Removes what is offered for a reference, if anything is. Where memory is wanted, all is as before.
    pub fn remove(&mut self, alloc: Global, reference: &Ref) -> Result<(), AllocError>
        ensures { self.new ≡ (if is_ok result then without text_cmp reference.now self.old else self.old) }
    {
        let bytes = self.bytes_without(reference);
        self.items.remove(alloc, reference)?;
        self.bytes = bytes;
        Ok(())
    }
}
