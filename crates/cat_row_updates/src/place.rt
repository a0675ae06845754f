//! What keys of rows stand for.
ghost use Rattle.std.specs.Prelude.{◌≡◌, IfOk};
ghost use Rattle.cat_row_format.specs.Text as text;
ghost use Rattle.cat_stitch.specs.Uid.{last_digits};
ghost use Rattle.cat_row_updates.specs.Places as spec;

use cat_keeper::table::Table;
use cat_row_format::names::counter_text;
use cat_row_format::row::{StoredCounter, StoredRow};
use cat_row_format::write::row_key;
use cat_tree::text::Text;
use cat_tree::tree::Tree;
use cat_types::node::Node;
use cat_types::reference::Ref;
use std::alloc::{AllocError, Global};

/// What the key of a row stands for.
#[derive(Drop)]
pub enum Place {
    /// The next number of a counter.
    Counter(StoredCounter),
    /// The rule for orphans.
    Settings,
    /// A provider, by its name.
    Provider(Text),
    /// A text of the shelf, by its name.
    Shelf(Text),
    /// The record of a reference.
    Record(Ref),
    /// The orphan of a reference.
    Orphan(Ref),
    /// The tree of the item or the offer with this arrival number.
    Tree(u64),
    /// The item of a provider under a reference. Its row is looked for at this arrival number first.
    Item {
        provider: Text,
        reference: Ref,
        arrival: u64,
    },
}

// The key of an item: its provider, a space, and its reference.
fn item_key(alloc: Global, provider: &str, reference: &str) -> Result<Text, AllocError>
    ensures { IfOk result (λ t. t ≡ text.item_key provider.now reference.now) }
{
    let mut key = String::from_str(alloc, provider)?;
    key.push_str(" ")?;
    key.push_str(reference)?;
    Ok(Text::from_string(key))
}

// The key of a tree: that of any tree with its arrival number.
fn tree_key(alloc: Global, arrival: u64) -> Result<Text, AllocError>
    ensures { IfOk result (λ t. t ≡ last_digits 16 arrival) }
{
    let tree = Node::new(alloc, Tree::Null)?;
    row_key(alloc, &StoredRow::Tree { arrival, tree })
}

/// The table and the key of the row of a place. The error is want of memory.
pub fn key_of(alloc: Global, place: &Place) -> Result<(Table, Text), AllocError>
    ensures { IfOk result (λ key. key ≡ spec.key_of place.now) }
{
    match place {
        Place::Counter(counter) => Ok((Table::Counters, Text::of(alloc, counter_text(*counter))?)),
        Place::Settings => Ok((Table::Settings, Text::of(alloc, "store")?)),
        Place::Provider(name) => Ok((Table::Providers, Text::of(alloc, name.as_str())?)),
        Place::Shelf(name) => Ok((Table::Shelf, Text::of(alloc, name.as_str())?)),
        Place::Record(reference) => Ok((Table::Records, Text::of(alloc, reference.as_str())?)),
        Place::Orphan(reference) => Ok((Table::Orphans, Text::of(alloc, reference.as_str())?)),
        Place::Tree(arrival) => Ok((Table::Trees, tree_key(alloc, *arrival)?)),
        Place::Item {
            provider,
            reference,
            ..
        } => Ok((
            Table::Items,
            item_key(alloc, provider.as_str(), reference.as_str())?,
        )),
    }
}
