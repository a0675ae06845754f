//! Lists, and what can be copied.
ghost use Rattle.std.specs.Prelude.{◌≡◌, ◌++◌, ◌∷◌, ◌==◌, [], length, is_ok, if◌then◌else◌, IfOk};
ghost use Rattle.std.specs.Iterator.Adapters.{IterYieldsInOrder};
ghost use Rattle.std.specs.Slice.Iter.{iter_rest};

pub use cat_key::copied::Copied;
use std::alloc::{AllocError, Global};
use std::marker::Model;
use std::slice;

/// Items in order. Contracts see the list of them.
pub struct Listing<X> {
    items: Vec<X>,
}

// Written out, and not derived: so the crates above let go of a list by one call.
impl<X: Drop> Drop for Listing<X> {
    fn drop(self) {
        let Listing { items: _ } = self;
    }
}

impl<X> Model for Listing<X> {
    ghost use Rattle.std.specs.Prelude.{List};

    ghost Value = { List X };

    ghost view = { λ a. a.items.items };
}

impl<X> Listing<X> {
    /// No items. Takes no memory.
    pub fn new(alloc: Global) -> Listing<X>
        ensures { result ≡ [] }
    {
        Listing {
            items: Vec::new(alloc),
        }
    }

    /// The items of a vector, whose memory they take over.
    pub fn from_vec(items: Vec<X>) -> Listing<X>
        ensures { result ≡ items.items }
    {
        Listing { items }
    }

    /// The items as a vector, which takes over their memory.
    pub fn into_vec(self) -> Vec<X>
        ensures { result.items ≡ self }
    {
        let Listing { items } = self;
        items
    }

    /// How many items there are.
    pub fn len(&self) -> usize
        ensures { result ≡ length self.now }
    {
        self.items.len()
    }

    /// Whether there are no items.
    pub fn is_empty(&self) -> bool
        ensures { result ≡ (length self.now == 0) }
    {
        self.items.len() == 0
    }

    /// Lends the items.
    pub fn as_slice(&self) -> &[X]
        ensures { result.now ≡ self.now }
    {
        self.items.as_slice()
    }

    /// The items in order.
    pub fn iter(&self) -> slice::Iter<'_, X>
        ensures rest { iter_rest result ≡ self.now }
        ensures runs { IterYieldsInOrder X }
    {
        self.items.iter()
    }

    /// Puts an item at the end. Where memory is wanted, the items are as before and this one is dropped.
    pub fn push(&mut self, item: X) -> Result<(), AllocError>
    where
        X: Drop,
        ensures { self.new ≡ (if is_ok result then self.old ++ item ∷ [] else self.old) }
    {
        self.items.push(item)?;
        Ok(())
    }
}

impl<X: Copied + Drop> Copied for Listing<X> {
    fn duplicate(&self, alloc: Global) -> Result<Listing<X>, AllocError> {
        let mut items = Vec::new(alloc);
        for item in &self.items {
            items.push(item.duplicate(alloc)?)?;
        }
        Ok(Listing { items })
    }
}
