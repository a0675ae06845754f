//! A walk over old and new rows at once, in order of their keys.
ghost use Rattle.std.specs.Prelude.{◌≡◌, ◌+◌, ◌-◌, ◌<◌, ◌≢◌, ◌↔◌, IsTrue, true, false, drop, slice_get, length, Some, None, IfOk, OnOk, if◌then◌else◌};
ghost use Rattle.std.specs.FinMap.Entries.{below_all};
ghost use Rattle.cat_keeper.specs.Store.{applied, row_cmp};
ghost use Rattle.cat_stored_rows.specs.Differing.{AreNeeded};
ghost use Rattle.cat_stored_rows.specs.Stored.{text_in};
ghost use Rattle.cat_stored_rows.specs.Walk.{HasCome, told_all};

use crate::same::{is_same_row, is_same_text};
use cat_collections::key::Key;
use cat_collections::listing::Copied;
use cat_collections::map::Map;
use cat_keeper::rows::{Batch, Change};
use cat_keeper::table::Table;
use cat_row_format::row::StoredRow;
use cat_row_format::write::row_text;
use cat_tree::text::Text;
use std::alloc::{AllocError, Global};
use std::cmp::Ordering;

/// What is kept as a text.
pub trait Told {
    ghost use Rattle.cat_collections.specs.Table.{Text};

    ghost told: { Self → Text };

    /// Whether both are equal.
    fn is_same(&self, other: &Self) -> bool
        ensures { IsTrue result ↔ (self.now ≡ other.now) };

    /// The text.
    fn text(&self, alloc: Global) -> Result<Text, AllocError>
        ensures { IfOk result (λ t. t ≡ told self.now) };
}

impl Told for StoredRow {
    ghost told = { text_in };

    fn is_same(&self, other: &StoredRow) -> bool {
        is_same_row(self, other)
    }

    fn text(&self, alloc: Global) -> Result<Text, AllocError> {
        row_text(alloc, self)
    }
}

impl Told for Text {
    ghost told = { λ t. t };

    fn is_same(&self, other: &Text) -> bool {
        is_same_text(self.as_str(), other.as_str())
    }

    fn text(&self, alloc: Global) -> Result<Text, AllocError> {
        self.duplicate(alloc)
    }
}

/// How many old and how many new rows were passed, and the changes so far.
#[derive(Drop)]
struct Walk {
    from: usize,
    to: usize,
    batch: Batch,
}

// Passes an old row that is gone.
fn leave<X: Told>(
    alloc: Global,
    old: &Map<(Table, Text), X>,
    new: &Map<(Table, Text), X>,
    was: &((Table, Text), X),
    walk: &mut Walk,
) -> Result<(), AllocError>
    requires come { HasCome X.told old.now new.now walk.old }
    requires at { slice_get old.now walk.old.from ≡ Some was.now }
    requires above { below_all row_cmp was.now.0 (drop walk.old.to new.now) ≡ true }
    ensures come { OnOk result (HasCome X.told old.now new.now walk.new) }
    ensures from { OnOk result (walk.new.from ≡ walk.old.from + 1) }
    ensures to { OnOk result (walk.new.to ≡ walk.old.to) }
{
    old.in_order();
    let _most = old.len();
    let key = was.0.duplicate(alloc)?;
    walk.batch.put(alloc, key, Change::Gone)?;
    walk.from += 1;
    Ok(())
}

// Passes a new row that wasn't there.
fn enter<X: Told>(
    alloc: Global,
    old: &Map<(Table, Text), X>,
    new: &Map<(Table, Text), X>,
    is: &((Table, Text), X),
    walk: &mut Walk,
) -> Result<(), AllocError>
    requires come { HasCome X.told old.now new.now walk.old }
    requires at { slice_get new.now walk.old.to ≡ Some is.now }
    requires above { below_all row_cmp is.now.0 (drop walk.old.from old.now) ≡ true }
    ensures come { OnOk result (HasCome X.told old.now new.now walk.new) }
    ensures from { OnOk result (walk.new.from ≡ walk.old.from) }
    ensures to { OnOk result (walk.new.to ≡ walk.old.to + 1) }
{
    new.in_order();
    let _most = new.len();
    let key = is.0.duplicate(alloc)?;
    let text = is.1.text(alloc)?;
    walk.batch.put(alloc, key, Change::Put(text))?;
    walk.to += 1;
    Ok(())
}

// Passes an old and a new row of one key that are equal.
fn keep<X: Told>(
    old: &Map<(Table, Text), X>,
    new: &Map<(Table, Text), X>,
    was: &((Table, Text), X),
    is: &((Table, Text), X),
    walk: &mut Walk,
)
    requires come { HasCome X.told old.now new.now walk.old }
    requires from { slice_get old.now walk.old.from ≡ Some was.now }
    requires to { slice_get new.now walk.old.to ≡ Some is.now }
    requires key { was.now.0 ≡ is.now.0 }
    requires same { was.now.1 ≡ is.now.1 }
    ensures come { HasCome X.told old.now new.now walk.new }
    ensures from { walk.new.from ≡ walk.old.from + 1 }
    ensures to { walk.new.to ≡ walk.old.to + 1 }
{
    old.in_order();
    new.in_order();
    let _most = (old.len(), new.len());
    walk.from += 1;
    walk.to += 1;
}

// Passes an old and a new row of one key that differ.
fn turn<X: Told>(
    alloc: Global,
    old: &Map<(Table, Text), X>,
    new: &Map<(Table, Text), X>,
    was: &((Table, Text), X),
    is: &((Table, Text), X),
    walk: &mut Walk,
) -> Result<(), AllocError>
    requires come { HasCome X.told old.now new.now walk.old }
    requires from { slice_get old.now walk.old.from ≡ Some was.now }
    requires to { slice_get new.now walk.old.to ≡ Some is.now }
    requires key { was.now.0 ≡ is.now.0 }
    requires differ { was.now.1 ≢ is.now.1 }
    ensures come { OnOk result (HasCome X.told old.now new.now walk.new) }
    ensures from { OnOk result (walk.new.from ≡ walk.old.from + 1) }
    ensures to { OnOk result (walk.new.to ≡ walk.old.to + 1) }
{
    old.in_order();
    new.in_order();
    let _most = (old.len(), new.len());
    let key = is.0.duplicate(alloc)?;
    let text = is.1.text(alloc)?;
    walk.batch.put(alloc, key, Change::Put(text))?;
    walk.from += 1;
    walk.to += 1;
    Ok(())
}

// Passes the next old row, the next new row, or both, where they have one key. Answers whether there was one.
fn step<X: Told>(
    alloc: Global,
    old: &Map<(Table, Text), X>,
    new: &Map<(Table, Text), X>,
    walk: &mut Walk,
) -> Result<bool, AllocError>
    requires { HasCome X.told old.now new.now walk.old }
    ensures come { OnOk result (HasCome X.told old.now new.now walk.new) }
    ensures further { IfOk result (λ more. more ≡ true
        → (length old.now - walk.new.from) + (length new.now - walk.new.to) < (length old.now - walk.old.from) + (length new.now - walk.old.to)) }
    ensures end { IfOk result (λ more. more ≡ false → applied walk.new.batch (told_all X.told old.now) ≡ told_all X.told new.now) }
{
    old.in_order();
    new.in_order();
    match (old.at(walk.from), new.at(walk.to)) {
        (None, None) => return Ok(false),
        (Some(was), None) => leave(alloc, old, new, was, walk)?,
        (None, Some(is)) => enter(alloc, old, new, is, walk)?,
        (Some(was), Some(is)) => match was.0.compare(&is.0) {
            Ordering::Less => leave(alloc, old, new, was, walk)?,
            Ordering::Greater => enter(alloc, old, new, is, walk)?,
            Ordering::Equal => {
                if was.1.is_same(&is.1) {
                    keep(old, new, was, is, walk);
                } else {
                    turn(alloc, old, new, was, is, walk)?;
                }
            }
        },
    }
    Ok(true)
}

/// The changes that lead from the texts of old rows to those of new ones. What is equal gives no change. The error is want of
/// memory.
pub fn changes<X: Told>(
    alloc: Global,
    old: &Map<(Table, Text), X>,
    new: &Map<(Table, Text), X>,
) -> Result<Batch, AllocError>
    ensures leads { IfOk result (λ b. applied b (told_all X.told old.now) ≡ told_all X.told new.now) }
    ensures needed { IfOk result (λ b. AreNeeded old.now new.now b) }
{
    let mut walk = Walk {
        from: 0,
        to: 0,
        batch: Map::new(),
    };
    while step(alloc, old, new, &mut walk)? {}
    Ok(walk.batch)
}
