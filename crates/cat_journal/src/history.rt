//! What holds of every list of loads and commits over a journal.
ghost use Rattle.std.specs.Prelude.{◌≡◌, ℕ, Bool, true, List, IfOk};
ghost use Rattle.cat_keeper.specs.Store.{Changes, Rows};
ghost use Rattle.cat_keeper.specs.declared.keeper.Loaded.TheVariants.{Rows as Given};
ghost use Rattle.cat_journal.specs.Histories.{AreFirst, AreSafe, IsLeftIn, Makes, Runs, disk_of, more_after_all, order_of, orders_of, rows_after_all};
ghost use Rattle.cat_journal.specs.Keeps.{JournalState};
ghost use Rattle.cat_journal.specs.Left.{AreRows, IsJournal, IsLeft, LeavesOnly, Now};
ghost use Rattle.cat_journal.specs.Loads.{IsWhole};
ghost use Rattle.cat_journal.specs.Records.{Scans};
ghost use Rattle.cat_journal.specs.Scanning.{GivesScan};
ghost use Rattle.cat_journal.specs.Stands.{Stands};
ghost use Rattle.cat_journal.specs.Writes.{Seen};
ghost use Rattle.cat_journal.specs.declared.call.Call.{Call};
ghost use Rattle.cat_journal.specs.declared.load.Known.TheVariants.{Nothing};
ghost use Rattle.cat_journal.specs.declared.records.Scanned.TheVariants.{Found};

use crate::call::{Call, Order};
use crate::keeper::JournalKeeper;
use cat_disk::Disk;
use cat_keeper::keeper::{Keeper, Place};
use std::alloc::{AllocError, Global};

// Asks a keeper for one thing.
fn make<D: Disk>(alloc: Global, keeper: &mut JournalKeeper<D>, order: Order) -> Call
    ensures order { order_of result ≡ order }
    ensures makes { Makes result keeper.old keeper.new }
{
    match order {
        Order::Load => Call::Load(keeper.load(alloc, &Place::Nowhere)),
        Order::Commit(batch) => {
            let committed = keeper.commit(alloc, &batch);
            Call::Commit(batch, committed)
        }
    }
}

/// Asks a keeper for one thing after the other. A crash at any moment leaves a journal whose rows are those at first with the batches
/// that were kept, and after them at most one batch more: that of the commit under way, one that failed since a batch was kept, or the
/// open one of the first content. Where memory is wanted for the answers, so it is for the calls that were made.
pub fn run<D: Disk>(
    alloc: Global,
    keeper: &mut JournalKeeper<D>,
    orders: Vec<Order>,
) -> Result<Vec<Call>, AllocError>
    ensures orders { IfOk result (λ made. orders_of made.items ≡ orders.items) }
    ensures safe { (calls : List Call) × AreFirst calls orders.items × IfOk result (λ made. made.items ≡ calls) × AreSafe calls keeper.old keeper.new }
{
    let mut made = Vec::with_capacity(alloc, orders.len())?;
    for order in orders {
        let call = make(alloc, keeper, order);
        made.push(call)?;
    }
    Ok(made)
}

/// Whatever loads and commits are made, one after the other, a crash at any moment leaves a journal whose rows are those at first
/// with the batches that were kept, and after them at most one batch more: that of the commit under way, one that failed since a
/// batch was kept, or the open one of the first content. And the rows stand so after the last call.
pub fn crashes_leave_what_was_kept()
    ensures left { (calls : List Call) (old new : JournalState) (base : Rows) (more : List Changes) → Stands base more old.known (disk_of old) → Runs calls old new
        → LeavesOnly old.moments new.moments (IsLeftIn calls base more) }
    ensures stands { (calls : List Call) (old new : JournalState) (base : Rows) (more : List Changes) → Stands base more old.known (disk_of old) → Runs calls old new
        → Stands (rows_after_all calls base) (more_after_all calls more) new.known (disk_of new) }
{}

/// The rows of a journal with nothing pending stand before the first call, as the scan finds them.
pub fn a_journal_stands_at_first()
    ensures { (s : Seen) → Now s.moments s.content IsWhole → IsJournal s.content
        → (base : Rows) × (gate : ℕ) × (more : List Changes) × Scans s.content (Found base gate) × Stands base more Nothing s }
{}

/// A load of what a crash left gives the rows at first with the batches that were kept, or these after one batch more, and never damage.
pub fn what_is_left_is_given()
    ensures { (base : Rows) (more : List Changes) (content new : List ℕ) (rows : Rows) (ready : Bool) → IsLeft base more content → GivesScan content new (Given rows) ready
        → AreRows base more rows × (ready ≡ true) }
{}
