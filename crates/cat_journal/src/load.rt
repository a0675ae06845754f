//! A load of a journal: what was written is made durable, the rows are read, and the gate byte at which they end is mended.
ghost use Rattle.std.specs.Prelude.{◌≡◌, ◌≢◌, ◌⊎◌, ◌<◌, ◌≤◌, [], length, List};
ghost use Rattle.cat_io.specs.Causes.{Rose};
ghost use Rattle.cat_keeper.specs.Store.{Changes, Rows};
ghost use Rattle.cat_journal.specs.Scanning.{IsToRead, IsScanned, content_read};
ghost use Rattle.cat_journal.specs.Stands.{Stands, SettlesSafely, TakesStill, LoadsStill, IsSafeLoad};
ghost use Rattle.cat_journal.specs.Loads.{IsSafe, IsPlaced, IsFound, Finds, IsDecided, Settles, TakesUp, TakesUpSafely, Takes, TakesSafely, Reads, LoadsAgain, LoadsFirst};

use crate::gate::{begin, shut};
use crate::records::{BEGINNING, Scanned, scan};
use cat_disk::{Disk, DiskDone, DiskRead};
use cat_keeper::rows::StoredRows;
use std::alloc::Global;

/// What is known of the gate byte at which the records end.
#[derive(Clone, Copy, Drop)]
pub enum Known {
    /// No load has found it.
    Nothing,
    /// It stands at this position, and is 0 on the disk.
    Closed(u64),
    /// It stands at this position, and a write of it failed: a crash may leave it 0 or not.
    Doubtful(u64),
}

/// What a load gave.
#[derive(Drop)]
pub enum Loading {
    /// The rows.
    Found(StoredRows),
    /// The journal is damaged at this position.
    Damaged(u64),
    /// The disk failed.
    Failed,
    /// Memory is wanted.
    NoMemory,
}

// Makes durable what was written. A gate byte in doubt is 0 from then on.
fn settle<D: Disk>(disk: &mut D, known: Known) -> (Known, DiskDone)
    requires { IsSafe known (record { moments = D.moments disk.old; content = D.content disk.old }) }
    ensures placed { IsPlaced result.0 }
    ensures settles { Settles known (record { moments = D.moments disk.old; content = D.content disk.old }) (record { moments = D.moments disk.new; content = D.content disk.new }) result.0 result.1 }
    ensures reads { IsToRead known (record { moments = D.moments disk.old; content = D.content disk.old }) (record { moments = D.moments disk.new; content = D.content disk.new }) result.1 }
    ensures crash { (base : Rows) (more : List Changes) → Stands base more known (record { moments = D.moments disk.old; content = D.content disk.old }) → SettlesSafely base more (record { moments = D.moments disk.old; content = D.content disk.old }) (record { moments = D.moments disk.new; content = D.content disk.new }) result.0 result.1 }
    ensures silent { D.moments disk.old ≡ [] → D.moments disk.new ≡ [] }
    ensures later { D.faults disk.old ≤ D.faults disk.new }
    ensures cause { result.1 ≡ DiskDone.Failed → Rose (D.faults disk.old) (D.faults disk.new) }
{
    match known {
        Known::Doubtful(gate) => match shut(disk, gate) {
            DiskDone::Done => (Known::Closed(gate), DiskDone::Done),
            DiskDone::Failed => (Known::Doubtful(gate), DiskDone::Failed),
        },
        Known::Closed(gate) => (Known::Closed(gate), disk.sync()),
        Known::Nothing => (Known::Nothing, disk.sync()),
    }
}

// Makes the gate byte ready at which the records of this content end: begins a journal in a file of at most 9 bytes, and writes 0
// over another gate byte than 0.
fn take_up<D: Disk>(disk: &mut D, content: &[u8], known: Known, gate: u64) -> (Known, DiskDone)
    requires inside { (9 < length content.now) → gate < length content.now }
    requires decided { IsDecided known }
    requires placed { IsPlaced known }
    requires reads { (D.moments disk.old ≡ []) ⊎ (content.now ≡ D.content disk.old) }
    ensures placed { IsPlaced result.0 }
    ensures found { IsFound known → IsFound result.0 }
    ensures done { result.1 ≡ DiskDone.Done → IsFound result.0 }
    ensures takes_up { TakesUp known gate (record { moments = D.moments disk.old; content = D.content disk.old }) (record { moments = D.moments disk.new; content = D.content disk.new }) result.0 result.1 }
    ensures safely { TakesUpSafely gate (record { moments = D.moments disk.old; content = D.content disk.old }) (record { moments = D.moments disk.new; content = D.content disk.new }) }
    ensures still { TakesStill known gate (record { moments = D.moments disk.old; content = D.content disk.old }) (record { moments = D.moments disk.new; content = D.content disk.new }) result.0 result.1 }
    ensures silent { D.moments disk.old ≡ [] → D.moments disk.new ≡ [] }
    ensures later { D.faults disk.old ≤ D.faults disk.new }
    ensures cause { result.1 ≡ DiskDone.Failed → Rose (D.faults disk.old) (D.faults disk.new) }
{
    if content.len() <= BEGINNING.len() {
        return match begin(disk) {
            DiskDone::Done => (Known::Closed(8), DiskDone::Done),
            DiskDone::Failed => (known, DiskDone::Failed),
        };
    }
    if content[gate as usize] == 0 {
        return (Known::Closed(gate), DiskDone::Done);
    }
    match shut(disk, gate) {
        DiskDone::Done => (Known::Closed(gate), DiskDone::Done),
        DiskDone::Failed => (Known::Doubtful(gate), DiskDone::Failed),
    }
}

// The rows of content that was read, and the gate byte made ready.
fn take<D: Disk>(alloc: Global, disk: &mut D, content: &[u8], known: Known) -> (Known, Loading)
    requires decided { IsDecided known }
    requires placed { IsPlaced known }
    requires reads { (D.moments disk.old ≡ []) ⊎ (content.now ≡ D.content disk.old) }
    ensures takes { Takes known (record { moments = D.moments disk.old; content = D.content disk.old }) (record { moments = D.moments disk.new; content = D.content disk.new }) result.0 result.1 }
    ensures reads { Reads known content.now result.0 result.1 }
    ensures found { IsFound known → IsFound result.0 }
    ensures finds { Finds result.1 result.0 }
    ensures safely { TakesSafely (record { moments = D.moments disk.old; content = D.content disk.old }) (record { moments = D.moments disk.new; content = D.content disk.new }) }
    ensures placed { IsPlaced result.0 }
    ensures still { LoadsStill known (record { moments = D.moments disk.old; content = D.content disk.old }) (record { moments = D.moments disk.new; content = D.content disk.new }) result.0 result.1 }
    ensures silent { D.moments disk.old ≡ [] → D.moments disk.new ≡ [] }
    ensures later { D.faults disk.old ≤ D.faults disk.new }
    ensures cause { result.1 ≡ Loading.Failed → Rose (D.faults disk.old) (D.faults disk.new) }
{
    match scan(alloc, content) {
        Ok(Scanned::Found(rows, gate)) => match take_up(disk, content, known, gate) {
            (known, DiskDone::Done) => (known, Loading::Found(rows)),
            (known, DiskDone::Failed) => (known, Loading::Failed),
        },
        Ok(Scanned::Damaged(place)) => (known, Loading::Damaged(place)),
        Err(_) => (known, Loading::NoMemory),
    }
}

// The rows of the content that reads, and the gate byte made ready.
fn read_and_take<D: Disk>(alloc: Global, disk: &mut D, known: Known) -> (Known, Loading)
    requires decided { IsDecided known }
    requires placed { IsPlaced known }
    ensures takes { Takes known (record { moments = D.moments disk.old; content = D.content disk.old }) (record { moments = D.moments disk.new; content = D.content disk.new }) result.0 result.1 }
    ensures reads { (D.moments disk.old ≡ []) ⊎ Reads known (D.content disk.old) result.0 result.1 }
    ensures found { IsFound known → IsFound result.0 }
    ensures finds { Finds result.1 result.0 }
    ensures safely { TakesSafely (record { moments = D.moments disk.old; content = D.content disk.old }) (record { moments = D.moments disk.new; content = D.content disk.new }) }
    ensures placed { IsPlaced result.0 }
    ensures still { LoadsStill known (record { moments = D.moments disk.old; content = D.content disk.old }) (record { moments = D.moments disk.new; content = D.content disk.new }) result.0 result.1 }
    ensures silent { D.moments disk.old ≡ [] → D.moments disk.new ≡ [] }
    ensures later { D.faults disk.old ≤ D.faults disk.new }
    ensures cause { result.1 ≡ Loading.Failed → Rose (D.faults disk.old) (D.faults disk.new) }
{
    let mut content = Vec::new(alloc);
    match disk.read(&mut content) {
        DiskRead::Read => take(alloc, disk, &content, known),
        DiskRead::Failed => (known, Loading::Failed),
        DiskRead::NoMemory => (known, Loading::NoMemory),
    }
}

/// The rows of the journal on a disk, with what is known of its gate byte from then on. Where the disk failed, or memory is wanted,
/// none are given.
pub fn load_rows<D: Disk>(alloc: Global, disk: &mut D, known: Known) -> (Known, Loading)
    requires { IsSafe known (record { moments = D.moments disk.old; content = D.content disk.old }) }
    ensures safe { IsSafe result.0 (record { moments = D.moments disk.new; content = D.content disk.new }) }
    ensures again { LoadsAgain known (record { moments = D.moments disk.old; content = D.content disk.old }) (record { moments = D.moments disk.new; content = D.content disk.new }) result.0 result.1 }
    ensures finds { Finds result.1 result.0 }
    ensures first { LoadsFirst known (record { moments = D.moments disk.old; content = D.content disk.old }) (record { moments = D.moments disk.new; content = D.content disk.new }) result.0 result.1 }
    ensures scanned { D.moments disk.old ≢ [] → IsScanned (content_read known (D.content disk.old)) (D.content disk.new) result.1 }
    // A crash at any moment leaves the rows that stood.
    ensures crash { (base : Rows) (more : List Changes) → Stands base more known (record { moments = D.moments disk.old; content = D.content disk.old }) → IsSafeLoad base more (record { moments = D.moments disk.old; content = D.content disk.old }) (record { moments = D.moments disk.new; content = D.content disk.new }) result.0 result.1 }
    ensures silent { D.moments disk.old ≡ [] → D.moments disk.new ≡ [] }
    ensures later { D.faults disk.old ≤ D.faults disk.new }
    ensures cause { result.1 ≡ Loading.Failed → Rose (D.faults disk.old) (D.faults disk.new) }
{
    match settle(disk, known) {
        (known, DiskDone::Done) => read_and_take(alloc, disk, known),
        (known, DiskDone::Failed) => (known, Loading::Failed),
    }
}
