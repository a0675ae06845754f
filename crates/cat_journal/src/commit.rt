//! A commit to a journal: where the gate byte is in doubt it is made 0, and then a record is put behind it.
ghost use Rattle.std.specs.Prelude.{◌≡◌, ◌≢◌, ◌≤◌, ℕ, List, [], IsSome};
ghost use Rattle.cat_io.specs.Causes.{Rose};
ghost use Rattle.cat_keeper.specs.Store.{Changes, Rows};
ghost use Rattle.cat_journal.specs.Stands.{Stands, IsSafePut};
ghost use Rattle.cat_journal.specs.Loads.{IsSafe};
ghost use Rattle.cat_journal.specs.Parsed.{batch_of};
ghost use Rattle.cat_journal.specs.Records.{closed_record};
ghost use Rattle.cat_journal.specs.Keeps.{IsReady, PutsKnown};

use crate::gate::{Put, put_record, shut};
use crate::load::Known;
use cat_disk::{Disk, DiskDone};

// Puts a record behind a gate byte 0 at this position.
fn put_at<D: Disk>(disk: &mut D, gate: u64, text: &[u8]) -> (Known, Put)
    requires safe { IsSafe (Known.Closed gate) (record { moments = D.moments disk.old; content = D.content disk.old }) }
    requires ready { IsReady (Known.Closed gate) (record { moments = D.moments disk.old; content = D.content disk.old }) }
    requires spelled { (body : List ℕ) × (text.now ≡ closed_record body) × IsSome (batch_of body) }
    ensures safe { IsSafe result.0 (record { moments = D.moments disk.new; content = D.content disk.new }) }
    ensures ready { IsReady result.0 (record { moments = D.moments disk.new; content = D.content disk.new }) }
    ensures puts { PutsKnown (Known.Closed gate) text.now (record { moments = D.moments disk.old; content = D.content disk.old }) (record { moments = D.moments disk.new; content = D.content disk.new }) result.0 result.1 }
    ensures crash { (base : Rows) (more : List Changes) (body : List ℕ) (batch : Changes) → text.now ≡ closed_record body → batch_of body ≡ Some batch → Stands base more (Known.Closed gate) (record { moments = D.moments disk.old; content = D.content disk.old }) → IsSafePut base more batch (record { moments = D.moments disk.old; content = D.content disk.old }) (record { moments = D.moments disk.new; content = D.content disk.new }) result.0 result.1 }
    ensures silent { D.moments disk.old ≡ [] → D.moments disk.new ≡ [] }
    ensures later { D.faults disk.old ≤ D.faults disk.new }
    ensures cause { result.1 ≢ Put.Kept → Rose (D.faults disk.old) (D.faults disk.new) }
{
    let size = text.len() as u64;
    match put_record(disk, gate, text) {
        Put::Kept => (Known::Closed(gate + size), Put::Kept),
        Put::Behind => (Known::Closed(gate), Put::Behind),
        Put::AtGate => (Known::Doubtful(gate), Put::AtGate),
    }
}

/// Puts a record behind the gate byte that was found, and says what is known of the gate byte behind which the next one goes.
pub fn put<D: Disk>(disk: &mut D, known: Known, text: &[u8]) -> (Known, Put)
    requires safe { IsSafe known (record { moments = D.moments disk.old; content = D.content disk.old }) }
    requires ready { IsReady known (record { moments = D.moments disk.old; content = D.content disk.old }) }
    requires spelled { (body : List ℕ) × (text.now ≡ closed_record body) × IsSome (batch_of body) }
    ensures safe { IsSafe result.0 (record { moments = D.moments disk.new; content = D.content disk.new }) }
    ensures ready { IsReady result.0 (record { moments = D.moments disk.new; content = D.content disk.new }) }
    ensures puts { PutsKnown known text.now (record { moments = D.moments disk.old; content = D.content disk.old }) (record { moments = D.moments disk.new; content = D.content disk.new }) result.0 result.1 }
    // A crash at any moment leaves the rows that stood, or those after the batch.
    ensures crash { (base : Rows) (more : List Changes) (body : List ℕ) (batch : Changes) → text.now ≡ closed_record body → batch_of body ≡ Some batch → Stands base more known (record { moments = D.moments disk.old; content = D.content disk.old }) → IsSafePut base more batch (record { moments = D.moments disk.old; content = D.content disk.old }) (record { moments = D.moments disk.new; content = D.content disk.new }) result.0 result.1 }
    ensures silent { D.moments disk.old ≡ [] → D.moments disk.new ≡ [] }
    ensures later { D.faults disk.old ≤ D.faults disk.new }
    ensures cause { result.1 ≢ Put.Kept → Rose (D.faults disk.old) (D.faults disk.new) }
{
    match known {
        Known::Nothing => unreachable!(),
        Known::Closed(gate) => put_at(disk, gate, text),
        Known::Doubtful(gate) => match shut(disk, gate) {
            DiskDone::Done => put_at(disk, gate, text),
            DiskDone::Failed => (Known::Doubtful(gate), Put::AtGate),
        },
    }
}
