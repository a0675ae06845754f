//! The writes of a journal: its beginning, a gate byte 0, and a record behind one.
ghost use Rattle.std.specs.Prelude.{◌≡◌, ◌≢◌, ◌+◌, ◌-◌, ◌^◌, ◌<◌, ◌≤◌, [], ◌∷◌, length};
ghost use Rattle.cat_io.specs.Causes.{Rose};
ghost use Rattle.cat_disk.specs.Disk.{StartsWithin};
ghost use Rattle.cat_journal.specs.Scanning.{Overwrites};
ghost use Rattle.cat_journal.specs.Writes.{Shuts, KeepsNext, ShutsSafely, Puts, PutsSafely, Begins, BeginsSafely};

use crate::records::BEGINNING;
use cat_disk::{Disk, DiskDone};

/// How a record was put.
#[derive(Clone, Copy, Drop)]
pub enum Put {
    /// It is on the disk.
    Kept,
    /// The disk failed before the gate byte was written.
    Behind,
    /// The disk failed at the gate byte.
    AtGate,
}

/// Begins a journal in a file of at most 9 bytes: writes the header and a gate byte 0, and syncs.
pub fn begin<D: Disk>(disk: &mut D) -> DiskDone
    ensures begins { Begins (record { moments = D.moments disk.old; content = D.content disk.old }) (record { moments = D.moments disk.new; content = D.content disk.new }) result }
    ensures safely { BeginsSafely (record { moments = D.moments disk.old; content = D.content disk.old }) (record { moments = D.moments disk.new; content = D.content disk.new }) }
    ensures silent { D.moments disk.old ≡ [] → D.moments disk.new ≡ [] }
    ensures later { D.faults disk.old ≤ D.faults disk.new }
    ensures cause { result ≡ DiskDone.Failed → Rose (D.faults disk.old) (D.faults disk.new) }
{
    match disk.write_at(0, &BEGINNING) {
        DiskDone::Done => disk.sync(),
        DiskDone::Failed => DiskDone::Failed,
    }
}

/// Writes 0 to a gate byte, and syncs.
pub fn shut<D: Disk>(disk: &mut D, gate: u64) -> DiskDone
    requires { StartsWithin (D.moments disk.old) (D.content disk.old) gate }
    ensures shuts { Shuts gate (record { moments = D.moments disk.old; content = D.content disk.old }) (record { moments = D.moments disk.new; content = D.content disk.new }) result }
    ensures zero { Overwrites gate (0 ∷ []) (record { moments = D.moments disk.old; content = D.content disk.old }) (record { moments = D.moments disk.new; content = D.content disk.new }) result }
    ensures next { KeepsNext gate (record { moments = D.moments disk.old; content = D.content disk.old }) (record { moments = D.moments disk.new; content = D.content disk.new }) result }
    ensures safely { ShutsSafely gate (record { moments = D.moments disk.old; content = D.content disk.old }) (record { moments = D.moments disk.new; content = D.content disk.new }) }
    ensures silent { D.moments disk.old ≡ [] → D.moments disk.new ≡ [] }
    ensures later { D.faults disk.old ≤ D.faults disk.new }
    ensures cause { result ≡ DiskDone.Failed → Rose (D.faults disk.old) (D.faults disk.new) }
{
    match disk.write_at(gate, &[0]) {
        DiskDone::Done => disk.sync(),
        DiskDone::Failed => DiskDone::Failed,
    }
}

/// Puts a record behind a gate byte 0: writes its text there, syncs, opens the gate, and syncs.
pub fn put_record<D: Disk>(disk: &mut D, gate: u64, text: &[u8]) -> Put
    requires within { (gate < 2 ^ 64 - 1) × (length text.now < 2 ^ 64) }
    requires starts { StartsWithin (D.moments disk.old) (D.content disk.old) (gate + 1) }
    ensures puts { Puts gate text.now (record { moments = D.moments disk.old; content = D.content disk.old }) (record { moments = D.moments disk.new; content = D.content disk.new }) result }
    ensures safely { PutsSafely gate text.now (record { moments = D.moments disk.old; content = D.content disk.old }) (record { moments = D.moments disk.new; content = D.content disk.new }) }
    ensures silent { D.moments disk.old ≡ [] → D.moments disk.new ≡ [] }
    ensures within { result ≡ Put.Kept → gate + length text.now < 2 ^ 62 }
    ensures later { D.faults disk.old ≤ D.faults disk.new }
    ensures cause { result ≢ Put.Kept → Rose (D.faults disk.old) (D.faults disk.new) }
{
    match disk.write_at(gate + 1, text) {
        DiskDone::Done => {}
        DiskDone::Failed => return Put::Behind,
    }
    match disk.sync() {
        DiskDone::Done => {}
        DiskDone::Failed => return Put::Behind,
    }
    match disk.write_at(gate, &[1]) {
        DiskDone::Done => {}
        DiskDone::Failed => return Put::AtGate,
    }
    match disk.sync() {
        DiskDone::Done => Put::Kept,
        DiskDone::Failed => Put::AtGate,
    }
}
