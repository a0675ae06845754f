//! A disk with one file, which may crash at any moment.
//!
//! A `Disk` is seen by its content, by its count of faults, and by its moments: what a crash at each moment so far might have
//! left. Until a sync succeeds, each range that was written may hold any bytes after a crash, and the file may have any length
//! from the old one to the greatest since. So what writes to a disk can promise what is found after a crash at any moment, in
//! a call or between two. A disk that tells no moment tells nothing of its content either. `MemoryDisk` keeps a record of its
//! calls, tells what each crash may leave, and fails on demand.
//!
//! The promise: the content that reads is always one that a crash may leave, a sync that succeeds makes it durable, and a call
//! fails only where the count of faults rose. Nobody else may write the file meanwhile.
//!
//! The crate stands on cat_io, whose counts of calls and faults it uses.
#![tactic(auto)]

mod disk;
mod memory;
mod replay;

pub use disk::{Disk, DiskDone, DiskRead, MAX_LENGTH, is_within};
pub use memory::MemoryDisk;
