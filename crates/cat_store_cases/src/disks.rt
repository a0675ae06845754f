//! A disk that crashes.
use crate::fault::Fault;
use cat_case::case::Case;
use cat_case::shown::push_bytes;
use cat_disk::{Disk, DiskDone, MemoryDisk};
use std::alloc::Global;

// Puts what a crash leaves behind what stands so far.
fn push_crash(out: &mut String, disk: &MemoryDisk, grown: bool) -> Result<(), Fault> {
    let left = disk.crash(b'7', grown)?;
    out.push_str(" ")?;
    push_bytes(out, left.as_slice()).map_err(Fault::Show)
}

// Puts what a read answers, and what it reads, each with a space around, behind what stands so far.
fn push_read(out: &mut String, alloc: Global, disk: &mut MemoryDisk) -> Result<(), Fault> {
    let mut bytes = Vec::new(alloc);
    let read = disk.read(&mut bytes);
    write!(out, " {read:?} ")?;
    push_bytes(out, bytes.as_slice())?;
    out.push_str(" ").map_err(Fault::Memory)
}

// Puts how a write or a sync ended, and what crashes leave then, behind what stands so far.
fn push_done(out: &mut String, done: DiskDone, disk: &MemoryDisk) -> Result<(), Fault> {
    write!(out, "{done:?}")?;
    push_crash(out, disk, false)?;
    push_crash(out, disk, true)
}

// Puts how a write ended, and what a read and a sync answer, behind what stands so far.
fn push_calls(
    out: &mut String,
    alloc: Global,
    done: DiskDone,
    disk: &mut MemoryDisk,
) -> Result<(), Fault> {
    push_done(out, done, disk)?;
    push_read(out, alloc, disk)?;
    let done = disk.sync();
    push_done(out, done, disk)
}

/// Puts what a write of `XY` into `abc`, a read and a sync answer where the call of the first field fails, and what crashes before
/// and after the sync leave, behind what stands so far.
pub fn crashed(out: &mut String, alloc: Global, case: &Case) -> Result<(), Fault> {
    let failing = vec![in alloc; case.number(1)]?;
    let mut disk = MemoryDisk::new(b"abc".to_vec(alloc)?, failing);
    let done = disk.write_at(2, b"XY");
    push_calls(out, alloc, done, &mut disk)
}
