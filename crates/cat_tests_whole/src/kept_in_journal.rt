//! A store in a journal on a disk that stops.
use crate::kept_rows::{FIRST, Row, SECOND, batch_of, gives, session_writes};
use cat_connection::Status;
use cat_disk::MemoryDisk;
use cat_journal::call::{Call, Order};
use cat_journal::history::run;
use cat_journal::keeper::JournalKeeper;
use cat_journal::records::record;
use cat_keeper::keeper::{Committed, Loaded};
use std::alloc::{AllocError, Global};

// A journal with these rows in one record.
fn journal_of(alloc: Global, rows: &[Row]) -> Result<Vec<u8>, AllocError> {
    let mut bytes = b"CATJRNL1\x01".to_vec(alloc)?;
    let text = record(alloc, &batch_of(alloc, rows)?)?;
    bytes.extend_from_slice(&text)?;
    Ok(bytes)
}

// Whether a session without lines opens the store on a disk of which one call fails, and its keeper.
fn opened(
    alloc: Global,
    bytes: Vec<u8>,
    failing: u64,
) -> Result<(bool, JournalKeeper<MemoryDisk>), AllocError> {
    let keeper = JournalKeeper::over(MemoryDisk::new(bytes, vec![in alloc; failing]?));
    let (ran, _) = session_writes(alloc, keeper, Vec::new(alloc), b"");
    Ok((ran.status == Status::Whole, ran.keeper))
}

// Whether what a crash leaves opens, and has the rows then.
fn opens_after(
    alloc: Global,
    keeper: &JournalKeeper<MemoryDisk>,
    byte: u8,
    grown: bool,
) -> Result<bool, AllocError> {
    let left = keeper.disk().crash(byte, grown)?;
    let (is_open, mut again) = opened(alloc, left, 0)?;
    Ok(is_open && gives(alloc, &mut again, &SECOND))
}

// What a crash puts in place of each byte that is pending, and whether the file has grown.
const CRASHES: [(u8, bool); 5] = [(0, false), (0, true), (1, false), (1, true), (255, true)];

// How many of these crashes leave what opens.
fn opening_after(alloc: Global, keeper: &JournalKeeper<MemoryDisk>) -> Result<usize, AllocError> {
    let mut count = 0usize;
    for (byte, grown) in CRASHES.iter() {
        if opens_after(alloc, keeper, *byte, *grown)? {
            count = count.saturating_add(1);
        }
    }
    Ok(count)
}

// Whether the store of the first version opens where one call of the disk fails, and how many of the crashes then leave what opens.
fn brought_over(alloc: Global, failing: u64) -> Result<(bool, usize), AllocError> {
    let (is_open, keeper) = opened(alloc, journal_of(alloc, &FIRST)?, failing)?;
    Ok((is_open, opening_after(alloc, &keeper)?))
}

// The disk is called six times: a sync and a read, and a write and a sync of the record and of the gate byte.
#[test]
fn a_store_is_brought_over_after_each_crash(rt: HostRuntime) -> Result<(), AllocError> {
    for failing in 1..8u64 {
        assert_eq!(rt; brought_over(rt.alloc(), failing)?, (failing > 6, 5));
    }
    Ok(())
}

// What was answered, in a word or two.
fn told(call: &Call) -> &'static str {
    match call {
        Call::Load(Loaded::Rows(rows)) => { if rows.is_empty() { "no rows" } else { "rows" } }
        Call::Load(_) => "no load",
        Call::Commit(_, Committed::Kept) => "kept",
        Call::Commit(_, _) => "failed",
    }
}

// Puts a load and a commit behind the orders so far.
fn push_round(alloc: Global, orders: &mut Vec<Order>) -> Result<(), AllocError> {
    let batch = batch_of(alloc, &FIRST)?;
    orders.push(Order::Load)?;
    orders.push(Order::Commit(batch))?;
    Ok(())
}

// Two rounds, and a load.
fn orders(alloc: Global) -> Result<Vec<Order>, AllocError> {
    let mut orders = Vec::new(alloc);
    push_round(alloc, &mut orders)?;
    push_round(alloc, &mut orders)?;
    orders.push(Order::Load)?;
    Ok(orders)
}

// What these orders come to over an empty disk, of which the sixth call fails.
fn calls(alloc: Global) -> Result<Vec<Call>, AllocError> {
    let orders = orders(alloc)?;
    let disk = MemoryDisk::new(Vec::new(alloc), vec![in alloc; 6]?);
    let mut keeper = JournalKeeper::over(disk);
    run(alloc, &mut keeper, orders)
}

// The sixth call of the disk is in the first commit.
#[test]
fn a_run_goes_on_after_a_commit_that_failed(rt: HostRuntime) -> Result<(), AllocError> {
    let calls = calls(rt.alloc())?;
    let wanted = ["no rows", "failed", "no rows", "kept", "rows"];
    assert_eq!(rt; calls.len(), wanted.len());
    for (call, wanted) in calls.iter().zip(wanted.iter()) {
        assert_eq!(rt; told(call), *wanted);
    }
    Ok(())
}
