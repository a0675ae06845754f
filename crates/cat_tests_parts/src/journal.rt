//! A journal as bytes, and what a load of it gives.
use cat_collections::map::Map;
use cat_disk::MemoryDisk;
use cat_journal::keeper::JournalKeeper;
use cat_keeper::keeper::{Committed, Keeper, Loaded, Place};
use cat_keeper::rows::{Batch, Change, StoredRows};
use cat_keeper::table::Table;
use cat_tree::text::Text;
use std::alloc::{AllocError, Global};

// Puts a row behind those so far, as `shelf file:/a="{}";`.
fn push_row(text: &mut String, table: Table, key: &str, value: &str) -> Result<(), AllocError> {
    text.push_str(table.name())?;
    text.push_str(" ")?;
    text.push_str(key)?;
    text.push_str("=")?;
    text.push_str(value)?;
    text.push_str(";")
}

// Rows in one text.
pub(crate) fn shown(alloc: Global, rows: &StoredRows) -> Result<String, AllocError> {
    let mut text = String::new(alloc);
    for row in rows.iter() {
        push_row(&mut text, row.0.0, row.0.1.as_str(), row.1.as_str())?;
    }
    Ok(text)
}

// The rows that a load over these bytes gives, in one text.
fn loaded(alloc: Global, bytes: &[u8]) -> Result<String, AllocError> {
    let disk = MemoryDisk::new(bytes.to_vec(alloc)?, Vec::new(alloc));
    let mut keeper = JournalKeeper::over(disk);
    let loaded = keeper.load(alloc, &Place::Nowhere);
    drop(keeper);
    match loaded {
        Loaded::Rows(rows) => {
            let text = shown(alloc, &rows);
            drop(rows);
            text
        }
        Loaded::Failed => String::from_str(alloc, "failed"),
        Loaded::NoMemory => String::from_str(alloc, "no memory"),
    }
}

// What puts one text on the shelf.
fn batch(alloc: Global) -> Result<Batch, AllocError> {
    let mut batch: Batch = Map::new();
    let key = (Table::Shelf, Text::of(alloc, "file:/a")?);
    batch.put(alloc, key, Change::Put(Text::of(alloc, "\"{}\"")?))?;
    Ok(batch)
}

// A journal of that batch: its first bytes, the gate byte, the length, the record, and the gate byte behind it.
const JOURNAL: &[u8] = b"CATJRNL1\x01\0\0\0\0\0\0\0\x18[[4,\"file:/a\",\"\\\"{}\\\"\"]]\0";

// What a commit of that batch comes to before a load, and after it.
fn committed(
    alloc: Global,
    keeper: &mut JournalKeeper<MemoryDisk>,
) -> Result<[Committed; 2], AllocError> {
    let batch = batch(alloc)?;
    let early = keeper.commit(alloc, &batch);
    let _rows = keeper.load(alloc, &Place::Nowhere);
    Ok([early, keeper.commit(alloc, &batch)])
}

// The same over an empty disk, and whether a crash leaves that journal then.
fn kept(alloc: Global) -> Result<([Committed; 2], bool), AllocError> {
    let disk = MemoryDisk::new(Vec::new(alloc), Vec::new(alloc));
    let mut keeper = JournalKeeper::over(disk);
    let answers = committed(alloc, &mut keeper)?;
    let left = keeper.disk().crash(7, true)?;
    Ok((answers, left.as_slice() == JOURNAL))
}

#[test]
fn a_batch_is_kept_in_a_journal(rt: HostRuntime) -> Result<(), AllocError> {
    assert_eq!(rt;
        kept(rt.alloc())?,
        ([Committed::Failed, Committed::Kept], true)
    );
    Ok(())
}

// How many bytes of the journal are there, and what a load of them gives.
const FRONTS: [(usize, &str); 3] = [
    (42, "shelf file:/a=\"{}\";"),
    (41, "counters arrival=1;counters journal 8=;"),
    (9, ""),
];

#[test]
fn fronts_of_a_journal_are_loaded(rt: HostRuntime) -> Result<(), AllocError> {
    for (length, rows) in FRONTS.iter() {
        let front = JOURNAL.get(..*length).unwrap_or(&[]);
        assert_eq!(rt; loaded(rt.alloc(), front)?.as_str(), *rows);
    }
    Ok(())
}
