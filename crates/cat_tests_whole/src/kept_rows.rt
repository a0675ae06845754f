//! The rows of one store, in both versions, and sessions over keepers.
use cat_collections::map::Map;
use cat_io::{MemorySink, MemorySource};
use cat_keeper::keeper::{Keeper, Loaded, Place};
use cat_keeper::memory::MemoryKeeper;
use cat_keeper::rows::{Batch, Change, StoredRows, apply};
use cat_keeper::table::Table;
use cat_stored_session::{Ran, run_stored};
use cat_tree::text::Text;
use std::alloc::{AllocError, Global};

/// A row: its table, its key and its value.
pub type Row = (Table, &'static str, &'static str);

/// A store of the first version, in which a provider gave one Component.
pub const FIRST: [Row; 5] = [
    (Table::Counters, "arrival", "2"),
    (Table::Counters, "number", "2"),
    (Table::Providers, "git", "{\"serial\":1}"),
    (
        Table::Items,
        "git component:default/web",
        "{\"arrival\":1,\"key\":\"provider:git\",\"tree\":{\"apiVersion\":\"backstage.io/v1alpha1\",\"kind\":\"Component\",\"metadata\":{\"name\":\"web\"},\"spec\":{\"lifecycle\":\"production\",\"owner\":\"a\",\"type\":\"service\"}}}",
    ),
    (
        Table::Records,
        "component:default/web",
        "{\"holder\":1,\"issues\":[],\"number\":1,\"output\":null}",
    ),
];

/// The same store in the second version.
pub const SECOND: [Row; 7] = [
    (Table::Counters, "arrival", "2"),
    (Table::Counters, "number", "2"),
    (Table::Providers, "git", "{\"serial\":1}"),
    (
        Table::Items,
        "git component:default/web",
        "{\"arrival\":1,\"key\":\"provider:git\"}",
    ),
    (
        Table::Records,
        "component:default/web",
        "{\"holder\":1,\"issues\":[],\"number\":1,\"output\":null}",
    ),
    (
        Table::Settings,
        "store",
        "{\"orphans\":\"keep\",\"version\":2}",
    ),
    (
        Table::Trees,
        "0000000000000001",
        "{\"apiVersion\":\"backstage.io/v1alpha1\",\"kind\":\"Component\",\"metadata\":{\"name\":\"web\"},\"spec\":{\"lifecycle\":\"production\",\"owner\":\"a\",\"type\":\"service\"}}",
    ),
];

// Puts a row.
fn put_row(alloc: Global, batch: &mut Batch, row: &Row) -> Result<(), AllocError> {
    let key = (row.0, Text::of(alloc, row.1)?);
    batch.put(alloc, key, Change::Put(Text::of(alloc, row.2)?))
}

/// What puts these rows.
pub fn batch_of(alloc: Global, rows: &[Row]) -> Result<Batch, AllocError> {
    let mut batch = Map::new();
    for row in rows.iter() {
        put_row(alloc, &mut batch, row)?;
    }
    Ok(batch)
}

/// Whether these are just the given rows, in their order.
pub fn same(rows: &StoredRows, wanted: &[Row]) -> bool {
    if rows.len() != wanted.len() {
        return false;
    }
    for (row, (table, key, value)) in rows.iter().zip(wanted.iter()) {
        if row.0.0 != *table || row.0.1.as_str() != *key || row.1.as_str() != *value {
            return false;
        }
    }
    true
}

/// Whether a keeper gives just these rows.
pub fn gives<K: Keeper>(alloc: Global, keeper: &mut K, wanted: &[Row]) -> bool {
    match keeper.load(alloc, &Place::Nowhere) {
        Loaded::Rows(rows) => same(&rows, wanted),
        Loaded::Failed | Loaded::NoMemory => false,
    }
}

/// A keeper in memory of these rows, of which one call fails.
pub fn memory_keeper(
    alloc: Global,
    rows: &[Row],
    failing: u64,
) -> Result<MemoryKeeper, AllocError> {
    let batch = batch_of(alloc, rows)?;
    let failing = vec![in alloc; failing]?;
    Ok(MemoryKeeper::new(apply(alloc, &Map::new(), &batch)?, failing))
}

/// A sink in memory that takes 1,000 bytes at once.
pub fn sink(alloc: Global) -> MemorySink {
    MemorySink::new(1_000, Vec::new(alloc))
}

/// How a session of these lines ends over a keeper, and the keeper.
pub fn session_over<K: Keeper>(
    alloc: Global,
    keeper: K,
    lines: Vec<u8>,
    sink: &mut MemorySink,
) -> Ran<K> {
    let mut source = MemorySource::new(lines, 1_000, Vec::new(alloc));
    run_stored(alloc, None, Place::Nowhere, keeper, &mut source, sink)
}

/// The same, and whether the session writes just this.
pub fn session_writes<K: Keeper>(
    alloc: Global,
    keeper: K,
    lines: Vec<u8>,
    wanted: &[u8],
) -> (Ran<K>, bool) {
    let mut sink = sink(alloc);
    let ran = session_over(alloc, keeper, lines, &mut sink);
    (ran, sink.written() == wanted)
}
