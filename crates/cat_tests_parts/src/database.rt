//! Rows in a database in memory, and what a load of them gives.
use crate::journal::shown;
use cat_backends::sql::SqlKeeper;
use cat_collections::map::Map;
use cat_keeper::keeper::{Keeper, Loaded, Place};
use cat_keeper::rows::{Batch, Change};
use cat_keeper::table::Table;
use cat_tree::text::Text;
use sqlite::{Connection, MemStore};
use std::alloc::{AllocError, Global};

// The rows that a keeper gives, in one text.
fn loaded(alloc: Global, keeper: &mut SqlKeeper<MemStore>) -> Result<String, AllocError> {
    match keeper.load(alloc, &Place::Nowhere) {
        Loaded::Rows(rows) => shown(alloc, &rows),
        Loaded::Failed => String::from_str(alloc, "failed"),
        Loaded::NoMemory => String::from_str(alloc, "no memory"),
    }
}

// What puts a counter and a text on the shelf.
fn first(alloc: Global) -> Result<Batch, AllocError> {
    let mut batch: Batch = Map::new();
    let counter = (Table::Counters, Text::of(alloc, "arrival")?);
    batch.put(alloc, counter, Change::Put(Text::of(alloc, "2")?))?;
    let shelf = (Table::Shelf, Text::of(alloc, "file:/a")?);
    batch.put(alloc, shelf, Change::Put(Text::of(alloc, "\"{}\"")?))?;
    Ok(batch)
}

// What gives the counter another value, and takes the text away.
fn second(alloc: Global) -> Result<Batch, AllocError> {
    let mut batch: Batch = Map::new();
    let counter = (Table::Counters, Text::of(alloc, "arrival")?);
    batch.put(alloc, counter, Change::Put(Text::of(alloc, "3")?))?;
    let shelf = (Table::Shelf, Text::of(alloc, "file:/a")?);
    batch.put(alloc, shelf, Change::Gone)?;
    Ok(batch)
}

// What stands in the database after each batch.
fn kept(alloc: Global) -> Result<(String, String), AllocError> {
    let mut keeper = SqlKeeper::over(Connection::open_in_memory(alloc)?);
    let _first = keeper.commit(alloc, &first(alloc)?);
    let after_first = loaded(alloc, &mut keeper)?;
    let _second = keeper.commit(alloc, &second(alloc)?);
    Ok((after_first, loaded(alloc, &mut keeper)?))
}

#[test]
fn rows_of_a_database_have_their_keys_and_values(rt: HostRuntime) -> Result<(), AllocError> {
    let (first, second) = kept(rt.alloc())?;
    assert_eq!(rt; first.as_str(), "counters arrival=2;shelf file:/a=\"{}\";");
    assert_eq!(rt; second.as_str(), "counters arrival=3;");
    Ok(())
}
