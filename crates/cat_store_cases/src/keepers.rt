//! Commits of a keeper in memory of which one call fails.
use crate::fault::Fault;
use crate::rows::table_named;
use cat_case::case::Case;
use cat_case::shown::{push_texts, truth_text};
use cat_collections::map::Map;
use cat_keeper::keeper::{Committed, Keeper, Loaded, Place};
use cat_keeper::memory::MemoryKeeper;
use cat_keeper::rows::{Batch, Change, StoredRows};
use cat_keeper::table::Table;
use cat_tree::text::Text;
use std::alloc::{AllocError, Global};

// Puts the change of a row.
fn put_change(
    alloc: Global,
    batch: &mut Batch,
    table: Table,
    key: &str,
    change: Change,
) -> Result<(), AllocError> {
    let key = Text::of(alloc, key)?;
    batch.put(alloc, (table, key), change)
}

// Puts the change of a line: a table, a key and a value between bars, or without a value where the row goes.
fn put_line(alloc: Global, batch: &mut Batch, line: &str) -> Result<(), AllocError> {
    let (table, rest) = line.split_once('|').unwrap_or((line, ""));
    let table = table_named(table);
    match rest.split_once('|') {
        Some((key, value)) => {
            let change = Change::Put(Text::of(alloc, value)?);
            put_change(alloc, batch, table, key, change)
        }
        None => put_change(alloc, batch, table, rest, Change::Gone),
    }
}

// Puts the changes of lines.
fn put_lines(alloc: Global, batch: &mut Batch, lines: &str) -> Result<(), AllocError> {
    for line in lines.lines() {
        put_line(alloc, batch, line)?;
    }
    Ok(())
}

// Puts a row, as `items a=1;`, behind what stands so far.
fn push_row(out: &mut String, table: Table, key: &Text, value: &Text) -> Result<(), AllocError> {
    out.push_str(table.name())?;
    push_texts(out, &[" ", key.as_str(), "=", value.as_str(), ";"])
}

fn push_rows(out: &mut String, rows: &StoredRows) -> Result<(), AllocError> {
    for row in rows.iter() {
        push_row(out, row.0.0, &row.0.1, &row.1)?;
    }
    Ok(())
}

// Puts the rows that a load gives, or its refusal, behind what stands so far.
fn push_loaded(out: &mut String, loaded: &Loaded) -> Result<(), AllocError> {
    match loaded {
        Loaded::Rows(rows) => push_rows(out, rows),
        Loaded::Failed => out.push_str("failed"),
        Loaded::NoMemory => Err(AllocError),
    }
}

// Puts what a load gives behind what stands so far.
fn push_load(out: &mut String, alloc: Global, keeper: &mut MemoryKeeper) -> Result<(), AllocError> {
    let loaded = keeper.load(alloc, &Place::Nowhere);
    push_loaded(out, &loaded)
}

// Puts whether a batch is kept, and what a load gives then, behind what stands so far.
fn push_commit(
    out: &mut String,
    alloc: Global,
    keeper: &mut MemoryKeeper,
    batch: &Batch,
) -> Result<(), AllocError> {
    let kept = keeper.commit(alloc, batch) == Committed::Kept;
    push_texts(out, &[truth_text(kept), " "])?;
    push_load(out, alloc, keeper)?;
    out.push_str("|")
}

// Puts what comes of a commit of the changes of lines behind what stands so far.
fn push_step(
    out: &mut String,
    alloc: Global,
    keeper: &mut MemoryKeeper,
    lines: &str,
) -> Result<(), AllocError> {
    let mut batch = Map::new();
    put_lines(alloc, &mut batch, lines)?;
    push_commit(out, alloc, keeper, &batch)
}

fn push_steps(
    out: &mut String,
    alloc: Global,
    keeper: &mut MemoryKeeper,
    case: &Case,
) -> Result<(), AllocError> {
    for step in 1..case.count() {
        push_step(out, alloc, keeper, case.step(step))?;
    }
    Ok(())
}

/// Puts whether the batch of each field from the second on is kept, and what a load gives then, where the call of the first field
/// fails, behind what stands so far.
pub fn committed(out: &mut String, alloc: Global, case: &Case) -> Result<(), Fault> {
    let failing = vec![in alloc; case.number(1)]?;
    let mut keeper = MemoryKeeper::new(Map::new(), failing);
    push_steps(out, alloc, &mut keeper, case).map_err(Fault::Memory)
}
