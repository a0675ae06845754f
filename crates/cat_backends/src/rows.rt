//! The rows of a store as rows of a table of SQLite.
ghost use Rattle.std.specs.Prelude.{◌≡◌, OnErr};
ghost use Rattle.sqlite.specs.Held.{state};
ghost use Rattle.cat_backends.specs.Kept.{CommitsNothing};

use crate::refusal::Refusal;
use cat_collections::map::{Map, rise};
use cat_collections::tree::MOST;
use cat_keeper::rows::{Batch, Change, StoredRows};
use cat_keeper::table::Table;
use cat_tree::text::Text;
use sqlite::types::ValueRef;
use sqlite::{Alter, Connection, Row, Transaction, params};
use std::alloc::Global;

/// Makes the table of the rows, where there is none.
const MAKE: &str =
    "CREATE TABLE IF NOT EXISTS cat_rows (tab INTEGER, key TEXT, value TEXT, PRIMARY KEY (tab, key))";

/// Gives all rows, in order of the tables and, in a table, by the bytes of the keys.
const ALL: &str = "SELECT tab, key, value FROM cat_rows ORDER BY tab, key";

/// Gives a row its value, whether it was there or not.
const PUT: &str =
    "INSERT INTO cat_rows (tab, key, value) VALUES (?1, ?2, ?3) ON CONFLICT (tab, key) DO UPDATE SET value = excluded.value";

/// Takes a row away.
const TAKE: &str = "DELETE FROM cat_rows WHERE tab = ?1 AND key = ?2";

// What stands in a row of the table.
fn entry_of(row: &Row) -> Result<((Table, Text), Text), Refusal> {
    let Some(table) = Table::at(row.get(0)?) else {
        return Err(Refusal::Failed);
    };
    let key = Text::from_string(row.get(1)?);
    let value = Text::from_string(row.get(2)?);
    Ok(((table, key), value))
}

// What stands in all rows of the table, in the order in which they come.
fn entries<S: Alter>(
    alloc: Global,
    connection: &mut Connection<S>,
) -> Result<Vec<((Table, Text), Text)>, Refusal> {
    let mut entries = Vec::new(alloc);
    let mut rows = connection.query(ALL, &[])?;
    for _ in 0..u64::MAX {
        let Some(row) = rows.next()? else {
            return Ok(entries);
        };
        entries.push(entry_of(row)?)?;
    }
    Err(Refusal::Failed)
}

/// The rows of the database, whose table is made if it isn't there.
pub fn load_rows<S: Alter>(
    alloc: Global,
    connection: &mut Connection<S>,
) -> Result<StoredRows, Refusal> {
    connection.execute(MAKE, &[])?;
    let entries = entries(alloc, connection)?;
    if entries.len() > MOST || !rise(entries.as_slice()) {
        return Err(Refusal::Failed);
    }
    Ok(Map::from_vec(alloc, entries)?)
}

// Runs a statement that is no query.
fn run<S: Alter>(
    transaction: &mut Transaction<'_, S>,
    sql: &str,
    params: &[ValueRef<'_>],
) -> Result<(), Refusal>
    ensures same_reference { transaction.new.conn.ghost_name ≡ transaction.old.conn.ghost_name }
    ensures kept { CommitsNothing (state S.Store transaction.old.conn.now) (state S.Store transaction.new.conn.now) }
{
    transaction.execute(sql, params)?;
    Ok(())
}

// Makes one change.
fn change_row<S: Alter>(
    transaction: &mut Transaction<'_, S>,
    key: &(Table, Text),
    change: &Change,
) -> Result<(), Refusal>
    ensures same_reference { transaction.new.conn.ghost_name ≡ transaction.old.conn.ghost_name }
    ensures kept { CommitsNothing (state S.Store transaction.old.conn.now) (state S.Store transaction.new.conn.now) }
{
    let number = i64::from(key.0.number());
    let name = key.1.as_str();
    match change {
        Change::Put(value) => run(transaction, PUT, params![number, name, value.as_str()]),
        Change::Gone => run(transaction, TAKE, params![number, name]),
    }
}

// Makes all changes of a batch, up to the first that is refused.
fn change_rows<S: Alter>(transaction: &mut Transaction<'_, S>, batch: &Batch) -> Result<(), Refusal>
    ensures same_reference { transaction.new.conn.ghost_name ≡ transaction.old.conn.ghost_name }
    ensures kept { CommitsNothing (state S.Store transaction.old.conn.now) (state S.Store transaction.new.conn.now) }
{
    run(transaction, MAKE, &[])?;
    for entry in batch.iter() {
        change_row(transaction, &entry.0, &entry.1)?;
    }
    Ok(())
}

/// Makes all changes of a batch in one transaction, which is rolled back where one of them is refused.
pub fn commit_rows<S: Alter>(connection: &mut Connection<S>, batch: &Batch) -> Result<(), Refusal>
    ensures unmade { OnErr result (CommitsNothing (state S.Store connection.old) (state S.Store connection.new)) }
{
    if !connection.is_autocommit() {
        return Err(Refusal::Failed);
    }
    let mut transaction = connection.transaction();
    change_rows(&mut transaction, batch)?;
    transaction.commit()?;
    Ok(())
}
