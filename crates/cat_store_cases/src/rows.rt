//! Stored rows.
use crate::fault::Fault;
use cat_case::case::Case;
use cat_case::shown::push_texts;
use cat_keeper::table::Table;
use cat_row_format::read::read_row;
use cat_row_format::write::{RowText, write_row};
use std::alloc::{AllocError, Global};

// The table with a number, if it has this name.
fn table_at(number: u64, name: &str) -> Option<Table> {
    let table = Table::at(number)?;
    if table.name() == name {
        Some(table)
    } else {
        None
    }
}

/// The table that a name names, and that of trees where none has it.
pub fn table_named(name: &str) -> Table {
    for number in 1..9 {
        if let Some(table) = table_at(number, name) {
            return table;
        }
    }
    Table::Trees
}

// Puts the text of a row behind what stands so far.
fn push_row(out: &mut String, row: &RowText) -> Result<(), AllocError> {
    out.push_str(row.table.name())?;
    push_texts(out, &[" ", row.key.as_str(), " ", row.value.as_str()])
}

/// Puts the row of a table, a key and a value, as it is written, behind what stands so far.
pub fn spelling(out: &mut String, alloc: Global, case: &Case) -> Result<(), Fault> {
    let table = table_named(case.text(1));
    let row = read_row(alloc, table, case.text(2), case.text(3))?;
    let text = write_row(alloc, &row)?;
    push_row(out, &text).map_err(Fault::Memory)
}
