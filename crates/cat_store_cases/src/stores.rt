//! Stores with their candidates, or the row that is wrong.
use crate::fault::Fault;
use crate::rows::table_named;
use cat_case::case::Case;
use cat_case::shown::{push_counted, push_texts, push_word};
use cat_collections::map::Map;
use cat_keeper::rows::StoredRows;
use cat_keeper::table::Table;
use cat_model::types::{Origin, OrphanRule, ProviderInputs, Record, Row, State};
use cat_row_faults::first::wrong_row;
use cat_row_reader::candidate::candidate;
use cat_row_reader::types::Candidate;
use cat_tree::text::Text;
use cat_types::reference::Ref;
use cat_types::work::Output;
use std::alloc::{AllocError, Global};

// Puts a row.
fn put(
    alloc: Global,
    rows: &mut StoredRows,
    table: Table,
    key: &str,
    value: &str,
) -> Result<(), AllocError> {
    let key = Text::of(alloc, key)?;
    let value = Text::of(alloc, value)?;
    rows.put(alloc, (table, key), value)
}

// Takes a row out.
fn remove(alloc: Global, rows: &mut StoredRows, table: Table, key: &str) -> Result<(), AllocError> {
    let key = (table, Text::of(alloc, key)?);
    rows.remove(alloc, &key)
}

// Puts a row, told as a table, a key and a value between bars; one without a value goes.
fn put_row(alloc: Global, rows: &mut StoredRows, row: &str) -> Result<(), AllocError> {
    let (table, rest) = row.split_once('|').unwrap_or((row, ""));
    let table = table_named(table);
    match rest.split_once('|') {
        Some((key, value)) => put(alloc, rows, table, key, value),
        None => remove(alloc, rows, table, rest),
    }
}

// Puts the rows of lines.
fn put_lines(alloc: Global, rows: &mut StoredRows, lines: &str) -> Result<(), AllocError> {
    for row in lines.lines() {
        put_row(alloc, rows, row)?;
    }
    Ok(())
}

// Puts the rows of lines in the fields from the second on, each field over those before it.
fn put_rows(alloc: Global, rows: &mut StoredRows, case: &Case) -> Result<(), AllocError> {
    for place in 1..case.count() {
        put_lines(alloc, rows, case.step(place))?;
    }
    Ok(())
}

// Who offers a row.
fn origin_text(origin: &Origin) -> &str {
    match origin {
        Origin::Provider(name) => name.as_str(),
        Origin::Entity(reference) => reference.as_str(),
    }
}

// Puts an offer behind what stands so far.
fn push_row(out: &mut String, arrival: u64, row: &Row) -> Result<(), AllocError> {
    let origin = origin_text(&row.origin);
    let reference = row.reference.as_str();
    push_counted(out, " ", arrival)?;
    push_texts(
        out,
        &[":", origin, ">", reference, "@", row.offered.key.as_str()],
    )
}

fn push_rows(out: &mut String, state: &State) -> Result<(), AllocError> {
    for (arrival, row) in state.rows.iter() {
        push_row(out, *arrival, row)?;
    }
    Ok(())
}

// One more than the offers of an output, and 0 where there is none.
fn count_offers(output: &Option<Output>) -> u64 {
    match output {
        Some(output) => (output.offers.len() as u64).saturating_add(1),
        None => 0,
    }
}

// Puts a record behind what stands so far.
fn push_record(out: &mut String, reference: &Ref, record: &Record) -> Result<(), AllocError> {
    push_texts(out, &[" ", reference.as_str()])?;
    push_counted(out, "#", record.number)?;
    push_counted(out, "/", record.issues.len() as u64)?;
    push_counted(out, "/", count_offers(&record.output))?;
    push_counted(out, "/", record.due)
}

fn push_records(out: &mut String, state: &State) -> Result<(), AllocError> {
    for (reference, record) in state.records.iter() {
        push_record(out, reference, record)?;
    }
    Ok(())
}

// Puts a word, what stands between, and a number behind what stands so far.
fn push_numbered(
    out: &mut String,
    word: &str,
    between: &str,
    number: u64,
) -> Result<(), AllocError> {
    push_texts(out, &[" ", word])?;
    push_counted(out, between, number)
}

fn push_holders(out: &mut String, state: &State) -> Result<(), AllocError> {
    for (reference, arrival) in state.holders.iter() {
        push_numbered(out, reference.as_str(), "=", *arrival)?;
    }
    Ok(())
}

// Puts what a provider gave behind what stands so far.
fn push_inputs(out: &mut String, name: &Text, inputs: &ProviderInputs) -> Result<(), AllocError> {
    push_numbered(out, name.as_str(), ":", inputs.serial)?;
    push_counted(out, "*", inputs.items.len() as u64)
}

fn push_providers(out: &mut String, state: &State) -> Result<(), AllocError> {
    for (name, inputs) in state.providers.iter() {
        push_inputs(out, name, inputs)?;
    }
    Ok(())
}

fn push_shelf(out: &mut String, state: &State) -> Result<(), AllocError> {
    for (name, body) in state.shelf.iter() {
        push_texts(out, &[" ", name.as_str(), ":", body.as_str()])?;
    }
    Ok(())
}

fn push_orphans(out: &mut String, state: &State) -> Result<(), AllocError> {
    for (reference, orphan) in state.orphans.iter() {
        push_numbered(out, reference.as_str(), "#", orphan.number)?;
    }
    Ok(())
}

// The version of a store with these rows, by the table of the last one.
fn version_of(rows: &StoredRows) -> u64 {
    match rows.at(rows.len().saturating_sub(1)) {
        Some(row) if row.0.0.number() < Table::Settings.number() => 1,
        _ => 2,
    }
}

// The name of a rule for orphans.
fn rule_text(rule: OrphanRule) -> &'static str {
    match rule {
        OrphanRule::Keep => " keep ",
        OrphanRule::Delete => " delete ",
    }
}

// Puts a state, in short, behind what stands so far.
fn push_state(out: &mut String, state: &State) -> Result<(), AllocError> {
    push_providers(out, state)?;
    push_shelf(out, state)?;
    push_orphans(out, state)?;
    push_rows(out, state)?;
    push_records(out, state)?;
    push_holders(out, state)
}

// Puts a candidate, in short, behind what stands so far.
fn push_shown(out: &mut String, version: u64, candidate: &Candidate) -> Result<(), AllocError> {
    let state = &candidate.state;
    push_counted(out, "", version)?;
    push_counted(out, rule_text(candidate.rule), state.arrival)?;
    push_counted(out, " ", state.number)?;
    push_state(out, state)
}

// Puts a candidate, or that there is none, behind what stands so far.
fn push_candidate(
    out: &mut String,
    version: u64,
    candidate: &Option<Candidate>,
) -> Result<(), AllocError> {
    match candidate {
        Some(candidate) => push_shown(out, version, candidate),
        None => out.push_str("not read"),
    }
}

// Puts what rows are read to, in short, behind what stands so far.
fn push_read(out: &mut String, alloc: Global, rows: &StoredRows) -> Result<(), AllocError> {
    let candidate = candidate(alloc, rows)?;
    push_candidate(out, version_of(rows), &candidate)
}

// Puts the table and the key of a row behind what stands so far.
fn push_row_name(out: &mut String, table: Table, key: &Text) -> Result<(), AllocError> {
    push_word(out, table.name())?;
    push_word(out, key.as_str())
}

// Puts what rows come to, unless one of them is wrong, or else that row behind what stands so far.
fn push_judged(
    out: &mut String,
    alloc: Global,
    rows: &StoredRows,
    wrong: &Option<(Table, Text)>,
) -> Result<(), AllocError> {
    match wrong {
        Some((table, key)) => push_row_name(out, *table, key),
        None => push_read(out, alloc, rows),
    }
}

// Puts what rows come to under a limit of the input, or the row that is wrong, behind what stands so far.
fn push_opened(
    out: &mut String,
    alloc: Global,
    rows: &StoredRows,
    limit: u64,
) -> Result<(), AllocError> {
    let wrong = wrong_row(alloc, rows, limit)?;
    push_judged(out, alloc, rows, &wrong)
}

/// Puts what the rows of the fields come to under the limit of the input in the first one, or the row that is wrong, behind what
/// stands so far.
pub fn opened(out: &mut String, alloc: Global, case: &Case) -> Result<(), Fault> {
    let mut rows = Map::new();
    put_rows(alloc, &mut rows, case)?;
    push_opened(out, alloc, &rows, case.number(1)).map_err(Fault::Memory)
}
