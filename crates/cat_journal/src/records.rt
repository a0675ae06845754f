//! The records of a journal, both ways.
ghost use Rattle.std.specs.Prelude.{◌≡◌, ℕ, ◌+◌, ◌<◌, ◌≤◌, ◌++◌, List, Bool, length, IfOk, OnOk};
ghost use Rattle.cat_keeper.specs.Store.{Changes, Rows, applied};
ghost use Rattle.cat_journal.specs.Batches.{batch_text, IsText};
ghost use Rattle.cat_journal.specs.Records.{gate_of, closed_record, Scans, AppliesBody, Steps};
ghost use Rattle.cat_journal.specs.Parsed.{batch_of};
ghost use Rattle.cat_journal.specs.declared.records.Scanned.{Scanned};

use crate::body::{BodyFault, Entry, changes, push_batch};
use cat_collections::map::Map;
use cat_keeper::rows::{Batch, Change, StoredRows};
use std::alloc::{AllocError, Global};

/// What a journal begins with.
pub const HEADER: [u8; 8] = *b"CATJRNL1";

/// A journal without a record: the header and a gate byte 0.
pub const BEGINNING: [u8; 9] = *b"CATJRNL1\0";

/// What stands at a gate byte.
#[derive(Clone, Copy, Drop)]
pub enum Gate {
    /// It isn't 1.
    Shut,
    /// It is 1, and behind it stand a whole record with so many bytes of body, and a gate byte.
    Open(u64),
    /// It is 1, and no such thing stands behind it.
    Broken,
}

/// What the bytes of a journal give.
#[derive(Drop)]
pub enum Scanned {
    /// The rows after its records, and the position of the gate byte at which they end.
    Found(StoredRows, u64),
    /// It is damaged at this position: that of a header that isn't one, or of a gate byte 1 with no whole record and gate byte
    /// behind it.
    Damaged(u64),
}

/// What stands at this gate byte.
pub fn gate_at(content: &[u8], at: usize) -> Gate
    requires { at < length content.now }
    ensures { result ≡ gate_of content.now at }
{
    if content[at] != 1 {
        return Gate::Shut;
    }
    let rest = &content[at + 1..];
    if rest.len() < 9 {
        return Gate::Broken;
    }
    let mut count = [0; 8];
    count.copy_from_slice(&rest[..8]);
    let count = u64::from_be_bytes(count);
    if count < (rest.len() - 8) as u64 {
        Gate::Open(count)
    } else {
        Gate::Broken
    }
}

// Makes changes to rows, one after the other.
fn change_rows(alloc: Global, rows: &mut StoredRows, changes: Vec<Entry>) -> Result<(), AllocError>
    ensures { OnOk result (rows.new ≡ applied changes.items rows.old) }
{
    for (key, change) in changes {
        match change {
            Change::Put(value) => rows.put(alloc, key, value)?,
            Change::Gone => rows.remove(alloc, &key)?,
        }
    }
    Ok(())
}

// Makes the changes of a record's body, and says whether it is the text of a batch.
fn apply_body(alloc: Global, rows: &mut StoredRows, body: &[u8]) -> Result<bool, AllocError>
    ensures { IfOk result (λ b. AppliesBody (batch_of body.now) rows.old rows.new b) }
{
    match changes(alloc, body) {
        Ok(changes) => {
            change_rows(alloc, rows, changes)?;
            Ok(true)
        }
        Err(BodyFault::NoBatch) => Ok(false),
        Err(BodyFault::NoMemory) => Err(AllocError),
    }
}

// What stands at this gate byte. Where a record of a batch does, its changes are made.
fn pass(alloc: Global, rows: &mut StoredRows, content: &[u8], at: usize) -> Result<Gate, AllocError>
    requires { at < length content.now }
    ensures { IfOk result (λ g. Steps content.now at rows.old rows.new g) }
{
    match gate_at(content, at) {
        Gate::Shut => Ok(Gate::Shut),
        Gate::Broken => Ok(Gate::Broken),
        Gate::Open(count) => {
            let rest = &content[at + 9..];
            if apply_body(alloc, rows, &rest[..count as usize])? {
                Ok(Gate::Open(count))
            } else {
                Ok(Gate::Broken)
            }
        }
    }
}

/// The rows of a journal, or where it is damaged. Content of at most 9 bytes has no rows, and its gate byte is to stand at 8.
pub fn scan(alloc: Global, content: &[u8]) -> Result<Scanned, AllocError>
    ensures { IfOk result (λ s. Scans content.now s) }
{
    if content.len() <= BEGINNING.len() {
        return Ok(Scanned::Found(Map::new(), 8));
    }
    if !content.starts_with(&HEADER) {
        return Ok(Scanned::Damaged(0));
    }
    let mut rows = Map::new();
    let mut at = 8;
    loop {
        match pass(alloc, &mut rows, content, at)? {
            Gate::Shut => return Ok(Scanned::Found(rows, at as u64)),
            Gate::Broken => return Ok(Scanned::Damaged(at as u64)),
            Gate::Open(count) => at += 9 + count as usize,
        }
    }
}

/// What is written behind a gate byte for the record of a batch: the length of its body in 8 bytes, greatest first, the body,
/// and the gate byte behind it.
pub fn record(alloc: Global, batch: &Batch) -> Result<Vec<u8>, AllocError>
    ensures text { IfOk result (λ v. v.items ≡ closed_record (batch_text batch.now)) }
    ensures spelled { OnOk result (IsText batch.now (batch_text batch.now)) }
{
    let mut body = Vec::new(alloc);
    push_batch(alloc, batch, &mut body)?;
    let mut text = Vec::with_capacity(alloc, body.len() + 9)?;
    push_record(&mut text, &body)?;
    Ok(text)
}

// Appends a body with its length before it and a gate byte 0 behind it.
fn push_record(out: &mut Vec<u8>, body: &[u8]) -> Result<(), AllocError>
    ensures { OnOk result (out.new.items ≡ out.old.items ++ closed_record body.now) }
{
    out.extend_from_slice(&(body.len() as u64).to_be_bytes())?;
    out.extend_from_slice(body)?;
    out.extend_from_slice(&[0])
}

/// Bytes are scanned in one way.
pub fn scan_is_one()
    ensures { (content : List ℕ) (a b : Scanned) → Scans content a → Scans content b → a ≡ b }
{}

/// A batch is read from its own text, and from no other bytes.
pub fn one_text()
    ensures { (body : List ℕ) (a b : Changes) → IsText a body → IsText b body → a ≡ b }
{}
