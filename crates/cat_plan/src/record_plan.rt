//! The records, orphans and numbers that follow from a change, asked of what it reaches.
ghost use Rattle.std.specs.Prelude.{◌≡◌, ◌+◌, ◌<◌, ◌≤◌, ◌^◌, ◌++◌, ◌&&◌, not, IfOk, Option, Bool, ℕ, is_none, is_some, length, option_map, option_and_then};
ghost use Rattle.std.specs.List.{filter};
ghost use Rattle.cat_collections.specs.Table.{Map, get, text_cmp};
ghost use Rattle.cat_collections.specs.Order.{in_order};
ghost use Rattle.cat_model.specs.declared.types.State.{State};
ghost use Rattle.cat_model.specs.Catalogue.{new_record, orphan_from_record, reheld, rerecorded, same_option, tickets, work};
ghost use Rattle.cat_model.specs.Sound.{AreOrdered, Sound};
ghost use Rattle.cat_plan.specs.Amended.{amended, entries_of};
ghost use Rattle.cat_plan.specs.Linked.{is_own};
ghost use Rattle.cat_plan.specs.Following.{draws, given_number, kept_put, orphan_goes, orphan_now, orphan_put, orphan_then, own_reference, own_refs, record_goes, record_put, record_then};
ghost use Rattle.cat_plan.specs.Made.{AreReached, IsMade, state_held};

use crate::amended::{Amendment, count_of, entries_of, numbered};
use crate::build::{Gives, Passes, filtered};
use crate::change::{Change, is_own, orphan_then, reached, record_then};
use crate::hold::{is_held, row_of};
use crate::layers::Layers;
use crate::orphan_plan::plan_orphans;
use crate::parts::{same_option_work, work_of};
use cat_collections::listing::{Copied, Listing};
use cat_model::types::{Orphan, Record};
use cat_types::entries::Entries;
use cat_types::reference::Ref;
use cat_types::work::Work;
use std::alloc::{AllocError, Global};

/// The records and orphans that a change puts and takes out, and the next number after it.
#[derive(Drop)]
pub struct RecordPlan {
    pub records: Amendment<Record>,
    pub orphans: Amendment<Orphan>,
    pub number: u64,
}

// ---- numbers

#[derive(Drop)]
struct DrawsNumber<'a> {
    change: &'a Change<'a>,
}

impl Passes<Ref> for DrawsNumber<'_> {
    ghost passes = { λ s r. draws s.change.now.own.now s.change.now.m.now s.change.now.holders.now r };

    fn test(&self, _alloc: Global, key: &Ref) -> Result<bool, AllocError> {
        let change = self.change;
        let draws = is_held(change.holders, key)
            && (record_then(change, key).is_none() && orphan_then(change, key).is_none());
        Ok(draws)
    }
}

// The number of a new record: its orphan's, or else the one drawn.
fn given_number(orphan: Option<&Orphan>, drawn: Option<&u64>) -> Option<u64>
    ensures { result ≡ given_number (option_map (λ x. x.now) orphan.entry) (option_map (λ x. x.now) drawn.entry) }
{
    match orphan {
        None => drawn.copied(),
        Some(orphan) => Some(orphan.number),
    }
}

// ---- records

// The work of a reference after the change.
fn work_after<L: Layers>(
    alloc: Global,
    layers: &L,
    change: &Change<'_>,
    reference: &Ref,
) -> Result<Option<Work>, AllocError>
    ensures { IfOk result (λ w. w ≡ work L.rules (state_held change.now) reference.now) }
{
    match row_of(change.rows, change.holders, reference) {
        None => Ok(None),
        Some(row) => {
            let tree = row.offered.tree.duplicate(alloc)?;
            let contents = layers.contents(alloc, &tree, change.shelf)?;
            Ok(Some(Work { tree, contents }))
        }
    }
}

// Whether a reference has the same work before and after the change.
fn has_same_work<L: Layers>(
    alloc: Global,
    layers: &L,
    change: &Change<'_>,
    reference: &Ref,
) -> Result<bool, AllocError>
    ensures { IfOk result (λ b. b ≡ same_option L.rules.same_work (work L.rules change.now.m.now reference.now)
        (work L.rules (state_held change.now) reference.now)) }
{
    let before = work_of(alloc, layers, change.m, reference)?;
    let after = work_after(alloc, layers, change, reference)?;
    Ok(same_option_work(layers, &before, &after))
}

// A record that is new and due at once.
fn new_record(alloc: Global, number: u64) -> Record
    ensures { result ≡ new_record number }
{
    Record {
        number,
        output: None,
        issues: Listing::new(alloc),
        due: 0,
        lease: None,
    }
}

// The record to put in place of one that stays, if any.
fn kept_put(
    alloc: Global,
    own: bool,
    same: bool,
    before: &Record,
) -> Result<Option<Record>, AllocError>
    ensures { IfOk result (λ x. x ≡ kept_put own same before.now) }
{
    if same && !own {
        return Ok(None);
    }
    let mut record = before.duplicate(alloc)?;
    if !same {
        record.due = 0;
        record.lease = None;
    }
    Ok(Some(record))
}

#[derive(Drop)]
struct RecordPut<'l, 'c, 'n, L> {
    layers: &'l L,
    change: &'c Change<'c>,
    numbers: &'n Entries<Ref, u64>,
}

impl<L: Layers> Gives<Ref, Record> for RecordPut<'_, '_, '_, L> {
    ghost gives = { λ s r. record_put L.rules s.change.now.own.now s.numbers.now s.change.now.m.now
        (state_held s.change.now) r };

    fn give(&self, alloc: Global, key: &Ref) -> Result<Option<Record>, AllocError> {
        let change = self.change;
        if !is_held(change.holders, key) {
            return Ok(None);
        }
        match record_then(change, key) {
            None => {
                let number = given_number(orphan_then(change, key), self.numbers.get(key));
                match number {
                    None => Ok(None),
                    Some(number) => Ok(Some(new_record(alloc, number))),
                }
            }
            Some(record) => {
                let same = has_same_work(alloc, self.layers, change, key)?;
                kept_put(alloc, is_own(change, key), same, record)
            }
        }
    }
}

#[derive(Drop)]
struct RecordGoes<'a> {
    change: &'a Change<'a>,
}

impl Passes<Ref> for RecordGoes<'_> {
    ghost passes = { λ s r. record_goes s.change.now.m.now s.change.now.holders.now r };

    fn test(&self, _alloc: Global, key: &Ref) -> Result<bool, AllocError> {
        Ok(!is_held(self.change.holders, key) && self.change.m.records.get(key).is_some())
    }
}

// The records that the change puts and takes out, where these are what it reaches and these the numbers drawn.
fn records<L: Layers>(
    alloc: Global,
    layers: &L,
    change: &Change<'_>,
    numbers: &Entries<Ref, u64>,
    reached: &[Ref],
) -> Result<Amendment<Record>, AllocError>
    ensures put { IfOk result (λ x. x.put.items ≡ entries_of (record_put L.rules change.now.own.now numbers.now change.now.m.now
        (state_held change.now)) reached.now) }
    ensures gone { IfOk result (λ x. x.gone ≡ filter (record_goes change.now.m.now change.now.holders.now) reached.now) }
{
    let to_put = RecordPut {
        layers,
        change,
        numbers,
    };
    let put = entries_of(alloc, reached, &to_put)?;
    let gone = filtered(alloc, reached, &RecordGoes { change })?;
    Ok(Amendment { put, gone })
}

/// The records, orphans and numbers that follow from a change. The only refusal is want of memory.
pub fn plan_records<L: Layers>(
    alloc: Global,
    layers: &L,
    change: &Change<'_>,
) -> Result<RecordPlan, AllocError>
    requires number { change.now.m.now.number ≤ 2 ^ 59 }
    requires sound { Sound L.rules change.now.m.now }
    requires ordered { AreOrdered change.now.m.now }
    requires reach { AreReached L.rules change.now }
    ensures records { IfOk result (λ x. (n : State) → IsMade change.now n
        → amended x.records.put.items x.records.gone change.now.m.now.records ≡ (rerecorded L.rules change.now.how change.now.m.now n (reheld n)).records) }
    ensures orphans { IfOk result (λ x. (n : State) → IsMade change.now n
        → amended x.orphans.put.items x.orphans.gone change.now.m.now.orphans ≡ (rerecorded L.rules change.now.how change.now.m.now n (reheld n)).orphans) }
    ensures number { IfOk result (λ x. (n : State) → IsMade change.now n
        → x.number ≡ (rerecorded L.rules change.now.how change.now.m.now n (reheld n)).number) }
{
    let all = reached(alloc, change, change.touched)?;
    let drawn = filtered(alloc, all.as_slice(), &DrawsNumber { change })?;
    let count = count_of(drawn.as_slice()) as u64;
    let entries = numbered(alloc, change.m.number, drawn.as_slice())?;
    let numbers = Entries::from_vec(entries);
    let records = records(alloc, layers, change, &numbers, all.as_slice())?;
    let orphans = plan_orphans(alloc, change, all.as_slice())?;
    Ok(RecordPlan {
        records,
        orphans,
        number: change.m.number + count,
    })
}
