//! Whether a candidate is a state without leases, marks and documents, in which all is due.
ghost use Rattle.std.specs.Prelude.{◌≡◌, ◌&&◌, IfOk, is_none, nat_eq};
ghost use Rattle.std.specs.List.{list_all};
ghost use Rattle.cat_state_check.specs.Candidate as spec;

use crate::holders::are_right_holders;
use crate::numbers::{Names, is_right_number, names_of};
use crate::offers::{RowIndex, are_all_items_shown, are_offers_shown, are_right_rows, index_of};
use cat_model::types::{Orphan, Record, State};
use cat_plan::hold::is_held;
use cat_types::reference::Ref;
use std::alloc::{AllocError, Global};

const MOST: u64 = 1 << 59;

// Whether a record is due at once, and free.
fn is_due(kept: &Record) -> bool
    ensures { result ≡ (nat_eq kept.now.due 0 && is_none kept.now.lease) }
{
    kept.due == 0 && kept.lease.is_none()
}

fn is_right_record(
    m: &State,
    index: &RowIndex,
    names: &Names,
    reference: &Ref,
    kept: &Record,
) -> bool
    ensures { result ≡ spec.is_right_record m.now index.now names.now (reference.now, kept.now) }
{
    is_due(kept)
        && is_held(&m.holders, reference)
        && is_right_number(m.number, names, kept.number, reference)
        && are_offers_shown(&m.rows, index, reference, &kept.output)
}

fn are_right_records(m: &State, index: &RowIndex, names: &Names) -> bool
    ensures { result ≡ list_all (spec.is_right_record m.now index.now names.now) m.now.records }
{
    for (reference, kept) in m.records.iter() {
        if !is_right_record(m, index, names, reference, kept) {
            return false;
        }
    }
    true
}

fn is_right_orphan(m: &State, names: &Names, reference: &Ref, orphan: &Orphan) -> bool
    ensures { result ≡ spec.is_right_orphan m.now names.now (reference.now, orphan.now) }
{
    !is_held(&m.holders, reference) && is_right_number(m.number, names, orphan.number, reference)
}

fn are_right_orphans(m: &State, names: &Names) -> bool
    ensures { result ≡ list_all (spec.is_right_orphan m.now names.now) m.now.orphans }
{
    for (reference, orphan) in m.orphans.iter() {
        if !is_right_orphan(m, names, reference, orphan) {
            return false;
        }
    }
    true
}

fn are_tables_sorted(m: &State) -> bool
    ensures { result ≡ spec.are_tables_sorted m.now }
{
    m.rows.in_order();
    m.holders.in_order();
    m.records.in_order();
    m.orphans.in_order();
    true
}

fn is_bare(m: &State) -> bool
    ensures { result ≡ spec.is_bare m.now }
{
    m.marks.len() == 0 && m.documents.len() == 0 && m.token == 1 && m.ticket == 1
}

fn are_counters_right(m: &State) -> bool
    ensures { result ≡ spec.are_counters_right m.now }
{
    1 <= m.arrival && m.arrival <= MOST && 1 <= m.number && m.number <= MOST
}

fn is_all_right(m: &State, index: &RowIndex, names: &Names) -> bool
    ensures { result ≡ spec.is_all_right m.now index.now names.now }
{
    are_right_rows(m, index)
        && are_right_holders(m)
        && are_right_records(m, index, names)
        && are_right_orphans(m, names)
        && are_all_items_shown(m, index)
}

fn is_framed(m: &State) -> bool
    ensures { result ≡ (spec.is_bare m.now && spec.are_counters_right m.now && spec.are_tables_sorted m.now) }
{
    is_bare(m) && are_counters_right(m) && are_tables_sorted(m)
}

/// Whether a candidate is a state without leases, marks and documents, in which all is due. The only refusal is want of memory.
#[tactic(auto, unfolding(crate::specs::Candidate::is_candidate))]
pub fn is_candidate(alloc: Global, m: &State) -> Result<bool, AllocError>
    ensures { IfOk result (λ b. b ≡ spec.is_candidate m.now) }
{
    if !is_framed(m) {
        return Ok(false);
    }
    let index = index_of(alloc, &m.rows)?;
    let names = names_of(alloc, m)?;
    Ok(is_all_right(m, &index, &names))
}
