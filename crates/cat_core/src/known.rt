//! What is asked of the references that are known, without memory.
ghost use Rattle.std.specs.Prelude.{◌≡◌, option_map, nat_eq};
ghost use Rattle.cat_collections.specs.Table.{first, keys, text_cmp};
ghost use Rattle.cat_model.specs.Reply.{comes_after, next_known};
ghost use Rattle.cat_model.specs.Step.{ref_at};
ghost use Rattle.cat_core.specs.Least.{lesser_of};
ghost use Rattle.cat_core.specs.Numbered.{AreApart, key_where};

use cat_collections::key::Key;
use cat_collections::map::Map;
use cat_model::records::Records;
use cat_model::types::{Orphan, State};
use cat_types::reference::Ref;
use std::cmp::Ordering;

// The reference of the record with this number.
fn record_numbered(records: &Records, number: u64) -> Option<&Ref>
    ensures { option_map (λ r. r.now) result ≡ key_where (λ x. nat_eq number x.number) records.now }
{
    for (reference, kept) in records.iter() {
        if number == kept.number {
            return Some(reference);
        }
    }
    None
}

// The reference of the orphan with this number.
fn orphan_numbered(orphans: &Map<Ref, Orphan>, number: u64) -> Option<&Ref>
    ensures { option_map (λ r. r.now) result ≡ key_where (λ x. nat_eq number x.number) orphans.now }
{
    for (reference, orphan) in orphans.iter() {
        if number == orphan.number {
            return Some(reference);
        }
    }
    None
}

/// The reference of a record or an orphan with this number. No memory is taken.
pub(crate) fn with_number(m: &State, number: u64) -> Option<&Ref>
    requires { AreApart m.now }
    ensures { option_map (λ r. r.now) result ≡ ref_at m.now number }
{
    match record_numbered(&m.records, number) {
        Some(reference) => Some(reference),
        None => orphan_numbered(&m.orphans, number),
    }
}

fn is_later(after: Option<&Ref>, reference: &Ref) -> bool
    ensures { result ≡ comes_after (option_map (λ r. r.now) after.entry) reference.now }
{
    match after {
        None => true,
        Some(after) => reference.compare(after) == Ordering::Greater,
    }
}

// The first of the records' references that comes after a reference, if there is one.
fn record_after<'a>(records: &'a Records, after: Option<&Ref>) -> Option<&'a Ref>
    ensures { option_map (λ r. r.now) result ≡ first (comes_after (option_map (λ r. r.now) after.entry)) (keys records.now) }
{
    for (reference, _) in records.iter() {
        if is_later(after, reference) {
            return Some(reference);
        }
    }
    None
}

// The first of the orphans' references that comes after a reference, if there is one.
fn orphan_after<'a>(orphans: &'a Map<Ref, Orphan>, after: Option<&Ref>) -> Option<&'a Ref>
    ensures { option_map (λ r. r.now) result ≡ first (comes_after (option_map (λ r. r.now) after.entry)) (keys orphans.now) }
{
    for (reference, _) in orphans.iter() {
        if is_later(after, reference) {
            return Some(reference);
        }
    }
    None
}

// The lesser of two references, or the only one, if there is any.
fn lesser<'a>(reference: Option<&'a Ref>, other: Option<&'a Ref>) -> Option<&'a Ref>
    ensures { option_map (λ r. r.now) result ≡ lesser_of text_cmp (option_map (λ r. r.now) reference.entry) (option_map (λ r. r.now) other.entry) }
{
    let Some(reference) = reference else {
        return other;
    };
    match other {
        None => Some(reference),
        Some(other) => {
            if reference.compare(other) == Ordering::Greater {
                Some(other)
            } else {
                Some(reference)
            }
        }
    }
}

/// The next reference that is a record or an orphan, or the first. No memory is taken.
pub fn next_of<'a>(m: &'a State, after: Option<&Ref>) -> Option<&'a Ref>
    ensures { option_map (λ r. r.now) result ≡ next_known m.now (option_map (λ r. r.now) after.entry) }
{
    m.records.in_order();
    m.orphans.in_order();
    lesser(
        record_after(&m.records, after),
        orphan_after(&m.orphans, after),
    )
}
