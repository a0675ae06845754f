//! Whether the numbers of a candidate differ.
ghost use Rattle.std.specs.Prelude.{◌≡◌, ◌&&◌, IfOk, Option, nat_le, nat_lt, option_map};
ghost use Rattle.cat_state_check.specs.Candidate as spec;
ghost use Rattle.cat_state_check.specs.Indexed.{with_names};

use cat_collections::key::Key;
use cat_collections::listing::Copied;
use cat_collections::map::Map;
use cat_model::records::Records;
use cat_model::types::{Orphan, State};
use cat_types::reference::Ref;
use std::alloc::{AllocError, Global};
use std::cmp::Ordering;

/// References by number.
pub type Names = Map<u64, Ref>;

fn put_records(alloc: Global, records: &Records, names: &mut Names) -> Result<(), AllocError>
    ensures { IfOk result (λ _. names.new ≡ with_names (λ x. x.number) records.now names.old) }
{
    for (reference, record) in records.iter() {
        names.put(alloc, record.number, reference.duplicate(alloc)?)?;
    }
    Ok(())
}

fn put_orphans(
    alloc: Global,
    orphans: &Map<Ref, Orphan>,
    names: &mut Names,
) -> Result<(), AllocError>
    ensures { IfOk result (λ _. names.new ≡ with_names (λ x. x.number) orphans.now names.old) }
{
    for (reference, orphan) in orphans.iter() {
        names.put(alloc, orphan.number, reference.duplicate(alloc)?)?;
    }
    Ok(())
}

/// The references of a candidate by number.
pub fn names_of(alloc: Global, m: &State) -> Result<Names, AllocError>
    ensures { IfOk result (λ names. names ≡ spec.names_of m.now) }
{
    let mut names = Map::new();
    put_records(alloc, &m.records, &mut names)?;
    put_orphans(alloc, &m.orphans, &mut names)?;
    Ok(names)
}

fn is_name(reference: &Ref, found: Option<&Ref>) -> bool
    ensures { result ≡ spec.is_name reference.now (option_map (λ x. x.now) found.entry) }
{
    match found {
        None => false,
        Some(other) => other.compare(reference) == Ordering::Equal,
    }
}

/// Whether a number is at least 1, below the counter, and that of this reference alone.
pub fn is_right_number(next: u64, names: &Names, number: u64, reference: &Ref) -> bool
    ensures { result ≡ spec.is_right_number next names.now number reference.now }
{
    1 <= number && number < next && is_name(reference, names.get(&number))
}
