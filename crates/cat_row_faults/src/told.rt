//! What is asked of all rows of a store.
ghost use Rattle.std.specs.Prelude.{◌≡◌, ◌==◌, ◌||◌, ℕ, IfOk, flat_map, length, map, not, slice_get};
ghost use Rattle.std.specs.Ordering.{nat_cmp};
ghost use Rattle.cat_row_faults.specs.Readings.{read_rows};
ghost use Rattle.cat_row_faults.specs.Told as spec;
ghost use Rattle.cat_row_faults.specs.Told.{answers, asked, is_first, is_once};
ghost use Rattle.cat_collections.specs.Table.{find, text_cmp};

use crate::collect::collected;
use crate::noted::{firsts, noted};
use crate::tellers::{Arrivals, Drawn, Gives, Holders, Numbers, Orphans, Rules, Serials, Trees};
use cat_collections::map::Map;
use cat_row_format::row::StoredRow;
use cat_tree::text::Text;
use cat_types::node::Node;
use cat_types::reference::Ref;
use std::alloc::{AllocError, Global};

/// Who gave an item or an offer: a provider, or the record of a reference.
#[derive(Drop)]
pub enum Giver {
    Provider,
    Record(Ref),
}

/// An item or an offer: who gave it, and its reference.
#[derive(Drop)]
pub struct Given {
    pub giver: Giver,
    pub reference: Ref,
}

/// What the rows of a store tell of each other: how many there are, the next numbers, whether the store is of the second version, which
/// has a rule for orphans or trees in rows of their own, and whether it states the rule, the serials of providers, what first arrived with a number, whether arrival numbers and numbers of records and orphans stand twice,
/// the arrival numbers of the rows that hold references, how many records there are, the orphans' references, and trees by arrival number.
#[derive(Drop)]
pub struct Told {
    pub rows: usize,
    pub arrival: Option<u64>,
    pub number: Option<u64>,
    pub is_second: bool,
    pub has_rule: bool,
    pub serials: Map<Text, u64>,
    pub given: Map<u64, Given>,
    pub arrivals: Map<u64, bool>,
    pub numbers: Map<u64, bool>,
    pub holders: Map<Ref, u64>,
    pub records: usize,
    pub orphans: Map<Ref, ()>,
    pub trees: Map<u64, Node>,
}

// The numbers of what arrived.
fn numbers_of(alloc: Global, given: &[(u64, Given)]) -> Result<Vec<u64>, AllocError>
    ensures { IfOk result (λ ns. ns.items ≡ map (λ e. e.0) given.now) }
{
    let mut numbers = Vec::new(alloc);
    for entry in given {
        numbers.push(entry.0)?;
    }
    Ok(numbers)
}

// The first number, if there is one.
fn first_of(numbers: &[u64]) -> Option<u64>
    ensures { result ≡ slice_get numbers.now 0 }
{
    match numbers.get(0) {
        None => None,
        Some(number) => Some(*number),
    }
}

// The next arrival number, where its row is there.
fn next_arrival(alloc: Global, readings: &[Option<StoredRow>]) -> Result<Option<u64>, AllocError>
    ensures { IfOk result (λ n. n ≡ slice_get (flat_map spec.arrival_in (read_rows readings.now)) 0) }
{
    let numbers = collected(alloc, readings, &Arrivals)?;
    Ok(first_of(numbers.as_slice()))
}

// The next number of a record or an orphan, where its row is there.
fn next_number(alloc: Global, readings: &[Option<StoredRow>]) -> Result<Option<u64>, AllocError>
    ensures { IfOk result (λ n. n ≡ slice_get (flat_map spec.number_in (read_rows readings.now)) 0) }
{
    let numbers = collected(alloc, readings, &Numbers)?;
    Ok(first_of(numbers.as_slice()))
}

// Whether a rule for orphans is stated.
fn has_rule(alloc: Global, readings: &[Option<StoredRow>]) -> Result<bool, AllocError>
    ensures { IfOk result (λ b. b ≡ not (length (flat_map spec.rule_in (read_rows readings.now)) == 0)) }
{
    let rules = collected(alloc, readings, &Rules)?;
    Ok(rules.len() != 0)
}

// Whether trees stand in rows of their own.
fn has_trees(alloc: Global, readings: &[Option<StoredRow>]) -> Result<bool, AllocError>
    ensures { IfOk result (λ b. b ≡ not (length (flat_map spec.tree_in (read_rows readings.now)) == 0)) }
{
    let trees = collected(alloc, readings, &Trees)?;
    Ok(trees.len() != 0)
}

fn serials(alloc: Global, readings: &[Option<StoredRow>]) -> Result<Map<Text, u64>, AllocError>
    ensures { IfOk result (λ m. (name : Text) → find text_cmp name m ≡ find text_cmp name (flat_map spec.serial_in (read_rows readings.now))) }
{
    let entries = collected(alloc, readings, &Serials)?;
    firsts(alloc, entries)
}

fn first_given(alloc: Global, readings: &[Option<StoredRow>]) -> Result<Map<u64, Given>, AllocError>
    ensures { IfOk result (λ m. (n : ℕ) → find nat_cmp n m ≡ find nat_cmp n (flat_map spec.given_in (read_rows readings.now))) }
{
    let entries = collected(alloc, readings, &Gives)?;
    firsts(alloc, entries)
}

fn arrivals(alloc: Global, readings: &[Option<StoredRow>]) -> Result<Map<u64, bool>, AllocError>
    ensures { IfOk result (λ m. (n : ℕ) → is_first (find nat_cmp n m) ≡ is_once nat_cmp (map (λ e. e.0) (flat_map spec.given_in (read_rows readings.now))) n) }
{
    let entries = collected(alloc, readings, &Gives)?;
    let numbers = numbers_of(alloc, entries.as_slice())?;
    noted(alloc, numbers.as_slice())
}

fn numbers(alloc: Global, readings: &[Option<StoredRow>]) -> Result<Map<u64, bool>, AllocError>
    ensures { IfOk result (λ m. (n : ℕ) → is_first (find nat_cmp n m) ≡ is_once nat_cmp (flat_map spec.drawn_in (read_rows readings.now)) n) }
{
    let numbers = collected(alloc, readings, &Drawn)?;
    noted(alloc, numbers.as_slice())
}

fn holders(alloc: Global, readings: &[Option<StoredRow>]) -> Result<Map<Ref, u64>, AllocError>
    ensures { IfOk result (λ m. (r : Text) → find text_cmp r m ≡ find text_cmp r (flat_map spec.holder_in (read_rows readings.now))) }
{
    let entries = collected(alloc, readings, &Holders)?;
    firsts(alloc, entries)
}

fn records(alloc: Global, readings: &[Option<StoredRow>]) -> Result<usize, AllocError>
    ensures { IfOk result (λ n. n ≡ length (flat_map spec.holder_in (read_rows readings.now))) }
{
    let entries = collected(alloc, readings, &Holders)?;
    Ok(entries.len())
}

fn orphans(alloc: Global, readings: &[Option<StoredRow>]) -> Result<Map<Ref, ()>, AllocError>
    ensures { IfOk result (λ m. (r : Text) → find text_cmp r m ≡ find text_cmp r (flat_map spec.orphan_in (read_rows readings.now))) }
{
    let entries = collected(alloc, readings, &Orphans)?;
    firsts(alloc, entries)
}

fn trees(alloc: Global, readings: &[Option<StoredRow>]) -> Result<Map<u64, Node>, AllocError>
    ensures { IfOk result (λ m. (n : ℕ) → find nat_cmp n m ≡ find nat_cmp n (flat_map spec.tree_in (read_rows readings.now))) }
{
    let entries = collected(alloc, readings, &Trees)?;
    firsts(alloc, entries)
}

fn either(left: bool, right: bool) -> bool
    ensures { result ≡ (left || right) }
{
    left || right
}

// What rows tell of what arrived: what first arrived with a number, and whether arrival numbers and numbers of records and orphans stand twice.
#[derive(Drop)]
struct Arrived {
    given: Map<u64, Given>,
    arrivals: Map<u64, bool>,
    numbers: Map<u64, bool>,
}

fn arrived_in(alloc: Global, readings: &[Option<StoredRow>]) -> Result<Arrived, AllocError>
    ensures given { IfOk result (λ x. (n : ℕ) → find nat_cmp n x.given ≡ find nat_cmp n (flat_map spec.given_in (read_rows readings.now))) }
    ensures arrivals { IfOk result (λ x. (n : ℕ) → is_first (find nat_cmp n x.arrivals) ≡ is_once nat_cmp (map (λ e. e.0) (flat_map spec.given_in (read_rows readings.now))) n) }
    ensures numbers { IfOk result (λ x. (n : ℕ) → is_first (find nat_cmp n x.numbers) ≡ is_once nat_cmp (flat_map spec.drawn_in (read_rows readings.now)) n) }
{
    let given = first_given(alloc, readings)?;
    let arrivals = arrivals(alloc, readings)?;
    let numbers = numbers(alloc, readings)?;
    Ok(Arrived {
        given,
        arrivals,
        numbers,
    })
}

// What rows tell under names: the serials of providers, the arrival numbers of the rows that hold references, and the orphans' references.
#[derive(Drop)]
struct Named {
    serials: Map<Text, u64>,
    holders: Map<Ref, u64>,
    orphans: Map<Ref, ()>,
}

fn named_in(alloc: Global, readings: &[Option<StoredRow>]) -> Result<Named, AllocError>
    ensures serials { IfOk result (λ x. (name : Text) → find text_cmp name x.serials ≡ find text_cmp name (flat_map spec.serial_in (read_rows readings.now))) }
    ensures holders { IfOk result (λ x. (r : Text) → find text_cmp r x.holders ≡ find text_cmp r (flat_map spec.holder_in (read_rows readings.now))) }
    ensures orphans { IfOk result (λ x. (r : Text) → find text_cmp r x.orphans ≡ find text_cmp r (flat_map spec.orphan_in (read_rows readings.now))) }
{
    let serials = serials(alloc, readings)?;
    let holders = holders(alloc, readings)?;
    let orphans = orphans(alloc, readings)?;
    Ok(Named {
        serials,
        holders,
        orphans,
    })
}

/// What the rows that have a reading tell.
pub fn gathered(alloc: Global, readings: &[Option<StoredRow>]) -> Result<Told, AllocError>
    ensures { IfOk result (λ t. asked t ≡ answers readings.now) }
{
    let arrival = next_arrival(alloc, readings)?;
    let number = next_number(alloc, readings)?;
    let has_rule = has_rule(alloc, readings)?;
    let has_trees = has_trees(alloc, readings)?;
    let records = records(alloc, readings)?;
    let arrived = arrived_in(alloc, readings)?;
    let named = named_in(alloc, readings)?;
    let trees = trees(alloc, readings)?;
    Ok(Told {
        rows: readings.len(),
        arrival,
        number,
        is_second: either(has_rule, has_trees),
        has_rule,
        serials: named.serials,
        given: arrived.given,
        arrivals: arrived.arrivals,
        numbers: arrived.numbers,
        holders: named.holders,
        records,
        orphans: named.orphans,
        trees,
    })
}
