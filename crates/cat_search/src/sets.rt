//! Sets of references: which are in one of two sets, and which in each of several.
ghost use Rattle.std.specs.Prelude.{◌≡◌, ◌<◌, ◌∷◌, [], IfOk, length};
ghost use Rattle.std.specs.List.{filter};
ghost use Rattle.cat_search.specs.Index.{common, has, in_all, union};

use cat_collections::map::Map;
pub use cat_state_parts::index::Set;
use cat_types::reference::Ref;
use std::alloc::{AllocError, Global};

/// Whether the reference is in the set.
pub fn has(set: &Set, reference: &Ref) -> bool
    ensures { result ≡ has set.now reference.now }
{
    set.get(reference).is_some()
}

// The larger set with the references of the smaller.
fn joined(alloc: Global, larger: &Set, smaller: &Set) -> Result<Set, AllocError>
    ensures { IfOk result (λ s. s ≡ union larger.now smaller.now) }
{
    let mut set = larger.share()?;
    set.put_map(alloc, smaller)?;
    Ok(set)
}

/// The references of either set. It takes time by the size of the smaller one.
pub fn union(alloc: Global, left: &Set, right: &Set) -> Result<Set, AllocError>
    ensures { IfOk result (λ s. s ≡ union left.now right.now) }
{
    left.in_order();
    right.in_order();
    if left.len() < right.len() {
        joined(alloc, right, left)
    } else {
        joined(alloc, left, right)
    }
}

fn in_all(sets: &[Set], reference: &Ref) -> bool
    ensures { result ≡ in_all sets.now reference.now }
{
    sets.iter().all(|set| has(set, reference))
}

// The place of a smallest set.
fn smallest(sets: &[Set]) -> usize
    requires { 0 < length sets.now }
    ensures { result < length sets.now }
{
    let mut best = 0;
    for place in 1..sets.len() {
        if sets[place].len() < sets[best].len() {
            best = place;
        }
    }
    best
}

// Those entries of the set whose references are in each of the sets.
fn kept_entries(alloc: Global, set: &Set, sets: &[Set]) -> Result<Vec<(Ref, ())>, AllocError>
    ensures { IfOk result (λ v. v.items ≡ filter (λ e. in_all sets.now e.0) set.now) }
{
    let mut kept = Vec::new(alloc);
    for (reference, _) in set.iter() {
        if in_all(sets, reference) {
            kept.push((reference.copy(alloc)?, ()))?;
        }
    }
    Ok(kept)
}

// The references of the set that are in each of the sets.
fn kept(alloc: Global, set: &Set, sets: &[Set]) -> Result<Set, AllocError>
    ensures { IfOk result (λ s. s ≡ filter (λ e. in_all sets.now e.0) set.now) }
{
    set.in_order();
    let _most = set.len();
    let entries = kept_entries(alloc, set, sets)?;
    Map::from_vec(alloc, entries)
}

// The references that are in each of the sets, of which this one stands at a place.
fn common_at(alloc: Global, sets: &[Set], place: usize) -> Result<Set, AllocError>
    requires { place < length sets.now }
    ensures { IfOk result (λ s. s ≡ common sets.now) }
{
    let first = &sets[0];
    let set = &sets[place];
    first.in_order();
    set.in_order();
    kept(alloc, set, sets)
}

/// The references that are in each of the sets; none, where there are no sets. It takes time by the size of the smallest
/// one.
pub fn common(alloc: Global, sets: &[Set]) -> Result<Set, AllocError>
    ensures { IfOk result (λ s. s ≡ common sets.now) }
{
    match sets {
        [] => Ok(Map::new()),
        [set] => alone(set),
        _ => common_at(alloc, sets, smallest(sets)),
    }
}

fn alone(set: &Set) -> Result<Set, AllocError>
    ensures { IfOk result (λ s. s ≡ common (set.now ∷ [])) }
{
    set.in_order();
    set.share()
}
