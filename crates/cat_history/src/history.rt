//! A history whose oldest entries are let go.
ghost use Rattle.std.specs.Prelude.{◌≡◌, ◌+◌, ◌^◌, ◌<◌, ◌≤◌, ℕ, [], ◌∷◌, ◌++◌, drop, length, map, min, sum, OnOk, MatchOption};
ghost use Rattle.std.specs.VecDeque.{deque_len, deque_capacity};
ghost use Rattle.cat_history.specs.Kept.{leaving};

use crate::ghost_list::GhostList;
use std::alloc::{AllocError, Global};
use std::collections::VecDeque;

/// How much of a history is kept.
#[derive(Clone, Copy, Debug, PartialEq, Eq)]
pub struct Limits {
    /// How many entries, at most.
    pub entries: usize,
    /// How much they weigh together, at most. An entry that weighs more counts as much as this.
    pub weight: u64,
}

// An entry that is kept, with its weight.
#[derive(Drop)]
struct Kept<E> {
    entry: E,
    weight: u64,
}

/// All entries, of which just the newest take memory. Contracts see all of them, as `all.items`, and those that are kept stand at its end.
#[derive(Drop)]
pub struct History<E> {
    kept: VecDeque<Kept<E>>,
    weight: u64,
    gone: u64,
    limits: Limits,
    all: GhostList<E>,
    pub ghost end: { map (λ k. k.entry) kept.items ≡ drop gone all.items },
    pub ghost within: { gone ≤ length all.items },
    pub ghost counted: { length all.items < 2 ^ 64 },
    pub ghost few: { length kept.items ≤ limits.entries },
    pub ghost some: { 0 < limits.entries },
    pub ghost weighed: { weight ≡ sum (map (λ k. k.weight) kept.items) },
    pub ghost light: { weight ≤ limits.weight },
    pub ghost bounded: { deque_capacity kept ≤ limits.entries },
}

impl<E: Drop> History<E> {
    /// An empty history, of which so much is kept. It takes no memory.
    pub fn new(alloc: Global, limits: Limits) -> History<E>
        requires { 0 < limits.entries }
        ensures all { result.all.items ≡ [] }
        ensures limits { result.limits ≡ limits }
    {
        History {
            kept: VecDeque::with_capacity(alloc, 0).unwrap(),
            weight: 0,
            gone: 0,
            limits,
            all: GhostList::new(),
        }
    }

    /// How many entries there are, with those that are gone.
    pub fn len(&self) -> u64
        ensures { result ≡ length self.now.all.items }
    {
        self.gone + self.kept.len() as u64
    }

    /// How many of the first entries are gone.
    pub fn gone(&self) -> u64
        ensures gone { result ≡ self.now.gone }
        ensures within { result ≤ length self.now.all.items }
    {
        self.gone
    }

    /// How many entries are kept: what isn't gone, and no more than the most.
    pub fn kept(&self) -> usize
        ensures kept { self.now.gone + result ≡ length self.now.all.items }
        ensures few { result ≤ self.now.limits.entries }
        ensures light { sum (map (λ k. k.weight) self.now.kept.items) ≤ self.now.limits.weight }
        ensures memory { deque_capacity self.now.kept ≤ self.now.limits.entries }
    {
        self.kept.len()
    }

    /// Lends the entry at a place of what is kept: entry `gone + place` of the whole list.
    pub fn at(&self, place: usize) -> Option<&E>
        ensures { MatchOption result (length self.now.all.items ≤ self.now.gone + place) (λ entry. drop (self.now.gone + place) self.now.all.items ≡ entry.now ∷ drop (self.now.gone + place + 1) self.now.all.items) }
    {
        let kept = self.kept.get(place)?;
        Some(&kept.entry)
    }

    /// Takes the memory for an entry more: none where as many are kept as may be, and never for more than those. It is refused where a u64 can't count
    /// an entry more.
    pub fn reserve(&mut self) -> Result<(), AllocError>
        ensures all { self.new.all.items ≡ self.old.all.items }
        ensures gone { self.new.gone ≡ self.old.gone }
        ensures kept { self.new.kept.items ≡ self.old.kept.items }
        ensures limits { self.new.limits ≡ self.old.limits }
        ensures room { OnOk result (min (deque_len self.new.kept + 1) self.new.limits.entries ≤ deque_capacity self.new.kept) }
        ensures count { OnOk result (length self.new.all.items + 1 < 2 ^ 64) }
    {
        if self.len() == u64::MAX {
            return Err(AllocError);
        }
        let count = self.kept.len();
        let capacity = self.kept.capacity();
        let most = self.limits.entries;
        if count < capacity || most <= capacity {
            return Ok(());
        }
        let left = most - count;
        let more = if count < left { count + 1 } else { left };
        self.kept.reserve_exact(more)
    }

    // Lets the oldest entry go.
    fn drop_oldest(&mut self)
        requires { 0 < length self.old.kept.items }
        ensures all { self.new.all.items ≡ self.old.all.items }
        ensures gone { self.new.gone ≡ self.old.gone + 1 }
        ensures kept { self.new.kept.items ≡ drop 1 self.old.kept.items }
        ensures capacity { deque_capacity self.new.kept ≡ deque_capacity self.old.kept }
        ensures limits { self.new.limits ≡ self.old.limits }
    {
        if let Some(oldest) = self.kept.pop_front() {
            self.weight -= oldest.weight;
            self.gone += 1;
        }
    }

    // Lets as few of the oldest entries go as make room for one more of this weight.
    fn make_room(&mut self, weight: u64)
        requires { weight ≤ self.old.limits.weight }
        ensures all { self.new.all.items ≡ self.old.all.items }
        ensures gone { self.new.gone ≡ self.old.gone + leaving self.old.limits.entries self.old.limits.weight weight (map (λ k. k.weight) self.old.kept.items) }
        ensures capacity { deque_capacity self.new.kept ≡ deque_capacity self.old.kept }
        ensures less { deque_len self.new.kept ≤ deque_len self.old.kept }
        ensures limits { self.new.limits ≡ self.old.limits }
        ensures few { deque_len self.new.kept < self.new.limits.entries }
        ensures light { self.new.weight + weight ≤ self.new.limits.weight }
    {
        while self.kept.len() >= self.limits.entries || self.limits.weight - self.weight < weight {
            self.drop_oldest();
        }
    }

    /// Adds an entry of a weight, and lets as few of the oldest ones go as leave the rest within the limits. It takes no memory.
    pub fn push(&mut self, entry: E, weight: u64)
        requires room { min (deque_len self.old.kept + 1) self.old.limits.entries ≤ deque_capacity self.old.kept }
        requires count { length self.old.all.items + 1 < 2 ^ 64 }
        ensures all { self.new.all.items ≡ self.old.all.items ++ entry ∷ [] }
        ensures gone { self.new.gone ≡ self.old.gone + leaving self.old.limits.entries self.old.limits.weight (min weight self.old.limits.weight) (map (λ k. k.weight) self.old.kept.items) }
        ensures limits { self.new.limits ≡ self.old.limits }
    {
        let weight = weight.min(self.limits.weight);
        self.make_room(weight);
        self.all = self.all.and(&entry);
        self.weight += weight;
        self.kept.push_back_reserved(Kept { entry, weight });
    }
}
