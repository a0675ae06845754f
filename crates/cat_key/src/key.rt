//! Keys: what maps are ordered by, and what stands for a key in a search.
ghost use Rattle.std.specs.Prelude.{◌≡◌};
ghost use Rattle.std.specs.Cmp.{IsTotalOrder, nat_cmp_total};
ghost use Rattle.std.specs.FinMap.{IsAntisymmetric, nat_cmp-IsAntisymmetric};
ghost use Rattle.std.specs.Ordering.{nat_cmp};
ghost use Rattle.cat_key.specs.Pairs.{pair_antisymmetric, pair_cmp, pair_total};

use crate::pair::Pair;
use std::cmp::Ordering;

/// What a map is ordered by. Texts and references are ordered by their bytes, numbers by size, pairs by their first and
/// then by their second part. The order of a type of another crate stands beside the type.
pub trait Key {
    ghost use Rattle.std.specs.declared.cmp.Ordering.{Ordering as Order};

    ghost order: { Self → Self → Order };

    /// How this key stands to another.
    fn compare(&self, other: &Self) -> Ordering
        ensures { result ≡ order self.now other.now };

    // It is a total order, and only equal keys tie.
    ghost total: { IsTotalOrder order };

    ghost apart: { IsAntisymmetric order };
}

/// What stands for a key in a search, without being one.
pub trait Seek<K: Key> {
    /// The key that it stands for.
    ghost sought: { Self → K };

    /// How that key stands to another.
    fn compare_with(&self, other: &K) -> Ordering
        ensures { result ≡ K.order (sought self.now) other.now };
}

impl<K: Key> Seek<K> for K {
    ghost sought = { λ k. k };

    fn compare_with(&self, other: &K) -> Ordering {
        self.compare(other)
    }
}

impl<A: Key, B: Key> Seek<(A, B)> for Pair<'_, A, B> {
    ghost sought = { λ p. (p.first.now, p.second.now) };

    fn compare_with(&self, other: &(A, B)) -> Ordering {
        self.first
            .compare(&other.0)
            .then_with(|| self.second.compare(&other.1))
    }
}

impl Key for u64 {
    ghost order = { nat_cmp };

    ghost total = { nat_cmp_total };

    ghost apart = { nat_cmp-IsAntisymmetric };

    fn compare(&self, other: &u64) -> Ordering {
        self.cmp(other)
    }
}

impl<A: Key, B: Key> Key for (A, B) {
    ghost order = { pair_cmp A.order B.order };

    ghost total = { pair_total A.total B.total };

    ghost apart = { pair_antisymmetric A.apart B.apart };

    fn compare(&self, other: &(A, B)) -> Ordering {
        match self.0.compare(&other.0) {
            Ordering::Equal => self.1.compare(&other.1),
            unequal => unequal,
        }
    }
}
