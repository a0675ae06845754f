//! The order of relations: by source, name of the kind, and target.
ghost use Rattle.std.specs.Prelude.{◌≡◌};
ghost use Rattle.std.specs.Ordering.{ordering_then};
ghost use Rattle.cat_types.specs.Relation.{kind_text, relation_cmp};
ghost use Rattle.cat_types.specs.Relations.{relation_antisymmetric, relation_total};
ghost use Rattle.cat_collections.specs.Table.{text_cmp};

use crate::relation::{RelKind, Relation};
use cat_collections::key::Key;
use std::cmp::Ordering;

fn compare_kinds(left: RelKind, right: RelKind) -> Ordering
    ensures { result ≡ text_cmp (kind_text left) (kind_text right) }
{
    left.text().cmp(right.text())
}

impl Key for Relation {
    ghost order = { relation_cmp };

    ghost total = { relation_total };

    ghost apart = { relation_antisymmetric };

    fn compare(&self, other: &Relation) -> Ordering {
        match self.source.compare(&other.source) {
            Ordering::Less => Ordering::Less,
            Ordering::Equal => match compare_kinds(self.kind, other.kind) {
                Ordering::Less => Ordering::Less,
                Ordering::Equal => self.target.compare(&other.target),
                Ordering::Greater => Ordering::Greater,
            },
            Ordering::Greater => Ordering::Greater,
        }
    }
}
