//! Tests of equality.
ghost use Rattle.std.specs.Prelude.{◌≡◌, ◌↔◌, IsTrue, Bool};
ghost use Rattle.cat_collections.specs.Table.{same_text};
ghost use Rattle.cat_types.specs.Same as spec;

use crate::issue::{Issue, IssueName, Level};
use crate::parts::Parts;
use crate::reference::Ref;
use crate::relation::Relation;
use crate::work::{Content, Work};
use cat_collections::key::Key;
use cat_tree::text::Text;
use std::cmp::Ordering;

/// What can be tested for equality.
trait Same {
    ghost same: { Self → Self → Bool };

    fn is_like(&self, other: &Self) -> bool
        ensures { result ≡ same self.now other.now };
}

/// Whether the texts are equal.
pub fn texts_alike(left: &Text, right: &Text) -> bool
    ensures { result ≡ same_text left.now right.now }
{
    left.compare(right) == Ordering::Equal
}

/// Whether the references are equal.
pub fn refs_alike(left: &Ref, right: &Ref) -> bool
    ensures { result ≡ same_text left.now right.now }
{
    left.compare(right) == Ordering::Equal
}

fn options_alike(left: &Option<Text>, right: &Option<Text>) -> bool
    ensures { result ≡ spec.same_option_text left.now right.now }
{
    match (left, right) {
        (None, None) => true,
        (Some(left), Some(right)) => texts_alike(left, right),
        _ => false,
    }
}

fn name_rank(name: IssueName) -> u8
    ensures { result ≡ spec.name_rank name }
{
    match name {
        IssueName::SchemaFault => 0,
        IssueName::ReferenceFault => 1,
        IssueName::TargetFault => 2,
        IssueName::MissingTarget => 3,
        IssueName::ShelfFault => 4,
        IssueName::DuplicateOffer => 5,
    }
}

fn level_rank(level: Level) -> u8
    ensures { result ≡ spec.level_rank level }
{
    match level {
        Level::Error => 0,
        Level::Warning => 1,
    }
}

impl Same for Content {
    ghost same = { spec.same_content };

    fn is_like(&self, other: &Content) -> bool {
        texts_alike(&self.name, &other.name) && options_alike(&self.body, &other.body)
    }
}

impl Same for Relation {
    ghost same = { spec.same_relation };

    fn is_like(&self, other: &Relation) -> bool {
        self.compare(other) == Ordering::Equal
    }
}

impl Same for Issue {
    ghost same = { spec.same_issue };

    fn is_like(&self, other: &Issue) -> bool {
        level_rank(self.level) == level_rank(other.level)
            && name_rank(self.name) == name_rank(other.name)
            && texts_alike(&self.message, &other.message)
    }
}

fn lists_alike<X: Same>(left: &[X], right: &[X]) -> bool
    ensures { result ≡ spec.same_list X.same left.now right.now }
{
    let mut others = right.iter();
    for item in left {
        match others.next() {
            Some(other) => {
                if !item.is_like(other) {
                    return false;
                }
            }
            None => return false,
        }
    }
    others.next().is_none()
}

fn same_works(left: &Work, right: &Work) -> bool
    ensures { result ≡ spec.same_work left.now right.now }
{
    left.tree.same(&right.tree) && lists_alike(left.contents.as_slice(), right.contents.as_slice())
}

fn same_parts(left: &Parts, right: &Parts) -> bool
    ensures { result ≡ spec.same_parts left.now right.now }
{
    left.entity.same(&right.entity)
        && left.number == right.number
        && left.orphan == right.orphan
        && lists_alike(left.relations.as_slice(), right.relations.as_slice())
        && lists_alike(left.issues.as_slice(), right.issues.as_slice())
}

/// Whether the works are equal: the trees, and the contents one by one.
pub fn works_alike(left: &Work, right: &Work) -> bool
    ensures tested { result ≡ spec.same_work left.now right.now }
    ensures exact { IsTrue result ↔ (left.now ≡ right.now) }
{
    same_works(left, right)
}

/// Whether the parts are equal: entity, number, orphan or not, relations and issues.
pub fn parts_alike(left: &Parts, right: &Parts) -> bool
    ensures tested { result ≡ spec.same_parts left.now right.now }
    ensures exact { IsTrue result ↔ (left.now ≡ right.now) }
{
    same_parts(left, right)
}
