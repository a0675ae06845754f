//! Whether rows are equal.
ghost use Rattle.std.specs.Prelude.{◌≡◌, ◌↔◌, IsTrue};

use cat_collections::listing::Listing;
use cat_row_format::row::{OrphanRule, StoredCounter, StoredOffer, StoredOutput, StoredRow};
use cat_tree::text::Text;
use cat_types::issue::Issue;
use cat_types::node::Node;
use cat_types::reference::Ref;

/// Whether the texts are equal.
pub fn is_same_text(left: &str, right: &str) -> bool
    ensures { IsTrue result ↔ (left.now ≡ right.now) }
{
    left == right
}

fn is_same_node(left: &Node, right: &Node) -> bool
    ensures { IsTrue result ↔ (left.now ≡ right.now) }
{
    left.same(right)
}

fn is_same_option(left: &Option<Node>, right: &Option<Node>) -> bool
    ensures { IsTrue result ↔ (left.now ≡ right.now) }
{
    match (left, right) {
        (None, None) => true,
        (Some(left), Some(right)) => is_same_node(left, right),
        _ => false,
    }
}

// What can be told apart.
trait Same {
    fn is_like(&self, other: &Self) -> bool
        ensures { IsTrue result ↔ (self.now ≡ other.now) };
}

impl Same for Issue {
    fn is_like(&self, other: &Issue) -> bool {
        self.level == other.level
            && self.name == other.name
            && is_same_text(self.message.as_str(), other.message.as_str())
    }
}

impl Same for StoredOffer {
    fn is_like(&self, other: &StoredOffer) -> bool {
        self.arrival == other.arrival
            && is_same_text(self.key.as_str(), other.key.as_str())
            && is_same_text(self.reference.as_str(), other.reference.as_str())
            && is_same_option(&self.tree, &other.tree)
    }
}

fn are_like<X: Same>(left: &[X], right: &[X]) -> bool
    ensures { IsTrue result ↔ (left.now ≡ right.now) }
{
    let mut others = right.iter();
    for item in left {
        match others.next() {
            Some(other) => {
                if !item.is_like(other) {
                    return false;
                }
            }
            None => return false,
        }
    }
    others.next().is_none()
}

impl Same for StoredOutput {
    fn is_like(&self, other: &StoredOutput) -> bool {
        is_same_node(&self.entity, &other.entity)
            && are_like(self.offers.as_slice(), other.offers.as_slice())
    }
}

fn is_same_output(left: &Option<StoredOutput>, right: &Option<StoredOutput>) -> bool
    ensures { IsTrue result ↔ (left.now ≡ right.now) }
{
    match (left, right) {
        (None, None) => true,
        (Some(left), Some(right)) => left.is_like(right),
        _ => false,
    }
}

fn is_counter(right: &StoredRow, counter: StoredCounter, next: u64) -> bool
    ensures { IsTrue result ↔ (StoredRow.Counter counter next ≡ right.now) }
{
    match right {
        StoredRow::Counter(other, n) => counter == *other && next == *n,
        _ => false,
    }
}

fn is_provider(right: &StoredRow, name: &Text, serial: u64) -> bool
    ensures { IsTrue result ↔ (StoredRow.Provider name.now serial ≡ right.now) }
{
    match right {
        StoredRow::Provider {
            name: other,
            serial: n,
        } => serial == *n && is_same_text(name.as_str(), other.as_str()),
        _ => false,
    }
}

fn is_item(right: &StoredRow, provider: &Text, reference: &Ref, arrival: u64, key: &Text) -> bool
    ensures { IsTrue result ↔ (StoredRow.Item provider.now reference.now arrival key.now ≡ right.now) }
{
    match right {
        StoredRow::Item {
            provider: p,
            reference: r,
            arrival: n,
            key: k,
        } => {
            arrival == *n
                && is_same_text(provider.as_str(), p.as_str())
                && is_same_text(reference.as_str(), r.as_str())
                && is_same_text(key.as_str(), k.as_str())
        }
        _ => false,
    }
}

fn is_item_one(
    right: &StoredRow,
    provider: &Text,
    reference: &Ref,
    arrival: u64,
    key: &Text,
    tree: &Node,
) -> bool
    ensures { IsTrue result ↔ (StoredRow.ItemOne provider.now reference.now arrival key.now tree.now ≡ right.now) }
{
    match right {
        StoredRow::ItemOne {
            provider: p,
            reference: r,
            arrival: n,
            key: k,
            tree: t,
        } => {
            arrival == *n
                && is_same_text(provider.as_str(), p.as_str())
                && is_same_text(reference.as_str(), r.as_str())
                && is_same_text(key.as_str(), k.as_str())
                && is_same_node(tree, t)
        }
        _ => false,
    }
}

fn is_shelf(right: &StoredRow, name: &Text, body: &Text) -> bool
    ensures { IsTrue result ↔ (StoredRow.Shelf name.now body.now ≡ right.now) }
{
    match right {
        StoredRow::Shelf { name: n, body: b } => {
            is_same_text(name.as_str(), n.as_str()) && is_same_text(body.as_str(), b.as_str())
        }
        _ => false,
    }
}

fn is_record(
    right: &StoredRow,
    reference: &Ref,
    holder: u64,
    issues: &Listing<Issue>,
    number: u64,
    output: &Option<StoredOutput>,
) -> bool
    ensures { IsTrue result ↔ (StoredRow.Record reference.now holder issues.now number output.now ≡ right.now) }
{
    match right {
        StoredRow::Record {
            reference: r,
            holder: h,
            issues: i,
            number: n,
            output: o,
        } => {
            holder == *h
                && number == *n
                && is_same_text(reference.as_str(), r.as_str())
                && are_like(issues.as_slice(), i.as_slice())
                && is_same_output(output, o)
        }
        _ => false,
    }
}

fn is_record_one(
    right: &StoredRow,
    reference: &Ref,
    holder: u64,
    issues: &Listing<Issue>,
    number: u64,
    output: &StoredOutput,
) -> bool
    ensures { IsTrue result ↔ (StoredRow.RecordOne reference.now holder issues.now number output.now ≡ right.now) }
{
    match right {
        StoredRow::RecordOne {
            reference: r,
            holder: h,
            issues: i,
            number: n,
            output: o,
        } => {
            holder == *h
                && number == *n
                && is_same_text(reference.as_str(), r.as_str())
                && are_like(issues.as_slice(), i.as_slice())
                && output.is_like(o)
        }
        _ => false,
    }
}

fn is_orphan(right: &StoredRow, reference: &Ref, entity: &Node, number: u64) -> bool
    ensures { IsTrue result ↔ (StoredRow.Orphan reference.now entity.now number ≡ right.now) }
{
    match right {
        StoredRow::Orphan {
            reference: r,
            entity: e,
            number: n,
        } => {
            number == *n && is_same_text(reference.as_str(), r.as_str()) && is_same_node(entity, e)
        }
        _ => false,
    }
}

fn is_rule(right: &StoredRow, rule: OrphanRule) -> bool
    ensures { IsTrue result ↔ (StoredRow.Settings rule ≡ right.now) }
{
    match right {
        StoredRow::Settings(other) => rule == *other,
        _ => false,
    }
}

fn is_tree(right: &StoredRow, arrival: u64, tree: &Node) -> bool
    ensures { IsTrue result ↔ (StoredRow.Tree arrival tree.now ≡ right.now) }
{
    match right {
        StoredRow::Tree {
            arrival: n,
            tree: t,
        } => arrival == *n && is_same_node(tree, t),
        _ => false,
    }
}

/// Whether the rows are equal: of one form, with the same names, numbers, texts and trees.
pub fn is_same_row(left: &StoredRow, right: &StoredRow) -> bool
    ensures { IsTrue result ↔ (left.now ≡ right.now) }
{
    match left {
        StoredRow::Counter(counter, next) => is_counter(right, *counter, *next),
        StoredRow::Provider { name, serial } => is_provider(right, name, *serial),
        StoredRow::Item {
            provider,
            reference,
            arrival,
            key,
        } => is_item(right, provider, reference, *arrival, key),
        StoredRow::Shelf { name, body } => is_shelf(right, name, body),
        StoredRow::Record {
            reference,
            holder,
            issues,
            number,
            output,
        } => is_record(right, reference, *holder, issues, *number, output),
        StoredRow::Orphan {
            reference,
            entity,
            number,
        } => is_orphan(right, reference, entity, *number),
        StoredRow::Settings(rule) => is_rule(right, *rule),
        StoredRow::Tree { arrival, tree } => is_tree(right, *arrival, tree),
        StoredRow::ItemOne {
            provider,
            reference,
            arrival,
            key,
            tree,
        } => is_item_one(right, provider, reference, *arrival, key, tree),
        StoredRow::RecordOne {
            reference,
            holder,
            issues,
            number,
            output,
        } => is_record_one(right, reference, *holder, issues, *number, output),
    }
}
