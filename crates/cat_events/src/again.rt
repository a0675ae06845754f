//! Results that offer what was offered before, as most do: they leave all rows as they are.
ghost use Rattle.std.specs.Prelude.{◌≡◌, ◌&&◌, Option, Bool, option_map};
ghost use Rattle.std.specs.Ordering.{eq_by_cmp};
ghost use Rattle.cat_events.specs.Again.{kept_offers, offers_again, same_offer, same_offers};

use cat_collections::key::Key;
use cat_model::types::Record;
use cat_types::input::Offered;
use cat_types::reference::Ref;
use cat_types::work::Outcome;
use std::cmp::Ordering;

// Whether two keys are one.
fn is_same<K: Key>(left: &K, right: &K) -> bool
    ensures { result ≡ eq_by_cmp K.order left.now right.now }
{
    left.compare(right) == Ordering::Equal
}

fn is_same_offer(offered: Option<&Offered>, other: &Offered) -> bool
    ensures { result ≡ same_offer (option_map (λ x. x.now) offered.entry) other.now }
{
    match offered {
        None => false,
        Some(offered) => is_same(&offered.key, &other.key) && offered.tree.same(&other.tree),
    }
}

// Whether the offers are equal one by one.
fn same_offers(left: &[(Ref, Offered)], right: &[(Ref, Offered)]) -> bool
    ensures { result ≡ same_offers left.now right.now }
{
    let mut others = right.iter();
    for (reference, offered) in left {
        match others.next() {
            Some((other, again)) => {
                if !(is_same(reference, other) && is_same_offer(Some(offered), again)) {
                    return false;
                }
            }
            None => return false,
        }
    }
    others.next().is_none()
}

/// What a record offers by its kept output.
pub fn kept_offers(kept: Option<&Record>) -> &[(Ref, Offered)]
    ensures { result.now ≡ kept_offers (option_map (λ x. x.now) kept.entry) }
{
    match kept {
        None => &[],
        Some(kept) => match &kept.output {
            None => &[],
            Some(output) => output.offers.as_slice(),
        },
    }
}

/// Whether a result offers just what its record's kept output does, and so leaves all rows as they are.
pub fn offers_again(kept: Option<&Record>, outcome: &Outcome) -> bool
    ensures { result ≡ offers_again (option_map (λ x. x.now) kept.entry) outcome.now }
{
    match outcome {
        Outcome::Bad(_) => true,
        Outcome::Good(output, _) => same_offers(kept_offers(kept), output.offers.as_slice()),
    }
}
