//! The rules that a row keeps to, but for the limit on input bytes.
ghost use Rattle.std.specs.Prelude.{◌≡◌, ◌==◌, map, option_map, IfOk};
ghost use Rattle.std.specs.List.{list_all};
ghost use Rattle.cat_row_faults.specs.Rules as spec;
ghost use Rattle.cat_row_faults.specs.Told.{asked, is_first};
ghost use Rattle.cat_collections.specs.Table.{find, text_cmp};

use crate::climb::is_rooted;
use crate::noted::noted;
use crate::told::Told;
use cat_collections::listing::Copied;
use cat_collections::map::Map;
use cat_row_format::row::{StoredCounter, StoredOffer, StoredOutput, StoredRow};
use cat_row_reader::entity::{is_entity, may_be_given};
use cat_tree::text::Text;
use cat_types::node::Node;
use cat_types::reference::Ref;
use std::alloc::{AllocError, Global};

/// The greatest next number of a counter.
const MOST_NUMBER: u64 = 1 << 59;

/// One past the greatest serial.
const PAST_SERIALS: u64 = 1 << 53;

fn is_counter(next: u64) -> bool
    ensures { result ≡ spec.is_counter next }
{
    1 <= next && next <= MOST_NUMBER
}

fn is_next(number: u64, next: Option<u64>) -> bool
    ensures { result ≡ spec.is_next number next }
{
    match next {
        None => false,
        Some(next) => next == number,
    }
}

fn is_begun(told: &Told) -> bool
    ensures { result ≡ spec.is_begun (asked told.now) }
{
    !(told.rows == 2 && is_next(1, told.arrival) && is_next(1, told.number))
}

fn is_right_counter(told: &Told, counter: StoredCounter, next: u64) -> bool
    ensures { result ≡ spec.is_right_counter (asked told.now) counter next }
{
    match counter {
        StoredCounter::Arrival => is_counter(next) && is_begun(told),
        StoredCounter::Number => is_counter(next),
    }
}

fn is_below(number: u64, next: Option<u64>) -> bool
    ensures { result ≡ spec.is_below number next }
{
    match next {
        None => true,
        Some(next) => number < next,
    }
}

fn is_new(again: Option<&bool>) -> bool
    ensures { result ≡ is_first (option_map (λ x. x.now) again.entry) }
{
    match again {
        None => false,
        Some(again) => !*again,
    }
}

fn has_arrival(told: &Told, number: u64) -> bool
    ensures { result ≡ spec.has_arrival (asked told.now) number }
{
    1 <= number && is_below(number, told.arrival) && is_new(told.arrivals.get(&number))
}

fn has_number(told: &Told, number: u64) -> bool
    ensures { result ≡ spec.has_number (asked told.now) number }
{
    1 <= number && is_below(number, told.number) && is_new(told.numbers.get(&number))
}

/// The tree of an item or an offer, beside which a tree may stand.
pub fn tree_of<'a>(told: &'a Told, arrival: u64, beside: Option<&'a Node>) -> Option<&'a Node>
    ensures { option_map (λ x. x.now) result ≡ spec.tree_of (asked told.now) arrival (option_map (λ x. x.now) beside.entry) }
{
    if !told.is_second {
        return beside;
    }
    match beside {
        None => told.trees.get(&arrival),
        Some(_) => None,
    }
}

// What an option holds, lent.
fn lent<X>(option: &Option<X>) -> Option<&X>
    ensures { option_map (λ x. x.now) result ≡ option.now }
{
    match option {
        None => None,
        Some(value) => Some(value),
    }
}

fn is_tree_for(alloc: Global, reference: &Ref, tree: Option<&Node>) -> Result<bool, AllocError>
    ensures { IfOk result (λ b. b ≡ spec.is_tree_for reference.now (option_map (λ x. x.now) tree.entry)) }
{
    match tree {
        None => Ok(false),
        Some(tree) => may_be_given(alloc, tree, reference),
    }
}

fn is_given(
    alloc: Global,
    told: &Told,
    arrival: u64,
    reference: &Ref,
    beside: Option<&Node>,
) -> Result<bool, AllocError>
    ensures { IfOk result (λ b. b ≡ spec.is_given (asked told.now) arrival reference.now (option_map (λ x. x.now) beside.entry)) }
{
    if !has_arrival(told, arrival) || told.holders.get(reference).is_none() {
        return Ok(false);
    }
    is_tree_for(alloc, reference, tree_of(told, arrival, beside))
}

fn is_serial(serial: Option<&u64>) -> bool
    ensures { result ≡ spec.is_serial (option_map (λ x. x.now) serial.entry) }
{
    match serial {
        None => false,
        Some(serial) => 1 <= *serial && *serial < PAST_SERIALS,
    }
}

fn is_right_item(
    alloc: Global,
    told: &Told,
    provider: &Text,
    arrival: u64,
    reference: &Ref,
    beside: Option<&Node>,
) -> Result<bool, AllocError>
    ensures { IfOk result (λ b. b ≡ spec.is_right_item (asked told.now) provider.now arrival reference.now (option_map (λ x. x.now) beside.entry)) }
{
    if !is_serial(told.serials.get(provider)) {
        return Ok(false);
    }
    is_given(alloc, told, arrival, reference, beside)
}

fn references_of(alloc: Global, offers: &[StoredOffer]) -> Result<Vec<Ref>, AllocError>
    ensures { IfOk result (λ rs. rs.items ≡ spec.references_of offers.now) }
{
    let mut references = Vec::new(alloc);
    for offer in offers {
        references.push(offer.reference.duplicate(alloc)?)?;
    }
    Ok(references)
}

// Whether an offer is given, and its reference stands once among those that were noted.
fn is_right_offer(
    alloc: Global,
    told: &Told,
    noted: &Map<Ref, bool>,
    offer: &StoredOffer,
) -> Result<bool, AllocError>
    ensures { IfOk result (λ b. b ≡ spec.is_offer_among (asked told.now) (λ r. is_first (find text_cmp r noted.now)) offer.now) }
{
    if !is_new(noted.get(&offer.reference)) {
        return Ok(false);
    }
    is_given(
        alloc,
        told,
        offer.arrival,
        &offer.reference,
        lent(&offer.tree),
    )
}

fn are_right_offers(
    alloc: Global,
    told: &Told,
    noted: &Map<Ref, bool>,
    offers: &[StoredOffer],
) -> Result<bool, AllocError>
    ensures { IfOk result (λ b. b ≡ list_all (spec.is_offer_among (asked told.now) (λ r. is_first (find text_cmp r noted.now))) offers.now) }
{
    for offer in offers {
        if !is_right_offer(alloc, told, noted, offer)? {
            return Ok(false);
        }
    }
    Ok(true)
}

fn is_right_output(
    alloc: Global,
    told: &Told,
    reference: &Ref,
    output: &StoredOutput,
) -> Result<bool, AllocError>
    ensures { IfOk result (λ b. b ≡ spec.is_right_output (asked told.now) reference.now (Some output.now)) }
{
    if !is_entity(alloc, &output.entity, reference)? {
        return Ok(false);
    }
    let offers = output.offers.as_slice();
    let references = references_of(alloc, offers)?;
    let noted = noted(alloc, references.as_slice())?;
    are_right_offers(alloc, told, &noted, offers)
}

fn is_right_record(
    alloc: Global,
    told: &Told,
    reference: &Ref,
    holder: u64,
    number: u64,
    output: Option<&StoredOutput>,
) -> Result<bool, AllocError>
    ensures { IfOk result (λ b. b ≡ spec.is_right_record (asked told.now) reference.now holder number (option_map (λ x. x.now) output.entry)) }
{
    if !has_number(told, number) || !is_rooted(told, reference, holder) {
        return Ok(false);
    }
    if told.orphans.get(reference).is_some() {
        return Ok(false);
    }
    match output {
        None => Ok(true),
        Some(output) => is_right_output(alloc, told, reference, output),
    }
}

fn is_right_orphan(
    alloc: Global,
    told: &Told,
    reference: &Ref,
    entity: &Node,
    number: u64,
) -> Result<bool, AllocError>
    ensures { IfOk result (λ b. b ≡ spec.is_right_orphan (asked told.now) reference.now entity.now number) }
{
    if !has_number(told, number) {
        return Ok(false);
    }
    is_entity(alloc, entity, reference)
}

/// Whether a row keeps to the rules, but for the limit on input bytes.
pub fn is_right(alloc: Global, told: &Told, row: &StoredRow) -> Result<bool, AllocError>
    ensures { IfOk result (λ b. b ≡ spec.is_right (asked told.now) row.now) }
{
    match row {
        StoredRow::Counter(counter, next) => Ok(is_right_counter(told, *counter, *next)),
        StoredRow::Provider { .. } | StoredRow::Shelf { .. } | StoredRow::Settings(_) => Ok(true),
        StoredRow::Item {
            provider,
            reference,
            arrival,
            ..
        } => is_right_item(alloc, told, provider, *arrival, reference, None),
        StoredRow::ItemOne {
            provider,
            reference,
            arrival,
            tree,
            ..
        } => is_right_item(alloc, told, provider, *arrival, reference, Some(tree)),
        StoredRow::Record {
            reference,
            holder,
            number,
            output,
            ..
        } => is_right_record(alloc, told, reference, *holder, *number, lent(output)),
        StoredRow::RecordOne {
            reference,
            holder,
            number,
            output,
            ..
        } => is_right_record(alloc, told, reference, *holder, *number, Some(output)),
        StoredRow::Orphan {
            reference,
            entity,
            number,
        } => is_right_orphan(alloc, told, reference, entity, *number),
        StoredRow::Tree { arrival, .. } => Ok(told.given.get(arrival).is_some()),
    }
}
