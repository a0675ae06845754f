//! Rows of the parts of a state.
ghost use Rattle.std.specs.Prelude.{◌≡◌, IfOk, option_map, unwrap_or, map, true};
ghost use Rattle.cat_row_format.specs.Formed as formed;
ghost use Rattle.cat_row_format.specs.Parsed as parsed;
ghost use Rattle.cat_collections.specs.Table.{find, get};
ghost use Rattle.cat_stored_rows.specs.Stored as spec;

use crate::version::Version;
use cat_collections::listing::{Copied, Listing};
use cat_collections::map::Map;
use cat_collections::pair::Pair;
use cat_model::types::{self, Orphan, ProviderInputs, Record};
use cat_row_format::row::{OrphanRule, StoredOffer, StoredOutput, StoredRow};
use cat_tree::text::Text;
use cat_types::input::Offered;
use cat_types::issue::Issue;
use cat_types::node::Node;
use cat_types::reference::Ref;
use cat_types::work::Output;
use std::alloc::{AllocError, Global};

/// The arrival number of the last row of each emitter and reference.
pub type Emitted = Map<(Ref, Ref), u64>;

/// The rule, as rows name it.
pub fn rule_of(rule: types::OrphanRule) -> OrphanRule
    ensures { result ≡ spec.rule_of rule }
{
    match rule {
        types::OrphanRule::Keep => OrphanRule::Keep,
        types::OrphanRule::Delete => OrphanRule::Delete,
    }
}

/// The row of a provider.
pub fn provider_row(
    alloc: Global,
    name: &Text,
    inputs: &ProviderInputs,
) -> Result<StoredRow, AllocError>
    ensures { IfOk result (λ row. row ≡ spec.provider_row (name.now, inputs.now)) }
{
    Ok(StoredRow::Provider {
        name: name.duplicate(alloc)?,
        serial: inputs.serial,
    })
}

/// The row of an item, with its tree where the version has it there.
pub fn item_row(
    alloc: Global,
    version: Version,
    provider: &Text,
    reference: &Ref,
    arrival: u64,
    offered: &Offered,
) -> Result<StoredRow, AllocError>
    ensures { IfOk result (λ row. row ≡ parsed.item_row provider.now reference.now arrival offered.now.key (spec.tree_beside version offered.now.tree)) }
{
    let provider = provider.duplicate(alloc)?;
    let reference = reference.duplicate(alloc)?;
    let key = offered.key.duplicate(alloc)?;
    match version {
        Version::One => Ok(StoredRow::ItemOne {
            provider,
            reference,
            arrival,
            key,
            tree: offered.tree.duplicate(alloc)?,
        }),
        Version::Two => Ok(StoredRow::Item {
            provider,
            reference,
            arrival,
            key,
        }),
    }
}

/// The row of a text of the shelf.
pub fn shelf_row(alloc: Global, name: &Text, body: &Text) -> Result<StoredRow, AllocError>
    ensures { IfOk result (λ row. row ≡ spec.shelf_row (name.now, body.now)) }
{
    Ok(StoredRow::Shelf {
        name: name.duplicate(alloc)?,
        body: body.duplicate(alloc)?,
    })
}

/// The row of an orphan.
pub fn orphan_row(alloc: Global, reference: &Ref, orphan: &Orphan) -> Result<StoredRow, AllocError>
    ensures { IfOk result (λ row. row ≡ spec.orphan_row (reference.now, orphan.now)) }
{
    Ok(StoredRow::Orphan {
        reference: reference.duplicate(alloc)?,
        entity: orphan.entity.duplicate(alloc)?,
        number: orphan.number,
    })
}

// The arrival number of the row of an offer; 0 where there is no such row.
fn arrival_of(arrivals: &Emitted, emitter: &Ref, reference: &Ref) -> u64
    ensures { result ≡ unwrap_or (find spec.pairs_cmp (emitter.now, reference.now) arrivals.now) 0 }
{
    let pair = Pair {
        first: emitter,
        second: reference,
    };
    match arrivals.seek(&pair) {
        Some(arrival) => *arrival,
        None => 0,
    }
}

// The tree of an offer, where the version has it beside the offer.
fn tree_beside(alloc: Global, version: Version, tree: &Node) -> Result<Option<Node>, AllocError>
    ensures { IfOk result (λ beside. beside ≡ spec.tree_beside version tree.now) }
{
    match version {
        Version::One => Ok(Some(tree.duplicate(alloc)?)),
        Version::Two => Ok(None),
    }
}

// What a record's row has of an offer.
fn offer_row(
    alloc: Global,
    version: Version,
    arrivals: &Emitted,
    emitter: &Ref,
    reference: &Ref,
    offered: &Offered,
) -> Result<StoredOffer, AllocError>
    ensures { IfOk result (λ offer. offer ≡ spec.offer_in version arrivals.now emitter.now (reference.now, offered.now)) }
{
    Ok(StoredOffer {
        arrival: arrival_of(arrivals, emitter, reference),
        key: offered.key.duplicate(alloc)?,
        reference: reference.duplicate(alloc)?,
        tree: tree_beside(alloc, version, &offered.tree)?,
    })
}

// What a record's row has of offers.
fn offer_rows(
    alloc: Global,
    version: Version,
    arrivals: &Emitted,
    emitter: &Ref,
    offers: &[(Ref, Offered)],
) -> Result<Listing<StoredOffer>, AllocError>
    ensures { IfOk result (λ rows. rows ≡ map (spec.offer_in version arrivals.now emitter.now) offers.now) }
{
    let mut rows = Vec::with_capacity(alloc, offers.len())?;
    for (reference, offered) in offers {
        let offer = offer_row(alloc, version, arrivals, emitter, reference, offered)?;
        rows.push(offer)?;
    }
    Ok(Listing::from_vec(rows))
}

// What a record's row has of what it gave last.
fn output_row(
    alloc: Global,
    version: Version,
    arrivals: &Emitted,
    emitter: &Ref,
    output: &Option<Output>,
) -> Result<Option<StoredOutput>, AllocError>
    ensures { IfOk result (λ row. row ≡ option_map (spec.output_in version arrivals.now emitter.now) output.now) }
{
    match output {
        None => Ok(None),
        Some(output) => {
            let entity = output.entity.duplicate(alloc)?;
            let offers = offer_rows(alloc, version, arrivals, emitter, output.offers.as_slice())?;
            Ok(Some(StoredOutput { entity, offers }))
        }
    }
}

// The arrival number of the row that holds a reference; 0 where none does.
fn holder_of(holders: &Map<Ref, u64>, reference: &Ref) -> u64
    ensures { result ≡ unwrap_or (get holders.now reference.now) 0 }
{
    match holders.get(reference) {
        Some(arrival) => *arrival,
        None => 0,
    }
}

// Whether there is an offer.
fn is_any(offers: &[StoredOffer]) -> bool
    ensures { result ≡ formed.is_any offers.now }
{
    match offers.first() {
        Some(_) => true,
        None => false,
    }
}

// A record of the first version, which has a form of its own where there are offers.
fn record_one(
    reference: Ref,
    holder: u64,
    issues: Listing<Issue>,
    number: u64,
    output: Option<StoredOutput>,
) -> StoredRow
    ensures { result ≡ spec.record_one reference holder issues number output }
{
    match output {
        Some(output) if is_any(output.offers.as_slice()) => StoredRow::RecordOne {
            reference,
            holder,
            issues,
            number,
            output,
        },
        output => StoredRow::Record {
            reference,
            holder,
            issues,
            number,
            output,
        },
    }
}

/// The row of a record, in the form that the version has for it.
pub fn record_row(
    alloc: Global,
    version: Version,
    holders: &Map<Ref, u64>,
    arrivals: &Emitted,
    reference: &Ref,
    record: &Record,
) -> Result<StoredRow, AllocError>
    ensures { IfOk result (λ row. row ≡ spec.record_in version holders.now arrivals.now (reference.now, «record».now)) }
{
    let issues = record.issues.duplicate(alloc)?;
    let output = output_row(alloc, version, arrivals, reference, &record.output)?;
    let number = record.number;
    let holder = holder_of(holders, reference);
    let reference = reference.duplicate(alloc)?;
    match version {
        Version::One => Ok(record_one(reference, holder, issues, number, output)),
        Version::Two => Ok(StoredRow::Record {
            reference,
            holder,
            issues,
            number,
            output,
        }),
    }
}
