//! What a row tells, kind by kind.
ghost use Rattle.std.specs.Prelude.{◌≡◌, ◌++◌, map, OnOk};
ghost use Rattle.cat_row_faults.specs.Told as spec;

use crate::collect::Tells;
use crate::told::{Given, Giver};
use cat_collections::listing::Copied;
use cat_row_format::row::{OrphanRule, StoredCounter, StoredOffer, StoredOutput, StoredRow};
use cat_tree::text::Text;
use cat_types::node::Node;
use cat_types::reference::Ref;
use std::alloc::{AllocError, Global};

/// The next arrival number.
#[derive(Drop)]
pub struct Arrivals;

/// The next number of a record or an orphan.
#[derive(Drop)]
pub struct Numbers;

/// The rule for orphans.
#[derive(Drop)]
pub struct Rules;

/// Serials by provider.
#[derive(Drop)]
pub struct Serials;

/// Items and offers by arrival number.
#[derive(Drop)]
pub struct Gives;

/// The numbers of records and orphans.
#[derive(Drop)]
pub struct Drawn;

/// The arrival numbers of the rows that hold, by reference.
#[derive(Drop)]
pub struct Holders;

/// The orphans' references.
#[derive(Drop)]
pub struct Orphans;

/// Trees by arrival number.
#[derive(Drop)]
pub struct Trees;

impl Tells<u64> for Arrivals {
    ghost tells = { spec.arrival_in };

    fn tell(&self, _alloc: Global, row: &StoredRow, out: &mut Vec<u64>) -> Result<(), AllocError> {
        match row {
            StoredRow::Counter(StoredCounter::Arrival, next) => Ok(out.push(*next)?),
            _ => Ok(()),
        }
    }
}

impl Tells<u64> for Numbers {
    ghost tells = { spec.number_in };

    fn tell(&self, _alloc: Global, row: &StoredRow, out: &mut Vec<u64>) -> Result<(), AllocError> {
        match row {
            StoredRow::Counter(StoredCounter::Number, next) => Ok(out.push(*next)?),
            _ => Ok(()),
        }
    }
}

impl Tells<OrphanRule> for Rules {
    ghost tells = { spec.rule_in };

    fn tell(
        &self,
        _alloc: Global,
        row: &StoredRow,
        out: &mut Vec<OrphanRule>,
    ) -> Result<(), AllocError> {
        match row {
            StoredRow::Settings(rule) => Ok(out.push(*rule)?),
            _ => Ok(()),
        }
    }
}

impl Tells<(Text, u64)> for Serials {
    ghost tells = { spec.serial_in };

    fn tell(
        &self,
        alloc: Global,
        row: &StoredRow,
        out: &mut Vec<(Text, u64)>,
    ) -> Result<(), AllocError> {
        match row {
            StoredRow::Provider { name, serial } => {
                Ok(out.push((name.duplicate(alloc)?, *serial))?)
            }
            _ => Ok(()),
        }
    }
}

// Puts an item behind what arrived.
fn push_item(
    alloc: Global,
    arrival: u64,
    reference: &Ref,
    out: &mut Vec<(u64, Given)>,
) -> Result<(), AllocError>
    ensures { OnOk result (out.new.items ≡ out.old.items ++ spec.items_given arrival reference.now) }
{
    let reference = reference.duplicate(alloc)?;
    let giver = Giver::Provider;
    out.push((arrival, Given { giver, reference }))?;
    Ok(())
}

// Puts the offers of a record behind what arrived.
fn push_offers(
    alloc: Global,
    emitter: &Ref,
    offers: &[StoredOffer],
    out: &mut Vec<(u64, Given)>,
) -> Result<(), AllocError>
    ensures { OnOk result (out.new.items ≡ out.old.items ++ map (spec.offer_given emitter.now) offers.now) }
{
    for offer in offers {
        let giver = Giver::Record(emitter.duplicate(alloc)?);
        let reference = offer.reference.duplicate(alloc)?;
        out.push((offer.arrival, Given { giver, reference }))?;
    }
    Ok(())
}

// Puts what a record gave last behind what arrived.
fn push_output(
    alloc: Global,
    emitter: &Ref,
    output: &Option<StoredOutput>,
    out: &mut Vec<(u64, Given)>,
) -> Result<(), AllocError>
    ensures { OnOk result (out.new.items ≡ out.old.items ++ spec.offers_given emitter.now output.now) }
{
    match output {
        None => Ok(()),
        Some(output) => push_offers(alloc, emitter, output.offers.as_slice(), out),
    }
}

impl Tells<(u64, Given)> for Gives {
    ghost tells = { spec.given_in };

    fn tell(
        &self,
        alloc: Global,
        row: &StoredRow,
        out: &mut Vec<(u64, Given)>,
    ) -> Result<(), AllocError> {
        match row {
            StoredRow::Item {
                reference,
                arrival,
                ..
            }
            | StoredRow::ItemOne {
                reference,
                arrival,
                ..
            } => push_item(alloc, *arrival, reference, out),
            StoredRow::Record {
                reference,
                output,
                ..
            } => push_output(alloc, reference, output, out),
            StoredRow::RecordOne {
                reference,
                output,
                ..
            } => push_offers(alloc, reference, output.offers.as_slice(), out),
            _ => Ok(()),
        }
    }
}

impl Tells<u64> for Drawn {
    ghost tells = { spec.drawn_in };

    fn tell(&self, _alloc: Global, row: &StoredRow, out: &mut Vec<u64>) -> Result<(), AllocError> {
        match row {
            StoredRow::Record { number, .. }
            | StoredRow::RecordOne { number, .. }
            | StoredRow::Orphan { number, .. } => Ok(out.push(*number)?),
            _ => Ok(()),
        }
    }
}

impl Tells<(Ref, u64)> for Holders {
    ghost tells = { spec.holder_in };

    fn tell(
        &self,
        alloc: Global,
        row: &StoredRow,
        out: &mut Vec<(Ref, u64)>,
    ) -> Result<(), AllocError> {
        match row {
            StoredRow::Record {
                reference,
                holder,
                ..
            }
            | StoredRow::RecordOne {
                reference,
                holder,
                ..
            } => Ok(out.push((reference.duplicate(alloc)?, *holder))?),
            _ => Ok(()),
        }
    }
}

impl Tells<(Ref, ())> for Orphans {
    ghost tells = { spec.orphan_in };

    fn tell(
        &self,
        alloc: Global,
        row: &StoredRow,
        out: &mut Vec<(Ref, ())>,
    ) -> Result<(), AllocError> {
        match row {
            StoredRow::Orphan { reference, .. } => {
                Ok(out.push((reference.duplicate(alloc)?, ()))?)
            }
            _ => Ok(()),
        }
    }
}

impl Tells<(u64, Node)> for Trees {
    ghost tells = { spec.tree_in };

    fn tell(
        &self,
        alloc: Global,
        row: &StoredRow,
        out: &mut Vec<(u64, Node)>,
    ) -> Result<(), AllocError> {
        match row {
            StoredRow::Tree { arrival, tree } => {
                Ok(out.push((*arrival, tree.duplicate(alloc)?))?)
            }
            _ => Ok(()),
        }
    }
}
