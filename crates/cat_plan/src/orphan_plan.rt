//! The orphans that follow from a change, asked of what it reaches.
ghost use Rattle.std.specs.Prelude.{◌≡◌, ◌&&◌, IfOk, Option, Bool, is_none, is_some, option_map};
ghost use Rattle.std.specs.Option.{option_and_then};
ghost use Rattle.std.specs.List.{filter};
ghost use Rattle.cat_collections.specs.Table.{get};
ghost use Rattle.cat_model.specs.Catalogue.{orphan_from_record};
ghost use Rattle.cat_plan.specs.Amended.{entries_of};
ghost use Rattle.cat_plan.specs.Following.{orphan_goes, orphan_now, orphan_put};

use crate::amended::{Amendment, entries_of};
use crate::build::{Gives, Passes, filtered};
use crate::change::{Change, orphan_then, record_then};
use crate::hold::is_held;
use cat_collections::listing::Copied;
use cat_model::types::{Leaving, Orphan, Record};
use cat_types::reference::Ref;
use std::alloc::{AllocError, Global};

// What becomes of a record that leaves.
fn left_orphan(alloc: Global, how: Leaving, left: &Record) -> Result<Option<Orphan>, AllocError>
    ensures { IfOk result (λ x. x ≡ orphan_from_record how left.now) }
{
    match how {
        Leaving::Deleted => Ok(None),
        Leaving::Orphaned => match &left.output {
            None => Ok(None),
            Some(output) => {
                let entity = output.entity.duplicate(alloc)?;
                Ok(Some(Orphan {
                    number: left.number,
                    entity,
                }))
            }
        },
    }
}

/// A reference's orphan after a change.
pub fn orphan_now(
    alloc: Global,
    change: &Change<'_>,
    reference: &Ref,
) -> Result<Option<Orphan>, AllocError>
    ensures { IfOk result (λ x. x ≡ orphan_now change.now.how change.now.own.now change.now.m.now change.now.holders.now reference.now) }
{
    if is_held(change.holders, reference) {
        return Ok(None);
    }
    match record_then(change, reference) {
        Some(record) => left_orphan(alloc, change.how, record),
        None => match orphan_then(change, reference) {
            None => Ok(None),
            Some(orphan) => Ok(Some(orphan.duplicate(alloc)?)),
        },
    }
}

fn becomes_orphan(how: Leaving, left: &Record) -> bool
    ensures { result ≡ is_some (orphan_from_record how left.now) }
{
    match how {
        Leaving::Deleted => false,
        Leaving::Orphaned => left.output.is_some(),
    }
}

/// Whether a reference is an orphan after a change.
pub fn is_orphan_now(change: &Change<'_>, reference: &Ref) -> bool
    ensures { result ≡ is_some (orphan_now change.now.how change.now.own.now change.now.m.now change.now.holders.now reference.now) }
{
    if is_held(change.holders, reference) {
        return false;
    }
    match record_then(change, reference) {
        Some(record) => becomes_orphan(change.how, record),
        None => orphan_then(change, reference).is_some(),
    }
}

#[derive(Drop)]
struct OrphanPut<'a> {
    change: &'a Change<'a>,
}

impl Gives<Ref, Orphan> for OrphanPut<'_> {
    ghost gives = { λ s r. orphan_put s.change.now.how s.change.now.own.now s.change.now.m.now s.change.now.holders.now r };

    fn give(&self, alloc: Global, key: &Ref) -> Result<Option<Orphan>, AllocError> {
        let change = self.change;
        if is_held(change.holders, key) {
            return Ok(None);
        }
        match record_then(change, key) {
            None => Ok(None),
            Some(record) => left_orphan(alloc, change.how, record),
        }
    }
}

#[derive(Drop)]
struct OrphanGoes<'a> {
    change: &'a Change<'a>,
}

impl Passes<Ref> for OrphanGoes<'_> {
    ghost passes = { λ s r. orphan_goes s.change.now.how s.change.now.own.now s.change.now.m.now s.change.now.holders.now r };

    fn test(&self, _alloc: Global, key: &Ref) -> Result<bool, AllocError> {
        Ok(self.change.m.orphans.get(key).is_some() && !is_orphan_now(self.change, key))
    }
}

/// The orphans that a change puts and takes out, where these are what it reaches. The only refusal is want of memory.
pub fn plan_orphans(
    alloc: Global,
    change: &Change<'_>,
    reached: &[Ref],
) -> Result<Amendment<Orphan>, AllocError>
    ensures put { IfOk result (λ x. x.put.items ≡ entries_of (orphan_put change.now.how change.now.own.now change.now.m.now change.now.holders.now) reached.now) }
    ensures gone { IfOk result (λ x. x.gone ≡ filter (orphan_goes change.now.how change.now.own.now change.now.m.now change.now.holders.now) reached.now) }
{
    let put = entries_of(alloc, reached, &OrphanPut { change })?;
    let gone = filtered(alloc, reached, &OrphanGoes { change })?;
    Ok(Amendment { put, gone })
}
