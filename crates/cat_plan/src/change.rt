//! An event's own change, and what holding makes of it.
ghost use Rattle.std.specs.Prelude.{◌≡◌, ◌++◌, IfOk, Option, option_map};
ghost use Rattle.cat_collections.specs.Table.{text_cmp};
ghost use Rattle.cat_collections.specs.Order.{in_order};
ghost use Rattle.cat_plan.specs.Linked.{is_own};
ghost use Rattle.cat_plan.specs.Following.{kept_now, orphan_then, own_reference, own_refs, record_then};

use crate::hold::is_held;
use cat_collections::key::Key;
use cat_collections::listing::Copied;
use cat_collections::map::Map;
use cat_links::links::Links;
use cat_model::rows::IndexedRows;
use cat_model::types::{Leaving, Orphan, Record, State};
use cat_tree::text::Text;
use cat_types::reference::Ref;
use cat_types::sorted::{append, in_order};
use std::alloc::{AllocError, Global};
use std::cmp::Ordering;

/// The reference that an event is about, and the record that it has once the event's own change is made: none where the
/// event forgets it. It is no orphan then.
#[derive(Drop)]
pub struct Own {
    pub reference: Ref,
    pub kept: Option<Record>,
}

/// An event's own change of a state, and what holding makes of it: the shelf, the rows and the holders are those after it.
/// `fresh` are the references that are newly held and `leaving` those that are no longer held, both in order; each other
/// reference whose work may differ is in `touched`. Records that leave are deleted or become orphans, as `how` says.
#[derive(Drop)]
pub struct Change<'a> {
    pub how: Leaving,
    pub own: &'a Option<Own>,
    pub m: &'a State,
    pub links: &'a Links,
    pub shelf: &'a Map<Text, Text>,
    pub rows: &'a IndexedRows,
    pub holders: &'a Map<Ref, u64>,
    pub fresh: &'a [Ref],
    pub leaving: &'a [Ref],
    pub touched: &'a [Ref],
}

/// Whether an event is about this reference.
pub fn is_own(change: &Change<'_>, reference: &Ref) -> bool
    ensures { result ≡ is_own (own_reference change.now.own.now) reference.now }
{
    match change.own {
        None => false,
        Some(own) => own.reference.compare(reference) == Ordering::Equal,
    }
}

/// A reference's record once the event's own change is made.
pub fn record_then<'a>(change: &Change<'a>, reference: &Ref) -> Option<&'a Record>
    ensures { option_map (λ x. x.now) result ≡ record_then change.now.own.now change.now.m.now.records reference.now }
{
    match change.own {
        None => change.m.records.get(reference),
        Some(own) => {
            if own.reference.compare(reference) == Ordering::Equal {
                own.kept.as_ref()
            } else {
                change.m.records.get(reference)
            }
        }
    }
}

/// A reference's orphan once the event's own change is made.
pub fn orphan_then<'a>(change: &Change<'a>, reference: &Ref) -> Option<&'a Orphan>
    ensures { option_map (λ x. x.now) result ≡ orphan_then change.now.own.now change.now.m.now.orphans reference.now }
{
    if is_own(change, reference) {
        None
    } else {
        change.m.orphans.get(reference)
    }
}

/// A held reference's record, but for its due moment and lease; none where it is new.
pub fn kept_now<'a>(change: &Change<'a>, reference: &Ref) -> Option<&'a Record>
    ensures { option_map (λ x. x.now) result ≡ kept_now change.now.own.now change.now.m.now change.now.holders.now reference.now }
{
    if is_held(change.holders, reference) {
        record_then(change, reference)
    } else {
        None
    }
}

// The reference that the event is about, if there is one.
fn own_refs(alloc: Global, own: &Option<Own>) -> Result<Vec<Ref>, AllocError>
    ensures { IfOk result (λ l. l.items ≡ own_refs own.now) }
{
    let mut list = Vec::new(alloc);
    match own {
        None => {}
        Some(own) => list.push(own.reference.duplicate(alloc)?)?,
    }
    Ok(list)
}

/// The reference that the event is about, what is newly held, what is no longer held, and these, in order, each once.
pub fn reached(alloc: Global, change: &Change<'_>, more: &[Ref]) -> Result<Vec<Ref>, AllocError>
    ensures { IfOk result (λ l. l.items ≡ in_order text_cmp (((own_refs change.now.own.now ++ change.now.fresh.now) ++ change.now.leaving.now) ++ more.now)) }
{
    let mut list = own_refs(alloc, change.own)?;
    append(alloc, &mut list, change.fresh)?;
    append(alloc, &mut list, change.leaving)?;
    append(alloc, &mut list, more)?;
    Ok(in_order(list))
}
