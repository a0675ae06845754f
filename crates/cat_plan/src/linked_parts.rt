//! The parts of a reference's document, with the relations that the links give.
ghost use Rattle.std.specs.Prelude.{◌≡◌, ◌++◌, ◌&&◌, IfOk, Option, is_some, option_map};
ghost use Rattle.std.specs.List.{list_any};
ghost use Rattle.std.specs.List.Sorted.{IsStrictlySortedBy};
ghost use Rattle.std.specs.Option.{option_and_then};
ghost use Rattle.cat_collections.specs.Table.{get, same_text, text_cmp};
ghost use Rattle.cat_links.specs.Links.{relations_of};
ghost use Rattle.cat_plan.specs.Linked.{AreLinked, AreRecorded, linked_from, linked_orphan, linked_record};
ghost use Rattle.cat_model.specs.Catalogue.{parts};

use crate::layers::Layers;
use crate::parts::{append, relations_from};
use cat_collections::listing::{Copied, Listing};
use cat_links::links::{LinkPlan, Links};
use cat_model::types::{Orphan, Record, State};
use cat_types::parts::Parts;
use cat_types::reference::Ref;
use cat_types::sorted::is_among;
use std::alloc::{AllocError, Global};

fn orphan_parts<L: Layers>(
    alloc: Global,
    layers: &L,
    links: &Links,
    reference: &Ref,
    orphan: Option<&Orphan>,
) -> Result<Option<Parts>, AllocError>
    ensures { IfOk result (λ p. p ≡ linked_orphan L.rules links.now reference.now (option_map (λ x. x.now) orphan.entry)) }
{
    match orphan {
        None => Ok(None),
        Some(orphan) => {
            let mut all = links.of(reference).copies(alloc)?;
            let own = layers.relations(alloc, &orphan.entity, reference)?;
            append(alloc, &mut all, own.as_slice())?;
            let relations = relations_from(alloc, reference, &all)?;
            let entity = orphan.entity.duplicate(alloc)?;
            Ok(Some(Parts {
                entity,
                number: orphan.number,
                orphan: true,
                relations,
                issues: Listing::new(alloc),
            }))
        }
    }
}

fn record_parts(
    alloc: Global,
    links: &Links,
    reference: &Ref,
    kept: &Record,
) -> Result<Option<Parts>, AllocError>
    ensures { IfOk result (λ p. p ≡ linked_record links.now reference.now kept.now kept.now.output) }
{
    match &kept.output {
        None => Ok(None),
        Some(output) => {
            let relations = links.of(reference).copies(alloc)?;
            let entity = output.entity.duplicate(alloc)?;
            let issues = kept.issues.duplicate(alloc)?;
            Ok(Some(Parts {
                entity,
                number: kept.number,
                orphan: false,
                relations,
                issues,
            }))
        }
    }
}

/// What the document of a reference is made of that is this orphan, or has this record; none where it is neither, or the
/// record has no output.
pub fn parts_of<L: Layers>(
    alloc: Global,
    layers: &L,
    links: &Links,
    reference: &Ref,
    orphan: Option<&Orphan>,
    kept: Option<&Record>,
) -> Result<Option<Parts>, AllocError>
    ensures { IfOk result (λ p. p ≡ linked_from L.rules links.now reference.now (option_map (λ x. x.now) orphan.entry) (option_map (λ x. x.now) kept.entry)) }
{
    match kept {
        None => orphan_parts(alloc, layers, links, reference, orphan),
        Some(kept) => record_parts(alloc, links, reference, kept),
    }
}

/// The parts of a reference's document, where the links are those of the state.
pub fn present_parts<L: Layers>(
    alloc: Global,
    layers: &L,
    links: &Links,
    m: &State,
    reference: &Ref,
) -> Result<Option<Parts>, AllocError>
    requires linked { AreLinked L.rules links.now m.now }
    requires recorded { AreRecorded m.now }
    ensures { IfOk result (λ p. p ≡ parts L.rules m.now reference.now) }
{
    parts_of(
        alloc,
        layers,
        links,
        reference,
        m.orphans.get(reference),
        m.records.get(reference),
    )
}

fn has_output(kept: Option<&Record>) -> bool
    ensures { result ≡ is_some (option_and_then (λ x. x.output) (option_map (λ x. x.now) kept.entry)) }
{
    match kept {
        None => false,
        Some(kept) => kept.output.is_some(),
    }
}

/// Whether a reference has other relations after the plan of the links than before, and an output in this record. Then its parts
/// differ, and none need be made to compare them.
pub fn is_relinked(plan: &LinkPlan, reference: &Ref, kept: Option<&Record>) -> bool
    requires { IsStrictlySortedBy text_cmp plan.now.changed }
    ensures { result ≡ (list_any (same_text reference.now) plan.now.changed && is_some (option_and_then (λ x. x.output) (option_map (λ x. x.now) kept.entry))) }
{
    is_among(reference, plan.changed()) && has_output(kept)
}
