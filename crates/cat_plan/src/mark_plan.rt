//! The marks, documents and tickets that follow from a change, asked of what it reaches.
ghost use Rattle.std.specs.Prelude.{◌≡◌, ◌+◌, ◌≤◌, ◌^◌, ◌++◌, ◌&&◌, not, [], IfOk, Option, Bool, is_some, length, option_map};
ghost use Rattle.std.specs.List.{filter};
ghost use Rattle.std.specs.List.Sorted.{IsStrictlySortedBy};
ghost use Rattle.std.proofs.Props.{props};
ghost use Rattle.cat_collections.specs.Order.{in_order};
ghost use Rattle.cat_collections.specs.Table.{get, text_cmp};
ghost use Rattle.cat_links.specs.Changes.{AreChanged};
ghost use Rattle.cat_model.specs.declared.types.State.{State};
ghost use Rattle.cat_model.specs.Catalogue.{frame, reheld, rerecorded, same_option, tickets};
ghost use Rattle.cat_model.specs.Sound.{AreOrdered, Sound};
ghost use Rattle.cat_plan.specs.Amended.{amended};
ghost use Rattle.cat_plan.specs.Linked.{AreApart, AreLinked, linked_parts};
ghost use Rattle.cat_plan.specs.Following.{document_goes, has_parts_now, mark_goes, own_refs, parts_moved, parts_now};
ghost use Rattle.cat_plan.specs.Made.{AreReached, IsMade};

use crate::amended::{Amendment, count_of, numbered};
use crate::build::{Passes, filtered};
use crate::change::{Change, kept_now, reached};
use crate::layers::Layers;
use crate::linked_parts::{is_relinked, parts_of};
use crate::orphan_plan::{is_orphan_now, orphan_now};
use crate::parts::same_option_parts;
use cat_collections::listing::Listing;
use cat_links::links::LinkPlan;
use cat_types::parts::Parts;
use cat_types::reference::Ref;
use std::alloc::{AllocError, Global};

/// The marks that a change puts and takes out, the documents that it takes out, and the next ticket after it.
#[derive(Drop)]
pub struct MarkPlan {
    pub marks: Amendment<u64>,
    pub documents: Listing<Ref>,
    pub ticket: u64,
}

// The parts of a reference's document after the change.
fn parts_now<L: Layers>(
    alloc: Global,
    layers: &L,
    change: &Change<'_>,
    plan: &LinkPlan,
    reference: &Ref,
) -> Result<Option<Parts>, AllocError>
    ensures { IfOk result (λ p. p ≡ parts_now L.rules plan.now.after change.now.how change.now.own.now change.now.m.now change.now.holders.now reference.now) }
{
    let orphan = orphan_now(alloc, change, reference)?;
    let kept = kept_now(change, reference);
    parts_of(
        alloc,
        layers,
        plan.after(),
        reference,
        orphan.as_ref(),
        kept,
    )
}

// Whether a reference has parts after the change.
fn has_parts_now(change: &Change<'_>, reference: &Ref) -> bool
    ensures { result ≡ has_parts_now change.now.how change.now.own.now change.now.m.now change.now.holders.now reference.now }
{
    match kept_now(change, reference) {
        None => is_orphan_now(change, reference),
        Some(kept) => kept.output.is_some(),
    }
}

// Whether a reference has parts after the change that aren't those before it.
fn has_moved<L: Layers>(
    alloc: Global,
    layers: &L,
    change: &Change<'_>,
    plan: &LinkPlan,
    reference: &Ref,
) -> Result<bool, AllocError>
    requires rises { IsStrictlySortedBy text_cmp plan.now.changed }
    requires apart { AreApart change.now.links.now plan.now.after plan.now.changed }
    ensures { IfOk result (λ b. b ≡ parts_moved L.rules change.now.links.now plan.now.after change.now.how change.now.own.now change.now.m.now change.now.holders.now reference.now) }
{
    if is_relinked(plan, reference, kept_now(change, reference)) {
        return Ok(true);
    }
    let now = parts_now(alloc, layers, change, plan, reference)?;
    if now.is_none() {
        return Ok(false);
    }
    let orphan = change.m.orphans.get(reference);
    let kept = change.m.records.get(reference);
    let then = parts_of(alloc, layers, change.links, reference, orphan, kept)?;
    Ok(!same_option_parts(layers, &then, &now))
}

#[derive(Drop)]
struct HasMoved<'l, 'c, 'p, L> {
    layers: &'l L,
    change: &'c Change<'c>,
    plan: &'p LinkPlan,
    ghost rises: { IsStrictlySortedBy text_cmp plan.now.changed } by { Prim.hlevel props },
    ghost apart: { AreApart change.now.links.now plan.now.after plan.now.changed },
}

impl<L: Layers> Passes<Ref> for HasMoved<'_, '_, '_, L> {
    ghost passes = { λ s r. parts_moved L.rules s.change.now.links.now s.plan.now.after s.change.now.how s.change.now.own.now s.change.now.m.now s.change.now.holders.now r };

    fn test(&self, alloc: Global, key: &Ref) -> Result<bool, AllocError> {
        has_moved(alloc, self.layers, self.change, self.plan, key)
    }
}

#[derive(Drop)]
struct MarkGoes<'a> {
    change: &'a Change<'a>,
}

impl Passes<Ref> for MarkGoes<'_> {
    ghost passes = { λ s r. mark_goes s.change.now.how s.change.now.own.now s.change.now.m.now s.change.now.holders.now r };

    fn test(&self, _alloc: Global, key: &Ref) -> Result<bool, AllocError> {
        Ok(self.change.m.marks.get(key).is_some() && !has_parts_now(self.change, key))
    }
}

#[derive(Drop)]
struct DocumentGoes<'a> {
    change: &'a Change<'a>,
}

impl Passes<Ref> for DocumentGoes<'_> {
    ghost passes = { λ s r. document_goes s.change.now.how s.change.now.own.now s.change.now.m.now s.change.now.holders.now r };

    fn test(&self, _alloc: Global, key: &Ref) -> Result<bool, AllocError> {
        Ok(self.change.m.documents.get(key).is_some() && !has_parts_now(self.change, key))
    }
}

// Those of these references that have parts after the change that aren't those before it.
fn moved<L: Layers>(
    alloc: Global,
    layers: &L,
    change: &Change<'_>,
    plan: &LinkPlan,
    asked: &[Ref],
) -> Result<Listing<Ref>, AllocError>
    requires rises { IsStrictlySortedBy text_cmp plan.now.changed }
    requires apart { AreApart change.now.links.now plan.now.after plan.now.changed }
    ensures { IfOk result (λ l. l ≡ filter (parts_moved L.rules change.now.links.now plan.now.after change.now.how change.now.own.now change.now.m.now change.now.holders.now) asked.now) }
{
    let has_moved = HasMoved {
        layers,
        change,
        plan,
    };
    filtered(alloc, asked, &has_moved)
}

/// The marks, documents and tickets that follow from a change, where the plan of the links is that of the change: of what
/// it reaches, and of the sources whose relations it changes, what has other parts than before draws a ticket, in order of
/// reference, and what has none loses mark and document. The only refusal is want of memory.
pub fn plan_marks<L: Layers>(
    alloc: Global,
    layers: &L,
    change: &Change<'_>,
    plan: &LinkPlan,
) -> Result<MarkPlan, AllocError>
    requires ticket { change.now.m.now.ticket ≤ 2 ^ 59 }
    requires sound { Sound L.rules change.now.m.now }
    requires ordered { AreOrdered change.now.m.now }
    requires reach { AreReached L.rules change.now }
    requires before { AreLinked L.rules change.now.links.now change.now.m.now }
    requires after { (n : State) → IsMade change.now n
        → AreLinked L.rules plan.now.after (rerecorded L.rules change.now.how change.now.m.now n (reheld n)) }
    requires changed { AreChanged change.now.links.now plan.now.after plan.now.changed }
    ensures marks { IfOk result (λ x. (n : State) → IsMade change.now n
        → amended x.marks.put.items x.marks.gone change.now.m.now.marks ≡ (frame L.rules change.now.how change.now.m.now n).marks) }
    ensures documents { IfOk result (λ x. (n : State) → IsMade change.now n
        → amended [] x.documents change.now.m.now.documents ≡ (frame L.rules change.now.how change.now.m.now n).documents) }
    ensures ticket { IfOk result (λ x. (n : State) → IsMade change.now n
        → x.ticket ≡ (frame L.rules change.now.how change.now.m.now n).ticket) }
{
    let all = reached(alloc, change, plan.changed())?;
    let moved = moved(alloc, layers, change, plan, all.as_slice())?;
    let put = numbered(alloc, change.m.ticket, moved.as_slice())?;
    let gone = filtered(alloc, all.as_slice(), &MarkGoes { change })?;
    let documents = filtered(alloc, all.as_slice(), &DocumentGoes { change })?;
    let ticket = change.m.ticket + count_of(moved.as_slice()) as u64;
    let marks = Amendment { put, gone };
    Ok(MarkPlan {
        marks,
        documents,
        ticket,
    })
}
