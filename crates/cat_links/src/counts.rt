//! How many emitters emit each relation, by source.
ghost use Rattle.std.specs.Prelude.{◌≡◌, ◌+◌, ◌<◌, ◌^◌, IfOk, is_some, length};
ghost use Rattle.cat_types.specs.Relation.{relation_cmp};
ghost use Rattle.cat_collections.specs.Table.{find};
ghost use Rattle.cat_links.specs.Links.{is_empty};
ghost use Rattle.cat_links.specs.Counts as spec;

use cat_collections::listing::Copied;
use cat_collections::map::Map;
use cat_types::reference::Ref;
use cat_types::relation::Relation;
use std::alloc::{AllocError, Global};

/// The relations of one source, each with the number of its emitters.
pub type SourceCounts = Map<Relation, u64>;

/// The counts of each source that has relations.
pub type Counts = Map<Ref, SourceCounts>;

// A copy of the counts of a source, which shares them.
fn counts_from(counts: &Counts, source: &Ref) -> Result<SourceCounts, AllocError>
    ensures { IfOk result (λ own. own ≡ spec.counts_from counts.now source.now) }
{
    match counts.get(source) {
        Some(own) => own.share(),
        None => Ok(Map::new()),
    }
}

fn is_empty(own: &SourceCounts) -> bool
    ensures { result ≡ is_empty own.now }
{
    own.len() == 0
}

fn put_counts(
    alloc: Global,
    counts: &mut Counts,
    source: &Ref,
    own: SourceCounts,
) -> Result<(), AllocError>
    ensures { IfOk result (λ _. counts.new ≡ spec.with_counts source.now own counts.old) }
{
    if is_empty(&own) {
        counts.remove(alloc, source)?;
        return Ok(());
    }
    let source = source.duplicate(alloc)?;
    counts.put(alloc, source, own)?;
    Ok(())
}

// How many emitters emit a relation, among the counts of its source.
fn count_in(own: &SourceCounts, relation: &Relation) -> u64
    ensures { result ≡ spec.count_in own.now relation.now }
{
    own.get(relation).copied().unwrap_or(0)
}

/// Whether a relation is counted. Takes no memory.
pub fn is_counted(counts: &Counts, relation: &Relation) -> bool
    ensures { result ≡ is_some (find relation_cmp relation.now (spec.counts_from counts.now relation.now.source)) }
{
    match counts.get(&relation.source) {
        Some(own) => own.get(relation).is_some(),
        None => false,
    }
}

fn count_one_more(alloc: Global, counts: &mut Counts, relation: &Relation) -> Result<(), AllocError>
    requires room { spec.count_at counts.old relation.now + 1 < 2 ^ 64 }
    ensures { IfOk result (λ _. counts.new ≡ spec.one_more relation.now counts.old) }
{
    let mut own = counts_from(counts, &relation.source)?;
    let count = count_in(&own, relation);
    own.put(alloc, relation.duplicate(alloc)?, count + 1)?;
    put_counts(alloc, counts, &relation.source, own)
}

// The counts of a source with this relation counted once less.
fn one_less_in(
    alloc: Global,
    own: SourceCounts,
    relation: &Relation,
) -> Result<SourceCounts, AllocError>
    ensures { IfOk result (λ less. less ≡ spec.one_less_in relation.now own) }
{
    let mut own = own;
    let count = count_in(&own, relation);
    if count > 1 {
        own.put(alloc, relation.duplicate(alloc)?, count - 1)?;
    } else {
        own.remove(alloc, relation)?;
    }
    Ok(own)
}

fn count_one_less(alloc: Global, counts: &mut Counts, relation: &Relation) -> Result<(), AllocError>
    ensures { IfOk result (λ _. counts.new ≡ spec.one_less relation.now counts.old) }
{
    let own = counts_from(counts, &relation.source)?;
    let less = one_less_in(alloc, own, relation)?;
    put_counts(alloc, counts, &relation.source, less)
}

/// Counts each of the relations once more.
pub fn gain(alloc: Global, counts: &mut Counts, relations: &[Relation]) -> Result<(), AllocError>
    requires room { (x : _) → spec.count_at counts.old x + length relations.now < 2 ^ 64 }
    ensures { IfOk result (λ _. counts.new ≡ spec.gained relations.now counts.old) }
{
    for relation in relations {
        count_one_more(alloc, counts, relation)?;
    }
    Ok(())
}

/// Counts each of the relations once less.
pub fn lose(alloc: Global, counts: &mut Counts, relations: &[Relation]) -> Result<(), AllocError>
    ensures { IfOk result (λ _. counts.new ≡ spec.lost relations.now counts.old) }
{
    for relation in relations {
        count_one_less(alloc, counts, relation)?;
    }
    Ok(())
}
