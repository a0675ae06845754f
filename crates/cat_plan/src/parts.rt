//! Work and parts of a reference.
ghost use Rattle.std.specs.Prelude.{◌≡◌, ◌++◌, IfOk, Option, Bool, option_map, is_ok, if◌then◌else◌};
ghost use Rattle.std.specs.declared.option.Option.TheVariants.{Some};
ghost use Rattle.cat_collections.specs.Table.{get, keys, same_text, text_cmp};
ghost use Rattle.cat_plan.specs.Parts.{has_parts};
ghost use Rattle.cat_model.specs.Catalogue.{emits, from_source, output_of, same_option, work};

use crate::build::{Gives, Passes, filtered, tabulated};
use crate::hold::row_of;
use crate::layers::Layers;
use cat_collections::key::Key;
use cat_collections::listing::{Copied, Listing};
use cat_model::records::Records;
use cat_model::types::State;
use cat_types::parts::Parts;
use cat_types::reference::Ref;
use cat_types::relation::Relation;
use cat_types::work::Work;
use std::alloc::{AllocError, Global};
use std::cmp::Ordering;

/// The input of a reference, with its contents; none where no row holds it.
pub fn work_of<L: Layers>(
    alloc: Global,
    layers: &L,
    m: &State,
    reference: &Ref,
) -> Result<Option<Work>, AllocError>
    ensures { IfOk result (λ w. w ≡ work L.rules m.now reference.now) }
{
    match row_of(&m.rows, &m.holders, reference) {
        None => Ok(None),
        Some(row) => {
            let tree = row.offered.tree.duplicate(alloc)?;
            let contents = layers.contents(alloc, &tree, &m.shelf)?;
            Ok(Some(Work { tree, contents }))
        }
    }
}

/// Whether two works are equal, or neither is there.
pub fn same_option_work<L: Layers>(layers: &L, left: &Option<Work>, right: &Option<Work>) -> bool
    ensures { result ≡ same_option L.rules.same_work left.now right.now }
{
    match (left, right) {
        (None, None) => true,
        (Some(left), Some(right)) => layers.same_work(left, right),
        _ => false,
    }
}

/// Whether the parts of two documents are equal, or neither is there.
pub fn same_option_parts<L: Layers>(layers: &L, left: &Option<Parts>, right: &Option<Parts>) -> bool
    ensures { result ≡ same_option L.rules.same_parts left.now right.now }
{
    match (left, right) {
        (None, None) => true,
        (Some(left), Some(right)) => layers.same_parts(left, right),
        _ => false,
    }
}

/// Whether a reference has the same work in two states.
pub fn same_work_of<L: Layers>(
    alloc: Global,
    layers: &L,
    m: &State,
    n: &State,
    reference: &Ref,
) -> Result<bool, AllocError>
    ensures { IfOk result (λ b. b ≡ same_option L.rules.same_work (work L.rules m.now reference.now) (work L.rules n.now reference.now)) }
{
    let left = work_of(alloc, layers, m, reference)?;
    let right = work_of(alloc, layers, n, reference)?;
    Ok(same_option_work(layers, &left, &right))
}

/// What the record of a reference emits.
pub fn emitted_by<L: Layers>(
    alloc: Global,
    layers: &L,
    records: &Records,
    reference: &Ref,
) -> Result<Listing<Relation>, AllocError>
    ensures { IfOk result (λ l. l ≡ emits L.rules reference.now (output_of records.now reference.now)) }
{
    match records.get(reference) {
        Some(record) => match &record.output {
            Some(output) => layers.relations(alloc, &output.entity, reference),
            None => Ok(Listing::new(alloc)),
        },
        None => Ok(Listing::new(alloc)),
    }
}

/// Appends copies.
pub fn append<X: Copied + Drop>(
    alloc: Global,
    list: &mut Listing<X>,
    more: &[X],
) -> Result<(), AllocError>
    ensures { IfOk result (λ _. list.new ≡ list.old ++ more.now) }
{
    for item in more {
        list.push(item.duplicate(alloc)?)?;
    }
    Ok(())
}

/// Every key is there.
#[derive(Drop)]
pub struct Present;

impl<K> Gives<K, ()> for Present {
    ghost gives = { λ s k. Some tt };

    fn give(&self, _alloc: Global, _key: &K) -> Result<Option<()>, AllocError> {
        Ok(Some(()))
    }
}

#[derive(Drop)]
struct FromSource<'a> {
    source: &'a Ref,
}

impl Passes<Relation> for FromSource<'_> {
    ghost passes = { λ s x. same_text s.source.now x.source };

    fn test(&self, _alloc: Global, key: &Relation) -> Result<bool, AllocError> {
        Ok(self.source.compare(&key.source) == Ordering::Equal)
    }
}

/// The sorted distinct relations with this source.
pub fn relations_from(
    alloc: Global,
    source: &Ref,
    relations: &Listing<Relation>,
) -> Result<Listing<Relation>, AllocError>
    ensures { IfOk result (λ l. l ≡ from_source source.now relations.now) }
{
    let of_source = FromSource { source };
    let some = filtered(alloc, relations.as_slice(), &of_source)?;
    let sorted = tabulated(alloc, some.as_slice(), &Present)?;
    sorted.keys(alloc)
}

/// Whether a reference is an orphan or a record with an output, so that it has parts.
pub fn has_parts(m: &State, reference: &Ref) -> bool
    ensures { result ≡ has_parts (get m.now.orphans reference.now) (get m.now.records reference.now) }
{
    match m.records.get(reference) {
        None => m.orphans.get(reference).is_some(),
        Some(record) => record.output.is_some(),
    }
}
