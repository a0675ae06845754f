//! The places that an event reaches.
ghost use Rattle.std.specs.Prelude.{◌≡◌, ◌∷◌, [], IfOk, OnOk, flat_map, option_map};
ghost use Rattle.cat_row_updates.specs.Places as spec;

use crate::item::is_offer;
use crate::place::{Place, key_of};
use crate::reached::Reached;
use cat_collections::listing::Copied;
use cat_collections::map::Map;
use cat_keeper::table::Table;
use cat_model::rows::IndexedRows;
use cat_model::types::{Origin, Row, State};
use cat_row_format::row::StoredCounter;
use cat_tree::text::Text;
use cat_types::reference::Ref;
use std::alloc::{AllocError, Global};

/// Places, each under the key that stands for it, in order of the keys.
pub type Placed = Map<(Table, Text), Place>;

// Puts a place under its key.
fn put_place(alloc: Global, made: &mut Placed, place: Place) -> Result<(), AllocError>
    ensures { OnOk result (made.new ≡ spec.put_places (place ∷ []) made.old) }
{
    let key = key_of(alloc, &place)?;
    made.put(alloc, key, place)
}

// Puts the place of what gave a row: its item; or the record of an entity, unless the other row is that offer too.
fn put_giver(
    alloc: Global,
    made: &mut Placed,
    other: Option<&Row>,
    arrival: u64,
    row: &Row,
) -> Result<(), AllocError>
    ensures { OnOk result (made.new ≡ spec.put_places (spec.giver_places (option_map (λ x. x.now) other.entry) arrival row.now.reference row.now.origin) made.old) }
{
    match &row.origin {
        Origin::Provider(name) => {
            let provider = name.duplicate(alloc)?;
            let reference = row.reference.duplicate(alloc)?;
            let item = Place::Item {
                provider,
                reference,
                arrival,
            };
            put_place(alloc, made, item)
        }
        Origin::Entity(entity) => {
            if is_offer(entity, &row.reference, other) {
                return Ok(());
            }
            put_place(alloc, made, Place::Record(entity.duplicate(alloc)?))
        }
    }
}

// Puts the places of a row, if there is one.
fn put_row(
    alloc: Global,
    made: &mut Placed,
    other: Option<&Row>,
    arrival: u64,
    row: Option<&Row>,
) -> Result<(), AllocError>
    ensures { OnOk result (made.new ≡ spec.put_places (spec.row_places (option_map (λ x. x.now) other.entry) arrival (option_map (λ x. x.now) row.entry)) made.old) }
{
    match row {
        None => Ok(()),
        Some(row) => {
            put_place(alloc, made, Place::Tree(arrival))?;
            put_giver(alloc, made, other, arrival, row)
        }
    }
}

// Puts the places of the rows of a reference, where others stand before or after them.
#[tactic(auto, using(crate::proofs::Putting::places_parts))]
fn put_named(
    alloc: Global,
    made: &mut Placed,
    rows: &IndexedRows,
    others: &IndexedRows,
    reference: &Ref,
) -> Result<(), AllocError>
    ensures { OnOk result (made.new ≡ spec.put_places (spec.named_places rows.now others.now reference.now) made.old) }
{
    let arrivals = rows.named(alloc, reference)?;
    for arrival in arrivals.as_slice() {
        put_row(
            alloc,
            made,
            others.get(arrival),
            *arrival,
            rows.get(arrival),
        )?;
    }
    Ok(())
}

// Puts the places of a reference. Those of the rows after the event come last, so that an item is looked for where it is.
#[tactic(auto, using(crate::proofs::Putting::places_parts))]
fn put_reference(
    alloc: Global,
    made: &mut Placed,
    before: &State,
    after: &State,
    reference: &Ref,
) -> Result<(), AllocError>
    ensures { OnOk result (made.new ≡ spec.put_places (spec.reference_places before.now after.now reference.now) made.old) }
{
    put_place(alloc, made, Place::Record(reference.duplicate(alloc)?))?;
    put_place(alloc, made, Place::Orphan(reference.duplicate(alloc)?))?;
    put_named(alloc, made, &before.rows, &after.rows, reference)?;
    put_named(alloc, made, &after.rows, &before.rows, reference)
}

// Puts the places of references.
#[tactic(auto, using(crate::proofs::Putting::places_parts))]
fn put_references(
    alloc: Global,
    made: &mut Placed,
    before: &State,
    after: &State,
    references: &[Ref],
) -> Result<(), AllocError>
    ensures { OnOk result (made.new ≡ spec.put_places (flat_map (spec.reference_places before.now after.now) references.now) made.old) }
{
    for reference in references {
        put_reference(alloc, made, before, after, reference)?;
    }
    Ok(())
}

// Puts the places that are looked at after every event: the counters and the rule for orphans.
fn put_fixed(alloc: Global, made: &mut Placed) -> Result<(), AllocError>
    ensures { OnOk result (made.new ≡ spec.put_places spec.fixed_places made.old) }
{
    put_place(alloc, made, Place::Counter(StoredCounter::Arrival))?;
    put_place(alloc, made, Place::Counter(StoredCounter::Number))?;
    put_place(alloc, made, Place::Settings)
}

// Puts the place of a provider, if there is one.
fn put_provider(alloc: Global, made: &mut Placed, provider: &Option<Text>) -> Result<(), AllocError>
    ensures { OnOk result (made.new ≡ spec.put_places (spec.provider_places provider.now) made.old) }
{
    match provider {
        None => Ok(()),
        Some(name) => put_place(alloc, made, Place::Provider(name.duplicate(alloc)?)),
    }
}

// Puts the place of a text of the shelf, if there is one.
fn put_name(alloc: Global, made: &mut Placed, name: &Option<Text>) -> Result<(), AllocError>
    ensures { OnOk result (made.new ≡ spec.put_places (spec.name_places name.now) made.old) }
{
    match name {
        None => Ok(()),
        Some(name) => put_place(alloc, made, Place::Shelf(name.duplicate(alloc)?)),
    }
}

/// All places that are reached, each under its key. The error is want of memory.
pub fn places(
    alloc: Global,
    reached: &Reached,
    before: &State,
    after: &State,
) -> Result<Placed, AllocError>
    ensures { IfOk result (λ made. made ≡ spec.put_places (spec.places reached.now before.now after.now) []) }
{
    let mut made = Map::new();
    put_fixed(alloc, &mut made)?;
    put_provider(alloc, &mut made, &reached.provider)?;
    put_name(alloc, &mut made, &reached.name)?;
    put_references(
        alloc,
        &mut made,
        before,
        after,
        reached.references.as_slice(),
    )?;
    Ok(made)
}
