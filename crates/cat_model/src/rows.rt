//! Rows of offers that are found by arrival, by the entity that gave them, by their reference, and by what they read of the shelf.
ghost use Rattle.std.specs.Prelude.{◌≡◌, [], IfOk, IsTrue, None, if◌then◌else◌, is_ok, length, option_map};
ghost use Rattle.std.specs.FinMap.Entries.{is_sorted};
ghost use Rattle.std.specs.Ordering.{nat_cmp};
ghost use Rattle.std.specs.Option.{unwrap_or};
ghost use Rattle.cat_collections.specs.Left.{items_left};
ghost use Rattle.cat_collections.specs.Places.{first_from, from};
ghost use Rattle.cat_collections.specs.Rows.{without};
ghost use Rattle.cat_collections.specs.Table.{find, keys, put, text_cmp};
ghost use Rattle.cat_model.specs.declared.types.Origin.TheVariants.{Entity};
ghost use Rattle.cat_model.specs.Rows.{GivenRises, GivenRisesLess, IsRowAt, Rises, RisesLess, given, named, names_of, reading, row_at, set_with, set_without, with_arrival, with_given, with_names, with_read, with_set, without_arrival, without_given, without_names};

use crate::types::{Origin, Row};
use cat_collections::key::Key;
use cat_collections::listing::{Copied, Listing};
use cat_collections::map::Map;
use cat_collections::tree::Items;
use cat_target::target::read_names;
use cat_tree::text::Text;
use cat_types::reference::Ref;
use std::alloc::{AllocError, Global};
use std::marker::Model;

// Sets of arrivals by key.
type Index<K> = Map<K, Map<u64, ()>>;

/// Rows by arrival, and their arrivals by entity, by reference, and by the shelf names that their descriptors may read. Contracts
/// see the rows, in order of arrival. A copy shares the rows with what it was made of, and takes no memory.
pub struct IndexedRows {
    rows: Map<u64, Row>,
    by_entity: Index<Ref>,
    by_reference: Index<Ref>,
    by_name: Index<Text>,
}

// Written out, and not derived: so the crates above let go of rows by one call.
impl Drop for IndexedRows {
    fn drop(self) {
        let IndexedRows {
            rows: _,
            by_entity: _,
            by_reference: _,
            by_name: _,
        } = self;
    }
}

impl Model for IndexedRows {
    ghost use Rattle.cat_model.specs.Rows.{AreRead, IsIndexed, Rows};
    ghost use Rattle.cat_model.specs.contracts.types.Row.{the_row};
    ghost use Rattle.std.specs.Coded.{coded_list, coded×, coded_ℕ};

    ghost Value = { Rows };

    ghost coded = { coded_list (coded× coded_ℕ the_row.coded) };

    ghost view = { λ a. a.rows };

    ghost invariant = { λ a. IsIndexed a.rows a.by_entity a.by_reference × AreRead a.rows a.by_name };
}

// The set of a key, if there is one.
fn set_of<K: Key>(index: &Index<K>, key: &K) -> Result<Map<u64, ()>, AllocError>
    ensures { IfOk result (λ s. s ≡ unwrap_or (find K.order key.now index.now) []) }
{
    match index.get(key) {
        Some(set) => set.share(),
        None => Ok(Map::new()),
    }
}

// The set of a key, with one arrival more.
fn set_with<K: Key>(
    alloc: Global,
    index: &Index<K>,
    key: &K,
    arrival: u64,
) -> Result<Map<u64, ()>, AllocError>
    ensures set { IfOk result (λ s. s ≡ set_with K.order key.now arrival index.now) }
    ensures order { IfOk result (λ s. Rises K.order key.now arrival index.now) }
{
    let mut set = set_of(index, key)?;
    set.put(alloc, arrival, ())?;
    set.in_order();
    Ok(set)
}

// An index, with one arrival more under a key.
fn with_arrival<K: Key + Copied + Drop>(
    alloc: Global,
    index: &Index<K>,
    key: &K,
    arrival: u64,
) -> Result<Index<K>, AllocError>
    ensures index { IfOk result (λ x. x ≡ with_arrival K.order key.now arrival index.now) }
    ensures order { IfOk result (λ x. Rises K.order key.now arrival index.now) }
{
    let set = set_with(alloc, index, key, arrival)?;
    let mut next = index.share()?;
    next.put(alloc, key.duplicate(alloc)?, set)?;
    Ok(next)
}

fn with_given(
    alloc: Global,
    index: &Index<Ref>,
    origin: &Origin,
    arrival: u64,
) -> Result<Index<Ref>, AllocError>
    ensures index { IfOk result (λ x. x ≡ with_given origin.now arrival index.now) }
    ensures order { IfOk result (λ x. GivenRises origin.now arrival index.now) }
{
    match origin {
        Origin::Provider(_) => index.share(),
        Origin::Entity(e) => with_arrival(alloc, index, e, arrival),
    }
}

// The set of a key, with one arrival less.
fn set_without<K: Key>(
    alloc: Global,
    index: &Index<K>,
    key: &K,
    arrival: u64,
) -> Result<Map<u64, ()>, AllocError>
    ensures set { IfOk result (λ s. s ≡ set_without K.order key.now arrival index.now) }
    ensures order { IfOk result (λ s. RisesLess K.order key.now arrival index.now) }
{
    let mut set = set_of(index, key)?;
    set.remove(alloc, &arrival)?;
    set.in_order();
    Ok(set)
}

// An index with this set under a key; where it is empty, with none.
fn with_set<K: Key + Copied + Drop>(
    alloc: Global,
    index: &Index<K>,
    key: &K,
    set: Map<u64, ()>,
) -> Result<Index<K>, AllocError>
    ensures { IfOk result (λ x. x ≡ with_set K.order key.now set index.now) }
{
    let mut next = index.share()?;
    if set.is_empty() {
        next.remove(alloc, key)?;
        return Ok(next);
    }
    next.put(alloc, key.duplicate(alloc)?, set)?;
    Ok(next)
}

// An index, with one arrival less under a key.
fn without_arrival<K: Key + Copied + Drop>(
    alloc: Global,
    index: &Index<K>,
    key: &K,
    arrival: u64,
) -> Result<Index<K>, AllocError>
    ensures index { IfOk result (λ x. x ≡ without_arrival K.order key.now arrival index.now) }
    ensures order { IfOk result (λ x. RisesLess K.order key.now arrival index.now) }
{
    let set = set_without(alloc, index, key, arrival)?;
    with_set(alloc, index, key, set)
}

fn without_given(
    alloc: Global,
    index: &Index<Ref>,
    origin: &Origin,
    arrival: u64,
) -> Result<Index<Ref>, AllocError>
    ensures index { IfOk result (λ x. x ≡ without_given origin.now arrival index.now) }
    ensures order { IfOk result (λ x. GivenRisesLess origin.now arrival index.now) }
{
    match origin {
        Origin::Provider(_) => index.share(),
        Origin::Entity(e) => without_arrival(alloc, index, e, arrival),
    }
}

// The shelf names that the descriptor of a row may read, if there is one.
fn names_of(alloc: Global, row: Option<&Row>) -> Result<Vec<Text>, AllocError>
    ensures { IfOk result (λ names. names.items ≡ names_of (option_map (λ x. x.now) row.entry)) }
{
    match row {
        None => Ok(Vec::new(alloc)),
        Some(row) => read_names(alloc, row.offered.tree.tree()),
    }
}

// An index, with one arrival more under each of these names.
fn with_names(
    alloc: Global,
    index: &Index<Text>,
    names: &[Text],
    arrival: u64,
) -> Result<Index<Text>, AllocError>
    ensures { IfOk result (λ x. x ≡ with_names names.now arrival index.now) }
{
    let mut next = index.share()?;
    for name in names {
        next = with_arrival(alloc, &next, name, arrival)?;
    }
    Ok(next)
}

// An index, with one arrival less under each of these names.
fn without_names(
    alloc: Global,
    index: &Index<Text>,
    names: &[Text],
    arrival: u64,
) -> Result<Index<Text>, AllocError>
    ensures { IfOk result (λ x. x ≡ without_names names.now arrival index.now) }
{
    let mut next = index.share()?;
    for name in names {
        next = without_arrival(alloc, &next, name, arrival)?;
    }
    Ok(next)
}

// An index, without the arrival under the names of the row that it has.
fn unread(
    alloc: Global,
    index: &Index<Text>,
    rows: &Map<u64, Row>,
    arrival: u64,
) -> Result<Index<Text>, AllocError>
    ensures { IfOk result (λ x. x ≡ without_names (names_of (row_at rows.now arrival)) arrival index.now) }
{
    let names = names_of(alloc, rows.get(&arrival))?;
    without_names(alloc, index, names.as_slice(), arrival)
}

// An index in which the arrival stands under the names of this row, and no longer under those of the row that it had.
fn with_read(
    alloc: Global,
    index: &Index<Text>,
    rows: &Map<u64, Row>,
    arrival: u64,
    row: &Row,
) -> Result<Index<Text>, AllocError>
    ensures { IfOk result (λ x. x ≡ with_read rows.now arrival row.now index.now) }
{
    let rest = unread(alloc, index, rows, arrival)?;
    let names = names_of(alloc, Some(row))?;
    with_names(alloc, &rest, names.as_slice(), arrival)
}

impl Copied for IndexedRows {
    fn duplicate(&self, _alloc: Global) -> Result<IndexedRows, AllocError> {
        self.share()
    }
}

// Arrivals by entity and by reference.
#[derive(Drop)]
struct Indexes {
    by_entity: Index<Ref>,
    by_reference: Index<Ref>,
}

// The indexes by entity and by reference, with the arrival of this row.
fn indexes_with(
    alloc: Global,
    by_entity: &Index<Ref>,
    by_reference: &Index<Ref>,
    arrival: u64,
    row: &Row,
) -> Result<Indexes, AllocError>
    ensures entity { IfOk result (λ x. x.by_entity ≡ with_given row.now.origin arrival by_entity.now) }
    ensures entity_order { IfOk result (λ x. GivenRises row.now.origin arrival by_entity.now) }
    ensures reference { IfOk result (λ x. x.by_reference ≡ with_arrival text_cmp row.now.reference arrival by_reference.now) }
    ensures reference_order { IfOk result (λ x. Rises text_cmp row.now.reference arrival by_reference.now) }
{
    let by_entity = with_given(alloc, by_entity, &row.origin, arrival)?;
    let by_reference = with_arrival(alloc, by_reference, &row.reference, arrival)?;
    Ok(Indexes {
        by_entity,
        by_reference,
    })
}

// The indexes by entity and by reference, without the arrival of a row of this origin and reference.
fn indexes_without(
    alloc: Global,
    by_entity: &Index<Ref>,
    by_reference: &Index<Ref>,
    arrival: u64,
    origin: &Origin,
    reference: &Ref,
) -> Result<Indexes, AllocError>
    ensures entity { IfOk result (λ x. x.by_entity ≡ without_given origin.now arrival by_entity.now) }
    ensures entity_order { IfOk result (λ x. GivenRisesLess origin.now arrival by_entity.now) }
    ensures reference { IfOk result (λ x. x.by_reference ≡ without_arrival text_cmp reference.now arrival by_reference.now) }
    ensures reference_order { IfOk result (λ x. RisesLess text_cmp reference.now arrival by_reference.now) }
{
    let by_entity = without_given(alloc, by_entity, origin, arrival)?;
    let by_reference = without_arrival(alloc, by_reference, reference, arrival)?;
    Ok(Indexes {
        by_entity,
        by_reference,
    })
}

impl IndexedRows {
    /// No rows. Takes no memory.
    pub fn new() -> IndexedRows
        ensures { result ≡ [] }
    {
        IndexedRows {
            rows: Map::new(),
            by_entity: Map::new(),
            by_reference: Map::new(),
            by_name: Map::new(),
        }
    }

    /// A copy that shares the rows. Takes no memory.
    pub fn share(&self) -> Result<IndexedRows, AllocError>
        ensures { IfOk result (λ x. x ≡ self.now) }
    {
        Ok(IndexedRows {
            rows: self.rows.share()?,
            by_entity: self.by_entity.share()?,
            by_reference: self.by_reference.share()?,
            by_name: self.by_name.share()?,
        })
    }

    /// Puts a new row. Where memory is wanted, all is as before.
    pub fn put(&mut self, alloc: Global, arrival: u64, row: Row) -> Result<(), AllocError>
        requires { row_at self.now arrival ≡ None }
        ensures { self.new ≡ (if is_ok result then put nat_cmp arrival row self.old else self.old) }
    {
        self.rows.in_order();
        let indexes = indexes_with(alloc, &self.by_entity, &self.by_reference, arrival, &row)?;
        let by_name = with_read(alloc, &self.by_name, &self.rows, arrival, &row)?;
        self.rows.put(alloc, arrival, row)?;
        self.by_entity = indexes.by_entity;
        self.by_reference = indexes.by_reference;
        self.by_name = by_name;
        Ok(())
    }

    /// Puts a row in place of one of the same origin and reference. Where memory is wanted, all is as before.
    pub fn replace(&mut self, alloc: Global, arrival: u64, row: Row) -> Result<(), AllocError>
        requires { IsRowAt self.now arrival row.origin row.reference }
        ensures { self.new ≡ (if is_ok result then put nat_cmp arrival row self.old else self.old) }
    {
        self.rows.in_order();
        let by_name = with_read(alloc, &self.by_name, &self.rows, arrival, &row)?;
        self.rows.put(alloc, arrival, row)?;
        self.by_name = by_name;
        Ok(())
    }

    /// Removes a row. Where memory is wanted, all is as before.
    pub fn remove(
        &mut self,
        alloc: Global,
        arrival: u64,
        origin: &Origin,
        reference: &Ref,
    ) -> Result<(), AllocError>
        requires { IsRowAt self.now arrival origin.now reference.now }
        ensures { self.new ≡ (if is_ok result then without nat_cmp arrival self.old else self.old) }
    {
        self.rows.in_order();
        let indexes = indexes_without(
            alloc,
            &self.by_entity,
            &self.by_reference,
            arrival,
            origin,
            reference,
        )?;
        let by_name = unread(alloc, &self.by_name, &self.rows, arrival)?;
        self.rows.remove(alloc, &arrival)?;
        self.by_entity = indexes.by_entity;
        self.by_reference = indexes.by_reference;
        self.by_name = by_name;
        Ok(())
    }

    /// How many rows there are.
    pub fn len(&self) -> usize
        ensures { result ≡ length self.now }
    {
        self.rows.len()
    }

    /// Arrivals rise. Does nothing; its callers learn it.
    pub fn in_order(&self)
        ensures { IsTrue (is_sorted nat_cmp self.now) }
    {
        self.rows.in_order();
    }

    /// The row with this arrival.
    pub fn get(&self, arrival: &u64) -> Option<&Row>
        ensures { option_map (λ x. x.now) result ≡ row_at self.now arrival.now }
    {
        self.rows.get(arrival)
    }

    /// Lends the rows in order of arrival.
    pub fn iter(&self) -> Items<'_, (u64, Row)>
        ensures { items_left result ≡ self.now }
    {
        self.rows.iter()
    }

    /// The first row whose arrival is this one or a greater one.
    pub fn first_from(&self, arrival: &u64) -> Option<&(u64, Row)>
        ensures { option_map (λ e. e.now) result ≡ first_from nat_cmp arrival.now self.now }
    {
        self.rows.first_from(arrival)
    }

    /// Lends the rows from this arrival on, in order of arrival.
    pub fn iter_from(&self, arrival: &u64) -> Items<'_, (u64, Row)>
        ensures { items_left result ≡ from nat_cmp arrival.now self.now }
    {
        self.rows.iter_from(arrival)
    }

    /// The arrivals of the rows that an entity gave, in order.
    pub fn given(&self, alloc: Global, entity: &Ref) -> Result<Listing<u64>, AllocError>
        ensures { IfOk result (λ l. l ≡ given self.now (Entity entity.now)) }
    {
        match self.by_entity.get(entity) {
            Some(arrivals) => arrivals.keys(alloc),
            None => Ok(Listing::new(alloc)),
        }
    }

    /// The arrivals of the rows of a reference, in order.
    pub fn named(&self, alloc: Global, reference: &Ref) -> Result<Listing<u64>, AllocError>
        ensures { IfOk result (λ l. l ≡ named self.now reference.now) }
    {
        match self.by_reference.get(reference) {
            Some(arrivals) => arrivals.keys(alloc),
            None => Ok(Listing::new(alloc)),
        }
    }

    /// The arrivals of the rows whose descriptors may read a shelf name, in order.
    pub fn reading(&self, alloc: Global, name: &Text) -> Result<Listing<u64>, AllocError>
        ensures { IfOk result (λ l. l ≡ reading self.now name.now) }
    {
        self.rows.in_order();
        let arrivals = set_of(&self.by_name, name)?;
        arrivals.in_order();
        arrivals.keys(alloc)
    }
}
