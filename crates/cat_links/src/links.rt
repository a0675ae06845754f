//! The relations of all emitters, what a change of them changes, and the relations of a source.
ghost use Rattle.std.specs.Prelude.{◌≡◌, ◌++◌, [], IfOk, IsTrue, length, option_map, slice_get};
ghost use Rattle.std.specs.FinMap.Entries.{is_sorted};
ghost use Rattle.std.specs.List.{filter};
ghost use Rattle.std.specs.Iterator.{YieldsFirstRef, item_count};
ghost use Rattle.cat_collections.specs.Table.{text_cmp};
ghost use Rattle.cat_collections.specs.Order.{in_order};
ghost use Rattle.cat_links.specs.Changes.{AreChanged, touched, with_changes, with_emitter};
ghost use Rattle.cat_links.specs.Left.{relations_left};
ghost use Rattle.cat_links.specs.Links as spec;

use crate::counts::{Counts, SourceCounts, gain, is_counted, lose};
use crate::moved::difference;
use cat_collections::listing::{Copied, Listing};
use cat_collections::map::Map;
use cat_types::reference::Ref;
use cat_types::relation::Relation;
use cat_types::sorted::{append, in_order};
use std::alloc::{AllocError, Global};
use std::marker::Model;

/// From now on the emitter emits just these relations. With none, it emits nothing.
#[derive(Drop)]
pub struct EmitChange {
    pub emitter: Ref,
    pub relations: Listing<Relation>,
}

type Emitted = Map<Ref, Listing<Relation>>;

/// The relations that each emitter emits. Contracts see the table from emitters to their relations, in order of emitter. An
/// emitter that came to emit nothing isn't in the table.
#[derive(Drop)]
pub struct Links {
    emitted: Emitted,
    // each relation that is emitted, by its source, with the number of its emitters
    counts: Counts,
}

impl Model for Links {
    ghost use Rattle.std.specs.Prelude.{List};
    ghost use Rattle.cat_types.specs.declared.relation.Relation.{Relation};
    ghost use Rattle.cat_collections.specs.Table.{Map};
    ghost use Rattle.cat_links.specs.Counts.{AreCounts};

    ghost Value = { Map (List Relation) };

    ghost view = { λ a. a.emitted };

    ghost invariant = { λ a. AreCounts a.emitted a.counts };
}

/// The relations of a source, which `Links` lends. Contracts see the list of them.
#[derive(Drop)]
pub struct Linked<'a> {
    counts: Option<&'a SourceCounts>,
}

impl<'a> Model for Linked<'a> {
    ghost use Rattle.std.specs.Prelude.{List, [], option_map, unwrap_or};
    ghost use Rattle.cat_types.specs.declared.relation.Relation.{Relation};
    ghost use Rattle.cat_collections.specs.Table.{keys};

    ghost Value = { List Relation };

    ghost view = { λ a. keys (unwrap_or (option_map (λ x. x.now) a.counts) []) };
}

/// The relations of a source from a place on, in order.
#[derive(Drop)]
pub struct Relations<'a> {
    counts: Option<&'a SourceCounts>,
    place: usize,
}

impl<'a> Linked<'a> {
    /// How many relations there are.
    pub fn len(&self) -> usize
        ensures { result ≡ length self.now }
    {
        match self.counts {
            Some(counts) => counts.len(),
            None => 0,
        }
    }

    /// The relation at a place, counted from 0; none past the end.
    pub fn at(&self, place: usize) -> Option<&'a Relation>
        ensures { option_map (λ x. x.now) result ≡ slice_get self.now place }
    {
        match self.counts?.at(place) {
            Some((relation, _)) => Some(relation),
            None => None,
        }
    }

    /// The relations in order.
    pub fn iter(&self) -> Relations<'a>
        ensures { relations_left result ≡ self.now }
    {
        Relations {
            counts: self.counts,
            place: 0,
        }
    }

    /// Copies of the relations, in order.
    pub fn copies(&self, alloc: Global) -> Result<Listing<Relation>, AllocError>
        ensures { IfOk result (λ list. list ≡ self.now) }
    {
        let mut list = Vec::new(alloc);
        for relation in self.iter() {
            list.push(relation.duplicate(alloc)?)?;
        }
        Ok(Listing::from_vec(list))
    }
}

impl<'a> Iterator for Relations<'a> {
    type Item = &'a Relation;

    ghost next_gives = { YieldsFirstRef relations_left };

    ghost remaining = { item_count relations_left };

    #[tactic(auto, using(crate::proofs::Left::drop_get))]
    fn next(&mut self) -> Option<&'a Relation> {
        let linked = Linked {
            counts: self.counts,
        };
        if self.place >= linked.len() {
            return None;
        }
        match linked.at(self.place) {
            None => None,
            Some(relation) => {
                self.place += 1;
                Some(relation)
            }
        }
    }
}

/// What a change of emitters comes to: the links after it, and the sources whose relations it changes.
#[derive(Drop)]
pub struct LinkPlan {
    after: Links,
    changed: Listing<Ref>,
}

// What an emitter emits.
fn emitted_by<'a>(emitted: &'a Emitted, emitter: &Ref) -> &'a [Relation]
    ensures { result.now ≡ spec.emitted_by emitted.now emitter.now }
{
    match emitted.get(emitter) {
        Some(relations) => relations.as_slice(),
        None => &[],
    }
}

fn comes_or_goes(before: &Links, after: &Links, relation: &Relation) -> bool
    ensures { result ≡ spec.comes_or_goes before.now after.now relation.now }
{
    if before.has(relation) {
        !after.has(relation)
    } else {
        after.has(relation)
    }
}

// The sources of those relations that come or go.
fn changed_sources(
    alloc: Global,
    before: &Links,
    after: &Links,
    touched: &[Relation],
) -> Result<Listing<Ref>, AllocError>
    ensures { IfOk result (λ list. list ≡ in_order text_cmp (spec.sources (filter (spec.comes_or_goes before.now after.now) touched.now))) }
{
    let mut sources = Vec::new(alloc);
    for relation in touched {
        if comes_or_goes(before, after, relation) {
            sources.push(relation.source.duplicate(alloc)?)?;
        }
    }
    Ok(Listing::from_vec(in_order(sources)))
}

impl Links {
    ghost use Rattle.cat_links.specs.Links.{relations_of};

    /// No emitters. Takes no memory.
    pub fn empty() -> Links
        ensures { result ≡ [] }
    {
        Links {
            emitted: Map::new(),
            counts: Map::new(),
        }
    }

    /// Equal links, which share all that these hold. Takes no memory.
    ///
    /// # Errors
    ///
    /// Only where one part of the links has 2^63 owners.
    pub fn share(&self) -> Result<Links, AllocError>
        ensures { IfOk result (λ links. links ≡ self.now) }
    {
        let emitted = self.emitted.share()?;
        let counts = self.counts.share()?;
        Ok(Links { emitted, counts })
    }

    /// The emitters stand in order.
    pub fn in_order(&self)
        ensures { IsTrue (is_sorted text_cmp self.now) }
    {
        let _emitted = &self.emitted;
    }

    /// Whether any emitter emits a relation. Takes no memory.
    pub fn has(&self, relation: &Relation) -> bool
        ensures { result ≡ spec.has relation.now (spec.all_emitted self.now) }
    {
        is_counted(&self.counts, relation)
    }

    // The links with this change. What comes and goes with it is appended to the list.
    fn with_change(
        self,
        alloc: Global,
        list: &mut Vec<Relation>,
        change: &EmitChange,
    ) -> Result<Links, AllocError>
        ensures links { IfOk result (λ links. links ≡ with_emitter change.now.emitter change.now.relations self) }
        ensures relations { IfOk result (λ _. list.new.items ≡ list.old.items
            ++ (spec.only_in change.now.relations (spec.emitted_by self change.now.emitter)
            ++ spec.only_in (spec.emitted_by self change.now.emitter) change.now.relations)) }
    {
        let Links {
            mut emitted,
            mut counts,
        } = self;
        let _emitters = emitted.len();
        let before = emitted_by(&emitted, &change.emitter);
        let moved = difference(alloc, before, change.relations.as_slice())?;
        append(alloc, list, moved.come.as_slice())?;
        append(alloc, list, moved.gone.as_slice())?;
        gain(alloc, &mut counts, moved.come.as_slice())?;
        lose(alloc, &mut counts, moved.gone.as_slice())?;
        put_emitter(alloc, &mut emitted, change)?;
        Ok(Links { emitted, counts })
    }

    // The links with these changes, and the relations that come or go with one of them.
    fn with_changes(
        &self,
        alloc: Global,
        changes: &[EmitChange],
    ) -> Result<(Links, Vec<Relation>), AllocError>
        ensures links { IfOk result (λ made. made.0 ≡ with_changes self.now changes.now) }
        ensures relations { IfOk result (λ made. made.1.items ≡ touched self.now changes.now) }
    {
        let mut links = self.share()?;
        let mut list = Vec::new(alloc);
        for change in changes {
            links = links.with_change(alloc, &mut list, change)?;
        }
        Ok((links, list))
    }

    /// What these changes, one after the other, come to: where an emitter stands in two, the later counts. The only refusal is
    /// want of memory.
    ///
    /// It costs what the changes bring and take, each relation the way down to its count. All else the links after them share
    /// with these.
    pub fn plan(&self, alloc: Global, changes: &[EmitChange]) -> Result<LinkPlan, AllocError>
        ensures after { IfOk result (λ plan. plan.after ≡ with_changes self.now changes.now) }
        ensures changed { IfOk result (λ plan. AreChanged self.now plan.after plan.changed) }
    {
        self.in_order();
        let (after, touched) = self.with_changes(alloc, changes)?;
        let changed = changed_sources(alloc, self, &after, touched.as_slice())?;
        Ok(LinkPlan { after, changed })
    }

    /// The links are those after the changes of the plan. Takes no memory.
    pub fn apply(&mut self, plan: LinkPlan)
        ensures { self.new ≡ plan.after }
    {
        *self = plan.after;
    }

    /// The sorted distinct relations of all emitters with this source. Takes no memory.
    pub fn of(&self, source: &Ref) -> Linked<'_>
        ensures { result ≡ relations_of self.now source.now }
    {
        Linked {
            counts: self.counts.get(source),
        }
    }
}

// The emitter of a change emits its relations.
fn put_emitter(alloc: Global, emitted: &mut Emitted, change: &EmitChange) -> Result<(), AllocError>
    ensures { IfOk result (λ _. emitted.new ≡ with_emitter change.now.emitter change.now.relations emitted.old) }
{
    if change.relations.len() == 0 {
        emitted.remove(alloc, &change.emitter)
    } else {
        let emitter = change.emitter.duplicate(alloc)?;
        let relations = change.relations.duplicate(alloc)?;
        emitted.put(alloc, emitter, relations)
    }
}

impl LinkPlan {
    /// Lends the links after the changes.
    pub fn after(&self) -> &Links
        ensures { result.now ≡ self.now.after }
    {
        &self.after
    }

    /// The sources whose relations the changes change, in order, each once.
    pub fn changed(&self) -> &[Ref]
        ensures { result.now ≡ self.now.changed }
    {
        self.changed.as_slice()
    }
}
