//! Shelf changes and forgets.
ghost use Rattle.std.specs.Prelude.{◌≡◌, ◌≤◌, ◌^◌, ◌++◌, IfOk, IsTrue, Option, Bool, [], is_some, not, option_map};
ghost use Rattle.std.specs.declared.option.Option.TheVariants.{None, Some};
ghost use Rattle.std.specs.FinMap.Entries.{is_sorted};
ghost use Rattle.std.specs.List.{cons_option, filter, filter_map};
ghost use Rattle.cat_collections.specs.Table.{get, put, text_cmp};
ghost use Rattle.cat_plan.specs.Following.{held_state};
ghost use Rattle.cat_plan.specs.Linked.{AreLinked};
ghost use Rattle.cat_model.specs.declared.types.Leaving.TheVariants.{Deleted};
ghost use Rattle.cat_model.specs.declared.types.Origin.TheVariants.{Entity};
ghost use Rattle.cat_model.specs.Catalogue.{frame, same_option, work};
ghost use Rattle.cat_model.specs.Rows.{row_at};
ghost use Rattle.cat_model.specs.Step.{forgotten, replaced, without_key};
ghost use Rattle.cat_model.specs.Step.Event.{Forget, ShelfDrop, ShelfPut};
ghost use Rattle.cat_claims.specs.Claimed.{IsClaimed};
ghost use Rattle.cat_events.specs.Coming.{HasCome, IsLinkedStep, IsSteady, seen};
ghost use Rattle.cat_events.specs.Planned.{planned};
ghost use Rattle.cat_events.specs.Shelf.{DifferAt, readers_of, reads_other, with_shelf};
ghost use Rattle.cat_events.specs.Stepped.{come_to, is_known};

use cat_claims::replaced::Nothing;
use cat_collections::listing::{Copied, Listing};
use cat_collections::map::Map;
use cat_events::claims::claimed_by_entity;
use cat_events::plan::{Inputs, OwnChange, Plan, planned};
use cat_events::refusal::{input_fault, unless, unless_spent};
use cat_events::stepped::{Step, take_in};
use cat_links::links::Links;
use cat_model::rows::IndexedRows;
use cat_model::types::{Fault, Leaving, Settings, State};
use cat_plan::build::{Passes, filtered};
use cat_plan::change::Own;
use cat_plan::hold::row_of;
use cat_plan::layers::Layers;
use cat_plan::parts::{same_option_work, work_of};
use cat_tree::text::Text;
use cat_types::reference::Ref;
use cat_types::work::Work;
use std::alloc::{AllocError, Global};

// The shelf with a text.
fn shelf_with(
    alloc: Global,
    name: &Text,
    text: &Text,
    m: &State,
) -> Result<Map<Text, Text>, AllocError>
    ensures { IfOk result (λ t. t ≡ put text_cmp name.now text.now m.now.shelf) }
{
    let mut shelf = m.shelf.share()?;
    shelf.put(alloc, name.duplicate(alloc)?, text.duplicate(alloc)?)?;
    Ok(shelf)
}

// The shelf without a text.
fn shelf_without(alloc: Global, name: &Text, m: &State) -> Result<Map<Text, Text>, AllocError>
    ensures { IfOk result (λ t. t ≡ without_key name.now m.now.shelf) }
{
    m.shelf.in_order();
    let mut shelf = m.shelf.share()?;
    shelf.remove(alloc, name)?;
    Ok(shelf)
}

// The work of a reference, where this is the shelf.
fn work_over<L: Layers>(
    alloc: Global,
    layers: &L,
    m: &State,
    shelf: &Map<Text, Text>,
    reference: &Ref,
) -> Result<Option<Work>, AllocError>
    ensures { IfOk result (λ w. w ≡ work L.rules (held_state shelf.now m.now.rows m.now.holders m.now) reference.now) }
{
    match row_of(&m.rows, &m.holders, reference) {
        None => Ok(None),
        Some(row) => {
            let tree = row.offered.tree.duplicate(alloc)?;
            let contents = layers.contents(alloc, &tree, shelf)?;
            Ok(Some(Work { tree, contents }))
        }
    }
}

// A reference whose work is another one over another shelf.
#[derive(Drop)]
struct ReadsOther<'a, L> {
    layers: &'a L,
    m: &'a State,
    shelf: &'a Map<Text, Text>,
}

impl<L: Layers> Passes<Ref> for ReadsOther<'_, L> {
    ghost passes = { λ s r. reads_other L.rules s.shelf.now s.m.now r };

    fn test(&self, alloc: Global, key: &Ref) -> Result<bool, AllocError> {
        let before = work_of(alloc, self.layers, self.m, key)?;
        let after = work_over(alloc, self.layers, self.m, self.shelf, key)?;
        Ok(!same_option_work(self.layers, &before, &after))
    }
}

// Pushes the reference of the row with this arrival, if there is one.
fn push_reference(
    alloc: Global,
    rows: &IndexedRows,
    arrival: u64,
    references: &mut Vec<Ref>,
) -> Result<(), AllocError>
    ensures { IfOk result (λ _. references.new.items ≡ references.old.items ++ cons_option (option_map (λ row. row.reference) (row_at rows.now arrival)) []) }
{
    if let Some(row) = rows.get(&arrival) {
        references.push(row.reference.duplicate(alloc)?)?;
    }
    Ok(())
}

// The references of the rows with these arrivals.
fn references_of(
    alloc: Global,
    rows: &IndexedRows,
    arrivals: &[u64],
) -> Result<Vec<Ref>, AllocError>
    ensures { IfOk result (λ l. l.items ≡ filter_map (λ a. option_map (λ row. row.reference) (row_at rows.now a)) arrivals.now) }
{
    let mut references = Vec::new(alloc);
    for arrival in arrivals.iter() {
        push_reference(alloc, rows, *arrival, &mut references)?;
    }
    Ok(references)
}

// The references of the rows that may read a name and whose work is another one over another shelf.
fn readers<L: Layers>(
    alloc: Global,
    layers: &L,
    m: &State,
    shelf: &Map<Text, Text>,
    name: &Text,
) -> Result<Listing<Ref>, AllocError>
    ensures { IfOk result (λ l. l ≡ filter (reads_other L.rules shelf.now m.now) (readers_of name.now m.now.rows)) }
{
    let arrivals = m.rows.reading(alloc, name)?;
    let references = references_of(alloc, &m.rows, arrivals.as_slice())?;
    let reads = ReadsOther { layers, m, shelf };
    filtered(alloc, references.as_slice(), &reads)
}

// The plan of a change of the shelf under one name.
fn shelf_plan<L: Layers>(
    alloc: Global,
    layers: &L,
    m: &State,
    links: &Links,
    name: &Text,
    shelf: Map<Text, Text>,
) -> Result<Box<Plan>, AllocError>
    requires steady { IsSteady L.rules links.now m.now }
    requires one { DifferAt name.now m.now.shelf shelf }
    ensures state { IfOk result (λ x. planned x.value m.now ≡ frame L.rules Deleted m.now (with_shelf shelf m.now)) }
    ensures linked { IfOk result (λ x. AreLinked L.rules x.value.following.links.after (planned x.value m.now)) }
{
    let touched = readers(alloc, layers, m, &shelf, name)?;
    let own = OwnChange {
        how: Leaving::Deleted,
        own: None,
        inputs: Inputs::Shelf(shelf),
        claims: None,
        touched,
    };
    let plan = planned(alloc, layers, own, m, links)?;
    Ok(plan)
}

// What putting a text on the shelf comes to.
fn shelf_put_step<L: Layers>(
    alloc: Global,
    layers: &L,
    settings: &Settings,
    name: &Text,
    text: &Text,
    m: &State,
    links: &Links,
) -> Result<Step, AllocError>
    requires { IsSteady L.rules links.now m.now }
    ensures come { IfOk result (λ o. seen o m.now ≡ come_to L.rules settings.now (ShelfPut name.now text.now) m.now) }
    ensures linked { IfOk result (λ o. IsLinkedStep L.rules o m.now) }
{
    let shelf = shelf_with(alloc, name, text, m)?;
    let plan = shelf_plan(alloc, layers, m, links, name, shelf)?;
    let fault = input_fault(alloc, layers, settings, &plan, m)?;
    let o = unless(fault, plan);
    Ok(o)
}

fn has_name(m: &State, name: &Text) -> bool
    ensures { result ≡ is_some (get m.now.shelf name.now) }
{
    m.shelf.get(name).is_some()
}

// What dropping a text of the shelf comes to.
fn shelf_drop_step<L: Layers>(
    alloc: Global,
    layers: &L,
    settings: &Settings,
    name: &Text,
    m: &State,
    links: &Links,
) -> Result<Step, AllocError>
    requires { IsSteady L.rules links.now m.now }
    ensures come { IfOk result (λ o. seen o m.now ≡ come_to L.rules settings.now (ShelfDrop name.now) m.now) }
    ensures linked { IfOk result (λ o. IsLinkedStep L.rules o m.now) }
{
    if has_name(m, name) {
        let shelf = shelf_without(alloc, name, m)?;
        let plan = shelf_plan(alloc, layers, m, links, name, shelf)?;
        let o = unless_spent(plan, m);
        Ok(o)
    } else {
        Ok(Step::Refused(Fault::NotFound))
    }
}

// Whether a reference has a record or is an orphan.
fn is_known(m: &State, reference: &Ref) -> bool
    ensures { result ≡ is_known m.now reference.now }
{
    m.records.get(reference).is_some() || m.orphans.get(reference).is_some()
}

// The plan of a forget.
fn forget_plan<L: Layers>(
    alloc: Global,
    layers: &L,
    reference: &Ref,
    m: &State,
    links: &Links,
) -> Result<Box<Plan>, AllocError>
    requires { IsSteady L.rules links.now m.now }
    ensures state { IfOk result (λ x. planned x.value m.now ≡ frame L.rules Deleted m.now (forgotten reference.now m.now)) }
    ensures linked { IfOk result (λ x. AreLinked L.rules x.value.following.links.after (planned x.value m.now)) }
{
    let claimed = claimed_by_entity(alloc, reference, &Nothing, &[], m)?;
    let touched = claimed.moved.duplicate(alloc)?;
    let own = OwnChange {
        how: Leaving::Deleted,
        own: Some(Own {
            reference: reference.duplicate(alloc)?,
            kept: None,
        }),
        inputs: Inputs::Same,
        claims: Some(claimed),
        touched,
    };
    let plan = planned(alloc, layers, own, m, links)?;
    Ok(plan)
}

// What forgetting a reference comes to.
fn forget_step<L: Layers>(
    alloc: Global,
    layers: &L,
    settings: &Settings,
    reference: &Ref,
    m: &State,
    links: &Links,
) -> Result<Step, AllocError>
    requires { IsSteady L.rules links.now m.now }
    ensures come { IfOk result (λ o. seen o m.now ≡ come_to L.rules settings.now (Forget reference.now) m.now) }
    ensures linked { IfOk result (λ o. IsLinkedStep L.rules o m.now) }
{
    if is_known(m, reference) {
        let plan = forget_plan(alloc, layers, reference, m, links)?;
        let o = unless_spent(plan, m);
        Ok(o)
    } else {
        Ok(Step::Refused(Fault::NotFound))
    }
}

/// Puts a text on the shelf, with all that follows.
pub fn shelf_put<L: Layers>(
    alloc: Global,
    layers: &L,
    settings: &Settings,
    name: &Text,
    text: &Text,
    state: &mut State,
    links: &mut Links,
) -> Result<Option<Fault>, AllocError>
    requires { IsSteady L.rules links.old state.old }
    ensures { HasCome L.rules (come_to L.rules settings.now (ShelfPut name.now text.now) state.old) result state.old state.new links.new }
{
    let step = shelf_put_step(alloc, layers, settings, name, text, state, links)?;
    take_in(alloc, step, state, links)
}

/// Drops a text from the shelf, with all that follows.
pub fn shelf_drop<L: Layers>(
    alloc: Global,
    layers: &L,
    settings: &Settings,
    name: &Text,
    state: &mut State,
    links: &mut Links,
) -> Result<Option<Fault>, AllocError>
    requires { IsSteady L.rules links.old state.old }
    ensures { HasCome L.rules (come_to L.rules settings.now (ShelfDrop name.now) state.old) result state.old state.new links.new }
{
    let step = shelf_drop_step(alloc, layers, settings, name, state, links)?;
    take_in(alloc, step, state, links)
}

/// Forgets a record or an orphan, with all that follows.
pub fn forget<L: Layers>(
    alloc: Global,
    layers: &L,
    settings: &Settings,
    reference: &Ref,
    state: &mut State,
    links: &mut Links,
) -> Result<Option<Fault>, AllocError>
    requires { IsSteady L.rules links.old state.old }
    ensures { HasCome L.rules (come_to L.rules settings.now (Forget reference.now) state.old) result state.old state.new links.new }
{
    let step = forget_step(alloc, layers, settings, reference, state, links)?;
    take_in(alloc, step, state, links)
}
