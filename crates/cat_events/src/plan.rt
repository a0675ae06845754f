//! What an event comes to, planned: a plan has all that differs after the event, and asks only what the event reaches.
ghost use Rattle.std.specs.Prelude.{◌≡◌, ◌≤◌, ◌^◌, IfOk};
ghost use Rattle.cat_model.specs.declared.types.State.{State as StateValue};
ghost use Rattle.cat_model.specs.Catalogue.{frame};
ghost use Rattle.cat_plan.specs.Linked.{AreLinked};
ghost use Rattle.cat_events.specs.Coming.{IsSteady};
ghost use Rattle.cat_events.specs.Planned.{IsOwned, IsReached, fresh_of, holders_after, leaving_of, planned, rows_after, shelf_after};

use cat_claims::types::Claimed;
use cat_collections::listing::Listing;
use cat_collections::map::Map;
use cat_links::links::Links;
use cat_model::rows::IndexedRows;
use cat_model::types::{Leaving, ProviderInputs, State};
use cat_plan::change::{Change, Own};
use cat_plan::following::{Following, plan};
use cat_plan::layers::Layers;
use cat_tree::text::Text;
use cat_types::reference::Ref;
use std::alloc::{AllocError, Global};

/// The table of inputs that is another one after an event.
#[derive(Drop)]
pub enum Inputs {
    Same,
    Providers(Map<Text, ProviderInputs>),
    Shelf(Map<Text, Text>),
}

/// An event's own change: what becomes of records that leave, the reference that it is about, the inputs after it, who holds
/// what where rows were replaced, and among others all references that are held before and after it with other work.
#[derive(Drop)]
pub struct OwnChange {
    pub how: Leaving,
    pub own: Option<Own>,
    pub inputs: Inputs,
    pub claims: Option<Box<Claimed>>,
    pub touched: Listing<Ref>,
}

/// All that differs after an event: the inputs, the claims, and what follows. It is handed on in a box, so that it is moved as one.
#[derive(Drop)]
pub struct Plan {
    pub inputs: Inputs,
    pub claims: Option<Box<Claimed>>,
    pub following: Following,
}

/// The shelf after an event.
pub fn shelf_after<'a>(inputs: &'a Inputs, shelf: &'a Map<Text, Text>) -> &'a Map<Text, Text>
    ensures { result.now ≡ shelf_after inputs.now shelf.now }
{
    match inputs {
        Inputs::Shelf(after) => after,
        _ => shelf,
    }
}

fn rows_after<'a>(claims: &'a Option<Box<Claimed>>, rows: &'a IndexedRows) -> &'a IndexedRows
    ensures { result.now ≡ rows_after claims.now rows.now }
{
    match claims {
        None => rows,
        Some(claimed) => &claimed.rows,
    }
}

fn holders_after<'a>(
    claims: &'a Option<Box<Claimed>>,
    holders: &'a Map<Ref, u64>,
) -> &'a Map<Ref, u64>
    ensures { result.now ≡ holders_after claims.now holders.now }
{
    match claims {
        None => holders,
        Some(claimed) => &claimed.holders,
    }
}

fn fresh_of(claims: &Option<Box<Claimed>>) -> &[Ref]
    ensures { result.now ≡ fresh_of claims.now }
{
    match claims {
        None => &[],
        Some(claimed) => claimed.fresh.as_slice(),
    }
}

fn leaving_of(claims: &Option<Box<Claimed>>) -> &[Ref]
    ensures { result.now ≡ leaving_of claims.now }
{
    match claims {
        None => &[],
        Some(claimed) => claimed.leaving.as_slice(),
    }
}

// What follows from an event's own change.
fn followed<L: Layers>(
    alloc: Global,
    layers: &L,
    own: &OwnChange,
    m: &State,
    links: &Links,
) -> Result<Following, AllocError>
    requires steady { IsSteady L.rules links.now m.now }
    requires reach { IsReached L.rules own.now m.now }
    ensures state { IfOk result (λ x. (n : StateValue) → IsOwned own.now m.now n → planned (record { inputs = own.now.inputs; claims = own.now.claims; following = x }) m.now ≡ frame L.rules own.now.how m.now n) }
    ensures linked { IfOk result (λ x. (n : StateValue) → IsOwned own.now m.now n → AreLinked L.rules x.links.after (frame L.rules own.now.how m.now n)) }
{
    let change = Change {
        how: own.how,
        own: &own.own,
        m,
        links,
        shelf: shelf_after(&own.inputs, &m.shelf),
        rows: rows_after(&own.claims, &m.rows),
        holders: holders_after(&own.claims, &m.holders),
        fresh: fresh_of(&own.claims),
        leaving: leaving_of(&own.claims),
        touched: own.touched.as_slice(),
    };
    let following = plan(alloc, layers, &change)?;
    Ok(following)
}

/// The plan of an event with this own change. It takes all memory that the event wants but for the room in its tables.
pub fn planned<L: Layers>(
    alloc: Global,
    layers: &L,
    own: OwnChange,
    m: &State,
    links: &Links,
) -> Result<Box<Plan>, AllocError>
    requires steady { IsSteady L.rules links.now m.now }
    requires reach { IsReached L.rules own m.now }
    ensures state { IfOk result (λ x. (n : StateValue) → IsOwned own m.now n → planned x.value m.now ≡ frame L.rules own.how m.now n) }
    ensures linked { IfOk result (λ x. (n : StateValue) → IsOwned own m.now n → AreLinked L.rules x.value.following.links.after (frame L.rules own.how m.now n)) }
    ensures inputs { IfOk result (λ x. x.value.inputs ≡ own.inputs) }
    ensures claims { IfOk result (λ x. x.value.claims ≡ own.claims) }
{
    let following = followed(alloc, layers, &own, m, links)?;
    let OwnChange { inputs, claims, .. } = own;
    let plan = Plan {
        inputs,
        claims,
        following,
    };
    Ok(Box::new(alloc, plan)?)
}
