//! The output of a reference, computed up its chain of claims.
ghost use Rattle.std.specs.Prelude.{◌≡◌, IfOk, Option, option_map, option_and_then};
ghost use Rattle.cat_model.specs.Fresh.{facts_of, fresh_output, fresh_work, good_output, tree_from, with_key};
ghost use Rattle.cat_model.specs.Catalogue.{output_of};

use cat_collections::key::Key;
use cat_collections::listing::Copied;
use cat_model::types::{Origin, Row, State};
use cat_plan::hold::row_of;
use cat_plan::layers::Layers;
use cat_plan::parts::work_of;
use cat_tree::text::Text;
use cat_types::input::Offered;
use cat_types::node::Node;
use cat_types::reference::Ref;
use cat_types::work::{Outcome, Output, Work};
use std::alloc::{AllocError, Global};
use std::cmp::Ordering;

// The tree that is offered, where it is offered under this key.
fn tree_with_key(
    alloc: Global,
    key: &Text,
    offered: Option<&Offered>,
) -> Result<Option<Node>, AllocError>
    ensures { IfOk result (λ t. t ≡ option_and_then (with_key key.now) (option_map (λ x. x.now) offered.entry)) }
{
    match offered {
        None => Ok(None),
        Some(offered) => {
            if key.compare(&offered.key) == Ordering::Equal {
                Ok(Some(offered.tree.duplicate(alloc)?))
            } else {
                Ok(None)
            }
        }
    }
}

fn kept_output(alloc: Global, m: &State, reference: &Ref) -> Result<Option<Output>, AllocError>
    ensures { IfOk result (λ o. o ≡ output_of m.now.records reference.now) }
{
    match m.records.get(reference) {
        None => Ok(None),
        Some(record) => record.output.duplicate(alloc),
    }
}

// The kept output of a reference whose present work has a bad result.
fn last_good<L: Layers>(
    alloc: Global,
    layers: &L,
    m: &State,
    reference: &Ref,
) -> Result<Option<Output>, AllocError>
    ensures { IfOk result (λ o. o ≡ (facts_of L.rules m.now).last reference.now) }
{
    match work_of(alloc, layers, m, reference)? {
        None => Ok(None),
        Some(work) => match layers.result_of(alloc, &work)? {
            Outcome::Good(_, _) => Ok(None),
            Outcome::Bad(_) => kept_output(alloc, m, reference),
        },
    }
}

fn good_or_last<L: Layers>(
    alloc: Global,
    layers: &L,
    m: &State,
    reference: &Ref,
    outcome: Outcome,
) -> Result<Option<Output>, AllocError>
    ensures { IfOk result (λ o. o ≡ good_output outcome ((facts_of L.rules m.now).last reference.now)) }
{
    match outcome {
        Outcome::Good(output, _) => Ok(Some(output)),
        Outcome::Bad(_) => last_good(alloc, layers, m, reference),
    }
}

// The output of a work where its result is good, else the last good one.
fn output_from<L: Layers>(
    alloc: Global,
    layers: &L,
    m: &State,
    reference: &Ref,
    work: Option<Work>,
) -> Result<Option<Output>, AllocError>
    ensures { IfOk result (λ o. o ≡ option_and_then (λ w. good_output (L.rules.result w) ((facts_of L.rules m.now).last reference.now)) work) }
{
    match work {
        None => Ok(None),
        Some(work) => {
            let outcome = layers.result_of(alloc, &work)?;
            good_or_last(alloc, layers, m, reference, outcome)
        }
    }
}

/// The output of a reference's fresh work where that is good, else its last good one; up a chain of at most so many steps.
#[cycle(afresh)]
pub fn output_afresh<L: Layers>(
    alloc: Global,
    layers: &L,
    m: &State,
    most: usize,
    reference: &Ref,
) -> Result<Option<Output>, AllocError>
    ensures { IfOk result (λ o. o ≡ fresh_output L.rules (facts_of L.rules m.now) most reference.now) }
{
    if most == 0 {
        return Ok(None);
    }
    let work = work_afresh(alloc, layers, m, most - 1, reference)?;
    let output = output_from(alloc, layers, m, reference, work)?;
    Ok(output)
}

/// A reference's work, from its provider's item or from what its parent's output offers.
#[cycle(afresh)]
pub fn work_afresh<L: Layers>(
    alloc: Global,
    layers: &L,
    m: &State,
    most: usize,
    reference: &Ref,
) -> Result<Option<Work>, AllocError>
    ensures { IfOk result (λ w. w ≡ fresh_work L.rules (facts_of L.rules m.now) (fresh_output L.rules (facts_of L.rules m.now) most) reference.now) }
{
    match row_of(&m.rows, &m.holders, reference) {
        None => Ok(None),
        Some(row) => match tree_afresh(alloc, layers, m, most, reference, row)? {
            None => Ok(None),
            Some(tree) => {
                let contents = layers.contents(alloc, &tree, &m.shelf)?;
                Ok(Some(Work { tree, contents }))
            }
        },
    }
}

#[cycle(afresh)]
fn tree_afresh<L: Layers>(
    alloc: Global,
    layers: &L,
    m: &State,
    most: usize,
    reference: &Ref,
    row: &Row,
) -> Result<Option<Node>, AllocError>
    ensures { IfOk result (λ t. t ≡ tree_from (facts_of L.rules m.now) (fresh_output L.rules (facts_of L.rules m.now) most) reference.now row.now.offered.key row.now.origin) }
{
    match &row.origin {
        Origin::Provider(provider) => match m.providers.get(provider) {
            None => Ok(None),
            Some(inputs) => tree_with_key(alloc, &row.offered.key, inputs.items.get(reference)),
        },
        Origin::Entity(parent) => match output_afresh(alloc, layers, m, most, parent)? {
            None => Ok(None),
            Some(output) => tree_with_key(alloc, &row.offered.key, output.offers.get(reference)),
        },
    }
}
