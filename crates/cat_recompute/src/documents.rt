//! The documents.
ghost use Rattle.std.specs.Prelude.{◌≡◌, IfOk, Option};
ghost use Rattle.std.specs.List.{flat_map};
ghost use Rattle.cat_collections.specs.Table.{get, keys};
ghost use Rattle.cat_model.specs.Catalogue.{emits, emitted};
ghost use Rattle.cat_recompute.specs.Afresh.{document_with, parts_with};
ghost use Rattle.cat_model.specs.Fresh.{facts_of, fresh_docs, fresh_outputs, issues_of, number_at};

use crate::afresh::{output_afresh, work_afresh};
use cat_collections::listing::{Copied, Listing};
use cat_collections::map::Map;
use cat_model::types::State;
use cat_plan::build::{Gives, tabulated};
use cat_plan::layers::Layers;
use cat_plan::parts::{append, relations_from};
use cat_types::issue::Issue;
use cat_types::node::Node;
use cat_types::parts::Parts;
use cat_types::reference::Ref;
use cat_types::relation::Relation;
use cat_types::work::{Outcome, Output, Work};
use std::alloc::{AllocError, Global};

fn output_of<L: Layers>(
    alloc: Global,
    layers: &L,
    m: &State,
    reference: &Ref,
) -> Result<Option<Output>, AllocError>
    ensures { IfOk result (λ o. o ≡ fresh_outputs L.rules (facts_of L.rules m.now) reference.now) }
{
    output_afresh(alloc, layers, m, m.holders.len(), reference)
}

fn emitted_by<L: Layers>(
    alloc: Global,
    layers: &L,
    m: &State,
    reference: &Ref,
) -> Result<Listing<Relation>, AllocError>
    ensures { IfOk result (λ l. l ≡ emits L.rules reference.now (fresh_outputs L.rules (facts_of L.rules m.now) reference.now)) }
{
    match output_of(alloc, layers, m, reference)? {
        None => Ok(Listing::new(alloc)),
        Some(output) => layers.relations(alloc, &output.entity, reference),
    }
}

// What relations each key gives.
trait Emits {
    ghost use Rattle.std.specs.Prelude.{ℕ, List};
    ghost use Rattle.cat_types.specs.declared.relation.Relation.{Relation as Stated};

    ghost emits: { Self → List ℕ → List Stated };

    fn emitted(&self, alloc: Global, reference: &Ref) -> Result<Listing<Relation>, AllocError>
        ensures { IfOk result (λ l. l ≡ emits self.now reference.now) };
}

fn gathered<F: Emits>(
    alloc: Global,
    holders: &Map<Ref, u64>,
    f: &F,
) -> Result<Listing<Relation>, AllocError>
    ensures { IfOk result (λ l. l ≡ flat_map (F.emits f.now) (keys holders.now)) }
{
    let mut relations = Listing::new(alloc);
    for (reference, _) in holders.iter() {
        let more = f.emitted(alloc, reference)?;
        append(alloc, &mut relations, more.as_slice())?;
    }
    Ok(relations)
}

#[derive(Drop)]
struct Emitted<'a, L> {
    layers: &'a L,
    m: &'a State,
}

impl<L: Layers> Emits for Emitted<'_, L> {
    ghost emits = { λ s r. emits L.rules r (fresh_outputs L.rules (facts_of L.rules s.m.now) r) };

    fn emitted(&self, alloc: Global, reference: &Ref) -> Result<Listing<Relation>, AllocError> {
        emitted_by(alloc, self.layers, self.m, reference)
    }
}

// What the fresh outputs of all held references emit.
fn all_emitted<L: Layers>(
    alloc: Global,
    layers: &L,
    m: &State,
) -> Result<Listing<Relation>, AllocError>
    ensures { IfOk result (λ l. l ≡ emitted L.rules (keys m.now.holders) (fresh_outputs L.rules (facts_of L.rules m.now))) }
{
    let by_each = Emitted { layers, m };
    gathered(alloc, &m.holders, &by_each)
}

fn issues_of(outcome: Outcome) -> Listing<Issue>
    ensures { result ≡ issues_of outcome }
{
    match outcome {
        Outcome::Good(_, issues) => issues,
        Outcome::Bad(issues) => issues,
    }
}

fn number_of(m: &State, reference: &Ref) -> u64
    ensures { result ≡ number_at (get m.now.records reference.now) }
{
    match m.records.get(reference) {
        None => 0,
        Some(record) => record.number,
    }
}

fn made<L: Layers>(
    alloc: Global,
    layers: &L,
    m: &State,
    relations: &Listing<Relation>,
    reference: &Ref,
    work: &Work,
    output: &Output,
) -> Result<Node, AllocError>
    ensures { IfOk result (λ d. d ≡ L.rules.doc (parts_with L.rules (facts_of L.rules m.now) relations.now reference.now work.now output.now)) }
{
    let entity = output.entity.duplicate(alloc)?;
    let relations = relations_from(alloc, reference, relations)?;
    let issues = issues_of(layers.result_of(alloc, work)?);
    let parts = Parts {
        entity,
        number: number_of(m, reference),
        orphan: false,
        relations,
        issues,
    };
    layers.doc(alloc, &parts)
}

// A held reference's document, with what all fresh outputs emit.
#[derive(Drop)]
struct Afresh<'a, L> {
    layers: &'a L,
    m: &'a State,
    relations: &'a Listing<Relation>,
}

impl<L: Layers> Gives<Ref, Node> for Afresh<'_, L> {
    ghost gives = { λ s r. document_with L.rules (facts_of L.rules s.m.now) s.relations.now r };

    fn give(&self, alloc: Global, key: &Ref) -> Result<Option<Node>, AllocError> {
        match work_afresh(alloc, self.layers, self.m, self.m.holders.len(), key)? {
            None => Ok(None),
            Some(work) => match output_of(alloc, self.layers, self.m, key)? {
                None => Ok(None),
                Some(output) => {
                    let document = made(
                        alloc,
                        self.layers,
                        self.m,
                        self.relations,
                        key,
                        &work,
                        &output,
                    )?;
                    Ok(Some(document))
                }
            },
        }
    }
}

/// The documents of the held references, in order of reference, computed from the inputs, claims and numbers of a state, and
/// from the last good outputs of those records whose present work has a bad result.
pub fn documents_afresh<L: Layers>(
    alloc: Global,
    layers: &L,
    m: &State,
) -> Result<Map<Ref, Node>, AllocError>
    ensures { IfOk result (λ t. t ≡ fresh_docs L.rules (facts_of L.rules m.now)) }
{
    let relations = all_emitted(alloc, layers, m)?;
    let refs = m.holders.keys(alloc)?;
    let documents = Afresh {
        layers,
        m,
        relations: &relations,
    };
    tabulated(alloc, refs.as_slice(), &documents)
}
