//! Entities with their relations, or the faults of their reference fields.
use crate::fault::Fault;
use cat_case::case::Case;
use cat_case::shown::push_texts;
use cat_kinds::Relation;
use cat_kinds::answer::{KindAnswer, KindFault, relations};
use cat_kinds::mention::{Mention, mentions};
use cat_tree::tree::Tree;
use cat_types::reference::{Ref, ref_of};
use std::alloc::{AllocError, Global};

// Puts a relation behind what stands so far.
fn push_relation(out: &mut String, relation: &Relation) -> Result<(), AllocError> {
    out.push_str(relation.source.as_str())?;
    push_texts(out, &[" ", relation.kind.text(), " "])?;
    push_texts(out, &[relation.target.as_str(), ";"])
}

// Puts a fault of a reference field behind what stands so far.
fn push_fault(out: &mut String, fault: &KindFault) -> Result<(), AllocError> {
    let why = fault.fault;
    write!(out, "{why:?}")?;
    push_texts(out, &[" ", fault.place.as_str(), ";"])
}

fn push_relations(out: &mut String, relations: &[Relation]) -> Result<(), AllocError> {
    for relation in relations {
        push_relation(out, relation)?;
    }
    Ok(())
}

fn push_faults(out: &mut String, faults: &[KindFault]) -> Result<(), AllocError> {
    for fault in faults {
        push_fault(out, fault)?;
    }
    Ok(())
}

// Puts what the reference fields of an entity say behind what stands so far.
fn push_answer(out: &mut String, answer: &KindAnswer) -> Result<(), AllocError> {
    match answer {
        KindAnswer::Faults(faults) => push_faults(out, faults.as_slice()),
        KindAnswer::Relations(relations) => push_relations(out, relations.as_slice()),
    }
}

// Puts what the reference fields of an entity with a reference say behind what stands so far.
fn push_of(
    out: &mut String,
    alloc: Global,
    tree: &Tree,
    reference: &Ref,
) -> Result<(), AllocError> {
    let answer = relations(alloc, tree, reference)?;
    push_answer(out, &answer)
}

// Puts the relations of a descriptor, or the faults of its reference fields, behind what stands so far.
fn push_related(out: &mut String, alloc: Global, tree: &Tree) -> Result<(), Fault> {
    let reference = ref_of(alloc, tree)?;
    push_of(out, alloc, tree, &reference).map_err(Fault::Memory)
}

fn related(out: &mut String, alloc: Global, case: &Case) -> Result<(), Fault> {
    let tree = case.tree(alloc, 1)?;
    push_related(out, alloc, &tree)
}

// Puts what a field mentions behind what stands so far: the field, the place in its list, the text, and the relation.
fn push_mention(out: &mut String, mention: &Mention<'_>) -> Result<(), AllocError> {
    let place = mention.position;
    out.push_str(mention.field.key)?;
    write!(out, " {place:?} ")?;
    out.push_str(mention.text)?;
    push_texts(out, &[" ", mention.field.relation.text(), ";"])
}

fn push_mentions(out: &mut String, mentions: &[Mention<'_>]) -> Result<(), AllocError> {
    for mention in mentions {
        push_mention(out, mention)?;
    }
    Ok(())
}

// Puts what a descriptor mentions behind what stands so far.
fn push_mentioned(out: &mut String, alloc: Global, tree: &Tree) -> Result<(), AllocError> {
    let mentions = mentions(alloc, tree)?;
    push_mentions(out, mentions.as_slice())
}

fn mentioned(out: &mut String, alloc: Global, case: &Case) -> Result<(), Fault> {
    let tree = case.tree(alloc, 1)?;
    push_mentioned(out, alloc, &tree).map_err(Fault::Memory)
}

/// Puts what is asked of the descriptor of the first field behind what stands so far.
pub fn answer(out: &mut String, alloc: Global, question: &str, case: &Case) -> Result<(), Fault> {
    match question {
        "relations" => related(out, alloc, case),
        "mentions" => mentioned(out, alloc, case),
        _ => Err(Fault::Question),
    }
}
