//! Runs of changes of what emitters emit.
use crate::fault::Fault;
use cat_case::case::Case;
use cat_case::shown::push_word;
use cat_collections::listing::Listing;
use cat_links::links::{EmitChange, Links};
use cat_types::reference::{Ref, parse};
use cat_types::relation::{RelKind, Relation};
use std::alloc::{AllocError, Global};

// The reference of a text that says its kind.
fn reference(alloc: Global, text: &str) -> Result<Ref, Fault> {
    Ok(parse(alloc, text, None, "default")?)
}

// Puts that a source depends on a target behind the relations so far.
fn push_relation(
    alloc: Global,
    relations: &mut Listing<Relation>,
    source: &str,
    target: &str,
) -> Result<(), Fault> {
    let source = reference(alloc, source)?;
    let target = reference(alloc, target)?;
    let relation = Relation {
        source,
        kind: RelKind::DependsOn,
        target,
    };
    relations.push(relation).map_err(Fault::Memory)
}

// Puts the relation of a word, as `api:a>api:x`, behind the relations so far.
fn push_entry(alloc: Global, relations: &mut Listing<Relation>, word: &str) -> Result<(), Fault> {
    match word.split_once('>') {
        Some((source, target)) => push_relation(alloc, relations, source, target),
        None => Ok(()),
    }
}

fn push_entries(
    alloc: Global,
    relations: &mut Listing<Relation>,
    entries: &str,
) -> Result<(), Fault> {
    for word in entries.split(' ') {
        push_entry(alloc, relations, word)?;
    }
    Ok(())
}

// That an emitter emits, for each two references, that the first depends on the second, told as `api:a: api:b>api:x`.
fn change(alloc: Global, emitter: &str, entries: &str) -> Result<EmitChange, Fault> {
    let mut relations = Listing::new(alloc);
    push_entries(alloc, &mut relations, entries)?;
    let emitter = reference(alloc, emitter)?;
    Ok(EmitChange { emitter, relations })
}

// Puts references behind what stands so far.
fn push_references(out: &mut String, references: &[Ref]) -> Result<(), AllocError> {
    for reference in references {
        push_word(out, reference.as_str())?;
    }
    Ok(())
}

// Makes changes, and puts the sources that they change behind what stands so far.
fn push_planned(
    out: &mut String,
    alloc: Global,
    links: &mut Links,
    changes: &[EmitChange],
) -> Result<(), AllocError> {
    let plan = links.plan(alloc, changes)?;
    let pushed = push_references(out, plan.changed());
    links.apply(plan);
    pushed
}

// Makes a change, and puts the sources that it changes behind what stands so far.
fn push_changed(
    out: &mut String,
    alloc: Global,
    links: &mut Links,
    emitter: &str,
    entries: &str,
) -> Result<(), Fault> {
    let changes = vec![in alloc; change(alloc, emitter, entries)?]?;
    push_planned(out, alloc, links, changes.as_slice()).map_err(Fault::Memory)
}

// Puts the targets of the relations of a source behind what stands so far.
fn push_linked(out: &mut String, links: &Links, source: &Ref) -> Result<(), AllocError> {
    for relation in links.of(source).iter() {
        push_word(out, relation.target.as_str())?;
    }
    Ok(())
}

// Puts the targets of the relations of the source that a text names behind what stands so far.
fn push_targets(out: &mut String, alloc: Global, links: &Links, source: &str) -> Result<(), Fault> {
    let source = reference(alloc, source)?;
    push_linked(out, links, &source).map_err(Fault::Memory)
}

// Puts what comes of a change, or of a source that is asked for, behind what stands so far.
fn push_step(out: &mut String, alloc: Global, links: &mut Links, text: &str) -> Result<(), Fault> {
    match text.split_once(": ") {
        Some((emitter, entries)) => push_changed(out, alloc, links, emitter, entries),
        None => push_targets(out, alloc, links, text.strip_prefix("of ").unwrap_or(text)),
    }
}

fn push_steps(
    out: &mut String,
    alloc: Global,
    links: &mut Links,
    case: &Case,
) -> Result<(), Fault> {
    for step in 0..case.count() {
        push_step(out, alloc, links, case.step(step))?;
        out.push_str(" |")?;
    }
    Ok(())
}

/// Puts the sources that each change changes, and the targets of each source that is asked for, as `of api:b`, behind what stands so
/// far.
pub fn changed(out: &mut String, alloc: Global, case: &Case) -> Result<(), Fault> {
    let mut links = Links::empty();
    push_steps(out, alloc, &mut links, case)
}
