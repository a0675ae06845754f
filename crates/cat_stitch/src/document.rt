//! The documents of entities, after the Life of an Entity in the Backstage documentation.
ghost use Rattle.std.specs.Prelude.{◌≡◌, IfOk, true, codes};
ghost use Rattle.cat_tree.specs.Ask.{child_of};
ghost use Rattle.cat_tree.specs.View.{data_of};
ghost use Rattle.cat_stitch.specs.Document as spec;

use crate::issues::issue_items;
use crate::make::{empty_map, with_words};
use crate::uid::uid;
use cat_tree::ask::child;
use cat_tree::clone::copy;
use cat_tree::edit::{with_key, without_key};
use cat_tree::tree::{Tree, Trees};
use cat_types::issue::Issue;
use cat_types::node::Node;
use cat_types::parts::Parts;
use cat_types::relation::Relation;
use std::alloc::{AllocError, Global};

/// The document of an entity's parts: the entity with its relations, its issues as status and its unique id, and for an
/// orphan the annotation `backstage.io/orphan`. What the entity has under these fields is replaced; where it has no map of
/// metadata they stay as they are. The error is want of memory.
#[tactic(auto, unfolding(crate::specs::Document::document))]
pub fn document(alloc: Global, parts: &Parts) -> Result<Node, AllocError>
    ensures { IfOk result (λ d. d ≡ spec.document parts.now) }
{
    let entity = copy(alloc, parts.entity.tree())?;
    let entity = with_shown_metadata(alloc, parts, entity)?;
    let relations = relations_shown(alloc, parts.relations.as_slice())?;
    let entity = with_key(alloc, entity, "relations", relations)?;
    let entity = with_status(alloc, parts.issues.as_slice(), entity)?;
    Node::new(alloc, entity)
}

// The entity with the metadata that its document shows.
fn with_shown_metadata(alloc: Global, parts: &Parts, entity: Tree) -> Result<Tree, AllocError>
    ensures { IfOk result (λ t. data_of t
        ≡ spec.with_shown_metadata parts.now (child_of (codes "metadata") (data_of entity)) (data_of entity)) }
{
    let metadata = match child(&entity, "metadata") {
        Some(metadata) => shown_metadata(alloc, parts, copy(alloc, metadata)?)?,
        None => return Ok(entity),
    };
    with_key(alloc, entity, "metadata", metadata)
}

// The metadata that a document shows.
fn shown_metadata(alloc: Global, parts: &Parts, metadata: Tree) -> Result<Tree, AllocError>
    ensures { IfOk result (λ t. data_of t ≡ spec.shown_metadata parts.now (data_of metadata)) }
{
    let id = uid(alloc, parts.number)?;
    let metadata = with_words(alloc, metadata, "uid", id.as_str())?;
    if parts.orphan {
        with_orphan_mark(alloc, metadata)
    } else {
        Ok(metadata)
    }
}

// The metadata with the annotation of an orphan.
fn with_orphan_mark(alloc: Global, metadata: Tree) -> Result<Tree, AllocError>
    ensures { IfOk result (λ t. data_of t ≡ spec.with_orphan_mark true (data_of metadata)) }
{
    let annotations = annotations_in(alloc, &metadata)?;
    let annotations = with_words(alloc, annotations, "backstage.io/orphan", "true")?;
    with_key(alloc, metadata, "annotations", annotations)
}

// A copy of the annotations, or a map without entries where there are none.
fn annotations_in(alloc: Global, metadata: &Tree) -> Result<Tree, AllocError>
    ensures { IfOk result (λ t. data_of t
        ≡ spec.annotations_in (child_of (codes "annotations") (data_of metadata.now))) }
{
    match child(metadata, "annotations") {
        Some(annotations) => copy(alloc, annotations),
        None => Ok(empty_map(alloc)),
    }
}

// The relations in their order.
fn relations_shown(alloc: Global, relations: &[Relation]) -> Result<Tree, AllocError>
    ensures { IfOk result (λ t. data_of t ≡ spec.relations_shown relations.now) }
{
    let mut entries = Vec::with_capacity(alloc, relations.len())?;
    for relation in relations {
        entries.push(entry_of_relation(alloc, relation)?)?;
    }
    Ok(Tree::List(Trees::from_vec(entries)))
}

// A relation, by its target and the name of its kind.
fn entry_of_relation(alloc: Global, relation: &Relation) -> Result<Tree, AllocError>
    ensures { IfOk result (λ t. data_of t ≡ spec.entry_of_relation relation.now) }
{
    let entry = with_words(
        alloc,
        empty_map(alloc),
        "targetRef",
        relation.target.as_str(),
    )?;
    with_words(alloc, entry, "type", relation.kind.text())
}

// The entity with a status where there are issues, and without one where there are none.
fn with_status(alloc: Global, issues: &[Issue], entity: Tree) -> Result<Tree, AllocError>
    ensures { IfOk result (λ t. data_of t ≡ spec.with_status issues.now (data_of entity)) }
{
    if issues.is_empty() {
        return Ok(without_key(entity, "status"));
    }
    let items = issue_items(alloc, issues)?;
    let status = with_key(alloc, empty_map(alloc), "items", items)?;
    with_key(alloc, entity, "status", status)
}
