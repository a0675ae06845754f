//! The real lower layers, as the catalogue calls them.
ghost use Rattle.std.specs.Prelude.{◌≡◌, IfOk};
ghost use Rattle.cat_layers.specs.Layered.{entity_relations, layered};

use crate::bytes::stored_bytes;
use cat_collections::listing::Listing;
use cat_collections::map::Map;
use cat_kinds::answer::KindAnswer;
use cat_model::types::ProviderInputs;
use cat_plan::layers::Layers;
use cat_process::contents::contents;
use cat_process::result::result;
use cat_stitch::document::document;
use cat_tree::text::Text;
use cat_types::node::Node;
use cat_types::parts::Parts;
use cat_types::reference::Ref;
use cat_types::relation::Relation;
use cat_types::same::{parts_alike, works_alike};
use cat_types::work::{Content, Outcome, Work};
use std::alloc::{AllocError, Global};

/// The descriptor format, the relations, the targets, the processing and the documents of the Backstage documentation.
#[derive(Clone, Copy, Drop)]
pub struct Layered;

fn relations_of(
    alloc: Global,
    tree: &Node,
    reference: &Ref,
) -> Result<Listing<Relation>, AllocError>
    ensures { IfOk result (λ x. x ≡ entity_relations tree.now reference.now) }
{
    match cat_kinds::answer::relations(alloc, tree.tree(), reference)? {
        KindAnswer::Relations(relations) => Ok(relations),
        KindAnswer::Faults(_) => Ok(Listing::new(alloc)),
    }
}

impl Layers for Layered {
    ghost rules = { layered };

    fn contents(
        &self,
        alloc: Global,
        tree: &Node,
        shelf: &Map<Text, Text>,
    ) -> Result<Listing<Content>, AllocError> {
        contents(alloc, tree, shelf)
    }

    fn result_of(&self, alloc: Global, work: &Work) -> Result<Outcome, AllocError> {
        result(alloc, work)
    }

    fn relations(
        &self,
        alloc: Global,
        tree: &Node,
        reference: &Ref,
    ) -> Result<Listing<Relation>, AllocError> {
        relations_of(alloc, tree, reference)
    }

    fn doc(&self, alloc: Global, parts: &Parts) -> Result<Node, AllocError> {
        document(alloc, parts)
    }

    fn bytes(
        &self,
        _alloc: Global,
        providers: &Map<Text, ProviderInputs>,
        shelf: &Map<Text, Text>,
    ) -> Result<u64, AllocError> {
        Ok(stored_bytes(providers, shelf))
    }

    fn same_work(&self, left: &Work, right: &Work) -> bool {
        works_alike(left, right)
    }

    fn same_parts(&self, left: &Parts, right: &Parts) -> bool {
        parts_alike(left, right)
    }
}
