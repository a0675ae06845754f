//! The lower layers, as the catalogue calls them.
ghost use Rattle.std.specs.Prelude.{◌≡◌, IfOk};

use cat_collections::listing::Listing;
use cat_collections::map::Map;
use cat_model::types::ProviderInputs;
use cat_tree::text::Text;
use cat_types::node::Node;
use cat_types::parts::Parts;
use cat_types::reference::Ref;
use cat_types::relation::Relation;
use cat_types::work::{Content, Outcome, Work};
use std::alloc::{AllocError, Global};

/// What the catalogue needs of the layers below it: one method for each function that the abstract catalogue speaks of.
/// Each answers want of memory or exactly that function's value.
pub trait Layers {
    ghost use Rattle.cat_model.specs.Catalogue.{Rules};

    // The functions that the theory speaks of, with their laws.
    ghost rules: { Rules };

    /// What the shelf has for the targets of a descriptor.
    fn contents(
        &self,
        alloc: Global,
        tree: &Node,
        shelf: &Map<Text, Text>,
    ) -> Result<Listing<Content>, AllocError>
        ensures { IfOk result (λ x. x ≡ rules.contents tree.now shelf.now) };

    /// What processing makes of a work.
    fn result_of(&self, alloc: Global, work: &Work) -> Result<Outcome, AllocError>
        ensures { IfOk result (λ x. x ≡ rules.result work.now) };

    /// The relations that a processed entity gives, after the well-known relations of the Backstage documentation.
    fn relations(
        &self,
        alloc: Global,
        tree: &Node,
        reference: &Ref,
    ) -> Result<Listing<Relation>, AllocError>
        ensures { IfOk result (λ x. x ≡ rules.relations tree.now reference.now) };

    /// The document that parts are stitched to.
    fn doc(&self, alloc: Global, parts: &Parts) -> Result<Node, AllocError>
        ensures { IfOk result (λ x. x ≡ rules.doc parts.now) };

    /// The sum of the stored input bytes.
    fn bytes(
        &self,
        alloc: Global,
        providers: &Map<Text, ProviderInputs>,
        shelf: &Map<Text, Text>,
    ) -> Result<u64, AllocError>
        ensures { IfOk result (λ x. x ≡ rules.bytes providers.now shelf.now) };

    /// Whether two works are equal.
    fn same_work(&self, left: &Work, right: &Work) -> bool
        ensures { result ≡ rules.same_work left.now right.now };

    /// Whether the parts of two documents are equal.
    fn same_parts(&self, left: &Parts, right: &Parts) -> bool
        ensures { result ≡ rules.same_parts left.now right.now };
}
