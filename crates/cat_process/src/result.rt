//! The result of an entity, from its tree and the contents of its targets.
ghost use Rattle.std.specs.Prelude.{◌≡◌, ◌++◌, [], map, IfOk, OnOk};
ghost use Rattle.std.specs.List.{flat_map};
ghost use Rattle.cat_schema.specs.Rules.{breaches};
ghost use Rattle.cat_tree.specs.View.{data_of};
ghost use Rattle.cat_process.specs.Offers.{content_offers, all_offers};
ghost use Rattle.cat_process.specs.Process as spec;

use crate::issues::{error, reference_issues, schema_issues, target_issues};
use crate::message::{shelf_text, spaced};
use crate::offers::{each_once, origin_of, push_offers};
use cat_collections::listing::Listing;
use cat_inputs::fault::ShelfFault;
use cat_inputs::shelf::shelf_list;
use cat_target::location::is_optional;
use cat_tree::ask::child;
use cat_tree::clone::copy;
use cat_tree::edit::with_key;
use cat_tree::text::Text;
use cat_tree::tree::Tree;
use cat_types::entries::Entries;
use cat_types::input::Offered;
use cat_types::issue::{Issue, IssueName};
use cat_types::node::Node;
use cat_types::reference::Ref;
use cat_types::work::{Content, Outcome, Output, Work};
use std::alloc::{AllocError, Global};

// What the contents have given so far: issues for those at fault, and offers.
#[derive(Drop)]
struct Findings {
    issues: Vec<Issue>,
    offers: Vec<(Ref, Offered)>,
}

impl Findings {
    // What a target without a text gives.
    fn read_missing(&mut self, alloc: Global, optional: bool, name: &str) -> Result<(), AllocError>
        ensures issues { OnOk result (self.new.issues.items
            ≡ self.old.issues.items ++ spec.body_issues optional name.now None) }
        ensures offers { self.new.offers ≡ self.old.offers }
    {
        if optional {
            return Ok(());
        }
        let message = Text::of(alloc, name)?;
        self.issues.push(error(IssueName::MissingTarget, message))?;
        Ok(())
    }

    // What a text that lists no descriptors gives.
    fn read_faulty(
        &mut self,
        alloc: Global,
        name: &str,
        fault: ShelfFault,
    ) -> Result<(), AllocError>
        ensures issues { OnOk result (self.new.issues.items
            ≡ self.old.issues.items ++ spec.listing_issues name.now (Err fault)) }
        ensures offers { self.new.offers ≡ self.old.offers }
    {
        let fault = shelf_text(alloc, fault)?;
        let message = spaced(alloc, name, fault.as_str())?;
        self.issues.push(error(IssueName::ShelfFault, message))?;
        Ok(())
    }

    // What a content gives.
    fn read(
        &mut self,
        alloc: Global,
        parent: &Tree,
        optional: bool,
        content: &Content,
    ) -> Result<(), AllocError>
        ensures issues { OnOk result (self.new.issues.items
            ≡ self.old.issues.items ++ spec.content_issue optional content.now) }
        ensures offers { OnOk result (self.new.offers.items
            ≡ self.old.offers.items ++ content_offers (data_of parent.now) content.now) }
    {
        let name = content.name.as_str();
        match &content.body {
            Some(body) => match shelf_list(alloc, body.as_str().as_bytes()) {
                Ok(listed) => {
                    let origin = origin_of(parent, name);
                    push_offers(alloc, &mut self.offers, origin, name, listed.as_slice())
                }
                Err(ShelfFault::NoMemory) => Err(AllocError),
                Err(fault) => self.read_faulty(alloc, name, fault),
            },
            None => self.read_missing(alloc, optional, name),
        }
    }
}

// What the contents give, in order of the targets.
#[tactic(auto, unfolding(crate::specs::Process::content_issues, crate::specs::Offers::all_offers))]
fn read_contents(alloc: Global, parent: &Tree, contents: &[Content]) -> Result<Findings, AllocError>
    ensures issues { IfOk result (λ f. f.issues.items
        ≡ spec.content_issues (data_of parent.now) contents.now) }
    ensures offers { IfOk result (λ f. f.offers.items
        ≡ all_offers (data_of parent.now) contents.now) }
{
    let optional = is_optional(parent);
    let mut found = Findings {
        issues: Vec::new(alloc),
        offers: Vec::new(alloc),
    };
    for content in contents {
        found.read(alloc, parent, optional, content)?;
    }
    Ok(found)
}

// The tree with the namespace `default` in its metadata.
fn with_namespace(alloc: Global, tree: &Tree, metadata: &Tree) -> Result<Tree, AllocError>
    ensures { IfOk result (λ t. data_of t
        ≡ spec.with_default (data_of tree.now) (data_of metadata.now) None) }
{
    let metadata = copy(alloc, metadata)?;
    let namespace = Tree::Words(Text::of(alloc, "default")?);
    let metadata = with_key(alloc, metadata, "namespace", namespace)?;
    let tree = copy(alloc, tree)?;
    with_key(alloc, tree, "metadata", metadata)
}

fn with_default(alloc: Global, tree: &Tree, metadata: &Tree) -> Result<Tree, AllocError>
    ensures { IfOk result (λ t. data_of t
        ≡ spec.with_default_in (data_of tree.now) (Some (data_of metadata.now))) }
{
    match child(metadata, "namespace") {
        Some(_) => copy(alloc, tree),
        None => with_namespace(alloc, tree, metadata),
    }
}

// The processed entity: the tree, with the namespace `default` where it has none.
#[tactic(auto, unfolding(crate::specs::Process::entity_of))]
fn entity_of(alloc: Global, tree: &Tree) -> Result<Tree, AllocError>
    ensures { IfOk result (λ t. data_of t ≡ spec.entity_of (data_of tree.now)) }
{
    match child(tree, "metadata") {
        Some(metadata) => with_default(alloc, tree, metadata),
        None => copy(alloc, tree),
    }
}

fn good(alloc: Global, tree: &Tree, offers: Vec<(Ref, Offered)>) -> Result<Outcome, AllocError>
    ensures { IfOk result (λ o. o ≡ spec.good (data_of tree.now) offers.items) }
{
    let entity = Node::new(alloc, entity_of(alloc, tree)?)?;
    let offers = each_once(alloc, offers)?;
    let output = Output {
        entity,
        offers: Entries::from_vec(offers.first),
    };
    Ok(Outcome::Good(output, Listing::from_vec(offers.warnings)))
}

// The result where nothing is wrong but what the contents may be.
fn from_contents(alloc: Global, tree: &Tree, contents: &[Content]) -> Result<Outcome, AllocError>
    ensures { IfOk result (λ o. o ≡ spec.from_contents (data_of tree.now) contents.now) }
{
    let found = read_contents(alloc, tree, contents)?;
    if found.issues.is_empty() {
        good(alloc, tree, found.offers)
    } else {
        Ok(Outcome::Bad(Listing::from_vec(found.issues)))
    }
}

/// The result of an entity: the first of these that holds. Breaches of rules of the descriptor format, reference fields
/// without a reading, a target fault of a Location, or contents at fault, each with its issues, make it bad. A target
/// without a text is at fault unless the Location's presence is `optional`; a text is where it lists no descriptors. Else
/// it is good: the processed entity is the tree with the namespace `default` where it had none, and it offers the
/// descriptors of its targets, each reference once; later ones are warnings. The only refusal is want of memory.
#[tactic(auto, unfolding(crate::specs::Process::result_of))]
pub fn result(alloc: Global, work: &Work) -> Result<Outcome, AllocError>
    ensures { IfOk result (λ o. o ≡ spec.result_of work.now) }
{
    let tree = work.tree.tree();
    let issues = schema_issues(alloc, tree)?;
    if issues.len() > 0 {
        return Ok(Outcome::Bad(issues));
    }
    let issues = reference_issues(alloc, tree)?;
    if issues.len() > 0 {
        return Ok(Outcome::Bad(issues));
    }
    let issues = target_issues(alloc, tree)?;
    if issues.len() > 0 {
        return Ok(Outcome::Bad(issues));
    }
    from_contents(alloc, tree, work.contents.as_slice())
}
