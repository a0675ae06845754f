//! What is wrong with an entity, apart from the contents of its targets.
ghost use Rattle.std.specs.Prelude.{◌≡◌, ℕ, [], ◌∷◌, List, map, IfOk, Ok};
ghost use Rattle.cat_types.specs.Reference.{described};
ghost use Rattle.cat_schema.specs.Rules.{breaches};
ghost use Rattle.cat_tree.specs.Data.{Data};
ghost use Rattle.cat_tree.specs.View.{data_of};
ghost use Rattle.cat_process.specs.Messages.{kind_text as the_text};
ghost use Rattle.cat_process.specs.Process as spec;

use crate::contents::entity_targets;
use crate::message::{kind_text, schema_text, target_text};
use cat_collections::listing::Listing;
use cat_kinds::answer::{KindAnswer, KindFault, relations};
use cat_schema::faults::SchemaFault;
use cat_schema::rules::{check, sound_names_entity};
use cat_target::target::TargetFault;
use cat_tree::text::Text;
use cat_tree::tree::Tree;
use cat_types::fault::RefFault;
use cat_types::issue::{Issue, IssueName, Level};
use cat_types::reference::{Ref, ref_of};
use std::alloc::{AllocError, Global};

/// An issue of the level `error`.
pub fn error(name: IssueName, message: Text) -> Issue
    ensures { result ≡ spec.error name message }
{
    Issue {
        level: Level::Error,
        name,
        message,
    }
}

// A list of this issue alone.
fn only(alloc: Global, issue: Issue) -> Result<Listing<Issue>, AllocError>
    ensures { IfOk result (λ issues. issues ≡ issue ∷ []) }
{
    let mut issues = Listing::new(alloc);
    issues.push(issue)?;
    Ok(issues)
}

fn schema_issues_from(alloc: Global, faults: &[SchemaFault]) -> Result<Listing<Issue>, AllocError>
    ensures { IfOk result (λ issues. issues ≡ map spec.schema_issue faults.now) }
{
    let mut issues = Vec::new(alloc);
    for fault in faults {
        let message = schema_text(alloc, fault)?;
        issues.push(error(IssueName::SchemaFault, message))?;
    }
    Ok(Listing::from_vec(issues))
}

/// An issue for each breach of a rule of the descriptor format.
#[tactic(auto, unfolding(crate::specs::Process::schema_issues))]
pub fn schema_issues(alloc: Global, tree: &Tree) -> Result<Listing<Issue>, AllocError>
    ensures { IfOk result (λ issues. issues ≡ spec.schema_issues (data_of tree.now)) }
{
    let faults = check(alloc, tree)?;
    schema_issues_from(alloc, faults.as_slice())
}

// The reference of an entity that breaks no rule.
fn reference_of(alloc: Global, tree: &Tree) -> Result<Ref, AllocError>
    requires { breaches (data_of tree.now) ≡ [] }
    ensures { IfOk result (λ r. described (data_of tree.now) ≡ Ok r) }
{
    sound_names_entity();
    match ref_of(alloc, tree) {
        Ok(reference) => Ok(reference),
        Err(RefFault::NoMemory) => Err(AllocError),
        Err(_) => unreachable!(),
    }
}

fn reference_issues_from(alloc: Global, faults: &[KindFault]) -> Result<Listing<Issue>, AllocError>
    ensures { IfOk result (λ issues. issues ≡ map spec.reference_issue faults.now) }
{
    let mut issues = Vec::new(alloc);
    for fault in faults {
        let message = kind_text(alloc, fault)?;
        issues.push(error(IssueName::ReferenceFault, message))?;
    }
    Ok(Listing::from_vec(issues))
}

/// An issue for each reference field that has no reading, of an entity that breaks no rule of the descriptor format.
#[tactic(auto, unfolding(crate::specs::Process::reference_issues))]
pub fn reference_issues(alloc: Global, tree: &Tree) -> Result<Listing<Issue>, AllocError>
    requires { breaches (data_of tree.now) ≡ [] }
    ensures { IfOk result (λ issues. issues ≡ spec.reference_issues (data_of tree.now)) }
{
    let reference = reference_of(alloc, tree)?;
    match relations(alloc, tree, &reference)? {
        KindAnswer::Faults(faults) => reference_issues_from(alloc, faults.as_slice()),
        KindAnswer::Relations(_) => Ok(Listing::new(alloc)),
    }
}

/// An issue where a Location has no targets.
#[tactic(auto, unfolding(crate::specs::Process::target_issues))]
pub fn target_issues(alloc: Global, tree: &Tree) -> Result<Listing<Issue>, AllocError>
    ensures { IfOk result (λ issues. issues ≡ spec.target_issues (data_of tree.now)) }
{
    match entity_targets(alloc, tree) {
        Ok(_) => Ok(Listing::new(alloc)),
        Err(TargetFault::NoMemory) => Err(AllocError),
        Err(fault) => {
            let message = target_text(alloc, fault)?;
            only(alloc, error(IssueName::TargetFault, message))
        }
    }
}
