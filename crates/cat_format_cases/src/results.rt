//! Entities with their results.
use crate::fault::Fault;
use cat_case::case::Case;
use cat_case::shown::{push_json, push_number, push_texts};
use cat_collections::listing::Listing;
use cat_collections::map::Map;
use cat_process::contents::{contents, wanted};
use cat_process::result::result;
use cat_tree::text::Text;
use cat_tree::tree::Tree;
use cat_types::input::Offered;
use cat_types::issue::{Issue, IssueName, Level};
use cat_types::node::Node;
use cat_types::reference::Ref;
use cat_types::work::{Content, Outcome, Output, Work};
use std::alloc::{AllocError, Global};

type Shelf = Map<Text, Text>;

// Puts a body under `file:/r.json`.
fn put_body(alloc: Global, shelf: &mut Shelf, body: &str) -> Result<(), AllocError> {
    let name = Text::of(alloc, "file:/r.json")?;
    let body = Text::of(alloc, body)?;
    shelf.put(alloc, name, body)
}

// A shelf that has a body, where it isn't empty, under `file:/r.json`.
fn shelf(alloc: Global, body: &str) -> Result<Shelf, AllocError> {
    let mut shelf = Map::new();
    if !body.is_empty() {
        put_body(alloc, &mut shelf, body)?;
    }
    Ok(shelf)
}

// The contents of an entity over a shelf that has a body.
fn shelved(alloc: Global, tree: &Node, body: &str) -> Result<Listing<Content>, AllocError> {
    let shelf = shelf(alloc, body)?;
    contents(alloc, tree, &shelf)
}

// The result of an entity over a shelf that has a body.
fn outcome(alloc: Global, tree: Node, body: &str) -> Result<Outcome, AllocError> {
    let contents = shelved(alloc, &tree, body)?;
    result(alloc, &Work { tree, contents })
}

// The result of the entity of the first field over a shelf that has the second.
fn outcome_of(alloc: Global, case: &Case) -> Result<Outcome, Fault> {
    let tree = case.tree(alloc, 1)?;
    let tree = Node::new(alloc, tree)?;
    outcome(alloc, tree, case.text(2)).map_err(Fault::Memory)
}

// Puts a line for an offer behind what stands so far.
fn push_offer(
    out: &mut String,
    alloc: Global,
    reference: &Ref,
    offered: &Offered,
) -> Result<(), Fault> {
    push_texts(out, &[reference.as_str(), " ", offered.key.as_str(), " "])?;
    push_json(out, alloc, offered.tree.tree())?;
    out.push_str("\n").map_err(Fault::Memory)
}

fn push_offers(out: &mut String, alloc: Global, output: &Output) -> Result<(), Fault> {
    for (reference, offered) in output.offers.as_slice() {
        push_offer(out, alloc, reference, offered)?;
    }
    Ok(())
}

fn level_word(level: Level) -> &'static str {
    match level {
        Level::Error => "Error",
        Level::Warning => "Warning",
    }
}

fn name_word(name: IssueName) -> &'static str {
    match name {
        IssueName::SchemaFault => "SchemaFault",
        IssueName::ReferenceFault => "ReferenceFault",
        IssueName::TargetFault => "TargetFault",
        IssueName::MissingTarget => "MissingTarget",
        IssueName::ShelfFault => "ShelfFault",
        IssueName::DuplicateOffer => "DuplicateOffer",
    }
}

// Puts a line for an issue behind what stands so far.
fn push_issue(out: &mut String, issue: &Issue) -> Result<(), AllocError> {
    push_texts(
        out,
        &[level_word(issue.level), " ", name_word(issue.name), " "],
    )?;
    push_texts(out, &[issue.message.as_str(), "\n"])
}

fn push_issues(out: &mut String, issues: &[Issue]) -> Result<(), AllocError> {
    for issue in issues {
        push_issue(out, issue)?;
    }
    Ok(())
}

// Puts the entity of an output, if it is asked for, behind what stands so far.
fn push_entity(
    out: &mut String,
    alloc: Global,
    with_entity: bool,
    output: &Output,
) -> Result<(), Fault> {
    if !with_entity {
        return Ok(());
    }
    push_json(out, alloc, output.entity.tree())?;
    out.push_str("\n").map_err(Fault::Memory)
}

// Puts an output with its warnings behind what stands so far.
fn push_output(
    out: &mut String,
    alloc: Global,
    with_entity: bool,
    output: &Output,
    warnings: &[Issue],
) -> Result<(), Fault> {
    push_entity(out, alloc, with_entity, output)?;
    push_offers(out, alloc, output)?;
    push_issues(out, warnings).map_err(Fault::Memory)
}

// Puts the entity, if it is asked for, a line for each offer, and a line for each issue behind what stands so far.
fn push_outcome(
    out: &mut String,
    alloc: Global,
    with_entity: bool,
    outcome: &Outcome,
) -> Result<(), Fault> {
    match outcome {
        Outcome::Good(output, warnings) => {
            push_output(out, alloc, with_entity, output, warnings.as_slice())
        }
        Outcome::Bad(issues) => push_issues(out, issues.as_slice()).map_err(Fault::Memory),
    }
}

fn lines(out: &mut String, alloc: Global, with_entity: bool, case: &Case) -> Result<(), Fault> {
    let outcome = outcome_of(alloc, case)?;
    push_outcome(out, alloc, with_entity, &outcome)
}

// How many targets an entity wants.
fn count_wanted(alloc: Global, tree: &Tree) -> Result<u64, AllocError> {
    let targets = wanted(alloc, tree)?;
    Ok(targets.len() as u64)
}

// Puts how many targets the entity of the first field wants behind what stands so far.
fn push_wanted(out: &mut String, alloc: Global, case: &Case) -> Result<(), Fault> {
    let tree = case.tree(alloc, 1)?;
    let count = count_wanted(alloc, &tree)?;
    push_number(out, count).map_err(Fault::Memory)
}

/// Puts what is asked of the entity of the first field behind what stands so far.
pub fn answer(out: &mut String, alloc: Global, question: &str, case: &Case) -> Result<(), Fault> {
    match question {
        "all" => lines(out, alloc, true, case),
        "offers" => lines(out, alloc, false, case),
        "wanted" => push_wanted(out, alloc, case),
        _ => Err(Fault::Question),
    }
}
