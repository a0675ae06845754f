//! Parts with their documents.
use crate::fault::Fault;
use cat_case::case::Case;
use cat_case::shown::{push_json, push_word};
use cat_collections::listing::Listing;
use cat_stitch::document::document;
use cat_stitch::issues::{issue_items, issue_name_text, level_text};
use cat_stitch::make::{empty_map, with_words};
use cat_stitch::uid::uid;
use cat_tree::text::Text;
use cat_tree::tree::Tree;
use cat_types::issue::{Issue, IssueName, Level};
use cat_types::node::Node;
use cat_types::parts::Parts;
use cat_types::reference::{Ref, parse};
use cat_types::relation::{RelKind, Relation};
use std::alloc::{AllocError, Global};

// Puts an error of a shelf text with a message behind the issues so far.
fn push_issue(alloc: Global, issues: &mut Listing<Issue>, message: &str) -> Result<(), AllocError> {
    let message = Text::of(alloc, message)?;
    issues.push(Issue {
        level: Level::Error,
        name: IssueName::ShelfFault,
        message,
    })
}

// No issue, or an error of a shelf text with this message.
fn issues(alloc: Global, message: &str) -> Result<Listing<Issue>, AllocError> {
    let mut issues = Listing::new(alloc);
    if !message.is_empty() {
        push_issue(alloc, &mut issues, message)?;
    }
    Ok(issues)
}

// The reference of a text that says its kind.
fn reference(alloc: Global, text: &str) -> Result<Ref, Fault> {
    Ok(parse(alloc, text, None, "default")?)
}

// Puts that the source is owned by the target behind the relations so far.
fn push_relation(
    alloc: Global,
    relations: &mut Listing<Relation>,
    source: &str,
    target: &str,
) -> Result<(), Fault> {
    let source = reference(alloc, source)?;
    let target = reference(alloc, target)?;
    let relation = Relation {
        source,
        kind: RelKind::OwnedBy,
        target,
    };
    relations.push(relation).map_err(Fault::Memory)
}

// No relation, or that the source is owned by the target.
fn relations(alloc: Global, source: &str, target: &str) -> Result<Listing<Relation>, Fault> {
    let mut relations = Listing::new(alloc);
    if !source.is_empty() {
        push_relation(alloc, &mut relations, source, target)?;
    }
    Ok(relations)
}

// The entity of the first field.
fn entity(alloc: Global, case: &Case) -> Result<Node, Fault> {
    let tree = case.tree(alloc, 1)?;
    Node::new(alloc, tree).map_err(Fault::Memory)
}

// The parts of an entity with a number, whether it is an orphan, the ends of a relation, and the message of an issue.
fn parts(alloc: Global, case: &Case) -> Result<Parts, Fault> {
    let entity = entity(alloc, case)?;
    let relations = relations(alloc, case.text(4), case.text(5))?;
    let issues = issues(alloc, case.text(6))?;
    Ok(Parts {
        entity,
        number: case.number(2),
        orphan: case.text(3) == "orphan",
        relations,
        issues,
    })
}

// Puts the document of parts behind what stands so far.
fn push_document(out: &mut String, alloc: Global, parts: &Parts) -> Result<(), Fault> {
    let document = document(alloc, parts)?;
    push_json(out, alloc, document.tree()).map_err(Fault::Show)
}

fn push_parts(out: &mut String, alloc: Global, case: &Case) -> Result<(), Fault> {
    let parts = parts(alloc, case)?;
    push_document(out, alloc, &parts)
}

// The status items of an issue with a message, or of none.
fn items(alloc: Global, message: &str) -> Result<Tree, AllocError> {
    let issues = issues(alloc, message)?;
    issue_items(alloc, issues.as_slice())
}

fn push_items(out: &mut String, alloc: Global, message: &str) -> Result<(), Fault> {
    let items = items(alloc, message)?;
    push_json(out, alloc, &items).map_err(Fault::Show)
}

// A map of two keys with their words.
fn two_words(alloc: Global, case: &Case) -> Result<Tree, AllocError> {
    let tree = with_words(alloc, empty_map(alloc), case.text(1), case.text(2))?;
    with_words(alloc, tree, case.text(3), case.text(4))
}

fn push_two_words(out: &mut String, alloc: Global, case: &Case) -> Result<(), Fault> {
    let tree = two_words(alloc, case)?;
    push_json(out, alloc, &tree).map_err(Fault::Show)
}

fn push_levels(out: &mut String) -> Result<(), AllocError> {
    for level in [Level::Error, Level::Warning].iter() {
        push_word(out, level_text(*level))?;
    }
    Ok(())
}

fn push_names(out: &mut String) -> Result<(), AllocError> {
    let names = [
        IssueName::SchemaFault,
        IssueName::ReferenceFault,
        IssueName::TargetFault,
        IssueName::MissingTarget,
        IssueName::ShelfFault,
        IssueName::DuplicateOffer,
    ];
    for name in names.iter() {
        push_word(out, issue_name_text(*name))?;
    }
    Ok(())
}

// Puts the texts of the levels and of the names of issues behind what stands so far.
fn push_issue_texts(out: &mut String) -> Result<(), AllocError> {
    push_levels(out)?;
    push_names(out)
}

fn push_uid(out: &mut String, alloc: Global, number: u64) -> Result<(), AllocError> {
    let text = uid(alloc, number)?;
    out.push_str(text.as_str())
}

/// Puts what is asked of parts behind what stands so far.
pub fn answer(out: &mut String, alloc: Global, question: &str, case: &Case) -> Result<(), Fault> {
    match question {
        "document" => push_parts(out, alloc, case),
        "issues" => push_items(out, alloc, case.text(1)),
        "texts" => push_issue_texts(out).map_err(Fault::Memory),
        "uid" => push_uid(out, alloc, case.number(1)).map_err(Fault::Memory),
        "words" => push_two_words(out, alloc, case),
        _ => Err(Fault::Question),
    }
}
