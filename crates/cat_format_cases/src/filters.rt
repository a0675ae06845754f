//! Filters, and documents that they accept.
use crate::fault::Fault;
use cat_case::case::Case;
use cat_case::shown::truth_text;
use cat_search::condition::Filter;
use cat_search::index::{Index, find, list_pending};
use cat_search::matches::matches;
use cat_search::read::read_filter;
use cat_tree::read::read;
use cat_types::node::Node;
use cat_types::reference::{Ref, parse};
use std::alloc::{AllocError, Global};

// Puts the filter of a text behind those so far.
fn push_filter(alloc: Global, filters: &mut Vec<Filter>, text: &str) -> Result<(), Fault> {
    let filter = read_filter(alloc, text)?;
    filters.push(filter)?;
    Ok(())
}

// Puts the filters of texts, which `&` parts, behind those so far.
fn push_filters(alloc: Global, filters: &mut Vec<Filter>, texts: &str) -> Result<(), Fault> {
    if texts.is_empty() {
        return Ok(());
    }
    for text in texts.split('&') {
        push_filter(alloc, filters, text)?;
    }
    Ok(())
}

// Puts the names of references behind what stands so far.
fn push_names(out: &mut String, references: &[Ref]) -> Result<(), AllocError> {
    for reference in references {
        out.push_str(reference.parts().name)?;
    }
    Ok(())
}

// Puts the names that filters find behind what stands so far.
fn push_matching(
    out: &mut String,
    alloc: Global,
    index: &Index,
    filters: &[Filter],
) -> Result<(), AllocError> {
    let references = find(alloc, index, filters)?;
    push_names(out, references.as_slice())
}

// Puts the names that are found by filters, which `&` parts, and a bar behind what stands so far.
fn push_found(out: &mut String, alloc: Global, index: &Index, texts: &str) -> Result<(), Fault> {
    let mut filters = Vec::new(alloc);
    push_filters(alloc, &mut filters, texts)?;
    push_matching(out, alloc, index, filters.as_slice()).map_err(Fault::Memory)
}

// The reference of a component.
fn component(alloc: Global, name: &str) -> Result<Ref, Fault> {
    Ok(parse(alloc, name, Some("component"), "default")?)
}

// The document of a text.
fn document(alloc: Global, text: &str) -> Result<Node, Fault> {
    let tree = read(alloc, text.as_bytes())?;
    Node::new(alloc, tree).map_err(Fault::Memory)
}

// Puts a document under a name, told as `a {}`.
fn put(alloc: Global, index: &mut Index, text: &str) -> Result<(), Fault> {
    let (name, body) = text.split_once(' ').unwrap_or((text, ""));
    let reference = component(alloc, name)?;
    let document = document(alloc, body)?;
    index.put(alloc, reference, document).map_err(Fault::Memory)
}

// Takes out the document under a name.
fn remove(alloc: Global, index: &mut Index, name: &str) -> Result<(), Fault> {
    let reference = component(alloc, name)?;
    index.remove(alloc, &reference).map_err(Fault::Memory)
}

// Takes a step in an index: `+a {}` puts a document, `-a` takes it out, `=` lists one that waits for it, and `?kind` finds.
fn step(out: &mut String, alloc: Global, index: &mut Index, text: &str) -> Result<(), Fault> {
    match text.split_at_checked(1) {
        Some(("+", text)) => put(alloc, index, text),
        Some(("-", name)) => remove(alloc, index, name),
        Some(("=", _)) => list_pending(alloc, index, 1).map_err(Fault::Memory),
        Some((_, texts)) => {
            push_found(out, alloc, index, texts)?;
            out.push_str("|").map_err(Fault::Memory)
        }
        None => Ok(()),
    }
}

// Takes the steps of the fields in an index.
fn steps(out: &mut String, alloc: Global, index: &mut Index, case: &Case) -> Result<(), Fault> {
    for place in 0..case.count() {
        step(out, alloc, index, case.step(place))?;
    }
    Ok(())
}

// Puts the names that are found in an index, one after the other, behind what stands so far.
fn found(out: &mut String, alloc: Global, case: &Case) -> Result<(), Fault> {
    let mut index = Index::empty();
    steps(out, alloc, &mut index, case)
}

// Puts that a filter is read behind what stands so far.
fn push_read(out: &mut String, alloc: Global, text: &str) -> Result<(), Fault> {
    let _filter = read_filter(alloc, text)?;
    out.push_str("read").map_err(Fault::Memory)
}

// Puts whether a filter accepts the document of the second field behind what stands so far.
fn push_accepted(
    out: &mut String,
    alloc: Global,
    filter: &Filter,
    case: &Case,
) -> Result<(), Fault> {
    let document = case.tree(alloc, 2)?;
    out.push_str(truth_text(matches(filter, &document)))
        .map_err(Fault::Memory)
}

// Puts whether the filter of the first field accepts the document of the second behind what stands so far.
fn accepts(out: &mut String, alloc: Global, case: &Case) -> Result<(), Fault> {
    let filter = read_filter(alloc, case.text(1))?;
    push_accepted(out, alloc, &filter, case)
}

/// Puts whether a filter is read, whether it accepts a document, or what filters find behind what stands so far.
pub fn answer(out: &mut String, alloc: Global, question: &str, case: &Case) -> Result<(), Fault> {
    match question {
        "read" => push_read(out, alloc, case.text(1)),
        "accepts" => accepts(out, alloc, case),
        "find" => found(out, alloc, case),
        _ => Err(Fault::Question),
    }
}
