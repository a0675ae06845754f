//! Names and references.
use crate::fault::Fault;
use cat_case::case::Case;
use cat_case::shown::{push_texts, push_word};
use cat_types::names::{
    is_key, is_kind, is_location_type, is_name, is_namespace, is_shelf_name, is_subdomain, is_tag,
};
use cat_types::reference::{Ref, parse, ref_of, text};
use cat_types::split::split;
use std::alloc::{AllocError, Global};

// Puts the names of the rules that hold behind what stands so far.
fn push_rules(out: &mut String, tests: &[(bool, &str)]) -> Result<(), AllocError> {
    for (holds, rule) in tests {
        if *holds {
            push_word(out, rule)?;
        }
    }
    Ok(())
}

// Puts the names of the rules that a text obeys behind what stands so far.
fn rules(out: &mut String, text: &str) -> Result<(), AllocError> {
    let tests = [
        (is_kind(text), "kind"),
        (is_name(text), "name"),
        (is_namespace(text), "namespace"),
        (is_subdomain(text), "subdomain"),
        (is_key(text), "key"),
        (is_tag(text), "tag"),
        (is_location_type(text), "type"),
        (is_shelf_name(text), "shelf"),
    ];
    push_rules(out, &tests)
}

// Puts the pieces of a text in brackets, an absent one empty, behind what stands so far.
fn pieces(out: &mut String, text: &str) -> Result<(), Fault> {
    let parts = split(text)?;
    let kind = parts.kind.unwrap_or("");
    let namespace = parts.namespace.unwrap_or("");
    push_texts(out, &["[", kind, "][", namespace, "][", parts.name, "]"]).map_err(Fault::Memory)
}

// A kind for references that lack one, if the text has it.
fn kind_in(text: &str) -> Option<&str> {
    if text.is_empty() { None } else { Some(text) }
}

// Puts the full text of a reference behind what stands so far.
fn push_full(out: &mut String, alloc: Global, reference: &Ref) -> Result<(), AllocError> {
    let full = text(alloc, reference)?;
    out.push_str(full.as_str())
}

// Puts the full text of the reference that a text names, with a namespace and a kind for those that it lacks, behind what stands so
// far.
fn parsed(out: &mut String, alloc: Global, case: &Case) -> Result<(), Fault> {
    let reference = parse(alloc, case.text(1), kind_in(case.text(3)), case.text(2))?;
    push_full(out, alloc, &reference).map_err(Fault::Memory)
}

// The reference of the tree of the first field.
fn reference_of(alloc: Global, case: &Case) -> Result<Ref, Fault> {
    let tree = case.tree(alloc, 1)?;
    ref_of(alloc, &tree).map_err(Fault::Reference)
}

fn push_reference(out: &mut String, alloc: Global, case: &Case) -> Result<(), Fault> {
    let reference = reference_of(alloc, case)?;
    out.push_str(reference.as_str()).map_err(Fault::Memory)
}

/// Puts what is asked of the text of the first field behind what stands so far.
pub fn answer(out: &mut String, alloc: Global, question: &str, case: &Case) -> Result<(), Fault> {
    match question {
        "rules" => rules(out, case.text(1)).map_err(Fault::Memory),
        "split" => pieces(out, case.text(1)),
        "parse" => parsed(out, alloc, case),
        "of" => push_reference(out, alloc, case),
        _ => Err(Fault::Question),
    }
}
