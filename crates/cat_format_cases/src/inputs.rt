//! Bodies of mutations and shelf texts.
use crate::fault::Fault;
use cat_case::case::Case;
use cat_case::shown::{push_counted, push_texts, push_word};
use cat_inputs::form::Form;
use cat_inputs::input::read_mutation;
use cat_inputs::shelf::{Listed, shelf_list};
use cat_tree::text::Text;
use cat_types::input::{Item, Mutation};
use cat_types::reference::Ref;
use std::alloc::{AllocError, Global};

// A key, or that there is none.
fn key_text(key: &Option<Text>) -> &str {
    match key {
        Some(key) => key.as_str(),
        None => "none",
    }
}

// Puts the references of items, each with its key, behind what stands so far.
fn push_items(out: &mut String, items: &[Item]) -> Result<(), AllocError> {
    for item in items {
        push_texts(
            out,
            &[" ", item.reference.as_str(), "@", key_text(&item.key)],
        )?;
    }
    Ok(())
}

// Puts references that are removed behind what stands so far.
fn push_removed(out: &mut String, removed: &[Ref]) -> Result<(), AllocError> {
    for reference in removed {
        push_texts(out, &[" -", reference.as_str()])?;
    }
    Ok(())
}

// Puts what all items are replaced by behind what stands so far.
fn push_full(out: &mut String, serial: u64, items: &[Item]) -> Result<(), AllocError> {
    push_counted(out, "full ", serial)?;
    push_items(out, items)
}

// Puts the items that are added, and the references that are removed, behind what stands so far.
fn push_delta(
    out: &mut String,
    serial: u64,
    added: &[Item],
    removed: &[Ref],
) -> Result<(), AllocError> {
    push_counted(out, "delta ", serial)?;
    push_items(out, added)?;
    push_removed(out, removed)
}

// Puts the serial of a mutation, its items, and the references that it removes behind what stands so far.
fn push_mutation(out: &mut String, mutation: &Mutation) -> Result<(), AllocError> {
    match mutation {
        Mutation::Full { serial, items } => push_full(out, *serial, items.as_slice()),
        Mutation::Delta {
            serial,
            added,
            removed,
        } => push_delta(out, *serial, added.as_slice(), removed.as_slice()),
    }
}

// Puts the mutation of a body behind what stands so far.
fn mutation(out: &mut String, alloc: Global, form: Form, body: &[u8]) -> Result<(), Fault> {
    let mutation = read_mutation(alloc, form, body)?;
    push_mutation(out, &mutation).map_err(Fault::Memory)
}

// Puts the references of descriptors that are listed behind what stands so far.
fn push_listed(out: &mut String, list: &[Listed]) -> Result<(), AllocError> {
    for listed in list {
        push_word(out, listed.reference.as_str())?;
    }
    Ok(())
}

// Puts the references of the descriptors that a shelf text lists behind what stands so far.
fn listed(out: &mut String, alloc: Global, body: &[u8]) -> Result<(), Fault> {
    let list = shelf_list(alloc, body)?;
    push_listed(out, list.as_slice()).map_err(Fault::Memory)
}

/// Puts what the text of the first field is read as behind what stands so far.
pub fn answer(out: &mut String, alloc: Global, question: &str, case: &Case) -> Result<(), Fault> {
    match question {
        "full" => mutation(out, alloc, Form::Full, case.bytes(1)),
        "delta" => mutation(out, alloc, Form::Delta, case.bytes(1)),
        "shelf" => listed(out, alloc, case.bytes(1)),
        _ => Err(Fault::Question),
    }
}
