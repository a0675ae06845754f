//! Runs of changes of marks.
use crate::fault::Fault;
use cat_case::case::Case;
use cat_case::shown::{push_number, push_texts};
use cat_state_parts::marks::Marks;
use cat_types::reference::{Ref, parse};
use std::alloc::{AllocError, Global};

// Puts a mark behind what stands so far.
fn push_mark(out: &mut String, reference: &Ref, ticket: u64) -> Result<(), AllocError> {
    push_texts(out, &[reference.as_str(), " "])?;
    push_number(out, ticket)?;
    out.push_str(";")
}

// Puts the marks in order of their references behind what stands so far.
fn push_listed(out: &mut String, marks: &Marks) -> Result<(), AllocError> {
    for (reference, ticket) in marks.iter() {
        push_mark(out, reference, *ticket)?;
    }
    Ok(())
}

// Puts the mark that is next above a number, if there is one, behind what stands so far, and gives its ticket, or else the number.
fn push_next(out: &mut String, marks: &Marks, after: u64) -> Result<u64, AllocError> {
    match marks.next(after) {
        Some((reference, ticket)) => {
            push_mark(out, reference, ticket)?;
            Ok(ticket)
        }
        None => Ok(after),
    }
}

// Puts the marks that are next above 0, each above the one before it, behind what stands so far.
fn push_followed(out: &mut String, marks: &Marks) -> Result<(), AllocError> {
    let mut after = 0;
    for _ in 0..marks.len() {
        after = push_next(out, marks, after)?;
    }
    Ok(())
}

// Puts the mark of a reference, or takes it out where there is no ticket.
fn set(alloc: Global, marks: &mut Marks, reference: Ref, ticket: &str) -> Result<(), AllocError> {
    match ticket.parse::<u64>() {
        Ok(ticket) => marks.put(alloc, reference, ticket),
        Err(_) => marks.remove(alloc, &reference),
    }
}

// Makes a change, a reference with the ticket of its mark, or with none where its mark goes.
fn change(alloc: Global, marks: &mut Marks, text: &str) -> Result<(), Fault> {
    let (name, ticket) = text.split_once(' ').unwrap_or((text, ""));
    let reference = parse(alloc, name, None, "default")?;
    set(alloc, marks, reference, ticket).map_err(Fault::Memory)
}

// Puts the mark that is next above the number of a text, if there is one, and a bar behind what stands so far.
fn push_above(out: &mut String, marks: &Marks, after: &str) -> Result<(), AllocError> {
    push_next(out, marks, after.parse::<u64>().unwrap_or(0))?;
    out.push_str("|")
}

// Makes a change, or puts the mark that is asked for behind what stands so far.
fn step(out: &mut String, alloc: Global, marks: &mut Marks, text: &str) -> Result<(), Fault> {
    match text.strip_prefix("above ") {
        Some(after) => push_above(out, marks, after).map_err(Fault::Memory),
        None => change(alloc, marks, text),
    }
}

fn steps(out: &mut String, alloc: Global, marks: &mut Marks, case: &Case) -> Result<(), Fault> {
    for place in 0..case.count() {
        step(out, alloc, marks, case.step(place))?;
    }
    Ok(())
}

// Puts the marks in order of their references, and those that are next above 0, behind what stands so far, unless something does.
fn push_all(out: &mut String, marks: &Marks) -> Result<(), AllocError> {
    if !out.is_empty() {
        return Ok(());
    }
    push_listed(out, marks)?;
    out.push_str("|")?;
    push_followed(out, marks)
}

// Takes the steps of the fields, and puts what comes of them behind what stands so far.
fn push_changed(
    out: &mut String,
    alloc: Global,
    marks: &mut Marks,
    case: &Case,
) -> Result<(), Fault> {
    steps(out, alloc, marks, case)?;
    push_all(out, marks).map_err(Fault::Memory)
}

/// Puts the marks after the changes of the fields behind what stands so far: in order of their references, and those that are next
/// above 0, one after the other. After changes that begin with `above` it is the mark that is next above a number.
pub fn changed(out: &mut String, alloc: Global, case: &Case) -> Result<(), Fault> {
    let mut marks = Marks::new();
    push_changed(out, alloc, &mut marks, case)
}
