//! Cases as lines: what is asked in a line of standard input, and what comes of it.
//!
//! How lines are read and answers told stands in the module comment of `cat_case`; what the questions are, in `cat_format_cases`, `cat_store_cases`
//! and `cat_random`. It promises nothing.
#![tactic(auto)]

use cat_case::case::Case;
use cat_case::lines::{Line, read_lines};
use cat_case::shown::push_line;
use std::alloc::{AllocError, Global};
use std::io::{self, Read, Write};

// The answer, or the name of the fault, where some crate has the subject.
fn found(alloc: Global, case: &Case) -> Result<Option<String>, AllocError> {
    if let Some(text) = cat_format_cases::told(alloc, case)? {
        return Ok(Some(text));
    }
    if let Some(text) = cat_store_cases::told(alloc, case)? {
        return Ok(Some(text));
    }
    cat_random::told(alloc, case)
}

// Puts the line of an answer behind those so far.
fn push_told(out: &mut Vec<u8>, alloc: Global, case: &Case) -> Result<(), AllocError> {
    match found(alloc, case)? {
        Some(text) => push_line(out, text.as_str()),
        None => push_line(out, "no such question"),
    }
}

// Puts what comes of a line behind what came of those so far.
fn push_answer(out: &mut Vec<u8>, alloc: Global, line: &Line) -> Result<(), AllocError> {
    match line {
        Line::Told(told) => out.extend_from_slice(told.as_slice()),
        Line::Asked(case) => push_told(out, alloc, case),
    }
}

// The lines for the lines of a text.
fn answers(alloc: Global, text: &str) -> Result<Vec<u8>, AllocError> {
    let lines = read_lines(alloc, text)?;
    let mut out = Vec::new(alloc);
    for line in lines.as_slice() {
        push_answer(&mut out, alloc, line)?;
    }
    Ok(out)
}

fn main(rt: HostRuntime) -> io::Result<()> {
    let alloc = rt.alloc();
    let mut text = String::new(alloc);
    rt.stdin().read_to_string(&mut text)?;
    match answers(alloc, text.as_str()) {
        Ok(out) => rt.stdout().write_all(out.as_slice()),
        Err(_) => println!(rt; "no memory"),
    }
}
