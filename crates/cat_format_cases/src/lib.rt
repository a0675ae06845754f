//! Cases of descriptors, what they come to, and questions.
//!
//! How lines are read and answers told stands in the module comment of `cat_case`. It promises nothing.
#![tactic(auto)]

mod commands;
mod fault;
mod filters;
mod inputs;
mod kinds;
mod parts;
mod queries;
mod references;
mod results;
mod schema;
mod targets;
mod trees;
mod yaml;

use crate::fault::Fault;
use cat_case::case::Case;
use std::alloc::{AllocError, Global};

// Puts what comes of a case behind what stands so far.
fn answer(out: &mut String, alloc: Global, case: &Case) -> Result<(), Fault> {
    let (subject, question) = case.asked();
    match subject {
        "tree" => trees::answer(out, alloc, question, case),
        "reference" => references::answer(out, alloc, question, case),
        "schema" => schema::faults(out, alloc, case),
        "kind" => kinds::answer(out, alloc, question, case),
        "target" => targets::names(out, alloc, case),
        "input" => inputs::answer(out, alloc, question, case),
        "result" => results::answer(out, alloc, question, case),
        "part" => parts::answer(out, alloc, question, case),
        "filter" => filters::answer(out, alloc, question, case),
        "query" => queries::answer(out, alloc, question, case),
        "line" => commands::command(out, alloc, case),
        "yaml" => yaml::documents(out, alloc, case),
        _ => Err(Fault::Subject),
    }
}

/// The answer to a case, or the name of the fault, and none of a case of another subject. The error is want of memory.
pub fn told(alloc: Global, case: &Case) -> Result<Option<String>, AllocError> {
    let mut out = String::new(alloc);
    match answer(&mut out, alloc, case) {
        Ok(()) => Ok(Some(out)),
        Err(Fault::Subject) => Ok(None),
        Err(fault) => {
            let name = format!(in alloc; "{fault}")?;
            Ok(Some(name))
        }
    }
}
