//! Cases of what is kept, of what changes, and of ends, messages and feeds.
//!
//! How lines are read and answers told stands in the module comment of `cat_case`. It promises nothing.
#![tactic(auto)]

mod disks;
mod fault;
mod feeds;
mod keepers;
mod links;
mod marks;
mod messages;
mod rows;
mod stores;
mod streams;

use crate::fault::Fault;
use cat_case::case::Case;
use std::alloc::{AllocError, Global};

// Puts what comes of a case behind what stands so far.
fn answer(out: &mut String, alloc: Global, case: &Case) -> Result<(), Fault> {
    let (subject, question) = case.asked();
    match subject {
        "marks" => marks::changed(out, alloc, case),
        "links" => links::changed(out, alloc, case),
        "feed" => feeds::asked(out, alloc, case),
        "mirror" => feeds::mirrored(out, alloc, case),
        "message" => messages::front(out, alloc, case),
        "stream" => streams::answer(out, alloc, question, case),
        "keeper" => keepers::committed(out, alloc, case),
        "disk" => disks::crashed(out, alloc, case),
        "row" => rows::spelling(out, alloc, case),
        "store" => stores::opened(out, alloc, case),
        _ => Err(Fault::Subject),
    }
}

/// The answer to a case, or the name of the fault, and none of a case of another subject. The error is want of memory.
pub fn told(alloc: Global, case: &Case) -> Result<Option<String>, AllocError> {
    let mut out = String::new(alloc);
    match answer(&mut out, alloc, case) {
        Ok(()) => Ok(Some(out)),
        Err(Fault::Subject) => Ok(None),
        Err(fault) => {
            let name = format!(in alloc; "{fault}")?;
            Ok(Some(name))
        }
    }
}
