//! Sessions of events that are drawn, over the real layers, and what comes of their documents.
//!
//! A case `session drawn` (cat_case) has a seed and how many events. They are mutations by two providers, texts of a shelf, refreshes, entities that
//! are forgotten, results and documents that workers bring, and settles, about some forty references, so that they meet: rows wait
//! for one that holds, Locations offer each other in a circle, texts break off, and what nobody offers any more is an orphan; with an even
//! seed it is deleted. After each settle the documents are compared with those that the plain program of `cat_recompute` computes from
//! scratch. The answer has the seed, how many events acted, were refused and were settles, how many documents and orphans are there at the
//! end, and `fresh`, or `differs` where one settle left other documents. It promises nothing.
#![tactic(auto)]

mod afresh;
mod draws;
mod events;
mod texts;

use crate::afresh::are_fresh;
use crate::draws::Draws;
use crate::events::{Came, event};
use cat_case::case::Case;
use cat_case::shown::push_number;
use cat_core::catalogue::Catalogue;
use cat_layers::layered::Layered;
use cat_model::types::{OrphanRule, Settings};
use std::alloc::{AllocError, Global};

// How many events came to what, and whether all documents were fresh.
#[derive(Drop)]
struct Tally {
    acted: u64,
    refused: u64,
    settled: u64,
    fresh: bool,
}

fn empty(alloc: Global, seed: u64) -> Catalogue<Layered> {
    let orphans = if seed % 2 == 0 {
        OrphanRule::Delete
    } else {
        OrphanRule::Keep
    };
    let settings = Settings {
        interval: 120_000,
        lease: 60_000,
        input_limit: 67_108_864,
        orphans,
    };
    Catalogue::empty(alloc, Layered, settings)
}

// Counts an event, and looks at the documents behind a settle.
fn count(
    alloc: Global,
    catalogue: &Catalogue<Layered>,
    came: Came,
    tally: &mut Tally,
) -> Result<(), AllocError> {
    match came {
        Came::Acted => tally.acted = tally.acted.saturating_add(1),
        Came::Refused => tally.refused = tally.refused.saturating_add(1),
        Came::Settled => {
            tally.settled = tally.settled.saturating_add(1);
            tally.fresh = tally.fresh && are_fresh(alloc, catalogue.view())?;
        }
        Came::Cut => tally.fresh = false,
    }
    Ok(())
}

// Puts numbers, and a space behind each, behind what stands so far.
fn push_numbers(out: &mut String, numbers: &[u64]) -> Result<(), AllocError> {
    for number in numbers {
        push_number(out, *number)?;
        out.push_str(" ")?;
    }
    Ok(())
}

// Puts what came of a session over a catalogue behind what stands so far.
fn push_tally(
    out: &mut String,
    catalogue: &Catalogue<Layered>,
    tally: &Tally,
) -> Result<(), AllocError> {
    let documents = catalogue.view().documents.len() as u64;
    let orphans = catalogue.view().orphans.len() as u64;
    push_numbers(
        out,
        &[
            tally.acted,
            tally.refused,
            tally.settled,
            documents,
            orphans,
        ],
    )?;
    out.push_str(if tally.fresh { "fresh" } else { "differs" })
}

// Puts what came of a session over a catalogue behind what stands so far.
fn push_told(
    alloc: Global,
    out: &mut String,
    catalogue: &mut Catalogue<Layered>,
    seed: u64,
    events: u64,
) -> Result<(), AllocError> {
    let mut draws = Draws::new(seed);
    let mut tally = Tally {
        acted: 0,
        refused: 0,
        settled: 0,
        fresh: true,
    };
    for number in 0..events {
        let came = event(alloc, catalogue, number, &mut draws)?;
        count(alloc, catalogue, came, &mut tally)?;
    }
    push_number(out, seed)?;
    out.push_str(": ")?;
    push_tally(out, catalogue, &tally)
}

// Puts what came of a session behind what stands so far.
fn push_session(alloc: Global, out: &mut String, seed: u64, events: u64) -> Result<(), AllocError> {
    let mut catalogue = empty(alloc, seed);
    let told = push_told(alloc, out, &mut catalogue, seed, events);
    drop(catalogue);
    told
}

// The answer to a case of a drawn session, which has a seed and how many events.
fn drawn(alloc: Global, case: &Case) -> Result<String, AllocError> {
    let mut out = String::new(alloc);
    push_session(alloc, &mut out, case.number(1), case.number(2))?;
    Ok(out)
}

/// The answer to a case of a drawn session, and none of a case of another subject. The error is want of memory.
pub fn told(alloc: Global, case: &Case) -> Result<Option<String>, AllocError> {
    match case.asked() {
        ("session", "drawn") => Ok(Some(drawn(alloc, case)?)),
        _ => Ok(None),
    }
}
