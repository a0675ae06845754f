//! Events of a catalogue that are drawn.
ghost use Rattle.std.specs.Prelude.{◌<◌, ◌^◌};

use crate::draws::Draws;
use crate::texts::{delta, full, reference, shelf_name, shelf_text};
use cat_core::catalogue::{Catalogue, Done, Stitched};
use cat_inputs::form::Form;
use cat_inputs::input::read_mutation;
use cat_layers::layered::Layered;
use cat_tree::text::Text;
use cat_types::reference::parse;
use std::alloc::{AllocError, Global};

/// What became of an event.
#[derive(Clone, Copy, Drop, PartialEq, Eq)]
pub enum Came {
    Acted,
    Refused,
    Settled,
    Cut,
}

// The moment of an event.
fn moment(number: u64) -> u64
    ensures { result < 2 ^ 53 }
{
    number.wrapping_mul(1_000) % 1_000_000_000
}

// An answer, without what it says.
fn outcome<T: Drop, E: Drop>(answer: Result<T, E>) -> Came {
    match answer {
        Ok(_) => Came::Acted,
        Err(_) => Came::Refused,
    }
}

// A provider gives all it has, or what is new.
fn mutate(
    alloc: Global,
    catalogue: &mut Catalogue<Layered>,
    number: u64,
    draws: &mut Draws,
) -> Result<Came, AllocError> {
    let provider = Text::of(alloc, draws.word(&["git", "hub"]))?;
    let serial = number.saturating_add(1);
    let (form, body) = if draws.below(4) == 0 {
        (Form::Full, full(alloc, serial, draws)?)
    } else {
        (Form::Delta, delta(alloc, serial, draws)?)
    };
    match read_mutation(alloc, form, body.as_str().as_bytes()) {
        Ok(mutation) => Ok(outcome(catalogue.mutate(alloc, &provider, &mutation))),
        Err(_) => Ok(Came::Refused),
    }
}

fn shelve(
    alloc: Global,
    catalogue: &mut Catalogue<Layered>,
    draws: &mut Draws,
) -> Result<Came, AllocError> {
    let name = Text::of(alloc, shelf_name(draws))?;
    if draws.below(4) == 0 {
        return Ok(outcome(catalogue.shelf_drop(alloc, &name)));
    }
    let body = Text::from_string(shelf_text(alloc, draws)?);
    Ok(outcome(catalogue.shelf_put(alloc, &name, &body)))
}

// What is known under a reference is refreshed or forgotten.
fn ask_for(
    alloc: Global,
    catalogue: &mut Catalogue<Layered>,
    draws: &mut Draws,
) -> Result<Came, AllocError> {
    let text = reference(alloc, draws)?;
    let Ok(reference) = parse(alloc, text.as_str(), None, "default") else {
        return Ok(Came::Refused);
    };
    match draws.below(3) {
        0 => Ok(outcome(catalogue.forget(alloc, &reference))),
        1 => Ok(outcome(catalogue.forget_number(alloc, draws.below(20)))),
        _ => Ok(outcome(catalogue.refresh(&reference))),
    }
}

// A worker takes the record that is due first, and brings its result.
fn work(
    alloc: Global,
    catalogue: &mut Catalogue<Layered>,
    number: u64,
) -> Result<Came, AllocError> {
    let now = moment(number);
    match catalogue.take(alloc, now) {
        Ok(Some(order)) => {
            let done = Done::of(alloc, &Layered, &order)?;
            Ok(outcome(catalogue.finish(alloc, &done, now)))
        }
        _ => Ok(Came::Refused),
    }
}

// A worker takes the document that was marked first, and brings it.
fn stitch(alloc: Global, catalogue: &mut Catalogue<Layered>) -> Result<Came, AllocError> {
    match catalogue.take_stitch(alloc, 0) {
        Ok(Some(order)) => {
            let stitched = Stitched::of(alloc, &Layered, &order)?;
            Ok(outcome(catalogue.put_stitch(alloc, &stitched)))
        }
        _ => Ok(Came::Refused),
    }
}

fn settle(alloc: Global, catalogue: &mut Catalogue<Layered>, number: u64) -> Came {
    match catalogue.settle(alloc, moment(number)) {
        Ok(_) => Came::Settled,
        Err(_) => Came::Cut,
    }
}

/// The event with this number, as it is drawn. The error is want of memory for what the event is about.
pub fn event(
    alloc: Global,
    catalogue: &mut Catalogue<Layered>,
    number: u64,
    draws: &mut Draws,
) -> Result<Came, AllocError> {
    match draws.below(12) {
        0..=2 => mutate(alloc, catalogue, number, draws),
        3..=5 => shelve(alloc, catalogue, draws),
        6 => ask_for(alloc, catalogue, draws),
        7 | 8 => work(alloc, catalogue, number),
        9 => stitch(alloc, catalogue),
        _ => Ok(settle(alloc, catalogue, number)),
    }
}
