//! Lines with their commands.
use crate::fault::Fault;
use cat_case::case::Case;
use cat_case::shown::{push_number, push_texts};
use cat_query::ask::Ask;
use cat_session_lines::line::Line;
use cat_session_lines::read::read_line;
use std::alloc::{AllocError, Global};

// The question, and its text or its number.
fn seen_ask(ask: &Ask) -> (&str, &str, u64) {
    match ask {
        Ask::Get(reference) => ("get", reference.as_str(), 0),
        Ask::Number(number) => ("number", "", *number),
        Ask::List(query) => ("list", "", query.limit),
        Ask::Page(query) => ("page", "", query.limit),
        Ask::Facets(query) => ("facets", "", query.facets.as_slice().len() as u64),
        Ask::Many(references, _) => ("many", "", references.as_slice().len() as u64),
        Ask::Conflicts => ("conflicts", "", 0),
        Ask::Failed => ("failed", "", 0),
        Ask::Orphans => ("orphans", "", 0),
        Ask::State => ("state", "", 0),
        Ask::Quiet => ("quiet", "", 0),
    }
}

// The command, and its text or its number.
fn seen(line: &Line) -> (&str, &str, u64) {
    match line {
        Line::Mutate(provider, _) => ("mutate", provider.as_str(), 0),
        Line::ShelfPut(_, body) => ("put", body.as_str(), 0),
        Line::ShelfDrop(name) => ("drop", name.as_str(), 0),
        Line::Refresh(reference) => ("refresh", reference.as_str(), 0),
        Line::Forget(reference) => ("forget", reference.as_str(), 0),
        Line::Clock(moment) => ("clock", "", *moment),
        Line::Finish(token) => ("finish", "", *token),
        Line::Stitch(ticket) => ("stitch", "", *ticket),
        Line::Place(ticket) => ("place", "", *ticket),
        Line::Take => ("take", "", 0),
        Line::Settle => ("settle", "", 0),
        Line::Ask(ask) => seen_ask(ask),
    }
}

// Puts the command of a line behind what stands so far.
fn push_command(out: &mut String, line: &Line) -> Result<(), AllocError> {
    let (command, text, number) = seen(line);
    push_texts(out, &[command, " [", text, "] "])?;
    push_number(out, number)
}

/// Puts the command of a line, with its text in brackets and its number, behind what stands so far.
pub fn command(out: &mut String, alloc: Global, case: &Case) -> Result<(), Fault> {
    let line = read_line(alloc, case.bytes(1))?;
    push_command(out, &line).map_err(Fault::Memory)
}
