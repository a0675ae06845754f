//! What stands in each line of a text.
use crate::case::{Case, Named, Names};
use crate::shown::push_line;
use std::alloc::{AllocError, Global};

/// What stands in a line.
#[derive(Drop)]
pub enum Line {
    /// Bytes that are told as they are.
    Told(Vec<u8>),
    /// A case that is to be answered.
    Asked(Case),
}

// A line that is told as it is.
fn plain(alloc: Global, line: &str) -> Result<Line, AllocError> {
    let mut told = Vec::new(alloc);
    told.extend_from_slice(line.as_bytes())?;
    told.push(b'\n')?;
    Ok(Line::Told(told))
}

// Gives the name of the first field to the text of the second; the name is told.
fn named(alloc: Global, names: &mut Names, case: &Case) -> Result<Line, AllocError> {
    let name = String::from_str(alloc, case.text(1))?;
    let text = case.bytes(2).to_vec(alloc)?;
    names.push(Named { name, text })?;
    let mut told = Vec::new(alloc);
    push_line(&mut told, case.text(1))?;
    Ok(Line::Told(told))
}

// What stands in a line, and the name that it gives is known from then on.
fn line_of(alloc: Global, names: &mut Names, line: &str) -> Result<Line, AllocError> {
    if line.is_empty() || line.starts_with('#') {
        return plain(alloc, line);
    }
    let case = Case::read(alloc, names, line)?;
    if case.names_text() {
        named(alloc, names, &case)
    } else {
        Ok(Line::Asked(case))
    }
}

/// What stands in each line of a text, in order.
pub fn read_lines(alloc: Global, text: &str) -> Result<Vec<Line>, AllocError> {
    let mut names: Names = Vec::new(alloc);
    let mut lines = Vec::new(alloc);
    for line in text.lines() {
        let read = line_of(alloc, &mut names, line)?;
        lines.push(read)?;
    }
    Ok(lines)
}
