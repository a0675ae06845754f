//! The lines of a text, and the parts of a list of lines. Nothing but `lines_of` takes memory.
ghost use Rattle.std.specs.Prelude.{◌≡◌, ◌≤◌, IfOk, map, length};
ghost use Rattle.std.specs.Option.{option_copied};
ghost use Rattle.std.specs.Str.Lines.{lines};
ghost use Rattle.cat_yaml.specs.Lines as spec;
ghost use Rattle.cat_yaml.specs.SeenLine.{seen_line};

use crate::scan::{begins_with, ends_word, is_end, is_item, stripped};
use std::alloc::{AllocError, Global};

/// A line: how many bytes it has, and its content, which is the last of them.
#[derive(Clone, Copy)]
pub struct Line<'a> {
    pub width: usize,
    pub content: &'a [u8],
}

/// What begins the next part of a list of lines.
#[derive(Clone, Copy)]
pub enum Start {
    /// An item of a list at this indent, or a line with a smaller one.
    Item(usize),
    /// An entry of a map at this indent, or a line with a smaller one.
    Entry(usize),
    /// The line `---`.
    Document,
    /// A line that doesn't belong to the literal text of an entry at this indent.
    Outside(usize),
}

fn line_of(bytes: &[u8]) -> Line<'_>
    ensures { seen_line result ≡ spec.line_of bytes.now }
{
    Line {
        width: bytes.len(),
        content: stripped(bytes),
    }
}

/// How many bytes stand in front of the content.
pub fn indent_of(line: &Line) -> usize
    ensures { result ≡ spec.indent (seen_line line.now) }
{
    line.width.saturating_sub(line.content.len())
}

fn texts_of(alloc: Global, text: &str) -> Result<Vec<&str>, AllocError>
    ensures { IfOk result (λ v. map (λ x. x.now) v.items ≡ lines text.now) }
{
    text.lines().collect(alloc)
}

/// The lines of a text, each ended by LF, with a CR before it dropped.
pub fn lines_of(alloc: Global, text: &str) -> Result<Vec<Line<'_>>, AllocError>
    ensures { IfOk result (λ v. map seen_line v.items ≡ spec.lines_of text.now) }
{
    let texts = texts_of(alloc, text)?;
    let mut found = Vec::with_capacity(alloc, texts.len())?;
    for line in &texts {
        found.push(line_of(line.as_bytes()))?;
    }
    Ok(found)
}

/// Whether the line has only spaces.
pub fn is_blank(line: &Line) -> bool
    ensures { result ≡ spec.is_blank (seen_line line.now) }
{
    line.content.is_empty()
}

/// Whether the line has only spaces or a comment.
pub fn is_passed(line: &Line) -> bool
    ensures { result ≡ spec.is_passed (seen_line line.now) }
{
    is_blank(line) || begins_with(b'#', line.content)
}

/// Whether each line has only spaces or a comment.
pub fn are_passed(lines: &[Line]) -> bool
    ensures { result ≡ spec.are_passed (map seen_line lines.now) }
{
    for line in lines {
        if !is_passed(line) {
            return false;
        }
    }
    true
}

// What follows the byte, if the bytes begin with it.
fn after(byte: u8, bytes: &[u8]) -> Option<&[u8]>
    ensures { option_copied result ≡ spec.after byte bytes.now }
{
    match bytes.split_first() {
        Some((first, rest)) => { if *first == byte { Some(rest) } else { None } }
        None => None,
    }
}

// What follows the byte, three times.
fn after_three(byte: u8, bytes: &[u8]) -> Option<&[u8]>
    ensures { option_copied result ≡ spec.after_three byte bytes.now }
{
    after(byte, after(byte, after(byte, bytes)?)?)
}

fn is_document_start(line: &Line) -> bool
    ensures { result ≡ spec.is_document_start (seen_line line.now) }
{
    if indent_of(line) != 0 {
        return false;
    }
    match after_three(b'-', line.content) {
        Some(rest) => is_end(rest),
        None => false,
    }
}

/// Whether the line is `...` at indent 0, which has no reading.
pub fn is_document_end(line: &Line) -> bool
    ensures { result ≡ spec.is_document_end (seen_line line.now) }
{
    if indent_of(line) != 0 {
        return false;
    }
    match after_three(b'.', line.content) {
        Some(rest) => ends_word(rest),
        None => false,
    }
}

fn begins_entry(indent: usize, line: &Line) -> bool
    ensures { result ≡ spec.begins (Start.Entry indent) (seen_line line.now) }
{
    !is_passed(line)
        && (indent_of(line) < indent || (indent_of(line) == indent && !is_item(line.content)))
}

/// Whether the line begins the next part.
pub fn begins(start: Start, line: &Line) -> bool
    ensures { result ≡ spec.begins start (seen_line line.now) }
{
    match start {
        Start::Item(indent) => !is_passed(line) && indent_of(line) <= indent,
        Start::Entry(indent) => begins_entry(indent, line),
        Start::Document => is_document_start(line),
        Start::Outside(indent) => !is_blank(line) && indent_of(line) <= indent,
    }
}

/// The lines before the first that begins the next part.
pub fn part<'a, 'b>(start: Start, lines: &'a [Line<'b>]) -> &'a [Line<'b>]
    ensures value { map seen_line result.now ≡ spec.part start (map seen_line lines.now) }
    ensures within { length result.now ≤ length lines.now }
{
    for (i, line) in lines.iter().enumerate() {
        if begins(start, line) {
            return lines.split_at(i).0;
        }
    }
    lines
}
