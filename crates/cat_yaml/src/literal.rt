//! Literal text: the lines below an entry, less their common indent.
ghost use Rattle.std.specs.Prelude.{◌≡◌, ◌++◌, ◌⊎◌, [], Ok, Err, Some, IfOk, IfErr, OnOk, map, replicate};
ghost use Rattle.cat_tree.specs.View.{data_of};
ghost use Rattle.cat_yaml.specs.Literal as spec;
ghost use Rattle.cat_yaml.specs.Scan.{trimmed as trimmed_of};
ghost use Rattle.cat_yaml.specs.SeenLine.{seen_line};

use crate::fault::Refusal;
use crate::line::{Line, Start, are_passed, indent_of, is_blank, part};
use crate::scalar::text_of;
use crate::scan::{begins_with, trimmed, uncommented};
use cat_tree::tree::Tree;
use std::alloc::{AllocError, Global};

/// How literal text ends.
#[derive(Clone, Copy)]
pub enum Chomping {
    /// `|`: with one LF, unless it is empty.
    Clip,
    /// `|-`: with none.
    Strip,
    /// `|+`: with all that it has.
    Keep,
}

/// How literal text ends, where the rest of an entry calls for one.
pub fn chomping_of(rest: &[u8]) -> Option<Chomping>
    ensures { result ≡ spec.chomping_of rest.now }
{
    if !begins_with(b'|', rest) {
        return None;
    }
    let rest = uncommented(rest);
    if rest == b"|".as_slice() {
        Some(Chomping::Clip)
    } else if rest == b"|-".as_slice() {
        Some(Chomping::Strip)
    } else if rest == b"|+".as_slice() {
        Some(Chomping::Keep)
    } else {
        None
    }
}

// The indent of the first line that has another byte than a space.
fn margin(lines: &[Line]) -> Option<usize>
    ensures { result ≡ spec.margin (map seen_line lines.now) }
{
    for line in lines {
        if !is_blank(line) {
            return Some(indent_of(line));
        }
    }
    None
}

fn push_spaces(count: usize, text: &mut Vec<u8>) -> Result<(), AllocError>
    ensures { OnOk result (text.new.items ≡ text.old.items ++ replicate count 32) }
{
    for _space in 0..count {
        text.push(b' ')?;
    }
    Ok(())
}

// Puts a line without the margin behind the text.
fn push_line(margin: Option<usize>, line: &Line, text: &mut Vec<u8>) -> Result<(), Refusal>
    ensures ok { OnOk result (spec.with_line text.old.items (spec.literal_line margin (seen_line line.now))
        ≡ Ok text.new.items) }
    ensures err { IfErr result (λ e. (spec.literal_line margin (seen_line line.now) ≡ Err e) ⊎ (e ≡ Refusal.NoMemory)) }
{
    match margin {
        None => Ok(()),
        Some(margin) => push_after(margin, line, text),
    }
}

// Puts what stands behind the margin behind the text.
fn push_after(margin: usize, line: &Line, text: &mut Vec<u8>) -> Result<(), Refusal>
    ensures ok { OnOk result (spec.with_line text.old.items (spec.literal_line (Some margin) (seen_line line.now))
        ≡ Ok text.new.items) }
    ensures err { IfErr result (λ e. (spec.literal_line (Some margin) (seen_line line.now) ≡ Err e)
        ⊎ (e ≡ Refusal.NoMemory)) }
{
    if margin <= indent_of(line) {
        push_spaces(indent_of(line) - margin, text)?;
        text.extend_from_slice(line.content)?;
        return Ok(());
    }
    if is_blank(line) {
        Ok(())
    } else {
        Err(Refusal::NoReading)
    }
}

// The lines, each without the margin and with LF at its end.
fn literal_lines(alloc: Global, lines: &[Line]) -> Result<Vec<u8>, Refusal>
    ensures ok { IfOk result (λ v. spec.literal_lines (spec.margin (map seen_line lines.now)) [] (map seen_line lines.now)
        ≡ Ok v.items) }
    ensures err { IfErr result (λ e. (spec.literal_lines (spec.margin (map seen_line lines.now)) [] (map seen_line lines.now)
        ≡ Err e) ⊎ (e ≡ Refusal.NoMemory)) }
{
    let margin = margin(lines);
    let mut text = Vec::new(alloc);
    for line in lines {
        push_line(margin, line, &mut text)?;
        text.push(b'\n')?;
    }
    Ok(text)
}

// The text without the LF at its end.
fn without_newlines(mut text: Vec<u8>) -> Vec<u8>
    ensures { result.items ≡ trimmed_of 10 text.items }
{
    let end = trimmed(b'\n', text.as_slice()).len();
    text.truncate(end);
    text
}

// The text with LF at its end, unless it is empty.
fn with_newline(mut text: Vec<u8>) -> Result<Vec<u8>, AllocError>
    ensures { IfOk result (λ v. v.items ≡ spec.with_newline text.items) }
{
    if text.is_empty() {
        return Ok(text);
    }
    text.push(b'\n')?;
    Ok(text)
}

// The text with the ends of lines that it keeps.
fn chomped(chomping: Chomping, text: Vec<u8>) -> Result<Vec<u8>, AllocError>
    ensures { IfOk result (λ v. v.items ≡ spec.chomped chomping text.items) }
{
    match chomping {
        Chomping::Keep => Ok(text),
        Chomping::Strip => Ok(without_newlines(text)),
        Chomping::Clip => with_newline(without_newlines(text)),
    }
}

fn literal_text(alloc: Global, chomping: Chomping, lines: &[Line]) -> Result<Tree, Refusal>
    ensures ok { IfOk result (λ t. spec.literal_text chomping (map seen_line lines.now) ≡ Ok (data_of t)) }
    ensures err { IfErr result (λ e. (spec.literal_text chomping (map seen_line lines.now) ≡ Err e)
        ⊎ (e ≡ Refusal.NoMemory)) }
{
    let text = literal_lines(alloc, lines)?;
    let text = chomped(chomping, text)?;
    Ok(Tree::Words(text_of(alloc, text.as_slice())?))
}

/// The literal text of an entry at an indent: the lines that have only spaces or a greater indent; the
/// lines after these are passed over.
pub fn literal(
    alloc: Global,
    chomping: Chomping,
    indent: usize,
    lines: &[Line],
) -> Result<Tree, Refusal>
    ensures ok { IfOk result (λ t. spec.literal chomping indent (map seen_line lines.now) ≡ Ok (data_of t)) }
    ensures err { IfErr result (λ e. (spec.literal chomping indent (map seen_line lines.now) ≡ Err e)
        ⊎ (e ≡ Refusal.NoMemory)) }
{
    let text = part(Start::Outside(indent), lines);
    let (_, after) = lines.split_at(text.len());
    if !are_passed(after) {
        return Err(Refusal::NoReading);
    }
    literal_text(alloc, chomping, text)
}
