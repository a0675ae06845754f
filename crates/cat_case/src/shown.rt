//! Answers as texts.
use cat_tree::tree::Tree;
use cat_tree::write::write;
use itoa::Buffer;
use std::alloc::{AllocError, Global};
use thiserror::Error;

/// Why something can't be told as text.
#[derive(Debug, Drop, Error)]
pub enum ShowFault {
    #[error("not UTF-8")]
    Bytes,
    #[error("no memory")]
    Memory(#[from(alloc)] AllocError),
}

/// Puts texts, one after the other, behind what stands so far.
pub fn push_texts(out: &mut String, texts: &[&str]) -> Result<(), AllocError> {
    for text in texts {
        out.push_str(text)?;
    }
    Ok(())
}

/// Puts a number behind what stands so far.
pub fn push_number(out: &mut String, number: u64) -> Result<(), AllocError> {
    let mut buffer = Buffer::new();
    out.push_str(buffer.format(number))
}

/// Puts a text, and a number behind it, behind what stands so far.
pub fn push_counted(out: &mut String, text: &str, number: u64) -> Result<(), AllocError> {
    let mut buffer = Buffer::new();
    push_texts(out, &[text, buffer.format(number)])
}

/// A truth as text.
pub fn truth_text(holds: bool) -> &'static str {
    if holds { "true" } else { "false" }
}

/// Puts bytes as text behind what stands so far.
pub fn push_bytes(out: &mut String, bytes: &[u8]) -> Result<(), ShowFault> {
    match str::from_utf8(bytes) {
        Ok(text) => out.push_str(text).map_err(ShowFault::Memory),
        Err(_) => Err(ShowFault::Bytes),
    }
}

/// Puts a tree as JSON behind what stands so far.
pub fn push_json(out: &mut String, alloc: Global, tree: &Tree) -> Result<(), ShowFault> {
    let mut bytes = Vec::new(alloc);
    write(alloc, tree, &mut bytes)?;
    push_bytes(out, bytes.as_slice())
}

/// Puts a space behind what stands so far, if something does.
pub fn push_gap(out: &mut String) -> Result<(), AllocError> {
    if out.is_empty() {
        return Ok(());
    }
    out.push_str(" ")
}

/// Puts a word behind those so far, with a space between them.
pub fn push_word(out: &mut String, word: &str) -> Result<(), AllocError> {
    push_gap(out)?;
    out.push_str(word)
}

// Puts a byte behind those so far, one that parts lines or fields by its hexadecimal digits.
fn push_byte(out: &mut Vec<u8>, byte: u8) -> Result<(), AllocError> {
    match byte {
        b'\t' => out.extend_from_slice(b"^09"),
        b'\n' => out.extend_from_slice(b"^0a"),
        b'\r' => out.extend_from_slice(b"^0d"),
        b'^' => out.extend_from_slice(b"^5e"),
        plain => Ok(out.push(plain)?),
    }
}

// Puts bytes one after the other behind those so far.
fn push_each(out: &mut Vec<u8>, bytes: &[u8]) -> Result<(), AllocError> {
    for byte in bytes {
        push_byte(out, *byte)?;
    }
    Ok(())
}

// Puts how often a byte stands, and the byte, behind those so far.
fn push_often(out: &mut Vec<u8>, count: usize, byte: u8) -> Result<(), AllocError> {
    let mut buffer = Buffer::new();
    out.extend_from_slice(b"^(")?;
    out.extend_from_slice(buffer.format(count).as_bytes())?;
    out.push(b' ')?;
    push_byte(out, byte)?;
    out.extend_from_slice(b"^)")
}

// Puts bytes that are all the same behind those so far.
fn push_run(out: &mut Vec<u8>, run: &[u8]) -> Result<(), AllocError> {
    match run.first() {
        Some(byte) if 100 <= run.len() => push_often(out, run.len(), *byte),
        _ => push_each(out, run),
    }
}

/// Puts an answer as a line behind those so far, with a byte that stands a hundred times or more as `^(100 a^)`.
pub fn push_line(out: &mut Vec<u8>, answer: &str) -> Result<(), AllocError> {
    for run in answer.as_bytes().chunk_by(|left, right| left == right) {
        push_run(out, run)?;
    }
    out.push(b'\n')?;
    Ok(())
}
