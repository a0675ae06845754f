//! Ends in memory, and sessions and connections over them, with a call that fails.
ghost use Rattle.std.specs.Prelude.{◌≡◌, ◌+◌, ◌%◌, ◌∷◌, [], ◌++◌, IfOk};

use crate::fault::Fault;
use cat_case::case::Case;
use cat_case::shown::{push_bytes, push_counted, push_texts, truth_text};
use cat_connection::{answer_lines, connection};
use cat_http::message::Message;
use cat_io::{MemorySink, MemorySource, ReadAnswer, Source, session, write_all};
use std::alloc::{AllocError, Global};

/// Answers each line with the line itself, after a letter that it counts up.
#[derive(Drop)]
struct Lettering {
    alloc: Global,
    letter: u8,
}

// The letter, the line, and an LF.
fn lettered(alloc: Global, letter: u8, line: &[u8]) -> Result<Vec<u8>, AllocError>
    ensures { IfOk result (λ text. text.items ≡ letter ∷ (line.now ++ 10 ∷ [])) }
{
    let mut text = vec![in alloc; letter]?;
    text.extend_from_slice(line)?;
    text.push(b'\n')?;
    Ok(text)
}

impl cat_io::Machine for Lettering {
    ghost after = { λ m _ _. record m { letter = (m.letter + 1) % 256 } };

    ghost reply = { λ m _ line. m.letter ∷ (line ++ 10 ∷ []) };

    fn answer(&mut self, line: &[u8]) -> Result<Vec<u8>, AllocError> {
        let text = lettered(self.alloc, self.letter, line)?;
        self.letter = self.letter.wrapping_add(1);
        Ok(text)
    }
}

/// Answers each message with its path.
#[derive(Drop)]
struct Echo {
    alloc: Global,
}

impl cat_connection::Machine for Echo {
    ghost answers = { λ old m new text. (new ≡ old) × (text ≡ m.path) };

    ghost lacks = { λ old _ new. new ≡ old };

    fn answer(&mut self, message: &Message) -> Result<Vec<u8>, AllocError> {
        message.path.as_str().as_bytes().to_vec(self.alloc)
    }
}

// A source of the bytes of the first field that gives as many at a call as the second says; the call of the third fails.
fn source(alloc: Global, case: &Case) -> Result<MemorySource, AllocError> {
    let failing = vec![in alloc; case.number(3)]?;
    let bytes = case.bytes(1).to_vec(alloc)?;
    Ok(MemorySource::new(bytes, case.number(2).max(1), failing))
}

// A sink that takes as many bytes at a call as the fourth field says; the call of the fifth fails.
fn sink(alloc: Global, case: &Case) -> Result<MemorySink, AllocError> {
    let failing = vec![in alloc; case.number(5)]?;
    Ok(MemorySink::new(case.number(4).max(1), failing))
}

// Puts as many bytes of a buffer as a read gave behind those so far.
fn push_given(taken: &mut Vec<u8>, buffer: &[u8], answer: ReadAnswer) -> Result<(), AllocError> {
    match answer {
        ReadAnswer::Read(count) => {
            let (given, _) = buffer
                .split_at_checked(count as usize)
                .unwrap_or((buffer, &[]));
            taken.extend_from_slice(given)
        }
        _ => Ok(()),
    }
}

// Puts what a read to three bytes answers behind what stands so far, and what it takes behind what was taken.
fn push_read(
    out: &mut String,
    source: &mut MemorySource,
    taken: &mut Vec<u8>,
) -> Result<(), AllocError> {
    let mut buffer = [0; 3];
    let answer = source.read(&mut buffer);
    write!(out, "{answer:?} ")?;
    push_given(taken, &buffer, answer)
}

// Puts what five reads answer behind what stands so far, and what they take behind what was taken.
fn push_reads(
    out: &mut String,
    source: &mut MemorySource,
    taken: &mut Vec<u8>,
) -> Result<(), AllocError> {
    for _ in 0..5 {
        push_read(out, source, taken)?;
    }
    Ok(())
}

// Puts what five reads to three bytes each answer, and what they take, behind what stands so far.
fn push_taken(out: &mut String, alloc: Global, source: &mut MemorySource) -> Result<(), Fault> {
    let mut taken = Vec::new(alloc);
    push_reads(out, source, &mut taken)?;
    push_bytes(out, taken.as_slice()).map_err(Fault::Show)
}

fn read(out: &mut String, alloc: Global, case: &Case) -> Result<(), Fault> {
    let mut source = source(alloc, case)?;
    push_taken(out, alloc, &mut source)
}

// Puts what writing `abc` and `de` whole answers, and what is written then, behind what stands so far.
fn push_writes(out: &mut String, sink: &mut MemorySink) -> Result<(), Fault> {
    let first = write_all(sink, b"abc").is_ok();
    let second = write_all(sink, b"de").is_ok();
    push_texts(out, &[truth_text(first), " ", truth_text(second), " "])?;
    push_bytes(out, sink.written()).map_err(Fault::Show)
}

fn written(out: &mut String, alloc: Global, case: &Case) -> Result<(), Fault> {
    let mut sink = sink(alloc, case)?;
    push_writes(out, &mut sink)
}

// Puts how a session ends behind what stands so far.
fn push_session(
    out: &mut String,
    alloc: Global,
    source: &mut MemorySource,
    sink: &mut MemorySink,
) -> Result<(), AllocError> {
    let mut machine = Lettering {
        alloc,
        letter: b'a',
    };
    let end = session(alloc, &mut machine, source, sink);
    write!(out, "{end:?}")
}

// Puts the status that a session ends with behind what stands so far.
fn push_status(
    out: &mut String,
    alloc: Global,
    source: &mut MemorySource,
    sink: &mut MemorySink,
) -> Result<(), AllocError> {
    let mut machine = Lettering {
        alloc,
        letter: b'a',
    };
    let status = answer_lines(alloc, &mut machine, source, sink);
    push_counted(out, "", u64::from(status.number()))
}

// Puts how a connection ends behind what stands so far.
fn push_connection(
    out: &mut String,
    alloc: Global,
    source: &mut MemorySource,
    sink: &mut MemorySink,
) -> Result<(), AllocError> {
    let mut machine = Echo { alloc };
    let end = connection(alloc, &mut machine, source, sink);
    write!(out, "{end:?}")
}

// Puts how what is asked for ends behind what stands so far.
fn push_end(
    out: &mut String,
    alloc: Global,
    question: &str,
    source: &mut MemorySource,
    sink: &mut MemorySink,
) -> Result<(), Fault> {
    match question {
        "session" => push_session(out, alloc, source, sink).map_err(Fault::Memory),
        "status" => push_status(out, alloc, source, sink).map_err(Fault::Memory),
        "connection" => push_connection(out, alloc, source, sink).map_err(Fault::Memory),
        _ => Err(Fault::Question),
    }
}

// Puts how what is asked for ends, and what is written then, behind what stands so far.
fn push_ended(
    out: &mut String,
    alloc: Global,
    question: &str,
    source: &mut MemorySource,
    sink: &mut MemorySink,
) -> Result<(), Fault> {
    push_end(out, alloc, question, source, sink)?;
    out.push_str(" ")?;
    push_bytes(out, sink.written()).map_err(Fault::Show)
}

fn ended(out: &mut String, alloc: Global, question: &str, case: &Case) -> Result<(), Fault> {
    let mut source = source(alloc, case)?;
    let mut sink = sink(alloc, case)?;
    push_ended(out, alloc, question, &mut source, &mut sink)
}

/// Puts what is asked of ends in memory behind what stands so far.
pub fn answer(out: &mut String, alloc: Global, question: &str, case: &Case) -> Result<(), Fault> {
    match question {
        "read" => read(out, alloc, case),
        "written" => written(out, alloc, case),
        _ => ended(out, alloc, question, case),
    }
}
