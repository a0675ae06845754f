//! The loop over a mirror's lines.

ghost use Rattle.std.specs.Prelude.{◌≡◌, ℕ, ◌<◌, ◌≤◌, [], ◌++◌, ◌∷◌, List, OnOk, OnErr, IfOk, IfErr, IfSome, Err, length};
ghost use Rattle.std.specs.declared.option.Option.{Option};
ghost use Rattle.std.specs.Io.KnownBytes.{Appends};
ghost use Rattle.cat_io.specs.Causes.{Rose};
ghost use Rattle.cat_io.specs.Source.{Reads};
ghost use Rattle.cat_io.specs.Session.{IsAtMost};
ghost use Rattle.cat_io.specs.Lines.{lines, whole_lines};
ghost use Rattle.cat_feed.specs.Mirror.{empty};
ghost use Rattle.cat_mirror.specs.Answers as spec;
ghost use Rattle.cat_mirror.specs.Following.{AppendsSome, HasAnswered, HasFollowed, IsBroken, IsCut, IsStopped, IsWhole};

use crate::answer::{answer, documents_line};
use crate::line::{LineBuffer, split_line};
use crate::stop::Stop;
use cat_feed::mirror::Mirror;
use cat_io::{ReadAnswer, Sink, Source, write_all};
use std::alloc::{AllocError, Global};

/// The most bytes that are taken.
const BOUND: u64 = 1 << 40;

/// The most bytes that are taken in a turn.
const PIECE: usize = 65_536;

/// A mirror, and what has come of its next line.
#[derive(Drop)]
pub(crate) struct Following {
    alloc: Global,
    mirror: Mirror,
    line: LineBuffer,
}

// So many zeros.
fn zeros(alloc: Global, count: usize) -> Result<Vec<u8>, AllocError>
    ensures { IfOk result (λ bytes. length bytes.items ≡ count) }
{
    vec![in alloc; 0u8; count]
}

// Answers a line.
fn serve<O: Sink>(alloc: Global, mirror: &mut Mirror, line: &[u8], sink: &mut O) -> Result<(), Stop>
    ensures ok { OnOk result (Appends (O.written sink.old) (O.written sink.new) (spec.mirror_answer mirror.old line.now)) }
    ensures next { OnOk result (mirror.new ≡ spec.mirror_next mirror.old line.now) }
    ensures err { IfErr result (λ stop. IsBroken stop (O.written sink.old) (O.written sink.new) (spec.mirror_answer mirror.old line.now)) }
    ensures later { O.faults sink.old ≤ O.faults sink.new }
    ensures cause { result ≡ Err Stop.WriteFault → Rose (O.faults sink.old) (O.faults sink.new) }
{
    let text = answer(alloc, mirror, line)?;
    write_all(sink, text.as_slice())?;
    Ok(())
}

// Reads up to `most` bytes to the front of the buffer.
fn read_piece<S: Source>(source: &mut S, buffer: &mut [u8], most: usize) -> ReadAnswer
    requires some { 0 < most }
    requires room { most ≤ length buffer.old }
    ensures bytes { Reads (S.left source.old) (S.left source.new) result buffer.new }
    ensures at_most { IsAtMost most result }
    ensures later { S.faults source.old ≤ S.faults source.new }
    ensures cause { result ≡ ReadAnswer.Failed → Rose (S.faults source.old) (S.faults source.new) }
{
    source.read(&mut buffer[..most])
}

impl Following {
    // A mirror that has followed nothing.
    fn new(alloc: Global) -> Following
        ensures mirror { result.mirror ≡ empty }
        ensures line { result.line ≡ [] }
    {
        Following {
            alloc,
            mirror: Mirror::empty(),
            line: LineBuffer::new(alloc),
        }
    }

    // Answers the line that has come, and begins the next one.
    fn answer_line<O: Sink>(&mut self, sink: &mut O) -> Result<(), Stop>
        ensures ok { OnOk result ((start : Option (List ℕ)) (taken : List ℕ) → HasFollowed start (O.written sink.old) taken self.old
            → HasFollowed start (O.written sink.new) (taken ++ 10 ∷ []) self.new) }
        ensures err { IfErr result (λ stop. (start : Option (List ℕ)) (taken : List ℕ) → HasFollowed start (O.written sink.old) taken self.old
            → IsCut stop start (O.written sink.new) (whole_lines (taken ++ 10 ∷ [])) (spec.answers empty (whole_lines (taken ++ 10 ∷ [])))) }
        ensures later { O.faults sink.old ≤ O.faults sink.new }
        ensures cause { result ≡ Err Stop.WriteFault → Rose (O.faults sink.old) (O.faults sink.new) }
    {
        serve(self.alloc, &mut self.mirror, self.line.ended(), sink)?;
        self.line.clear();
        Ok(())
    }

    // Answers each line that the piece ends, and keeps what comes after the last of them.
    fn feed<O: Sink>(&mut self, piece: &[u8], sink: &mut O) -> Result<(), Stop>
        ensures ok { OnOk result ((start : Option (List ℕ)) (taken : List ℕ) → HasFollowed start (O.written sink.old) taken self.old
            → HasFollowed start (O.written sink.new) (taken ++ piece.now) self.new) }
        ensures err { IfErr result (λ stop. (start : Option (List ℕ)) (taken : List ℕ) → HasFollowed start (O.written sink.old) taken self.old
            → IsCut stop start (O.written sink.new) (whole_lines (taken ++ piece.now)) (spec.answers empty (whole_lines (taken ++ piece.now)))) }
        ensures later { O.faults sink.old ≤ O.faults sink.new }
        ensures cause { result ≡ Err Stop.WriteFault → Rose (O.faults sink.old) (O.faults sink.new) }
    {
        let mut rest = piece;
        while let Some((front, behind)) = split_line(rest) {
            self.line.extend(front)?;
            self.answer_line(sink)?;
            rest = behind;
        }
        self.line.extend(rest)?;
        Ok(())
    }

    // Answers a last line without LF, if it isn't empty.
    fn end_line<O: Sink>(&mut self, sink: &mut O) -> Result<(), Stop>
        ensures ok { OnOk result ((start : Option (List ℕ)) (taken : List ℕ) → HasFollowed start (O.written sink.old) taken self.old
            → HasAnswered start (O.written sink.new) taken self.new.mirror) }
        ensures err { IfErr result (λ stop. (start : Option (List ℕ)) (taken : List ℕ) → HasFollowed start (O.written sink.old) taken self.old
            → IsCut stop start (O.written sink.new) (lines taken) (spec.mirror_out taken)) }
        ensures later { O.faults sink.old ≤ O.faults sink.new }
        ensures cause { result ≡ Err Stop.WriteFault → Rose (O.faults sink.old) (O.faults sink.new) }
    {
        if self.line.bytes().is_empty() {
            return Ok(());
        }
        serve(self.alloc, &mut self.mirror, self.line.bytes(), sink)
    }

    // Writes the list of the documents.
    fn tell_documents<O: Sink>(&self, sink: &mut O) -> Result<(), Stop>
        ensures ok { OnOk result (Appends (O.written sink.old) (O.written sink.new) (spec.documents_line self.now.mirror.documents)) }
        ensures err { IfErr result (λ stop. IsBroken stop (O.written sink.old) (O.written sink.new) (spec.documents_line self.now.mirror.documents)) }
        ensures later { O.faults sink.old ≤ O.faults sink.new }
        ensures cause { result ≡ Err Stop.WriteFault → Rose (O.faults sink.old) (O.faults sink.new) }
    {
        let text = documents_line(self.alloc, self.mirror.documents())?;
        write_all(sink, text.as_slice())?;
        Ok(())
    }

    // The input has ended: answers a last line without LF, and writes the list of the documents.
    fn finish<O: Sink>(&mut self, sink: &mut O) -> Result<(), Stop>
        ensures ok { OnOk result ((start : Option (List ℕ)) (taken : List ℕ) → HasFollowed start (O.written sink.old) taken self.old
            → Appends start (O.written sink.new) (spec.mirror_out taken)) }
        ensures err { IfErr result (λ stop. (start : Option (List ℕ)) (taken : List ℕ) → HasFollowed start (O.written sink.old) taken self.old
            → IsCut stop start (O.written sink.new) (lines taken) (spec.mirror_out taken)) }
        ensures later { O.faults sink.old ≤ O.faults sink.new }
        ensures cause { result ≡ Err Stop.WriteFault → Rose (O.faults sink.old) (O.faults sink.new) }
    {
        self.end_line(sink)?;
        self.tell_documents(sink)
    }
}

// Reads and answers, turn by turn, up to the end of the input or the bound.
fn follow_all<S: Source, O: Sink>(
    following: &mut Following,
    buffer: &mut [u8],
    source: &mut S,
    sink: &mut O,
) -> Result<(), Stop>
    requires begun { HasFollowed (O.written sink.old) (O.written sink.old) [] following.old }
    requires room { PIECE ≤ length buffer.old }
    ensures ok { OnOk result (IsWhole (S.left source.old) (S.left source.new) (O.written sink.old) (O.written sink.new)) }
    ensures err { IfErr result (λ stop. IsStopped stop (S.left source.old) (S.left source.new) (O.written sink.old) (O.written sink.new)) }
    ensures read_fault { result ≡ Err Stop.ReadFault → Rose (S.faults source.old) (S.faults source.new) }
    ensures write_fault { result ≡ Err Stop.WriteFault → Rose (O.faults sink.old) (O.faults sink.new) }
    ensures read_later { S.faults source.old ≤ S.faults source.new }
    ensures write_later { O.faults sink.old ≤ O.faults sink.new }
{
    let mut taken = 0u64;
    while taken < BOUND {
        let most = PIECE.min((BOUND - taken) as usize);
        let count = match read_piece(source, buffer, most) {
            ReadAnswer::Read(count) => count,
            ReadAnswer::End => 0,
            ReadAnswer::Failed => return Err(Stop::ReadFault),
        };
        if count == 0 {
            return following.finish(sink);
        }
        following.feed(&buffer[..count as usize], sink)?;
        taken += count;
    }
    Err(Stop::Bound)
}

/// Follows a feed by the lines of a source, each of which is changes as text: answers each line before the next is read, and at the
/// end of the input writes the list of the documents.
///
/// A line ends with LF, and one CR before it is dropped; a last line without LF counts if it isn't empty. A line of over 1,073,741,824
/// bytes is answered `refused long`, and its rest is skipped. Want of memory ends the work at any line. A turn takes at least one byte,
/// and the work ends at 2^40 bytes.
pub fn follow<S: Source, O: Sink>(alloc: Global, source: &mut S, sink: &mut O) -> Result<(), Stop>
    ensures ok { OnOk result (IsWhole (S.left source.old) (S.left source.new) (O.written sink.old) (O.written sink.new)) }
    ensures err { IfErr result (λ stop. IsStopped stop (S.left source.old) (S.left source.new) (O.written sink.old) (O.written sink.new)) }

    // Where the source tells its bytes, this is said of all of them.
    ensures out { IfSome (S.left source.old) (λ bytes. OnOk result (Appends (O.written sink.old) (O.written sink.new) (spec.mirror_out bytes))) }
    ensures front { IfSome (S.left source.old) (λ bytes. OnErr result (AppendsSome (O.written sink.old) (O.written sink.new) (spec.mirror_out bytes))) }

    // A fault is told only where that end counted one in this call.
    ensures read_fault { result ≡ Err Stop.ReadFault → Rose (S.faults source.old) (S.faults source.new) }
    ensures write_fault { result ≡ Err Stop.WriteFault → Rose (O.faults sink.old) (O.faults sink.new) }
    ensures read_later { S.faults source.old ≤ S.faults source.new }
    ensures write_later { O.faults sink.old ≤ O.faults sink.new }
{
    let mut buffer = zeros(alloc, PIECE)?;
    let mut following = Following::new(alloc);
    follow_all(&mut following, buffer.as_mut_slice(), source, sink)
}
