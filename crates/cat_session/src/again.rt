//! A line that is carried out again, on a copy of what the catalogue held before it.
ghost use Rattle.std.specs.Prelude.{◌≡◌, true};
ghost use Rattle.std.specs.declared.result.Result.TheVariants.{Ok};
ghost use Rattle.cat_session_lines.specs.Lines.{line_of};
ghost use Rattle.cat_session_lines.specs.Ready.{IsReady};
ghost use Rattle.cat_session_lines.specs.declared.line.Line.{Line};
ghost use Rattle.cat_desk.specs.Spare.{IsSpare};
ghost use Rattle.cat_session.specs.Carried.{acts_on_state, after_whole, put_back};

use crate::Session;
use cat_core::catalogue::Saved;
use cat_plan::layers::Layers;
use cat_session_lines::line::Line;
use cat_session_lines::read::read_line;
use std::alloc::Global;

// How many bytes a line has at most that is carried out again. A new copy is cheaper than a longer one is.
const MOST_BYTES: usize = 65_536;

// Whether a line may change nothing of a session but what its catalogue holds.
fn acts_on_state(line: &Line) -> bool
    ensures { result ≡ acts_on_state line.now }
{
    match line {
        Line::Mutate(..)
        | Line::ShelfPut(..)
        | Line::ShelfDrop(_)
        | Line::Refresh(_)
        | Line::Forget(_)
        | Line::Finish(_)
        | Line::Place(_)
        | Line::Settle => true,
        Line::Clock(_) | Line::Take | Line::Stitch(_) | Line::Ask(_) => false,
    }
}

// Carries out a line, and says whether that was done to its end.
fn carried_whole<L: Layers>(session: &mut Session<L>, line: Line) -> bool
    requires ready { IsReady line }
    requires alone { acts_on_state line ≡ true }
    ensures whole { result ≡ true → session.new ≡ after_whole L.rules line session.old }
    ensures alone { put_back session.new session.old.session.state ≡ session.old }
{
    match session.carry_reaching(line) {
        Ok(outcome) => outcome.repeatable,
        Err(_) => false,
    }
}

// Carries out a line on a copy, which is exchanged with what the catalogue holds for as long, and says whether that was done to its end.
fn done_again<L: Layers>(session: &mut Session<L>, saved: &mut Saved<L>, line: Line) -> bool
    requires ready { IsReady line }
    requires alone { acts_on_state line ≡ true }
    ensures whole { result ≡ true → saved.new ≡ (after_whole L.rules line (put_back session.old saved.old)).session.state }
    ensures session { session.new ≡ session.old }
{
    session.exchange(saved);
    let whole = carried_whole(session, line);
    session.exchange(saved);
    whole
}

// A copy from before a line comes to what the catalogue holds after it. None where memory lacks.
fn repeated<L: Layers>(
    session: &mut Session<L>,
    mut saved: Saved<L>,
    line: Line,
) -> Option<Saved<L>>
    requires ready { IsReady line }
    requires alone { acts_on_state line ≡ true }
    requires whole { session.old.session.state ≡ (after_whole L.rules line (put_back session.old saved)).session.state }
    ensures session { session.new ≡ session.old }
    ensures spare { IsSpare result session.old.session.state }
{
    if !done_again(session, &mut saved, line) {
        drop(saved);
        return None;
    }
    session.shared(saved)
}

/// A copy of what the catalogue held before a line that was carried out to its end is brought to what it holds after it: the line is read and carried out
/// again, on the copy. None where the line has more than 65,536 bytes, for which a new copy is cheaper, where it may change more of the session than what the
/// catalogue holds, or where memory lacks.
pub fn brought_up<L: Layers>(
    alloc: Global,
    session: &mut Session<L>,
    saved: Saved<L>,
    line: &[u8],
) -> Option<Saved<L>>
    requires { (l : Line) → line_of line.now ≡ Ok l → acts_on_state l ≡ true
        → session.old.session.state ≡ (after_whole L.rules l (put_back session.old saved)).session.state }
    ensures session { session.new ≡ session.old }
    ensures spare { IsSpare result session.old.session.state }
{
    if line.len() <= MOST_BYTES
        && let Ok(again) = read_line(alloc, line)
        && acts_on_state(&again)
    {
        return repeated(session, saved, again);
    }
    drop(saved);
    None
}
