//! What holds after any lines, and what a reply tells.
ghost use Rattle.std.specs.Prelude.{◌≡◌, ◌≤◌, List, [], Ok, ℕ};
ghost use Rattle.cat_session_lines.specs.Lines.{line_of};
ghost use Rattle.cat_session_lines.specs.declared.line.Line.TheVariants.{Settle};
ghost use Rattle.cat_io.specs.Runs.{after_lines, line_after, line_reply};
ghost use Rattle.cat_io.specs.Word.{Word};
ghost use Rattle.cat_model.specs.Catalogue.{Rules};
ghost use Rattle.cat_model.specs.Fresh.{IsFresh, facts_of, fresh_docs};
ghost use Rattle.cat_model.specs.Sound.{Quiet, Sound};
ghost use Rattle.cat_model.specs.declared.types.Counts.{Counts};
ghost use Rattle.cat_model.specs.declared.types.OrphanRule.TheVariants.{Delete};
ghost use Rattle.cat_model.specs.declared.types.Settings.{Settings};
ghost use Rattle.cat_replies.specs.Events.{cut_by_memory, no_memory, settled};
ghost use Rattle.cat_session_model.specs.Inputs.{accepted_commands, inputs_fold, inputs_of};
ghost use Rattle.cat_session_model.specs.Program.{session_start};
ghost use Rattle.cat_session_model.specs.Quiet.{IsAtRest};
ghost use Rattle.cat_session_model.specs.Session.{session_after, session_reply};
ghost use Rattle.cat_session_model.specs.Words.{IsCounted, MayBeCut};
ghost use Rattle.cat_session_model.specs.declared.state.SessionState.{SessionState};

/// After any lines, and so after every prefix of the lines of an input, what has to hold between two events holds of the
/// catalogue, and where it is quiet its documents are those computed afresh.
pub fn sessions_stay_sound()
    ensures sound { (rules : Rules) (settings : Settings) (lines : List (List ℕ)) (words : List Word) → Sound rules (after_lines (session_after rules settings) session_start lines words).state }
    ensures fresh { (rules : Rules) (settings : Settings) (lines : List (List ℕ)) (words : List Word) (now : ℕ)
        → Quiet (after_lines (session_after rules settings) session_start lines words).state now
        → IsFresh rules (after_lines (session_after rules settings) session_start lines words).state }
{}

/// Under the rule that deletes what leaves, no session has an orphan after any lines, and where its catalogue is quiet its documents
/// are just those computed afresh.
pub fn deleting_sessions_have_no_orphans()
    ensures none { (rules : Rules) (settings : Settings) (lines : List (List ℕ)) (words : List Word)
        → settings.orphans ≡ Delete → (after_lines (session_after rules settings) session_start lines words).state.orphans ≡ [] }
    ensures fresh { (rules : Rules) (settings : Settings) (lines : List (List ℕ)) (words : List Word) (now : ℕ)
        → settings.orphans ≡ Delete → Quiet (after_lines (session_after rules settings) session_start lines words).state now
        → (after_lines (session_after rules settings) session_start lines words).state.documents
        ≡ fresh_docs rules (facts_of rules (after_lines (session_after rules settings) session_start lines words).state) }
{}

/// After any lines the serials and items of providers, and the shelf, are those at the start as the accepted commands change
/// them, one after the other. A line that is refused, or lacks memory, isn't accepted.
pub fn inputs_are_those_of_accepted_commands()
    ensures inputs { (rules : Rules) (settings : Settings) (m : SessionState) (lines : List (List ℕ)) (words : List Word)
        → inputs_of (after_lines (session_after rules settings) m lines words).state
        ≡ inputs_fold (accepted_commands rules settings m lines words) (inputs_of m.state) }
{}

/// A line `settle` that is answered `settled` leaves the session at rest, nothing due and nothing marked at its moment,
/// whatever its word: so it does after any lines.
pub fn settled_sessions_are_at_rest()
    ensures sound { (rules : Rules) (settings : Settings) (m : SessionState) (word : Word) (line : List ℕ) (counts : Counts)
        → 1 ≤ settings.interval → Sound rules m.state → line_of line ≡ Ok Settle
        → line_reply (session_reply rules settings) m word line ≡ settled counts
        → IsAtRest (line_after (session_after rules settings) m word line) }
    ensures sessions { (rules : Rules) (settings : Settings) (m : SessionState) (lines : List (List ℕ)) (words : List Word) (word : Word) (line : List ℕ) (counts : Counts)
        → 1 ≤ settings.interval → m ≡ after_lines (session_after rules settings) session_start lines words → line_of line ≡ Ok Settle
        → line_reply (session_reply rules settings) m word line ≡ settled counts
        → IsAtRest (line_after (session_after rules settings) m word line) }
{}

/// What came of a line can be read off its reply: two words with one reply lead to one state, where the events of a cut settle
/// are counted in 64 bits; a line that is answered `no memory` changes nothing; and of the commands only a settle is answered as
/// one that is cut for want of memory.
pub fn words_are_read_off_replies()
    ensures same { (rules : Rules) (settings : Settings) (m : SessionState) (first second : Word) (line : List ℕ)
        → IsCounted first → IsCounted second
        → line_reply (session_reply rules settings) m first line ≡ line_reply (session_reply rules settings) m second line
        → line_after (session_after rules settings) m first line ≡ line_after (session_after rules settings) m second line }
    ensures memory { (rules : Rules) (settings : Settings) (m : SessionState) (word : Word) (line : List ℕ)
        → line_reply (session_reply rules settings) m word line ≡ no_memory
        → line_after (session_after rules settings) m word line ≡ m }
    ensures cut { (rules : Rules) (settings : Settings) (m : SessionState) (word : Word) (line : List ℕ) (events : ℕ)
        → line_reply (session_reply rules settings) m word line ≡ cut_by_memory events → MayBeCut (line_of line) }
{}
