//! What holds of the program's sessions over an empty catalogue.
ghost use Rattle.std.specs.Prelude.{◌≡◌, ℕ, List, [], Ok};
ghost use Rattle.cat_session_lines.specs.Lines.{line_of};
ghost use Rattle.cat_session_lines.specs.declared.line.Line.TheVariants.{Settle};
ghost use Rattle.cat_in_memory.specs.Sessions.{reply_next, session_at, session_next};
ghost use Rattle.cat_io.specs.Word.{Word};
ghost use Rattle.cat_layers.specs.Layered.{layered};
ghost use Rattle.cat_model.specs.Fresh.{IsFresh, facts_of, fresh_docs};
ghost use Rattle.cat_model.specs.Sound.{Quiet};
ghost use Rattle.cat_model.specs.declared.types.Counts.{Counts};
ghost use Rattle.cat_model.specs.declared.types.OrphanRule.{OrphanRule};
ghost use Rattle.cat_model.specs.declared.types.OrphanRule.TheVariants.{Delete};
ghost use Rattle.cat_replies.specs.Events.{settled};
ghost use Rattle.cat_session_model.specs.Inputs.{accepted_commands, inputs_fold, inputs_of};
ghost use Rattle.cat_session_model.specs.Program.{program_settings, session_start};
ghost use Rattle.cat_session_model.specs.Quiet.{IsAtRest};

use cat_session_model::law::{
    deleting_sessions_have_no_orphans, inputs_are_those_of_accepted_commands, sessions_stay_sound,
    settled_sessions_are_at_rest,
};

/// Whatever its lines and whatever came of them: where the catalogue of a session is quiet its documents are those computed afresh, under the rule that
/// deletes it has no orphan, its inputs are those that the accepted commands made, and a settle that is answered `settled` leaves it at rest.
pub fn program_sessions_keep_their_laws()
    ensures fresh { (rule : OrphanRule) (lines : List (List ℕ)) (outcomes : List Word) (now : ℕ)
        → Quiet (session_at rule lines outcomes).state now → IsFresh layered (session_at rule lines outcomes).state }
    ensures no_orphan { (lines : List (List ℕ)) (outcomes : List Word) → (session_at Delete lines outcomes).state.orphans ≡ [] }
    ensures just_fresh { (lines : List (List ℕ)) (outcomes : List Word) (now : ℕ) → Quiet (session_at Delete lines outcomes).state now
        → (session_at Delete lines outcomes).state.documents ≡ fresh_docs layered (facts_of layered (session_at Delete lines outcomes).state) }
    ensures inputs { (rule : OrphanRule) (lines : List (List ℕ)) (outcomes : List Word)
        → inputs_of (session_at rule lines outcomes).state
        ≡ inputs_fold (accepted_commands layered (program_settings rule) session_start lines outcomes) (inputs_of session_start.state) }
    ensures settled { (rule : OrphanRule) (lines : List (List ℕ)) (outcomes : List Word) (outcome : Word) (line : List ℕ) (counts : Counts)
        → line_of line ≡ Ok Settle → reply_next rule lines outcomes outcome line ≡ settled counts
        → IsAtRest (session_next rule lines outcomes outcome line) }
{
    sessions_stay_sound();
    deleting_sessions_have_no_orphans();
    inputs_are_those_of_accepted_commands();
    settled_sessions_are_at_rest();
}
