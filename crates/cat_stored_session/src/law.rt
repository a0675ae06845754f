//! What holds after any lines of a session that is kept.
ghost use Rattle.std.specs.Prelude.{List, ℕ};
ghost use Rattle.cat_stored_session.specs.Kept.{kept_after};
ghost use Rattle.cat_stored_session.specs.declared.state.KeptState.{KeptState};
ghost use Rattle.cat_io.specs.Runs.{after_lines};
ghost use Rattle.cat_io.specs.Word.{Word};
ghost use Rattle.cat_model.specs.Catalogue.{Rules};
ghost use Rattle.cat_model.specs.Fresh.{IsFresh};
ghost use Rattle.cat_model.specs.Sound.{Quiet, Sound};

/// Whatever its lines and whatever wasn't kept of them: where a session began in a state of which all holds that must hold between two
/// events, it holds after any lines, and where the catalogue is quiet its documents are those computed afresh from its present inputs.
pub fn kept_sessions_stay_sound()
    ensures sound { (rules : Rules) (m : KeptState) (lines : List (List ℕ)) (words : List Word)
        → Sound rules m.ruled.session.state → Sound rules (after_lines (kept_after rules) m lines words).ruled.session.state }
    ensures fresh { (rules : Rules) (m : KeptState) (lines : List (List ℕ)) (words : List Word) (now : ℕ)
        → Sound rules m.ruled.session.state → Quiet (after_lines (kept_after rules) m lines words).ruled.session.state now
        → IsFresh rules (after_lines (kept_after rules) m lines words).ruled.session.state }
{}
