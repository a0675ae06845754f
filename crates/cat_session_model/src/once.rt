//! Repeated lines.
ghost use Rattle.std.specs.Prelude.{◌≡◌, ℕ, List, ◌≤◌, ◌++◌, ◌∷◌, length, IsNone, Ok};
ghost use Rattle.cat_session_lines.specs.Lines.{line_of};
ghost use Rattle.cat_session_lines.specs.declared.line.Line.TheVariants as asks;
ghost use Rattle.cat_io.specs.Runs.{after_lines};
ghost use Rattle.cat_io.specs.Word.{Word, plain};
ghost use Rattle.cat_model.specs.Catalogue.{Rules};
ghost use Rattle.cat_model.specs.Given.{given};
ghost use Rattle.cat_model.specs.Step.{last_serial, refusal};
ghost use Rattle.cat_model.specs.Step.Event.{Mutate};
ghost use Rattle.cat_model.specs.declared.types.Settings.{Settings};
ghost use Rattle.cat_session_model.specs.Session.{session_after};
ghost use Rattle.cat_session_model.specs.declared.state.SessionState.{SessionState};
ghost use Rattle.cat_collections.specs.Table.{Text};
ghost use Rattle.cat_types.specs.declared.input.Mutation.{Mutation};

/// A line whose serial isn't above its provider's last one changes nothing, last serials never fall whatever lines come, and so
/// a line that wasn't refused can come again at any later place, with no effect: each of its repeats can be left out.
pub fn repeated_lines_act_once()
    ensures old { (rules : Rules) (settings : Settings) (m : SessionState) (line : List ℕ) (provider : Text) (mutation : Mutation)
        → line_of line ≡ Ok (asks.Mutate provider mutation) → (given provider mutation).serial ≤ last_serial m.state provider
        → session_after rules settings m plain line ≡ m }
    ensures later { (rules : Rules) (settings : Settings) (m : SessionState) (lines : List (List ℕ)) (words : List Word) (provider : Text)
        → last_serial m.state provider ≤ last_serial (after_lines (session_after rules settings) m lines words).state provider }
    ensures once { (rules : Rules) (settings : Settings) (m : SessionState) (line : List ℕ) (provider : Text) (mutation : Mutation)
        (first second : List (List ℕ)) (words rest : List Word)
        → line_of line ≡ Ok (asks.Mutate provider mutation) → IsNone (refusal rules settings (Mutate provider (given provider mutation)) m.state)
        → length words ≡ length first
        → after_lines (session_after rules settings) (session_after rules settings m plain line) (first ++ line ∷ second) (words ++ plain ∷ rest)
        ≡ after_lines (session_after rules settings) (session_after rules settings m plain line) (first ++ second) (words ++ rest) }
{}
