//! What may be asked of each state that a session reaches, and of each that runs over one store come to.
ghost use Rattle.std.specs.Prelude.{◌≡◌, List, Option, Some, ℕ};
ghost use Rattle.cat_keeper.specs.Store.{Rows};
ghost use Rattle.cat_keeper.specs.declared.keeper.Place.{Place};
ghost use Rattle.cat_layers.specs.Layered.{layered};
ghost use Rattle.cat_io.specs.Runs.{after_lines};
ghost use Rattle.cat_io.specs.Word.{Word};
ghost use Rattle.cat_model.specs.Fresh.{IsFresh};
ghost use Rattle.cat_model.specs.Sound.{Quiet};
ghost use Rattle.cat_model.specs.Step.{reopened};
ghost use Rattle.cat_model.specs.declared.types.OrphanRule.{OrphanRule};
ghost use Rattle.cat_model.specs.declared.types.Settings.{Settings};
ghost use Rattle.cat_model.specs.declared.types.State.{State};
ghost use Rattle.cat_reopening_laws.specs.Reached.{AreLasting, IsLasting, connected, reached};
ghost use Rattle.cat_row_updates.specs.Right.{AreOfNone, AreRowsOf, MayOpen};
ghost use Rattle.cat_row_updates.specs.Told.{OpensAs};
ghost use Rattle.cat_connection.specs.Items.{Item};
ghost use Rattle.cat_connection.specs.Worded as wire;
ghost use Rattle.cat_connection.specs.declared.command.Status.{Status};
ghost use Rattle.cat_stored_session.specs.Stores.{HasKept, HasKeptWire};
ghost use Rattle.cat_stored_rows.specs.First.{first};
ghost use Rattle.cat_stored_rows.specs.Stored.{tables, texts_of};
ghost use Rattle.cat_session_model.specs.Program.{session_start};
ghost use Rattle.cat_session_model.specs.Session.{session_after};

use cat_form_laws::law::real_forms_are_kept;
use cat_laws::theorem::quiet_is_fresh;
use cat_session_model::law::sessions_stay_sound;

/// Every state that a session reaches may open: after any lines from the empty catalogue, and so after every prefix of the lines of an input, wherever
/// memory lacks. In the program the limit on its inputs is 64 MiB, under either rule for orphans; under other settings it is theirs.
pub fn reached_states_may_open()
    ensures program { (rule : OrphanRule) (lines : List (List ℕ)) (words : List Word) → MayOpen layered 67108864 (reached rule lines words) }
    ensures sessions { (settings : Settings) (lines : List (List ℕ)) (words : List Word) → MayOpen layered settings.input_limit (after_lines (session_after layered settings) session_start lines words).state }
{
    sessions_stay_sound();
    real_forms_are_kept();
}

/// Every state that runs over one store come to, one after the other, may open: sessions and connections, each over what the store opens as, wherever
/// memory lacked in them and whatever of them wasn't kept. The limit on the inputs is 64 MiB, under either rule for orphans.
pub fn lasting_states_may_open()
    ensures { (m : State) → IsLasting m → MayOpen layered 67108864 m }
{}

/// So a store that such runs wrote is never refused for a row, in either version. Whatever it opens as is what its state opens again as, and is lasting
/// itself, so that all of this holds of the store that the next run leaves.
pub fn lasting_stores_open()
    ensures opens { (rule : OrphanRule) (m : State) → IsLasting m → AreOfNone layered 67108864 (tables rule m) → ⊥ }
    ensures first_opens { (m : State) → IsLasting m → AreOfNone layered 67108864 (texts_of (first m)) → ⊥ }
    ensures next { (rule : OrphanRule) (m n : State) → IsLasting m → OpensAs layered (tables rule m) n → n ≡ reopened layered m }
    ensures first_next { (m n : State) → IsLasting m → OpensAs layered (texts_of (first m)) n → n ≡ reopened layered m }
    ensures lasts { (rule : OrphanRule) (m n : State) → IsLasting m → OpensAs layered (tables rule m) n → IsLasting n }
    ensures first_lasts { (m n : State) → IsLasting m → OpensAs layered (texts_of (first m)) n → IsLasting n }
{}

/// And so it is of the program's runs: what a session or a connection over a store leaves, where the store had the rows of a lasting state, are the rows
/// of a lasting state, if the keeper tells any.
pub fn runs_leave_lasting_stores()
    ensures session { (place : Place) (rule : Option OrphanRule) (rows : Rows) (status : Status) (left left' written written' : Option (List ℕ)) (after : Place → Option Rows) (faults : ℕ) (m : State)
        → IsLasting m → AreRowsOf m rows → HasKept place rule (Some rows) status left left' written written' after faults → AreLasting (after place) }
    ensures connection { (place : Place) (rule : Option OrphanRule) (rows : Rows) (status : Status) (left left' written written' : Option (List ℕ)) (after : Place → Option Rows) (faults : ℕ) (m : State)
        → IsLasting m → AreRowsOf m rows → HasKeptWire place rule (Some rows) status left left' written written' after faults → ∥ AreLasting (after place) ∥₁ }
{}

/// Wherever the catalogue is quiet in a state that such runs come to, and in one that a connection comes to over a catalogue that nothing keeps, its documents
/// are those computed afresh from its present inputs.
pub fn lasting_states_are_fresh()
    ensures lasting { (m : State) (now : ℕ) → IsLasting m → Quiet m now → IsFresh layered m }
    ensures connections { (rule : OrphanRule) (items : List Item) (words : List wire.Word) (now : ℕ) → Quiet (connected rule items words) now → IsFresh layered (connected rule items words) }
{
    quiet_is_fresh();
}
