//! What the rows of a state tell of it.
ghost use Rattle.std.specs.Prelude.{◌≡◌, ℕ, true};
ghost use Rattle.cat_keeper.specs.Store.{Rows};
ghost use Rattle.cat_model.specs.Catalogue.{Rules};
ghost use Rattle.cat_model.specs.Formed.{FormRules, Formed};
ghost use Rattle.cat_model.specs.Sound.{Sound};
ghost use Rattle.cat_model.specs.Step.{reopened, start};
ghost use Rattle.cat_model.specs.declared.types.OrphanRule.{OrphanRule};
ghost use Rattle.cat_model.specs.declared.types.State.{State};
ghost use Rattle.cat_row_reader.specs.Forms.{has_forms};
ghost use Rattle.cat_row_reader.specs.Start.{IsAtStart};
ghost use Rattle.cat_stored_rows.specs.Opened.{IsRead};
ghost use Rattle.cat_stored_rows.specs.First.{first};
ghost use Rattle.cat_stored_rows.specs.Stored.{stored, tables, texts_of};
ghost use Rattle.cat_tree.specs.Data.{Data};
ghost use Rattle.cat_tree.specs.Proper.{IsNarrow};
ghost use Rattle.cat_tree.specs.Text.{text_of};
ghost use Rattle.cat_stored_rows.specs.Told.{AreFirstNarrow, AreNarrow, IsTold};
ghost use Rattle.cat_row_updates.specs.Right.{AreReadTo, AreRowsOf, MayOpen, rested};
ghost use Rattle.cat_row_updates.specs.Told.{AreDue, HaveSameFirstTexts, HaveSameTexts, IsPlaced, IsReopened, OpensAs};

/// The compact text of a tree whose numbers have 64 bits is that of no other such tree.
pub fn texts_tell_trees()
    ensures { (d e : Data) → IsNarrow d → IsNarrow e → text_of d ≡ text_of e → d ≡ e }
{}

/// Where the rows of two states have the same texts, both stand under one rule for orphans and open again as one state. States that are at their
/// start, with every record due and free, are one themselves.
pub fn rows_tell_the_state()
    ensures rule { (rule other : OrphanRule) (m n : State) → IsTold m → IsTold n → IsPlaced m → HaveSameTexts rule m other n → rule ≡ other }
    ensures state { (rules : Rules) (rule other : OrphanRule) (m n : State) → IsTold m → IsTold n → IsPlaced m → HaveSameTexts rule m other n → reopened rules m ≡ reopened rules n }
    ensures start { (rule other : OrphanRule) (m n : State) → IsTold m → IsTold n → IsPlaced m → AreDue m → AreDue n → IsAtStart m → IsAtStart n → HaveSameTexts rule m other n → m ≡ n }
{}

/// Where the rows of two states in the first version have the same texts, both open again as one state. States that are at their start, with every
/// record due and free, are one themselves.
pub fn first_rows_tell_the_state()
    ensures state { (rules : Rules) (m n : State) → IsTold m → IsTold n → IsPlaced m → AreFirstNarrow n → HaveSameFirstTexts m n → reopened rules m ≡ reopened rules n }
    ensures start { (m n : State) → IsTold m → IsTold n → IsPlaced m → AreFirstNarrow n → AreDue m → AreDue n → IsAtStart m → IsAtStart n → HaveSameFirstTexts m n → m ≡ n }
{}

/// The state that a state opens again as has the same rows in both versions, and opens again as itself. So whatever a store opens as, if it opens again
/// as itself and its rows are those of the store, it is what the store's state opens again as, whichever version the store is of.
pub fn stores_reopen()
    ensures rows { (rules : Rules) (rule : OrphanRule) (m : State) → IsTold m → stored rule (reopened rules m) ≡ stored rule m }
    ensures first_rows { (rules : Rules) (m : State) → IsTold m → first (reopened rules m) ≡ first m }
    ensures told { (rules : Rules) (m : State) → IsTold m → IsTold (reopened rules m) }
    ensures opened { (rules : Rules) (m : State) → IsTold m → IsPlaced m → IsReopened rules (reopened rules m) }
    ensures opens { (rules : Rules) (rule other : OrphanRule) (m n : State) → IsTold m → IsTold n → IsPlaced m → IsReopened rules n → HaveSameTexts rule m other n → n ≡ reopened rules m }
    ensures read { (rules : Rules) (rule : OrphanRule) (m n : State) → IsTold m → IsTold n → IsPlaced m → IsReopened rules n → IsRead (tables rule m) n → n ≡ reopened rules m }
    ensures read_first { (rules : Rules) (m n : State) → IsTold m → IsTold n → IsPlaced m → AreFirstNarrow n → IsReopened rules n → IsRead (texts_of (first m)) n → n ≡ reopened rules m }
{}

/// What is promised of a state that a store opens as (`cat_store::open`: `opening`, `read`) makes it what the store's state opens again
/// as, in either version.
pub fn what_is_read_opens()
    ensures { (rules : Rules) (rows : Rows) (n : State) → IsTold n → AreFirstNarrow n → IsReopened rules n → IsRead rows n → OpensAs rules rows n }
{}

/// Rows tell an empty catalogue, and each sound state whose parts have their forms and whose numbers have 64 bits. Where they do, and each row has a
/// place of its own, the numbers of its rows in the first version have 64 bits too.
pub fn sound_states_are_told()
    ensures begins { IsTold start × IsPlaced start }
    ensures sound { (rules : Rules) (form : FormRules rules) (m : State) → Sound rules m → Formed form m → AreNarrow m → IsTold m }
    ensures first { (m : State) → IsTold m → IsPlaced m → AreFirstNarrow m }
{}

/// The rows of a state that opens, in either version, are read to the state as it is stored, in which all has the form that is tested before it opens.
pub fn right_stores_are_read()
    ensures read { (rules : Rules) (limit : ℕ) (m : State) (texts : Rows) → MayOpen rules limit m → AreRowsOf m texts → AreReadTo texts m }
    ensures formed { (rules : Rules) (limit : ℕ) (m : State) → MayOpen rules limit m → has_forms (rested m) ≡ true }
{}
