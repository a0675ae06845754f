//! What mending gives.

ghost use Rattle.std.specs.Prelude.{◌≡◌, ◌<◌, ◌⊎◌, ℕ, List, None, Option, Some, T, false, true};
ghost use Rattle.std.specs.FinMap.Entries.{is_sorted};
ghost use Rattle.std.specs.Ordering.{nat_cmp};
ghost use Rattle.cat_model.specs.Catalogue.{Holders, Ref, Rows, Rules, held, may_offer, output_of, rehold, row_at, standing};
ghost use Rattle.cat_model.specs.Sound.{AreHolders, Sound};
ghost use Rattle.cat_model.specs.Rows.{same_origin};
ghost use Rattle.cat_model.specs.Step.{items_after, replaced, source_at};
ghost use Rattle.cat_model.specs.declared.types.Given.{Given};
ghost use Rattle.cat_model.specs.declared.types.Origin.{Origin};
ghost use Rattle.cat_model.specs.declared.types.Origin.TheVariants.{Entity, Provider};
ghost use Rattle.cat_model.specs.declared.types.Row.{Row};
ghost use Rattle.cat_model.specs.declared.types.State.{State};
ghost use Rattle.cat_collections.specs.Table.{Text, get, keys, same_text};
ghost use Rattle.std.specs.List.{list_any};
ghost use Rattle.cat_types.specs.declared.input.Offered.{Offered};
ghost use Rattle.cat_types.specs.declared.work.Output.{Output};
ghost use Rattle.cat_model.specs.Mend.{AreOpen, IsReady, IsReplaced, cut_off, gone, left_by, mended};

/// Where the holders were right before the rows of an origin were replaced, mending what that cuts off gives the holders
/// that the rules of holding give, what is not cut off is held as before, and dropping the rows of what is gone gives the rows that then stand.
pub fn mending_is_holding()
    ensures holders { (o : Origin) (before rows : Rows) (next : ℕ) (holders : Holders) → AreHolders before holders → IsReplaced o before next rows → T (is_sorted nat_cmp rows) → rehold rows holders ≡ mended o before next rows holders }
    ensures others { (o : Origin) (before rows : Rows) (next : ℕ) (holders : Holders) → AreHolders before holders → IsReplaced o before next rows → (r : Ref) → held holders r ≡ true → list_any (same_text r) (cut_off o before rows holders) ≡ false → get (rehold rows holders) r ≡ get holders r }
    ensures rows { (o : Origin) (before rows : Rows) (next : ℕ) (holders : Holders) → AreHolders before holders → IsReplaced o before next rows → AreOpen rows holders → standing rows (rehold rows holders) ≡ left_by (gone (cut_off o before rows holders) (rehold rows holders)) rows }
{}

/// The rows of one origin are replaced in a state that is ready for it, as each sound state is: what mending asks of the
/// rows before and after holds.
pub fn replacing_is_such_a_change()
    ensures sound { (rules : Rules) (m : State) → Sound rules m → IsReady m }
    ensures rows { (o : Origin) (offers : Ref → Option Offered) (order : List Ref) (m : State) → IsReady m → IsReplaced o m.rows m.arrival (replaced o offers order m).rows }
    ensures order { (o : Origin) (offers : Ref → Option Offered) (order : List Ref) (m : State) → IsReady m → T (is_sorted nat_cmp (replaced o offers order m).rows) }
    ensures opens { (o : Origin) (offers : Ref → Option Offered) (order : List Ref) (m : State) → IsReady m → ((r : Ref) (x : Offered) → offers r ≡ Some x → may_offer m.holders o ≡ true) → AreOpen (replaced o offers order m).rows m.holders }
    ensures holders { (o : Origin) (offers : Ref → Option Offered) (order : List Ref) (m : State) → IsReady m → rehold (replaced o offers order m).rows m.holders ≡ mended o m.rows m.arrival (replaced o offers order m).rows m.holders }
{}
