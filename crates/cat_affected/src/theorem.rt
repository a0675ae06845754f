//! What each event reaches.

ghost use Rattle.std.specs.Prelude.{◌≡◌, ℕ, None, Some, [], false};
ghost use Rattle.cat_collections.specs.Table.{Text};
ghost use Rattle.cat_model.specs.Catalogue.{Ref, Rules};
ghost use Rattle.cat_model.specs.Sound.{Sound};
ghost use Rattle.cat_model.specs.Step.{Event, ref_at, step};
ghost use Rattle.cat_model.specs.Step.Event.{Mutate, ShelfPut, ShelfDrop, Refresh, Forget, ForgetNumber, Take, TakeAt, Finish, PutStitch};
ghost use Rattle.cat_model.specs.declared.types.Given.{Given};
ghost use Rattle.cat_model.specs.declared.types.Order.{Order};
ghost use Rattle.cat_model.specs.declared.types.Settings.{Settings};
ghost use Rattle.cat_model.specs.declared.types.State.{State};
ghost use Rattle.cat_model.specs.declared.types.StitchOrder.{StitchOrder};
ghost use Rattle.cat_affected.specs.Reach.{AreSameBeyond, AreSameInputs, AreSameProvidersBut, AreSameTextsBut, gives_input, given_refs, own_refs, reached};

/// A mutation reaches from the references that it names or takes away; a finish and a forget reach from their own reference and from
/// those of the rows that it gave and then gives; an event of the shelf, a refresh, a take and a stitch reach nothing. All beyond is as
/// before, whether the event acts, is late or is refused. Of the inputs an event changes only what it gives.
pub fn events_reach_little()
    ensures mutate { (rules : Rules) (settings : Settings) (m : State) (p : Text) (x : Given) → Sound rules m → (let n = step rules settings (Mutate p x) m in AreSameBeyond (reached (given_refs p x m) m n) m n) }
    ensures finish { (rules : Rules) (settings : Settings) (m : State) (order : Order) (now : ℕ) → Sound rules m → (let n = step rules settings (Finish order now) m in AreSameBeyond (reached (own_refs order.reference m n) m n) m n) }
    ensures forget { (rules : Rules) (settings : Settings) (m : State) (r : Ref) → Sound rules m → (let n = step rules settings (Forget r) m in AreSameBeyond (reached (own_refs r m n) m n) m n) }
    ensures forget_number { (rules : Rules) (settings : Settings) (m : State) (number : ℕ) (r : Ref) → Sound rules m → ref_at m number ≡ Some r → (let n = step rules settings (ForgetNumber number) m in AreSameBeyond (reached (own_refs r m n) m n) m n) }
    ensures no_number { (rules : Rules) (settings : Settings) (m : State) (number : ℕ) → ref_at m number ≡ None → step rules settings (ForgetNumber number) m ≡ m }
    ensures shelf_put { (rules : Rules) (settings : Settings) (m : State) (name text : Text) → Sound rules m → AreSameBeyond [] m (step rules settings (ShelfPut name text) m) }
    ensures shelf_drop { (rules : Rules) (settings : Settings) (m : State) (name : Text) → Sound rules m → AreSameBeyond [] m (step rules settings (ShelfDrop name) m) }
    ensures refresh { (rules : Rules) (settings : Settings) (m : State) (r : Ref) → AreSameBeyond [] m (step rules settings (Refresh r) m) }
    ensures take { (rules : Rules) (settings : Settings) (m : State) (now : ℕ) → AreSameBeyond [] m (step rules settings (Take now) m) }
    ensures take_at { (rules : Rules) (settings : Settings) (m : State) (r : Ref) (now : ℕ) → AreSameBeyond [] m (step rules settings (TakeAt r now) m) }
    ensures put_stitch { (rules : Rules) (settings : Settings) (m : State) (order : StitchOrder) → AreSameBeyond [] m (step rules settings (PutStitch order) m) }
    ensures mutated_inputs { (rules : Rules) (settings : Settings) (m : State) (p : Text) (x : Given) → AreSameProvidersBut p m (step rules settings (Mutate p x) m) }
    ensures put_inputs { (rules : Rules) (settings : Settings) (m : State) (name text : Text) → AreSameTextsBut name m (step rules settings (ShelfPut name text) m) }
    ensures dropped_inputs { (rules : Rules) (settings : Settings) (m : State) (name : Text) → AreSameTextsBut name m (step rules settings (ShelfDrop name) m) }
    ensures other_inputs { (rules : Rules) (settings : Settings) (m : State) (e : Event) → gives_input e ≡ false → AreSameInputs m (step rules settings e m) }
{}
