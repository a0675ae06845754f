//! The laws of every run of the abstract catalogue.

ghost use Rattle.std.specs.Prelude.{◌≡◌, ◌<◌, true, false, ℕ, List, Option, None, Some, is_some, ◌++◌, ◌∷◌, [], ◌^◌, length, IsNone, ◌*◌, ◌≤◌};
ghost use Rattle.cat_model.specs.Catalogue.{Holders, Rows, Rules, claim, rehold, Ref, parts, row_at, work};
ghost use Rattle.cat_model.specs.declared.types.Row.{Row};
ghost use Rattle.cat_types.specs.declared.parts.Parts.{Parts};
ghost use Rattle.cat_types.specs.declared.work.Work.{Work};
ghost use Rattle.cat_model.specs.declared.types.State.{State};
ghost use Rattle.cat_model.specs.declared.types.Record.{Record};
ghost use Rattle.cat_model.specs.Fresh.{IsFresh, facts_of, fresh_docs};
ghost use Rattle.cat_model.specs.declared.types.Fault.{Fault};
ghost use Rattle.cat_model.specs.declared.types.Progress.{Progress};
ghost use Rattle.cat_model.specs.declared.types.Stop.TheVariants.{Refused};
ghost use Rattle.cat_model.specs.Reply.{StitchesNoLater, TakesNoLater, is_quiet, next_mark, next_stitch, taken};
ghost use Rattle.cat_model.specs.Settle.{HasEvents, IsRefusedBy, IsSettle, SettleMore, StaySettled, is_ended, not_begun, try_round, try_rounds, try_settle, width};
ghost use Rattle.cat_model.specs.Sound.{AreBegun, AreNamed, AreOrdered, AreSmall, MakesNoOrphan, Quiet, Sound, rooted_holders};
ghost use Rattle.cat_collections.specs.Table.{Text, get, keys};
ghost use Rattle.cat_model.specs.declared.types.Given.{Given};
ghost use Rattle.cat_model.specs.Formed.{AreFormedEvents, FormRules, Formed, IsPartsOf, IsWorkOf};
ghost use Rattle.cat_model.specs.Step.{Event, last_serial, may_take, next_taken, refusal, reopened, run, start, step};
ghost use Rattle.cat_model.specs.Step.Event.{Mutate};
ghost use Rattle.cat_model.specs.declared.types.OrphanRule.TheVariants.{Delete};
ghost use Rattle.cat_model.specs.declared.types.Settings.{Settings};

/// What has to hold between two events holds of an empty catalogue, of each state after events and of each that was opened
/// again; so it holds at every moment that can be reached, whatever leases lapse and whatever results come late or twice.
pub fn sound_is_kept()
    ensures begins { (rules : Rules) → Sound rules start }
    ensures keeps { (rules : Rules) (settings : Settings) (m : State) (events : List Event) → Sound rules m → Sound rules (run rules settings events m) }
    ensures reopens { (rules : Rules) (m : State) → Sound rules m → Sound rules (reopened rules m) }
    ensures settles { (rules : Rules) (settings : Settings) (m : State) (now : ℕ) (limit : Option ℕ) → Sound rules m → Sound rules (try_settle rules settings now limit m).state }
{}

/// Whenever a sound catalogue is quiet, its documents of entities that are no orphans are those computed afresh from its
/// inputs, those of orphans are of their parts, and its claims leave nothing out.
pub fn quiet_is_fresh()
    ensures { (rules : Rules) (m : State) (now : ℕ) → Sound rules m → Quiet m now → IsFresh rules m }
{}

/// Under the rule that deletes what leaves, no event makes an orphan: each orphan after events was one before them. So a catalogue
/// without orphans stays without, and whenever it is quiet its documents are just those computed afresh.
pub fn deleting_makes_no_orphan()
    ensures step { (rules : Rules) (settings : Settings) (m : State) (event : Event) → settings.orphans ≡ Delete → MakesNoOrphan m (step rules settings event m) }
    ensures later { (rules : Rules) (settings : Settings) (m : State) (events : List Event) → settings.orphans ≡ Delete → MakesNoOrphan m (run rules settings events m) }
    ensures settles { (rules : Rules) (settings : Settings) (m : State) (now : ℕ) (limit : Option ℕ) → settings.orphans ≡ Delete → MakesNoOrphan m (try_settle rules settings now limit m).state }
    ensures none { (rules : Rules) (settings : Settings) (m : State) (events : List Event) → settings.orphans ≡ Delete → m.orphans ≡ [] → (run rules settings events m).orphans ≡ [] }
    ensures quiet { (rules : Rules) (m : State) (now : ℕ) → Sound rules m → AreOrdered m → m.orphans ≡ [] → Quiet m now → m.documents ≡ fresh_docs rules (facts_of rules m) }
    ensures reached { (rules : Rules) (settings : Settings) (events : List Event) (now : ℕ) → settings.orphans ≡ Delete → Quiet (run rules settings events start) now → (run rules settings events start).documents ≡ fresh_docs rules (facts_of rules (run rules settings events start)) }
{}

/// Each counter is at least 1 and at most 2^59 at every moment, so that each number drawn is at least 1 and below 2^59.
pub fn counters_are_bounded()
    ensures begins { AreBegun start × AreSmall start }
    ensures begun { (rules : Rules) (settings : Settings) (m : State) (events : List Event) → AreBegun m → AreBegun (run rules settings events m) }
    ensures small { (rules : Rules) (settings : Settings) (m : State) (events : List Event) → AreSmall m → AreSmall (run rules settings events m) }
    ensures settles { (rules : Rules) (settings : Settings) (m : State) (now : ℕ) (limit : Option ℕ) → AreBegun m → AreSmall m → AreBegun (try_settle rules settings now limit m).state × AreSmall (try_settle rules settings now limit m).state }
    ensures reopens { (rules : Rules) (m : State) → AreBegun m → AreSmall m → AreBegun (reopened rules m) × AreSmall (reopened rules m) }
{}

/// A mutation whose serial isn't above its provider's last one changes nothing, so that one which acted can come again at any
/// later place, any number of times.
pub fn repeats_change_nothing()
    ensures old { (rules : Rules) (settings : Settings) (m : State) (p : Text) (x : Given) → x.serial ≤ last_serial m p → step rules settings (Mutate p x) m ≡ m }
    ensures later { (rules : Rules) (settings : Settings) (m : State) (events : List Event) (p : Text) → last_serial m p ≤ last_serial (run rules settings events m) p }
    ensures repeats { (rules : Rules) (settings : Settings) (m : State) (p : Text) (x : Given) (first second : List Event) → IsNone (refusal rules settings (Mutate p x) m) → run rules settings (first ++ Mutate p x ∷ second) (step rules settings (Mutate p x) m) ≡ run rules settings (first ++ second) (step rules settings (Mutate p x) m) }
{}

/// Each tree, name and serial that is kept has its form, where what the events give has it.
pub fn forms_are_kept()
    ensures begins { (rules : Rules) (form : FormRules rules) → Formed form start }
    ensures keeps { (rules : Rules) (form : FormRules rules) (settings : Settings) (m : State) (events : List Event) → Sound rules m → Formed form m → AreFormedEvents form events → Formed form (run rules settings events m) }
    ensures settles { (rules : Rules) (form : FormRules rules) (settings : Settings) (m : State) (now : ℕ) (limit : Option ℕ) → Sound rules m → Formed form m → Formed form (try_settle rules settings now limit m).state }
    ensures reopens { (rules : Rules) (form : FormRules rules) (m : State) → Formed form m → Formed form (reopened rules m) }
    ensures rows { (rules : Rules) (form : FormRules rules) (m : State) (a : ℕ) (row : Row) → Sound rules m → Formed form m → row_at m.rows a ≡ Some row → form.is_item row.offered row.reference ≡ true }
    ensures works { (rules : Rules) (form : FormRules rules) (m : State) (r : Ref) (w : Work) → Sound rules m → Formed form m → work rules m r ≡ Some w → IsWorkOf form m r w }
    ensures parts { (rules : Rules) (form : FormRules rules) (m : State) (r : Ref) (p : Parts) → Sound rules m → AreSmall m → Formed form m → parts rules m r ≡ Some p → IsPartsOf form r p }
{}

/// A settle runs rounds until for the first time none is due or it is stopped, which comes within the width of its state;
/// and one that isn't stopped leaves the catalogue quiet.
pub fn settles()
    ensures meets { (rules : Rules) (settings : Settings) (m : State) (now : ℕ) (limit : Option ℕ) → 1 ≤ settings.interval → Sound rules m → IsSettle rules settings now limit m (try_settle rules settings now limit m) }
    ensures quiet { (rules : Rules) (settings : Settings) (m : State) (now : ℕ) (limit : Option ℕ) → 1 ≤ settings.interval → Sound rules m → IsNone (try_settle rules settings now limit m).stop → Quiet (try_settle rules settings now limit m).state now }
    ensures within { (rules : Rules) (settings : Settings) (m : State) (now rounds : ℕ) (limit : Option ℕ) → 1 ≤ settings.interval → Sound rules m → is_ended now (try_rounds rules settings now limit rounds (not_begun m)) ≡ false → rounds < width rules m }
{}

/// A settle that is cut has exactly the first of the settle's events, and the fault that cuts it is the next event's.
pub fn cut_settles_stand()
    ensures events { (rules : Rules) (settings : Settings) (m : State) (now : ℕ) → HasEvents rules settings now m }
    ensures refused { (rules : Rules) (settings : Settings) (m : State) (now : ℕ) (limit : Option ℕ) (fault : Fault) → (try_settle rules settings now limit m).stop ≡ Some (Refused fault) → IsRefusedBy rules settings now (try_settle rules settings now limit m).state fault }
{}

/// Each round of a settle settles one more record at least, no settled record is changed again, and so there are few rounds
/// and few leases, also where it is cut.
pub fn settles_are_short()
    ensures more { (rules : Rules) (settings : Settings) (p : Progress) (now : ℕ) (limit : Option ℕ) → 1 ≤ settings.interval → Sound rules p.state → is_ended now p ≡ false → IsNone (try_round rules settings now limit p).stop → SettleMore now p.state (try_round rules settings now limit p).state }
    ensures unchanged { (rules : Rules) (settings : Settings) (m : State) (now first second : ℕ) → 1 ≤ settings.interval → Sound rules m → first ≤ second → second < 2 ^ 64 → StaySettled now (try_settle rules settings now (Some first) m).state (try_settle rules settings now (Some second) m).state }
    ensures to_end { (rules : Rules) (settings : Settings) (m : State) (now first : ℕ) → 1 ≤ settings.interval → Sound rules m → first < 2 ^ 64 → StaySettled now (try_settle rules settings now (Some first) m).state (try_settle rules settings now None m).state }
    ensures rounds { (rules : Rules) (settings : Settings) (m : State) (now : ℕ) (limit : Option ℕ) → 1 ≤ settings.interval → Sound rules m → (try_settle rules settings now limit m).rounds ≤ width rules m }
    ensures leases { (rules : Rules) (settings : Settings) (m : State) (now : ℕ) (limit : Option ℕ) → 1 ≤ settings.interval → Sound rules m → (try_settle rules settings now limit m).leases ≤ width rules m * width rules m }
{}

/// A catalogue is quiet exactly where the question whether it is quiet is answered by yes.
pub fn quiet_is_asked()
    ensures quiet { (m : State) (now : ℕ) → is_quiet m now ≡ true → Quiet m now }
    ensures asked { (m : State) (now : ℕ) → Quiet m now → is_quiet m now ≡ true }
{}

/// In a sound catalogue a take gives an order exactly where some record is due and free, and then of one that is due first;
/// a stitch order comes exactly where some mark has a ticket above, and then of the least such ticket.
pub fn orders_are_given()
    ensures taken { (rules : Rules) (settings : Settings) (m : State) (now : ℕ) → Sound rules m → is_some (taken rules settings now m) ≡ is_some (next_taken now m) }
    ensures may { (m : State) (now : ℕ) (r : Ref) → next_taken now m ≡ Some r → may_take now (get m.records r) ≡ true }
    ensures first { (m : State) (now : ℕ) (r : Ref) (x : Record) → get m.records r ≡ Some x → may_take now (Some x) ≡ true → TakesNoLater m now x }
    ensures stitched { (rules : Rules) (m : State) (after : ℕ) → Sound rules m → is_some (next_stitch rules m after) ≡ is_some (next_mark m after) }
    ensures above { (m : State) (after : ℕ) (mark : Ref × ℕ) → next_mark m after ≡ Some mark → after < mark.1 }
    ensures least { (m : State) (after : ℕ) (r : Ref) (k : ℕ) → get m.marks r ≡ Some k → after < k → StitchesNoLater m after k }
{}

/// The first step of the rules of holding keeps just the holders that are rooted and whose rows are there.
pub fn rooted_stays()
    ensures { (rows : Rows) (holders : Holders) → AreNamed rows holders → rehold rows holders ≡ claim (length rows) rows (keys rows) (rooted_holders rows holders) }
{}
