//! What holds after any run.
ghost use Rattle.std.specs.Prelude.{◌≡◌, ◌≤◌, ℕ, List, [], Some};
ghost use Rattle.cat_api.specs.Wire.{Wired, wire_after};
ghost use Rattle.cat_connection.specs.Items.{Item};
ghost use Rattle.cat_connection.specs.Worded.{Word as ItemWord, after_items};
ghost use Rattle.cat_desk.specs.Acts.{after_deed, deed_reply};
ghost use Rattle.cat_desk.specs.Deed.Deed.{Settle};
ghost use Rattle.cat_desk.specs.declared.command.Reply.TheVariants.{Settled};
ghost use Rattle.cat_io.specs.Word.{Word};
ghost use Rattle.cat_layers.specs.Layered.{layered};
ghost use Rattle.cat_model.specs.Catalogue.{Rules};
ghost use Rattle.cat_model.specs.Fresh.{IsFresh, facts_of, fresh_docs};
ghost use Rattle.cat_model.specs.Sound.{AreOrdered, Quiet, Sound};
ghost use Rattle.cat_model.specs.declared.types.Counts.{Counts};
ghost use Rattle.cat_model.specs.declared.types.OrphanRule.{OrphanRule};
ghost use Rattle.cat_model.specs.declared.types.OrphanRule.TheVariants.{Delete};
ghost use Rattle.cat_model.specs.declared.types.Settings.{Settings};
ghost use Rattle.cat_model.specs.declared.types.State.{State};
ghost use Rattle.cat_run_laws.specs.Runs.{Step, after_run, items_run, wired_at};
ghost use Rattle.cat_shared.specs.Replay.{replay};
ghost use Rattle.cat_shared.specs.declared.entry.Entry.{Entry};

/// Whatever its deeds, at whatever moments, and whatever came of them: a run leads from a sound state to a sound one; where it is quiet its documents
/// are those computed afresh; and under the rule that deletes a catalogue without orphans stays without, so that its documents are just those.
pub fn runs_keep_their_laws()
    ensures sound { (rules : Rules) (settings : Settings) (m : State) (steps : List Step) → Sound rules m → Sound rules (after_run rules settings m steps) }
    ensures fresh { (rules : Rules) (settings : Settings) (m : State) (steps : List Step) (now : ℕ)
        → Sound rules m → Quiet (after_run rules settings m steps) now → IsFresh rules (after_run rules settings m steps) }
    ensures no_orphan { (rules : Rules) (settings : Settings) (m : State) (steps : List Step)
        → settings.orphans ≡ Delete → m.orphans ≡ [] → (after_run rules settings m steps).orphans ≡ [] }
    ensures just_fresh { (rules : Rules) (settings : Settings) (m : State) (steps : List Step) (now : ℕ)
        → Sound rules m → AreOrdered m → settings.orphans ≡ Delete → m.orphans ≡ [] → Quiet (after_run rules settings m steps) now
        → (after_run rules settings m steps).documents ≡ fresh_docs rules (facts_of rules (after_run rules settings m steps)) }
    ensures settled { (rules : Rules) (settings : Settings) (m : State) (now : ℕ) (word : Word) (counts : Counts)
        → 1 ≤ settings.interval → Sound rules m → deed_reply rules settings now word Settle m ≡ Settled counts
        → Quiet (after_deed rules settings now word Settle m) now }
{}

/// The messages of a connection make a run: the state after them is that after their deeds. So of the program's connections over an empty catalogue:
/// whatever their messages and whatever came of them, where the catalogue is quiet its documents are those computed afresh, and under the rule that
/// deletes it has no orphan and its documents are just those.
pub fn connections_keep_their_laws()
    ensures run { (rules : Rules) (first : Wired) (items : List Item) (words : List ItemWord)
        → (after_items (wire_after rules) first items words).catalogue.state
        ≡ after_run rules first.catalogue.settings first.catalogue.state (items_run items words) }
    ensures fresh { (rule : OrphanRule) (items : List Item) (words : List ItemWord) (now : ℕ)
        → Quiet (wired_at rule items words).catalogue.state now → IsFresh layered (wired_at rule items words).catalogue.state }
    ensures no_orphan { (items : List Item) (words : List ItemWord) → (wired_at Delete items words).catalogue.state.orphans ≡ [] }
    ensures just_fresh { (items : List Item) (words : List ItemWord) (now : ℕ) → Quiet (wired_at Delete items words).catalogue.state now
        → (wired_at Delete items words).catalogue.state.documents ≡ fresh_docs layered (facts_of layered (wired_at Delete items words).catalogue.state) }
{}

/// A journal makes a run: the state to which it leads from an opening state is that after its deeds. So of a server's book: where the state to which its
/// journal leads is quiet, its documents are those computed afresh, and under the rule that deletes no orphan comes up.
pub fn journals_keep_their_laws()
    ensures sound { (rules : Rules) (settings : Settings) (opening m : State) (journal : List Entry)
        → Sound rules opening → replay rules settings opening journal ≡ Some m → Sound rules m }
    ensures fresh { (rules : Rules) (settings : Settings) (opening m : State) (journal : List Entry) (now : ℕ)
        → Sound rules opening → replay rules settings opening journal ≡ Some m → Quiet m now → IsFresh rules m }
    ensures no_orphan { (rules : Rules) (settings : Settings) (opening m : State) (journal : List Entry)
        → settings.orphans ≡ Delete → opening.orphans ≡ [] → replay rules settings opening journal ≡ Some m → m.orphans ≡ [] }
{}
