//! Rows that follow an event, at the cost of what it reached.
ghost use Rattle.std.specs.Prelude.{◌≡◌, ◌≢◌, ◌≤◌};
ghost use Rattle.std.specs.List.{list_all};
ghost use Rattle.cat_io.specs.Causes.{Rose};
ghost use Rattle.cat_keeper.specs.Answers.{Are};
ghost use Rattle.cat_keeper.specs.declared.keeper.Committed.TheVariants.{Kept};
ghost use Rattle.cat_model.specs.Sound.{AreOffers, AreSmall};
ghost use Rattle.cat_types.specs.Names as names;
ghost use Rattle.cat_row_updates.specs.Renewed.{IsBeyond};
ghost use Rattle.cat_stored_rows.specs.Stored.{stored, texts_of};

use crate::store::Store;
use cat_keeper::keeper::{Committed, Keeper};
use cat_model::types::State;
use cat_row_updates::reached::Reached;
use cat_row_updates::renew::renewed_rows;
use cat_stored_rows::among::batch_among;
use cat_types::names::is_name;
use std::alloc::Global;

// Whether each provider has a name of a provider's form, as all have that come from lines, requests and stores.
fn are_named(m: &State) -> bool
    ensures { result ≡ list_all (λ e. names.is_name e.0) m.now.providers }
{
    for (name, _) in m.providers.iter() {
        if !is_name(name.as_str()) {
            return false;
        }
    }
    true
}

impl<K: Keeper> Store<K> {
    /// Has the keeper make the changes that lead from the rows of the state before an event to those of the state after it. Only rows at what the
    /// event reached are looked at, made anew and compared; where a provider has another name than a provider's, all are. The answers are
    /// those of `follow`.
    #[tactic(auto, using(crate::proofs::Keeping::kept))]
    pub fn follow_reached(
        &mut self,
        alloc: Global,
        reached: &Reached,
        before: &State,
        after: &State,
    ) -> Committed
        requires rows { self.old.rows ≡ stored self.old.orphans before.now }
        requires beyond { IsBeyond reached.now before.now after.now }
        requires offers { AreOffers before.now × AreOffers after.now }
        requires small { AreSmall before.now × AreSmall after.now }
        ensures rows { result ≡ Kept → self.new.rows ≡ stored self.old.orphans after.now }
        ensures same { result ≢ Kept → self.new.rows ≡ self.old.rows }
        ensures told { Are (K.tables self.old.place self.old.keeper) (texts_of self.old.rows) → Are (K.tables self.new.place self.new.keeper) (texts_of self.new.rows) }
        ensures place { self.new.place ≡ self.old.place }
        ensures orphans { self.new.orphans ≡ self.old.orphans }
        ensures later { K.faults self.old.keeper ≤ K.faults self.new.keeper }
        ensures cause { result ≡ Committed.Failed → Rose (K.faults self.old.keeper) (K.faults self.new.keeper) }
        ensures still { stored self.old.orphans after.now ≡ self.old.rows → (result ≢ Committed.Failed) × (self.new.keeper ≡ self.old.keeper) }
    {
        if !are_named(before) || !are_named(after) {
            return self.follow(alloc, after);
        }
        let Ok(renewed) = renewed_rows(alloc, &self.rows, self.orphans, reached, before, after)
        else {
            return Committed::NoMemory;
        };
        let Ok(batch) = batch_among(alloc, renewed.keys.as_slice(), &self.rows, &renewed.rows)
        else {
            return Committed::NoMemory;
        };
        self.take_in(alloc, renewed.rows, &batch)
    }
}
