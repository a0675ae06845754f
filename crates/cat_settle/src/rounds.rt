//! Rounds of takes and finishes.
ghost use Rattle.std.specs.Prelude.{◌≡◌, ◌≤◌, false, IfOk, IfErr, ℕ, Option, Bool};
ghost use Rattle.cat_model.specs.Settle.{begun_round, due_refs, is_ended, try_round};
ghost use Rattle.cat_events.specs.Coming.{IsSteady};
ghost use Rattle.cat_events.specs.Stepped.{AreMoments};
ghost use Rattle.cat_affected.specs.Gathered.{Gathers};
ghost use Rattle.cat_settle.specs.Part.{Came, CameRounds, Goes};

use crate::order::counted;
use crate::turn::all_turned;
use cat_collections::listing::Listing;
use cat_links::links::Links;
use cat_model::types::{Progress, Settings};
use cat_plan::layers::Layers;
use cat_types::reference::Ref;
use std::alloc::{AllocError, Global};

// A round over the records that are due, of which there are some.
fn one_round<L: Layers>(
    alloc: Global,
    layers: &L,
    settings: &Settings,
    most: u64,
    now: u64,
    refs: &Listing<Ref>,
    p: &mut Progress,
    links: &mut Links,
    reached: &mut Option<Listing<Ref>>,
) -> Result<(), AllocError>
    requires steady { IsSteady L.rules links.old p.old.state }
    requires moments { AreMoments settings.now now }
    requires due { refs.now ≡ due_refs now p.old.state }
    requires going { is_ended now p.old ≡ false }
    ensures came { Came result (λ limit. try_round L.rules settings.now now limit p.old) p.new }
    ensures steady { IsSteady L.rules links.new p.new.state }
    ensures goes { Goes L.rules p.old p.new }
    ensures within { p.old.events ≤ most → p.new.events ≤ most }
    ensures gathers { Gathers reached.old p.old.state reached.new p.new.state }
{
    p.rounds = counted(p.rounds);
    all_turned(
        alloc,
        layers,
        settings,
        most,
        now,
        refs.as_slice(),
        p,
        links,
        reached,
    )
}

/// Rounds until for the first time no record is due or the settle is stopped.
pub fn all_rounds<L: Layers>(
    alloc: Global,
    layers: &L,
    settings: &Settings,
    most: u64,
    now: u64,
    p: &mut Progress,
    links: &mut Links,
    reached: &mut Option<Listing<Ref>>,
) -> Result<(), AllocError>
    requires steady { IsSteady L.rules links.old p.old.state }
    requires moments { AreMoments settings.now now }
    ensures came { CameRounds L.rules settings.now now p.old result p.new }
    ensures steady { IsSteady L.rules links.new p.new.state }
    ensures goes { Goes L.rules p.old p.new }
    ensures within { p.old.events ≤ most → p.new.events ≤ most }
    ensures gathers { Gathers reached.old p.old.state reached.new p.new.state }
{
    'rounds: loop {
        match p.state.records.due(alloc, now) {
            Ok(refs) => {
                if p.stop.is_some() || refs.len() == 0 {
                    return Ok(());
                }
                match one_round(alloc, layers, settings, most, now, &refs, p, links, reached) {
                    Ok(()) => {}
                    Err(refused) => return Err(refused),
                }
            }
            Err(refused) => return Err(refused),
        }
    }
}
