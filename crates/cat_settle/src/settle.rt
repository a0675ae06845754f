//! A settle.
ghost use Rattle.std.specs.Prelude.{◌≡◌, ◌≤◌, ℕ, Option};
ghost use Rattle.cat_model.specs.Settle.{not_begun, try_settle};
ghost use Rattle.cat_events.specs.Coming.{IsSteady};
ghost use Rattle.cat_events.specs.Stepped.{AreMoments};
ghost use Rattle.cat_affected.specs.Gathered.{Gathers};
ghost use Rattle.cat_settle.specs.Part.{Came, Goes};

use crate::rounds::all_rounds;
use crate::stitches::all_marks;
use cat_collections::listing::Listing;
use cat_links::links::Links;
use cat_model::types::{Progress, Settings};
use cat_plan::layers::Layers;
use cat_types::reference::Ref;
use std::alloc::{AllocError, Global};

/// Settles the state of a progress that is not begun: rounds until none is due, and then the stitches. Where it stops at a
/// refusal, the progress says so; where memory runs out, or before the event after `most`, exactly the events that the progress counts stand. The
/// links are those of the state, before and after. Where references are gathered, those that its events reached are put behind them; where memory
/// lacks for these, or they are many, none are gathered from then on.
pub fn settled<L: Layers>(
    alloc: Global,
    layers: &L,
    settings: &Settings,
    most: u64,
    now: u64,
    p: &mut Progress,
    links: &mut Links,
    reached: &mut Option<Listing<Ref>>,
) -> Result<(), AllocError>
    requires steady { IsSteady L.rules links.old p.old.state }
    requires moments { AreMoments settings.now now }
    requires interval { 1 ≤ settings.now.interval }
    requires begun { p.old ≡ not_begun p.old.state }
    ensures came { Came result (λ limit. try_settle L.rules settings.now now limit p.old.state) p.new }
    ensures steady { IsSteady L.rules links.new p.new.state }
    ensures goes { Goes L.rules p.old p.new }
    ensures within { p.old.events ≤ most → p.new.events ≤ most }
    ensures gathers { Gathers reached.old p.old.state reached.new p.new.state }
{
    match all_rounds(alloc, layers, settings, most, now, p, links, reached) {
        Ok(()) => all_marks(alloc, layers, settings, most, p, links),
        Err(refused) => Err(refused),
    }
}
