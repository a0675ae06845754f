//! Stitches.
ghost use Rattle.std.specs.Prelude.{◌≡◌, IfOk};
ghost use Rattle.cat_model.specs.Step.Event.{PutStitch};
ghost use Rattle.cat_events.specs.Coming.{HasCome, IsSteady};
ghost use Rattle.cat_events.specs.Stepped.{come_to};

use crate::done::Stitched;
use crate::present::present_stitch;
use cat_collections::listing::Copied;
use cat_links::links::Links;
use cat_model::types::{Fault, Settings, State};
use cat_plan::layers::Layers;
use std::alloc::{AllocError, Global};

/// Stores a document, where its order is the present one. Otherwise it is late, and changes nothing.
pub fn put_stitch<L: Layers>(
    alloc: Global,
    layers: &L,
    settings: &Settings,
    stitched: &Stitched<'_, L>,
    state: &mut State,
    links: &Links,
) -> Result<Option<Fault>, AllocError>
    requires { IsSteady L.rules links.now state.old }
    ensures { HasCome L.rules (come_to L.rules settings.now (PutStitch stitched.now.order.now) state.old) result state.old state.new links.now }
{
    let _interval = settings.interval;
    let order = stitched.order();
    if present_stitch(alloc, layers, order, state, links)? {
        let reference = order.reference.duplicate(alloc)?;
        let document = stitched.document().duplicate(alloc)?;
        let mut marks = state.marks.share()?;
        marks.remove(alloc, &order.reference)?;
        state.documents.put(alloc, reference, document)?;
        state.marks = marks;
    }
    Ok(None)
}
