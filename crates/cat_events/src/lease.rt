//! What changes a record in place: takes and refreshes. Neither takes memory.
ghost use Rattle.std.specs.Prelude.{◌≡◌, ◌+◌, ◌<◌, ◌≤◌, ◌^◌, IfOk, IsTrue, Option, is_some, option_map};
ghost use Rattle.std.specs.FinMap.Entries.{is_sorted};
ghost use Rattle.cat_collections.specs.Table.{get, put, text_cmp};
ghost use Rattle.cat_model.specs.Sound.{AreSmall};
ghost use Rattle.cat_model.specs.Step.{leased, with_record};
ghost use Rattle.cat_model.specs.Step.Event.{Refresh, TakeAt};
ghost use Rattle.cat_events.specs.Coming.{came_fault, came_state};
ghost use Rattle.cat_events.specs.Stepped.{come_to, AreMoments};

use crate::refusal::MOST;
use cat_model::types::{Counter, Fault, Lease, Settings, State};
use cat_plan::layers::Layers;
use cat_types::reference::Ref;

/// Leases a record at this moment, if there is one, whatever lease it has. No memory is taken.
pub fn take_at<L: Layers>(
    _layers: &L,
    settings: &Settings,
    reference: &Ref,
    now: u64,
    state: &mut State,
) -> Option<Fault>
    requires small { AreSmall state.old }
    requires moments { AreMoments settings.now now }
    ensures state { state.new ≡ came_state (come_to L.rules settings.now (TakeAt reference.now now) state.old) state.old }
    ensures fault { result ≡ came_fault (come_to L.rules settings.now (TakeAt reference.now now) state.old) }
{
    if state.records.get(reference).is_none() {
        return None;
    }
    if state.token >= MOST {
        return Some(Fault::Spent(Counter::Token));
    }
    let lease = Lease {
        token: state.token,
        expires: now + settings.lease,
    };
    state.records.renew(reference, None, Some(lease));
    state.token += 1;
    None
}

/// Makes a record due at once, and free. No memory is taken.
pub fn refresh<L: Layers>(
    _layers: &L,
    settings: &Settings,
    reference: &Ref,
    state: &mut State,
) -> Option<Fault>
    requires small { AreSmall state.old }
    ensures state { state.new ≡ came_state (come_to L.rules settings.now (Refresh reference.now) state.old) state.old }
    ensures fault { result ≡ came_fault (come_to L.rules settings.now (Refresh reference.now) state.old) }
{
    let _interval = settings.interval;
    if state.records.get(reference).is_none() {
        return Some(Fault::NotFound);
    }
    state.records.renew(reference, Some(0), None);
    None
}
