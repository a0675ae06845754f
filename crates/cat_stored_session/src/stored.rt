//! A session, and a connection, over a store.

ghost use Rattle.std.specs.Prelude.{◌≡◌};
ghost use Rattle.cat_feed.specs.Feed.{begun};
ghost use Rattle.cat_keeper.specs.Answers.{Are};
ghost use Rattle.cat_layers.specs.Layered.{layered};
ghost use Rattle.cat_store.specs.Opened.{IsOpening};
ghost use Rattle.cat_stored_rows.specs.Stored.{stored, texts_of};
ghost use Rattle.cat_session_model.specs.Program.{program_settings};
ghost use Rattle.cat_stored_session.specs.Stores.{EndsAsStoredConnection, EndsAsStoredSession, session_over};

use crate::{KeptService, KeptSession, kept_connection};
use cat_api::service::Service;
use cat_connection::{Status, answer_lines};
use cat_core::catalogue::Catalogue;
use cat_io::{FixedClock, Sink, Source};
use cat_keeper::keeper::{Keeper, Place};
use cat_layers::layered::Layered;
use cat_model::types::OrphanRule;
use cat_open_errors::unopened;
use cat_session::Session;
use cat_session_model::settings::{INPUT_LIMIT, settings};
use cat_store::open::{Opened, open};
use cat_stored_desk::KeptDesk;
use std::alloc::Global;

/// How a command ended, and the keeper that it was given.
#[derive(Drop)]
pub struct Ran<K> {
    /// The status with which the program ends.
    pub status: Status,
    /// The keeper. Where it tells its tables, it holds those of the state in which a session over it ended.
    pub keeper: K,
}

// The session over what was opened.
fn session_of<K: Keeper>(alloc: Global, opened: Opened<K>) -> KeptSession<Layered, K>
    requires opening { IsOpening layered opened.links opened.state.value }
    requires rows { opened.store.rows ≡ stored opened.store.orphans opened.state.value }
    requires told { Are (K.tables opened.store.place opened.store.keeper) (texts_of opened.store.rows) }
    ensures { result ≡ record { ruled = record { orphans = opened.store.orphans; session = session_over opened.state.value }; place = opened.store.place; refusals = 0 } }
{
    let Opened {
        state,
        links,
        store,
    } = opened;
    let orphans = store.orphans;
    let catalogue = Catalogue::over(Layered, settings(orphans), state, links);
    let session = Session::over(alloc, Layered, catalogue, orphans);
    KeptSession::new(alloc, session, store)
}

// The service over what was opened, at the moment 0.
fn service_of<'a, K: Keeper>(alloc: Global, opened: Opened<K>) -> KeptService<'a, Layered, K>
    requires opening { IsOpening layered opened.links opened.state.value }
    requires rows { opened.store.rows ≡ stored opened.store.orphans opened.state.value }
    requires told { Are (K.tables opened.store.place opened.store.keeper) (texts_of opened.store.rows) }
    ensures catalogue { result.desk.catalogue ≡ record { settings = program_settings opened.store.orphans; state = opened.state.value } }
    ensures moment { result.desk.clock.moment ≡ 0 }
    ensures feed { result.desk.feed ≡ begun 0 }
    ensures place { result.desk.store.place ≡ opened.store.place }
    ensures refusals { result.desk.refusals ≡ 0 }
{
    let Opened {
        state,
        links,
        store,
    } = opened;
    let catalogue = Catalogue::over(Layered, settings(store.orphans), state, links);
    let desk = KeptDesk::new(alloc, catalogue, FixedClock::at(0), 0, store);
    Service::new(alloc, desk)
}

/// Answers the lines of the source over the catalogue that the keeper has at a place, under this rule for orphans, or
/// else under the stored one. The status is `StoreFault` where the keeper failed as the store was opened, and `BadRow` where a row of the store has no reading
/// or breaks a rule; the line `refused store TABLE KEY` names the first such row. It comes only where the rows are those of no state that opens.
pub fn run_stored<S: Source, O: Sink, K: Keeper>(
    alloc: Global,
    orphans: Option<OrphanRule>,
    place: Place,
    keeper: K,
    source: &mut S,
    sink: &mut O,
) -> Ran<K>
    ensures { EndsAsStoredSession S.left S.faults O.written O.faults K.tables K.faults place orphans result.status source.old source.new sink.old sink.new keeper result.keeper }
{
    match open(alloc, &Layered, keeper, place, orphans, INPUT_LIMIT) {
        Ok(opened) => {
            let mut session = session_of(alloc, opened);
            let status = answer_lines(alloc, &mut session, source, sink);
            let keeper = session.into_keeper();
            Ran { status, keeper }
        }
        Err((fault, keeper)) => {
            let status = unopened(alloc, &fault, sink);
            Ran { status, keeper }
        }
    }
}

/// The same for the messages of one HTTP connection, over a catalogue whose moment is 0.
pub fn run_stored_connection<S: Source, O: Sink, K: Keeper>(
    alloc: Global,
    orphans: Option<OrphanRule>,
    place: Place,
    keeper: K,
    source: &mut S,
    sink: &mut O,
) -> Ran<K>
    ensures { EndsAsStoredConnection S.left S.faults O.written O.faults K.tables K.faults place orphans result.status source.old source.new sink.old sink.new keeper result.keeper }
{
    match open(alloc, &Layered, keeper, place, orphans, INPUT_LIMIT) {
        Ok(opened) => {
            let mut service = service_of(alloc, opened);
            let end = kept_connection(alloc, &mut service, source, sink);
            let store = service.into_desk().into_store();
            Ran {
                status: Status::from(end),
                keeper: store.keeper,
            }
        }
        Err((fault, keeper)) => {
            let status = unopened(alloc, &fault, sink);
            Ran { status, keeper }
        }
    }
}
