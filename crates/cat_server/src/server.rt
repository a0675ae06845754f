//! The server, over doors and a clock.

ghost use Rattle.std.specs.Prelude.{◌≡◌, ◌<◌, ◌≤◌, List, [], ◌∷◌};
ghost use Rattle.cat_connection.specs.Status.{IsOneOf};
ghost use Rattle.cat_feed.specs.Feed.{begun};
ghost use Rattle.cat_io.specs.Causes.{Rose};
ghost use Rattle.cat_keeper.specs.Answers.{Are};
ghost use Rattle.cat_layers.specs.Layered.{layered};
ghost use Rattle.cat_listener.specs.Doors.{HaveClosed};
ghost use Rattle.cat_model.specs.Sound.{Sound};
ghost use Rattle.cat_model.specs.Step.{start};
ghost use Rattle.cat_server.specs.Ended.{EndsAsServing, HasListened};
ghost use Rattle.cat_session_model.specs.Program.{program_settings};
ghost use Rattle.cat_store.specs.Opened.{IsOpening};
ghost use Rattle.cat_stored_rows.specs.Stored.{stored, texts_of};

use cat_command_line::{CatalogueOptions, ServerOptions, Serving};
use cat_connection::Status;
use cat_core::catalogue::Catalogue;
use cat_desk::fed::Fed;
use cat_desk::timed::Timed;
use cat_desk::timed_desk::TimedDesk;
use cat_dispatcher::{Crew, host};
use cat_io::{Clock, Sink};
use cat_keeper::keeper::Keeper;
use cat_laws::theorem::sound_is_kept;
use cat_layers::layered::Layered;
use cat_listener::{Doors, Ended as DoorsEnded, Listened};
use cat_model::types::OrphanRule;
use cat_open_errors::unopened;
use cat_session_model::settings::{INPUT_LIMIT, settings};
use cat_store::open::{Opened, open};
use cat_stored_desk::KeptDesk;
use std::alloc::Global;
use std::sync::Wait;
use std::thread::Threads;

/// How a command ended, and the keeper that it was given.
#[derive(Drop)]
pub struct Ended<K> {
    /// The status with which the program ends.
    pub status: Status,
    /// The keeper, where it is given back. Where it tells its tables, it holds those of the state in which a session over it ended. A server
    /// that began to serve over its store doesn't give it back: its connections had it to the end.
    pub keeper: Option<K>,
}

// An empty catalogue under a rule for orphans, with this clock, and with a feed whose epoch is a reading of the clock.
fn empty_desk<C: Clock>(alloc: Global, orphans: OrphanRule, mut clock: C) -> Fed<Layered, C>
    ensures settings { result.timed.catalogue.settings ≡ program_settings orphans }
    ensures state { result.timed.catalogue.state ≡ start }
    ensures feed { result.feed ≡ begun (C.moment result.timed.clock) }
    ensures ticks { C.ticks clock result.timed.clock }
{
    let epoch = clock.now();
    let catalogue = Catalogue::empty(alloc, Layered, settings(orphans));
    Fed::new(alloc, Timed::new(catalogue, clock), epoch)
}

// The catalogue that was opened, with the store that follows it, this clock, and a feed whose epoch is a reading of the clock.
fn kept_desk<C: Clock, K: Keeper>(
    alloc: Global,
    opened: Opened<K>,
    mut clock: C,
) -> KeptDesk<Layered, C, K>
    requires opening { IsOpening layered opened.links opened.state.value }
    requires rows { opened.store.rows ≡ stored opened.store.orphans opened.state.value }
    requires told { Are (K.tables opened.store.place opened.store.keeper) (texts_of opened.store.rows) }
    ensures settings { result.catalogue.settings ≡ program_settings opened.store.orphans }
    ensures state { result.catalogue.state ≡ opened.state.value }
    ensures feed { result.feed ≡ begun (C.moment result.clock) }
    ensures ticks { C.ticks clock result.clock }
{
    let epoch = clock.now();
    let Opened {
        state,
        links,
        store,
    } = opened;
    let catalogue = Catalogue::over(Layered, settings(store.orphans), state, links);
    KeptDesk::new(alloc, catalogue, clock, epoch, store)
}

// Serves the connections that the doors let in, which listen, over a catalogue, until they let in no more.
fn serve<B: TimedDesk<Layered> + Drop + Send, D: Doors + Send, R: Threads + Wait + Sync>(
    rt: &R,
    alloc: Global,
    server: ServerOptions,
    desk: B,
    doors: &mut D,
) -> Status
    requires crew { 0 < server.connections }
    requires sound { Sound layered (B.ledger desk).state }
    ensures closed { result ≡ Status.Whole → HaveClosed (D.closed doors.new) }
    ensures doors_fault { result ≡ Status.DoorsFault → Rose (D.faults doors.old) (D.faults doors.new) }
    ensures memory { result ≡ Status.NoMemory → doors.new ≡ doors.old }
    ensures later { D.faults doors.old ≤ D.faults doors.new }
    ensures ended { IsOneOf result (Status.Whole ∷ Status.DoorsFault ∷ Status.NoMemory ∷ []) }
{
    let crew = Crew {
        connections: server.connections,
        workers: server.workers,
    };
    match host(rt, alloc, &Layered, crew, desk, doors) {
        Ok(DoorsEnded::Closed) => Status::Whole,
        Ok(DoorsEnded::Failed) => Status::DoorsFault,
        Err(_) => Status::NoMemory,
    }
}

// Listens at an address, and serves the connections that come over an empty catalogue. For want of memory the status is 9, before the first connection.
fn run_serve<C: Clock + Drop + Send, D: Doors + Send, R: Threads + Wait + Sync>(
    rt: &R,
    alloc: Global,
    address: &str,
    orphans: OrphanRule,
    server: ServerOptions,
    clock: C,
    doors: &mut D,
) -> Status
    requires crew { 0 < server.connections }
    ensures { HasListened D.closed D.faults result doors.old doors.new }
{
    sound_is_kept();
    match doors.listen(address) {
        Listened::Ready => serve(rt, alloc, server, empty_desk(alloc, orphans, clock), doors),
        Listened::Failed => Status::DoorsFault,
    }
}

// Listens at an address, and serves the connections that come over the catalogue that was opened.
fn serve_opened<
    C: Clock + Drop + Send,
    K: Keeper + Drop + Send,
    D: Doors + Send,
    R: Threads + Wait + Sync,
>(
    rt: &R,
    alloc: Global,
    address: &str,
    server: ServerOptions,
    opened: Opened<K>,
    clock: C,
    doors: &mut D,
) -> Status
    requires crew { 0 < server.connections }
    requires opening { IsOpening layered opened.links opened.state.value }
    requires rows { opened.store.rows ≡ stored opened.store.orphans opened.state.value }
    requires told { Are (K.tables opened.store.place opened.store.keeper) (texts_of opened.store.rows) }
    ensures { HasListened D.closed D.faults result doors.old doors.new }
{
    match doors.listen(address) {
        Listened::Ready => serve(rt, alloc, server, kept_desk(alloc, opened, clock), doors),
        Listened::Failed => Status::DoorsFault,
    }
}

/// Listens at an address, and serves the connections that come over an empty catalogue, or over the one that the keeper has at a place, with workers beside
/// them, until the doors let in no more. The status is `Whole` where the doors have closed, `DoorsFault` where they failed, `NoMemory` where memory lacked before
/// the first connection, `StoreFault` where the keeper failed as the store was opened, and `BadRow` where a row of the store has no reading or breaks a rule,
/// which a line names; no address was listened at then.
pub fn run_server<
    O: Sink,
    C: Clock + Drop + Send,
    D: Doors + Send,
    K: Keeper + Drop + Send,
    R: Threads + Wait + Sync,
>(
    rt: &R,
    alloc: Global,
    serving: Serving,
    sink: &mut O,
    clock: C,
    doors: &mut D,
    keeper: K,
) -> Ended<K>
    requires crew { 0 < serving.server.connections }
    ensures { EndsAsServing O.written O.faults D.closed D.faults K.tables K.faults serving.catalogue.place result.status sink.old sink.new doors.old doors.new keeper result.keeper }
{
    let Serving {
        address,
        catalogue,
        server,
    } = serving;
    let CatalogueOptions { orphans, place } = catalogue;
    let address = address.as_str();
    match place {
        None => {
            let orphans = orphans.unwrap_or(OrphanRule::Keep);
            Ended {
                status: run_serve(rt, alloc, address, orphans, server, clock, doors),
                keeper: Some(keeper),
            }
        }
        Some(place) => match open(alloc, &Layered, keeper, place, orphans, INPUT_LIMIT) {
            Ok(opened) => Ended {
                status: serve_opened(rt, alloc, address, server, opened, clock, doors),
                keeper: None,
            },
            Err((fault, keeper)) => Ended {
                status: unopened(alloc, &fault, sink),
                keeper: Some(keeper),
            },
        },
    }
}
