//! A session, a connection and a sample over an empty catalogue.

ghost use Rattle.std.specs.Prelude.{◌≡◌, ◌<◌, ◌^◌};
ghost use Rattle.cat_feed.specs.Feed.{begun};
ghost use Rattle.cat_in_memory.specs.Ends.{EndsAsConnection, EndsAsSample, EndsAsSession};
ghost use Rattle.cat_model.specs.Step.{start};
ghost use Rattle.cat_session_model.specs.Program.{program_settings};

use cat_api::service::Service;
use cat_connection::{Status, answer_lines, answer_messages, tell};
use cat_core::catalogue::{Catalogue, Done, Stitched};
use cat_desk::fed::Fed;
use cat_desk::timed::Timed;
use cat_io::{FixedClock, Sink, Source};
use cat_layers::layered::Layered;
use cat_model::types::OrphanRule;
use cat_sample::sample;
use cat_session::Session;
use cat_session_model::settings::settings;
use std::alloc::Global;

// An empty catalogue under a rule for orphans, at the moment 0, with a feed of the epoch 0, as a service.
fn empty_service<'a>(
    alloc: Global,
    orphans: OrphanRule,
) -> Service<Done<'a, Layered>, Stitched<'a, Layered>, Fed<Layered, FixedClock>>
    ensures catalogue { result.desk.timed.catalogue ≡ record { settings = program_settings orphans; state = start } }
    ensures moment { result.desk.timed.clock.moment ≡ 0 }
    ensures feed { result.desk.feed ≡ begun 0 }
{
    let catalogue = Catalogue::empty(alloc, Layered, settings(orphans));
    let timed = Timed::new(catalogue, FixedClock::at(0));
    Service::new(alloc, Fed::new(alloc, timed, 0))
}

/// Answers the lines of the source over an empty catalogue, under a rule for orphans. Memory lacks before the first read or not at all.
pub fn run_session<S: Source, O: Sink>(
    alloc: Global,
    orphans: OrphanRule,
    source: &mut S,
    sink: &mut O,
) -> Status
    ensures { EndsAsSession S.left S.faults O.written O.faults orphans result source.old source.new sink.old sink.new }
{
    let mut session = Session::new(alloc, Layered, Layered, orphans);
    answer_lines(alloc, &mut session, source, sink)
}

/// Answers the messages of one connection over an empty catalogue whose moment is 0, under a rule for orphans. Memory lacks before the first read or not
/// at all.
pub fn run_connection<S: Source, O: Sink>(
    alloc: Global,
    orphans: OrphanRule,
    source: &mut S,
    sink: &mut O,
) -> Status
    ensures { EndsAsConnection S.left S.faults O.written O.faults orphans result source.old source.new sink.old sink.new }
{
    let mut service = empty_service(alloc, orphans);
    answer_messages(alloc, &mut service, source, sink)
}

/// Makes a sample of a seed under the rule that keeps orphans, with so many Components, and writes its line, where there was memory for it.
pub fn tell_sample<O: Sink>(alloc: Global, seed: u64, count: u64, sink: &mut O) -> Status
    requires { seed < 2 ^ 31 }
    ensures { EndsAsSample O.written O.faults seed count result sink.old sink.new }
{
    match sample(alloc, Layered, settings(OrphanRule::Keep), seed, count) {
        Ok(line) => tell(line.as_slice(), sink),
        Err(_) => Status::NoMemory,
    }
}
