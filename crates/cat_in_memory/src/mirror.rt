//! The mirror, over a source and a sink.

ghost use Rattle.std.specs.Prelude.{◌≡◌};
ghost use Rattle.cat_in_memory.specs.Ends.{EndsAsMirror};
ghost use Rattle.cat_in_memory.specs.Mirrors.{stop_status};

use cat_connection::Status;
use cat_io::{Sink, Source};
use cat_mirror::{Stop, follow};
use std::alloc::Global;

// The status for each way in which a mirror stops.
fn status_of(stop: Stop) -> Status
    ensures { result ≡ stop_status stop }
{
    match stop {
        Stop::ReadFault => Status::ReadFault,
        Stop::WriteFault => Status::WriteFault,
        Stop::NoMemory => Status::NoMemory,
        Stop::Bound => Status::Bound,
    }
}

/// Follows a feed by the lines of the source, each of which is changes as text, and writes at the end of the input the list of the
/// documents.
pub fn run_mirror<S: Source, O: Sink>(alloc: Global, source: &mut S, sink: &mut O) -> Status
    ensures { EndsAsMirror S.left S.faults O.written O.faults result source.old source.new sink.old sink.new }
{
    match follow(alloc, source, sink) {
        Ok(()) => Status::Whole,
        Err(stop) => status_of(stop),
    }
}
