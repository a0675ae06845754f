//! A connection over a desk whose catalogue is kept.
ghost use Rattle.std.specs.Prelude.{◌≡◌, ◌≤◌, IfSome};
ghost use Rattle.cat_io.specs.Causes.{Rose};
ghost use Rattle.cat_stored_session.specs.Wire.{kept_wire_after, kept_wire_reply};
ghost use Rattle.cat_connection.specs.Connection.{Outcome, Transcript};
ghost use Rattle.cat_connection.specs.Worded.{HasWords};

use cat_api::service::Service;
use cat_connection::{ConnEnd, connection};
use cat_core::catalogue::{Done, Stitched};
use cat_io::{FixedClock, Sink, Source};
use cat_keeper::keeper::Keeper;
use cat_plan::layers::Layers;
use cat_stored_desk::KeptDesk;
use std::alloc::Global;

/// A desk whose catalogue is kept, as a service.
pub type KeptService<'a, L, K> = Service<Done<'a, L>, Stitched<'a, L>, KeptDesk<L, FixedClock, K>>;

/// Answers the messages of a source by a desk whose catalogue is kept, each before the next is read, up to the one that ends the connection.
///
/// A message whose change the keeper refuses is answered 503 and changes nothing but the count of those; a settle is cut behind its first event, which
/// stands, as its reply says. Memory, faults and the bound are as for `cat_connection::connection`.
pub fn kept_connection<'a, L: Layers, K: Keeper, S: Source, O: Sink>(
    alloc: Global,
    service: &mut KeptService<'a, L, K>,
    source: &mut S,
    sink: &mut O,
) -> ConnEnd
    requires { service.old.desk.clock.moment ≡ 0 }
    ensures outcome { Outcome (HasWords (kept_wire_after L.rules) (kept_wire_reply L.rules)) result (S.left source.old) (S.left source.new) (O.written sink.old) (O.written sink.new)
        (record { wired = record { catalogue = service.old.desk.catalogue; feed = service.old.desk.feed }; place = service.old.desk.store.place; refusals = service.old.desk.refusals })
        (record { wired = record { catalogue = service.new.desk.catalogue; feed = service.new.desk.feed }; place = service.new.desk.store.place; refusals = service.new.desk.refusals }) }
    ensures transcript { IfSome (S.left source.old) (Transcript (HasWords (kept_wire_after L.rules) (kept_wire_reply L.rules)) result (O.written sink.old) (O.written sink.new)
        (record { wired = record { catalogue = service.old.desk.catalogue; feed = service.old.desk.feed }; place = service.old.desk.store.place; refusals = service.old.desk.refusals })
        (record { wired = record { catalogue = service.new.desk.catalogue; feed = service.new.desk.feed }; place = service.new.desk.store.place; refusals = service.new.desk.refusals })) }

    // A fault is told only where that end counted one in this call.
    ensures read_fault { result ≡ ConnEnd.ReadFault → Rose (S.faults source.old) (S.faults source.new) }
    ensures write_fault { result ≡ ConnEnd.WriteFault → Rose (O.faults sink.old) (O.faults sink.new) }
    ensures read_later { S.faults source.old ≤ S.faults source.new }
    ensures write_later { O.faults sink.old ≤ O.faults sink.new }

    // Want of memory comes before the first read.
    ensures no_memory { result ≡ ConnEnd.NoMemory → (source.new ≡ source.old) × (sink.new ≡ sink.old) }
{
    connection(alloc, service, source, sink)
}
