//! What lets connections in.

ghost use Rattle.std.specs.Prelude.{◌≡◌, ℕ, ◌≤◌, Bool};
ghost use Rattle.std.specs.declared.option.Option.{Option};
ghost use Rattle.cat_io.specs.Causes.{Rose};
ghost use Rattle.cat_listener.specs.Doors.{Admits, HasFailed, StayClosed};

use crate::ends::{PromptSink, PromptSource};

/// What came of listening.
#[derive(Clone, Copy, Debug, PartialEq, Eq)]
pub enum Listened {
    /// Connections may come.
    Ready,
    /// The doors failed: they counted a fault.
    Failed,
}

/// What came of waiting for a connection.
#[derive(Drop)]
pub enum Accepted<T> {
    /// A connection came.
    Conn(T),
    /// The connection that waits under this number may go on.
    Ready(u64),
    /// Nothing came for a while.
    Rest,
    /// The system has no file or no memory for a connection that came. It is asked again.
    Short,
    /// The doors have closed: no more connections come.
    Closed,
    /// The doors failed: they counted a fault.
    Failed,
}

/// A connection, which has two ends: a source of what its peer sends, and a sink of what its peer is sent. So what the one end tells doesn't
/// hang on what is done with the other. Ends that can say that they would have to wait are watched by the doors meanwhile.
pub trait Connection {
    /// What the peer sends.
    type Source: PromptSource + Drop + Send;

    /// What the peer is sent.
    type Sink: PromptSink + Drop + Send;

    ghost source: { Self → Self.Source };

    ghost sink: { Self → Self.Sink };

    /// Its ends. It is closed once both are dropped.
    fn ends(self) -> (Self::Source, Self::Sink)
        ensures source { result.0 ≡ source self }
        ensures sink { result.1 ≡ sink self };
}

/// What lets connections in, seen by its count of faults, and by whether it has closed, where it tells that.
pub trait Doors {
    /// What comes in.
    type Conn: Connection + Drop + Send;

    ghost faults: { Self → ℕ };

    ghost closed: { Self → Option Bool };

    /// Lets connections come to this address.
    ///
    /// The count of faults never falls, and `Failed` comes only where it rose in this call, or stands at the last value of a
    /// u64. Doors that have closed stay so.
    fn listen(&mut self, address: &str) -> Listened
        ensures later { faults self.old ≤ faults self.new }
        ensures cause { result ≡ Listened.Failed → Rose (faults self.old) (faults self.new) }
        ensures stay { StayClosed (closed self.old) (closed self.new) };

    /// Waits, for a while at most, for the next connection, or until one of those that wait may go on.
    ///
    /// A connection comes only from doors that haven't closed, and `Closed` only from doors that have. The count of faults
    /// never falls, and `Failed` comes only where it rose in this call, or stands at the last value of a u64.
    fn accept(&mut self) -> Accepted<Self::Conn>
        ensures admits { Admits (closed self.old) (closed self.new) result }
        ensures later { faults self.old ≤ faults self.new }
        ensures cause { HasFailed result → Rose (faults self.old) (faults self.new) }
        ensures stay { StayClosed (closed self.old) (closed self.new) };

    /// Waits, for a while at most, until one of the connections that wait may go on, and lets none in.
    fn wait(&mut self) -> Option<u64>
        ensures later { faults self.old ≤ faults self.new }
        ensures same { closed self.new ≡ closed self.old }
    {
        None
    }

    /// The moment, in milliseconds since a start of the doors' own.
    fn moment(&mut self) -> u64
        ensures later { faults self.old ≤ faults self.new }
        ensures same { closed self.new ≡ closed self.old }
    {
        0
    }
}
