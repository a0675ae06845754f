//! The ends of a connection, which can say that they would have to wait.

ghost use Rattle.std.specs.Prelude.{◌≡◌, ◌≤◌, IfSome, IfNone, Some};
ghost use Rattle.std.specs.Io.KnownBytes.{Keeps};
ghost use Rattle.cat_io.specs.Causes.{Rose};
ghost use Rattle.cat_io.specs.Sink.{Writes};
ghost use Rattle.cat_io.specs.Source.{Reads};

use cat_io::{MemorySink, MemorySource, ReadAnswer, Sink, Source, WriteAnswer};

/// For what a connection waits.
#[derive(Clone, Copy)]
pub enum Wish {
    /// For bytes to come.
    Read,
    /// For room for bytes that are to go.
    Write,
}

/// What came of the wish to be told.
#[derive(Clone, Copy)]
pub enum Watched {
    /// The doors tell when the connection may go on.
    Told,
    /// Nobody tells. The connection is to go on at once, and may wait in a read or a write.
    AtOnce,
    /// The system can't tell of one more.
    Refused,
}

/// A source that can say that nothing has come yet. One that can't, waits until something has.
pub trait PromptSource: Source {
    /// Reads as `read` does, where that needn't wait. `None` says that it would have to: nothing was taken then, and no fault was counted.
    fn read_now(&mut self, buffer: &mut [u8]) -> Option<ReadAnswer>
        ensures bytes { IfSome result (λ answer. Reads (Self.left self.old) (Self.left self.new) answer buffer.new) }
        ensures none { IfNone result (Keeps (Self.left self.old) (Self.left self.new)) }
        ensures later { Self.faults self.old ≤ Self.faults self.new }
        ensures cause { result ≡ Some ReadAnswer.Failed → Rose (Self.faults self.old) (Self.faults self.new) }
    {
        Some(self.read(buffer))
    }

    /// Has the doors tell, under this number, when the connection may go on.
    fn watch(&mut self, _number: u64, _wish: Wish) -> Watched
        ensures same { Keeps (Self.left self.old) (Self.left self.new) }
        ensures later { Self.faults self.old ≤ Self.faults self.new }
    {
        Watched::AtOnce
    }
}

/// A sink that can say that there is no room yet. One that can't, waits until there is.
pub trait PromptSink: Sink {
    /// Writes as `write` does, where that needn't wait. `None` says that it would have to: nothing was written then, and no fault was counted.
    fn write_now(&mut self, piece: &[u8]) -> Option<WriteAnswer>
        ensures bytes { IfSome result (λ answer. Writes (Self.written self.old) (Self.written self.new) answer piece.now) }
        ensures none { IfNone result (Keeps (Self.written self.old) (Self.written self.new)) }
        ensures later { Self.faults self.old ≤ Self.faults self.new }
        ensures cause { result ≡ Some WriteAnswer.Failed → Rose (Self.faults self.old) (Self.faults self.new) }
    {
        Some(self.write(piece))
    }

    /// Says that nothing more is written.
    fn finish(&mut self) {}
}

impl PromptSource for MemorySource {}

impl PromptSink for MemorySink {}
