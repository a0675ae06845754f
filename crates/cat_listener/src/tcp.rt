//! Doors over TCP, which watch the connections that wait. They tell their counts of faults, and that they never close.

ghost use Rattle.std.specs.Prelude.{◌≡◌, ◌<◌, ◌≤◌, Some, None, IfOk, IfSome, false, length};
ghost use Rattle.cat_io.specs.Causes.{CountsFault, Rose};
ghost use Rattle.cat_io.specs.Sink.{Writes};
ghost use Rattle.cat_io.specs.Source.{Reads};
ghost use Rattle.cat_listener.specs.Doors.{Admits, HasFailed, StayClosed};
ghost use Rattle.cat_listener.specs.Memory.{CountsAccept, CountsListen};

use crate::doors::{Accepted, Connection, Doors, Listened};
use crate::ends::{PromptSink, PromptSource, Watched, Wish};
use cat_io::{ReadAnswer, Sink, Source, WriteAnswer};
use mio::unix::SourceFd;
use mio::{Events, Interest, Poll, Registry, Token};
use std::alloc::Global;
use std::io;
use std::io::{ErrorKind, Read, Write};
use std::net::{Net, Shutdown, TcpListener, TcpStream};
use std::os::fd::AsRawFd;
use std::sync::Arc;
use std::time::{Clock, Duration};

/// How many seconds a read or a write that waits may last.
const PATIENCE: u64 = 60;

/// How many milliseconds doors wait at most for something to come.
const REST: u64 = 500;

/// How many milliseconds doors wait at most where files or memory lack.
const SHORT: u64 = 20;

/// How many connections are told of at once.
const MOST_EVENTS: usize = 256;

/// How often doors look before they say that nothing has come.
const MOST_LOOKS: u64 = 1 << 20;

/// The number of the doors themselves, which is no connection's.
const SELF: usize = usize::MAX;

/// The numbers by which Linux names what an accept lacks: memory, files of the system, files of the process, and buffers.
const LACKS: [i32; 4] = [12, 23, 24, 105];

/// The numbers by which Linux says that a listener is none: of no file, not listening, of no socket, and of one that can't.
const ENDS: [i32; 4] = [9, 22, 88, 95];

/// A connection over TCP.
#[derive(Drop)]
pub struct TcpConn {
    source: TcpSource,
    sink: TcpSink,
}

/// What comes over TCP. Nothing is told of it.
#[derive(Drop)]
pub struct TcpSource {
    stream: Arc<TcpStream>,
    registry: Arc<Registry>,
    known: bool,
    faults: u64,
}

/// What goes over TCP. Nothing is told of it.
#[derive(Drop)]
pub struct TcpSink {
    stream: Arc<TcpStream>,
    faults: u64,
}

impl Connection for TcpConn {
    type Source = TcpSource;

    type Sink = TcpSink;

    ghost source = { λ c. c.source };

    ghost sink = { λ c. c.sink };

    fn ends(self) -> (TcpSource, TcpSink) {
        (self.source, self.sink)
    }
}

/// Why a stream gave or took nothing.
#[derive(Clone, Copy)]
enum Idle {
    /// It would have to wait.
    Later,
    /// It failed.
    Failed,
}

fn idle_for(fault: &io::Error) -> Idle {
    if fault.kind() == ErrorKind::WouldBlock {
        Idle::Later
    } else {
        Idle::Failed
    }
}

// How many bytes a stream gives.
fn read_stream(stream: &TcpStream, buffer: &mut [u8]) -> Result<u64, Idle>
    ensures { IfOk result (λ count. count ≤ length buffer.new) }
{
    let mut reader = stream;
    match reader.read(buffer) {
        Ok(count) => Ok(count as u64),
        Err(fault) => Err(idle_for(&fault)),
    }
}

// How many bytes of a piece a stream takes, at least one where the piece isn't empty.
fn write_stream(stream: &TcpStream, piece: &[u8]) -> Result<u64, Idle>
    ensures { IfOk result (λ count. (count ≤ length piece.now) × (0 < length piece.now → 0 < count)) }
{
    let mut writer = stream;
    match writer.write(piece) {
        Ok(count) if count > 0 || piece.is_empty() => Ok(count as u64),
        Ok(_) => Err(Idle::Failed),
        Err(fault) => Err(idle_for(&fault)),
    }
}

impl TcpSource {
    // The fault is counted.
    fn fail(&mut self) -> ReadAnswer
        ensures answer { result ≡ ReadAnswer.Failed }
        ensures counts { CountsFault self.old.faults self.new.faults }
        ensures later { self.old.faults ≤ self.new.faults }
    {
        self.faults = self.faults.saturating_add(1);
        ReadAnswer::Failed
    }
}

impl Source for TcpSource {
    ghost left = { λ _. None };

    ghost faults = { λ s. s.faults };

    fn read(&mut self, buffer: &mut [u8]) -> ReadAnswer
        ensures bytes { Reads None None result buffer.new }
        ensures later { self.old.faults ≤ self.new.faults }
        ensures cause { result ≡ ReadAnswer.Failed → Rose self.old.faults self.new.faults }
    {
        let _ = self.stream.set_nonblocking(false);
        let read = read_stream(&self.stream, buffer);
        let _ = self.stream.set_nonblocking(true);
        match read {
            Ok(count) => ReadAnswer::Read(count),
            Err(_) => self.fail(),
        }
    }
}

impl PromptSource for TcpSource {
    fn read_now(&mut self, buffer: &mut [u8]) -> Option<ReadAnswer>
        ensures bytes { IfSome result (λ answer. Reads None None answer buffer.new) }
        ensures later { self.old.faults ≤ self.new.faults }
        ensures cause { result ≡ Some ReadAnswer.Failed → Rose self.old.faults self.new.faults }
    {
        match read_stream(&self.stream, buffer) {
            Ok(count) => Some(ReadAnswer::Read(count)),
            Err(Idle::Later) => None,
            Err(Idle::Failed) => Some(self.fail()),
        }
    }

    fn watch(&mut self, number: u64, wish: Wish) -> Watched
        ensures later { self.old.faults ≤ self.new.faults }
    {
        let file = self.stream.as_raw_fd();
        let token = Token(number as usize);
        let interest = match wish {
            Wish::Read => Interest::READABLE,
            Wish::Write => Interest::WRITABLE,
        };
        let told = if self.known {
            self.registry
                .reregister(&mut SourceFd(&file), token, interest)
        } else {
            self.registry
                .register(&mut SourceFd(&file), token, interest)
        };
        match told {
            Ok(()) => {
                self.known = true;
                Watched::Told
            }
            Err(_) => Watched::Refused,
        }
    }
}

impl TcpSink {
    // The fault is counted.
    fn fail(&mut self) -> WriteAnswer
        ensures answer { result ≡ WriteAnswer.Failed }
        ensures counts { CountsFault self.old.faults self.new.faults }
        ensures later { self.old.faults ≤ self.new.faults }
    {
        self.faults = self.faults.saturating_add(1);
        WriteAnswer::Failed
    }
}

impl Sink for TcpSink {
    ghost written = { λ _. None };

    ghost faults = { λ s. s.faults };

    fn write(&mut self, piece: &[u8]) -> WriteAnswer
        ensures bytes { Writes None None result piece.now }
        ensures later { self.old.faults ≤ self.new.faults }
        ensures cause { result ≡ WriteAnswer.Failed → Rose self.old.faults self.new.faults }
    {
        let _ = self.stream.set_nonblocking(false);
        let wrote = write_stream(&self.stream, piece);
        let _ = self.stream.set_nonblocking(true);
        match wrote {
            Ok(count) => WriteAnswer::Wrote(count),
            Err(_) => self.fail(),
        }
    }
}

impl PromptSink for TcpSink {
    fn write_now(&mut self, piece: &[u8]) -> Option<WriteAnswer>
        ensures bytes { IfSome result (λ answer. Writes None None answer piece.now) }
        ensures later { self.old.faults ≤ self.new.faults }
        ensures cause { result ≡ Some WriteAnswer.Failed → Rose self.old.faults self.new.faults }
    {
        match write_stream(&self.stream, piece) {
            Ok(count) => Some(WriteAnswer::Wrote(count)),
            Err(Idle::Later) => None,
            Err(Idle::Failed) => Some(self.fail()),
        }
    }

    fn finish(&mut self) {
        let _ = self.stream.shutdown(Shutdown::Write);
    }
}

/// What came of a look of the doors.
#[derive(Drop)]
enum Seen {
    /// A connection came.
    Conn(TcpConn),
    /// The connection of this number may go on.
    Ready(u64),
    /// Nothing came for a while.
    Rest,
    /// The system lacks files or memory.
    Short,
    /// The listener is none.
    Failed,
    /// It is to be looked again.
    Again,
}

// What a fault of an accept says, by the system's number of it.
fn seen_of(number: Option<i32>) -> Seen {
    match number {
        Some(number) if LACKS.contains(&number) => Seen::Short,
        Some(number) if ENDS.contains(&number) => Seen::Failed,
        _ => Seen::Again,
    }
}

/// Where connections come in, and those that wait are watched.
#[derive(Drop)]
struct Porch {
    alloc: Global,
    listener: TcpListener,
    poll: Poll,
    registry: Arc<Registry>,
    events: Events,
    // The connections that may go on.
    ready: Vec<u64>,
    // Connections may have come that weren't accepted.
    some_came: bool,
    // It is to accept one next.
    accepts: bool,
    // The system lacked files or memory.
    short: bool,
}

// The listener stands under the number of the doors.
fn watch_listener(poll: &Poll, listener: &TcpListener) -> io::Result<()> {
    let file = listener.as_raw_fd();
    poll.registry()
        .register(&mut SourceFd(&file), Token(SELF), Interest::READABLE)
}

impl Porch {
    fn open<R: Net<Listener = TcpListener, Stream = TcpStream>>(
        net: &R,
        alloc: Global,
        address: &str,
    ) -> io::Result<Porch> {
        let listener = TcpListener::bind(net, address)?;
        listener.set_nonblocking(true)?;
        let poll = Poll::new(net)?;
        watch_listener(&poll, &listener)?;
        let registry = poll.registry().try_clone()?;
        let registry = Arc::new(alloc, registry)?;
        let events = Events::with_capacity(alloc, MOST_EVENTS)?;
        let ready = Vec::with_capacity(alloc, MOST_EVENTS)?;
        Ok(Porch {
            alloc,
            listener,
            poll,
            registry,
            events,
            ready,
            some_came: true,
            accepts: true,
            short: false,
        })
    }

    // The connection over a stream that was accepted. A read and a write that wait are bounded where the system bounds them.
    fn conn(&self, stream: TcpStream) -> io::Result<TcpConn> {
        let patience = Some(Duration::from_secs(PATIENCE));
        let _ = stream.set_read_timeout(patience);
        let _ = stream.set_write_timeout(patience);
        let _ = stream.set_nodelay(true);
        stream.set_nonblocking(true)?;
        let stream = Arc::new(self.alloc, stream)?;
        let other = Arc::try_clone(&stream)?;
        let source = TcpSource {
            stream,
            registry: Arc::try_clone(&self.registry)?,
            known: false,
            faults: 0,
        };
        let sink = TcpSink {
            stream: other,
            faults: 0,
        };
        Ok(TcpConn { source, sink })
    }

    // The next connection, if one has come.
    fn accept(&mut self) -> Seen {
        match self.listener.accept() {
            Ok((stream, _)) => match self.conn(stream) {
                Ok(conn) => Seen::Conn(conn),
                Err(_) => Seen::Again,
            },
            Err(fault) if fault.kind() == ErrorKind::WouldBlock => {
                self.some_came = false;
                Seen::Again
            }
            Err(fault) => seen_of(fault.raw_os_error()),
        }
    }

    // Waits for so many milliseconds at most until something comes.
    fn watch(&mut self, most: u64) {
        let wait = Some(Duration::from_millis(most));
        let _ = self.poll.poll(&mut self.events, wait);
        for event in self.events.iter() {
            let Token(number) = event.token();
            if number == SELF {
                self.some_came = true;
            } else {
                let _ = self.ready.push(number as u64);
            }
        }
    }

    // One of the connections that wait, if it may go on within so many milliseconds.
    fn wait(&mut self, most: u64) -> Option<u64> {
        if self.ready.is_empty() {
            self.watch(most);
        }
        self.ready.pop()
    }

    // How many milliseconds it may wait for those that are open, before it accepts another one.
    fn patience(&self) -> u64 {
        if self.short {
            SHORT
        } else if self.some_came {
            0
        } else {
            REST
        }
    }

    // Looks in turn for a connection that may go on, and for one that comes.
    fn look(&mut self) -> Seen {
        if self.accepts && self.some_came && self.ready.is_empty() {
            self.accepts = false;
            let seen = self.accept();
            self.short = match &seen {
                Seen::Short => true,
                _ => false,
            };
            return seen;
        }
        self.accepts = true;
        match self.wait(self.patience()) {
            Some(number) => Seen::Ready(number),
            None if self.some_came => Seen::Again,
            None => Seen::Rest,
        }
    }
}

// Looks until something is seen.
fn look_on(porch: &mut Porch) -> Seen {
    for _ in 0..MOST_LOOKS {
        match porch.look() {
            Seen::Again => {}
            seen => return seen,
        }
    }
    Seen::Rest
}

/// Doors at an address of the network. They fail where they can't listen, and where their listener is none any more. A connection that its peer gave up
/// before it was accepted is passed over, and where the system has no file or no memory for one it is asked again.
#[derive(Drop)]
pub struct TcpDoors<'a, R: Net<Listener = TcpListener, Stream = TcpStream> + Clock> {
    rt: &'a R,
    alloc: Global,
    porch: Option<Porch>,
    faults: u64,
}

impl<'a, R: Net<Listener = TcpListener, Stream = TcpStream> + Clock> TcpDoors<'a, R> {
    /// Doors that don't listen yet, with no fault. They take no memory.
    pub fn new(rt: &'a R, alloc: Global) -> TcpDoors<'a, R>
        ensures { result.faults ≡ 0 }
    {
        TcpDoors {
            rt,
            alloc,
            porch: None,
            faults: 0,
        }
    }

    // What is seen, where the doors listen.
    fn look(&mut self) -> Seen
        ensures { self.new.faults ≡ self.old.faults }
    {
        match &mut self.porch {
            Some(porch) => look_on(porch),
            None => Seen::Failed,
        }
    }
}

impl<'a, R: Net<Listener = TcpListener, Stream = TcpStream> + Clock> Doors for TcpDoors<'a, R> {
    type Conn = TcpConn;

    ghost faults = { λ d. d.faults };

    ghost closed = { λ d. Some false };

    fn listen(&mut self, address: &str) -> Listened
        ensures later { self.old.faults ≤ self.new.faults }
        ensures cause { result ≡ Listened.Failed → Rose self.old.faults self.new.faults }
        ensures stay { StayClosed (Some false) (Some false) }
        ensures counts { CountsListen result self.old.faults self.new.faults }
    {
        match Porch::open(self.rt, self.alloc, address) {
            Ok(porch) => {
                self.porch = Some(porch);
                Listened::Ready
            }
            Err(_) => {
                self.faults = self.faults.saturating_add(1);
                Listened::Failed
            }
        }
    }

    fn accept(&mut self) -> Accepted<TcpConn>
        ensures admits { Admits (Some false) (Some false) result }
        ensures later { self.old.faults ≤ self.new.faults }
        ensures cause { HasFailed result → Rose self.old.faults self.new.faults }
        ensures stay { StayClosed (Some false) (Some false) }
        ensures counts { CountsAccept result self.old.faults self.new.faults }
    {
        match self.look() {
            Seen::Conn(conn) => Accepted::Conn(conn),
            Seen::Ready(number) => Accepted::Ready(number),
            Seen::Rest | Seen::Again => Accepted::Rest,
            Seen::Short => Accepted::Short,
            Seen::Failed => {
                self.faults = self.faults.saturating_add(1);
                Accepted::Failed
            }
        }
    }

    fn wait(&mut self) -> Option<u64>
        ensures later { self.old.faults ≤ self.new.faults }
    {
        match &mut self.porch {
            Some(porch) => porch.wait(REST),
            None => None,
        }
    }

    fn moment(&mut self) -> u64
        ensures later { self.old.faults ≤ self.new.faults }
    {
        match self.rt.monotonic() {
            Ok(elapsed) => elapsed.as_millis().min(u128::from(u64::MAX)) as u64,
            Err(_) => 0,
        }
    }
}
