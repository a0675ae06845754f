//! Two connections that are served at once, beside workers.
use cat_collections::map::Map;
use cat_command_line::{CatalogueOptions, ServerOptions, Serving};
use cat_connection::Status;
use cat_io::{FixedClock, MemorySink, ReadAnswer, Sink, Source, WriteAnswer};
use cat_keeper::keeper::{Committed, Keeper, Loaded, Place};
use cat_keeper::memory::MemoryKeeper;
use cat_keeper::rows::Batch;
use cat_keeper::table::Table;
use cat_listener::{Accepted, Connection, Doors, Listened, PromptSink, PromptSource};
use cat_server::run_server;
use cat_tree::text::Text;
use std::alloc::Global;
use std::sync::atomic::{AtomicBool, AtomicU64, Ordering};
use std::test::Fail;
use std::thread::yield_now;

/// How often a connection looks for the other one before it gives up.
const MOST_LOOKS: u64 = 1_000_000;

/// How often an entity is asked for.
const MOST_ASKS: u64 = 100_000;

/// Gives a Component.
const POST: &[u8] =
    b"POST /providers/git/full HTTP/1.1\r\nHost: x\r\nContent-Length: 183\r\n\r\n{\"serial\":1,\"entities\":[{\"entity\":{\"apiVersion\":\"backstage.io/v1alpha1\",\"kind\":\"Component\",\"metadata\":{\"name\":\"web\"},\"spec\":{\"type\":\"service\",\"lifecycle\":\"production\",\"owner\":\"a\"}}}]}";

/// Asks for it.
const GET: &[u8] = b"GET /entities/by-name/component/default/web HTTP/1.1\r\nHost: x\r\n\r\n";

/// What the connections have in common.
#[derive(Drop)]
struct Scene {
    /// How many of them were read.
    came: AtomicU64,
    /// How many of them met the other.
    met: AtomicU64,
    /// Whether the Component was answered.
    found: AtomicBool,
    /// Whether its item was kept.
    kept: AtomicBool,
}

impl Scene {
    // A connection is read for the first time, and waits for the other one.
    fn meet(&self) {
        self.came.fetch_add(1, Ordering::SeqCst);
        for _ in 0..MOST_LOOKS {
            if self.came.load(Ordering::SeqCst) == 2 {
                self.met.fetch_add(1, Ordering::SeqCst);
                return;
            }
            yield_now();
        }
    }
}

/// What a connection sends: nothing, or a Component, which it asks for until it is answered.
#[derive(Drop)]
struct Asking<'a> {
    scene: &'a Scene,
    posts: bool,
    reads: u64,
}

impl<'a> Asking<'a> {
    // The next message, and nothing at the end.
    fn message(&mut self) -> &'static [u8] {
        let reads = self.reads;
        self.reads = reads.saturating_add(1);
        if reads == 0 {
            self.scene.meet();
        }
        if !self.posts || reads > MOST_ASKS || self.scene.found.load(Ordering::SeqCst) {
            return b"";
        }
        yield_now();
        if reads == 0 { POST } else { GET }
    }
}

impl<'a> Source for Asking<'a> {
    ghost use Rattle.std.specs.Prelude.{None};

    ghost left = { λ _. None };

    ghost faults = { λ _. 0 };

    fn read(&mut self, buffer: &mut [u8]) -> ReadAnswer {
        let message = self.message();
        if message.is_empty() || buffer.len() < message.len() {
            return ReadAnswer::End;
        }
        buffer[..message.len()].copy_from_slice(message);
        ReadAnswer::Read(message.len() as u64)
    }
}

/// What hears the replies to a connection, one a piece.
#[derive(Drop)]
struct Hearing<'a> {
    scene: &'a Scene,
    heard: bool,
}

impl<'a> Sink for Hearing<'a> {
    ghost use Rattle.std.specs.Prelude.{None};

    ghost written = { λ _. None };

    ghost faults = { λ _. 0 };

    fn write(&mut self, piece: &[u8]) -> WriteAnswer {
        if self.heard && piece.starts_with(b"HTTP/1.1 200 ") {
            self.scene.found.store(true, Ordering::SeqCst);
        }
        self.heard = true;
        WriteAnswer::Wrote(piece.len() as u64)
    }
}

impl<'a> PromptSource for Asking<'a> {}

impl<'a> PromptSink for Hearing<'a> {}

#[derive(Drop)]
struct Talk<'a> {
    source: Asking<'a>,
    sink: Hearing<'a>,
}

impl<'a> Connection for Talk<'a> {
    type Source = Asking<'a>;

    type Sink = Hearing<'a>;

    ghost source = { λ c. c.source };

    ghost sink = { λ c. c.sink };

    fn ends(self) -> (Asking<'a>, Hearing<'a>) {
        (self.source, self.sink)
    }
}

/// A keeper in memory that tells when the item of the Component is kept.
#[derive(Drop)]
struct Watched<'a> {
    keeper: MemoryKeeper,
    scene: &'a Scene,
}

// Whether a batch has the item of the Component.
fn has_item(batch: &Batch) -> bool {
    for at in 0..batch.len() {
        if let Some(((table, key), _)) = batch.at(at) {
            if *table == Table::Items && key.as_str() == "git component:default/web" {
                return true;
            }
        }
    }
    false
}

impl<'a> Keeper for Watched<'a> {
    ghost use Rattle.std.specs.Prelude.{None};

    ghost tables = { λ _ _. None };

    ghost faults = { λ _. 0 };

    fn load(&mut self, alloc: Global, place: &Place) -> Loaded {
        match self.keeper.load(alloc, place) {
            Loaded::Rows(rows) => Loaded::Rows(rows),
            Loaded::Failed | Loaded::NoMemory => Loaded::NoMemory,
        }
    }

    fn commit(&mut self, alloc: Global, batch: &Batch) -> Committed {
        match self.keeper.commit(alloc, batch) {
            Committed::Kept => {
                if has_item(batch) {
                    self.scene.kept.store(true, Ordering::SeqCst);
                }
                Committed::Kept
            }
            Committed::Failed | Committed::NoMemory => Committed::NoMemory,
        }
    }
}

/// Lets so many connections in, of which the last one sends nothing.
#[derive(Drop)]
struct Porch<'a> {
    scene: &'a Scene,
    left: u64,
}

impl<'a> Doors for Porch<'a> {
    type Conn = Talk<'a>;

    ghost use Rattle.std.specs.Prelude.{None};

    ghost faults = { λ _. 0 };

    ghost closed = { λ _. None };

    fn listen(&mut self, _address: &str) -> Listened {
        Listened::Ready
    }

    fn accept(&mut self) -> Accepted<Talk<'a>> {
        if self.left == 0 {
            return Accepted::Closed;
        }
        self.left -= 1;
        let scene = self.scene;
        Accepted::Conn(Talk {
            source: Asking {
                scene,
                posts: self.left > 0,
                reads: 0,
            },
            sink: Hearing {
                scene,
                heard: false,
            },
        })
    }
}

// The first reply is to the Component that is given, so that the one that is heard is to a question for it.
#[test]
fn a_connection_hears_what_workers_make(rt: HostRuntime) -> Result<(), Fail> {
    let alloc = rt.alloc();
    let scene = Scene {
        came: AtomicU64::new(0),
        met: AtomicU64::new(0),
        found: AtomicBool::new(false),
        kept: AtomicBool::new(false),
    };
    let mut sink = MemorySink::new(1, Vec::new(alloc));
    let mut doors = Porch {
        scene: &scene,
        left: 2,
    };
    let keeper = Watched {
        keeper: MemoryKeeper::new(Map::new(), Vec::new(alloc)),
        scene: &scene,
    };
    let serving = Serving {
        address: Text::of(alloc, "x")?,
        catalogue: CatalogueOptions {
            orphans: None,
            place: Some(Place::File(Text::of(alloc, "a.db")?)),
        },
        server: ServerOptions {
            workers: 1,
            connections: 2,
        },
    };
    let ended = run_server(
        &rt,
        alloc,
        serving,
        &mut sink,
        FixedClock::at(0),
        &mut doors,
        keeper,
    );
    assert_eq!(rt; ended.status, Status::Whole);
    assert_eq!(rt; scene.met.load(Ordering::SeqCst), 2);
    assert!(rt; scene.found.load(Ordering::SeqCst));
    assert!(rt; scene.kept.load(Ordering::SeqCst));
    Ok(())
}
