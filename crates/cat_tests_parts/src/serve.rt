//! Servers beside each other, and a worker beside them.
ghost use Rattle.std.specs.Prelude.{⊤};

use crate::doors::in_memory;
use cat_listener::{Ended, Helper, MemoryDoors, Part, Running, Server, Step, Text, Worker, serve};
use std::alloc::{AllocError, Global};
use std::sync::Wait;
use std::sync::atomic::{AtomicU64, Ordering};
use std::thread::{Threads, yield_now};

/// How often a server looks for another one before it gives up.
const MOST_LOOKS: u64 = 1_000_000;

/// Greets each connection once its byte has come, and counts them. It tells each to all, and waits for others to be told.
#[derive(Drop)]
struct Greeter<'a> {
    greeted: u64,
    came: &'a AtomicU64,
    awaited: u64,
    met: bool,
}

impl<'a> Greeter<'a> {
    // So many connections have come, over all servers, before the looks are used up.
    fn meets(&self) -> bool {
        for _ in 0..MOST_LOOKS {
            if self.awaited <= self.came.load(Ordering::SeqCst) {
                return true;
            }
            yield_now();
        }
        false
    }
}

impl<'a> Server for Greeter<'a> {
    ghost use Rattle.std.specs.Prelude.{⊤};

    ghost answers = { λ _ _ _ _. ⊤ };

    fn answer(&mut self, bytes: &[u8]) -> Step {
        if bytes.is_empty() {
            return Step::More(0, Part::Head);
        }
        self.came.fetch_add(1, Ordering::SeqCst);
        if !self.meets() {
            self.met = false;
        }
        self.greeted = self.greeted.saturating_add(1);
        Step::Last(Text::Fixed(b"!"))
    }
}

/// Rests until no server runs.
#[derive(Drop)]
struct Idler {
    ended: bool,
}

impl Worker for Idler {
    ghost use Rattle.std.specs.Prelude.{⊤};

    ghost works = { λ _ _. ⊤ };

    fn work<R: Wait>(&mut self, rt: &R, running: &Running) {
        for _ in rt.forever() {
            if !running.rests(rt) {
                self.ended = true;
                return;
            }
        }
    }
}

type Helpers<'a> = Vec<Helper<Greeter<'a>, Idler>>;

/// Puts so many servers behind the helpers so far, each of which waits until so many connections have come.
fn push_greeters<'a>(
    helpers: &mut Helpers<'a>,
    came: &'a AtomicU64,
    count: u64,
    awaited: u64,
) -> Result<(), AllocError> {
    for _ in 0..count {
        helpers.push(Helper::Serves(Greeter {
            greeted: 0,
            came,
            awaited,
            met: true,
        }))?;
    }
    Ok(())
}

/// How many connections the servers greeted, if none waited in vain and each idler has ended.
fn greeted(helpers: &[Helper<Greeter<'_>, Idler>]) -> Option<u64> {
    let mut greeted = 0u64;
    for helper in helpers.iter() {
        match helper {
            Helper::Serves(greeter) if greeter.met => greeted = greeted.saturating_add(
                greeter.greeted,
            ),
            Helper::Works(idler) if idler.ended => {}
            _ => return None,
        }
    }
    Some(greeted)
}

/// Why no more connections came in, and how many were greeted, where so many servers wait for so many connections, beside one that rests.
fn served<R: Threads + Wait + Sync>(
    rt: &R,
    alloc: Global,
    doors: &mut MemoryDoors,
    servers: u64,
    awaited: u64,
) -> Result<(Ended, Option<u64>), AllocError> {
    let came = AtomicU64::new(0);
    let mut helpers = Vec::new(alloc);
    push_greeters(&mut helpers, &came, servers, awaited)?;
    helpers.push(Helper::Works(Idler { ended: false }))?;
    let ended = serve(rt, alloc, doors, helpers.as_mut_slice());
    Ok((ended, greeted(helpers.as_slice())))
}

/// The same over doors in memory with a connection for each of these bytes, of which one accept fails.
fn served_in_memory<R: Threads + Wait + Sync>(
    rt: &R,
    alloc: Global,
    bytes: &[u8],
    failing: u64,
    servers: u64,
    awaited: u64,
) -> Result<(Ended, Option<u64>), AllocError> {
    let mut doors = in_memory(alloc, bytes, failing)?;
    served(rt, alloc, &mut doors, servers, awaited)
}

/// The connections, the accept that fails, how many servers there are, for how many connections each waits, why no more came in, and how many were
/// greeted. In the last row servers run beside each other: each waits for the other's connection.
const CASES: [(&[u8], u64, u64, u64, Ended, u64); 6] = [
    (b"", 0, 1, 0, Ended::Closed, 0),
    (b"abc", 0, 1, 0, Ended::Closed, 3),
    (b"abcde", 0, 3, 0, Ended::Closed, 5),
    (b"abc", 3, 2, 0, Ended::Failed, 2),
    (b"abc", 0, 0, 0, Ended::Closed, 0),
    (b"ab", 0, 2, 2, Ended::Closed, 2),
];

#[test]
fn each_connection_is_served_once(rt: HostRuntime) -> Result<(), AllocError> {
    for (bytes, failing, servers, awaited, ended, count) in CASES.iter() {
        assert_eq!(rt;
            served_in_memory(&rt, rt.alloc(), bytes, *failing, *servers, *awaited)?,
            (*ended, Some(*count))
        );
    }
    Ok(())
}
