//! The helpers of a server over one book.
ghost use Rattle.std.specs.Prelude.{◌≡◌, ◌<◌, ◌≤◌, IfOk, OnErr};
ghost use Rattle.cat_listener.specs.Hall.{HasCause};
ghost use Rattle.cat_model.specs.Sound.{Sound};

use crate::answering::Answering;
use crate::share::Share;
use crate::working::{Part, Working};
use cat_api::service::Service;
use cat_core::catalogue::{Done, Stitched};
use cat_desk::timed_desk::TimedDesk;
use cat_history::Limits;
use cat_listener::{Doors, Ended, Helper, serve};
use cat_plan::layers::Layers;
use cat_shared::book::{Book, Named};
use cat_shared::shared::SharedDesk;
use cat_turns::{Pass, Turns};
use std::alloc::{AllocError, Global};
use std::marker::Brand;
use std::sync::Wait;
use std::thread::Threads;

// How much of a book's journal is kept: so many entries, and of what was given so many bytes of text.
const HISTORY: Limits = Limits {
    entries: 100_000,
    weight: 1 << 23,
};

/// How many serve and work at once.
#[derive(Clone, Copy, Debug, PartialEq, Eq)]
pub struct Crew {
    /// How many connections are answered at once. Those that wait aren't counted.
    pub connections: u64,
    /// How many pairs of workers there are: one of each pair works orders, and the other one documents.
    pub workers: u64,
}

impl Crew {
    // How many helpers that are.
    fn helpers(self) -> u64
        ensures { 0 < self.connections → 0 < result }
    {
        self.connections
            .saturating_add(self.workers.saturating_mul(2))
    }
}

/// A server that answers messages at its share of a book.
type ShareServer<'a, L, B, N, R> = Answering<
    Service<Done<'a, L>, Stitched<'a, L>, SharedDesk<'a, L, B, N, R>>,
>;

/// A worker at its share of a book.
type ShareWorker<'a, L, B, N, R> = Working<'a, L, Share<'a, L, B, N, R>>;

// Shares of a book, as many as this where so many seats are free. The last one is that of the given pass.
fn shares<'a, L: Layers + Drop, B: TimedDesk<L> + Drop, N: Named, R: Wait>(
    rt: &'a R,
    alloc: Global,
    turns: &'a Turns<Book<L, B, N>>,
    pass: Pass<Book<L, B, N>>,
    count: u64,
) -> Result<Vec<SharedDesk<'a, L, B, N, R>>, AllocError>
    requires own { pass.turns ≡ turns.now.id }
{
    let mut own = pass;
    let mut shares = Vec::new(alloc);
    for _ in 1..count {
        if let Ok(other) = turns.split(rt, &mut own) {
            shares.push(SharedDesk::over(rt, turns, other))?;
        }
    }
    shares.push(SharedDesk::over(rt, turns, own))?;
    Ok(shares)
}

// What the helper at a place of the list does at its share.
fn helper<'a, L: Layers + Drop, B: TimedDesk<L> + Drop, N: Named, R: Wait>(
    alloc: Global,
    layers: &'a L,
    crew: Crew,
    place: u64,
    desk: SharedDesk<'a, L, B, N, R>,
) -> Helper<ShareServer<'a, L, B, N, R>, ShareWorker<'a, L, B, N, R>> {
    if place < crew.connections {
        return Helper::Serves(Answering::new(alloc, Service::new(alloc, desk)));
    }
    let part = if (place - crew.connections) % 2 == 0 {
        Part::Orders
    } else {
        Part::Documents
    };
    Helper::Works(Working::new(alloc, layers, Share::over(desk), part))
}

// Helpers over these shares: servers first, then workers of orders and of documents in turn.
fn helpers<'a, L: Layers + Drop, B: TimedDesk<L> + Drop, N: Named, R: Wait>(
    alloc: Global,
    layers: &'a L,
    crew: Crew,
    shares: Vec<SharedDesk<'a, L, B, N, R>>,
) -> Result<Vec<Helper<ShareServer<'a, L, B, N, R>, ShareWorker<'a, L, B, N, R>>>, AllocError> {
    let mut left = shares;
    let mut helpers = Vec::new(alloc);
    for place in 0..crew.helpers() {
        if let Some(desk) = left.pop() {
            helpers.push(helper(alloc, layers, crew, place, desk))?;
        }
    }
    Ok(helpers)
}

// Runs the helpers over a book of the catalogue.
fn host_under<
    N: Named + Send + Sync,
    L: Layers + Send + Sync + Drop,
    B: TimedDesk<L> + Drop + Send,
    D: Doors + Send,
    R: Threads + Wait + Sync,
>(
    rt: &R,
    alloc: Global,
    layers: &L,
    crew: Crew,
    desk: B,
    doors: &mut D,
) -> Result<Ended, AllocError>
    requires crew { 0 < crew.connections }
    requires settings { (B.ledger desk).settings ≡ N.settings }
    requires opening { (B.ledger desk).state ≡ N.opening }
    requires faults { B.faults desk ≡ N.faults }
    requires sound { Sound L.rules (B.ledger desk).state }
    ensures cause { IfOk result (λ ended. HasCause ended (D.faults doors.old) (D.faults doors.new) (D.closed doors.new)) }
    ensures later { D.faults doors.old ≤ D.faults doors.new }
    ensures memory { OnErr result (doors.new ≡ doors.old) }
{
    let book: Book<L, B, N> = Book::new(alloc, desk, HISTORY);
    let Ok((turns, pass)) = Turns::new(alloc, book, crew.helpers()) else {
        return Err(AllocError);
    };
    let shares = shares(rt, alloc, &turns, pass, crew.helpers())?;
    let mut helpers = helpers(alloc, layers, crew, shares)?;
    Ok(serve(rt, alloc, doors, helpers.as_mut_slice()))
}

/// Serves a catalogue over doors that listen, until they let in no more: so many connections are answered at once, and so many pairs of workers run
/// beside them, all over one book. Orders are worked by `layers`, while others have the book. A catalogue that a store keeps is one whose changes are kept
/// before they are answered.
///
/// The only error is want of memory for the book and the helpers; no connection was let in then. A connection that fails ends alone.
pub fn host<
    L: Layers + Send + Sync + Drop,
    B: TimedDesk<L> + Drop + Send,
    D: Doors + Send,
    R: Threads + Wait + Sync,
>(
    rt: &R,
    alloc: Global,
    layers: &L,
    crew: Crew,
    desk: B,
    doors: &mut D,
) -> Result<Ended, AllocError>
    requires crew { 0 < crew.connections }

    // What must hold between two events holds of the catalogue.
    requires sound { Sound L.rules (B.ledger desk).state }

    // It says that the doors have closed, or that they failed, only where they did.
    ensures cause { IfOk result (λ ended. HasCause ended (D.faults doors.old) (D.faults doors.new) (D.closed doors.new)) }
    ensures later { D.faults doors.old ≤ D.faults doors.new }
    ensures memory { OnErr result (doors.new ≡ doors.old) }
{
    host_under::<Brand, L, B, D, R>(rt, alloc, layers, crew, desk, doors)
}
