//! The helpers beside each other.

ghost use Rattle.std.specs.Prelude.{◌≡◌, ◌≤◌};
ghost use Rattle.cat_listener.specs.Hall.{HasCause};
ghost use Rattle.cat_listener.specs.Helpers.{AreDone, HasDone, IsLed};

use crate::doors::{Connection, Doors};
use crate::ends::Wish;
use crate::hall::{Comes, Ended, Hall, Named};
use crate::helper::{Helper, Server, Worker};
use crate::room::Room;
use crate::running::Running;
use crate::turn::Turned;
use crate::visit::Visit;
use std::alloc::Global;
use std::marker::{Brand, PhantomData};
use std::sync::{Mutex, Wait};
use std::thread::{Threads, for_each_mut, yield_now};

/// How often a server looks for the next message of a connection that it has just answered, before that waits.
const MOST_LOOKS: u64 = 50;

// What helpers share: the doors, and the connections that wait.
#[derive(Drop)]
struct Floor<'a, D: Doors, N: Named> {
    alloc: Global,
    hall: Mutex<Hall<'a, D, N>>,
    room: Mutex<Room<D::Conn>>,
}

impl<'a, D: Doors, N: Named> Floor<'a, D, N> {
    // Doors that are lent, and no connection.
    fn over(alloc: Global, doors: &'a mut D) -> Floor<'a, D, N>
        requires name { doors.ghost_name ≡ N.doors }
        requires faults { D.faults doors.old ≡ N.faults }
    {
        let hall = Hall {
            doors,
            ended: None,
            named: PhantomData,
        };
        Floor {
            alloc,
            hall: Mutex::new(hall),
            room: Mutex::new(Room::new(alloc)),
        }
    }

    // The doors again. Connections that wait are closed.
    fn closed(self) -> Hall<'a, D, N> {
        let Floor {
            alloc: _,
            hall,
            room: _,
        } = self;
        hall.into_inner()
    }
}

// Looks for the connection that may go on next. `None` says that there was none.
fn look<D: Doors, N: Named, R: Wait>(
    rt: &R,
    floor: &Floor<D, N>,
) -> Option<Result<Visit<D::Conn>, Ended>> {
    let mut hall = floor.hall.lock(rt);
    let some_wait = !floor.room.lock(rt).is_empty();
    let next = hall.next(some_wait);
    let moment = hall.moment();
    let mut room = floor.room.lock(rt);
    room.pass(moment);
    match next {
        Ok(Comes::Conn(conn)) => Some(Ok(Visit::new(floor.alloc, conn))),
        Ok(Comes::Ready(number)) => Some(Ok(room.take(number)?)),
        Ok(Comes::Rest) => None,
        Ok(Comes::Short) => {
            room.give_way();
            None
        }
        Err(ended) => Some(Err(ended)),
    }
}

// The connection that may go on next, or why there is none. The doors are free again then.
fn admitted<D: Doors, N: Named, R: Wait>(
    rt: &R,
    floor: &Floor<D, N>,
) -> Result<Visit<D::Conn>, Ended> {
    for _ in rt.forever() {
        if let Some(found) = look(rt, floor) {
            return found;
        }
    }
    unreachable!()
}

// Throws away what comes after the last reply, so that its peer sees that reply. A connection that nobody tells of is closed at once.
fn said<D: Doors, N: Named, R: Wait>(rt: &R, floor: &Floor<D, N>, visit: Visit<D::Conn>) {
    let mut visit = visit;
    if !visit.is_said() {
        visit.finish();
    } else if !visit.throw_away() {
        return;
    }
    let _closed = floor.room.lock(rt).put(visit, Wish::Read);
}

// What comes of a connection after a turn. It is given back where it is to go on at once.
fn after<D: Doors, N: Named, R: Wait>(
    rt: &R,
    floor: &Floor<D, N>,
    visit: Visit<D::Conn>,
    turned: Turned,
) -> Option<Visit<D::Conn>> {
    match turned {
        Turned::Reads => floor.room.lock(rt).put(visit, Wish::Read),
        Turned::Writes => floor.room.lock(rt).put(visit, Wish::Write),
        Turned::Said => {
            said(rt, floor, visit);
            None
        }
        Turned::Ended => None,
    }
}

// Looks some times whether the next message of a connection comes.
#[tactic(auto, using(crate::proofs::Leading::led_nowhere))]
fn looks<S: Server, C: Connection, R: Wait>(rt: &R, server: &mut S, visit: &mut Visit<C>) -> Turned
    ensures { IsLed S.answers server.old server.new }
{
    let replies = visit.replies();
    for _ in 0..MOST_LOOKS {
        yield_now();
        match visit.turn(rt, server) {
            Turned::Reads if visit.replies() == replies => {}
            turned => return turned,
        }
    }
    Turned::Reads
}

// A turn of a connection, and more of them while messages come one soon after the other.
#[tactic(auto, using(crate::proofs::Leading::led_nowhere))]
fn turns<S: Server, C: Connection, R: Wait>(rt: &R, server: &mut S, visit: &mut Visit<C>) -> Turned
    ensures { IsLed S.answers server.old server.new }
{
    let mut replies = visit.replies();
    let mut turned = visit.turn(rt, server);
    for _ in rt.forever() {
        match turned {
            Turned::Reads if visit.replies() != replies => {}
            turned => return turned,
        }
        replies = visit.replies();
        turned = looks(rt, server, visit);
    }
    unreachable!()
}

// Serves a connection until it waits or has ended.
#[tactic(auto, using(crate::proofs::Leading::led_nowhere))]
fn serve_one<S: Server, D: Doors, N: Named, R: Wait>(
    rt: &R,
    floor: &Floor<D, N>,
    server: &mut S,
    visit: Visit<D::Conn>,
)
    ensures { IsLed S.answers server.old server.new }
{
    if visit.is_said() {
        return said(rt, floor, visit);
    }
    let mut next = Some(visit);
    for _ in rt.forever() {
        let Some(mut visit) = next else {
            return;
        };
        let turned = turns(rt, server, &mut visit);
        next = after(rt, floor, visit, turned);
    }
    unreachable!()
}

// Serves connections, until the doors let in no more and none waits.
#[tactic(auto, using(crate::proofs::Leading::led_nowhere))]
fn serve_each<S: Server, D: Doors, N: Named, R: Wait>(rt: &R, floor: &Floor<D, N>, server: &mut S)
    ensures { IsLed S.answers server.old server.new }
{
    for _ in rt.forever() {
        match admitted(rt, floor) {
            Ok(visit) => serve_one(rt, floor, server, visit),
            Err(_) => return,
        }
    }
    unreachable!()
}

// Does a helper's part to its end.
fn attend<S: Server, W: Worker, D: Doors, N: Named, R: Wait>(
    rt: &R,
    floor: &Floor<D, N>,
    running: &Running,
    helper: &mut Helper<S, W>,
)
    ensures { HasDone S.answers W.works helper.old helper.new }
{
    match helper {
        Helper::Serves(server) => {
            serve_each(rt, floor, server);
            running.end_one();
        }
        Helper::Works(worker) => worker.work(rt, running),
    }
}

// Why the doors let in no more. Connections that come before they say so are turned away: that is where no helper serves.
fn asked<D: Doors, N: Named, R: Wait>(rt: &R, hall: &mut Hall<D, N>) -> Ended
    ensures name { hall.new.doors.ghost_name ≡ hall.old.doors.ghost_name }
    ensures cause { HasCause result N.faults (D.faults hall.new.doors.now) (D.closed hall.new.doors.now) }
{
    for _ in rt.forever() {
        if let Err(ended) = hall.next(false) {
            return ended;
        }
    }
    unreachable!()
}

// The doors that were lent, and why they let in no more.
fn ending<'a, D: Doors, N: Named, R: Wait>(rt: &R, mut hall: Hall<'a, D, N>) -> (Ended, &'a mut D)
    ensures name { result.1.ghost_name ≡ N.doors }
    ensures later { N.faults ≤ D.faults result.1.now }
    ensures cause { HasCause result.0 N.faults (D.faults result.1.now) (D.closed result.1.now) }
{
    let ended = asked(rt, &mut hall);
    let Hall {
        doors,
        ended: _,
        named: _,
    } = hall;
    (ended, doors)
}

// Lends the doors to the helpers under a lock, and gives them back with what they said.
fn serve_under<
    'a,
    N: Named + Send + Sync,
    S: Server + Send,
    W: Worker + Send,
    D: Doors + Send,
    R: Threads + Wait + Sync,
>(rt: &R, alloc: Global, doors: &'a mut D, helpers: &mut [Helper<S, W>]) -> (Ended, &'a mut D)
    requires name { doors.ghost_name ≡ N.doors }
    requires faults { D.faults doors.old ≡ N.faults }
    ensures name { result.1.ghost_name ≡ doors.entry.ghost_name }
    ensures cause { HasCause result.0 (D.faults doors.old) (D.faults result.1.now) (D.closed result.1.now) }
    ensures later { D.faults doors.old ≤ D.faults result.1.now }
    ensures each { AreDone S.answers W.works helpers.old helpers.new }
{
    let floor: Floor<'a, D, N> = Floor::over(alloc, doors);
    let running = Running::new(helpers);
    let threads = helpers.len().max(1);
    for_each_mut(
        rt,
        helpers,
        threads,
        &|_, helper| attend(rt, &floor, &running, helper),
    );
    ending(rt, floor.closed())
}

/// Runs the helpers over doors that listen, each in a thread of its own where one can be made, until the doors let in no more, no connection waits
/// and each helper has ended. The servers are to stand before the workers: where no thread can be made, the helpers run in the order of the list.
///
/// A connection has a server only while it can go on: one that waits, for bytes or for room, has none, so that any number of them may be open. The
/// doors say why they let in no more, once, and are asked for new ones no further. A connection that fails ends alone.
pub fn serve<S: Server + Send, W: Worker + Send, D: Doors + Send, R: Threads + Wait + Sync>(
    rt: &R,
    alloc: Global,
    doors: &mut D,
    helpers: &mut [Helper<S, W>],
) -> Ended
    // It says that the doors have closed, or that they failed, only where they did.
    ensures cause { HasCause result (D.faults doors.old) (D.faults doors.new) (D.closed doors.new) }
    ensures later { D.faults doors.old ≤ D.faults doors.new }

    // Each server was led on by the turns of connections that it served, and each worker by its work.
    ensures each { AreDone S.answers W.works helpers.old helpers.new }
{
    let (ended, _doors) = serve_under::<Brand, S, W, D, R>(rt, alloc, doors, helpers);
    ended
}
