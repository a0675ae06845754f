//! Doors that close after so many connections.

ghost use Rattle.std.specs.Prelude.{◌≡◌, ◌≤◌, ◌-◌};
ghost use Rattle.cat_io.specs.Causes.{Rose};
ghost use Rattle.cat_listener.specs.Counted.{closed_by, IsCountedOff};
ghost use Rattle.cat_listener.specs.Doors.{Admits, HasFailed, StayClosed};

use crate::doors::{Accepted, Doors, Listened};

/// Doors over other doors. They have closed once so many connections came, or where the other doors have.
#[derive(Drop)]
pub struct CountedDoors<D: Doors + Drop> {
    doors: D,
    left: u64,
}

impl<D: Doors + Drop> CountedDoors<D> {
    /// Doors that close after `left` connections. They take no memory.
    pub fn new(doors: D, left: u64) -> CountedDoors<D>
        ensures { result ≡ record { doors = doors; left = left } }
    {
        CountedDoors { doors, left }
    }
}

impl<D: Doors + Drop> Doors for CountedDoors<D> {
    type Conn = D::Conn;

    ghost faults = { λ d. D.faults d.doors };

    ghost closed = { λ d. closed_by d.left (D.closed d.doors) };

    fn listen(&mut self, address: &str) -> Listened
        ensures later { D.faults self.old.doors ≤ D.faults self.new.doors }
        ensures cause { result ≡ Listened.Failed → Rose (D.faults self.old.doors) (D.faults self.new.doors) }
        ensures stay { StayClosed (closed_by self.old.left (D.closed self.old.doors)) (closed_by self.new.left (D.closed self.new.doors)) }
        ensures same { self.new.left ≡ self.old.left }
    {
        self.doors.listen(address)
    }

    fn accept(&mut self) -> Accepted<D::Conn>
        ensures admits { Admits (closed_by self.old.left (D.closed self.old.doors)) (closed_by self.new.left (D.closed self.new.doors)) result }
        ensures later { D.faults self.old.doors ≤ D.faults self.new.doors }
        ensures cause { HasFailed result → Rose (D.faults self.old.doors) (D.faults self.new.doors) }
        ensures stay { StayClosed (closed_by self.old.left (D.closed self.old.doors)) (closed_by self.new.left (D.closed self.new.doors)) }
        // Each connection is counted, and nothing else.
        ensures counts { IsCountedOff result self.old.left self.new.left }
    {
        if self.left == 0 {
            return Accepted::Closed;
        }
        let accepted = self.doors.accept();
        if let Accepted::Conn(_) = &accepted {
            self.left -= 1;
        }
        accepted
    }

    fn wait(&mut self) -> Option<u64>
        ensures later { D.faults self.old.doors ≤ D.faults self.new.doors }
        ensures same { closed_by self.new.left (D.closed self.new.doors) ≡ closed_by self.old.left (D.closed self.old.doors) }
        ensures left { self.new.left ≡ self.old.left }
    {
        self.doors.wait()
    }

    fn moment(&mut self) -> u64
        ensures later { D.faults self.old.doors ≤ D.faults self.new.doors }
        ensures same { closed_by self.new.left (D.closed self.new.doors) ≡ closed_by self.old.left (D.closed self.old.doors) }
        ensures left { self.new.left ≡ self.old.left }
    {
        self.doors.moment()
    }
}
