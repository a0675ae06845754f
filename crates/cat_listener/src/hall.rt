//! Doors that several helpers share under a lock.

ghost use Rattle.std.specs.Prelude.{◌≡◌, ℕ, ◌≤◌, IfErr};
ghost use Rattle.std.specs.Borrow.{GName};
ghost use Rattle.std.specs.declared.option.Option.TheVariants.{Some};
ghost use Rattle.cat_io.specs.Causes.{Rose};
ghost use Rattle.cat_listener.specs.Doors.{HaveClosed};
ghost use Rattle.cat_listener.specs.declared.hall.Ended.TheVariants.{Closed, Failed};
ghost use Rattle.cat_listener.specs.Hall.{HasCause};

use crate::doors::{Accepted, Doors};
use std::marker::{Brand, PhantomData};

/// Why the doors let in no more connections.
#[derive(Clone, Copy, Debug, Drop, PartialEq, Eq)]
pub enum Ended {
    /// They have closed.
    Closed,
    /// They failed.
    Failed,
}

/// What comes to be served next.
#[derive(Drop)]
pub enum Comes<T> {
    /// A connection came.
    Conn(T),
    /// The connection that waits under this number may go on.
    Ready(u64),
    /// Nothing came for a while.
    Rest,
    /// The system has no file or no memory for a connection that came.
    Short,
}

/// Which doors are shared, and what their count of faults was. Each sharing picks both.
pub trait Named {
    ghost doors: { GName };

    ghost faults: { ℕ };
}

/// Doors that are lent, and why they let in no more, once they have said it. Its type keeps which doors they are, that their count of
/// faults hasn't fallen, and that what they said has its cause.
#[derive(Drop)]
pub struct Hall<'a, D: Doors, N: Named> {
    /// The doors.
    pub doors: &'a mut D,
    /// Why they let in no more, once they have said it.
    pub ended: Option<Ended>,
    /// Which doors they are.
    pub named: PhantomData<N>,
    ghost same: { doors.ghost_name ≡ N.doors },
    ghost later: { N.faults ≤ D.faults doors.now },
    ghost failed: { ended ≡ Some Failed → Rose N.faults (D.faults doors.now) },
    ghost closed: { ended ≡ Some Closed → HaveClosed (D.closed doors.now) },
}

impl<'a, D: Doors, N: Named> Hall<'a, D, N> {
    /// What comes next, or why nothing does. Doors that have said that they let in no more are asked only for the connections that wait, where
    /// some do and the doors haven't failed.
    pub fn next(&mut self, some_wait: bool) -> Result<Comes<D::Conn>, Ended>
        ensures name { self.new.doors.ghost_name ≡ self.old.doors.ghost_name }
        ensures cause { IfErr result (λ ended. HasCause ended N.faults (D.faults self.new.doors.now) (D.closed self.new.doors.now)) }
    {
        if let Some(ended) = self.ended {
            return self.after_end(ended, some_wait);
        }
        match self.doors.accept() {
            Accepted::Conn(conn) => Ok(Comes::Conn(conn)),
            Accepted::Ready(number) => Ok(Comes::Ready(number)),
            Accepted::Rest => Ok(Comes::Rest),
            Accepted::Short => Ok(Comes::Short),
            Accepted::Closed => {
                self.ended = Some(Ended::Closed);
                Err(Ended::Closed)
            }
            Accepted::Failed => {
                self.ended = Some(Ended::Failed);
                Err(Ended::Failed)
            }
        }
    }

    // What comes of doors that have said that they let in no more.
    fn after_end(&mut self, ended: Ended, some_wait: bool) -> Result<Comes<D::Conn>, Ended>
        requires { self.old.ended ≡ Some ended }
        ensures name { self.new.doors.ghost_name ≡ self.old.doors.ghost_name }
        ensures cause { IfErr result (λ ended. HasCause ended N.faults (D.faults self.new.doors.now) (D.closed self.new.doors.now)) }
    {
        match ended {
            Ended::Closed if some_wait => Ok(self.wait()),
            _ => Err(ended),
        }
    }

    // One of those that wait.
    fn wait(&mut self) -> Comes<D::Conn>
        ensures name { self.new.doors.ghost_name ≡ self.old.doors.ghost_name }
    {
        match self.doors.wait() {
            Some(number) => Comes::Ready(number),
            None => Comes::Rest,
        }
    }

    /// The moment of the doors.
    pub fn moment(&mut self) -> u64
        ensures name { self.new.doors.ghost_name ≡ self.old.doors.ghost_name }
    {
        self.doors.moment()
    }
}

impl Named for Brand {
    ghost doors = { 0 };

    ghost faults = { 0 };
}
