//! The connections that wait.

use crate::doors::Connection;
use crate::ends::{Watched, Wish};
use crate::patience::{LONGEST, LOOK, MOST_HELD};
use crate::visit::Visit;
use slab::Slab;
use std::alloc::Global;

/// The connections that wait, each under a number by which the doors tell when it may go on.
#[derive(Drop)]
pub(crate) struct Room<C: Connection> {
    visits: Slab<Visit<C>>,
    // The moment that the doors told last.
    told: u64,
    // How long it has been watched. Time in which nobody looked counts little, since what came meanwhile wasn't seen.
    moment: u64,
    // When it was last looked for connections that have waited too long.
    looked: u64,
    // How many bytes stand with all of them.
    held: usize,
}

impl<C: Connection> Room<C> {
    /// A room in which no connection waits. It takes no memory.
    pub(crate) fn new(alloc: Global) -> Room<C> {
        Room {
            visits: Slab::new(alloc),
            told: 0,
            moment: 0,
            looked: 0,
            held: 0,
        }
    }

    /// No connection waits.
    pub(crate) fn is_empty(&self) -> bool {
        self.visits.is_empty()
    }

    /// Lets a connection wait. It is given back where nobody tells when it may go on, and closed where the system has no memory for it.
    pub(crate) fn put(&mut self, mut visit: Visit<C>, wish: Wish) -> Option<Visit<C>> {
        visit.wait(wish, self.moment);
        let held = visit.held();
        let Ok(number) = self.visits.insert(visit) else {
            return None;
        };
        match self.watch(number, wish) {
            Watched::Told => {
                self.held = self.held.saturating_add(held);
                self.let_go();
                None
            }
            Watched::AtOnce => self.visits.try_remove(number),
            Watched::Refused => {
                let _closed = self.visits.try_remove(number);
                None
            }
        }
    }

    // Has the doors tell when a connection may go on.
    fn watch(&mut self, number: usize, wish: Wish) -> Watched {
        match self.visits.get_mut(number) {
            Some(visit) => visit.watch(number as u64, wish),
            None => Watched::Refused,
        }
    }

    /// The connection that waits under this number, if there is one. It waits no longer.
    pub(crate) fn take(&mut self, number: u64) -> Option<Visit<C>> {
        let visit = self.visits.try_remove(number as usize)?;
        self.held = self.held.saturating_sub(visit.held());
        Some(visit)
    }

    /// Time has passed. Connections that have waited too long are closed.
    pub(crate) fn pass(&mut self, moment: u64) {
        let passed = moment.saturating_sub(self.told).min(LONGEST);
        self.told = moment;
        self.moment = self.moment.saturating_add(passed);
        if self.moment.saturating_sub(self.looked) < LOOK {
            return;
        }
        self.looked = self.moment;
        for number in 0..self.visits.capacity() {
            if self.is_late(number) {
                let _closed = self.take(number as u64);
            }
        }
    }

    // The connection under this number has waited too long.
    fn is_late(&self, number: usize) -> bool {
        match self.visits.get(number) {
            Some(visit) => visit.waited(self.moment) > visit.stage().patience(),
            None => false,
        }
    }

    /// Closes the connection that has waited longest for a message, if one waits for one.
    pub(crate) fn give_way(&mut self) {
        let mut longest = None;
        let mut most = 0;
        for number in 0..self.visits.capacity() {
            if let Some(visit) = self.visits.get(number) {
                let waited = visit.waited(self.moment);
                if visit.stage().gives_way() && (longest.is_none() || waited > most) {
                    longest = Some(number);
                    most = waited;
                }
            }
        }
        if let Some(number) = longest {
            let _closed = self.take(number as u64);
        }
    }

    // Closes those that have waited longest with bytes, until no more bytes stand with all than may.
    fn let_go(&mut self) {
        for _ in 0..self.visits.capacity() {
            if self.held <= MOST_HELD {
                return;
            }
            match self.heaviest() {
                Some(number) => {
                    let _closed = self.take(number as u64);
                }
                None => return,
            }
        }
    }

    // The connection that has waited longest with bytes.
    fn heaviest(&self) -> Option<usize> {
        let mut longest = None;
        let mut most = 0;
        for number in 0..self.visits.capacity() {
            if let Some(visit) = self.visits.get(number) {
                let waited = visit.waited(self.moment);
                if visit.held() > 0 && (longest.is_none() || waited > most) {
                    longest = Some(number);
                    most = waited;
                }
            }
        }
        longest
    }
}
