//! Servers and workers that end together.
ghost use Rattle.std.specs.Prelude.{⊤};

use cat_connection::Machine;
use cat_core::fault::CoreFault;
use cat_desk::command::Reply;
use cat_dispatcher::{Answering, Part, Working};
use cat_http::message::Message;
use cat_io::{MemorySink, MemorySource};
use cat_listener::{Ended, Helper, MemoryConn, MemoryDoors, serve};
use cat_model::types::{Order, StitchOrder};
use cat_workers::desk::WorkDesk;
use std::alloc::{AllocError, Global};
use std::test::Fail;

/// Answers each message with nothing, and counts them.
#[derive(Drop)]
struct Counter {
    alloc: Global,
    answered: u64,
}

impl Machine for Counter {
    ghost use Rattle.std.specs.Prelude.{⊤};

    ghost answers = { λ _ _ _ _. ⊤ };

    ghost lacks = { λ _ _ _. ⊤ };

    fn answer(&mut self, _message: &Message) -> Result<Vec<u8>, AllocError> {
        self.answered = self.answered.saturating_add(1);
        Ok(Vec::new(self.alloc))
    }
}

/// A desk at which nothing is ever due. It counts its takes.
#[derive(Drop)]
struct Idle {
    takes: u64,
}

impl WorkDesk<()> for Idle {
    ghost use Rattle.std.specs.Prelude.{⊤};

    ghost acts = { λ _ _ _ _. ⊤ };

    fn take(&mut self, _alloc: Global) -> Reply {
        self.takes = self.takes.saturating_add(1);
        Reply::Taken(None)
    }

    fn finish(
        &mut self,
        _alloc: Global,
        _layers: &(),
        _order: &Order,
    ) -> Result<Reply, AllocError> {
        Ok(Reply::Refused(CoreFault::NotFound))
    }

    fn take_stitch(&mut self, _alloc: Global, _after: u64) -> Reply {
        self.takes = self.takes.saturating_add(1);
        Reply::StitchTaken(None)
    }

    fn put_stitch(
        &mut self,
        _alloc: Global,
        _layers: &(),
        _order: &StitchOrder,
    ) -> Result<Reply, AllocError> {
        Ok(Reply::Refused(CoreFault::NotFound))
    }
}

// A connection with two messages.
fn connection(alloc: Global) -> Result<MemoryConn, AllocError> {
    let input = b"GET /a HTTP/1.1\r\nHost: x\r\n\r\nGET /b HTTP/1.0\n\n".to_vec(alloc)?;
    Ok(MemoryConn {
        source: MemorySource::new(input, 7, Vec::new(alloc)),
        sink: MemorySink::new(9, Vec::new(alloc)),
    })
}

// Doors with three connections.
fn doors(alloc: Global) -> Result<MemoryDoors, AllocError> {
    let mut conns = Vec::new(alloc);
    for _ in 0..3 {
        conns.push(connection(alloc)?)?;
    }
    Ok(MemoryDoors::new(conns, Vec::new(alloc)))
}

type Helpers<'a> = Vec<Helper<Answering<Counter>, Working<'a, (), Idle>>>;

// Two servers, and a worker for orders and one for documents.
fn helpers<'a>(alloc: Global, layers: &'a ()) -> Result<Helpers<'a>, AllocError> {
    let mut helpers = Vec::new(alloc);
    for _ in 0..2 {
        helpers.push(Helper::Serves(Answering::new(alloc, Counter { alloc, answered: 0 })))?;
    }
    for part in [Part::Orders, Part::Documents] {
        helpers.push(Helper::Works(Working::new(alloc, layers, Idle { takes: 0 }, part)))?;
    }
    Ok(helpers)
}

#[test]
fn workers_end_once_the_servers_have(rt: HostRuntime) -> Result<(), Fail> {
    let alloc = rt.alloc();
    let mut doors = doors(alloc)?;
    let layers = ();
    let mut helpers = helpers(alloc, &layers)?;
    assert_eq!(rt;
        serve(&rt, alloc, &mut doors, helpers.as_mut_slice()),
        Ended::Closed
    );
    let mut answered = 0u64;
    for helper in helpers.iter() {
        match helper {
            Helper::Serves(server) => answered = answered.saturating_add(server.machine().answered),
            Helper::Works(worker) => assert!(rt; worker.desk().takes > 0),
        }
    }
    assert_eq!(rt; answered, 6);
    Ok(())
}
