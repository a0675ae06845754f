//! Workers at a desk that lacks memory at times.
use cat_collections::listing::Listing;
use cat_core::fault::CoreFault;
use cat_desk::command::Reply;
use cat_model::types::{Finished, Order, Placed, StitchOrder};
use cat_tree::tree::Tree;
use cat_types::node::Node;
use cat_types::parts::Parts;
use cat_types::reference::{Ref, parse};
use cat_types::work::Work;
use cat_workers::desk::WorkDesk;
use cat_workers::gate::{Gate, GateCall, Go};
use cat_workers::stitch::stitch_loop;
use cat_workers::work::work_loop;
use std::alloc::{AllocError, Global};
use std::cell::Cell;
use std::test::Fail;

fn reference(alloc: Global) -> Result<Ref, AllocError> {
    match parse(alloc, "component:default/web", None, "default") {
        Ok(reference) => Ok(reference),
        Err(_) => Err(AllocError),
    }
}

fn order(alloc: Global, token: u64) -> Result<Order, AllocError> {
    Ok(Order {
        reference: reference(alloc)?,
        token,
        work: Work {
            tree: Node::new(alloc, Tree::Null)?,
            contents: Listing::new(alloc),
        },
    })
}

fn stitch_order(alloc: Global, ticket: u64) -> Result<StitchOrder, AllocError> {
    Ok(StitchOrder {
        reference: reference(alloc)?,
        ticket,
        parts: Parts {
            entity: Node::new(alloc, Tree::Null)?,
            number: 1,
            orphan: false,
            relations: Listing::new(alloc),
            issues: Listing::new(alloc),
        },
    })
}

/// Layers that lack memory so often.
#[derive(Drop)]
struct Scarce {
    lacks: Cell<u64>,
}

impl Scarce {
    fn new(lacks: u64) -> Scarce {
        Scarce {
            lacks: Cell::new(lacks),
        }
    }

    fn work(&self) -> Result<(), AllocError> {
        let lacks = self.lacks.get();
        self.lacks.set(lacks.saturating_sub(1));
        if lacks == 0 { Ok(()) } else { Err(AllocError) }
    }
}

/// Tokens or tickets that wait, and those that came back.
#[derive(Drop)]
struct Tray {
    waiting: Vec<u64>,
    back: Vec<u64>,
}

impl Tray {
    fn new(alloc: Global, waiting: &[u64]) -> Result<Tray, AllocError> {
        Ok(Tray {
            waiting: waiting.to_vec(alloc)?,
            back: Vec::new(alloc),
        })
    }
}

/// The least of the numbers above this one, or 0.
fn least_above(numbers: &[u64], after: u64) -> u64 {
    let mut least = 0;
    for number in numbers {
        if *number > after && (least == 0 || *number < least) {
            least = *number;
        }
    }
    least
}

impl WorkDesk<Scarce> for Tray {
    ghost acts = { λ _ _ _ _. Unit {0} };

    fn take(&mut self, alloc: Global) -> Reply {
        let Some(token) = self.waiting.pop() else {
            return Reply::Taken(None);
        };
        match order(alloc, token) {
            Ok(order) => Reply::Taken(Some(order)),
            Err(_) => Reply::Refused(CoreFault::NoMemory),
        }
    }

    fn finish(
        &mut self,
        _alloc: Global,
        layers: &Scarce,
        order: &Order,
    ) -> Result<Reply, AllocError> {
        layers.work()?;
        match self.back.push(order.token) {
            Ok(()) => Ok(Reply::Finished(Finished::Good)),
            Err(_) => Ok(Reply::Refused(CoreFault::NoMemory)),
        }
    }

    fn take_stitch(&mut self, alloc: Global, after: u64) -> Reply {
        let ticket = least_above(&self.waiting, after);
        if ticket == 0 {
            return Reply::StitchTaken(None);
        }
        match stitch_order(alloc, ticket) {
            Ok(order) => Reply::StitchTaken(Some(order)),
            Err(_) => Reply::Refused(CoreFault::NoMemory),
        }
    }

    fn put_stitch(
        &mut self,
        _alloc: Global,
        layers: &Scarce,
        order: &StitchOrder,
    ) -> Result<Reply, AllocError> {
        layers.work()?;
        if self.back.push(order.ticket).is_err() {
            return Ok(Reply::Refused(CoreFault::NoMemory));
        }
        self.waiting.retain(|ticket| *ticket != order.ticket);
        Ok(Reply::Placed(Placed::Counted))
    }
}

/// A gate that stops a worker when it was idle so often, and counts its calls.
#[derive(Drop)]
struct Watch {
    calls: Cell<u64>,
    left: Cell<u64>,
}

impl Watch {
    fn new(left: u64) -> Watch {
        Watch {
            calls: Cell::new(0),
            left: Cell::new(left),
        }
    }
}

impl Gate for Watch {
    ghost told = { λ _ _. Unit {0} };

    ghost said = { λ _ _. Unit {0} };

    fn before(&self, _call: GateCall) {
        self.calls.set(self.calls.get().saturating_add(1));
    }

    fn idle(&self) -> Go {
        let left = self.left.get().saturating_sub(1);
        self.left.set(left);
        if left == 0 { Go::Stop } else { Go::On }
    }
}

#[test]
fn results_come_back(rt: HostRuntime) -> Result<(), Fail> {
    let alloc = rt.alloc();
    // What waits, how often memory lacks, what comes back, and the calls up to the second idle round.
    let cases: [(&[u64], u64, &[u64], u64); 3] = [
        (&[], 0, &[], 2),
        (&[2, 1], 0, &[1, 2], 6),
        (&[2, 1], 1, &[2], 5),
    ];
    for (waiting, lacks, back, calls) in cases.iter() {
        let mut tray = Tray::new(alloc, waiting)?;
        let (layers, gate) = (Scarce::new(*lacks), Watch::new(2));
        work_loop(&rt, alloc, &layers, &mut tray, &gate);
        assert_eq!(rt; tray.back.as_slice(), *back);
        assert_eq!(rt; gate.calls.get(), *calls);
    }
    Ok(())
}

#[test]
fn marks_are_gone_round(rt: HostRuntime) -> Result<(), Fail> {
    let alloc = rt.alloc();
    // What waits, how often memory lacks, what comes back, and the calls up to the second idle round.
    let cases: [(&[u64], u64, &[u64], u64); 3] = [
        (&[], 0, &[], 2),
        (&[3, 5], 0, &[3, 5], 7),
        (&[3, 5], 1, &[5, 3], 9),
    ];
    for (waiting, lacks, back, calls) in cases.iter() {
        let mut tray = Tray::new(alloc, waiting)?;
        let (layers, gate) = (Scarce::new(*lacks), Watch::new(2));
        stitch_loop(&rt, alloc, &layers, &mut tray, &gate);
        assert_eq!(rt; tray.back.as_slice(), *back);
        assert_eq!(rt; gate.calls.get(), *calls);
    }
    Ok(())
}
