//! Passes that are given out and come back.
ghost use Rattle.std.specs.Prelude.{◌≡◌, IfSome};

use cat_turns::{Closing, Pass, Turns};
use std::alloc::Global;
use std::sync::Wait;

// How many passes are out and drawn where no seat is free.
fn refused<R: Wait>(rt: &R, turns: &Turns<u64>, first: &mut Pass<u64>) -> Option<[u64; 2]>
    requires { first.old.turns ≡ turns.now.id }
    ensures { first.new.turns ≡ first.old.turns }
{
    match turns.split(rt, first) {
        Ok(_third) => None,
        Err(full) => Some([full.out, full.drawn]),
    }
}

// The number of the pass that takes the other seat, what is told of a third one, and the pass that takes the seat once the second came back.
fn reseated<R: Wait>(
    rt: &R,
    turns: &Turns<u64>,
    first: &mut Pass<u64>,
) -> Option<((u64, Option<[u64; 2]>), Pass<u64>)>
    requires { first.old.turns ≡ turns.now.id }
    ensures same { first.new.turns ≡ first.old.turns }
    ensures third { IfSome result (λ r. r.1.turns ≡ turns.now.id) }
{
    let Ok(second) = turns.split(rt, first) else {
        return None;
    };
    let told = (second.number(), refused(rt, turns, first));
    turns.join(rt, first, second);
    match turns.split(rt, first) {
        Ok(third) => Some((told, third)),
        Err(_full) => None,
    }
}

// How many passes are out at a close under two of them, and the value after one that is of the last.
fn closed<R: Wait>(
    rt: &R,
    turns: Turns<u64>,
    first: Pass<u64>,
    third: Pass<u64>,
) -> Option<[u64; 2]>
    requires first { first.turns ≡ turns.id }
    requires third { third.turns ≡ turns.id }
{
    let Closing::Others(turns, mut first, out) = turns.close(rt, first) else {
        return None;
    };
    turns.join(rt, &mut first, third);
    match turns.close(rt, first) {
        Closing::Value(value) => Some([out, value]),
        Closing::Others(..) => None,
    }
}

// The numbers of three passes, what is told where no seat is free, and what two closes come to.
fn told<R: Wait>(rt: &R, alloc: Global) -> Option<([u64; 3], Option<[u64; 2]>, [u64; 2])> {
    let Ok((turns, mut first)) = Turns::new(alloc, 0u64, 2) else {
        return None;
    };
    let number = first.number();
    let ((second, full), third) = reseated(rt, &turns, &mut first)?;
    let numbers = [number, second, third.number()];
    Some((numbers, full, closed(rt, turns, first, third)?))
}

#[test]
fn seats_are_given_out_and_come_back(rt: HostRuntime) {
    assert_eq!(rt;
        told(&rt, rt.alloc()),
        Some(([0, 1, 2], Some([2, 2]), [2, 0]))
    );
}
