//! Threads that count one number beside each other: in turns, or under a lock.
ghost use Rattle.std.specs.Prelude.{◌≡◌};

use cat_turns::{Pass, Turns};
use std::alloc::{AllocError, Global};
use std::sync::{Mutex, Wait};
use std::thread::{Threads, for_each_mut};

/// A seat at the turns of a number.
#[derive(Drop)]
struct Counter<'a, R: Wait> {
    rt: &'a R,
    turns: &'a Turns<u64>,
    pass: Pass<u64>,
    ghost own: { pass.turns ≡ turns.now.id },
}

impl<'a, R: Wait> Counter<'a, R> {
    // Counts on, so many times, each at a turn of its own.
    fn count(&mut self, acts: u64) {
        for _ in 0..acts {
            self.turns.act(self.rt, &mut self.pass, |number: &mut u64| {
                *number = number.wrapping_add(1);
            });
        }
    }
}

// So many counters, as far as there are seats.
fn counters<'a, R: Wait>(
    rt: &'a R,
    alloc: Global,
    turns: &'a Turns<u64>,
    pass: Pass<u64>,
    threads: usize,
) -> Result<Vec<Counter<'a, R>>, AllocError>
    requires { pass.turns ≡ turns.now.id }
{
    let mut own = pass;
    let mut counters = Vec::new(alloc);
    for _ in 0..threads {
        if let Ok(seat) = turns.split(rt, &mut own) {
            counters.push(Counter {
                rt,
                turns,
                pass: seat,
            })?;
        }
    }
    Ok(counters)
}

/// Counts in turns, in so many threads, each so many times, and gives how many counted.
pub fn count_in_turns<R: Threads + Wait + Sync>(
    rt: &R,
    alloc: Global,
    threads: usize,
    acts: u64,
) -> Result<usize, AllocError> {
    let Ok((turns, pass)) = Turns::new(alloc, 0u64, 17) else {
        return Err(AllocError);
    };
    let mut counters = counters(rt, alloc, &turns, pass, threads)?;
    for_each_mut(
        rt,
        counters.as_mut_slice(),
        threads.max(1),
        &|_, counter| counter.count(acts),
    );
    Ok(counters.len())
}

/// Counts under a lock, in so many threads, each so many times, and gives the count.
pub fn count_under_lock<R: Threads + Wait + Sync>(
    rt: &R,
    alloc: Global,
    threads: usize,
    acts: u64,
) -> Result<u64, AllocError> {
    let number = Mutex::new(0u64);
    let mut parts = Vec::new(alloc);
    for _ in 0..threads {
        parts.push(acts)?;
    }
    for_each_mut(
        rt,
        parts.as_mut_slice(),
        threads.max(1),
        &|_, part| {
            for _ in 0..*part {
                let mut held = number.lock(rt);
                *held = held.wrapping_add(1);
            }
        },
    );
    Ok(number.into_inner())
}
