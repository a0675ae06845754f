//! Sessions over one store, one after the other.
use crate::kept_rows::{memory_keeper, sink};
use cat_connection::Status;
use cat_io::MemorySink;
use cat_keeper::keeper::Place;
use cat_stored_session::sittings;
use std::alloc::{AllocError, Global};

const LINES: [&[u8]; 4] = [
    b"full git {\"serial\":1,\"entities\":[{\"entity\":{\"apiVersion\":\"backstage.io/v1alpha1\",\"kind\":\"Component\",\"metadata\":{\"name\":\"web\"},\"spec\":{\"type\":\"service\",\"lifecycle\":\"production\",\"owner\":\"a\"}}}]}\n",
    b"put file:/r.json []\n",
    b"clock 5\n",
    b"refresh component:web\n",
];

const LAST: &[u8] = b"settle\nstate\nquiet\n";

// The lines from this place on, up to that one.
fn lines_between(alloc: Global, first: usize, end: usize) -> Result<Vec<u8>, AllocError> {
    let mut text = Vec::new(alloc);
    for (place, line) in LINES.iter().enumerate() {
        if first <= place && place < end {
            text.extend_from_slice(line)?;
        }
    }
    Ok(text)
}

// How three sessions over one store end, of the lines up to a place, of those from it on, and of the last ones, where one call of the keeper fails.
fn sat(
    alloc: Global,
    cut: usize,
    failing: u64,
    sink: &mut MemorySink,
) -> Result<Status, AllocError> {
    let first = lines_between(alloc, 0, cut)?;
    let second = lines_between(alloc, cut, LINES.len())?;
    let keeper = memory_keeper(alloc, &[], failing)?;
    let inputs = [first.as_slice(), second.as_slice(), LAST];
    let ran = sittings(
        alloc,
        None,
        &Place::Nowhere,
        keeper,
        inputs.as_slice(),
        sink,
    );
    Ok(ran.status)
}

// What the last lines are answered.
const ANSWERS: &[u8] = b"settled 1 1 1\nstate records 1 orphans 0 due 0 leased 0 marked 0\nyes\n";

// How sessions end where no call fails, and whether their last lines are answered so.
fn cut(alloc: Global, cut: usize) -> Result<(Status, bool), AllocError> {
    let mut sink = sink(alloc);
    let status = sat(alloc, cut, 0, &mut sink)?;
    Ok((status, sink.written().ends_with(ANSWERS)))
}

// How sessions end where the first call fails, and whether nothing is written.
fn broken_off(alloc: Global) -> Result<(Status, bool), AllocError> {
    let mut sink = sink(alloc);
    let status = sat(alloc, 0, 1, &mut sink)?;
    Ok((status, sink.written().is_empty()))
}

#[test]
fn lines_come_to_the_same_wherever_they_are_cut(rt: HostRuntime) -> Result<(), AllocError> {
    for place in 0..5usize {
        assert_eq!(rt; cut(rt.alloc(), place)?, (Status::Whole, true));
    }
    Ok(())
}

#[test]
fn the_first_session_that_breaks_off_is_the_last(rt: HostRuntime) -> Result<(), AllocError> {
    assert_eq!(rt; broken_off(rt.alloc())?, (Status::StoreFault, true));
    Ok(())
}
