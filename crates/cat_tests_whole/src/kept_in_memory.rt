//! A store that a keeper in memory has.
use crate::kept_rows::{FIRST, Row, SECOND, gives, memory_keeper, session_writes};
use cat_connection::Status;
use std::alloc::{AllocError, Global};

// How a session without lines ends over the rows of the first version, where one call of their keeper fails, and whether these rows are there then.
fn ended(alloc: Global, failing: u64, rows: &[Row]) -> Result<(Status, bool), AllocError> {
    let keeper = memory_keeper(alloc, &FIRST, failing)?;
    let (mut ran, _) = session_writes(alloc, keeper, Vec::new(alloc), b"");
    Ok((ran.status, gives(alloc, &mut ran.keeper, rows)))
}

// The call of the keeper that fails, the status, and the rows that are there afterwards.
const CASES: [(u64, Status, &[Row]); 3] = [
    (1, Status::StoreFault, &FIRST),
    (2, Status::StoreFault, &FIRST),
    (9, Status::Whole, &SECOND),
];

#[test]
fn a_store_is_brought_over_or_stays(rt: HostRuntime) -> Result<(), AllocError> {
    for (failing, status, rows) in CASES.iter() {
        assert_eq!(rt; ended(rt.alloc(), *failing, rows)?, (*status, true));
    }
    Ok(())
}
