//! Sessions over a store, and what is there again.
use crate::kept_rows::{Row, memory_keeper, session_over, session_writes, sink};
use cat_connection::Status;
use cat_io::MemorySource;
use cat_keeper::keeper::Place;
use cat_keeper::table::Table;
use cat_stored_session::run_stored_connection;
use itoa::Buffer;
use std::alloc::{AllocError, Global};

const OWNER: &[u8] =
    b"full git {\"serial\":1,\"entities\":[{\"entity\":{\"apiVersion\":\"backstage.io/v1alpha1\",\"kind\":\"Component\",\"metadata\":{\"name\":\"web\"},\"spec\":{\"type\":\"service\",\"lifecycle\":\"production\",\"owner\":\"a\"}}}]}\n";

// The call of the keeper that fails, the status, what is written to two mutations, a settle, the state and another settle, and what a second
// session writes. A settle that is cut has leased the record, and the next one goes on.
const CASES: [(u64, Status, &[u8], &[u8]); 4] = [
    (1, Status::StoreFault, b"", NOTHING),
    (
        2,
        Status::Whole,
        b"refused keeper\nok\nsettled 1 1 1\nstate records 1 orphans 0 due 0 leased 0 marked 0\nsettled 0 0 0\n",
        DUE,
    ),
    (
        3,
        Status::Whole,
        b"ok\nok again\ncut 1 keeper\nstate records 1 orphans 0 due 1 leased 1 marked 0\nsettled 1 1 1\n",
        DUE,
    ),
    (
        9,
        Status::Whole,
        b"ok\nok again\nsettled 1 1 1\nstate records 1 orphans 0 due 0 leased 0 marked 0\nsettled 0 0 0\n",
        DUE,
    ),
];

// How a session ends over a keeper of which one call fails, whether it writes this, and whether a second session over the same keeper writes that.
fn two_sessions(
    alloc: Global,
    failing: u64,
    written: &[u8],
    again: &[u8],
) -> Result<(Status, bool, bool), AllocError> {
    let lines = [OWNER, OWNER, b"settle\nstate\nsettle\n"].concat(alloc)?;
    let questions = b"state\nquiet\n".to_vec(alloc)?;
    let keeper = memory_keeper(alloc, &[], failing)?;
    let (ran, is_written) = session_writes(alloc, keeper, lines, written);
    let (_, is_again) = session_writes(alloc, ran.keeper, questions, again);
    Ok((ran.status, is_written, is_again))
}

const NOTHING: &[u8] = b"state records 0 orphans 0 due 0 leased 0 marked 0\nyes\n";

const DUE: &[u8] = b"state records 1 orphans 0 due 1 leased 0 marked 0\nno\n";

#[test]
fn what_is_kept_is_there_again(rt: HostRuntime) -> Result<(), AllocError> {
    for (failing, status, written, again) in CASES.iter() {
        assert_eq!(rt;
            two_sessions(rt.alloc(), *failing, written, again)?,
            (*status, true, true)
        );
    }
    Ok(())
}

// Appends what a provider gives: a Component of this number, with this owner.
fn push_component(
    alloc: Global,
    lines: &mut String,
    number: u64,
    owner: &str,
) -> Result<(), AllocError> {
    let begin =
        "{\"entity\":{\"apiVersion\":\"backstage.io/v1alpha1\",\"kind\":\"Component\",\"metadata\":{\"name\":\"c";
    let spec = "\"},\"spec\":{\"type\":\"service\",\"lifecycle\":\"production\",\"owner\":\"";
    let mut buffer = Buffer::new();
    let given = [begin, buffer.format(number), spec, owner, "\"}}}"].concat(alloc)?;
    lines.push_str(given.as_str())
}

// Appends the Components of the numbers up to 39, with commas between them.
fn push_components(alloc: Global, lines: &mut String) -> Result<(), AllocError> {
    push_component(alloc, lines, 0, "a")?;
    for number in 1..40u64 {
        lines.push_str(",")?;
        push_component(alloc, lines, number, "a")?;
    }
    Ok(())
}

// Appends lines that give 40 Components, settle them, give one of them another owner, and settle that.
fn push_forty(alloc: Global, lines: &mut String) -> Result<(), AllocError> {
    lines.push_str("full git {\"serial\":1,\"entities\":[")?;
    push_components(alloc, lines)?;
    lines.push_str("]}\nsettle\ndelta git {\"serial\":2,\"added\":[")?;
    push_component(alloc, lines, 7, "b")?;
    lines.push_str("],\"removed\":[]}\nsettle\nlist\n")
}

// What the lines before the list are answered.
const REPLIES: &[u8] = b"ok\nsettled 1 40 40\nok\nsettled 1 1 1\n";

// How long a second session's list is, if just that stands behind these replies.
fn length_of_list(first: &[u8], second: &[u8]) -> Option<usize> {
    let before = first.len().checked_sub(second.len())?;
    if before == REPLIES.len() && first.starts_with(REPLIES) && first.ends_with(second) {
        Some(second.len())
    } else {
        None
    }
}

// The same of a session of those lines and of one that lists.
fn listed_again(alloc: Global) -> Result<Option<usize>, AllocError> {
    let mut lines = String::new(alloc);
    push_forty(alloc, &mut lines)?;
    let list = b"list\n".to_vec(alloc)?;
    let keeper = memory_keeper(alloc, &[], 0)?;
    let (mut first, mut second) = (sink(alloc), sink(alloc));
    let ran = session_over(alloc, keeper, lines.into_bytes(), &mut first);
    let _ran = session_over(alloc, ran.keeper, list, &mut second);
    Ok(length_of_list(first.written(), second.written()))
}

// The second settle reaches one Component of 40, and the store follows it there: a second session's documents are those with which the first one ended.
#[test]
fn what_settles_reached_is_kept(rt: HostRuntime) -> Result<(), AllocError> {
    let length = listed_again(rt.alloc())?;
    assert!(rt; matches!(length, Some(length) if length > 4_000));
    Ok(())
}

// Rows of which the last one has no reading.
const UNREAD: [Row; 3] = [
    (Table::Counters, "arrival", "1"),
    (Table::Counters, "number", "1"),
    (Table::Shelf, "file:/r.json", "\"{\" "),
];

// How a session over those rows ends, and whether it names the last one.
fn named(alloc: Global) -> Result<(Status, bool), AllocError> {
    let lines = OWNER.to_vec(alloc)?;
    let keeper = memory_keeper(alloc, &UNREAD, 0)?;
    let wanted = b"refused store shelf file:/r.json\n";
    let (ran, is_named) = session_writes(alloc, keeper, lines, wanted);
    Ok((ran.status, is_named))
}

#[test]
fn a_row_without_a_reading_is_named(rt: HostRuntime) -> Result<(), AllocError> {
    assert_eq!(rt; named(rt.alloc())?, (Status::BadRow, true));
    Ok(())
}

const MESSAGE: &[u8] =
    b"POST /providers/git/full HTTP/1.1\r\nHost: x\r\nContent-Length: 26\r\n\r\n{\"serial\":1,\"entities\":[]}";

const RESPONSES: &[u8] =
    b"HTTP/1.1 503 Service Unavailable\r\nContent-Type: application/json\r\nContent-Length: 60\r\n\r\n{\"error\":{\"message\":\"keeper\"},\"response\":{\"statusCode\":503}}HTTP/1.1 200 OK\r\nContent-Type: application/json\r\nContent-Length: 15\r\n\r\n{\"again\":false}HTTP/1.1 200 OK\r\nContent-Type: application/json\r\nContent-Length: 14\r\n\r\n{\"again\":true}";

// How a connection of that message three times ends, and whether those are the responses, where the second call of the keeper fails.
fn answered(alloc: Global) -> Result<(Status, bool), AllocError> {
    let messages = [MESSAGE, MESSAGE, MESSAGE].concat(alloc)?;
    let keeper = memory_keeper(alloc, &[], 2)?;
    let mut source = MemorySource::new(messages, 50, Vec::new(alloc));
    let mut sink = sink(alloc);
    let ran = run_stored_connection(alloc, None, Place::Nowhere, keeper, &mut source, &mut sink);
    Ok((ran.status, sink.written() == RESPONSES))
}

// Of three messages with one serial the first isn't kept, the second acts, and the third comes again.
#[test]
fn a_message_is_refused(rt: HostRuntime) -> Result<(), AllocError> {
    assert_eq!(rt; answered(rt.alloc())?, (Status::Whole, true));
    Ok(())
}
