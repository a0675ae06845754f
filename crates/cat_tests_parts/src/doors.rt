//! Doors in memory and over the network, and the host's clock.
use cat_io::{Clock, MemorySink, MemorySource, ReadAnswer, Sink, Source, WriteAnswer};
use cat_listener::{
    Accepted, Connection, CountedDoors, Doors, HostClock, Listened, MemoryConn, MemoryDoors,
    TcpDoors,
};
use std::alloc::{AllocError, Global};
use std::io;
use std::io::{Read, Write};
use std::net::{TcpListener, TcpStream};
use std::test::Fail;

/// A connection that reads these bytes.
fn conn(alloc: Global, bytes: &[u8]) -> Result<MemoryConn, AllocError> {
    let bytes = bytes.to_vec(alloc)?;
    Ok(MemoryConn {
        source: MemorySource::new(bytes, 9, Vec::new(alloc)),
        sink: MemorySink::new(9, Vec::new(alloc)),
    })
}

/// Doors with a connection for each of these bytes, which reads it. They fail one call.
pub(crate) fn in_memory(
    alloc: Global,
    bytes: &[u8],
    failing: u64,
) -> Result<MemoryDoors, AllocError> {
    let mut conns = Vec::new(alloc);
    for byte in bytes {
        conns.push(conn(alloc, &[*byte])?)?;
    }
    Ok(MemoryDoors::new(conns, vec![in alloc; failing]?))
}

/// The first byte that a connection reads.
fn first_byte<C: Connection>(conn: C) -> u8 {
    let (mut source, _sink) = conn.ends();
    let mut byte = [0];
    match source.read(&mut byte) {
        ReadAnswer::Read(1) => byte[0],
        _ => b'?',
    }
}

/// What an accept answered: the first byte of a connection, `.` where the doors have closed, `!` where they failed.
fn accepted<D: Doors>(doors: &mut D) -> u8 {
    match doors.accept() {
        Accepted::Conn(conn) => first_byte(conn),
        Accepted::Closed => b'.',
        Accepted::Failed => b'!',
        Accepted::Ready(_) | Accepted::Rest | Accepted::Short => b'?',
    }
}

/// What listening answers, and what four accepts do.
fn told<D: Doors>(doors: &mut D) -> (Listened, [u8; 4]) {
    let listened = doors.listen("x");
    let first = accepted(doors);
    let second = accepted(doors);
    let third = accepted(doors);
    (listened, [first, second, third, accepted(doors)])
}

/// The same of doors in memory with two connections, of `a` and of `b`, that fail one call.
fn told_in_memory(alloc: Global, failing: u64) -> Result<(Listened, [u8; 4]), AllocError> {
    let mut doors = in_memory(alloc, b"ab", failing)?;
    Ok(told(&mut doors))
}

/// The same of such doors through which so many connections may come.
fn told_counted(alloc: Global, left: u64, failing: u64) -> Result<(Listened, [u8; 4]), AllocError> {
    let mut doors = CountedDoors::new(in_memory(alloc, b"ab", failing)?, left);
    Ok(told(&mut doors))
}

/// The call that fails, what listening answers, and what four accepts do.
const IN_MEMORY: [(u64, Listened, [u8; 4]); 4] = [
    (0, Listened::Ready, *b"ab.."),
    (1, Listened::Failed, *b"ab.."),
    (2, Listened::Ready, *b"!ab."),
    (4, Listened::Ready, *b"ab!."),
];

#[test]
fn doors_in_memory_hand_out_their_connections(rt: HostRuntime) -> Result<(), AllocError> {
    for (failing, listened, wanted) in IN_MEMORY.iter() {
        assert_eq!(rt; told_in_memory(rt.alloc(), *failing)?, (*listened, *wanted));
    }
    Ok(())
}

/// How many connections may come, the call of the doors below that fails, and what four accepts do.
const COUNTED: [(u64, u64, [u8; 4]); 4] = [
    (0, 0, *b"...."),
    (1, 0, *b"a..."),
    (1, 2, *b"!a.."),
    (9, 0, *b"ab.."),
];

#[test]
fn counted_doors_close(rt: HostRuntime) -> Result<(), AllocError> {
    for (left, failing, wanted) in COUNTED.iter() {
        assert_eq!(rt;
            told_counted(rt.alloc(), *left, *failing)?,
            (Listened::Ready, *wanted)
        );
    }
    Ok(())
}

/// What a read answers, and what is in the room for it then.
fn read_into<S: Source>(source: &mut S) -> (ReadAnswer, [u8; 16]) {
    let mut room = [0; 16];
    let answer = source.read(&mut room);
    (answer, room)
}

/// What a write and two reads of a connection answer, and whether it has what was written.
fn talked(conn: MemoryConn) -> (WriteAnswer, [(ReadAnswer, [u8; 16]); 2], bool) {
    let (mut source, mut sink) = conn.ends();
    let wrote = sink.write(b"out");
    let first = read_into(&mut source);
    let second = read_into(&mut source);
    (wrote, [first, second], sink.written() == b"out".as_slice())
}

#[test]
fn a_connection_in_memory_is_read_and_written(rt: HostRuntime) -> Result<(), AllocError> {
    let reads = [
        (ReadAnswer::Read(2), *b"in\0\0\0\0\0\0\0\0\0\0\0\0\0\0"),
        (ReadAnswer::End, [0; 16]),
    ];
    assert_eq!(rt;
        talked(conn(rt.alloc(), b"in")?),
        (WriteAnswer::Wrote(3), reads, true)
    );
    Ok(())
}

/// A port of this machine at which nothing listens: the system chose it for a listener that has ended.
fn free_port(rt: &HostRuntime) -> Result<u16, Fail> {
    let listener = TcpListener::bind(rt, "127.0.0.1:0")?;
    Ok(listener.local_addr()?.port())
}

/// What an accept does before doors listen, and what listening answers where the port is no number, and at this one.
fn listened<D: Doors>(
    alloc: Global,
    doors: &mut D,
    port: u16,
) -> Result<(u8, [Listened; 2]), AllocError> {
    let address = format!(in alloc; "127.0.0.1:{port}")?;
    let early = accepted(doors);
    let nowhere = doors.listen("127.0.0.1:none");
    Ok((early, [nowhere, doors.listen(address.as_str())]))
}

/// What is read of a client, what comes of an answer, and the answer as it comes to the client.
type Exchange = ((ReadAnswer, [u8; 16]), WriteAnswer, [u8; 4]);

/// What a client and these ends of its connection come to.
fn exchange<S: Source, O: Sink>(
    client: &mut TcpStream,
    source: &mut S,
    sink: &mut O,
) -> Result<Exchange, io::Error> {
    client.write_all(b"to the server")?;
    let heard = read_into(source);
    let wrote = sink.write(b"back");
    let mut answer = [0; 4];
    client.read_exact(&mut answer)?;
    Ok((heard, wrote, answer))
}

/// The same, and what is read once the client has gone.
fn exchanged<C: Connection>(
    conn: C,
    mut client: TcpStream,
) -> Result<(Exchange, ReadAnswer), io::Error> {
    let (mut source, mut sink) = conn.ends();
    let exchange = exchange(&mut client, &mut source, &mut sink)?;
    drop(client);
    Ok((exchange, read_into(&mut source).0))
}

/// The same of the connection that doors let in, if they do.
fn let_in<D: Doors>(
    doors: &mut D,
    client: TcpStream,
) -> Result<Option<(Exchange, ReadAnswer)>, io::Error> {
    match doors.accept() {
        Accepted::Conn(conn) => Ok(Some(exchanged(conn, client)?)),
        _ => Ok(None),
    }
}

#[test]
fn connections_come_over_the_network(rt: HostRuntime) -> Result<(), Fail> {
    let port = free_port(&rt)?;
    let mut doors = TcpDoors::new(&rt, rt.alloc());
    assert_eq!(rt;
        listened(rt.alloc(), &mut doors, port)?,
        (b'!', [Listened::Failed, Listened::Ready])
    );
    let client = TcpStream::connect(&rt, ("127.0.0.1", port))?;
    let heard = (ReadAnswer::Read(13), *b"to the server\0\0\0");
    assert_eq!(rt;
        let_in(&mut doors, client)?,
        Some((
            (heard, WriteAnswer::Wrote(4), *b"back"),
            ReadAnswer::Read(0)
        ))
    );
    Ok(())
}

#[test]
fn the_clock_of_the_host_never_goes_back(rt: HostRuntime) {
    let mut clock = HostClock::new(&rt);
    let mut last = clock.now();
    for _ in 0..10 {
        let now = clock.now();
        assert!(rt; last <= now);
        last = now;
    }
    assert!(rt; 0 < last);
}
