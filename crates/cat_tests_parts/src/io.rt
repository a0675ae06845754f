//! Ends over readers and writers.
use cat_io::{ReadAnswer, Sink, Source, StdSink, StdSource, WriteAnswer};
use std::io::Cursor;

// What a read answers, and what is in the room for it then.
fn read_into<S: Source>(source: &mut S) -> (ReadAnswer, [u8; 4]) {
    let mut room = [0; 4];
    let answer = source.read(&mut room);
    (answer, room)
}

#[test]
fn a_reader_is_a_source(rt: HostRuntime) {
    let mut source = StdSource::new(Cursor::new(b"abcde".as_slice()));
    let wanted = [
        (ReadAnswer::Read(4), *b"abcd"),
        (ReadAnswer::Read(1), *b"e\0\0\0"),
        (ReadAnswer::Read(0), [0; 4]),
    ];
    for wanted in wanted.iter() {
        assert_eq!(rt; read_into(&mut source), *wanted);
    }
}

// What three writes answer over a room of five bytes.
fn wrote(room: &mut [u8]) -> [WriteAnswer; 3] {
    let mut sink = StdSink::new(Cursor::new(room));
    let first = sink.write(b"abc");
    let second = sink.write(b"def");
    [first, second, sink.write(b"f")]
}

#[test]
fn a_writer_is_a_sink(rt: HostRuntime) {
    let mut room = [0; 5];
    assert_eq!(rt;
        wrote(room.as_mut_slice()),
        [
            WriteAnswer::Wrote(3),
            WriteAnswer::Wrote(2),
            WriteAnswer::Failed
        ]
    );
}
