//! The line that says how the program is called.
use cat_connection::{Status, usage};
use cat_io::MemorySink;
use std::alloc::Global;

// How that ends, and whether this line is what is written.
fn told(alloc: Global) -> (Status, bool) {
    let mut sink = MemorySink::new(100, Vec::new(alloc));
    let status = usage(&mut sink);
    let line = b"usage: catalogue session|wire|serve|sample|mirror\n";
    (status, sink.written() == line.as_slice())
}

#[test]
fn says_how_it_is_called(rt: HostRuntime) {
    assert_eq!(rt; told(rt.alloc()), (Status::Usage, true));
}
