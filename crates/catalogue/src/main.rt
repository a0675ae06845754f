//! The program: its words, standard input and standard output, the host's clock, doors over TCP and a keeper of files are given to the top call of
//! cat_tool, and its status is the program's.
//!
//! It promises nothing of its own; what it prints is told by `cat_tool::run`, as far as the operating system hands on what it is given.
#![tactic(auto)]

use cat_backends::files::ToolFiles;
use cat_backends::place::PlaceKeeper;
use cat_io::{StdSink, StdSource};
use cat_listener::{HostClock, TcpDoors};
use cat_tool::{Status, run};
use std::process::ExitCode;
use std::{env, io};

// A word that is no UTF-8 is no command, and so are all the words then.
fn words(rt: &HostRuntime) -> io::Result<Vec<String>> {
    let mut words = Vec::new(rt.alloc());
    match env::args(rt) {
        Ok(args) => {
            for word in args.skip(1) {
                words.push(word)?;
            }
            Ok(words)
        }
        Err(fault) if fault.kind() == io::ErrorKind::InvalidData => Ok(words),
        Err(fault) => Err(fault),
    }
}

fn main(rt: HostRuntime) -> ExitCode {
    let status = match words(&rt) {
        Ok(words) => {
            let mut source = StdSource::new(rt.stdin());
            let mut sink = StdSink::new(rt.stdout());
            let mut doors = TcpDoors::new(&rt, rt.alloc());
            run(
                &rt,
                rt.alloc(),
                words.as_slice(),
                &mut source,
                &mut sink,
                HostClock::new(&rt),
                &mut doors,
                PlaceKeeper::new(rt.alloc(), ToolFiles::new(&rt)),
            )
            .status
        }
        Err(_) => Status::NoMemory,
    };
    ExitCode::from(status.number())
}
