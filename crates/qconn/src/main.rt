//! The program `qconn`: reads a script from standard input, drives a QUIC connection by its inputs,
//! and writes the text of the trace to standard output.
#![tactic(auto)]

use qc_run::run::{Status, end, run};
use qc_run::{StdSink, StdSource};
use std::env;
use std::io::{self, ErrorKind};
use std::process::ExitCode;

/// The words after the program's name.
fn words(rt: &HostRuntime) -> io::Result<Vec<String>> {
    let mut args = env::args(rt)?;
    let _ = args.next();
    Ok(args.collect(rt.alloc())?)
}

fn main(rt: HostRuntime) -> ExitCode {
    let mut source = StdSource::new(rt.stdin());
    let mut sink = StdSink::new(rt.stdout());
    let status = match words(&rt) {
        Ok(words) => run(rt.alloc(), words.as_slice(), &mut source, &mut sink),
        Err(error) => {
            if error.kind() == ErrorKind::OutOfMemory {
                end(&mut sink, b"no memory\n", Status::NoMemory)
            } else {
                // A word that isn't text is none that the program knows.
                run(rt.alloc(), &[], &mut source, &mut sink)
            }
        }
    };
    ExitCode::from(status as u8)
}
