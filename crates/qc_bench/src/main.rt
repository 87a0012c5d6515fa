//! The program `qc_bench`: work to be counted by an instruction counter. It reads frames, or seals
//! and opens packets, and prints how much it did. The difference of two runs is the cost of what
//! the one did more.
#![tactic(auto)]

use qc_bench_run::{Outcome, run};
use std::process::ExitCode;
use std::{env, io};

/// The status where standard output takes no more.
const WRITE_FAULT: u8 = 5;

/// The words after the program's name.
fn words(rt: &HostRuntime) -> io::Result<Vec<String>> {
    let mut args = env::args(rt)?;
    let _ = args.next();
    Ok(args.collect(rt.alloc())?)
}

fn main(rt: HostRuntime) -> ExitCode {
    let outcome = match words(&rt) {
        Ok(words) => run(rt.alloc(), words.as_slice()),
        // A word that isn't text is none that the program knows.
        Err(_) => Outcome::Usage,
    };
    match rt.print(&outcome) {
        Ok(()) => ExitCode::from(outcome.status()),
        Err(_) => ExitCode::from(WRITE_FAULT),
    }
}
