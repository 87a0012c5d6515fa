//! The program `qc_cases`: reads cases from standard input, runs the script of each as `qconn run` does, from memory into
//! memory, and says of each whether its text is what the case expects.
//!
//! The input is lines of text. Empty lines and those that begin with `#` say nothing. `name NAME TEXT` gives a text a name:
//! in the lines that follow, `{NAME}` stands for it. `case NAME` begins a case, which has these lines:
//!
//! | line | what it says |
//! |---|---|
//! | `> LINE` | the next line of the script |
//! | `>> LINE` | the same, but no line feed ends it |
//! | `times N LINE; LINE` | these lines of the script, so many times one after the other |
//! | `words WORD WORD` | the words behind the program's name; where this line is missing, the one word `run` |
//! | `status STATUS` | the status that the run is to end in; where this line is missing, `Done` |
//! | `is`, `tells`, `hides`, `ends` | a check begins: the whole text is the one that follows, has it in it, hasn't it in it, or ends in it |
//! | a bar and LINE | the next line of the check's text |
//! | `: LINE` | the same, but no line feed ends it: the front of a line |
//! | `same` | a check: the whole text is that of the case before |
//!
//! For each case a line is written, `ok NAME`. Where it isn't as expected, the line is `FAILED NAME`, and behind it stand
//! what was expected and the whole text. The last line counts the cases. The exit status is 0 where there are cases and each
//! is as expected, and else 1. A line that is none of these ends the program with status 1 and a message on standard error.
#![tactic(auto)]

mod book;
mod case;
mod check;
mod names;

use anyhow::{Result, bail};
use book::Book;
use std::io::{BufRead, BufReader};

/// Takes the lines of standard input.
fn take_lines(rt: &HostRuntime, book: &mut Book) -> Result<()> {
    let reader = BufReader::new(rt.alloc(), rt.reader())?;
    for line in reader.lines(rt.alloc()) {
        let line = line?;
        book.take(rt, line.as_str())?;
    }
    book.finish(rt)
}

fn main(rt: HostRuntime) -> Result<()> {
    let mut book = Book::new(rt.alloc());
    take_lines(&rt, &mut book)?;
    let (cases, failed) = book.counts();
    println!(rt; "{cases} cases, {failed} failed")?;
    if cases == 0 || failed > 0 {
        bail!("not every case is as expected");
    }
    Ok(())
}
