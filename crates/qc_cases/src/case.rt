//! A case: a script, and what is expected of its run.

use crate::check::{Check, Kind};
use crate::names::Names;
use anyhow::{Result, bail};
use qc_run::run::{Status, run};
use qc_run::{MemorySink, MemorySource};
use std::alloc::{AllocError, Global};

/// How many bytes a run may write.
const ROOM: usize = 1_000_000;

/// A case, as far as its lines were read.
#[derive(Drop)]
pub struct Case {
    /// Its name.
    pub name: String,
    /// The words behind the program's name.
    words: Vec<String>,
    script: String,
    /// The status that the run is to end in.
    status: Status,
    /// What is asked of its text.
    pub checks: Vec<Check>,
}

/// The words of a line.
fn words_of(alloc: Global, line: &str) -> Result<Vec<String>, AllocError> {
    let mut words = Vec::new(alloc);
    for word in line.split(" ") {
        if !word.is_empty() {
            words.push(String::from_str(alloc, word)?)?;
        }
    }
    Ok(words)
}

/// The status of this name.
fn status_of(name: &str) -> Result<Status> {
    match name {
        "Done" => Ok(Status::Done),
        "BadScript" => Ok(Status::BadScript),
        "Usage" => Ok(Status::Usage),
        "Refused" => Ok(Status::Refused),
        _ => bail!("no status: {name}"),
    }
}

/// Puts these lines behind a script, with their names filled in.
fn put_lines(script: &mut String, names: &Names, lines: &str) -> Result<()> {
    for line in lines.split("; ") {
        names.put(script, line)?;
        script.push_str("\n")?;
    }
    Ok(())
}

/// What a run of a script from memory writes into memory.
fn text_of(sink: &MemorySink, alloc: Global) -> Result<String> {
    let bytes = Vec::from_slice(alloc, sink.held())?;
    match String::from_utf8(bytes) {
        Ok(text) => Ok(text),
        Err(_) => bail!("a text that isn't UTF-8"),
    }
}

impl Case {
    /// A case of this name, of which nothing else was read.
    pub fn new(alloc: Global, name: &str) -> Result<Case, AllocError> {
        let name = String::from_str(alloc, name)?;
        let words = words_of(alloc, "run")?;
        Ok(Case {
            name,
            words,
            script: String::new(alloc),
            status: Status::Done,
            checks: Vec::new(alloc),
        })
    }

    /// Takes a line of the case: its first word, and what stands behind it.
    pub fn take(&mut self, alloc: Global, names: &Names, word: &str, rest: &str) -> Result<()> {
        match word {
            ">" => put_lines(&mut self.script, names, rest),
            ">>" => names.put(&mut self.script, rest),
            "times" => self.repeat(names, rest),
            "words" => {
                self.words = words_of(alloc, rest)?;
                Ok(())
            }
            "status" => {
                self.status = status_of(rest)?;
                Ok(())
            }
            "|" => self.expect(names, rest, "\n"),
            ":" => self.expect(names, rest, ""),
            _ => self.check(alloc, word, rest),
        }
    }

    /// Lines of the script that stand there several times: their number, and the lines.
    fn repeat(&mut self, names: &Names, words: &str) -> Result<()> {
        let Some((count, lines)) = words.split_once(" ") else {
            bail!("a number without lines");
        };
        let Ok(count) = count.parse::<u16>() else {
            bail!("no number: {count}");
        };
        for _ in 0..count {
            put_lines(&mut self.script, names, lines)?;
        }
        Ok(())
    }

    /// Begins a check.
    fn check(&mut self, alloc: Global, word: &str, rest: &str) -> Result<()> {
        match Kind::of(word) {
            Some(kind) if rest.is_empty() => {
                self.checks.push(Check {
                    kind,
                    expected: String::new(alloc),
                })?;
                Ok(())
            }
            _ => bail!("no line of a case: {word}"),
        }
    }

    /// A line of what the last check expects, and its end.
    fn expect(&mut self, names: &Names, line: &str, end: &str) -> Result<()> {
        match self.checks.last_mut() {
            Some(check) => {
                names.put(&mut check.expected, line)?;
                check.expected.push_str(end)?;
                Ok(())
            }
            None => bail!("a text without a check"),
        }
    }

    /// Runs its script: the text, and whether the status is as expected.
    pub fn run(&self, alloc: Global) -> Result<(String, bool)> {
        let bytes = Vec::from_slice(alloc, self.script.as_str().as_bytes())?;
        let mut source = MemorySource::new(bytes, Vec::new(alloc));
        let mut sink = MemorySink::new(alloc, ROOM, Vec::new(alloc), Vec::new(alloc))?;
        let status = run(alloc, self.words.as_slice(), &mut source, &mut sink);
        Ok((text_of(&sink, alloc)?, status == self.status))
    }
}
