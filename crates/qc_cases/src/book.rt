//! The cases, one after the other.

use crate::case::Case;
use crate::check::Check;
use crate::names::Names;
use anyhow::{Result, bail};
use std::alloc::Global;

/// What was read so far.
#[derive(Drop)]
pub struct Book {
    names: Names,
    /// The case whose lines are read.
    case: Option<Case>,
    /// The text of the case before it.
    before: String,
    cases: u64,
    failed: u64,
}

/// Tells a check that failed.
fn tell_check(rt: &HostRuntime, check: &Check) -> Result<()> {
    let kind = check.kind.word();
    let expected = check.expected.as_str();
    println!(rt; "expected: {kind}\n{expected}")?;
    Ok(())
}

/// Tells the checks that a text doesn't pass, and says whether it passes all.
fn is_as_expected(rt: &HostRuntime, case: &Case, text: &str, before: &str) -> Result<bool> {
    let mut all = !case.checks.is_empty();
    for check in &case.checks {
        if !check.passes(text, before) {
            all = false;
            tell_check(rt, check)?;
        }
    }
    Ok(all)
}

impl Book {
    /// Nothing was read.
    pub fn new(alloc: Global) -> Book {
        Book {
            names: Names::new(alloc),
            case: None,
            before: String::new(alloc),
            cases: 0,
            failed: 0,
        }
    }

    /// How many cases were judged, and how many of them aren't as expected.
    pub fn counts(&self) -> (u64, u64) {
        (self.cases, self.failed)
    }

    /// Takes a line.
    pub fn take(&mut self, rt: &HostRuntime, line: &str) -> Result<()> {
        let (word, rest) = match line.split_once(" ") {
            Some((word, rest)) => (word, rest),
            None => (line, ""),
        };
        if word.is_empty() && rest.is_empty() || word.starts_with("#") {
            return Ok(());
        }
        match word {
            "name" => self.names.add(rt.alloc(), rest),
            "case" => self.begin(rt, rest),
            _ => self.take_of_case(rt.alloc(), word, rest),
        }
    }

    /// Takes a line of the case that is being read.
    fn take_of_case(&mut self, alloc: Global, word: &str, rest: &str) -> Result<()> {
        match &mut self.case {
            Some(case) => case.take(alloc, &self.names, word, rest),
            None => bail!("a line of no case: {word}"),
        }
    }

    /// Begins a case.
    fn begin(&mut self, rt: &HostRuntime, name: &str) -> Result<()> {
        self.finish(rt)?;
        self.case = Some(Case::new(rt.alloc(), name)?);
        Ok(())
    }

    /// Judges the case whose lines were read, if there is one.
    pub fn finish(&mut self, rt: &HostRuntime) -> Result<()> {
        match self.case.take() {
            Some(case) => self.judge(rt, &case),
            None => Ok(()),
        }
    }

    /// Runs a case and tells whether it is as expected.
    fn judge(&mut self, rt: &HostRuntime, case: &Case) -> Result<()> {
        let (text, is_status) = case.run(rt.alloc())?;
        let is_ok = is_as_expected(rt, case, text.as_str(), self.before.as_str())? && is_status;
        self.cases = self.cases.saturating_add(1);
        let name = case.name.as_str();
        if is_ok {
            println!(rt; "ok {name}")?;
        } else {
            self.failed = self.failed.saturating_add(1);
            println!(rt;
                "FAILED {name} (its status is as expected: {is_status}); its text:\n{text}"
            )?;
        }
        self.before = text;
        Ok(())
    }
}
