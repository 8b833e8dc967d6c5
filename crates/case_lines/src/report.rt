//! Prints what differs, and counts it.
ghost use Rattle.std.specs.Prelude.{◌≡◌, ◌<◌, ◌≤◌, ◌+◌, ◌-◌, ◌^◌, min, [], OnOk};

use crate::case::Case;
use crate::left::BadStop;
use crate::outcome::{Outcome, first_difference, first_missing};
use std::{io, str};

/// How many cases were run, and how many differences were found.
#[derive(Clone, Copy, Debug)]
pub struct Tally {
    pub cases: u64,
    pub differ: u64,
}

/// Prints the differences of one case file.
#[derive(Drop)]
pub struct Report<'a, R> {
    pub rt: &'a R,
    /// The name of the case file.
    pub file: &'a str,
    pub tally: Tally,
}

impl<R: Print + AllocGlobal> Report<'_, R> {
    /// Prints that a line can't be followed, or that a case runs nothing.
    pub fn trouble(&mut self, line: u64, text: &str) -> io::Result<()> {
        self.tally.differ = self.tally.differ.saturating_add(1);
        println!(self.rt; "{}:{line}: {text}", self.file)
    }

    /// Prints where what came of a case isn't what must.
    pub fn compare(&mut self, case: &Case, outcome: &Outcome) -> io::Result<()>
        // A case that raises no count was answered by what it says, with the status that it says.
        ensures said { OnOk result (self.old.tally.differ < 2 ^ 64 - 1 → case.now.has.items ≡ [] → self.new.tally.differ ≡ self.old.tally.differ → case.now.said.items ≡ outcome.now.said.items) }
        ensures ending { OnOk result (self.old.tally.differ < 2 ^ 64 - 1 → self.new.tally.differ ≡ self.old.tally.differ → case.now.ending ≡ outcome.now.ending) }
    {
        self.compare_said(case, outcome)?;
        if case.ending != outcome.ending {
            self.begin(case)?;
            println!(self.rt; "wanted {:?}, got {:?}", case.ending, outcome.ending)?;
        }
        let copy = case.copied.as_ref().unwrap_or(&case.copy);
        let same = case.main.as_slice() == outcome.main.as_slice()
            && case.side.as_slice() == outcome.side.as_slice()
            && copy.as_slice() == outcome.copy.as_slice();
        if !same && !case.writes {
            self.begin(case)?;
            println!(self.rt; "wanted the files as they were, and TO as it says, got others")?;
        }
        Ok(())
    }

    /// Prints where what was said isn't what must be.
    fn compare_said(&mut self, case: &Case, outcome: &Outcome) -> io::Result<()>
        ensures said { OnOk result (self.old.tally.differ < 2 ^ 64 - 1 → case.now.has.items ≡ [] → self.new.tally.differ ≡ self.old.tally.differ → case.now.said.items ≡ outcome.now.said.items) }
        ensures no_less { OnOk result (self.old.tally.differ < 2 ^ 64 - 1 → self.old.tally.differ ≤ self.new.tally.differ) }
    {
        if let Some(line) = first_missing(case, outcome) {
            self.begin(case)?;
            return println!(self.rt; "wanted a line `{line}`");
        }
        if case.has.is_empty() && case.said.as_slice() != outcome.said.as_slice() {
            let at = first_difference(case.said.as_slice(), outcome.said.as_slice());
            return self.reply(case, at.number, at.wanted, at.got);
        }
        Ok(())
    }

    /// Counts a difference, and prints where it is.
    fn begin(&mut self, case: &Case) -> io::Result<()>
        ensures { self.new.tally.differ ≡ min (self.old.tally.differ + 1) (2 ^ 64 - 1) }
    {
        self.tally.differ = self.tally.differ.saturating_add(1);
        print!(self.rt; "{}:{}: case {}: ", self.file, case.line, case.name)
    }

    /// Prints that a line was to be said and another one was.
    fn reply(&mut self, case: &Case, number: u64, wanted: &[u8], got: &[u8]) -> io::Result<()>
        ensures { self.new.tally.differ ≡ min (self.old.tally.differ + 1) (2 ^ 64 - 1) }
    {
        self.begin(case)?;
        print!(self.rt; "line {number} of what is said: wanted ")?;
        self.show(wanted)?;
        print!(self.rt; ", got ")?;
        self.show(got)?;
        println!(self.rt; "")
    }

    /// Prints that a case that was cut off ended otherwise than it must, or left what no whole lines leave.
    pub fn bad_stop(&mut self, case: &Case, stop: &BadStop) -> io::Result<()>
        ensures { self.new.tally.differ ≡ min (self.old.tally.differ + 1) (2 ^ 64 - 1) }
    {
        self.begin(case)?;
        print!(self.rt;
            "{:?} at call {}, status {}, {:?} of FILE and {:?} of FILE.gate: got ",
            stop.cut, stop.call, stop.status, stop.main, stop.side
        )?;
        self.show(stop.said.as_slice())?;
        println!(self.rt; "")
    }

    /// Prints bytes as the text that they are, or as numbers.
    fn show(&self, bytes: &[u8]) -> io::Result<()> {
        match str::from_utf8(bytes) {
            Ok(text) => print!(self.rt; "`{text}`"),
            Err(_) => print!(self.rt; "{bytes:?}"),
        }
    }
}
