//! Counts the rows, and prints those whose answer isn't the one that they say.
ghost use Rattle.std.specs.Prelude.{◌≡◌, ◌<◌, ◌+◌, ◌-◌, ◌^◌, min, OnOk};

use std::io;

/// How many rows were asked, and how many differences were found.
#[derive(Clone, Copy, Debug)]
pub struct Tally {
    pub rows: u64,
    pub differ: u64,
}

/// Prints the differences of one file of rows.
#[derive(Drop)]
pub struct Report<'a, R> {
    pub rt: &'a R,
    /// The name of the file.
    pub file: &'a str,
    pub tally: Tally,
}

impl<R: Print + AllocGlobal> Report<'_, R> {
    /// Counts a line that can't be followed, and prints why.
    pub fn trouble(&mut self, line: u64, text: &str) -> io::Result<()>
        ensures { self.new.tally.differ ≡ min (self.old.tally.differ + 1) (2 ^ 64 - 1) }
    {
        self.tally.differ = self.tally.differ.saturating_add(1);
        println!(self.rt; "{}:{line}: {text}", self.file)
    }

    /// Counts a row, and prints it where the answer isn't the one that it says.
    pub fn compare(&mut self, line: u64, wanted: &[u8], got: &str) -> io::Result<()>
        // A row that raises no count has the answer that it says.
        ensures differs { OnOk result (self.old.tally.differ < 2 ^ 64 - 1 → self.new.tally.differ ≡ self.old.tally.differ → wanted.now ≡ got.now) }
    {
        self.tally.rows = self.tally.rows.saturating_add(1);
        if wanted != got.as_bytes() {
            return self.trouble(line, got);
        }
        Ok(())
    }
}
