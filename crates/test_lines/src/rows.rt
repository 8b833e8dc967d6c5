//! Reads files of rows, asks each row, and compares the answers.
use crate::report::{Report, Tally};
use crate::trouble::Trouble;
use crate::words::Words;
use std::alloc::Global;
use std::rt::{Env, Files};
use std::{env, fs, io};

/// Gives the answers to what rows ask.
pub trait Answerer {
    /// The answer to a row: by the word of its kind, and the words behind that.
    fn answer(&self, alloc: Global, kind: &str, words: &mut Words) -> Result<String, Trouble>;
}

/// The answer to what a row asks.
fn ask<A: Answerer>(alloc: Global, answerer: &A, question: &str) -> Result<String, Trouble> {
    let mut words = Words::new(question);
    let kind = words.word()?;
    let answer = answerer.answer(alloc, kind, &mut words)?;
    if words.is_empty() {
        Ok(answer)
    } else {
        Err(Trouble::Spelling)
    }
}

/// Follows one line of a file: `QUESTION -> ANSWER`, or one that says nothing.
fn follow<R: Print + AllocGlobal, A: Answerer>(
    report: &mut Report<R>,
    answerer: &A,
    line: &str,
    number: u64,
) -> io::Result<()> {
    if line.is_empty() || line.starts_with('#') {
        return Ok(());
    }
    let Some((question, wanted)) = line.split_once(" -> ") else {
        return report.trouble(number, Trouble::Spelling.text());
    };
    match ask(report.rt.alloc(), answerer, question) {
        Ok(got) => report.compare(number, wanted.as_bytes(), got.as_str()),
        Err(trouble) => report.trouble(number, trouble.text()),
    }
}

/// Asks the rows of one file, and adds to the counts.
fn play<R: Files + Print + AllocGlobal, A: Answerer>(
    rt: &R,
    answerer: &A,
    file: &str,
    tally: Tally,
) -> io::Result<Tally> {
    let text = fs::read_to_string(rt, file)?;
    let mut report = Report { rt, file, tally };
    let mut number = 0u64;
    for line in text.as_str().split('\n') {
        number = number.saturating_add(1);
        follow(&mut report, answerer, line, number)?;
    }
    Ok(report.tally)
}

/// Asks the rows of all files that the command line names, prints each that differs and at last their number, and gives the counts.
pub fn play_all<R: Files + Print + Env + AllocGlobal, A: Answerer>(
    rt: &R,
    answerer: &A,
) -> io::Result<Tally> {
    let mut tally = Tally { rows: 0, differ: 0 };
    for file in env::args(rt)?.skip(1) {
        tally = play(rt, answerer, file.as_str(), tally)?;
    }
    println!(rt; "{} rows, {} differ", tally.rows, tally.differ)?;
    Ok(tally)
}
