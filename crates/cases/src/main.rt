//! `cases`: tests as data. It reads case files, whose names are the words of the command line, runs each case through `mail_session::run` over a world in memory, prints where what came of it isn't what the file says, and at last how many cases there were and how many differences.
//!
//! A case file is text that reads as a transcript; `data/README.md` has its grammar. A line that isn't understood is a difference, and so is a case that runs nothing.
#![tactic(auto)]

mod running;
mod stops;

use case_lines::{Report, Script, Tally};
use running::run_case;
use std::process::ExitCode;
use std::rt::{Env, Files};
use std::{env, fs, io};
use stops::bad_stop;

/// Runs the case that has begun, if one has, and prints its differences.
fn end_case<R: Print + AllocGlobal>(report: &mut Report<R>, script: &mut Script) -> io::Result<()> {
    let Some(case) = script.end_case() else {
        return Ok(());
    };
    report.tally.cases = report.tally.cases.saturating_add(1);
    let Some(words) = case.words else {
        return report.trouble(case.line, "this case runs nothing");
    };
    let outcome = run_case(report.rt.alloc(), &case, words)?;
    report.compare(&case, &outcome)?;
    script.leave(outcome);
    match bad_stop(report.rt.alloc(), &case, words)? {
        Some(stop) => report.bad_stop(&case, &stop),
        None => Ok(()),
    }
}

/// Follows one line of a case file.
fn follow<'a, R: Files + Print + AllocGlobal>(
    report: &mut Report<R>,
    script: &mut Script<'a>,
    line: &'a str,
    number: u64,
) -> io::Result<()> {
    if line.starts_with("case ") || line.starts_with("bytes ") {
        end_case(report, script)?;
    }
    if let Some(name) = line.strip_prefix("case ") {
        script.begin_case(name, number);
        return Ok(());
    }
    match script.follow(report.rt, line) {
        Ok(()) => Ok(()),
        Err(trouble) => report.trouble(number, trouble.text()),
    }
}

/// Runs the cases of one file, and adds to the counts.
fn play<R: Files + Print + AllocGlobal>(rt: &R, file: &str, tally: Tally) -> io::Result<Tally> {
    let text = fs::read_to_string(rt, file)?;
    let mut report = Report { rt, file, tally };
    let mut script = Script::new(rt.alloc());
    let mut number = 0u64;
    for line in text.as_str().split('\n') {
        number = number.saturating_add(1);
        follow(&mut report, &mut script, line, number)?;
    }
    end_case(&mut report, &mut script)?;
    Ok(report.tally)
}

/// Runs the cases of all files that the command line names.
fn play_all<R: Files + Print + Env + AllocGlobal>(rt: &R) -> io::Result<Tally> {
    let mut tally = Tally {
        cases: 0,
        differ: 0,
    };
    for file in env::args(rt)?.skip(1) {
        tally = play(rt, file.as_str(), tally)?;
    }
    println!(rt; "{} cases, {} differ", tally.cases, tally.differ)?;
    Ok(tally)
}

fn main(rt: HostRuntime) -> io::Result<ExitCode> {
    let tally = play_all(&rt)?;
    Ok(ExitCode::from(u8::from(tally.differ > 0)))
}
