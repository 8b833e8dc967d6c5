//! Measures parts of the store apart from the others, for the scripts in `bench/`, which time it from outside.
//!
//! The first word of the command line is the subject: `crc`, `slots`, `tree`, `frame`, `context` or `commits`, each a module that says what the words behind it mean. Without a subject each has its least run. What it prints depends on the words alone.
#![tactic(auto)]

mod commits;
mod context;
mod crc;
mod frame;
mod numbers;
mod slots;
mod tree;

use std::alloc::{AllocError, Global};
use std::rt::Env;
use std::{env, io};

/// What the run of a subject says.
fn report(alloc: Global, subject: &str, words: &[String]) -> Result<String, AllocError> {
    match subject {
        "slots" => slots::report(alloc, words),
        "tree" => tree::report(alloc, words),
        "frame" => frame::report(alloc, words),
        "context" => context::report(alloc, words),
        "commits" => commits::report(alloc, words),
        _ => crc::report(alloc, words),
    }
}

/// Prints what the run of a subject says.
fn say(rt: &(impl Print + AllocGlobal), subject: &str, words: &[String]) -> io::Result<()> {
    let line = report(rt.alloc(), subject, words)?;
    println!(rt; "{line}")
}

/// Prints what the least run of each subject says.
fn say_all(rt: &(impl Print + AllocGlobal)) -> io::Result<()> {
    for subject in ["crc", "slots", "tree", "frame", "context", "commits"] {
        say(rt, subject, &[])?;
    }
    Ok(())
}

/// Prints how many commits are made over a file.
fn say_commits(rt: HostRuntime, file: &String, words: &[String]) -> io::Result<()> {
    let made = commits::over_file(rt, file, words)?;
    println!(rt; "{made} commits")
}

/// The words of the command line, the program's name first.
fn words(rt: &(impl Env + AllocGlobal)) -> io::Result<Vec<String>> {
    let mut words = Vec::new(rt.alloc());
    for word in env::args(rt)? {
        words.push(word)?;
    }
    Ok(words)
}

fn main(rt: HostRuntime) -> io::Result<()> {
    let words = words(&rt)?;
    match words.as_slice() {
        [_, subject, numbers @ .., file] if subject.as_str() == "commits" && numbers.len() == 2 => {
            say_commits(rt, file, numbers)
        }
        [_, subject, others @ ..] => say(&rt, subject.as_str(), others),
        _ => say_all(&rt),
    }
}
