//! `pstore`: the words of the command line over the files that they name. All that it does is in `mail_session::run`; here stand what `run` asks of the system, `refused busy` where another session is at work on the file, and the texts on standard error.
#![tactic(auto)]

mod report;
mod words;

ghost use Rattle.std.specs.Prelude.{◌≡◌};

use crate::report::{report, report_status};
use crate::words::{words, world};
use file_world::{FileWorld, Trouble};
use mail_session::{Exit, run};
use pst_base::{Ledger, Steps};
use pst_outside::{Failed, say_all};
use std::io::ErrorKind;
use std::marker::Brand;
use std::process::ExitCode;
use std::sync::ledger::Blank;

/// The status where the words or the world find no memory.
const NO_MEMORY: u8 = 7;

/// The status where the words aren't text.
const NO_WORDS: u8 = 2;

/// The exit where another session holds the lock of the file, which then failed at its first call: a refusal.
fn refuse_busy(world: &mut FileWorld<HostRuntime>) -> Exit {
    let status = match say_all(world, b"refused busy\n") {
        Ok(()) => 3,
        Err(Failed) => 6,
    };
    Exit {
        status,
        changed: None,
    }
}

/// Whether another session holds the lock of the file. That shows before anything is said.
fn is_busy(world: &FileWorld<HostRuntime>) -> bool {
    match world.cause() {
        Some(cause) => matches!(&cause.trouble, Trouble::Busy) && world.front().is_empty(),
        None => false,
    }
}

fn run_over<L: Ledger>(
    rt: &HostRuntime,
    words: &[String],
    world: &mut FileWorld<HostRuntime>,
    blank: Blank,
) -> Exit
    requires name { blank.name ≡ L.name }
    requires parts { blank.parts ≡ L.parts }
    requires some { blank.parts ≡ 1 }
{
    let (book, share) = blank.open::<L>();
    let mut steps = Steps::new(book, share);
    let exit = run(rt.alloc(), words, world, &mut steps);
    if is_busy(world) {
        refuse_busy(world)
    } else {
        exit
    }
}

/// Does what the words ask for, and answers with the status.
fn serve(rt: HostRuntime, words: &[String]) -> u8 {
    let Ok(mut world) = world(rt, words) else {
        let _ = report_status(&rt, NO_MEMORY);
        return NO_MEMORY;
    };
    let exit = run_over::<Brand>(&rt, words, &mut world, Blank::new(1));
    let _ = report(&rt, words, &mut world, exit);
    exit.status
}

fn main(rt: HostRuntime) -> ExitCode {
    let status = match words(&rt) {
        Ok(words) => return ExitCode::from(serve(rt, words.as_slice())),
        Err(error) if error.kind() == ErrorKind::OutOfMemory => NO_MEMORY,
        Err(_) => NO_WORDS,
    };
    let _ = report_status(&rt, status);
    ExitCode::from(status)
}
