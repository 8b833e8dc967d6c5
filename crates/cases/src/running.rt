//! Runs a case.
ghost use Rattle.std.specs.Prelude.{◌≡◌};

use case_lines::{Case, CaseWorld, Change, Ending, Outcome, Turn};
use mail_session::{Exit, run};
use pst_base::{Bytes, Ledger, Steps};
use pst_outside::{FailPlan, MemWorld, Part};
use std::alloc::{AllocError, Global};
use std::marker::Brand;
use std::sync::ledger::Blank;

/// The words of a command line.
fn split(alloc: Global, line: &str) -> Result<Vec<String>, AllocError> {
    let mut words = Vec::new(alloc);
    if !line.is_empty() {
        for word in line.split(' ') {
            words.push(String::from_str(alloc, word)?)?;
        }
    }
    Ok(words)
}

/// With what a call of the program begins.
#[derive(Clone, Copy, Debug)]
pub struct Start<'a> {
    /// The words of the command line.
    pub words: &'a str,
    pub main: &'a [u8],
    pub side: &'a [u8],
    pub input: &'a [u8],
}

/// The world of a case, with these files and this input.
fn world(
    alloc: Global,
    case: &Case,
    start: Start,
    fails: FailPlan,
) -> Result<CaseWorld, AllocError> {
    let turn = match &case.turn {
        Some((at, mask)) => Some(Turn {
            at: *at,
            mask: Vec::from_slice(alloc, mask.as_slice())?,
            readings: 0,
        }),
        None => None,
    };
    let input = Bytes::from_slice(alloc, start.input)?;
    let main = Bytes::from_slice(alloc, start.main)?;
    let side = Bytes::from_slice(alloc, start.side)?;
    let copy = Bytes::from_slice(alloc, case.copy.as_slice())?;
    Ok(CaseWorld {
        world: MemWorld::new(alloc, input, main, side, copy, fails)?,
        take_at_most: case.take_at_most,
        say_at_most: case.say_at_most,
        turn,
        main_at_least: case.main_at_least,
        in_faults: 0,
        out_faults: 0,
        disk_faults: 0,
        written: 0,
    })
}

fn run_over<L: Ledger>(alloc: Global, words: &[String], world: &mut CaseWorld, blank: Blank) -> Exit
    requires name { blank.name ≡ L.name }
    requires parts { blank.parts ≡ L.parts }
    requires some { blank.parts ≡ 1 }
{
    let (book, share) = blank.open::<L>();
    let mut steps = Steps::new(book, share);
    run(alloc, words, world, &mut steps)
}

/// Calls the program over a world of a case in which these calls fail, and gives how it ended and the world that it left.
pub fn call(
    alloc: Global,
    case: &Case,
    start: Start,
    fails: FailPlan,
) -> Result<(Exit, CaseWorld), AllocError> {
    let words = split(alloc, start.words)?;
    let mut world = world(alloc, case, start, fails)?;
    let exit = run_over::<Brand>(alloc, words.as_slice(), &mut world, Blank::new(1));
    Ok((exit, world))
}

/// Which calls fail in a case.
fn fails_of(alloc: Global, case: &Case) -> Result<FailPlan, AllocError> {
    Ok(FailPlan {
        takes: Vec::from_slice(alloc, case.fails.takes.as_slice())?,
        says: Vec::from_slice(alloc, case.fails.says.as_slice())?,
        disks: Vec::from_slice(alloc, case.fails.disks.as_slice())?,
        dead_from: case.fails.dead_from,
    })
}

/// How a call ended, as cases say it.
fn ending_of(exit: Exit) -> Ending {
    let changed = match exit.changed {
        Some(at) => Some(Change {
            ib: at.ib,
            stored: at.stored,
            computed: at.computed,
        }),
        None => None,
    };
    Ending {
        status: exit.status,
        changed,
    }
}

/// How a run ended, with what the world then is.
fn outcome_of(alloc: Global, exit: Exit, world: &CaseWorld) -> Result<Outcome, AllocError> {
    Ok(Outcome {
        ending: ending_of(exit),
        said: Vec::from_slice(alloc, world.world.said())?,
        main: Vec::from_slice(alloc, world.world.content(Part::Main))?,
        side: Vec::from_slice(alloc, world.world.content(Part::Side))?,
        copy: Vec::from_slice(alloc, world.world.content(Part::Copy))?,
    })
}

/// Runs a case whose words are these.
pub fn run_case(alloc: Global, case: &Case, words: &str) -> Result<Outcome, AllocError> {
    let fails = fails_of(alloc, case)?;
    let start = Start {
        words,
        main: case.main.as_slice(),
        side: case.side.as_slice(),
        input: case.input.as_slice(),
    };
    let (exit, world) = call(alloc, case, start, fails)?;
    outcome_of(alloc, exit, &world)
}
