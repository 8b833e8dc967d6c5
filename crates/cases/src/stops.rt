//! Stops and failing calls: a case is cut off at each call in turn, and what each outcome of a crash opens as is compared with what whole lines leave.
ghost use Rattle.std.specs.Prelude.{◌≤◌, length};

use crate::running::{Start, call};
use case_lines::{BadStop, Case, CaseWorld, Cut, begun, outcomes};
use mail_session::Exit;
use pst_base::Bytes;
use pst_outside::{FailPlan, Part, Pick};
use std::alloc::{AllocError, Global};

/// How many calls of one sort a case may have that is cut off at each.
const MOST_CALLS: u64 = 100_000;

/// An outcome of a crash that was looked at.
#[derive(Drop)]
struct Seen {
    main: Bytes,
    side: Bytes,
    said: Vec<u8>,
}

/// At which call a case was cut off, and how it ended.
#[derive(Clone, Copy)]
struct Moment {
    cut: Cut,
    call: u64,
    status: u8,
}

impl Moment {
    /// What went wrong there.
    fn bad(self, main: Pick, side: Pick, said: Vec<u8>) -> BadStop {
        BadStop {
            cut: self.cut,
            call: self.call,
            status: self.status,
            main,
            side,
            said,
        }
    }
}

/// What a session over two files says to the lines by which a case looks at them.
fn ask(alloc: Global, case: &Case, main: &[u8], side: &[u8]) -> Result<Vec<u8>, AllocError> {
    let start = Start {
        words: "run FILE",
        main,
        side,
        input: case.looks.as_slice(),
    };
    let (_, w) = call(alloc, case, start, FailPlan::none(alloc))?;
    Vec::from_slice(alloc, w.world.said())
}

/// The same of what a stop left, over which the case's words are run once more where it says so.
fn look(alloc: Global, case: &Case, main: &[u8], side: &[u8]) -> Result<Vec<u8>, AllocError> {
    let Some(words) = case.words.filter(|_| case.again) else {
        return ask(alloc, case, main, side);
    };
    let start = Start {
        words,
        main,
        side,
        input: &[],
    };
    let (_, w) = call(alloc, case, start, FailPlan::none(alloc))?;
    let (main, side) = (w.world.content(Part::Main), w.world.content(Part::Side));
    ask(alloc, case, main, side)
}

/// Where the first n lines of an input end.
fn end_of(input: &[u8], n: usize) -> usize
    ensures { result ≤ length input.now }
{
    let mut left = n;
    for (i, byte) in input.iter().enumerate() {
        if left == 0 {
            return i;
        }
        if *byte == b'\n' {
            left -= 1;
        }
    }
    input.len()
}

/// What is said to the lines that look, after the first n of the case's lines.
fn look_after(alloc: Global, case: &Case, words: &str, n: usize) -> Result<Vec<u8>, AllocError> {
    let start = Start {
        words,
        main: case.main.as_slice(),
        side: case.side.as_slice(),
        input: &case.input.as_slice()[..end_of(case.input.as_slice(), n)],
    };
    let (_, w) = call(alloc, case, start, FailPlan::none(alloc))?;
    let (main, side) = (w.world.content(Part::Main), w.world.content(Part::Side));
    look(alloc, case, main, side)
}

/// What is said to the lines that look, after none of the case's lines, after one, and so on to all.
fn looks_between(alloc: Global, case: &Case, words: &str) -> Result<Vec<Vec<u8>>, AllocError> {
    let lines = case.input.iter().filter(|byte| **byte == b'\n').count();
    let mut looks = Vec::new(alloc);
    for n in 0..=lines {
        looks.push(look_after(alloc, case, words, n)?)?;
    }
    Ok(looks)
}

/// What was said of the same two files where they were looked at before, or else what is said now. Most calls of a disk leave what the one before left.
fn look_once(
    alloc: Global,
    case: &Case,
    main: &[u8],
    side: &[u8],
    before: &[Seen],
) -> Result<Vec<u8>, AllocError> {
    let known = before.iter().find(|it| it.main.as_slice() == main && it.side.as_slice() == side);
    match known {
        Some(it) => Vec::from_slice(alloc, it.said.as_slice()),
        None => look(alloc, case, main, side),
    }
}

/// Whether this is what some of the case's lines leave, at least so many. A word that answers no lines says what it did once.
fn is_whole(looks: &[Vec<u8>], least: usize, said: &[u8]) -> bool {
    let least = least.min(looks.len().saturating_sub(1));
    looks.iter().skip(least).any(|look| look.as_slice() == said)
}

/// The first outcome of a crash at the moment at which a world is that isn't what some lines leave, among them each whose reply had begun. Those that are it are added to what was seen.
fn bad_outcome(
    alloc: Global,
    case: &Case,
    looks: &[Vec<u8>],
    w: &CaseWorld,
    at: Moment,
    before: &[Seen],
    seen: &mut Vec<Seen>,
) -> Result<Option<BadStop>, AllocError> {
    let least = begun(w.world.said());
    let sides = outcomes(alloc, w, Part::Side)?;
    for main in &outcomes(alloc, w, Part::Main)? {
        for side in &sides {
            let (main_bytes, side_bytes) = (main.bytes.as_slice(), side.bytes.as_slice());
            let said = look_once(alloc, case, main_bytes, side_bytes, before)?;
            if !is_whole(looks, least, said.as_slice()) {
                return Ok(Some(at.bad(main.pick, side.pick, said)));
            }
            seen.push(Seen {
                main: Bytes::from_slice(alloc, main_bytes)?,
                side: Bytes::from_slice(alloc, side_bytes)?,
                said,
            })?;
        }
    }
    Ok(None)
}

/// Runs a case that is cut off at a call, and gives how it ended and the world that it left.
fn cut_at(
    alloc: Global,
    case: &Case,
    words: &str,
    cut: Cut,
    number: u64,
) -> Result<(Exit, CaseWorld), AllocError> {
    let mut fails = FailPlan::none(alloc);
    match cut {
        Cut::Stop => fails.dead_from = Some(number),
        Cut::Disk => fails.disks.push(number)?,
        Cut::Take => fails.takes.push(number)?,
        Cut::Say => fails.says.push(number)?,
    }
    let start = Start {
        words,
        main: case.main.as_slice(),
        side: case.side.as_slice(),
        input: case.input.as_slice(),
    };
    call(alloc, case, start, fails)
}

/// The first call at which a case that is cut off ends with another status than it must, or leaves what no whole lines leave; `None` where there is none.
fn bad_cut(
    alloc: Global,
    case: &Case,
    words: &str,
    cut: Cut,
    looks: &[Vec<u8>],
) -> Result<Option<BadStop>, AllocError> {
    let mut before = Vec::new(alloc);
    for number in 0..MOST_CALLS {
        let (exit, w) = cut_at(alloc, case, words, cut, number)?;
        if !cut.came(&w) {
            return Ok(None);
        }
        let at = Moment {
            cut,
            call: number,
            status: exit.status,
        };
        if exit.status != cut.status() {
            let said = Vec::from_slice(alloc, w.world.said())?;
            return Ok(Some(at.bad(Pick::New, Pick::New, said)));
        }
        let mut seen = Vec::new(alloc);
        let bad = bad_outcome(alloc, case, looks, &w, at, before.as_slice(), &mut seen)?;
        if bad.is_some() {
            return Ok(bad);
        }
        before = seen;
    }
    Ok(None)
}

/// The first call at which a case that is cut off in the ways that it tells goes wrong; `None` where there is none.
pub fn bad_stop(alloc: Global, case: &Case, words: &str) -> Result<Option<BadStop>, AllocError> {
    if case.cuts.is_empty() {
        return Ok(None);
    }
    let looks = looks_between(alloc, case, words)?;
    for cut in case.cuts.iter() {
        let bad = bad_cut(alloc, case, words, *cut, looks.as_slice())?;
        if bad.is_some() {
            return Ok(bad);
        }
    }
    Ok(None)
}
