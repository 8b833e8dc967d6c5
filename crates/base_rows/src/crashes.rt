//! What a crash leaves of a file in memory.
use crate::values::{say, say_bytes};
use pst_base::Bytes;
use pst_outside::{FailPlan, Failed, MemWorld, Outside, Part, Pick};
use std::alloc::Global;
use test_lines::{Trouble, Words, number, read_bytes};

/// A world whose FILE has these bytes.
fn world(alloc: Global, bytes: Vec<u8>) -> Result<MemWorld, Trouble> {
    let none = || Bytes::new(alloc);
    let main = Bytes::from_vec(bytes);
    let fails = FailPlan::none(alloc);
    Ok(MemWorld::new(alloc, none(), main, none(), none(), fails)?)
}

/// Writes bytes by a word `AT:BYTES`, or syncs.
fn step(alloc: Global, world: &mut MemWorld, word: &str) -> Result<(), Trouble> {
    let done = match word.split_once(':') {
        Some((at, bytes)) => {
            let at = number(at)?;
            let bytes = read_bytes(alloc, bytes)?;
            world.write_at(Part::Main, at, bytes.as_slice())
        }
        None => world.sync(Part::Main),
    };
    match done {
        Ok(()) => Ok(()),
        Err(Failed) => Err(Trouble::Place),
    }
}

/// Adds what a crash leaves of the file by this pick.
fn say_left(alloc: Global, text: &mut String, world: &MemWorld, pick: Pick) -> Result<(), Trouble> {
    let left = world.crash(alloc, Part::Main, pick)?;
    say_bytes(text, left.as_slice())
}

/// Follows steps, and adds what a crash leaves of the file then: as it was synced, as it was written, and with junk in what wasn't synced.
fn say_crash(
    alloc: Global,
    text: &mut String,
    world: &mut MemWorld,
    steps: &str,
) -> Result<(), Trouble> {
    for word in steps.split(' ') {
        step(alloc, world, word)?;
    }
    say_left(alloc, text, world, Pick::Old)?;
    say(text, " ")?;
    say_left(alloc, text, world, Pick::New)?;
    say(text, " ")?;
    say_left(alloc, text, world, Pick::Junk)
}

/// What a crash leaves of a file after some writes.
pub fn ask_crash(alloc: Global, text: &mut String, words: &mut Words) -> Result<(), Trouble> {
    let bytes = words.bytes(alloc)?;
    let mut world = world(alloc, bytes)?;
    say_crash(alloc, text, &mut world, words.rest())
}
