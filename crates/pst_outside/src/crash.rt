//! What a crash may leave of a part: its events again from the start, and the outcome that is picked.
ghost use Rattle.std.specs.Prelude.{◌≡◌, IfOk, OnOk};
ghost use Rattle.pst_outside.specs.Replay.{Disk, stable, part_of, part_after_write, part_after_loss, part_after_sync, step, replay, junk_range, junked, picked};
ghost use Rattle.pst_outside.specs.Memory.{state_of};

use crate::Part;
use crate::parts::overwrite;
use crate::record::Event;
use pst_base::{Bytes, Place};
use std::alloc::{AllocError, Global};

/// Which outcome of a crash.
#[derive(Clone, Copy, Debug, PartialEq, Eq)]
pub enum Pick {
    /// What was synced.
    Old,
    /// All writes.
    New,
    /// All writes, and A5h in every range written since the last sync.
    Junk,
}

/// A part as its events have left it.
#[derive(Drop)]
pub struct Replayed {
    synced: Vec<u8>,
    now: Vec<u8>,
    ranges: Vec<Place>,
}

impl Replayed {
    fn new(alloc: Global, bytes: &[u8]) -> Result<Replayed, AllocError>
        ensures { IfOk result (λ r. state_of r ≡ stable bytes.now) }
    {
        Ok(Replayed {
            synced: Vec::from_slice(alloc, bytes)?,
            now: Vec::from_slice(alloc, bytes)?,
            ranges: Vec::new(alloc),
        })
    }

    fn write(&mut self, at: u64, bytes: &[u8]) -> Result<(), AllocError>
        ensures { OnOk result (state_of self.new ≡ part_after_write at bytes.now (state_of self.old)) }
    {
        overwrite(&mut self.now, at, bytes)?;
        self.ranges.push(Place {
            ib: at,
            len: bytes.len() as u64,
        })?;
        Ok(())
    }

    fn lose(&mut self, at: u64, n: u64) -> Result<(), AllocError>
        ensures { OnOk result (state_of self.new ≡ part_after_loss at n (state_of self.old)) }
    {
        self.ranges.push(Place { ib: at, len: n })?;
        Ok(())
    }

    fn sync(&mut self, alloc: Global) -> Result<(), AllocError>
        ensures { OnOk result (state_of self.new ≡ part_after_sync (state_of self.old)) }
    {
        self.synced = Vec::from_slice(alloc, self.now.as_slice())?;
        self.ranges.clear();
        Ok(())
    }

    /// Does what the event did to the part.
    fn follow(&mut self, alloc: Global, part: Part, event: &Event) -> Result<(), AllocError>
        ensures { OnOk result ((disk : Disk) → state_of self.old ≡ part_of part disk → state_of self.new ≡ part_of part (step disk event.now)) }
    {
        match event {
            Event::Wrote(its, at, bytes) if *its == part => self.write(*at, bytes.as_slice()),
            Event::Lost(its, at, n) if *its == part => self.lose(*at, *n),
            Event::Synced(its) if *its == part => self.sync(alloc),
            _ => Ok(()),
        }
    }

    fn outcome(mut self, pick: Pick) -> Bytes
        ensures { result ≡ picked pick (state_of self) }
    {
        match pick {
            Pick::Old => Bytes::from_vec(self.synced),
            Pick::New => Bytes::from_vec(self.now),
            Pick::Junk => {
                junk(&mut self.now, &self.ranges);
                Bytes::from_vec(self.now)
            }
        }
    }
}

/// The outcome that is picked, of a part that held `first`, all stable, before these events.
pub fn outcome(
    alloc: Global,
    first: &[u8],
    events: &[Event],
    part: Part,
    pick: Pick,
) -> Result<Bytes, AllocError>
    ensures { IfOk result (λ b. (disk : Disk) → stable first.now ≡ part_of part disk → b ≡ picked pick (part_of part (replay disk events.now))) }
{
    let mut replayed = Replayed::new(alloc, first)?;
    for event in events {
        replayed.follow(alloc, part, event)?;
    }
    Ok(replayed.outcome(pick))
}

/// Puts A5h in each of the ranges, as far as the bytes go.
fn junk(bytes: &mut [u8], ranges: &[Place])
    ensures { bytes.new ≡ junked bytes.old ranges.now }
{
    for range in ranges {
        junk_one(bytes, range.ib, range.len);
    }
}

fn junk_one(bytes: &mut [u8], at: u64, len: u64)
    ensures { bytes.new ≡ junk_range bytes.old (record { ib = at; len = len }) }
{
    let start = bytes.len().min(at as usize);
    let end = start + (bytes.len() - start).min(len as usize);
    bytes[start..end].fill(0xA5);
}
