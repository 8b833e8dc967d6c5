//! A world in memory that tells everything: what it holds and has said, and what a crash at each moment may leave.
ghost use Rattle.std.specs.Prelude.{◌≡◌, ◌+◌, ◌-◌, ◌^◌, ◌≤◌, ◌++◌, ◌∷◌, [], ◌==◌, min, ◌⊎◌, ℕ, List, length, take, drop, IfOk, OnOk, OnErr, ◌||◌};
ghost use Rattle.std.specs.List.{list_any};
ghost use Rattle.pst_outside.specs.World.{Image, content, after_write};
ghost use Rattle.pst_outside.specs.Replay.{held, replay};
ghost use Rattle.pst_outside.specs.Memory.{is_dead, start, bytes_of, image_of, with_content};
ghost use Rattle.pst_outside.specs.declared.record.Event.TheVariants.{Said, Wrote, Lost};

use crate::crash::{Pick, outcome};
use crate::input::Input;
use crate::parts::Parts;
use crate::record::Event;
use crate::{Failed, Outside, Part};
use pst_base::Bytes;
use std::alloc::{AllocError, Global};

/// Which calls of a `MemWorld` fail. The lists hold the numbers, from 0, of the calls of `take`, of `say`, and of the four of the disk together.
#[derive(Debug, Drop)]
pub struct FailPlan {
    pub takes: Vec<u64>,
    pub says: Vec<u64>,
    pub disks: Vec<u64>,
    /// The number of the disk call from which on all disk calls fail.
    pub dead_from: Option<u64>,
}

impl FailPlan {
    /// No call fails.
    pub fn none(alloc: Global) -> FailPlan
        ensures takes { result.takes.items ≡ [] }
        ensures says { result.says.items ≡ [] }
        ensures disks { result.disks.items ≡ [] }
        ensures alive { result.dead_from ≡ None }
    {
        FailPlan {
            takes: Vec::new(alloc),
            says: Vec::new(alloc),
            disks: Vec::new(alloc),
            dead_from: None,
        }
    }
}

/// A disk, an input and an output in memory, with a plan of which calls fail. It records its disk and `say` calls, in order, from which what a crash may leave follows.
#[derive(Drop)]
pub struct MemWorld {
    alloc: Global,
    first: Parts,
    parts: Parts,
    said: Vec<u8>,
    events: Vec<Event>,
    input: Input,
    fails: FailPlan,
    takes: u64,
    says: u64,
    disks: u64,
    in_faults: u64,
    out_faults: u64,
    disk_faults: u64,
    written: u128,
    ghost kept: { image_of parts said.items ≡ held (replay (start first) events.items) },
}

impl MemWorld {
    ghost use Rattle.pst_outside.specs.Memory.{Starts};
    ghost use Rattle.pst_outside.specs.Replay.{picked};
    ghost use Rattle.pst_outside.specs.Crash.{state_in};

    /// A world that holds these bytes, all synced, and has this input. Nothing is pending and nothing said.
    pub fn new(
        alloc: Global,
        input: Bytes,
        main: Bytes,
        side: Bytes,
        copy: Bytes,
        fails: FailPlan,
    ) -> Result<MemWorld, AllocError>
        ensures { IfOk result (λ m. Starts input main side copy (⟦<MemWorld as Outside>⟧.view m)) }
    {
        let first = Parts::copied(alloc, main.as_slice(), side.as_slice(), copy.as_slice())?;
        Ok(MemWorld {
            alloc,
            first,
            parts: Parts {
                main: main.into_vec(),
                side: side.into_vec(),
                copy: copy.into_vec(),
            },
            said: Vec::new(alloc),
            events: Vec::new(alloc),
            input: Input::new(input),
            fails,
            takes: 0,
            says: 0,
            disks: 0,
            in_faults: 0,
            out_faults: 0,
            disk_faults: 0,
            written: 0,
        })
    }

    /// One part as a crash at this moment may leave it: the outcome that is picked.
    pub fn crash(&self, alloc: Global, part: Part, pick: Pick) -> Result<Bytes, AllocError>
        ensures value { IfOk result (λ b. b ≡ picked pick (state_in part self.entry.now)) }
        ensures image { IfOk result (λ b. (c : Image) × (⟦<MemWorld as Outside>⟧.view self.entry.now).may_leave c × (content part c ≡ b)) }
    {
        let first = self.first.bytes(part);
        let bytes = outcome(alloc, first, self.events.as_slice(), part, pick)?;
        Ok(bytes)
    }

    /// What was said so far.
    pub fn said(&self) -> &[u8]
        ensures { result.now ≡ (⟦<MemWorld as Outside>⟧.view self.now).here.said }
    {
        self.said.as_slice()
    }

    /// What a read of a part gives.
    pub fn content(&self, part: Part) -> &[u8]
        ensures { result.now ≡ content part (⟦<MemWorld as Outside>⟧.view self.now).here }
    {
        self.parts.bytes(part)
    }
}

impl Outside for MemWorld {
    ghost use Rattle.pst_outside.specs.Replay.{world_of};

    ghost view = { λ m. world_of (start m.first) m.events.items m.in_faults m.out_faults m.disk_faults m.written m.input };

    fn take(&mut self, buf: &mut [u8]) -> Result<usize, Failed> {
        if planned(&self.fails.takes, &mut self.takes) {
            return Err(fault(&mut self.in_faults));
        }
        Ok(self.input.take(buf))
    }

    fn say(&mut self, piece: &[u8]) -> Result<usize, Failed> {
        if planned(&self.fails.says, &mut self.says) {
            return Err(fault(&mut self.out_faults));
        }
        match speak(self.alloc, &mut self.said, &mut self.events, piece) {
            Ok(()) => Ok(piece.len()),
            Err(_) => Err(fault(&mut self.out_faults)),
        }
    }

    fn len(&mut self, part: Part) -> Result<u64, Failed> {
        if fails_now(&self.fails, &mut self.disks) {
            return Err(fault(&mut self.disk_faults));
        }
        Ok(self.parts.bytes(part).len() as u64)
    }

    fn read_at(&mut self, part: Part, at: u64, buf: &mut [u8]) -> Result<usize, Failed> {
        if fails_now(&self.fails, &mut self.disks) {
            return Err(fault(&mut self.disk_faults));
        }
        Ok(copy_from(self.parts.bytes(part), at, buf))
    }

    fn write_at(&mut self, part: Part, at: u64, bytes: &[u8]) -> Result<(), Failed> {
        self.written = self.written.saturating_add(bytes.len() as u128);
        if fails_now(&self.fails, &mut self.disks) {
            lose(&mut self.events, part, at, bytes.len() as u64);
            return Err(fault(&mut self.disk_faults));
        }
        match write(
            self.alloc,
            &mut self.parts,
            &mut self.events,
            part,
            at,
            bytes,
        ) {
            Ok(()) => Ok(()),
            Err(_) => Err(fault(&mut self.disk_faults)),
        }
    }

    fn sync(&mut self, part: Part) -> Result<(), Failed> {
        if fails_now(&self.fails, &mut self.disks) {
            return Err(fault(&mut self.disk_faults));
        }
        match record(&mut self.events, Event::Synced(part)) {
            Ok(()) => Ok(()),
            Err(_) => Err(fault(&mut self.disk_faults)),
        }
    }
}

/// Whether the plan has this call fail. It counts the call.
fn planned(numbers: &[u64], calls: &mut u64) -> bool
    ensures planned { result ≡ list_any (λ number. number == calls.old) numbers.now }
    ensures counted { calls.new ≡ min (calls.old + 1) (2 ^ 64 - 1) }
{
    let number = *calls;
    *calls = number.saturating_add(1);
    numbers.contains(&number)
}

/// Whether the plan has this disk call fail. It counts the call.
fn fails_now(plan: &FailPlan, calls: &mut u64) -> bool
    ensures planned { result ≡ (list_any (λ number. number == calls.old) plan.now.disks.items || is_dead plan.now.dead_from calls.old) }
    ensures counted { calls.new ≡ min (calls.old + 1) (2 ^ 64 - 1) }
{
    let number = *calls;
    planned(&plan.disks, calls) || plan.dead_from.is_some_and(|from| from <= number)
}

/// Counts a fault.
pub fn fault(count: &mut u64) -> Failed
    ensures raised { count.new ≡ min (count.old + 1) (2 ^ 64 - 1) }
    ensures no_fall { count.old ≤ count.new }
{
    *count = count.saturating_add(1);
    Failed
}

/// Reads from a place of a list, and gives how many bytes of the buffer it filled.
pub fn copy_from(bytes: &[u8], at: u64, buf: &mut [u8]) -> usize
    ensures within { result ≤ length buf.new }
    ensures read { take result buf.new ≡ take (length buf.new) (drop at bytes.now) }
    ensures rest { drop result buf.new ≡ drop result buf.old }
{
    let start = bytes.len().min(at as usize);
    let n = buf.len().min(bytes.len() - start);
    buf[..n].copy_from_slice(&bytes[start..start + n]);
    n
}

fn speak(
    alloc: Global,
    said: &mut Vec<u8>,
    events: &mut Vec<Event>,
    piece: &[u8],
) -> Result<(), AllocError>
    ensures said { OnOk result (said.new.items ≡ said.old.items ++ piece.now) }
    ensures event { OnOk result (events.new.items ≡ events.old.items ++ Said piece.now ∷ []) }
    ensures said_err { OnErr result (said.new.items ≡ said.old.items) }
    ensures event_err { OnErr result (events.new.items ≡ events.old.items) }
{
    let event = Event::Said(Bytes::from_slice(alloc, piece)?);
    said.reserve(piece.len())?;
    record(events, event)?;
    said.extend_from_slice(piece)
}

fn record(events: &mut Vec<Event>, event: Event) -> Result<(), AllocError>
    ensures ok { OnOk result (events.new.items ≡ events.old.items ++ event ∷ []) }
    ensures err { OnErr result (events.new.items ≡ events.old.items) }
{
    events.push(event)?;
    Ok(())
}

/// Records a write that failed, if there is memory for it.
fn lose(events: &mut Vec<Event>, part: Part, at: u64, n: u64)
    ensures { (events.new.items ≡ events.old.items) ⊎ (events.new.items ≡ events.old.items ++ Lost part at n ∷ []) }
{
    let _ = record(events, Event::Lost(part, at, n));
}

fn write(
    alloc: Global,
    parts: &mut Parts,
    events: &mut Vec<Event>,
    part: Part,
    at: u64,
    piece: &[u8],
) -> Result<(), AllocError>
    ensures parts { OnOk result ((spoken : List ℕ) → image_of parts.new spoken ≡ with_content part (after_write (bytes_of part parts.old) at piece.now) (image_of parts.old spoken)) }
    ensures event { OnOk result (events.new.items ≡ events.old.items ++ Wrote part at piece.now ∷ []) }
    ensures parts_err { OnErr result ((spoken : List ℕ) → image_of parts.new spoken ≡ image_of parts.old spoken) }
    ensures event_err { OnErr result (events.new.items ≡ events.old.items) }
{
    let event = Event::Wrote(part, at, Bytes::from_slice(alloc, piece)?);
    record(events, event)?;
    match parts.overwrite(part, at, piece) {
        Ok(()) => Ok(()),
        Err(error) => {
            let _ = events.pop();
            Err(error)
        }
    }
}
