//! The input's bytes that were taken and not yet answered, and the lines at their front.
ghost use Rattle.std.specs.Prelude.{◌≡◌, ◌+◌, ◌-◌, ◌<◌, ◌≤◌, [], ◌++◌, length, take, drop, slice_range, IfOk, OnErr};
ghost use Rattle.pst_outside.specs.Calls.{Rose};
ghost use Rattle.line_server.specs.Worlds.{Listens};
ghost use Rattle.line_server.specs.Taking.{Takes};
ghost use Rattle.line_server.specs.Fronts.{StandsAt, clean_of};
ghost use Rattle.line_server.specs.Lines.{NoFeedBelow};

use memchr::memchr;
use pst_outside::{Failed, Outside};
use std::alloc::{AllocError, Global};
use std::marker::Model;

/// The most bytes that a line may have before its LF, a CR included.
pub(crate) const LINE_LIMIT: usize = 1_048_576;

const LF: u8 = 10;

/// What stands at the front of the bytes that are held.
#[derive(Clone, Copy, Debug, PartialEq, Eq)]
pub(crate) enum Front {
    /// A line, whose LF stands at this place.
    Line { feed: usize },
    /// More bytes without LF than a line may have.
    Overlong,
    /// The front of a line, or nothing.
    Open,
}

impl Front {
    ghost use Rattle.std.specs.Prelude.{◌↔◌, IsTrue};

    /// Whether no line ends yet.
    pub(crate) fn is_open(self) -> bool
        ensures { IsTrue result ↔ (self ≡ Front.Open) }
    {
        matches!(self, Front::Open)
    }
}

/// The bytes that were taken and not yet answered. Its memory is taken once, at the start.
#[derive(Drop)]
pub(crate) struct LineBuffer {
    bytes: Vec<u8>,
    start: usize,
    end: usize,
    scanned: usize,
}

impl Model for LineBuffer {
    ghost use Rattle.std.specs.Prelude.{ℕ, List, slice_range};
    ghost use Rattle.line_server.specs.Lines.{IsLaid};

    ghost Value = { List ℕ };

    ghost view = { λ b. slice_range b.bytes.items b.start b.end };

    ghost invariant = { λ b. IsLaid b.bytes.items b.start b.end b.scanned };
}

fn zeros(alloc: Global) -> Result<Vec<u8>, AllocError>
    ensures { IfOk result (λ v. length v.items ≡ 1048577) }
{
    vec![in alloc; 0u8; 1_048_577]
}

impl LineBuffer {
    /// A buffer that holds nothing.
    pub(crate) fn new(alloc: Global) -> Result<LineBuffer, AllocError>
        ensures { IfOk result (λ b. b ≡ []) }
    {
        Ok(LineBuffer {
            bytes: zeros(alloc)?,
            start: 0,
            end: 0,
            scanned: 0,
        })
    }

    /// The bytes that are held.
    pub(crate) fn held(&self) -> &[u8]
        ensures value { result.now ≡ self.now }
        ensures few { length self.now ≤ 1048577 }
    {
        &self.bytes[self.start..self.end]
    }

    /// What stands at the front. It goes over each byte once, however often it is called.
    pub(crate) fn front(&mut self) -> Front
        ensures same { self.new ≡ self.old }
        ensures front { StandsAt result self.old }
    {
        let held = &self.bytes[self.start..self.end];
        let front = front_of(held, self.scanned);
        self.scanned = scanned_of(front, held.len());
        front
    }

    /// Lets the first n bytes go.
    pub(crate) fn pass(&mut self, n: usize)
        requires { n ≤ length self.old }
        ensures { self.new ≡ drop n self.old }
    {
        self.start += n;
        self.scanned = 0;
    }

    /// Takes more input behind the bytes that are held, in one call, and gives how many bytes it took: 0 at the end.
    pub(crate) fn fill<W: Outside>(&mut self, world: &mut W) -> Result<usize, Failed>
        requires { length self.old ≤ LINE_LIMIT }
        ensures taken { IfOk result (λ n. Takes n self.old self.new (W.view world.old) (W.view world.new)) }
        ensures err { OnErr result (self.new ≡ self.old) }
        ensures input_err { OnErr result ((W.view world.new).tells → (W.view world.new).input ≡ (W.view world.old).input) }
        ensures cause { OnErr result (Rose (W.view world.old).in_faults (W.view world.new).in_faults) }
        ensures same { Listens (W.view world.old) (W.view world.new) }
    {
        let (start, end) = make_room(&mut self.bytes, self.start, self.end);
        self.start = start;
        self.end = end;
        let n = take_at(world, &mut self.bytes, end)?;
        self.end = end + n;
        Ok(n)
    }
}

/// Moves the bytes from start to end to the front where they stand at the very end, and gives where they stand now.
fn make_room(bytes: &mut Vec<u8>, start: usize, end: usize) -> (usize, usize)
    requires size { length bytes.old.items ≡ 1048577 }
    requires order { start ≤ end }
    requires within { end ≤ 1048577 }
    requires few { end - start ≤ LINE_LIMIT }
    ensures size { length bytes.new.items ≡ 1048577 }
    ensures order { result.0 ≤ result.1 }
    ensures room { result.1 < 1048577 }
    ensures same { slice_range bytes.new.items result.0 result.1 ≡ slice_range bytes.old.items start end }
{
    if end < bytes.len() {
        return (start, end);
    }
    bytes.rotate_left(start);
    (0, end - start)
}

/// Takes input into the bytes from a place on, in one call.
fn take_at<W: Outside>(world: &mut W, bytes: &mut Vec<u8>, at: usize) -> Result<usize, Failed>
    requires { at < length bytes.old.items }
    ensures size { length bytes.new.items ≡ length bytes.old.items }
    ensures within { IfOk result (λ n. at + n ≤ length bytes.old.items) }
    ensures kept { take at bytes.new.items ≡ take at bytes.old.items }
    ensures input { IfOk result (λ n. (W.view world.new).tells → (W.view world.old).input ≡ slice_range bytes.new.items at (at + n) ++ (W.view world.new).input) }
    ensures end { IfOk result (λ n. (W.view world.new).tells → n ≡ 0 → (W.view world.old).input ≡ []) }
    ensures input_err { OnErr result ((W.view world.new).tells → (W.view world.new).input ≡ (W.view world.old).input) }
    ensures cause { OnErr result (Rose (W.view world.old).in_faults (W.view world.new).in_faults) }
    ensures same { Listens (W.view world.old) (W.view world.new) }
{
    let n = world.take(&mut bytes[at..])?;
    Ok(n)
}

/// What stands at the front of bytes of which the first few were seen to hold no LF.
fn front_of(held: &[u8], scanned: usize) -> Front
    requires few { length held.now ≤ 1048577 }
    requires within { scanned ≤ length held.now }
    requires clean { NoFeedBelow scanned held.now }
    ensures { StandsAt result held.now }
{
    match memchr(LF, &held[scanned..]) {
        Some(at) => Front::Line { feed: scanned + at },
        None if held.len() > LINE_LIMIT => Front::Overlong,
        None => Front::Open,
    }
}

/// How many bytes hold no LF, before what stands at the front.
fn scanned_of(front: Front, held: usize) -> usize
    ensures { result ≡ clean_of front held }
{
    match front {
        Front::Line { feed } => feed,
        Front::Overlong | Front::Open => held,
    }
}
