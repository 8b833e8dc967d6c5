//! The world of a case: one in memory that takes and says a few bytes at a time, of which a part may turn after it was read, and whose file may be longer than its bytes.
ghost use Rattle.std.specs.Prelude.{◌≡◌, ◌≤◌, ◌+◌, ◌-◌, ◌^◌, min, length};

use pst_outside::{Failed, MemWorld, Outside, Part};
use std::num::NonZeroUsize;

/// Bytes of FILE that are read as they are once, and changed from the second reading of the first of them on.
#[derive(Drop)]
pub struct Turn {
    /// The place of the first of them.
    pub at: u64,
    /// What each is xor when it has turned.
    pub mask: Vec<u8>,
    /// How often the first was read.
    pub readings: u64,
}

impl Turn {
    /// Changes what a reading from a place gave.
    fn apply(&mut self, from: u64, read: &mut [u8]) {
        if self.at >= from && self.at - from < read.len() as u64 {
            self.readings = self.readings.saturating_add(1);
        }
        if self.readings < 2 {
            return;
        }
        let mut at = self.at;
        for bits in self.mask.iter() {
            if at >= from && at - from < read.len() as u64 {
                read[(at - from) as usize] ^= *bits;
            }
            at = at.saturating_add(1);
        }
    }
}

/// Fills what a reading from a place gave with zeros, up to the end of a file that has at least so many bytes. It gives how many there are then.
fn stretch(at_least: u64, at: u64, n: usize, read: &mut [u8]) -> usize
    requires { n ≤ length read.old }
    ensures fits { result ≤ length read.new }
    ensures same { length read.new ≡ length read.old }
{
    let end = at_least.saturating_sub(at).min(read.len() as u64) as usize;
    if end <= n {
        return n;
    }
    read[n..end].fill(0);
    end
}

/// Another world, of which each `take` gives so many bytes at most, each `say` takes so many at most, a part may turn, and FILE has at least so many bytes. As it may turn it tells contracts its counts alone.
#[derive(Drop)]
pub struct CaseWorld {
    pub world: MemWorld,
    pub take_at_most: NonZeroUsize,
    pub say_at_most: NonZeroUsize,
    pub turn: Option<Turn>,
    pub main_at_least: u64,
    pub in_faults: u64,
    pub out_faults: u64,
    pub disk_faults: u64,
    pub written: u128,
}

/// Counts a fault.
fn fault(count: &mut u64) -> Failed
    ensures raised { count.new ≡ min (count.old + 1) (2 ^ 64 - 1) }
    ensures no_fall { count.old ≤ count.new }
{
    *count = count.saturating_add(1);
    Failed
}

impl Outside for CaseWorld {
    ghost use Rattle.pst_outside.specs.Sure.{silent};

    ghost view = { λ w. silent w.in_faults w.out_faults w.disk_faults w.written };

    fn take(&mut self, buf: &mut [u8]) -> Result<usize, Failed> {
        let n = buf.len().min(self.take_at_most.get());
        match self.world.take(&mut buf[..n]) {
            Ok(n) => Ok(n),
            Err(Failed) => Err(fault(&mut self.in_faults)),
        }
    }

    fn say(&mut self, piece: &[u8]) -> Result<usize, Failed> {
        let n = piece.len().min(self.say_at_most.get());
        match self.world.say(&piece[..n]) {
            Ok(n) => Ok(n),
            Err(Failed) => Err(fault(&mut self.out_faults)),
        }
    }

    fn len(&mut self, part: Part) -> Result<u64, Failed> {
        match (self.world.len(part), part) {
            (Ok(n), Part::Main) => Ok(n.max(self.main_at_least)),
            (Ok(n), _) => Ok(n),
            (Err(Failed), _) => Err(fault(&mut self.disk_faults)),
        }
    }

    fn read_at(&mut self, part: Part, at: u64, buf: &mut [u8]) -> Result<usize, Failed> {
        match self.world.read_at(part, at, buf) {
            Ok(n) if part == Part::Main => {
                let n = stretch(self.main_at_least, at, n, buf);
                if let Some(turn) = &mut self.turn {
                    turn.apply(at, &mut buf[..n]);
                }
                Ok(n)
            }
            Ok(n) => Ok(n),
            Err(Failed) => Err(fault(&mut self.disk_faults)),
        }
    }

    fn write_at(&mut self, part: Part, at: u64, bytes: &[u8]) -> Result<(), Failed> {
        self.written = self.written.saturating_add(bytes.len() as u128);
        match self.world.write_at(part, at, bytes) {
            Ok(()) => Ok(()),
            Err(Failed) => Err(fault(&mut self.disk_faults)),
        }
    }

    fn sync(&mut self, part: Part) -> Result<(), Failed> {
        match self.world.sync(part) {
            Ok(()) => Ok(()),
            Err(Failed) => Err(fault(&mut self.disk_faults)),
        }
    }
}
