//! The input of a world in memory.
ghost use Rattle.std.specs.Prelude.{◌≡◌, ◌≤◌, ◌<◌, ◌++◌, [], length, take};

use pst_base::Bytes;
use std::marker::Model;

/// Bytes that are taken from the front. Contracts see those that are left.
#[derive(Debug, Drop)]
pub struct Input {
    bytes: Bytes,
    taken: usize,
}

impl Model for Input {
    ghost use Rattle.std.specs.Prelude.{ℕ, List, length, drop, ◌≤◌};

    ghost Value = { List ℕ };

    ghost view = { λ i. drop i.taken i.bytes };

    ghost invariant = { λ i. i.taken ≤ length i.bytes };
}

impl Input {
    pub fn new(bytes: Bytes) -> Input
        ensures { result ≡ bytes }
    {
        Input { bytes, taken: 0 }
    }

    /// Fills the buffer's front with bytes from the front, and gives how many.
    pub fn take(&mut self, buf: &mut [u8]) -> usize
        ensures within { result ≤ length buf.new }
        ensures taken { self.old ≡ take result buf.new ++ self.new }
        ensures end { result ≡ 0 → 0 < length buf.new → self.old ≡ [] }
    {
        let bytes = self.bytes.as_slice();
        let n = buf.len().min(bytes.len() - self.taken);
        buf[..n].copy_from_slice(&bytes[self.taken..self.taken + n]);
        self.taken += n;
        n
    }
}
