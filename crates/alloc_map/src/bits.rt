//! A list of bits, eight in a byte.
ghost use Rattle.std.specs.Prelude.{◌≡◌, ◌<◌, ◌≤◌, ◌+◌, ◌*◌, ◌^◌, ◌↔◌, ℕ, false, not, count_by, length, replicate, vec_len, take, drop, IfOk, IsTrue};
ghost use Rattle.std.specs.List.{range_with_len};
ghost use Rattle.alloc_map.specs.Packed.{bits_of};
ghost use Rattle.alloc_map.specs.Slots.{is_used, AreAll, Becomes, Unites};

use pst_base::part;
use std::alloc::{AllocError, Global};
use std::marker::Model;

/// A list of bits, of which each byte has eight, the first in its most significant bit. Contracts see the list.
#[derive(Debug, Drop)]
pub(crate) struct Bits {
    bytes: Vec<u8>,
}

impl Model for Bits {
    ghost use Rattle.std.specs.Prelude.{List, Bool};
    ghost use Rattle.alloc_map.specs.Packed.{bits_of};

    ghost Value = { List Bool };

    ghost view = { λ b. bits_of b.bytes.items };
}

impl Bits {
    /// A number of clear bytes.
    pub(crate) fn new(alloc: Global, bytes: usize) -> Result<Bits, AllocError>
        ensures { IfOk result (λ b. b ≡ replicate (8 * bytes) false) }
    {
        Ok(Bits {
            bytes: zeros(alloc, bytes)?,
        })
    }

    /// How many bytes hold them.
    pub(crate) fn bytes(&self) -> usize
        ensures { 8 * result ≡ length self.now }
    {
        self.bytes.len()
    }

    /// The bit at an index.
    #[inline]
    pub(crate) fn get(&self, at: usize) -> bool
        requires { at < length self.now }
        ensures { result ≡ is_used self.now at }
    {
        self.bytes[at / 8] >> (7 - at % 8) & 1 == 1
    }

    /// Sets or clears the bit at an index.
    #[inline]
    fn put(&mut self, at: usize, value: bool)
        requires { at < length self.old }
        ensures { Becomes self.old self.new at 1 value }
    {
        let bit = 1u8 << (7 - at % 8);
        if value {
            self.bytes[at / 8] |= bit;
        } else {
            self.bytes[at / 8] &= !bit;
        }
    }

    /// Sets or clears the n bits from an index on.
    pub(crate) fn fill(&mut self, from: usize, n: usize, value: bool)
        requires within { from + n ≤ length self.old }
        requires small { length self.old < 2 ^ 32 }
        ensures { Becomes self.old self.new from n value }
    {
        for at in from..from + n {
            self.put(at, value);
        }
    }

    /// Whether the eight bits of a byte are clear.
    #[inline]
    pub(crate) fn is_clear(&self, byte: usize) -> bool
        requires { 8 * byte + 8 ≤ length self.now }
        ensures { IsTrue result ↔ AreAll self.now (8 * byte) 8 false }
    {
        self.bytes[byte] == 0
    }

    /// Whether the bits of n bytes are clear.
    pub(crate) fn are_clear(&self, from: usize, n: usize) -> bool
        requires within { 8 * from + 8 * n ≤ length self.now }
        requires small { length self.now < 2 ^ 32 }
        ensures { IsTrue result ↔ AreAll self.now (8 * from) (8 * n) false }
    {
        for byte in from..from + n {
            if !self.is_clear(byte) {
                return false;
            }
        }
        true
    }

    /// Whether each of the n bits from an index on is set, or each is clear.
    pub(crate) fn are_all(&self, from: usize, n: usize, value: bool) -> bool
        requires within { from + n ≤ length self.now }
        requires small { length self.now < 2 ^ 32 }
        ensures { IsTrue result ↔ AreAll self.now from n value }
    {
        for at in from..from + n {
            if self.get(at) != value {
                return false;
            }
        }
        true
    }

    /// How many of the first n bits are clear.
    pub(crate) fn clear_before(&self, n: usize) -> u64
        requires within { n ≤ length self.now }
        ensures { result ≡ count_by (λ (at : ℕ). not (is_used self.now at)) (range_with_len 0 n) }
    {
        let mut clear = 0;
        for at in 0..n {
            if !self.get(at) {
                clear += 1;
            }
        }
        clear
    }

    /// The bytes of a region's bits.
    pub(crate) fn region(&self, region: usize) -> [u8; 496]
        requires within { 3968 * region + 3968 ≤ length self.now }
        requires small { length self.now < 2 ^ 32 }
        ensures { bits_of result ≡ take 3968 (drop (3968 * region) self.now) }
    {
        let mut bytes = [0u8; 496];
        bytes.copy_from_slice(part(self.bytes.as_slice(), 496 * region, 496));
        bytes
    }

    /// Takes the bits of another list, which has as many.
    pub(crate) fn assign(&mut self, other: &Bits)
        requires { length self.old ≡ length other.now }
        ensures { self.new ≡ other.now }
    {
        copy_over(&mut self.bytes, &other.bytes);
    }

    /// Sets the bits that are set in another list, which has as many.
    pub(crate) fn unite(&mut self, other: &Bits)
        requires { length self.old ≡ length other.now }
        ensures { Unites self.old other.now self.new }
    {
        let added = other.bytes.as_slice();
        for at in 0..added.len() {
            self.bytes[at] |= added[at];
        }
    }

    /// The same bits again.
    pub(crate) fn copy(&self, alloc: Global) -> Result<Bits, AllocError>
        ensures { IfOk result (λ b. b ≡ self.now) }
    {
        Ok(Bits {
            bytes: Vec::from_slice(alloc, self.bytes.as_slice())?,
        })
    }
}

/// Writes the bytes of one list over those of another of the same length.
pub(crate) fn copy_over(to: &mut Vec<u8>, from: &Vec<u8>)
    requires { vec_len to.old ≡ vec_len from.now }
    ensures { to.new.items ≡ from.now.items }
{
    to.as_mut_slice().copy_from_slice(from.as_slice());
}

/// A number of bytes that are 0.
fn zeros(alloc: Global, n: usize) -> Result<Vec<u8>, AllocError>
    ensures { IfOk result (λ v. v.items ≡ replicate n 0) }
{
    Ok(vec![in alloc; 0u8; n]?)
}
