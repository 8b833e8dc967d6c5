//! Numbers in bytes, the lowest byte first, read and written at a place.
ghost use Rattle.std.specs.Prelude.{◌≡◌, ◌≤◌, ◌<◌, ◌+◌, ◌^◌, length, take, drop};
ghost use Rattle.byteorder.specs.Endian.{little_bytes};
ghost use Rattle.pst_base.specs.Fields.{number_at, replaced};

use byteorder::{ByteOrder, LittleEndian};

/// The byte at a place.
#[inline]
#[tactic(auto, unfolding(crate::specs::Fields::number_at))]
pub fn u8_at(b: &[u8], at: usize) -> u8
    requires { at < length b.now }
    ensures { result ≡ number_at 1 at b.now }
{
    b[at]
}

/// The number in the 2 bytes from a place on.
#[inline]
#[tactic(auto, unfolding(crate::specs::Fields::number_at))]
pub fn u16_at(b: &[u8], at: usize) -> u16
    requires { at + 2 ≤ length b.now }
    ensures { result ≡ number_at 2 at b.now }
{
    LittleEndian::read_u16(&b[at..])
}

/// The number in the 4 bytes from a place on.
#[inline]
#[tactic(auto, unfolding(crate::specs::Fields::number_at))]
pub fn u32_at(b: &[u8], at: usize) -> u32
    requires { at + 4 ≤ length b.now }
    ensures { result ≡ number_at 4 at b.now }
{
    LittleEndian::read_u32(&b[at..])
}

/// The number in the 8 bytes from a place on.
#[inline]
#[tactic(auto, unfolding(crate::specs::Fields::number_at))]
pub fn u64_at(b: &[u8], at: usize) -> u64
    requires { at + 8 ≤ length b.now }
    ensures { result ≡ number_at 8 at b.now }
{
    LittleEndian::read_u64(&b[at..])
}

/// The `n` bytes from a place on.
#[inline]
pub fn part(b: &[u8], at: usize, n: usize) -> &[u8]
    requires { at + n ≤ length b.now }
    ensures { result.now ≡ take n (drop at b.now) }
{
    &b[at..at + n]
}

/// Writes a byte at a place.
pub fn put_u8(b: &mut [u8], at: usize, x: u8)
    requires { at < length b.old }
    ensures written { b.new ≡ replaced at (little_bytes 1 x) b.old }
    ensures fits { x < 256 ^ 1 }
{
    b[at] = x;
}

/// Writes a number into the 2 bytes from a place on.
pub fn put_u16(b: &mut [u8], at: usize, x: u16)
    requires { at + 2 ≤ length b.old }
    ensures written { b.new ≡ replaced at (little_bytes 2 x) b.old }
    ensures fits { x < 256 ^ 2 }
{
    LittleEndian::write_u16(&mut b[at..], x);
}

/// Writes a number into the 4 bytes from a place on.
pub fn put_u32(b: &mut [u8], at: usize, x: u32)
    requires { at + 4 ≤ length b.old }
    ensures written { b.new ≡ replaced at (little_bytes 4 x) b.old }
    ensures fits { x < 256 ^ 4 }
{
    LittleEndian::write_u32(&mut b[at..], x);
}

/// Writes a number into the 8 bytes from a place on.
pub fn put_u64(b: &mut [u8], at: usize, x: u64)
    requires { at + 8 ≤ length b.old }
    ensures written { b.new ≡ replaced at (little_bytes 8 x) b.old }
    ensures fits { x < 256 ^ 8 }
{
    LittleEndian::write_u64(&mut b[at..], x);
}
