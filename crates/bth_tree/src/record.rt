//! One record.
ghost use Rattle.std.specs.Prelude.{◌≡◌, ◌≤◌, ◌<◌, ◌^◌, ◌+◌, length, take, drop};
ghost use Rattle.byteorder.specs.Endian.{little_number};

use byteorder::{ByteOrder, LittleEndian};

/// No tree stands there, or not one of these lengths.
#[derive(Clone, Copy, Debug, PartialEq, Eq)]
pub struct BthFault;

/// A record of a tree.
#[derive(Clone, Copy, Debug)]
pub struct Record<'a> {
    pub key: u32,
    pub entry: &'a [u8],
}

/// The number in the first `k` bytes, the lowest first.
pub fn key_at(b: &[u8], k: usize) -> u32
    requires low { 1 ≤ k }
    requires high { k ≤ 4 }
    requires size { k ≤ length b.now }
    ensures value { result ≡ little_number k b.now }
    ensures fits { result < 256 ^ k }
{
    LittleEndian::read_uint(b, k) as u32
}

/// The record at the front of bytes.
pub fn record_at(b: &[u8], k: usize, e: usize) -> Record<'_>
    requires low { 1 ≤ k }
    requires high { k ≤ 4 }
    requires size { k + e ≤ length b.now }
    ensures key { result.key ≡ little_number k (take (k + e) b.now) }
    ensures entry { result.entry.now ≡ drop k (take (k + e) b.now) }
    ensures fits { result.key < 256 ^ k }
    ensures length { length result.entry.now ≡ e }
{
    let record = &b[..k + e];
    Record {
        key: key_at(record, k),
        entry: &record[k..],
    }
}
