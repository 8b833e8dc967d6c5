//! The checksum and the signature that pages, blocks and the header carry.
ghost use Rattle.std.specs.Prelude.{◌≡◌, ◌≤◌, ◌*◌, length, drop};
ghost use Rattle.pst_checksum.specs.Crc.{after_bits, crc_from, crc_of};
ghost use Rattle.pst_checksum.specs.Sig.{sig_of};
ghost use Rattle.pst_checksum.specs.Taken.{carried, crc_added, crc_taken, shifted};

use crate::tables::NEAR;
use pst_base::{Bid, u64_at};

/// What the byte `i` makes of the register `n` bytes on.
#[inline]
fn after_bytes(n: usize, i: u8) -> u32
    requires low { 1 ≤ n }
    requires high { n ≤ 8 }
    ensures { result ≡ after_bits (8 * n) i }
{
    NEAR[256 * (n - 1) + i as usize]
}

/// The register `y`, to which 8 bytes are added, when it has gone on by all of them.
#[inline]
fn after_word(y: u64) -> u32
    ensures { result ≡ after_bits 64 y }
{
    after_bytes(1, (y >> 56) as u8)
        ^ after_bytes(2, (y >> 48 & 0xff) as u8)
        ^ after_bytes(3, (y >> 40 & 0xff) as u8)
        ^ after_bytes(4, (y >> 32 & 0xff) as u8)
        ^ after_bytes(5, (y >> 24 & 0xff) as u8)
        ^ after_bytes(6, (y >> 16 & 0xff) as u8)
        ^ after_bytes(7, (y >> 8 & 0xff) as u8)
        ^ after_bytes(8, (y & 0xff) as u8)
}

/// The register `c` after the bytes, fewer than a word: one byte at a time.
fn after_rest(c: u32, bytes: &[u8]) -> u32
    ensures { result ≡ crc_from c bytes.now }
{
    let mut register = c;
    for b in bytes {
        register = after_bytes(1, (register & 0xff) as u8 ^ b) ^ register >> 8;
    }
    register
}

/// The register `c` after the first word of the bytes.
#[inline]
fn after_first(c: u32, bytes: &[u8]) -> u32
    requires { 8 ≤ length bytes.now }
    ensures { crc_from result (drop 8 bytes.now) ≡ crc_from c bytes.now }
{
    after_word(u64::from(c) ^ u64_at(bytes, 0))
}

/// The register `c` after the bytes, a word of 8 at a time.
fn after_words(c: u32, bytes: &[u8]) -> u32
    ensures { result ≡ crc_from c bytes.now }
{
    let mut register = c;
    let mut rest = bytes;
    while rest.len() >= 8 {
        register = after_first(register, rest);
        rest = &rest[8..];
    }
    after_rest(register, rest)
}

/// What stands in the place of a word when it and the word before it are moved `k` bits on.
#[inline]
fn shift(k: u32, word: u64, before: u64) -> u64
    requires low { 1 ≤ k }
    requires high { k ≤ 63 }
    ensures { result ≡ shifted k word before }
{
    word << k ^ before >> (64 - k)
}

/// What the words that were taken out 2, 3, 4 and 5 words before a word add to it.
#[inline]
fn carry(second: u64, third: u64, fourth: u64, fifth: u64) -> u64
    ensures { result ≡ carried second third fourth fifth }
{
    shift(17, second, third)
        ^ shift(55, second, third)
        ^ shift(19, third, fourth)
        ^ shift(44, fourth, fifth)
}

/// The checksum of the bytes, to whose first five words others are added.
fn after_added(words: [u64; 5], bytes: &[u8]) -> u32
    requires { 40 ≤ length bytes.now }
    ensures { result ≡ crc_added 0 words bytes.now }
{
    let mut register = 0;
    let mut rest = bytes;
    for word in words {
        register = after_word(u64::from(register) ^ word ^ u64_at(rest, 0));
        rest = &rest[8..];
    }
    after_words(register, rest)
}

/// The last five words that were taken out of the bytes, the oldest first. The polynomial divides x^300 + x^155 + x^117 + x^89 + 1, so a word can be taken out if it is added 145, 183, 211 and 300 bits further on, which takes shifts alone.
#[derive(Clone, Copy)]
struct Taken {
    a: u64,
    b: u64,
    c: u64,
    d: u64,
    e: u64,
}

impl Taken {
    /// The words after one more was taken out, the first of the bytes.
    #[inline]
    fn take_word(self, bytes: &[u8]) -> Taken
        requires { 48 ≤ length bytes.now }
        ensures { crc_taken result.a result.b result.c result.d result.e (drop 8 bytes.now)
            ≡ crc_taken self.a self.b self.c self.d self.e bytes.now }
    {
        Taken {
            a: self.b,
            b: self.c,
            c: self.d,
            d: self.e,
            e: u64_at(bytes, 0) ^ carry(self.d, self.c, self.b, self.a),
        }
    }

    /// The words after five more were taken out: together, so that none moves from field to field.
    #[inline]
    fn take_words(self, bytes: &[u8]) -> Taken
        requires { 80 ≤ length bytes.now }
        ensures { crc_taken result.a result.b result.c result.d result.e (drop 40 bytes.now)
            ≡ crc_taken self.a self.b self.c self.d self.e bytes.now }
    {
        self.take_word(bytes)
            .take_word(&bytes[8..])
            .take_word(&bytes[16..])
            .take_word(&bytes[24..])
            .take_word(&bytes[32..])
    }

    /// The checksum when these bytes are the rest.
    fn finish(self, bytes: &[u8]) -> u32
        requires { 40 ≤ length bytes.now }
        ensures { result ≡ crc_taken self.a self.b self.c self.d self.e bytes.now }
    {
        let words = [
            carry(self.d, self.c, self.b, self.a),
            carry(self.e, self.d, self.c, self.b),
            carry(0, self.e, self.d, self.c),
            carry(0, 0, self.e, self.d),
            carry(0, 0, 0, self.e),
        ];
        after_added(words, bytes)
    }
}

/// The checksum of the bytes, five words at a time.
fn crc_by_words(bytes: &[u8]) -> u32
    requires { 40 ≤ length bytes.now }
    ensures { result ≡ crc_of bytes.now }
{
    let mut taken = Taken {
        a: 0,
        b: 0,
        c: 0,
        d: 0,
        e: 0,
    };
    let mut rest = bytes;
    while rest.len() >= 80 {
        taken = taken.take_words(rest);
        rest = &rest[40..];
    }
    taken.finish(rest)
}

/// The checksum of the bytes ([MS-PST] 5.3): the reflected polynomial EDB88320h, from 0, with no final complement.
#[tactic(auto, unfolding(crate::specs::Crc::crc_of))]
pub fn crc(bytes: &[u8]) -> u32
    ensures { result ≡ crc_of bytes.now }
{
    if bytes.len() < 80 {
        after_words(0, bytes)
    } else {
        crc_by_words(bytes)
    }
}

/// The signature of a page or a block at a place in the file ([MS-PST] 5.5).
#[tactic(auto, unfolding(crate::specs::Sig::sig_of))]
pub fn sig(ib: u64, bid: Bid) -> u16
    ensures { result ≡ sig_of ib bid.bits }
{
    let x = ib ^ bid.bits;
    (x & 0xffff) as u16 ^ (x >> 16 & 0xffff) as u16
}
