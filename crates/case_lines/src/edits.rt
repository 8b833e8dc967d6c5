//! Changes to the bytes of a file, by the words of a line.
ghost use Rattle.std.specs.Prelude.{◌≡◌, ◌≤◌, ◌+◌, length, OnOk, OnErr};
ghost use Rattle.pst_base.specs.Fields.{replaced};

use block_frame::seal as seal_block;
use page_frame::seal as seal_page;
use pst_base::{Bid, Bref, put_u32, u64_at};
use pst_checksum::crc;
use std::alloc::Global;
use test_lines::{Trouble, Words, number};

/// The most bytes that a case file may give a file.
const MOST: usize = 1 << 28;

/// Follows a line that changes bytes: its first word, and those behind it.
pub fn edit(
    alloc: Global,
    bytes: &mut Vec<u8>,
    verb: &str,
    words: &mut Words,
) -> Result<(), Trouble> {
    match verb {
        "zeros" => add_zeros(bytes, words),
        "cut" => cut(bytes, words),
        "hex" => add_bytes(alloc, bytes, words),
        "put" => put_bytes(alloc, bytes, words),
        "xor" => flip(alloc, bytes, words),
        "fill" => fill(bytes, words),
        "u8" => numbers(bytes, words, 1),
        "u16" => numbers(bytes, words, 2),
        "u32" => numbers(bytes, words, 4),
        "u64" => numbers(bytes, words, 8),
        "rows" => put_rows(bytes, words),
        "mend" => mend(alloc, bytes, words),
        _ => Err(Trouble::Spelling),
    }
}

fn add_zeros(bytes: &mut Vec<u8>, words: &mut Words) -> Result<(), Trouble> {
    let count = words.size()?;
    if count > MOST || bytes.len() > MOST {
        return Err(Trouble::Place);
    }
    Ok(bytes.resize(bytes.len() + count, 0)?)
}

/// Adds bytes behind others.
pub fn add(bytes: &mut Vec<u8>, more: &[u8]) -> Result<(), Trouble> {
    Ok(bytes.extend_from_slice(more)?)
}

/// Adds the bytes that the next word spells.
pub fn add_bytes(alloc: Global, bytes: &mut Vec<u8>, words: &mut Words) -> Result<(), Trouble> {
    let more = words.bytes(alloc)?;
    add(bytes, more.as_slice())
}

fn cut(bytes: &mut Vec<u8>, words: &mut Words) -> Result<(), Trouble> {
    let len = words.size()?;
    if len > bytes.len() {
        return Err(Trouble::Place);
    }
    bytes.truncate(len);
    Ok(())
}

/// Whether so many bytes stand at a place.
fn reach(bytes: &[u8], at: usize, len: usize) -> Result<(), Trouble>
    ensures { OnOk result (at + len ≤ length bytes.now) }
{
    if at > bytes.len() || len > bytes.len() - at {
        return Err(Trouble::Place);
    }
    Ok(())
}

/// Puts bytes at a place.
pub fn put(bytes: &mut [u8], at: usize, more: &[u8]) -> Result<(), Trouble>
    ensures put { OnOk result (bytes.new ≡ replaced at more.now bytes.old) }
    ensures refused { OnErr result (bytes.new ≡ bytes.old) }
{
    reach(bytes, at, more.len())?;
    bytes[at..at + more.len()].copy_from_slice(more);
    Ok(())
}

fn put_bytes(alloc: Global, bytes: &mut [u8], words: &mut Words) -> Result<(), Trouble> {
    let at = words.size()?;
    let more = words.bytes(alloc)?;
    put(bytes, at, more.as_slice())
}

/// Changes the bits of bytes at a place that are set in others.
fn flip(alloc: Global, bytes: &mut [u8], words: &mut Words) -> Result<(), Trouble> {
    let at = words.size()?;
    let mask = words.bytes(alloc)?;
    xor(bytes, at, mask.as_slice())
}

fn xor(bytes: &mut [u8], at: usize, mask: &[u8]) -> Result<(), Trouble> {
    reach(bytes, at, mask.len())?;
    for i in 0..mask.len() {
        bytes[at + i] ^= mask[i];
    }
    Ok(())
}

fn fill(bytes: &mut [u8], words: &mut Words) -> Result<(), Trouble> {
    let at = words.size()?;
    let len = words.size()?;
    let byte = words.byte()?;
    reach(bytes, at, len)?;
    bytes[at..at + len].fill(byte);
    Ok(())
}

/// Puts a number of so many bytes, 8 at most, at a place.
fn put_number(bytes: &mut [u8], at: usize, width: usize, number: u64) -> Result<(), Trouble> {
    let all = number.to_le_bytes();
    let (low, high) = all.split_at(width.min(8));
    if high.iter().any(|byte| *byte != 0) {
        return Err(Trouble::Spelling);
    }
    put(bytes, at, low)
}

fn numbers(bytes: &mut [u8], words: &mut Words, width: usize) -> Result<(), Trouble> {
    let at = words.size()?;
    put_numbers(bytes, at, width, words.rest())?;
    Ok(())
}

/// Puts the numbers that words spell, each in so many bytes, one behind the other from a place on, and gives the place behind them.
fn put_numbers(bytes: &mut [u8], at: usize, width: usize, words: &str) -> Result<usize, Trouble> {
    let mut at = at;
    for word in words.split(' ') {
        put_number(bytes, at, width, number(word)?)?;
        at = at.saturating_add(width);
    }
    Ok(at)
}

/// Puts the same numbers of 8 bytes again and again, of which the first goes up by 1.
fn put_rows(bytes: &mut [u8], words: &mut Words) -> Result<(), Trouble> {
    let mut at = words.size()?;
    let count = words.number()?;
    let mut first = words.number()?;
    let others = words.rest();
    for _ in 0..count {
        put_number(bytes, at, 8, first)?;
        at = put_numbers(bytes, at.saturating_add(8), 8, others)?;
        first = first.saturating_add(1);
    }
    Ok(())
}

/// Makes the checksums and the signature of a header, a page or a block right.
fn mend(alloc: Global, bytes: &mut [u8], words: &mut Words) -> Result<(), Trouble> {
    match words.word()? {
        "header" => mend_header(bytes, words.size()?),
        "page" => mend_page(bytes, words),
        "block" => mend_block(alloc, bytes, words),
        _ => Err(Trouble::Spelling),
    }
}

fn mend_header(bytes: &mut [u8], at: usize) -> Result<(), Trouble> {
    reach(bytes, at, 564)?;
    let header = &mut bytes[at..at + 564];
    let partial = crc(&header[8..479]);
    put_u32(header, 4, partial);
    let full = crc(&header[8..524]);
    put_u32(header, 524, full);
    Ok(())
}

/// Writes the trailer of a page: with the kind and the id that are given, or those that stand in it.
fn mend_page(bytes: &mut [u8], words: &mut Words) -> Result<(), Trouble> {
    let at = words.size()?;
    reach(bytes, at, 512)?;
    let (kind, bits) = if words.is_empty() {
        (bytes[at + 496], u64_at(bytes, at + 504))
    } else {
        (words.byte()?, words.number()?)
    };
    let mut body = [0u8; 496];
    body.copy_from_slice(&bytes[at..at + 496]);
    let place = Bref {
        bid: Bid { bits },
        ib: at as u64,
    };
    put(bytes, at, &seal_page(&body, kind, place))
}

/// Writes the trailer of a block of so many data bytes: with the id that is given, or that which stands in it.
fn mend_block(alloc: Global, bytes: &mut [u8], words: &mut Words) -> Result<(), Trouble> {
    let at = words.size()?;
    let len = words.size()?;
    if len > 8176 {
        return Err(Trouble::Place);
    }
    let size = (len + 16).div_ceil(64) * 64;
    reach(bytes, at, size)?;
    let bits = if words.is_empty() {
        u64_at(bytes, at + size - 8)
    } else {
        words.number()?
    };
    let place = Bref {
        bid: Bid { bits },
        ib: at as u64,
    };
    let sealed = seal_block(alloc, &bytes[at..at + len], place)?;
    put(bytes, at, sealed.as_slice())
}
