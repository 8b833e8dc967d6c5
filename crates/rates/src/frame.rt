//! Seals or reads a block of 8176 data bytes again and again, or computes only the checksum of its data, so that the rates can be compared.
//!
//! The words are the work, `seal`, `read` or `crc`, and how often it is done; without them `seal`, once. `bench/frames.sh` times it.

ghost use Rattle.std.specs.Prelude.{◌≡◌, length};

use crate::numbers::number_or;
use block_frame::{BlockView, seal};
use pst_base::{Bid, Bref, u32_at};
use pst_checksum::crc;
use std::alloc::{AllocError, Global};

/// Where the block stands.
const AT: Bref = Bref {
    bid: Bid { bits: 0x124 },
    ib: 0x4c00,
};

/// What is done again and again.
#[derive(Clone, Copy)]
enum Work {
    Seal,
    Read,
    Checksum,
}

/// The stored checksum of the data, sealed.
fn sealed_checksum(alloc: Global, body: &[u8]) -> Result<u32, AllocError>
    requires { length body.now ≡ 8176 }
{
    let block = seal(alloc, body, AT)?;
    let bytes = block.as_slice();
    Ok(if bytes.len() == 8192 {
        u32_at(bytes, 8180)
    } else {
        0
    })
}

/// The last byte of the data of a block, or 256 where it can't be read.
fn last_byte(block: &[u8]) -> u32 {
    if block.len() != 8192 {
        return 256;
    }
    match BlockView::read(block, 8176, AT) {
        Ok(view) => view.body().last().map_or(256, |b| u32::from(*b)),
        Err(_) => 256,
    }
}

impl Work {
    /// Does the work so many times, and folds what comes of it. Data has another first byte each time, and two blocks are read in turn, so that no pass can stand for another.
    fn passes(self, alloc: Global, count: u32) -> Result<u32, AllocError> {
        let mut data = [9u8; 8176];
        let even = seal(alloc, &data, AT)?;
        data[8175] = 8;
        let odd = seal(alloc, &data, AT)?;
        let mut sum = 0;
        for pass in 0..count {
            data[0] = (pass & 0xff) as u8;
            let block = if pass % 2 == 0 { &even } else { &odd };
            sum ^= match self {
                Work::Seal => sealed_checksum(alloc, &data)?,
                Work::Read => last_byte(block.as_slice()) ^ pass,
                Work::Checksum => crc(&data),
            };
        }
        Ok(sum)
    }
}

/// The work that a word names.
fn named(word: &str) -> Work {
    match word {
        "read" => Work::Read,
        "crc" => Work::Checksum,
        _ => Work::Seal,
    }
}

/// What comes of the passes that the words ask for.
pub(crate) fn report(alloc: Global, words: &[String]) -> Result<String, AllocError> {
    let work = words
        .first()
        .map_or(Work::Seal, |word| named(word.as_str()));
    let sum = work.passes(alloc, number_or(words, 1, 1))?;
    format!(in alloc; "{sum:08x}")
}
