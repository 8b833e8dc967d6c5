//! Decoding the data of one block.
ghost use Rattle.std.specs.Prelude.{◌≡◌, map};
ghost use Rattle.block_encoding.specs.Encoding.{back, decoded, first_word, forward, swapped, turned, turned_from};

use crate::tables::{BACK, FORWARD, SWAP};
use pst_base::Bid;

/// How the data blocks of a file are encoded (bCryptMethod).
#[derive(Clone, Copy, Debug, PartialEq, Eq)]
pub enum Method {
    /// Each byte is replaced by another: 1, "compressible encryption".
    Permuted,
    /// Each byte is turned by a word that goes on with each byte, from the block's id on: 2.
    Cyclic,
}

/// Decodes the data of the block of an id, in place.
pub fn decode(method: Method, bid: Bid, bytes: &mut [u8])
    ensures { bytes.new ≡ decoded method bid.bits bytes.old }
{
    match method {
        Method::Permuted => put_back(bytes),
        Method::Cyclic => turn_all(first_word(bid), bytes),
    }
}

/// What a byte is encoded as.
#[tactic(auto, unfolding(crate::specs::Encoding::forward))]
fn forward(byte: u8) -> u8
    ensures { result ≡ forward byte }
{
    FORWARD[byte as usize]
}

/// The byte that it is swapped with.
#[tactic(auto, unfolding(crate::specs::Encoding::swapped))]
fn swapped(byte: u8) -> u8
    ensures { result ≡ swapped byte }
{
    SWAP[byte as usize]
}

/// The byte that is encoded as this one.
#[tactic(auto, unfolding(crate::specs::Encoding::back))]
fn back(byte: u8) -> u8
    ensures { result ≡ back byte }
{
    BACK[byte as usize]
}

/// Replaces each byte by the one that is encoded as it.
fn put_back(bytes: &mut [u8])
    ensures { bytes.new ≡ map back bytes.old }
{
    for i in 0..bytes.len() {
        bytes[i] = back(bytes[i]);
    }
}

/// The word of a block's first byte: both halves of the low 32 bits of its id.
fn first_word(bid: Bid) -> u16
    ensures { result ≡ first_word bid.bits }
{
    (bid.bits >> 16 & 0xffff) as u16 ^ (bid.bits & 0xffff) as u16
}

/// A byte turned by a word.
#[tactic(auto, unfolding(crate::specs::Encoding::turned))]
fn turned(word: u16, byte: u8) -> u8
    ensures { result ≡ turned word byte }
{
    let low = (word & 0xff) as u8;
    let high = (word >> 8) as u8;
    let inner = swapped(forward(byte.wrapping_add(low)).wrapping_add(high));
    back(inner.wrapping_sub(high)).wrapping_sub(low)
}

/// Turns each byte by its word, the first of which is given.
fn turn_all(first: u16, bytes: &mut [u8])
    ensures { bytes.new ≡ turned_from first bytes.old }
{
    let mut word = first;
    for i in 0..bytes.len() {
        bytes[i] = turned(word, bytes[i]);
        word = word.wrapping_add(1);
    }
}
