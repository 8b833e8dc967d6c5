//! Checksums, signatures and ids.
use pst_base::{Bid, Nid, make_nid};
use pst_checksum::{crc, sig};
use std::alloc::Global;
use std::fmt::Write;
use test_lines::{Trouble, Words};

/// The checksum of bytes.
pub fn ask_crc(alloc: Global, text: &mut String, words: &mut Words) -> Result<(), Trouble> {
    let bytes = words.bytes(alloc)?;
    let crc = crc(bytes.as_slice());
    Ok(write!(text, "{crc:08x}")?)
}

/// The signature of a place and an id.
pub fn ask_sig(text: &mut String, words: &mut Words) -> Result<(), Trouble> {
    let ib = words.hex()?;
    let sig = sig(ib, Bid { bits: words.hex()? });
    Ok(write!(text, "{sig:04x}")?)
}

/// The id of a node, of its kind and its index.
pub fn ask_nid(text: &mut String, words: &mut Words) -> Result<(), Trouble> {
    let kind = words.byte()?;
    let index = words.id()?;
    if kind >= 32 || index >= 1 << 27 {
        return Err(Trouble::Spelling);
    }
    let nid = make_nid(kind, index).bits;
    Ok(write!(text, "{nid:x}")?)
}

/// The kind and the index of a node's id.
pub fn ask_kind(text: &mut String, words: &mut Words) -> Result<(), Trouble> {
    let nid = Nid { bits: words.id()? };
    let kind = nid.kind();
    let index = nid.index();
    Ok(write!(text, "{kind} {index:x}")?)
}

/// The key of a block's id, and whether it is internal.
pub fn ask_bid(text: &mut String, words: &mut Words) -> Result<(), Trouble> {
    let bid = Bid { bits: words.hex()? };
    let sort = if bid.internal() {
        "internal"
    } else {
        "external"
    };
    let key = bid.key();
    Ok(write!(text, "{key:x} {sort}")?)
}
