//! Blocks and subnodes as words spell them.
use node_port::NodeRec;
use pst_base::{Blocks, Bytes, Nid, Sub, Subs};
use std::alloc::Global;
use test_lines::{Trouble, Words, number, read_bytes};

/// The block that a word spells.
pub fn block(alloc: Global, word: &str) -> Result<Bytes, Trouble> {
    Ok(Bytes::from_vec(read_bytes(alloc, word)?))
}

/// The blocks that words spell, of which `none` spells none.
pub fn blocks(alloc: Global, words: &str) -> Result<Blocks, Trouble> {
    let mut blocks = Blocks::new(alloc);
    if words != "none" {
        for word in words.split(' ') {
            blocks.push(block(alloc, word)?)?;
        }
    }
    Ok(blocks)
}

/// The id of 32 bits that a word spells.
pub fn id(word: &str) -> Result<u32, Trouble> {
    u32::try_from(number(word)?).ok().ok_or(Trouble::Spelling)
}

/// A subnode with one block, as `NID=BYTES`, and with these below it.
fn sub(alloc: Global, word: &str, subs: Subs) -> Result<Sub, Trouble> {
    let Some((nid, bytes)) = word.split_once('=') else {
        return Err(Trouble::Spelling);
    };
    let nid = Nid { bits: id(nid)? };
    let blocks = blocks(alloc, bytes)?;
    Ok(Sub { nid, blocks, subs })
}

/// The subnodes below one, which `/` parts.
fn below(alloc: Global, words: &str) -> Result<Subs, Trouble> {
    let mut subs = Vec::new(alloc);
    for word in words.split('/') {
        subs.push(sub(alloc, word, Subs::new(alloc))?)?;
    }
    Ok(Subs::from_vec(subs))
}

/// A subnode with those below it behind a `/`.
fn whole(alloc: Global, word: &str) -> Result<Sub, Trouble> {
    match word.split_once('/') {
        Some((own, words)) => sub(alloc, own, below(alloc, words)?),
        None => sub(alloc, word, Subs::new(alloc)),
    }
}

/// The subnodes that words spell, of which `none` spells none.
fn subs(alloc: Global, words: &str) -> Result<Subs, Trouble> {
    let mut subs = Vec::new(alloc);
    if words != "none" {
        for word in words.split(' ') {
            subs.push(whole(alloc, word)?)?;
        }
    }
    Ok(Subs::from_vec(subs))
}

/// The node whose blocks and subnodes are the next two parts of a row.
pub fn node(alloc: Global, words: &mut Words) -> Result<NodeRec, Trouble> {
    let blocks = blocks(alloc, words.part().rest())?;
    let subs = subs(alloc, words.part().rest())?;
    Ok(NodeRec {
        parent: Nid { bits: 0x8022 },
        blocks,
        subs,
    })
}
