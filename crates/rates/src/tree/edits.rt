//! Lists of edits of the block tree.
use btree_pages::{BlockEntry, Entry};
use pst_base::{Bid, Bref};
use std::alloc::{AllocError, Global};

/// How far the keys of the first tree lie apart.
const APART: u64 = 64;

/// A key of the first tree.
pub(crate) fn first_key(n: u32) -> u64 {
    APART * (u64::from(n) + 1)
}

/// A block with this id.
fn block(bits: u64) -> BlockEntry {
    BlockEntry {
        at: Bref {
            bid: Bid { bits },
            ib: 0x4400,
        },
        cb: 1,
        refs: 2,
    }
}

/// Edits that put the blocks of the first tree, or take them away.
pub(crate) fn first_edits(
    alloc: Global,
    keys: u32,
    put: bool,
) -> Result<Vec<(u64, Option<BlockEntry>)>, AllocError> {
    let mut out = Vec::new(alloc);
    for n in 0..keys {
        let key = first_key(n);
        out.push((key, if put { Some(block(key)) } else { None }))?;
    }
    Ok(out)
}

/// A number that looks random, made of another.
fn mixed(seed: u64) -> u64 {
    let once = seed ^ (seed << 13);
    let twice = once ^ (once >> 7);
    twice ^ (twice << 17)
}

/// Edits that put one new block each into as many equal parts of the first tree's keys, or take those away that the same change put.
pub(crate) fn random_edits(
    alloc: Global,
    keys: u32,
    count: u32,
    change: u32,
    put: bool,
) -> Result<Vec<(u64, Option<BlockEntry>)>, AllocError> {
    let width = (APART * u64::from(keys) / u64::from(count).max(1)).max(APART);
    let mut out = Vec::new(alloc);
    let mut seed = u64::from(change) + 1;
    for n in 0..count {
        seed = mixed(seed);
        let entry = block(
            u64::from(n)
                .saturating_mul(width)
                .saturating_add(seed % width),
        );
        out.push((entry.key(), if put { Some(entry) } else { None }))?;
    }
    Ok(out)
}
