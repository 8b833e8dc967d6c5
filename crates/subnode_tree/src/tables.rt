//! The blocks that are to list subnodes ([MS-PST] 2.2.2.8.3.3.1 and 2.2.2.8.3.3.2).
ghost use Rattle.std.specs.Prelude.{◌≡◌, ◌≤◌, ◌+◌, ◌*◌, ◌^◌, length, IfOk};
ghost use Rattle.data_tree.specs.Plan.{cut};
ghost use Rattle.subnode_tree.specs.Tables.{Fits, inner, leaf, leaves, listed_as, tables, top};

use crate::blocks::Listed;
use pst_base::{Bid, Bytes, Nid};
use std::alloc::{AllocError, Global};

/// The most entries of a block of level 0.
const MOST: usize = 340;

/// A subnode as a block of level 0 lists it: its NID, the block of its data, and that of its own subnodes. A block of 0 is none.
#[derive(Clone, Copy, Debug, PartialEq, Eq)]
pub(crate) struct Row {
    pub(crate) nid: Nid,
    pub(crate) content: Bid,
    pub(crate) subnodes: Bid,
}

impl Row {
    pub(crate) fn new(nid: Nid, content: Bid, subnodes: Bid) -> Row
        ensures value { result ≡ record { nid = nid; content = content; subnodes = subnodes } }
        ensures fits { Fits result }
    {
        Row {
            nid,
            content,
            subnodes,
        }
    }
}

/// The block of level 0 with some entries.
#[tactic(auto, unfolding(crate::specs::Tables::table))]
fn leaf(alloc: Global, rows: &[Row]) -> Result<Bytes, AllocError>
    requires { length rows.now ≤ 340 }
    ensures { IfOk result (λ b. b ≡ leaf rows.now) }
{
    let mut out = Vec::with_capacity(alloc, 8 + 24 * rows.len())?;
    out.extend_from_slice(&[2, 0])?;
    out.extend_from_slice(&(rows.len() as u16).to_le_bytes())?;
    out.extend_from_slice(&[0; 4])?;
    for row in rows {
        out.extend_from_slice(&u64::from(row.nid.bits).to_le_bytes())?;
        out.extend_from_slice(&row.content.bits.to_le_bytes())?;
        out.extend_from_slice(&row.subnodes.bits.to_le_bytes())?;
    }
    Ok(Bytes::from_vec(out))
}

/// The block of level 1 with some entries.
#[tactic(auto, unfolding(crate::specs::Tables::table))]
fn inner(alloc: Global, listed: &[Listed]) -> Result<Bytes, AllocError>
    requires { length listed.now ≤ 510 }
    ensures { IfOk result (λ b. b ≡ inner listed.now) }
{
    let mut out = Vec::with_capacity(alloc, 8 + 16 * listed.len())?;
    out.extend_from_slice(&[2, 1])?;
    out.extend_from_slice(&(listed.len() as u16).to_le_bytes())?;
    out.extend_from_slice(&[0; 4])?;
    for entry in listed {
        out.extend_from_slice(&u64::from(entry.nid.bits).to_le_bytes())?;
        out.extend_from_slice(&entry.block.bits.to_le_bytes())?;
    }
    Ok(Bytes::from_vec(out))
}

/// The blocks of level 0 with some entries, with ids from `next` on, and how they are listed.
#[tactic(auto, unfolding(crate::specs::Tables::leaves))]
fn leaves(
    alloc: Global,
    rows: &[Row],
    next: u64,
) -> Result<(Vec<(Bid, Bytes)>, Vec<Listed>), AllocError>
    requires { next + 4 * length rows.now ≤ 2 ^ 63 + 2 ^ 62 }
    ensures blocks { IfOk result (λ made. made.0.items ≡ leaves next rows.now) }
    ensures listed { IfOk result (λ made. made.1.items ≡ listed_as next (cut 340 rows.now)) }
{
    let mut blocks = Vec::new(alloc);
    let mut listed = Vec::new(alloc);
    let mut bits = next;
    let mut rest = rows;
    while rest.len() > 0 {
        let (here, others) = rest.split_at(MOST.min(rest.len()));
        let block = Bid { bits: bits + 2 };
        blocks.push((block, leaf(alloc, here)?))?;
        let nid = here[0].nid;
        listed.push(Listed { nid, block })?;
        bits += 4;
        rest = others;
    }
    Ok((blocks, listed))
}

/// The block of level 1 that lists some of level 0, with the id `next`, and none where there are fewer than two.
#[tactic(auto, unfolding(crate::specs::Tables::top))]
fn top(alloc: Global, listed: &[Listed], next: u64) -> Result<Vec<(Bid, Bytes)>, AllocError>
    requires few { length listed.now ≤ 510 }
    requires next { next ≤ 2 ^ 63 + 2 ^ 62 }
    ensures { IfOk result (λ out. out.items ≡ top next listed.now) }
{
    let mut out = Vec::new(alloc);
    if listed.len() > 1 {
        let block = inner(alloc, listed)?;
        out.push((Bid { bits: next + 2 }, block))?;
    }
    Ok(out)
}

/// The blocks that list some subnodes, with ids from `next` on, of which the last is the root.
#[tactic(auto, unfolding(crate::specs::Tables::tables))]
pub(crate) fn tables(
    alloc: Global,
    rows: &[Row],
    next: u64,
) -> Result<Vec<(Bid, Bytes)>, AllocError>
    requires few { length rows.now ≤ 173400 }
    requires next { next ≤ 2 ^ 63 }
    ensures { IfOk result (λ blocks. blocks.items ≡ tables next rows.now) }
{
    let (mut blocks, listed) = leaves(alloc, rows, next)?;
    let after = next + 4 * blocks.len() as u64;
    let mut over = top(alloc, listed.as_slice(), after)?;
    blocks.append(&mut over)?;
    Ok(blocks)
}
