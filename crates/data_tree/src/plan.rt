//! The blocks of a data tree that is to be written.
ghost use Rattle.std.specs.Prelude.{◌≡◌, ◌≤◌, ◌<◌, ◌+◌, ◌*◌, ◌%◌, ◌^◌, ◌++◌, [], drop, length, map, IfOk};
ghost use Rattle.data_tree.specs.Plan.{AreSmall, IsContent, MayKeep, NamesKept, Reaches, ReadsAs, ReadsKept, Rise, above, above_kept, bids_in, bytes_in, contents, cut, first_kept, fresh, kept_bids, last_id, listing, numbered, placed, plain, planned, root_kept, unkept, xblock, xblocks, xxblock};

use pst_base::{Bid, Bytes};
use std::alloc::{AllocError, Global};

/// The most ids that a block names.
const MOST: usize = 1021;

/// The blocks of a data tree that are to be written.
#[derive(Debug, Drop)]
pub struct DataPlan {
    /// The id of the root, 0 where there is no block.
    pub bid: Bid,
    /// The blocks' data, by ascending ids.
    pub blocks: Vec<(Bid, Bytes)>,
    /// The number that the next block may have.
    pub next: u64,
}

/// Data blocks with ids from `next` on.
fn numbered(alloc: Global, blocks: &[Bytes], next: u64) -> Result<Vec<(Bid, Bytes)>, AllocError>
    requires { next + 4 * length blocks.now ≤ 2 ^ 63 + 2 ^ 62 }
    ensures { IfOk result (λ out. out.items ≡ numbered 0 next blocks.now) }
{
    let mut out = Vec::with_capacity(alloc, blocks.len())?;
    let mut bits = next;
    for block in blocks {
        out.push((Bid { bits }, block.copy(alloc)?))?;
        bits += 4;
    }
    Ok(out)
}

/// How many bytes the blocks have together.
fn bytes_in(blocks: &[(Bid, Bytes)]) -> u32
    requires { bytes_in (contents blocks.now) < 2 ^ 32 }
    ensures { result ≡ bytes_in (contents blocks.now) }
{
    let mut total = 0;
    for block in blocks {
        total += block.1.len() as u32;
    }
    total
}

/// The block of a level that names some blocks, below which there are `total` bytes of data ([MS-PST] 2.2.2.8.3.2.1).
#[tactic(auto, unfolding(crate::specs::Plan::listing))]
fn listing(
    alloc: Global,
    level: u8,
    total: u32,
    blocks: &[(Bid, Bytes)],
) -> Result<Bytes, AllocError>
    requires { length blocks.now ≤ 1021 }
    ensures { IfOk result (λ b. b ≡ listing level total (bids_in blocks.now)) }
{
    let mut out = Vec::with_capacity(alloc, 8 + 8 * blocks.len())?;
    out.extend_from_slice(&[1, level])?;
    out.extend_from_slice(&(blocks.len() as u16).to_le_bytes())?;
    out.extend_from_slice(&total.to_le_bytes())?;
    for block in blocks {
        out.extend_from_slice(&block.0.bits.to_le_bytes())?;
    }
    Ok(Bytes::from_vec(out))
}

/// The blocks of level 1 that name data blocks, with ids from `next` on.
fn lists(alloc: Global, blocks: &[(Bid, Bytes)], next: u64) -> Result<Vec<(Bid, Bytes)>, AllocError>
    requires together { bytes_in (contents blocks.now) < 2 ^ 32 }
    requires next { next + 4 * length blocks.now ≤ 2 ^ 63 + 2 ^ 62 }
    ensures { IfOk result (λ out. out.items ≡ numbered 2 next (map xblock (cut 1021 blocks.now))) }
{
    let mut out = Vec::new(alloc);
    let mut bits = next;
    let mut rest = blocks;
    while rest.len() > 0 {
        let (here, others) = rest.split_at(MOST.min(rest.len()));
        let block = listing(alloc, 1, bytes_in(here), here)?;
        out.push((Bid { bits: bits + 2 }, block))?;
        bits += 4;
        rest = others;
    }
    Ok(out)
}

/// The same, and none where there are fewer than two data blocks.
#[tactic(auto, unfolding(crate::specs::Plan::xblocks))]
fn xblocks(
    alloc: Global,
    blocks: &[(Bid, Bytes)],
    next: u64,
) -> Result<Vec<(Bid, Bytes)>, AllocError>
    requires together { bytes_in (contents blocks.now) < 2 ^ 32 }
    requires next { next + 4 * length blocks.now ≤ 2 ^ 63 + 2 ^ 62 }
    ensures { IfOk result (λ out. out.items ≡ xblocks next blocks.now) }
{
    if blocks.len() > 1 {
        lists(alloc, blocks, next)
    } else {
        Ok(Vec::new(alloc))
    }
}

/// The block of level 2 that names some of level 1, with the id `next`, and none where there are fewer than two.
#[tactic(auto, unfolding(crate::specs::Plan::xxblock))]
fn xxblock(
    alloc: Global,
    total: u32,
    lists: &[(Bid, Bytes)],
    next: u64,
) -> Result<Vec<(Bid, Bytes)>, AllocError>
    requires few { length lists.now ≤ 1021 }
    requires next { next ≤ 2 ^ 63 + 2 ^ 62 }
    ensures { IfOk result (λ out. out.items ≡ xxblock next total lists.now) }
{
    let mut out = Vec::new(alloc);
    if lists.len() > 1 {
        let block = listing(alloc, 2, total, lists)?;
        out.push((Bid { bits: next + 2 }, block))?;
    }
    Ok(out)
}

/// The blocks above some data blocks, with ids from `next` on.
#[tactic(auto, unfolding(crate::specs::Plan::above))]
fn above(alloc: Global, blocks: &[(Bid, Bytes)], next: u64) -> Result<Vec<(Bid, Bytes)>, AllocError>
    requires few { length blocks.now ≤ 1042441 }
    requires together { bytes_in (contents blocks.now) < 2 ^ 32 }
    requires next { next ≤ 2 ^ 63 + 2 ^ 61 }
    ensures { IfOk result (λ out. out.items ≡ above next blocks.now) }
{
    let mut lists = xblocks(alloc, blocks, next)?;
    let after = next + 4 * lists.len() as u64;
    let mut top = xxblock(alloc, bytes_in(blocks), lists.as_slice(), after)?;
    lists.append(&mut top)?;
    Ok(lists)
}

/// The blocks of a tree of some data, with ids from `next` on.
#[tactic(auto, unfolding(crate::specs::Plan::planned))]
fn planned(alloc: Global, blocks: &[Bytes], next: u64) -> Result<Vec<(Bid, Bytes)>, AllocError>
    requires content { IsContent blocks.now }
    requires next { next ≤ 2 ^ 63 }
    ensures { IfOk result (λ out. out.items ≡ planned next blocks.now) }
{
    let mut out = numbered(alloc, blocks, next)?;
    let after = next + 4 * blocks.len() as u64;
    let mut more = above(alloc, out.as_slice(), after)?;
    out.append(&mut more)?;
    Ok(out)
}

/// The id of the last block, 0 where there is none.
pub fn last_id(blocks: &[(Bid, Bytes)]) -> Bid
    ensures { result.bits ≡ last_id blocks.now }
{
    if blocks.len() == 0 {
        return Bid { bits: 0 };
    }
    blocks[blocks.len() - 1].0
}

/// The blocks that are to be written for some data, which read back as it: the data blocks in order, then blocks that name 1021 of them each but the last, then one that names those ([MS-PST] 2.2.2.8.3.2). One block alone is named by none, and the last is the root.
///
/// `next` is the number of the first, a multiple of 4 from 4 to 2^63; each next id is 4 above, and bit 1 marks blocks that name others. An `Err` comes only of want of memory.
pub fn plan_data(alloc: Global, blocks: &[Bytes], next: u64) -> Result<DataPlan, AllocError>
    requires content { IsContent blocks.now }
    requires low { 4 ≤ next }
    requires high { next ≤ 2 ^ 63 }
    requires apart { next % 4 ≡ 0 }
    ensures laid { IfOk result (λ plan. plan.blocks.items ≡ planned next blocks.now) }
    ensures root { IfOk result (λ plan. plan.bid.bits ≡ last_id plan.blocks.items) }
    ensures after { IfOk result (λ plan. plan.next ≡ next + 4 * length plan.blocks.items) }
    ensures few { IfOk result (λ plan. length plan.blocks.items ≤ length blocks.now + 1022) }
    ensures most { IfOk result (λ plan. 2 * length plan.blocks.items ≤ 3 * length blocks.now) }
    ensures small { IfOk result (λ plan. AreSmall plan.blocks.items) }
    ensures numbered { IfOk result (λ plan. Rise next plan.blocks.items) }
    ensures marked { IfOk result (λ plan. plain plan.blocks.items ≡ blocks.now) }
    ensures reads { IfOk result (λ plan. ReadsAs plan.blocks.items plan.bid blocks.now) }
    ensures reaches { IfOk result (λ plan. Reaches plan.blocks.items [] plan.bid) }
{
    let blocks = planned(alloc, blocks, next)?;
    Ok(DataPlan {
        bid: last_id(blocks.as_slice()),
        next: next + 4 * blocks.len() as u64,
        blocks,
    })
}

/// The id that the block at a position keeps, if it keeps one.
fn kept_at(keep: &[Option<Bid>], position: usize) -> Option<Bid>
    ensures { result ≡ first_kept (drop position keep.now) }
{
    if position < keep.len() {
        keep[position]
    } else {
        None
    }
}

/// The data blocks with their ids: those that are kept have their own, the others ids from `next` on.
fn placed(
    alloc: Global,
    blocks: &[Bytes],
    keep: &[Option<Bid>],
    next: u64,
) -> Result<Vec<(Bid, Bytes)>, AllocError>
    requires { next + 4 * length blocks.now ≤ 2 ^ 63 + 2 ^ 62 }
    ensures { IfOk result (λ out. out.items ≡ placed next keep.now blocks.now) }
{
    let mut out = Vec::with_capacity(alloc, blocks.len())?;
    let mut free = next;
    for (i, block) in blocks.iter().enumerate() {
        let data = block.copy(alloc)?;
        match kept_at(keep, i) {
            Some(bid) => out.push((bid, data))?,
            None => {
                out.push((Bid { bits: free }, data))?;
                free += 4;
            }
        }
    }
    Ok(out)
}

/// The data blocks that aren't kept, with ids from `next` on.
fn fresh(
    alloc: Global,
    blocks: &[Bytes],
    keep: &[Option<Bid>],
    next: u64,
) -> Result<Vec<(Bid, Bytes)>, AllocError>
    requires { next + 4 * length blocks.now ≤ 2 ^ 63 + 2 ^ 62 }
    ensures { IfOk result (λ out. out.items ≡ fresh next keep.now blocks.now) }
{
    let mut out = Vec::new(alloc);
    let mut free = next;
    for (i, block) in blocks.iter().enumerate() {
        if kept_at(keep, i).is_none() {
            let bid = Bid { bits: free };
            out.push((bid, block.copy(alloc)?))?;
            free += 4;
        }
    }
    Ok(out)
}

/// The id of the root of a tree: the last block above its data blocks, or the data block that needs none.
fn root(blocks: &[(Bid, Bytes)], above: &[(Bid, Bytes)]) -> Bid
    ensures { result.bits ≡ last_id (blocks.now ++ above.now) }
{
    if above.len() > 0 {
        last_id(above)
    } else {
        last_id(blocks)
    }
}

/// The blocks that are to be written for some data of which some blocks stay where they are: the data blocks that aren't kept, and all that name others. `keep` has for each position the id of the block that is kept there; behind its end none is kept.
///
/// A kept id is that of a data block, with a key above 0 and below `next`. `next` is the number of the first new block, a multiple of 4 from 4 to 2^63; each next id is 4 above, and bit 1 marks blocks that name others. An `Err` comes only of want of memory.
pub fn plan_data_keep(
    alloc: Global,
    blocks: &[Bytes],
    keep: &[Option<Bid>],
    next: u64,
) -> Result<DataPlan, AllocError>
    requires content { IsContent blocks.now }
    requires may { MayKeep next keep.now }
    requires low { 4 ≤ next }
    requires high { next ≤ 2 ^ 63 }
    requires apart { next % 4 ≡ 0 }
    ensures laid { IfOk result (λ plan. plan.blocks.items ≡ fresh next keep.now blocks.now ++ above_kept next keep.now blocks.now) }
    ensures root { IfOk result (λ plan. plan.bid.bits ≡ root_kept next keep.now blocks.now) }
    ensures after { IfOk result (λ plan. plan.next ≡ next + 4 * length plan.blocks.items) }
    ensures most { IfOk result (λ plan. 2 * length plan.blocks.items ≤ 2 * length (unkept keep.now blocks.now) + length blocks.now) }
    ensures small { IfOk result (λ plan. AreSmall plan.blocks.items) }
    ensures numbered { IfOk result (λ plan. Rise next plan.blocks.items) }
    ensures marked { IfOk result (λ plan. plain plan.blocks.items ≡ unkept keep.now blocks.now) }
    ensures names { IfOk result (λ plan. NamesKept plan.blocks.items next keep.now plan.bid blocks.now) }
    ensures reads { IfOk result (λ plan. ReadsKept plan.blocks.items keep.now plan.bid blocks.now) }
    ensures reaches { IfOk result (λ plan. Reaches plan.blocks.items (kept_bids keep.now blocks.now) plan.bid) }
{
    let mut out = fresh(alloc, blocks, keep, next)?;
    let after = next + 4 * out.len() as u64;
    let all = placed(alloc, blocks, keep, next)?;
    let mut tops = above(alloc, all.as_slice(), after)?;
    let bid = root(all.as_slice(), tops.as_slice());
    out.append(&mut tops)?;
    Ok(DataPlan {
        bid,
        next: next + 4 * out.len() as u64,
        blocks: out,
    })
}
