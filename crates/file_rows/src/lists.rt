//! Trees of data blocks.
ghost use Rattle.std.specs.Prelude.{◌≡◌, ◌≤◌, length, IfOk};
ghost use Rattle.data_tree.specs.Plan.{IsContent};

use data_tree::{
    BlockList, DataPlan, TreeStop, measure_data, plan_data, plan_data_keep, read_bids, read_data,
    read_data_keys,
};
use pst_base::{Bid, Bytes, MemOr};
use std::alloc::{AllocError, Global};
use std::fmt::Write;
use test_lines::{Trouble, Words, push_bytes};

/// A block of so many equal bytes.
fn block(alloc: Global, byte: u8, size: usize) -> Result<Bytes, AllocError>
    ensures { IfOk result (λ b. length b ≡ size) }
{
    let mut bytes = Vec::new(alloc);
    bytes.resize(size, byte)?;
    Ok(Bytes::from_vec(bytes))
}

/// How many bytes a block has.
fn size(is_last: bool, last: usize) -> usize
    requires { last ≤ 8176 }
    ensures { result ≤ 8176 }
{
    if is_last { last } else { 8176 }
}

/// So many blocks of 8176 bytes, of which the last has others.
fn content(alloc: Global, count: usize, last: usize) -> Result<Vec<Bytes>, AllocError>
    requires few { count ≤ 1022 }
    requires small { last ≤ 8176 }
    ensures { IfOk result (λ blocks. IsContent blocks.items) }
{
    let mut blocks = Vec::new(alloc);
    for i in 0..count {
        blocks.push(block(alloc, (i % 251) as u8, size(i + 1 == count, last))?)?;
    }
    Ok(blocks)
}

/// Whether the lists have the same bytes.
pub fn same(a: &[Bytes], b: &[Bytes]) -> bool {
    for (x, y) in a.iter().zip(b) {
        if x.as_slice() != y.as_slice() {
            return false;
        }
    }
    a.len() == b.len()
}

/// Why a tree can't be read.
pub fn stopped(stop: MemOr<TreeStop>) -> Trouble {
    match stop {
        MemOr::Memory => Trouble::Memory,
        MemOr::Refused(_) => Trouble::Place,
    }
}

/// Adds whether a plan reads back as what it was made of, and its numbers.
pub fn push_reads(
    text: &mut String,
    is_same: bool,
    size: u64,
    counts: [usize; 2],
) -> Result<(), AllocError> {
    let word = if is_same { "same" } else { "other" };
    let [parts, keys] = counts;
    write!(text, ", reads {word} {size} {parts} {keys}")
}

/// Adds how many blocks a plan has, the id of its root, and the number of the next block.
pub fn push_counts(
    text: &mut String,
    blocks: usize,
    root: Bid,
    next: u64,
) -> Result<(), AllocError> {
    let root = root.bits;
    write!(text, "{blocks} {root} {next}")
}

/// Whether a list reads as some data, how many bytes it has, how many data blocks, and how many blocks.
fn push_read(
    alloc: Global,
    text: &mut String,
    bid: Bid,
    s: &mut BlockList,
    data: &[Bytes],
) -> Result<(), MemOr<TreeStop>> {
    let bytes = measure_data(alloc, bid, s)?;
    let leaves = read_bids(alloc, bid, s)?.len();
    let keys = read_data_keys(alloc, bid, s)?.len();
    let is_same = same(read_data(alloc, bid, s)?.as_slice(), data);
    Ok(push_reads(text, is_same, bytes, [leaves, keys])?)
}

/// How many blocks a plan has, the id of its root, the number of the next block, and what reads back.
fn push_plan(
    alloc: Global,
    text: &mut String,
    plan: DataPlan,
    data: &[Bytes],
) -> Result<(), MemOr<TreeStop>> {
    push_counts(text, plan.blocks.len(), plan.bid, plan.next)?;
    let mut s = BlockList {
        blocks: plan.blocks,
        limit: 1 << 32,
    };
    push_read(alloc, text, plan.bid, &mut s, data)
}

/// The text on a plan.
fn plan_text(alloc: Global, plan: DataPlan, data: &[Bytes]) -> Result<String, Trouble> {
    let mut text = String::new(alloc);
    match push_plan(alloc, &mut text, plan, data) {
        Ok(()) => Ok(text),
        Err(stop) => Err(stopped(stop)),
    }
}

/// The blocks that are planned from the id 4 on for so many blocks of data, of which the last has so many bytes: how many they are, the id of the root, the number of the next block, and what reads back.
pub fn ask_data(alloc: Global, words: &mut Words) -> Result<String, Trouble> {
    let count = words.size()?;
    let last = words.size()?;
    if count > 1022 || last > 8176 {
        return Err(Trouble::Spelling);
    }
    let data = content(alloc, count, last)?;
    match plan_data(alloc, data.as_slice(), 4) {
        Ok(plan) => plan_text(alloc, plan, data.as_slice()),
        Err(AllocError) => Err(Trouble::Memory),
    }
}

/// Adds the blocks of a plan.
pub fn push_blocks(text: &mut String, blocks: &[(Bid, Bytes)]) -> Result<(), AllocError> {
    for (bid, bytes) in blocks {
        let bits = bid.bits;
        write!(text, " {bits}=")?;
        push_bytes(text, bytes.as_slice())?;
    }
    Ok(())
}

/// The blocks that are planned from the id 8 on for two blocks of data, of 8176 bytes and of one, of which the second stays in the block 4.
pub fn ask_kept(alloc: Global) -> Result<String, Trouble> {
    let data = content(alloc, 2, 1)?;
    let keep = [None, Some(Bid { bits: 4 })];
    match plan_data_keep(alloc, data.as_slice(), &keep, 8) {
        Ok(plan) => kept_text(alloc, &plan),
        Err(AllocError) => Err(Trouble::Memory),
    }
}

/// The id of a plan's root, the number of the next block, and the blocks.
fn kept_text(alloc: Global, plan: &DataPlan) -> Result<String, Trouble> {
    let mut text = String::new(alloc);
    let (root, next) = (plan.bid.bits, plan.next);
    write!(text, "{root} {next}")?;
    push_blocks(&mut text, plan.blocks.as_slice())?;
    Ok(text)
}
