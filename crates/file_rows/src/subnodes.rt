//! Trees of subnodes.
ghost use Rattle.std.specs.Prelude.{◌≡◌, ◌≤◌, ◌<◌, ◌+◌, ◌*◌, [], ◌∷◌, length, IfOk};
ghost use Rattle.data_tree.specs.Plan.{MayKeep};
ghost use Rattle.subnode_tree.specs.Plan.{IsForm};

use crate::lists::{self, push_blocks, push_counts, push_reads, stopped};
use data_tree::{BlockList, TreeStop};
use pst_base::{Bid, Blocks, Bytes, MemOr, Nid, Sub, Subs};
use std::alloc::{AllocError, Global};
use std::fmt::Write;
use subnode_tree::{
    Kept, SubPlan, count_subs, plan_subs, plan_subs_keep, read_sub_bids, read_sub_keys, read_subs,
};
use test_lines::{Trouble, Words};

/// A subnode with a block of one byte, and with none below it.
fn sub(alloc: Global, nid: u32, byte: u8) -> Result<Sub, AllocError>
    ensures nid { IfOk result (λ s. s.nid.bits ≡ nid) }
    ensures blocks { IfOk result (λ s. s.blocks ≡ (byte ∷ []) ∷ []) }
    ensures subs { IfOk result (λ s. s.subs ≡ []) }
{
    let mut blocks = Blocks::new(alloc);
    blocks.push(Bytes::from_slice(alloc, &[byte])?)?;
    Ok(Sub {
        nid: Nid { bits: nid },
        blocks,
        subs: Subs::new(alloc),
    })
}

/// So many subnodes.
fn flat(alloc: Global, count: u32) -> Result<Subs, AllocError>
    requires { count ≤ 341 }
    ensures { IfOk result IsForm }
{
    let mut subs = Vec::new(alloc);
    for i in 0..count {
        let next = sub(alloc, 0x21 + 0x20 * i, (i % 251) as u8)?;
        subs.push(next)?;
    }
    Ok(Subs::from_vec(subs))
}

/// One subnode.
fn single(alloc: Global, byte: u8) -> Result<Subs, AllocError>
    ensures form { IfOk result IsForm }
    ensures one { IfOk result (λ subs. length subs ≡ 1) }
{
    let mut all = Vec::new(alloc);
    let alone = sub(alloc, 0x21, byte)?;
    all.push(alone)?;
    Ok(Subs::from_vec(all))
}

/// Whether a subnode has the id and the data of another, and none below it.
fn is_alike(a: &Sub, b: &Sub) -> bool {
    a.nid == b.nid
        && a.subs.as_slice().is_empty()
        && lists::same(a.blocks.as_slice(), b.blocks.as_slice())
}

/// Whether the subnodes have the same ids and data, and none below them.
fn same(a: &[Sub], b: &[Sub]) -> bool {
    for (x, y) in a.iter().zip(b) {
        if !is_alike(x, y) {
            return false;
        }
    }
    a.len() == b.len()
}

/// Whether a tree reads as some subnodes, how many it has, how many lists of their blocks, and how many blocks.
fn push_read(
    alloc: Global,
    text: &mut String,
    bid: Bid,
    s: &mut BlockList,
    subs: &[Sub],
) -> Result<(), MemOr<TreeStop>> {
    let counted = count_subs(alloc, bid, s)?;
    let bids = read_sub_bids(alloc, bid, s)?.len();
    let keys = read_sub_keys(alloc, bid, s)?.len();
    let is_same = same(read_subs(alloc, bid, s)?.as_slice(), subs);
    Ok(push_reads(text, is_same, counted, [bids, keys])?)
}

/// How many blocks a plan has, the id of its root, the number of the next block, and what reads back.
fn push_plan(
    alloc: Global,
    text: &mut String,
    plan: SubPlan,
    subs: &[Sub],
) -> Result<(), MemOr<TreeStop>> {
    push_counts(text, plan.blocks.len(), plan.bid, plan.next)?;
    let mut s = BlockList {
        blocks: plan.blocks,
        limit: 1 << 32,
    };
    push_read(alloc, text, plan.bid, &mut s, subs)
}

/// The text on a plan.
fn plan_text(alloc: Global, plan: SubPlan, subs: &[Sub]) -> Result<String, Trouble> {
    let mut text = String::new(alloc);
    match push_plan(alloc, &mut text, plan, subs) {
        Ok(()) => Ok(text),
        Err(stop) => Err(stopped(stop)),
    }
}

/// The blocks that are planned from the id 4 on for so many subnodes: how many they are, the id of the root, the number of the next block, and what reads back.
pub fn ask_subnodes(alloc: Global, words: &mut Words) -> Result<String, Trouble> {
    let count = words.id()?;
    if count > 341 {
        return Err(Trouble::Spelling);
    }
    let subs = flat(alloc, count)?;
    match plan_subs(alloc, &subs, 4) {
        Ok(plan) => plan_text(alloc, plan, subs.as_slice()),
        Err(AllocError) => Err(Trouble::Memory),
    }
}

/// That the block 4 is kept.
fn kept(alloc: Global) -> Result<Kept, AllocError>
    ensures { IfOk result (MayKeep 8) }
{
    let mut bids = Vec::new(alloc);
    bids.push(Some(Bid { bits: 4 }))?;
    Ok(Kept::from_vec(bids))
}

/// The blocks that are planned from the id 8 on for one subnode, whose data stays in the block 4.
pub fn ask_kept(alloc: Global) -> Result<String, Trouble> {
    let subs = single(alloc, 7)?;
    let keep = [kept(alloc)?];
    match plan_subs_keep(alloc, &subs, &keep, 8) {
        Ok(plan) => kept_text(alloc, &plan),
        Err(AllocError) => Err(Trouble::Memory),
    }
}

/// The number of the next block behind a plan, and its blocks.
fn kept_text(alloc: Global, plan: &SubPlan) -> Result<String, Trouble> {
    let mut text = String::new(alloc);
    let next = plan.next;
    write!(text, "{next}")?;
    push_blocks(&mut text, plan.blocks.as_slice())?;
    Ok(text)
}
