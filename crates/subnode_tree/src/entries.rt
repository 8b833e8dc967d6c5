//! The subnodes of one node.
ghost use Rattle.std.specs.Prelude.{◌≡◌, ◌<◌};
ghost use Rattle.data_tree.specs.Source.{Later};
ghost use Rattle.data_tree.specs.Stops.{Reads, ReadsAlone};
ghost use Rattle.subnode_tree.specs.Subnodes.{ascend, reach, listed_ascend, ordered, part_in, part_of, parts_of, inner_in, level_in, level_of};

use crate::blocks::{Listed, SubEntry, entries, is_inner, is_leaf, names};
use data_tree::{BlockSource, TreeStop, fetch};
use pst_base::{Bid, MemOr, Nid};
use std::alloc::Global;

/// Whether the NIDs ascend strictly.
fn ascend(entries: &[SubEntry]) -> bool
    ensures { result ≡ ascend entries.now }
{
    if entries.len() == 0 {
        return true;
    }
    let mut last = entries[0].nid.bits;
    for i in 1..entries.len() {
        let nid = entries[i].nid.bits;
        if nid <= last {
            return false;
        }
        last = nid;
    }
    true
}

/// Whether the NIDs with which a block of level 1 lists others ascend strictly.
fn listed_ascend(all: &[Listed]) -> bool
    ensures { result ≡ listed_ascend all.now }
{
    if all.len() == 0 {
        return true;
    }
    let mut last = all[0].nid.bits;
    for i in 1..all.len() {
        let first = all[i].nid.bits;
        if first <= last {
            return false;
        }
        last = first;
    }
    true
}

/// Whether no NID is below this one.
fn reach(low: Nid, entries: &[SubEntry]) -> bool
    ensures { result ≡ reach low.bits entries.now }
{
    for entry in entries {
        let nid = entry.nid.bits;
        if nid < low.bits {
            return false;
        }
    }
    true
}

/// The entries, if their NIDs ascend.
fn ordered(bid: Bid, entries: Vec<SubEntry>) -> Result<Vec<SubEntry>, MemOr<TreeStop>>
    ensures { ReadsAlone (λ found. found.items) result (ordered bid entries.items) }
{
    if ascend(entries.as_slice()) {
        Ok(entries)
    } else {
        Err(MemOr::Refused(TreeStop::Form { bid }))
    }
}

/// The subnodes in a block that one of level 1 lists.
#[tactic(auto, unfolding(crate::specs::Subnodes::part_in))]
fn part_in(
    alloc: Global,
    level: u8,
    listed: Listed,
    b: &[u8],
) -> Result<Vec<SubEntry>, MemOr<TreeStop>>
    ensures { ReadsAlone (λ found. found.items) result (part_in level listed b.now) }
{
    let bid = listed.block;
    if !is_leaf(b) {
        return Err(MemOr::Refused(TreeStop::Form { bid }));
    }
    let found = entries(alloc, b, level)?;
    if reach(listed.nid, found.as_slice()) {
        Ok(found)
    } else {
        Err(MemOr::Refused(TreeStop::Form { bid }))
    }
}

/// The same, of a block that has to be fetched.
fn part_of<S: BlockSource>(
    alloc: Global,
    level: u8,
    listed: Listed,
    s: &mut S,
) -> Result<Vec<SubEntry>, MemOr<TreeStop>>
    ensures later { Later (S.view s.old) (S.view s.new) }
    ensures reads { Reads (λ found. found.items) (S.view s.old) (S.view s.new) (λ find. part_of find level listed) result }
{
    let block = fetch(alloc, listed.block, s)?;
    part_in(alloc, level, listed, block.as_slice())
}

/// The subnodes in all blocks that one of level 1 lists.
fn parts_of<S: BlockSource>(
    alloc: Global,
    level: u8,
    all: &[Listed],
    s: &mut S,
) -> Result<Vec<SubEntry>, MemOr<TreeStop>>
    ensures later { Later (S.view s.old) (S.view s.new) }
    ensures reads { Reads (λ found. found.items) (S.view s.old) (S.view s.new) (λ find. parts_of find level all.now) result }
{
    let mut found = Vec::new(alloc);
    for listed in all {
        let here = part_of(alloc, level, *listed, s)?;
        found.extend_from_slice(here.as_slice())?;
    }
    Ok(found)
}

/// The subnodes in all blocks that one of level 1 lists: a lookup goes by the NIDs that it lists them with, so they must ascend.
fn inner_in<S: BlockSource>(
    alloc: Global,
    level: u8,
    bid: Bid,
    all: &[Listed],
    s: &mut S,
) -> Result<Vec<SubEntry>, MemOr<TreeStop>>
    ensures later { Later (S.view s.old) (S.view s.new) }
    ensures reads { Reads (λ found. found.items) (S.view s.old) (S.view s.new) (λ find. inner_in find level bid all.now) result }
{
    if !listed_ascend(all) {
        return Err(MemOr::Refused(TreeStop::Form { bid }));
    }
    let found = parts_of(alloc, level, all, s)?;
    ordered(bid, found)
}

/// The subnodes that a block lists, itself or by others.
#[tactic(auto, unfolding(crate::specs::Subnodes::level_in))]
fn level_in<S: BlockSource>(
    alloc: Global,
    level: u8,
    bid: Bid,
    b: &[u8],
    s: &mut S,
) -> Result<Vec<SubEntry>, MemOr<TreeStop>>
    ensures later { Later (S.view s.old) (S.view s.new) }
    ensures reads { Reads (λ found. found.items) (S.view s.old) (S.view s.new) (λ find. level_in find level bid b.now) result }
{
    if is_leaf(b) {
        return ordered(bid, entries(alloc, b, level)?);
    }
    if !is_inner(b) {
        return Err(MemOr::Refused(TreeStop::Form { bid }));
    }
    let all = names(alloc, b)?;
    inner_in(alloc, level, bid, all.as_slice(), s)
}

/// The subnodes that a block lists, which has to be fetched.
pub(crate) fn level_of<S: BlockSource>(
    alloc: Global,
    level: u8,
    bid: Bid,
    s: &mut S,
) -> Result<Vec<SubEntry>, MemOr<TreeStop>>
    ensures later { Later (S.view s.old) (S.view s.new) }
    ensures reads { Reads (λ found. found.items) (S.view s.old) (S.view s.new) (λ find. level_of find level bid) result }
{
    let block = fetch(alloc, bid, s)?;
    level_in(alloc, level, bid, block.as_slice(), s)
}
