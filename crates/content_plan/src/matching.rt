//! Which data blocks of subnodes stay where they are: those of a subnode with the same id below subnodes with the same ids.
ghost use Rattle.std.specs.Prelude.{◌≡◌, true, drop, length, IfOk};
ghost use Rattle.std.specs.List.{All};
ghost use Rattle.pst_base.specs.Subs.{flattened};
ghost use Rattle.subnode_tree.specs.Plan.{IsForm, first_list, paired};
ghost use Rattle.content_plan.specs.Beside.{BeginsFrom, IsThere, Passes};
ghost use Rattle.content_plan.specs.Keep.{Keeps, kept_subs, subs_ascend};

use crate::content::Old;
use crate::keep::kept_list;
use pst_base::{Bid, Bytes, Nid, Sub, Subs};
use std::alloc::{AllocError, Global};
use subnode_tree::Kept;

/// Subnodes that are there beside each other, and the ids of their data and of that of all below them, each subnode before those below it.
#[derive(Clone, Copy)]
struct Beside<'a> {
    subs: &'a [Sub],
    ids: &'a [Kept],
}

/// What is there of a subnode: its data with its ids, and what stands below it.
#[derive(Clone, Copy)]
struct Was<'a> {
    ids: &'a [Option<Bid>],
    blocks: &'a [Bytes],
    below: Beside<'a>,
}

/// The ids of the first subnode's data; behind the list's end there are none.
fn first_ids(ids: &[Kept]) -> &[Option<Bid>]
    ensures { result.now ≡ first_list ids.now }
{
    if ids.is_empty() {
        return &[];
    }
    ids[0].as_slice()
}

/// The ids behind those of the first subnode.
fn others(ids: &[Kept]) -> &[Kept]
    ensures { result.now ≡ drop 1 ids.now }
{
    let (_, rest) = ids.split_at(ids.len().min(1));
    rest
}

/// The ids behind those of some subnodes and of all below them.
fn behind<'a>(ids: &'a [Kept], s: &Subs) -> &'a [Kept]
    ensures { result.now ≡ drop (length s.now) ids.now }
{
    let mut rest = ids;
    for sub in s.as_slice() {
        rest = behind(others(rest), &sub.subs);
    }
    rest
}

/// Subnodes without those whose ids are below an id, as they ascend.
fn from_id(old: Beside<'_>, nid: Nid) -> Beside<'_>
    ensures passes { Passes nid.bits old.entry.subs.now old.entry.ids.now result.subs.now result.ids.now }
    ensures begins { BeginsFrom nid.bits result.subs.now }
{
    let mut left = old;
    while let Some((sub, rest)) = left.subs.split_first() {
        if sub.nid.bits >= nid.bits {
            return left;
        }
        left = Beside {
            subs: rest,
            ids: behind(others(left.ids), &sub.subs),
        };
    }
    left
}

/// What is there of the subnode with an id, if it is the first.
fn first_with(old: Beside<'_>, nid: Nid) -> Was<'_>
    ensures { subs_ascend (flattened old.entry.subs.now) ≡ true → BeginsFrom nid.bits old.entry.subs.now → IsThere nid.bits old.entry.subs.now old.entry.ids.now result.ids.now result.blocks.now result.below.subs.now result.below.ids.now }
{
    let none = Was {
        ids: &[],
        blocks: &[],
        below: Beside {
            subs: &[],
            ids: &[],
        },
    };
    let Some((sub, _)) = old.subs.split_first() else {
        return none;
    };
    if sub.nid.bits != nid.bits {
        return none;
    }
    Was {
        ids: first_ids(old.ids),
        blocks: sub.blocks.as_slice(),
        below: Beside {
            subs: sub.subs.as_slice(),
            ids: others(old.ids),
        },
    }
}

/// What stays of the data of subnodes beside each other and of all below them, where there were such.
fn keep_level(
    alloc: Global,
    next: u64,
    old: Beside<'_>,
    new: &Subs,
) -> Result<Vec<Kept>, AllocError>
    requires form { IsForm new.now }
    ensures count { IfOk result (λ keep. length keep.items ≡ length new.now) }
    ensures keeps { IfOk result (λ keep. All (λ pair. Keeps next pair.0 pair.1) (paired keep.items new.now)) }
    ensures kept { IfOk result (λ keep. subs_ascend (flattened old.entry.subs.now) ≡ true → keep.items ≡ kept_subs next old.entry.ids.now (flattened old.entry.subs.now) new.now) }
{
    let mut keep = Vec::new(alloc);
    let mut left = old;
    for sub in new.as_slice() {
        left = from_id(left, sub.nid);
        let was = first_with(left, sub.nid);
        let own = kept_list(alloc, next, was.ids, was.blocks, sub.blocks.as_slice())?;
        let mut below = keep_level(alloc, next, was.below, &sub.subs)?;
        keep.push(Kept::from_vec(own))?;
        keep.append(&mut below)?;
    }
    Ok(keep)
}

/// What stays of the data of subnodes, in the order of all, each before those below it: of each what stays of the one that was there with the same ids above it, where those that were there ascend.
pub(crate) fn keep_subs(
    alloc: Global,
    next: u64,
    old: &Old,
    new: &Subs,
) -> Result<Vec<Kept>, AllocError>
    requires form { IsForm new.now }
    ensures count { IfOk result (λ keep. length keep.items ≡ length new.now) }
    ensures keeps { IfOk result (λ keep. All (λ pair. Keeps next pair.0 pair.1) (paired keep.items new.now)) }
    ensures kept { IfOk result (λ keep. subs_ascend old.now.subs ≡ true → keep.items ≡ kept_subs next old.now.sub_ids.items old.now.subs new.now) }
{
    let there = Beside {
        subs: old.subs.as_slice(),
        ids: old.sub_ids.as_slice(),
    };
    keep_level(alloc, next, there, new)
}
