//! The blocks of subnodes that are to be written.
ghost use Rattle.std.specs.Prelude.{◌≡◌, ◌≤◌, ◌+◌, ◌*◌, ◌%◌, ◌^◌, [], drop, length, IfOk};
ghost use Rattle.std.specs.List.{All};
ghost use Rattle.data_tree.specs.Plan.{AreSmall, MayKeep, Rise, bytes_in, contents, plain};
ghost use Rattle.subnode_tree.specs.Plan.{AreAmong, IsForm, Plans, SubsNameKept, SubsReach, SubsReadAs, SubsReadKept, data_in, first_list, kept_in, nothing, unkept_in};

use crate::kept::Kept;
use crate::tables::{Row, tables};
use data_tree::{last_id, plan_data_keep};
use pst_base::{Bid, Bytes, Subs};
use std::alloc::{AllocError, Global};

/// More than the numbers of all blocks that memory holds.
const LIMIT: u64 = 0x8000_0000_0000_0000;

/// The blocks of a node's subnodes that are to be written.
#[derive(Debug, Drop)]
pub struct SubPlan {
    /// The id of the block that lists the node's subnodes, 0 where there is none.
    pub bid: Bid,
    /// The blocks' data, by ascending ids.
    pub blocks: Vec<(Bid, Bytes)>,
    /// The number that the next block may have.
    pub next: u64,
}

/// The number, unless memory can't hold so many blocks.
fn limited(next: u64) -> Result<u64, AllocError>
    ensures same { IfOk result (λ number. number ≡ next) }
    ensures high { IfOk result (λ number. number ≤ 2 ^ 63) }
{
    if next > LIMIT {
        return Err(AllocError);
    }
    Ok(next)
}

/// What is kept of the first subnode, and of the others.
fn split_first(keep: &[Kept]) -> (&[Option<Bid>], &[Kept])
    requires { 1 ≤ length keep.now }
    ensures own { result.0.now ≡ first_list keep.now }
    ensures others { result.1.now ≡ drop 1 keep.now }
{
    let (front, others) = keep.split_at(1);
    (front[0].as_slice(), others)
}

/// The blocks of some subnodes and of all below them, with ids from `first` on, and how many subnodes they are. What is kept of each stands in `keep`, in the order of all subnodes, each before those below it.
fn plan_from(
    alloc: Global,
    s: &Subs,
    keep: &[Kept],
    first: u64,
) -> Result<(SubPlan, usize), AllocError>
    requires form { IsForm s.now }
    requires long { length s.now ≤ length keep.now }
    requires may { All (MayKeep first) keep.now }
    requires low { 4 ≤ first }
    requires high { first ≤ 2 ^ 63 }
    requires apart { first % 4 ≡ 0 }
    ensures after { IfOk result (λ made. made.0.next ≡ first + 4 * length made.0.blocks.items) }
    ensures high { IfOk result (λ made. made.0.next ≤ 2 ^ 63) }
    ensures count { IfOk result (λ made. made.1 ≡ length s.now) }
    ensures plans { IfOk result (λ made. Plans keep.now s.now first made.0.bid made.0.blocks.items) }
{
    let subs = s.as_slice();
    let mut blocks = Vec::new(alloc);
    let mut rows = Vec::with_capacity(alloc, subs.len())?;
    let mut next = first;
    let mut rest = keep;
    for sub in subs {
        let (own, others) = split_first(rest);
        let mut content = plan_data_keep(alloc, sub.blocks.as_slice(), own, next)?;
        let after = limited(content.next)?;
        let (mut below, count) = plan_from(alloc, &sub.subs, others, after)?;
        blocks.append(&mut content.blocks)?;
        blocks.append(&mut below.blocks)?;
        rows.push(Row::new(sub.nid, content.bid, below.bid))?;
        next = below.next;
        let (_, left) = others.split_at(count);
        rest = left;
    }
    let mut lists = tables(alloc, rows.as_slice(), next)?;
    let bid = last_id(lists.as_slice());
    let end = limited(next + 4 * lists.len() as u64)?;
    blocks.append(&mut lists)?;
    let count = keep.len() - rest.len();
    Ok((
        SubPlan {
            bid,
            blocks,
            next: end,
        },
        count,
    ))
}

/// For each of some subnodes and all below them, that nothing is kept.
fn nothing_kept(alloc: Global, s: &Subs) -> Result<Vec<Kept>, AllocError>
    ensures { IfOk result (λ keep. keep.items ≡ nothing (length s.now)) }
{
    let mut keep = Vec::new(alloc);
    for sub in s.as_slice() {
        let mut below = nothing_kept(alloc, &sub.subs)?;
        keep.push(Kept::new(alloc))?;
        keep.append(&mut below)?;
    }
    Ok(keep)
}

/// The blocks that are to be written for a node's subnodes at all levels, which read back as them: for each subnode its data and what stands below it, then the blocks that list 340 subnodes each but the last, then one that lists those ([MS-PST] 2.2.2.8.3.3). One block that lists subnodes is listed by none, and the last is the root.
///
/// `next` is the number of the first, a multiple of 4 from 4 to 2^62; each next id is 4 above, and bit 1 marks all blocks but data. An `Err` comes only of want of memory.
pub fn plan_subs(alloc: Global, s: &Subs, next: u64) -> Result<SubPlan, AllocError>
    requires form { IsForm s.now }
    requires low { 4 ≤ next }
    requires high { next ≤ 2 ^ 62 }
    requires apart { next % 4 ≡ 0 }
    ensures after { IfOk result (λ plan. plan.next ≡ next + 4 * length plan.blocks.items) }
    ensures most { IfOk result (λ plan. 2 * length plan.blocks.items ≤ 3 * length (data_in s.now) + 2 * length s.now) }
    ensures small { IfOk result (λ plan. AreSmall plan.blocks.items) }
    ensures room { IfOk result (λ plan. 24 * length s.now ≤ bytes_in (contents plan.blocks.items)) }
    ensures numbered { IfOk result (λ plan. Rise next plan.blocks.items) }
    ensures marked { IfOk result (λ plan. plain plan.blocks.items ≡ data_in s.now) }
    ensures laid { IfOk result (λ plan. AreAmong next plan.blocks.items [] s.now) }
    ensures ids { IfOk result (λ plan. SubsNameKept next plan.blocks.items [] plan.bid s.now) }
    ensures reads { IfOk result (λ plan. SubsReadAs plan.blocks.items plan.bid s.now) }
    ensures reaches { IfOk result (λ plan. SubsReach plan.blocks.items [] plan.bid) }
{
    let keep = nothing_kept(alloc, s)?;
    let (plan, _) = plan_from(alloc, s, keep.as_slice(), next)?;
    Ok(plan)
}

/// The same where some data blocks stay where they are: those aren't among the new blocks, and are named by their own ids at their positions. `keep` has what is kept of each subnode, in the order of all subnodes, each before those below it.
///
/// A kept id is that of a data block, with a key above 0 and below `next`. An `Err` comes only of want of memory.
pub fn plan_subs_keep(
    alloc: Global,
    s: &Subs,
    keep: &[Kept],
    next: u64,
) -> Result<SubPlan, AllocError>
    requires form { IsForm s.now }
    requires long { length keep.now ≡ length s.now }
    requires may { All (MayKeep next) keep.now }
    requires low { 4 ≤ next }
    requires high { next ≤ 2 ^ 62 }
    requires apart { next % 4 ≡ 0 }
    ensures after { IfOk result (λ plan. plan.next ≡ next + 4 * length plan.blocks.items) }
    ensures most { IfOk result (λ plan. 2 * length plan.blocks.items ≤ 2 * length (unkept_in keep.now s.now) + length (data_in s.now) + 2 * length s.now) }
    ensures small { IfOk result (λ plan. AreSmall plan.blocks.items) }
    ensures room { IfOk result (λ plan. 24 * length s.now ≤ bytes_in (contents plan.blocks.items)) }
    ensures numbered { IfOk result (λ plan. Rise next plan.blocks.items) }
    ensures marked { IfOk result (λ plan. plain plan.blocks.items ≡ unkept_in keep.now s.now) }
    ensures laid { IfOk result (λ plan. AreAmong next plan.blocks.items keep.now s.now) }
    ensures ids { IfOk result (λ plan. SubsNameKept next plan.blocks.items keep.now plan.bid s.now) }
    ensures reads { IfOk result (λ plan. SubsReadKept plan.blocks.items keep.now plan.bid s.now) }
    ensures reaches { IfOk result (λ plan. SubsReach plan.blocks.items (kept_in keep.now s.now) plan.bid) }
{
    let (plan, _) = plan_from(alloc, s, keep, next)?;
    Ok(plan)
}
