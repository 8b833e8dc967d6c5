//! Measures commits of nodes to a file, apart from the mail in it: lays so many nodes of 1,000 bytes, and puts all of them anew in each of so many commits.
//!
//! The words are the nodes, up to 1000, the commits, and the file, which isn't there yet; without them 2, 3 and a file in memory. `bench/keeper.sh` times it.

ghost use Rattle.std.specs.Prelude.{◌≡◌, IfOk};

use crate::numbers::number_or;
use file_laying::lay_nodes;
use file_planner::FilePlanner;
use file_world::{Access, FileWorld};
use node_port::{Changes, Counts, Keeper, NodeRec};
use pst_base::{Blocks, Bytes, Nid, Subs};
use pst_outside::{FailPlan, MemWorld, Outside};
use std::alloc::{AllocError, Global};

/// How many bytes a node has.
const SIZE: usize = 1000;

/// The most nodes of a commit.
const MOST: u64 = 1000;

/// The node of a round: no round of the 250 before it has the same bytes.
fn node(alloc: Global, round: u64) -> Result<NodeRec, AllocError> {
    let mut bytes = Vec::new(alloc);
    bytes.resize(SIZE, (round % 251) as u8)?;
    let mut blocks = Blocks::new(alloc);
    blocks.push(Bytes::from_vec(bytes))?;
    Ok(NodeRec {
        parent: Nid { bits: 0 },
        blocks,
        subs: Subs::new(alloc),
    })
}

/// The changes of a round: so many nodes, each with the bytes of the round.
fn changes(alloc: Global, round: u64, nodes: u64) -> Result<Changes, AllocError>
    ensures room { IfOk result (λ changes. changes.room ≡ 0) }
{
    let mut put = Vec::new(alloc);
    for number in 1..=nodes.min(MOST) {
        let bits = (number * 32 + 1) as u32;
        put.push((Nid { bits }, Some(node(alloc, round)?)))?;
    }
    Ok(Changes {
        nodes: put,
        counts: Counts { last: [0; 32] },
        room: 0,
    })
}

/// Makes the changes of a round by one commit, and tells whether it is done.
fn commit<W: Outside, K: Keeper<W>>(
    alloc: Global,
    keeper: &mut K,
    w: &mut W,
    round: u64,
    nodes: u64,
) -> Result<bool, AllocError> {
    let changes = changes(alloc, round, nodes)?;
    if !changes.ascend() {
        return Ok(false);
    }
    match keeper.prepare(alloc, w, changes) {
        Ok(ready) => Ok(keeper.apply(w, ready).is_ok()),
        Err(_) => Ok(false),
    }
}

/// Lays a file with so many nodes and changes all of them so often; gives how many commits were made.
fn commits<W: Outside>(
    alloc: Global,
    w: &mut W,
    nodes: u64,
    count: u64,
) -> Result<u64, AllocError> {
    let first = changes(alloc, 0, nodes)?;
    if !first.ascend() {
        return Ok(0);
    }
    let Ok(mut keeper) = lay_nodes::<W, FilePlanner>(alloc, w, first) else {
        return Ok(0);
    };
    for round in 0..count {
        if !commit(alloc, &mut keeper, w, round.wrapping_add(1), nodes)? {
            return Ok(round);
        }
    }
    Ok(count)
}

/// As many commits in memory.
fn in_memory(alloc: Global, nodes: u64, count: u64) -> Result<u64, AllocError> {
    let none = || Bytes::new(alloc);
    let mut world = MemWorld::new(alloc, none(), none(), none(), none(), FailPlan::none(alloc))?;
    commits(alloc, &mut world, nodes, count)
}

/// How many commits in memory the words ask for.
pub(crate) fn report(alloc: Global, words: &[String]) -> Result<String, AllocError> {
    let nodes = u64::from(number_or(words, 0, 2));
    let count = u64::from(number_or(words, 1, 3));
    let made = in_memory(alloc, nodes, count)?;
    format!(in alloc; "{made} commits")
}

/// How many commits are made over a file, which isn't there yet.
pub(crate) fn over_file(
    rt: HostRuntime,
    file: &String,
    words: &[String],
) -> Result<u64, AllocError> {
    let nodes = u64::from(number_or(words, 0, 2));
    let count = u64::from(number_or(words, 1, 3));
    let alloc = rt.alloc();
    let mut world = FileWorld::new(rt, file.clone()?, None, Access::Write)?;
    commits(alloc, &mut world, nodes, count)
}
