//! Rows on keepers of nodes: in memory, and of files in memory.
use crate::nodes::changes;
use crate::{pins, steps};
use file_laying::lay_nodes;
use file_planner::FilePlanner;
use node_port::MapKeeper;
use pst_base::Bytes;
use pst_outside::{FailPlan, MemWorld};
use std::alloc::{AllocError, Global};
use test_lines::{Trouble, Words};

/// A world with nothing on its disk.
fn empty_world(alloc: Global) -> Result<MemWorld, AllocError> {
    let none = || Bytes::new(alloc);
    let fails = FailPlan::none(alloc);
    MemWorld::new(alloc, none(), none(), none(), none(), fails)
}

/// What each step gives, over a file that is laid with the nodes of the first word.
pub fn ask_file(alloc: Global, words: &mut Words) -> Result<String, Trouble> {
    let first = changes(alloc, words.word()?)?;
    if !first.ascend() {
        return Err(Trouble::Spelling);
    }
    let mut world = empty_world(alloc)?;
    let Ok(mut keeper) = lay_nodes::<MemWorld, FilePlanner>(alloc, &mut world, first) else {
        return Err(Trouble::Place);
    };
    pins::follow(alloc, &mut keeper, &mut world, words.rest())
}

/// What each step gives, over no nodes in memory.
pub fn ask_memory(alloc: Global, words: &mut Words) -> Result<String, Trouble> {
    let mut world = empty_world(alloc)?;
    let mut keeper = MapKeeper::new(alloc);
    steps::follow(alloc, &mut keeper, &mut world, words.rest())
}
