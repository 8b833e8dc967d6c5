//! How many pages are left of trees that lose entries.
ghost use Rattle.std.specs.Prelude.{◌≤◌};

use crate::edits::{Edits, block, blocks, level_of};
use btree_pages::{BlockEntry, Entry};
use page_shelf::Shelf;
use pst_base::MemOr;
use std::alloc::Global;
use test_lines::{Trouble, Words, number};
use tree_change::change;
use tree_edit::{are_edits, look_up};

/// A tree of blocks in memory, how many pages it has, and its root's level.
#[derive(Drop)]
struct Tree {
    shelf: Shelf,
    pages: usize,
    level: u8,
}

/// Edits a tree.
fn edit(
    alloc: Global,
    tree: &mut Tree,
    edits: &[(u64, Option<BlockEntry>)],
) -> Result<(), Trouble> {
    if !are_edits(edits) {
        return Err(Trouble::Spelling);
    }
    let root = tree.shelf.root();
    let plan = match change(alloc, root, edits, &mut tree.shelf) {
        Ok(plan) => plan,
        Err(MemOr::Memory) => return Err(Trouble::Memory),
        Err(MemOr::Refused(_)) => return Err(Trouble::Place),
    };
    tree.shelf.lay(alloc, &plan)?;
    tree.pages = tree
        .pages
        .saturating_add(plan.pages.len())
        .saturating_sub(plan.freed.len());
    if let Some(level) = level_of(&plan) {
        tree.level = level;
    }
    Ok(())
}

/// The tree of the blocks with the numbers from 1 on.
fn grown(alloc: Global, count: u32) -> Result<Tree, Trouble> {
    let mut tree = Tree {
        shelf: Shelf::new(alloc)?,
        pages: 1,
        level: 0,
    };
    let puts = blocks(alloc, count)?;
    edit(alloc, &mut tree, puts.as_slice())?;
    Ok(tree)
}

/// Whether a number is in a range `FROM-TO`.
fn is_in(range: &str, n: u64) -> Result<bool, Trouble> {
    let Some((from, to)) = range.split_once('-') else {
        return Err(Trouble::Spelling);
    };
    Ok(number(from)? <= n && n <= number(to)?)
}

/// Whether words keep a number: `each:N` the multiples of N, or some ranges.
fn is_kept(keep: &str, n: u64) -> Result<bool, Trouble> {
    if let Some(each) = keep.strip_prefix("each:") {
        let each = number(each)?;
        return Ok(each > 0 && n % each == 0);
    }
    for range in keep.split(',') {
        if is_in(range, n)? {
            return Ok(true);
        }
    }
    Ok(false)
}

/// Edits that take the blocks away that words don't keep.
fn takes(alloc: Global, count: u32, keep: &str) -> Result<Edits<BlockEntry>, Trouble> {
    let mut out = Vec::new(alloc);
    for n in 0..count {
        if !is_kept(keep, u64::from(n + 1))? {
            out.push((block(n + 1).key(), None))?;
        }
    }
    Ok(out)
}

/// How many of the blocks with the numbers from 1 on are found in a tree.
fn found(tree: &mut Tree, count: u32) -> Result<u32, Trouble> {
    let mut found = 0u32;
    for n in 0..count {
        let root = tree.shelf.root();
        match look_up::<BlockEntry, Shelf>(root, block(n + 1).key(), &mut tree.shelf) {
            Ok(Some(_)) => found = found.saturating_add(1),
            Ok(None) => {}
            Err(_) => return Err(Trouble::Place),
        }
    }
    Ok(found)
}

/// How many pages a tree has, its root's level, and how many of the blocks are found in it.
fn counted(alloc: Global, tree: &mut Tree, count: u32) -> Result<String, Trouble> {
    let found = found(tree, count)?;
    let pages = tree.pages;
    let level = tree.level;
    Ok(format!(in alloc; "{pages} level {level}, {found} found")?)
}

/// What is left of a tree that loses blocks, all at once, or one by one upwards or downwards.
pub fn ask_thin(alloc: Global, words: &mut Words) -> Result<String, Trouble> {
    let count = words.id()?;
    let order = words.word()?;
    let keep = words.word()?;
    let mut tree = grown(alloc, count)?;
    thin(alloc, &mut tree, count, order, keep)
}

/// What is left of a tree of so many blocks without those that words don't keep.
fn thin(
    alloc: Global,
    tree: &mut Tree,
    count: u32,
    order: &str,
    keep: &str,
) -> Result<String, Trouble> {
    let mut takes = takes(alloc, count, keep)?;
    edit_by(alloc, tree, order, takes.as_mut_slice())?;
    counted(alloc, tree, count)
}

/// Edits a tree in an order.
fn edit_by(
    alloc: Global,
    tree: &mut Tree,
    order: &str,
    edits: &mut [(u64, Option<BlockEntry>)],
) -> Result<(), Trouble> {
    match order {
        "once" => edit(alloc, tree, edits),
        "up" => edit_each(alloc, tree, edits),
        "down" => {
            edits.reverse();
            edit_each(alloc, tree, edits)
        }
        _ => Err(Trouble::Spelling),
    }
}

/// Edits a tree by one edit after the other.
fn edit_each(
    alloc: Global,
    tree: &mut Tree,
    edits: &[(u64, Option<BlockEntry>)],
) -> Result<(), Trouble> {
    for next in edits {
        edit(alloc, tree, &[*next])?;
    }
    Ok(())
}

/// What is left of a tree of one page at each level up to this one, whose leaf loses one of three blocks.
pub fn ask_narrow(alloc: Global, words: &mut Words) -> Result<String, Trouble> {
    let level = words.byte()?;
    if level > 7 {
        return Err(Trouble::Spelling);
    }
    let mut tree = grown(alloc, 3)?;
    narrow(alloc, &mut tree, level)
}

/// What is left of a tree of one leaf as pages are put above it and its second block is taken.
fn narrow(alloc: Global, tree: &mut Tree, level: u8) -> Result<String, Trouble>
    requires { level ≤ 7 }
{
    for i in 0..level {
        tree.shelf.raise(i + 1)?;
    }
    tree.pages = tree.pages.saturating_add(usize::from(level));
    tree.level = level;
    edit(alloc, tree, &[(block(2).key(), None)])?;
    counted(alloc, tree, 3)
}
