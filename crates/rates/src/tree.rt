//! Measures edits of a tree of blocks over pages in memory: it makes a tree of so many keys, puts new keys into it again and again, so many in one change, looks the first keys up, and takes all keys away again.
//!
//! The words are keys at first, keys that are put in each change, and changes; without them 1000, 100 and 1, which can be counted by hand: 50 full leaves, 3 pages above them and a root; then new keys in each leaf but the first make 99 leaves, 5 pages and a root. `bench/trees.sh` times it.

mod edits;

use crate::numbers::number_or;
use btree_pages::BlockEntry;
use edits::{first_edits, random_edits};
use page_shelf::Shelf;
use pst_base::{MemOr, SourceStop};
use std::alloc::{AllocError, Global};
use tree_change::change;
use tree_edit::{are_edits, look_up};

/// How many keys and changes there are.
#[derive(Clone, Copy)]
struct Load {
    keys: u32,
    each: u32,
    changes: u32,
}

/// How many pages stood and were written and freed.
#[derive(Clone, Copy)]
struct Counts {
    first: usize,
    new: usize,
    freed: usize,
    found: u32,
    last: usize,
}

/// Plans edits and writes the new pages: how many these are, and how many are freed. Edits that aren't in order change nothing.
fn edit(
    alloc: Global,
    shelf: &mut Shelf,
    edits: &[(u64, Option<BlockEntry>)],
) -> Result<(usize, usize), MemOr<SourceStop>> {
    if !are_edits(edits) {
        return Ok((0, 0));
    }
    let plan = change(alloc, shelf.root(), edits, shelf)?;
    shelf.lay(alloc, &plan)?;
    Ok((plan.pages.len(), plan.freed.len()))
}

/// How many of the first tree's keys are found.
fn count_found(shelf: &mut Shelf, keys: u32) -> Result<u32, MemOr<SourceStop>> {
    let mut found = 0u32;
    for n in 0..keys {
        let entry: Option<BlockEntry> = look_up(shelf.root(), edits::first_key(n), shelf)?;
        if entry.is_some() {
            found = found.saturating_add(1);
        }
    }
    Ok(found)
}

/// Puts the keys of the first tree, or takes them away: how many pages are written, and how many are freed.
fn edit_first(
    alloc: Global,
    shelf: &mut Shelf,
    keys: u32,
    put: bool,
) -> Result<(usize, usize), MemOr<SourceStop>> {
    let edits = first_edits(alloc, keys, put)?;
    edit(alloc, shelf, edits.as_slice())
}

/// Puts the keys of one change, or takes them away.
fn edit_one(
    alloc: Global,
    shelf: &mut Shelf,
    load: Load,
    n: u32,
    put: bool,
) -> Result<(usize, usize), MemOr<SourceStop>> {
    let edits = random_edits(alloc, load.keys, load.each, n, put)?;
    edit(alloc, shelf, edits.as_slice())
}

/// Puts the keys of all changes, or takes them away.
fn edit_all(
    alloc: Global,
    shelf: &mut Shelf,
    load: Load,
    put: bool,
) -> Result<(usize, usize), MemOr<SourceStop>> {
    let mut new = 0usize;
    let mut freed = 0usize;
    for n in 0..load.changes {
        let (more, gone) = edit_one(alloc, shelf, load, n, put)?;
        new = new.saturating_add(more);
        freed = freed.saturating_add(gone);
    }
    Ok((new, freed))
}

/// Makes the tree on a shelf and changes it.
fn run(alloc: Global, shelf: &mut Shelf, load: Load) -> Result<Counts, MemOr<SourceStop>> {
    let (first, _) = edit_first(alloc, shelf, load.keys, true)?;
    let (new, freed) = edit_all(alloc, shelf, load, true)?;
    let found = count_found(shelf, load.keys)?;
    let (more, gone) = edit_all(alloc, shelf, load, false)?;
    let (end, others) = edit_first(alloc, shelf, load.keys, false)?;
    let all_new = first.saturating_add(new).saturating_add(more);
    let all_freed = freed.saturating_add(gone).saturating_add(others);
    Ok(Counts {
        first,
        new,
        freed,
        found,
        last: all_new.saturating_add(end).saturating_sub(all_freed),
    })
}

/// The pages and keys of the run that the words ask for.
pub(crate) fn report(alloc: Global, words: &[String]) -> Result<String, AllocError> {
    let load = Load {
        keys: number_or(words, 0, 1000),
        each: number_or(words, 1, 100),
        changes: number_or(words, 2, 1),
    };
    let mut shelf = Shelf::new(alloc)?;
    match run(alloc, &mut shelf, load) {
        Ok(counts) => format!(in alloc;
            "{} pages at first, {} written and {} freed, {} keys found, {} pages without any",
            counts.first, counts.new, counts.freed, counts.found, counts.last
        ),
        Err(MemOr::Refused(stop)) => format!(in alloc; "stopped: {stop:?}"),
        Err(MemOr::Memory) => Err(AllocError),
    }
}
