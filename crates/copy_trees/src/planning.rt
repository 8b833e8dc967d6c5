//! The places of a tree's pages.
ghost use Rattle.std.specs.Prelude.{◌≡◌, ◌≤◌, ◌<◌, ◌+◌, ◌*◌, ◌/◌, ◌^◌, IfOk, IfErr, length, map};
ghost use Rattle.copy_layout.specs.Order.{InOrder};
ghost use Rattle.file_layout.specs.Trees.{page_place};
ghost use Rattle.copy_trees.specs.Levels.{AreNumbered, IsPlanned, pages_for};

use crate::level::Level;
use btree_pages::Entry;
use copy_layout::next_page;
use copy_pieces::CompactStop;
use pst_base::{Bid, Bref};
use std::alloc::Global;

/// The length of a page.
const PAGE: u64 = 512;

/// The greatest end that a page follows.
const LIMIT: u64 = 1 << 59;

/// How many bytes of a page its entries may take.
const ENTRIES: usize = 488;

/// How many children an inner page has at most.
pub(crate) const CHILDREN: usize = 20;

/// How many levels stand above the leaves at most.
const ABOVE: usize = 7;

/// The pages of a packed tree, level by level from the leaves on, each by its id and place.
#[derive(Drop)]
pub struct TreePages {
    pub levels: Vec<Level>,
    pub root: Bref,
    /// Where the last page ends.
    pub end: u64,
    /// The number behind those of the pages.
    pub next_page: u64,
}

/// Pages at their places.
#[derive(Drop)]
struct Placed {
    pages: Level,
    end: u64,
    next_page: u64,
}

/// How many entries a leaf has at most.
pub(crate) fn leaf_room<E: Entry>() -> usize
    ensures value { result ≡ 488 / E.size }
    ensures low { 15 ≤ result }
    ensures high { result ≤ 20 }
{
    ENTRIES / E::size()
}

/// How many pages hold so many things, of which each page has so many at most.
fn pages_for(most: usize, count: usize) -> usize
    requires { 0 < most }
    ensures value { result ≡ pages_for most count }
    ensures some { 1 ≤ result }
{
    count.div_ceil(most).max(1)
}

/// Places pages one behind the other, with numbers from `first` on.
fn place_level(alloc: Global, count: usize, from: u64, first: u64) -> Result<Placed, CompactStop>
    requires low { 17408 ≤ from }
    requires numbers { first ≤ 2 ^ 63 }
    ensures count { IfOk result (λ placed. length placed.pages ≡ count) }
    ensures order { IfOk result (λ placed. InOrder 512 from (map page_place placed.pages) placed.end) }
    ensures numbered { IfOk result (λ placed. AreNumbered first placed.pages placed.next_page) }
    ensures behind { IfOk result (λ placed. from ≤ placed.end) }
    ensures few { IfOk result (λ placed. placed.next_page ≤ first + 2 ^ 51) }
    ensures memory { IfErr result (λ stop. stop ≡ CompactStop.Memory) }
{
    let mut pages = Vec::new(alloc);
    let mut end = from;
    let mut number = first;
    for _ in 0..count {
        if end > LIMIT {
            return Err(CompactStop::Memory);
        }
        let ib = next_page(end);
        pages.push(Bref {
            bid: Bid { bits: number },
            ib,
        })?;
        end = ib + PAGE;
        number += 1;
    }
    Ok(Placed {
        pages: Level::from_vec(pages),
        end,
        next_page: number,
    })
}

/// Plans the pages of a tree of so many entries behind a place, in as few as it takes, one behind the other, with numbers from `first` on. An end past 2^59, or more than seven levels above the leaves, which more entries would take than memory holds, is answered as want of memory.
pub fn plan_tree<E: Entry>(
    alloc: Global,
    count: usize,
    from: u64,
    first: u64,
) -> Result<TreePages, CompactStop>
    requires low { 17408 ≤ from }
    requires numbers { first ≤ 2 ^ 62 }
    ensures planned { IfOk result (λ p. IsPlanned (488 / E.size) count from first p.levels.items p.root p.end p.next_page) }
    ensures memory { IfErr result (λ stop. stop ≡ CompactStop.Memory) }
{
    let leaves = place_level(alloc, pages_for(leaf_room::<E>(), count), from, first)?;
    let mut width = leaves.pages.as_slice().len();
    let mut root = leaves.pages.as_slice()[0];
    let mut end = leaves.end;
    let mut next_page = leaves.next_page;
    let mut levels = Vec::new(alloc);
    levels.push(leaves.pages)?;
    while width > 1 {
        if levels.len() > ABOVE {
            return Err(CompactStop::Memory);
        }
        width = pages_for(CHILDREN, width);
        let level = place_level(alloc, width, end, next_page)?;
        root = level.pages.as_slice()[0];
        end = level.end;
        next_page = level.next_page;
        levels.push(level.pages)?;
    }
    Ok(TreePages {
        levels,
        root,
        end,
        next_page,
    })
}
