//! A plan in all its parts.
ghost use Rattle.std.specs.Prelude.{◌≡◌, ◌≤◌, ◌<◌, ◌+◌, ◌*◌, ◌-◌, ◌%◌, ◌^◌, ◌++◌, ℕ, Bool, List, Option, Ok, All, map, length, IfOk, OnOk};
ghost use Rattle.file_layout.specs.Trees.{page_place};
ghost use Rattle.alloc_map.specs.Ends.{region_end};
ghost use Rattle.alloc_map.specs.Slots.{IsLaid};
ghost use Rattle.btree_pages.specs.Entries.{node_key};
ghost use Rattle.file_blocks.specs.Blocks.{entry_key};
ghost use Rattle.file_layout.specs.Nodes.{Lays, NodeMap};
ghost use Rattle.lays_kept.specs.Stands.{last_map};
ghost use Rattle.node_layout.specs.Joined.{node_id};
ghost use Rattle.node_layout.specs.Pieces.{piece_place};
ghost use Rattle.node_port.specs.declared.node.NodeRec.{NodeRec as NodeRecs};
ghost use Rattle.pst_base.specs.declared.ids.Nid.{Nid as Nids};
ghost use Rattle.pst_base.specs.declared.places.Place.{Place as Places};
ghost use Rattle.pst_base.specs.Ids.{key_of};
ghost use Rattle.pst_header.specs.Format.{IsWritable};
ghost use Rattle.tree_edit.specs.Plans.{AreWritable};
ghost use Rattle.plan_drawing.specs.Drawn.{IsDrawn};
ghost use Rattle.plan_drawing.specs.Gathered.{AreEffects, AreWrittenOut, IsGathered};

use crate::effects::PlanEffects;
use crate::freed::all_behind;
use crate::trees::Trees;
use alloc_map::end_for;
use btree_pages::{BlockEntry, NodeEntry};
use lays_kept::Piece;
use node_store::{BLOCK_PAGE, NODE_PAGE};
use plan_pieces::{growth, resolve_child, seal_pages};
use pst_base::{Bid, Bref, Bytes, Place};
use pst_commit::{CommitPlan, last_map};
use pst_header::{Header, write};
use ref_counts::RefChange;
use std::alloc::{AllocError, Global};

/// Past all numbers that blocks or pages get.
const LIMIT: u64 = 0x4000_0000_0000_0000;

/// What is to be written of nodes, before anything has a place.
#[derive(Drop)]
pub struct Sketch {
    /// The edits of the node tree.
    pub nodes: Vec<(u64, Option<NodeEntry>)>,
    /// The new blocks.
    pub blocks: Vec<(Bid, Bytes)>,
    /// The numbers of references that change.
    pub refs: Vec<RefChange>,
    /// Where the old blocks stand that are to go.
    pub left: Vec<Place>,
}

/// How many pages a file's trees have, and the numbers of its next block and page.
#[derive(Clone, Copy)]
pub struct Numbers {
    /// How many pages both trees have.
    pub pages: u64,
    /// The number of the next block.
    pub block: u64,
    /// The number of the next page.
    pub page: u64,
}

/// The pieces of a plan, where its file ends, and both roots.
#[derive(Drop)]
struct Pieces {
    pieces: Vec<Piece>,
    end: u64,
    bbt: Bref,
    nbt: Bref,
}

/// The number after so many that rise by a step. One past 2^62 is answered as want of memory, which would come first.
pub(crate) fn number_after(first: u64, step: u64, count: usize) -> Result<u64, AllocError>
    ensures value { IfOk result (λ number. number ≡ first + step * count) }
    ensures low { IfOk result (λ number. number < 2 ^ 62) }
{
    let Some(more) = step.checked_mul(count as u64) else {
        return Err(AllocError);
    };
    let Some(number) = first.checked_add(more) else {
        return Err(AllocError);
    };
    if number >= LIMIT {
        return Err(AllocError);
    }
    Ok(number)
}

/// Places, and then others.
fn both(alloc: Global, first: &[Place], then: &[Place]) -> Result<Vec<Place>, AllocError>
    ensures { IfOk result (λ all. all.items ≡ first.now ++ then.now) }
{
    let mut all = Vec::new(alloc);
    all.extend_from_slice(first)?;
    all.extend_from_slice(then)?;
    Ok(all)
}

/// Adds where pages stand.
fn add_pages(places: &mut Vec<Place>, pages: &[Bref]) -> Result<(), AllocError>
    ensures { OnOk result (places.new.items ≡ places.old.items ++ map page_place pages.now) }
{
    for page in pages {
        places.push(Place {
            ib: page.ib,
            len: 512,
        })?;
    }
    Ok(())
}

/// The pieces of a plan: what makes the file longer, the new pages, and the new blocks.
fn write_pieces(
    alloc: Global,
    eof: u64,
    page: u64,
    trees: &Trees,
    pages: &[Place],
    blocks: &[Place],
    mut block_pieces: Vec<Piece>,
) -> Result<Pieces, AllocError>
    requires low { 17408 < eof }
    requires high { eof ≤ region_end 8192 }
    requires numbers { page + length pages.now < 2 ^ 62 }
    requires count { length pages.now ≡ length trees.now.blocks.pages.items + length trees.now.nodes.pages.items }
    requires sized { All (λ (p : Places). p.len ≡ 512) pages.now }
    requires laid { All (IsLaid 8192) pages.now }
    requires blocks_laid { All (IsLaid 8192) blocks.now }
    requires writes_blocks { AreWritable entry_key key_of 24 trees.now.blocks.pages.items }
    requires writes_nodes { AreWritable node_id node_key 32 trees.now.nodes.pages.items }
    ensures { IfOk result (λ made. AreWrittenOut eof page trees.now pages.now blocks.now block_pieces.items made.pieces.items made.end made.bbt made.nbt) }
{
    let (first, last) = pages.split_at(trees.blocks.pages.len());
    let later = page + first.len() as u64;
    let bbt = resolve_child(page, first, trees.blocks.root);
    let nbt = resolve_child(later, last, trees.nodes.root);
    let new = trees.blocks.pages.as_slice();
    let mut first = seal_pages::<BlockEntry>(alloc, BLOCK_PAGE, page, first, new)?;
    let new = trees.nodes.pages.as_slice();
    let mut last = seal_pages::<NodeEntry>(alloc, NODE_PAGE, later, last, new)?;
    let taken = both(alloc, pages, blocks)?;
    let end = end_for(eof, taken.as_slice());
    let mut pieces = growth(alloc, eof, end)?;
    first.append(&mut last)?;
    first.append(&mut block_pieces)?;
    pieces.append(&mut first)?;
    Ok(Pieces {
        pieces,
        end,
        bbt,
        nbt,
    })
}

/// What is known after a plan. More pages than 64 bits count are answered as want of memory.
fn effects(
    alloc: Global,
    numbers: Numbers,
    trees: &Trees,
    mut left: Vec<Place>,
    pages: &[Place],
    blocks: &[Place],
    refs: Vec<RefChange>,
) -> Result<PlanEffects, AllocError>
    ensures { IfOk result (λ e. AreEffects numbers.pages numbers.block numbers.page trees.now left.items pages.now blocks.now refs.items e) }
{
    add_pages(&mut left, trees.blocks.freed.as_slice())?;
    add_pages(&mut left, trees.nodes.freed.as_slice())?;
    let gone = number_after(trees.blocks.freed.len() as u64, 1, trees.nodes.freed.len())?;
    let all = number_after(numbers.pages, 1, pages.len())?;
    Ok(PlanEffects {
        taken: both(alloc, pages, blocks)?,
        freed: all_behind(alloc, left.as_slice())?,
        refs,
        pages: all.saturating_sub(gone),
        next_block: numbers.block,
        next_page: numbers.page,
    })
}

/// The plan of gathered parts: its pieces, its header, and what is known after it.
pub fn finish_plan(
    alloc: Global,
    header: &Header,
    last: &[u32; 32],
    numbers: Numbers,
    sketch: Sketch,
    trees: &Trees,
    pages: &[Place],
    blocks: &[Place],
    block_pieces: Vec<Piece>,
) -> Result<CommitPlan<PlanEffects>, AllocError>
    requires writable { IsWritable header.now }
    requires low { 17408 < header.now.eof }
    requires high { header.now.eof ≤ region_end 8192 }
    requires count { length pages.now ≡ length trees.now.blocks.pages.items + length trees.now.nodes.pages.items }
    requires sized { All (λ (p : Places). p.len ≡ 512) pages.now }
    requires laid { All (IsLaid 8192) pages.now }
    requires blocks_laid { All (IsLaid 8192) blocks.now }
    requires writes_blocks { AreWritable entry_key key_of 24 trees.now.blocks.pages.items }
    requires writes_nodes { AreWritable node_id node_key 32 trees.now.nodes.pages.items }
    requires at_blocks { map piece_place block_pieces.items ≡ blocks.now }
    ensures drawn { IfOk result (λ plan. (file : List ℕ) (m : NodeMap) (is : Lays header.now file m) (slots : List Bool) (counts : ℕ → ℕ) (cs : List (Nids × Option NodeRecs))
        → IsGathered is slots counts numbers.block cs sketch block_pieces.items blocks.now pages.now trees.now
        → IsDrawn is slots counts numbers.pages numbers.block numbers.page cs plan.pieces.items plan.sealed plan.header plan.adopts) }
    ensures indexes { IfOk result (λ plan. plan.header.indexes ≡ last.now) }
    ensures refs { IfOk result (λ plan. plan.adopts.refs.items ≡ sketch.refs.items) }
{
    let next = Numbers {
        pages: numbers.pages,
        block: number_after(numbers.block, 4, sketch.blocks.len())?,
        page: number_after(numbers.page, 1, pages.len())?,
    };
    let made = write_pieces(
        alloc,
        header.eof,
        numbers.page,
        trees,
        pages,
        blocks,
        block_pieces,
    )?;
    let Sketch { refs, left, .. } = sketch;
    let adopts = effects(alloc, next, trees, left, pages, blocks, refs)?;
    let header = next_header(header, last, next, &made);
    Ok(CommitPlan {
        pieces: made.pieces,
        sealed: write(&header),
        header,
        adopts,
    })
}

/// The header of the next commit, which vouches for no maps. It names the map page of the last region.
fn next_header(header: &Header, last: &[u32; 32], next: Numbers, made: &Pieces) -> Header
    requires { IsWritable header.now }
    ensures writable { IsWritable result }
    ensures indexes { result.indexes ≡ last.now }
    ensures eof { result.eof ≡ made.now.end }
    ensures maps { result.maps ≡ 0 }
    ensures unique { result.unique ≡ (header.now.unique + 1) % 2 ^ 32 }
    ensures kept { result.kept ≡ header.now.kept }
    ensures bbt { result.bbt ≡ made.now.bbt }
    ensures nbt { result.nbt ≡ made.now.nbt }
    ensures block { result.next_block ≡ next.block }
    ensures page { result.next_page ≡ next.page }
    ensures map_page { result.amap_last ≡ last_map result.eof }
{
    Header {
        unique: header.unique.wrapping_add(1),
        next_block: next.block,
        next_page: next.page,
        indexes: *last,
        eof: made.end,
        amap_last: last_map(made.end),
        nbt: made.nbt,
        bbt: made.bbt,
        maps: 0,
        ..*header
    }
}
