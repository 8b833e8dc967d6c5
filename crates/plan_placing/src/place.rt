//! Places for what a plan writes.
ghost use Rattle.std.specs.Prelude.{◌≡◌, ◌≤◌, ◌<◌, ◌+◌, ◌^◌, ◌++◌, ℕ, Bool, List, Option, All, map, length, IfOk, IfErr, OnOk};
ghost use Rattle.alloc_map.specs.Cells.{free_cells_of};
ghost use Rattle.alloc_map.specs.Ends.{region_end};
ghost use Rattle.alloc_map.specs.Slots.{IsLaid, slots_in};
ghost use Rattle.alloc_map.specs.Taken.{IsBlockPlace, Taken, Takes};
ghost use Rattle.data_tree.specs.Plan.{AreSmall};
ghost use Rattle.btree_pages.specs.Entries.{node_key};
ghost use Rattle.file_blocks.specs.Blocks.{entry_key, file_of};
ghost use Rattle.file_layout.specs.Nodes.{NodeMap};
ghost use Rattle.node_layout.specs.Joined.{node_id};
ghost use Rattle.node_layout.specs.Pieces.{piece_place};
ghost use Rattle.node_port.specs.declared.node.NodeRec.{NodeRec as NodeRecs};
ghost use Rattle.node_store.specs.Told.{CachesBoth, KeepsTelling, StopsKeeping, TellsNodes};
ghost use Rattle.plan_drawing.specs.plan_pieces.Blocks.{slots_of};
ghost use Rattle.pst_base.specs.declared.ids.Nid.{Nid as Nids};
ghost use Rattle.pst_base.specs.Ids.{key_of};
ghost use Rattle.pst_header.specs.Format.{IsWritable};
ghost use Rattle.pst_outside.specs.Calls.{Untouched};
ghost use Rattle.tree_edit.specs.Edits.{AreEdits};
ghost use Rattle.tree_edit.specs.Plans.{AreWritable};
ghost use Rattle.plan_drawing.specs.declared.draw.Numbers.{Numbers as Figures};
ghost use Rattle.plan_drawing.specs.Drawn.{IsDrawn};
ghost use Rattle.plan_drawing.specs.Recounts.{puts_of};
ghost use Rattle.plan_placing.specs.Draws.{CanDraw, IsBuilt, IsSketched};
ghost use Rattle.plan_placing.specs.Places.{placing_over};

use alloc_map::Slots;
use btree_pages::{BlockEntry, Entry};
use lays_kept::Piece;
use node_port::KeepStop;
use node_store::PageCaches;
use plan_drawing::plan_pieces::{seal_blocks, slots_of_blocks};
use plan_drawing::{Numbers, PlanEffects, Sketch, Trees, change_trees, changed_at, finish_plan};
use pst_base::Place;
use pst_commit::CommitPlan;
use pst_header::Header;
use pst_outside::Outside;
use std::alloc::{AllocError, Global};

/// Where a file with 8192 regions ends.
const LARGEST: u64 = 0x4400 + 253_952 * 8192;

/// New blocks at their places, and both trees of a plan.
#[derive(Drop)]
struct Built {
    trees: Trees,
    pieces: Vec<Piece>,
}

/// Adds the edits that put new entries.
fn put_entries(
    edits: &mut Vec<(u64, Option<BlockEntry>)>,
    entries: &[BlockEntry],
) -> Result<(), AllocError>
    ensures { OnOk result (edits.new.items ≡ edits.old.items ++ puts_of entries.now) }
{
    for entry in entries {
        edits.push((entry.key(), Some(*entry)))?;
    }
    Ok(())
}

/// The new blocks at their places, and both trees with their entries.
fn build<W: Outside>(
    alloc: Global,
    w: &mut W,
    header: &Header,
    caches: &mut PageCaches,
    sketch: &Sketch,
    mut edits: Vec<(u64, Option<BlockEntry>)>,
    places: &[Place],
) -> Result<Built, KeepStop>
    requires small { AreSmall sketch.now.blocks.items }
    requires sized { map slots_in places.now ≡ map slots_of sketch.now.blocks.items }
    requires laid { All (IsLaid 8192) places.now }
    requires edits { AreEdits node_id 0 (2 ^ 64) sketch.now.nodes.items }
    ensures built { IfOk result (λ built. CachesBoth (W.view w.old) header.now caches.old → IsBuilt header.now (file_of (W.view w.old).here) sketch.now edits.items places.now built.trees built.pieces.items) }
    ensures at { IfOk result (λ built. map piece_place built.pieces.items ≡ places.now) }
    ensures writes_blocks { IfOk result (λ built. AreWritable entry_key key_of 24 built.trees.blocks.pages.items) }
    ensures writes_nodes { IfOk result (λ built. AreWritable node_id node_key 32 built.trees.nodes.pages.items) }
    ensures stops { (numbers : Figures) (free : ℕ) → IfErr result (StopsKeeping (W.view w.old) (W.view w.new) (CanDraw (W.view w.old) header.now caches.old numbers sketch.now edits.items free)) }
    ensures keeps { KeepsTelling (W.view w.old) (W.view w.new) header.now caches.old caches.new }
    ensures untouched { Untouched (W.view w.old) (W.view w.new) }
{
    let (entries, pieces) = seal_blocks(alloc, sketch.blocks.as_slice(), places)?;
    put_entries(&mut edits, entries.as_slice())?;
    let nodes = sketch.nodes.as_slice();
    match change_trees(alloc, w, header, caches, edits.as_slice(), nodes) {
        Ok(trees) => Ok(Built { trees, pieces }),
        Err(stop) => Err(stop),
    }
}

/// The plan of blocks that have places: its pages get theirs.
fn draw_pages<W: Outside>(
    alloc: Global,
    w: &mut W,
    header: &Header,
    last: &[u32; 32],
    numbers: Numbers,
    caches: &mut PageCaches,
    slots: &mut Slots,
    sketch: Sketch,
    edits: Vec<(u64, Option<BlockEntry>)>,
    places: &[Place],
) -> Result<CommitPlan<PlanEffects>, KeepStop>
    requires writable { IsWritable header.now }
    requires low { 17408 < header.now.eof }
    requires high { header.now.eof ≤ region_end 8192 }
    requires small { AreSmall sketch.blocks.items }
    requires sized { map slots_in places.now ≡ map slots_of sketch.blocks.items }
    requires laid { All (IsLaid 8192) places.now }
    requires edits { AreEdits node_id 0 (2 ^ 64) sketch.nodes.items }
    ensures drawn { IfOk result (λ plan. (m : NodeMap) (tells : TellsNodes (W.view w.old) header.now caches.old m) (used : List Bool) (counts : ℕ → ℕ) (cs : List (Nids × Option NodeRecs))
        → IsSketched tells.lays counts numbers.block cs sketch edits.items → Taken used slots.old places.now → Takes IsBlockPlace used places.now slots.old
        → IsDrawn tells.lays used counts numbers.pages numbers.block numbers.page cs plan.pieces.items plan.sealed plan.header plan.adopts) }
    ensures indexes { IfOk result (λ plan. plan.header.indexes ≡ last.now) }
    ensures refs { IfOk result (λ plan. plan.adopts.refs.items ≡ sketch.refs.items) }
    ensures back { slots.new ≡ slots.old }
    ensures stops { IfErr result (StopsKeeping (W.view w.old) (W.view w.new) (CanDraw (W.view w.old) header.now caches.old numbers sketch edits.items (free_cells_of slots.old + length sketch.blocks.items))) }
    ensures keeps { KeepsTelling (W.view w.old) (W.view w.new) header.now caches.old caches.new }
    ensures untouched { Untouched (W.view w.old) (W.view w.new) }
{
    let built = match build(alloc, w, header, caches, &sketch, edits, places) {
        Ok(built) => built,
        Err(stop) => return Err(stop),
    };
    let Built { trees, pieces } = built;
    let many = trees.new_pages()?;
    if many > slots.free_cells().saturating_mul(16) {
        return Err(changed_at(header.bbt));
    }
    let _regions = slots.regions();
    let pages = slots.place_pages(alloc, many as usize)?;
    let plan = finish_plan(
        alloc,
        header,
        last,
        numbers,
        sketch,
        &trees,
        pages.as_slice(),
        places,
        pieces,
    );
    slots.give_back_all(pages.as_slice());
    match plan {
        Ok(plan) => Ok(plan),
        Err(_) => Err(KeepStop::Memory),
    }
}

/// The plan of what is to be written: its blocks get places, and then its pages. The places are given back.
fn draw<W: Outside>(
    alloc: Global,
    w: &mut W,
    header: &Header,
    last: &[u32; 32],
    numbers: Numbers,
    caches: &mut PageCaches,
    slots: &mut Slots,
    sketch: Sketch,
    edits: Vec<(u64, Option<BlockEntry>)>,
) -> Result<CommitPlan<PlanEffects>, KeepStop>
    requires writable { IsWritable header.now }
    requires small { AreSmall sketch.blocks.items }
    requires edits { AreEdits node_id 0 (2 ^ 64) sketch.nodes.items }
    ensures drawn { IfOk result (λ plan. (m : NodeMap) (tells : TellsNodes (W.view w.old) header.now caches.old m) (counts : ℕ → ℕ) (cs : List (Nids × Option NodeRecs))
        → IsSketched tells.lays counts numbers.block cs sketch edits.items
        → IsDrawn tells.lays slots.old counts numbers.pages numbers.block numbers.page cs plan.pieces.items plan.sealed plan.header plan.adopts) }
    ensures indexes { IfOk result (λ plan. plan.header.indexes ≡ last.now) }
    ensures refs { IfOk result (λ plan. plan.adopts.refs.items ≡ sketch.refs.items) }
    ensures back { slots.new ≡ slots.old }
    ensures stops { IfErr result (StopsKeeping (W.view w.old) (W.view w.new) (CanDraw (W.view w.old) header.now caches.old numbers sketch edits.items (free_cells_of slots.old))) }
    ensures keeps { KeepsTelling (W.view w.old) (W.view w.new) header.now caches.old caches.new }
    ensures untouched { Untouched (W.view w.old) (W.view w.new) }
{
    if header.eof <= 17408 || header.eof > LARGEST {
        return Err(changed_at(header.bbt));
    }
    let sizes = slots_of_blocks(alloc, sketch.blocks.as_slice())?;
    if sizes.len() as u64 > slots.free_cells() {
        return Err(changed_at(header.bbt));
    }
    let _regions = slots.regions();
    let places = slots.place_blocks(alloc, sizes.as_slice())?;
    let plan = draw_pages(
        alloc,
        w,
        header,
        last,
        numbers,
        caches,
        slots,
        sketch,
        edits,
        places.as_slice(),
    );
    slots.give_back_all(places.as_slice());
    match plan {
        Ok(plan) => Ok(plan),
        Err(stop) => Err(stop),
    }
}

/// The plan of what is to be written, whose places are taken beside the slots of the file and of its pins: in the union of both, where there is one. They are given back.
///
/// `Changed` comes where the file doesn't lay nodes under the header, or its cells aren't those that were counted.
pub fn draw_beside<W: Outside>(
    alloc: Global,
    w: &mut W,
    header: &Header,
    last: &[u32; 32],
    numbers: Numbers,
    caches: &mut PageCaches,
    own: &mut Slots,
    all: &mut Option<Slots>,
    sketch: Sketch,
    edits: Vec<(u64, Option<BlockEntry>)>,
) -> Result<CommitPlan<PlanEffects>, KeepStop>
    requires writable { IsWritable header.now }
    requires small { AreSmall sketch.blocks.items }
    requires edits { AreEdits node_id 0 (2 ^ 64) sketch.nodes.items }
    ensures drawn { IfOk result (λ plan. (m : NodeMap) (tells : TellsNodes (W.view w.old) header.now caches.old m) (counts : ℕ → ℕ) (cs : List (Nids × Option NodeRecs))
        → IsSketched tells.lays counts numbers.block cs sketch edits.items
        → IsDrawn tells.lays (placing_over own.old all.old) counts numbers.pages numbers.block numbers.page cs plan.pieces.items plan.sealed plan.header plan.adopts) }
    ensures indexes { IfOk result (λ plan. plan.header.indexes ≡ last.now) }
    ensures refs { IfOk result (λ plan. plan.adopts.refs.items ≡ sketch.refs.items) }
    ensures back { own.new ≡ own.old }
    ensures union { all.new ≡ all.old }
    ensures stops { IfErr result (StopsKeeping (W.view w.old) (W.view w.new) (CanDraw (W.view w.old) header.now caches.old numbers sketch edits.items (free_cells_of (placing_over own.old all.old)))) }
    ensures keeps { KeepsTelling (W.view w.old) (W.view w.new) header.now caches.old caches.new }
    ensures untouched { Untouched (W.view w.old) (W.view w.new) }
{
    match all {
        Some(all) => draw(alloc, w, header, last, numbers, caches, all, sketch, edits),
        None => draw(alloc, w, header, last, numbers, caches, own, sketch, edits),
    }
}
