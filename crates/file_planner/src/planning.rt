//! The plan of changed nodes.
ghost use Rattle.std.specs.Prelude.{◌≡◌, ◌≤◌, ◌<◌, ◌+◌, ◌*◌, ◌/◌, ◌%◌, ◌^◌, ℕ, [], true, min, length, IfOk, IfErr};
ghost use Rattle.alloc_map.specs.Cells.{free_cells_of};
ghost use Rattle.content_plan.specs.Plan.{puts_in};
ghost use Rattle.data_tree.specs.Plan.{AreSmall};
ghost use Rattle.file_layout.specs.Nodes.{NodeMap};
ghost use Rattle.node_layout.specs.Joined.{node_id};
ghost use Rattle.node_port.specs.Nodes.{ascend};
ghost use Rattle.node_port.specs.Stops.{size};
ghost use Rattle.node_store.specs.Told.{KeepsTelling, StopsKeeping, TellsNodes};
ghost use Rattle.pst_header.specs.Format.{IsWritable};
ghost use Rattle.pst_outside.specs.Calls.{Untouched};
ghost use Rattle.ref_counts.specs.Changes.{HasRoomFor};
ghost use Rattle.ref_counts.specs.Tables.{refs_in};
ghost use Rattle.tree_edit.specs.Edits.{AreEdits};
ghost use Rattle.plan_drawing.specs.Drawn.{IsDrawn};
ghost use Rattle.plan_placing.specs.Draws.{IsSketched};
ghost use Rattle.plan_placing.specs.Places.{placing_over};
ghost use Rattle.plan_placing.specs.Known.{IsKnown};
ghost use Rattle.file_planner.specs.Knowing.{spent};

use crate::old::old_edits;
use crate::planner::FilePlanner;
use btree_pages::BlockEntry;
use content_plan::plan_contents;
use node_port::{Counts, KeepStop, NodeRec};
use node_store::keep_stop;
use plan_drawing::{Numbers, PlanEffects, Sketch, block_tree, changed_at};
use plan_placing::draw_beside;
use pst_base::Nid;
use pst_commit::CommitPlan;
use pst_header::Header;
use pst_outside::Outside;
use std::alloc::Global;

/// From this number on none is given.
const SPENT: u64 = 0x2000_0000_0000_0000;

/// What changed nodes come to, with the edits of old blocks.
#[derive(Drop)]
struct Sketched {
    sketch: Sketch,
    edits: Vec<(u64, Option<BlockEntry>)>,
}

impl FilePlanner {
    /// Drops the pages of both caches.
    pub(crate) fn clear(&mut self)
        ensures blocks { self.new.caches.blocks ≡ [] }
        ensures nodes { self.new.caches.nodes ≡ [] }
        ensures slots { self.new.slots ≡ self.old.slots }
        ensures pins { self.new.held.pins ≡ self.old.held.pins }
        ensures union { self.new.held.all ≡ self.old.held.all }
        ensures refs { self.new.refs ≡ self.old.refs }
        ensures pages { self.new.pages ≡ self.old.pages }
        ensures block { self.new.next_block ≡ self.old.next_block }
        ensures page { self.new.next_page ≡ self.old.next_page }
    {
        self.caches.blocks.clear();
        self.caches.nodes.clear();
    }

    /// Whether a next number is used up.
    pub(crate) fn spent(&self) -> bool
        ensures { result ≡ spent self.now.next_block self.now.next_page }
    {
        self.next_block >= SPENT || self.next_page >= SPENT
    }

    /// What changed nodes come to, before anything has a place.
    fn sketch_nodes<W: Outside>(
        &mut self,
        alloc: Global,
        w: &mut W,
        header: &Header,
        nodes: &[(Nid, Option<NodeRec>)],
    ) -> Result<Sketched, KeepStop>
        requires order { ascend 0 nodes.now ≡ true }
        requires some { 4 ≤ self.old.next_block }
        requires high { self.old.next_block ≤ 2 ^ 62 }
        requires apart { self.old.next_block % 4 ≡ 0 }
        ensures sketched { IfOk result (λ made. (m : NodeMap) (tells : TellsNodes (W.view w.old) header.now self.old.caches m) → IsSketched tells.lays (refs_in self.old.refs) self.old.next_block nodes.now made.sketch made.edits.items) }
        ensures few { IfOk result (λ made. 2 * (length made.sketch.blocks.items + puts_in made.sketch.nodes.items) ≤ 3 * size nodes.now) }
        ensures small { IfOk result (λ made. AreSmall made.sketch.blocks.items) }
        ensures edits { IfOk result (λ made. AreEdits node_id 0 (2 ^ 64) made.sketch.nodes.items) }
        ensures room { IfOk result (λ made. HasRoomFor self.new.refs made.sketch.refs.items) }
        ensures stops { IfErr result (StopsKeeping (W.view w.old) (W.view w.new) ((m : NodeMap) × TellsNodes (W.view w.old) header.now self.old.caches m)) }
        ensures keeps { KeepsTelling (W.view w.old) (W.view w.new) header.now self.old.caches self.new.caches }
        ensures untouched { Untouched (W.view w.old) (W.view w.new) }
        ensures refs { (key : ℕ) → refs_in self.new.refs key ≡ refs_in self.old.refs key }
        ensures slots { self.new.slots ≡ self.old.slots }
        ensures pins { self.new.held.pins ≡ self.old.held.pins }
        ensures union { self.new.held.all ≡ self.old.held.all }
        ensures pages { self.new.pages ≡ self.old.pages }
        ensures block { self.new.next_block ≡ self.old.next_block }
        ensures page { self.new.next_page ≡ self.old.next_page }
    {
        let next = self.next_block;
        let caches = &mut self.caches;
        let content = match plan_contents(alloc, w, header, caches, nodes, next) {
            Ok(content) => content,
            Err(stop) => return Err(stop),
        };
        let refs = self.refs.changes(alloc, content.taken, content.put)?;
        self.refs.make_room(refs.as_slice())?;
        let tree = block_tree(header);
        let cache = &mut self.caches.blocks;
        let old = match old_edits(alloc, w, cache, tree, next, refs.as_slice()) {
            Ok(old) => old,
            Err(stop) => return Err(keep_stop(stop)),
        };
        Ok(Sketched {
            sketch: Sketch {
                nodes: content.edits,
                blocks: content.blocks,
                refs,
                left: old.left,
            },
            edits: old.edits,
        })
    }

    /// Plans changes for which there is room. A plan that is given up leaves nothing.
    pub(crate) fn plan_nodes<W: Outside>(
        &mut self,
        alloc: Global,
        w: &mut W,
        header: &Header,
        nodes: &[(Nid, Option<NodeRec>)],
        counts: &Counts,
    ) -> Result<CommitPlan<PlanEffects>, KeepStop>
        requires order { ascend 0 nodes.now ≡ true }
        requires writable { IsWritable header.now }
        requires low { self.old.next_block < 2 ^ 61 }
        requires page_low { self.old.next_page < 2 ^ 61 }
        requires enough { self.old.pages / 16 + 3 * min (size nodes.now) (2 ^ 60) + 16 ≤ free_cells_of (placing_over self.old.slots self.old.held.all) }
        ensures drawn { IfOk result (λ plan. (m : NodeMap) (tells : TellsNodes (W.view w.old) header.now self.old.caches m)
            → IsDrawn tells.lays (placing_over self.old.slots self.old.held.all) (refs_in self.old.refs) self.old.pages self.old.next_block self.old.next_page nodes.now plan.pieces.items plan.sealed plan.header plan.adopts) }
        ensures room { IfOk result (λ plan. HasRoomFor self.new.refs plan.adopts.refs.items) }
        ensures indexes { IfOk result (λ plan. plan.header.indexes ≡ counts.now.last) }
        ensures stops { IfErr result (StopsKeeping (W.view w.old) (W.view w.new) ((m : NodeMap) × (tells : TellsNodes (W.view w.old) header.now self.old.caches m) × (length (placing_over self.old.slots self.old.held.all) ≡ length self.old.slots) × IsKnown tells.lays self.old.slots (refs_in self.old.refs) self.old.pages self.old.next_block self.old.next_page)) }
        ensures keeps { KeepsTelling (W.view w.old) (W.view w.new) header.now self.old.caches self.new.caches }
        ensures untouched { Untouched (W.view w.old) (W.view w.new) }
        ensures refs { (key : ℕ) → refs_in self.new.refs key ≡ refs_in self.old.refs key }
        ensures slots { self.new.slots ≡ self.old.slots }
        ensures pins { self.new.held.pins ≡ self.old.held.pins }
        ensures union { self.new.held.all ≡ self.old.held.all }
        ensures pages { self.new.pages ≡ self.old.pages }
        ensures block { self.new.next_block ≡ self.old.next_block }
        ensures page { self.new.next_page ≡ self.old.next_page }
    {
        if self.next_block < 4 || self.next_block % 4 != 0 {
            return Err(changed_at(header.bbt));
        }
        let made = match self.sketch_nodes(alloc, w, header, nodes) {
            Ok(made) => made,
            Err(stop) => return Err(stop),
        };
        let numbers = Numbers {
            pages: self.pages,
            block: self.next_block,
            page: self.next_page,
        };
        let Sketched { sketch, edits } = made;
        let (last, caches) = (&counts.last, &mut self.caches);
        let (own, all) = (&mut self.slots, &mut self.held.all);
        let plan = draw_beside(
            alloc, w, header, last, numbers, caches, own, all, sketch, edits,
        );
        match plan {
            Ok(plan) => Ok(plan),
            Err(stop) => Err(stop),
        }
    }
}
