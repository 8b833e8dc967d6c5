//! What is known of a file.
ghost use Rattle.std.specs.Prelude.{◌≡◌};
ghost use Rattle.file_planner.specs.Stopping.{prepare_stop};

use crate::held::Held;
use crate::room::decide;
use alloc_map::Slots;
use node_port::{Changes, KeepStop, NodeBlock, NodeRec, PrepareStop};
use node_store::{PageCaches, next_node, read_node, read_node_block, read_node_data};
use plan_drawing::PlanEffects;
use pst_base::Nid;
use pst_commit::{CommitPlan, NodeStore, Pin};
use pst_header::Header;
use pst_outside::Outside;
use ref_counts::RefCounts;
use std::alloc::{AllocError, Global};

/// Reads a file's nodes and plans changes of them. It knows the file's used slots and the pins, how often each block is referred to, the pages of both trees by number, and the numbers of the next block and page; and it has caches of pages.
#[derive(Drop)]
pub struct FilePlanner {
    pub(crate) caches: PageCaches,
    pub(crate) slots: Slots,
    pub(crate) held: Held,
    pub(crate) refs: RefCounts,
    /// How many pages both trees have.
    pub(crate) pages: u64,
    /// The number of the next block.
    pub(crate) next_block: u64,
    /// The number of the next page.
    pub(crate) next_page: u64,
}

impl<W: Outside> NodeStore<W> for FilePlanner {
    ghost use Rattle.file_planner.specs.Becomes.{IsMade};
    ghost use Rattle.file_planner.specs.Cost.{IsWithin};
    ghost use Rattle.file_planner.specs.Knowing.{Knows, KnowsAfter, cells_of};
    ghost use Rattle.file_planner.specs.Laws.{known_right};

    type Adopts = PlanEffects;

    ghost knows = { Knows };

    ghost knows_after = { KnowsAfter };

    ghost becomes = { IsMade };

    ghost costs = { IsWithin };

    ghost used = { λ p. p.slots };

    ghost held = { λ p. p.held.pins.items };

    ghost cells = { cells_of };

    fn node(
        &mut self,
        alloc: Global,
        w: &mut W,
        header: &Header,
        nid: Nid,
    ) -> Result<Option<NodeRec>, KeepStop> {
        read_node(alloc, w, header, nid, &mut self.caches)
    }

    fn content(
        &mut self,
        alloc: Global,
        w: &mut W,
        header: &Header,
        nid: Nid,
    ) -> Result<Option<NodeRec>, KeepStop> {
        read_node_data(alloc, w, header, nid, &mut self.caches)
    }

    fn data_block(
        &mut self,
        alloc: Global,
        w: &mut W,
        header: &Header,
        nid: Nid,
        position: usize,
    ) -> Result<Option<NodeBlock>, KeepStop> {
        read_node_block(alloc, w, header, nid, position, &mut self.caches)
    }

    fn next(
        &mut self,
        w: &mut W,
        header: &Header,
        nid: Option<Nid>,
    ) -> Result<Option<Nid>, KeepStop> {
        next_node(w, header, nid, &mut self.caches)
    }

    fn plan(
        &mut self,
        alloc: Global,
        w: &mut W,
        header: &Header,
        changes: Changes,
    ) -> Result<CommitPlan<PlanEffects>, PrepareStop> {
        let spent = self.spent();
        let free = self.held.placing(&self.slots).free_cells();
        let nodes = changes.nodes.as_slice();
        match decide(free, self.pages, spent, changes.room, nodes) {
            Ok(()) => (),
            Err(stop) => return Err(stop),
        }
        self.clear();
        match self.plan_nodes(alloc, w, header, nodes, &changes.counts) {
            Ok(plan) => Ok(plan),
            Err(stop) => Err(prepare_stop(stop)),
        }
    }

    fn adopt(&mut self, adopts: PlanEffects) {
        let taken = adopts.taken.as_slice();
        let freed = adopts.freed.as_slice();
        self.slots.retake(taken);
        self.slots.release(freed);
        self.held.follow(taken, freed);
        self.refs.adopt(adopts.refs.as_slice());
        self.pages = adopts.pages;
        self.next_block = adopts.next_block;
        self.next_page = adopts.next_page;
        self.clear();
    }

    fn stay(&mut self) {
        self.clear();
    }

    fn slots(&self) -> &Slots {
        &self.slots
    }

    fn hold(&mut self, alloc: Global, pin: Pin) -> Result<(), AllocError> {
        self.held.hold(alloc, pin, &self.slots)
    }

    fn pin_at(&self, number: u32) -> Option<Pin> {
        self.held.pin_at(number)
    }

    fn count_pins(&self) -> usize {
        self.held.count()
    }

    fn let_go(&mut self, number: u32) {
        self.held.let_go(number, &self.slots)
    }

    ghost known_right = { known_right };
}

/// A stop of a reading, as a plan gives it.
fn prepare_stop(stop: KeepStop) -> PrepareStop
    ensures { result ≡ prepare_stop stop }
{
    match stop {
        KeepStop::Fault => PrepareStop::Fault,
        KeepStop::Changed {
            ib,
            stored,
            computed,
        } => PrepareStop::Changed {
            ib,
            stored,
            computed,
        },
        KeepStop::Memory => PrepareStop::Memory,
    }
}
