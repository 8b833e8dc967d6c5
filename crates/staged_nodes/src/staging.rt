//! The changes of a transaction.
ghost use Rattle.std.specs.Prelude.{◌≡◌, ◌≤◌, ◌^◌, ◌+◌, ◌*◌, min, option_copied, IfErr, IfOk, IfSome, IsTrue, OnOk};
ghost use Rattle.node_port.specs.Nodes.{Nodes, ascend, changed};
ghost use Rattle.node_port.specs.Stops.{Room, RoomDecides, size, subs_size};
ghost use Rattle.staged_nodes.specs.Room.{IsLeft, room_beside};
ghost use Rattle.staged_nodes.specs.Sizes.{IsCalm, one_changed, one_node, replaced};
ghost use Rattle.staged_nodes.specs.Staged.{Staged, listed, none_staged, staged_size, with_changes};
ghost use Rattle.staged_nodes.specs.Staging.{Fits, HasChanges, HasSlots, IsNextPut, IsStaged, LiesOver, SameChanges, change_at};

use crate::cells::CellsLeft;
use crate::slots::{Slot, Slots, copied, fill_all, find, make_slots, next_put};
use node_port::{Changes, Counts, NodeRec, PrepareStop};
use pst_base::{Nid, Subs};
use std::alloc::{AllocError, Global};
use std::collections::BTreeMap;

/// The most for which room is asked, and up to which it is counted.
const MOST: u64 = 0x1000_0000_0000_0000;

/// How much a transaction puts at most: data blocks, nodes and subnodes.
pub const MOST_STAGED: u64 = 16384;

/// The changes of a transaction: of each node that was changed what it is now, the counters of indices, what room the keeper has for it, and how many data blocks, nodes and subnodes it puts so far.
#[derive(Debug, Drop)]
pub struct Staging {
    pub slots: BTreeMap<u32, Slot>,
    pub counts: Counts,
    pub left: CellsLeft,
    pub size: u64,
}

/// Further changes that are planned, and how much the transaction puts with them, up to 2^60.
#[derive(Debug, Drop)]
pub struct StagedReady {
    pub nodes: Vec<(Nid, Option<NodeRec>)>,
    pub counts: Counts,
    pub size: u64,
}

/// How many subnodes there are at all levels, and data blocks in them, up to `MOST`.
fn count_subs(subs: &Subs) -> u64
    ensures { result ≡ min (subs_size subs.now) (2 ^ 60) }
{
    let items = subs.as_slice();
    let mut n = 0;
    for sub in items {
        let blocks = (sub.blocks.len() as u64).min(MOST);
        let below = count_subs(&sub.subs);
        n = (n + 1 + blocks + below).min(MOST);
    }
    n
}

/// How many data blocks and subnodes a node that is put has, and itself, up to `MOST`.
fn count_node(node: &Option<NodeRec>) -> u64
    ensures { result ≡ min (one_node node.now) (2 ^ 60) }
{
    let Some(node) = node else {
        return 0;
    };
    let blocks = (node.blocks.len() as u64).min(MOST);
    let subs = count_subs(&node.subs);
    (1 + blocks + subs).min(MOST)
}

/// How much these changes put, up to `MOST`.
fn count_nodes(nodes: &[(Nid, Option<NodeRec>)]) -> u64
    ensures { result ≡ min (size nodes.now) (2 ^ 60) }
{
    let mut n = 0;
    for change in nodes {
        n = (n + count_node(&change.1)).min(MOST);
    }
    n
}

/// How much the node of an id puts so far, up to `MOST`.
fn count_found(slots: &Slots, nid: u32) -> u64
    ensures { result ≡ min (one_changed (change_at slots.now nid)) (2 ^ 60) }
{
    match find(slots, nid) {
        Some(node) => count_node(node),
        None => 0,
    }
}

/// How many cells are needed where so many are kept for pages, for what the transaction puts so far and for what is asked beside it.
fn needed(kept: u64, size: u64, asked: u64) -> Option<u64>
    requires { asked ≤ 2 ^ 60 }
    ensures { IfSome result (λ need. need ≡ kept + 3 * size + 3 * asked + 16) }
{
    let beside = size.checked_mul(3)?;
    kept.checked_add(beside)?.checked_add(3 * asked + 16)
}

impl Staging {
    /// A transaction without changes, over a keeper with these counters and this room. Takes no memory.
    pub fn new(alloc: Global, counts: Counts, left: CellsLeft) -> Staging
        ensures staged { IsStaged result none_staged }
        ensures counts { result.counts ≡ counts }
        ensures left { result.left ≡ left }
    {
        Staging {
            slots: BTreeMap::new(alloc),
            counts,
            left,
            size: 0,
        }
    }

    /// Whether further changes have room beside what the transaction puts so far. `Full` and `IdsSpent` come just where they have none, and `Memory` where that can't be told.
    fn decide(&self, room: u64, nodes: &[(Nid, Option<NodeRec>)]) -> Result<(), PrepareStop>
        requires room { room ≤ 2 ^ 60 }
        ensures decides { (has : Room) → IsLeft has self.now.left → RoomDecides (room_beside self.now.size has) room nodes.now result }
        ensures stops { IfErr result IsCalm }
    {
        let asked = room.max(count_nodes(nodes));
        match self.left {
            CellsLeft::Spent => Err(PrepareStop::IdsSpent),
            CellsLeft::Cells { free, kept } => {
                let Some(need) = needed(kept, self.size, asked) else {
                    return Err(PrepareStop::Memory);
                };
                if free < need {
                    return Err(PrepareStop::Full { free, need });
                }
                Ok(())
            }
            CellsLeft::Ample => match self.size.checked_add(asked) {
                Some(all) if all <= MOST => Ok(()),
                _ => Err(PrepareStop::Memory),
            },
        }
    }

    /// How much of what the transaction puts so far is of these nodes.
    fn replaced(&self, nodes: &[(Nid, Option<NodeRec>)]) -> u64
        ensures { (F : Staged) → IsStaged self.now F → replaced F nodes.now ≤ staged_size F → result ≡ replaced F nodes.now }
    {
        let mut n = 0u64;
        for change in nodes {
            n = n.saturating_add(count_found(&self.slots, change.0.bits));
        }
        n
    }

    /// What became of the node of an id, if it was changed.
    pub fn find(&self, nid: Nid) -> Option<&Option<NodeRec>>
        ensures { option_copied result ≡ change_at self.now.slots nid.bits }
    {
        find(&self.slots, nid.bits)
    }

    /// The next id above one, or the first for `None`, whose node is put.
    pub fn next_put(&self, nid: Option<Nid>) -> Option<Nid>
        ensures { IsNextPut self.now.slots nid result }
    {
        next_put(&self.slots, nid)
    }

    /// Plans further changes, whose nodes ascend: decides whether they have room, and counts what the transaction puts with them. Changes nothing.
    ///
    /// `Full` and `IdsSpent` come just where they have no room beside what the transaction puts so far, and `Memory` where that can't be told.
    pub fn plan(&self, changes: Changes) -> Result<StagedReady, PrepareStop>
        requires order { IsTrue (ascend 0 changes.nodes.items) }
        requires room { changes.room ≤ 2 ^ 60 }
        ensures fits { IfOk result (λ ready. Fits self.now ready changes.counts.last changes.nodes.items) }
        ensures decides { (has : Room) → IsLeft has self.now.left → RoomDecides (room_beside self.now.size has) changes.room changes.nodes.items result }
        ensures stops { IfErr result IsCalm }
    {
        let nodes = changes.nodes.as_slice();
        self.decide(changes.room, nodes)?;
        let kept = self.size.saturating_sub(self.replaced(nodes));
        let size = kept.saturating_add(count_nodes(nodes)).min(MOST);
        Ok(StagedReady {
            nodes: changes.nodes,
            counts: changes.counts,
            size,
        })
    }

    /// Makes slots for planned changes. What the transaction has stays.
    pub fn make_room(&mut self, ready: &StagedReady) -> Result<(), AllocError>
        ensures same { SameChanges self.old.slots self.new.slots }
        ensures slots { OnOk result (HasSlots self.new.slots ready.now.nodes.items) }
        ensures counts { self.new.counts ≡ self.old.counts }
        ensures left { self.new.left ≡ self.old.left }
        ensures size { self.new.size ≡ self.old.size }
    {
        make_slots(&mut self.slots, ready.nodes.as_slice())
    }

    /// Makes planned changes, for which there are slots. Takes no memory.
    pub fn fill(&mut self, ready: StagedReady)
        requires { HasSlots self.old.slots ready.nodes.items }
        ensures changes { (F : Staged) → HasChanges self.old.slots F → HasChanges self.new.slots (with_changes F ready.nodes.items) }
        ensures over { (N M : Nodes) → LiesOver N self.old.slots M → LiesOver N self.new.slots (changed M ready.nodes.items) }
        ensures counts { self.new.counts ≡ ready.counts }
        ensures left { self.new.left ≡ self.old.left }
        ensures size { self.new.size ≡ ready.size }
    {
        fill_all(&mut self.slots, ready.nodes);
        self.counts = ready.counts;
        self.size = ready.size;
    }

    /// The changes as a keeper takes them: by ascending ids, each node once. It fails only where memory runs out.
    pub fn changes(&self, alloc: Global) -> Result<Changes, AllocError>
        ensures nodes { IfOk result (λ c. (F : Staged) → HasChanges self.now.slots F → c.nodes.items ≡ listed F) }
        ensures order { IfOk result (λ c. IsTrue (ascend 0 c.nodes.items)) }
        ensures counts { IfOk result (λ c. c.counts ≡ self.now.counts) }
        ensures room { IfOk result (λ c. c.room ≡ 0) }
    {
        let mut nodes = Vec::new(alloc);
        for (nid, slot) in &self.slots {
            if let Slot::Changed(node) = slot {
                nodes.push((Nid { bits: *nid }, copied(alloc, node)?))?;
            }
        }
        Ok(Changes {
            nodes,
            counts: self.counts,
            room: 0,
        })
    }
}
