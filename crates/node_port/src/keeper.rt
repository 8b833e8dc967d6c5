//! What the store asks of what keeps its nodes.
ghost use Rattle.std.specs.Prelude.{◌≡◌, ◌⊎◌, ◌≤◌, ◌+◌, ◌^◌, ℕ, List, Option, Bool, true, IfOk, IfErr, OnOk, OnErr, IsTrue};
ghost use Rattle.pst_base.specs.declared.ids.Nid.{Nid as Id};
ghost use Rattle.pst_outside.specs.World.{Image, World, SameDisk};
ghost use Rattle.pst_outside.specs.Calls.{NeverFall, Rose, Untouched, Settled, LeavesOnly};
ghost use Rattle.node_port.specs.declared.node.NodeRec.{NodeRec as Rec};
ghost use Rattle.node_port.specs.Nodes.{Nodes, ascend, changed, block_in, content_of, IsNext, node_at};
ghost use Rattle.node_port.specs.Pins.{Pins};
ghost use Rattle.node_port.specs.Stops.{KeepStops, KeepsPins, PrepareStops, Room, RoomDecides, Tells};

use crate::node::{Changes, Counts, NodeBlock, NodeRec};
use pst_base::{Nid, Subs};
use pst_outside::{Failed, Outside};
use std::alloc::{AllocError, Global};

/// Why a reading of nodes stopped.
#[derive(Clone, Copy, Debug, PartialEq, Eq, Drop)]
pub enum KeepStop {
    /// The disk failed.
    Fault,
    /// What stands at the offset `ib` isn't as it was found before: the two numbers that the check compared.
    Changed { ib: u64, stored: u64, computed: u64 },
    /// There was no memory.
    Memory,
}

impl From<AllocError> for KeepStop {
    ghost use Rattle.std.specs.Prelude.{◌≡◌};
    ghost use Rattle.node_port.specs.declared.keeper.KeepStop.TheVariants.{Memory};

    ghost from_gives = { λ _ e. e ≡ Memory };

    fn from(_: AllocError) -> KeepStop {
        KeepStop::Memory
    }
}

/// Why changes can't be made.
#[derive(Clone, Copy, Debug, PartialEq, Eq, Drop)]
pub enum PrepareStop {
    /// The disk failed.
    Fault,
    /// What stands at the offset `ib` isn't as it was found before: the two numbers that the check compared.
    Changed { ib: u64, stored: u64, computed: u64 },
    /// There was no memory.
    Memory,
    /// There is no room: so many cells of 64 bytes are free, and so many are needed.
    Full { free: u64, need: u64 },
    /// The numbers for blocks or pages are used up.
    IdsSpent,
}

impl From<AllocError> for PrepareStop {
    ghost use Rattle.std.specs.Prelude.{◌≡◌};
    ghost use Rattle.node_port.specs.declared.keeper.PrepareStop.TheVariants.{Memory};

    ghost from_gives = { λ _ e. e ≡ Memory };

    fn from(_: AllocError) -> PrepareStop {
        PrepareStop::Memory
    }
}

/// What tells nodes. It is used with one world.
pub trait NodeReader<W: Outside> {
    /// The nodes that it tells over a world. Where it tells nothing, it holds none.
    ghost holds: { Self → World → Nodes → Type 0 };

    /// The counters of indices.
    ghost last: { Self → List ℕ };

    /// What room there is for more.
    ghost room: { Self → Room };

    /// What a pin of this number tells over a world: the nodes that were told when it was made.
    ghost pinned: { Self → World → ℕ → Nodes → Type 0 };

    /// Whether the nodes stand on a disk, which can fail.
    ghost has_disk: { Bool };

    /// The node with this id, or `None` where there is none. `Fault` comes where the disk failed, `Changed` where something isn't as it was found before, and never of a reader that tells its nodes.
    fn get(&mut self, alloc: Global, w: &mut W, nid: Nid) -> Result<Option<NodeRec>, KeepStop>
        ensures node { IfOk result (λ node. Tells (holds self.old (W.view w.old)) (λ N. node ≡ node_at N nid.bits)) }
        ensures stops { IfErr result (KeepStops has_disk (W.view w.old).disk_faults (W.view w.new).disk_faults (holds self.old (W.view w.old))) }
        ensures stays { Tells (holds self.old (W.view w.old)) (holds self.new (W.view w.new)) }
        ensures pinned { KeepsPins (holds self.old (W.view w.old)) (pinned self.old (W.view w.old)) (pinned self.new (W.view w.new)) }
        ensures last { last self.new ≡ last self.old }
        ensures room { room self.new ≡ room self.old }
        ensures untouched { Untouched (W.view w.old) (W.view w.new) };

    /// The least id of a node above this one, or the least of all for `None`; `None` where there is none. It stops as `get`.
    fn next_after(&mut self, w: &mut W, nid: Option<Nid>) -> Result<Option<Nid>, KeepStop>
        ensures next { IfOk result (λ next. Tells (holds self.old (W.view w.old)) (λ N. IsNext N nid next)) }
        ensures stops { IfErr result (KeepStops has_disk (W.view w.old).disk_faults (W.view w.new).disk_faults (holds self.old (W.view w.old))) }
        ensures stays { Tells (holds self.old (W.view w.old)) (holds self.new (W.view w.new)) }
        ensures pinned { KeepsPins (holds self.old (W.view w.old)) (pinned self.old (W.view w.old)) (pinned self.new (W.view w.new)) }
        ensures last { last self.new ≡ last self.old }
        ensures room { room self.new ≡ room self.old }
        ensures untouched { Untouched (W.view w.old) (W.view w.new) };

    /// The same without its subnodes: those of the record are none. It stops as `get`.
    fn get_content(
        &mut self,
        alloc: Global,
        w: &mut W,
        nid: Nid,
    ) -> Result<Option<NodeRec>, KeepStop>
        ensures node { IfOk result (λ node. Tells (holds self.old (W.view w.old)) (λ N. node ≡ content_of (node_at N nid.bits))) }
        ensures stops { IfErr result (KeepStops has_disk (W.view w.old).disk_faults (W.view w.new).disk_faults (holds self.old (W.view w.old))) }
        ensures stays { Tells (holds self.old (W.view w.old)) (holds self.new (W.view w.new)) }
        ensures pinned { KeepsPins (holds self.old (W.view w.old)) (pinned self.old (W.view w.old)) (pinned self.new (W.view w.new)) }
        ensures last { last self.new ≡ last self.old }
        ensures room { room self.new ≡ room self.old }
        ensures untouched { Untouched (W.view w.old) (W.view w.new) }
    {
        match self.get(alloc, w, nid)? {
            Some(node) => Ok(Some(NodeRec {
                parent: node.parent,
                blocks: node.blocks,
                subs: Subs::new(alloc),
            })),
            None => Ok(None),
        }
    }

    /// The data block of a node at a position, and how many it has; `None` where there is no such node. No other data block is read where the nodes stand on a disk. It stops as `get`.
    fn data_block(
        &mut self,
        alloc: Global,
        w: &mut W,
        nid: Nid,
        position: usize,
    ) -> Result<Option<NodeBlock>, KeepStop>
        ensures block { IfOk result (λ block. Tells (holds self.old (W.view w.old)) (λ N. block ≡ block_in position (node_at N nid.bits))) }
        ensures stops { IfErr result (KeepStops has_disk (W.view w.old).disk_faults (W.view w.new).disk_faults (holds self.old (W.view w.old))) }
        ensures stays { Tells (holds self.old (W.view w.old)) (holds self.new (W.view w.new)) }
        ensures pinned { KeepsPins (holds self.old (W.view w.old)) (pinned self.old (W.view w.old)) (pinned self.new (W.view w.new)) }
        ensures last { last self.new ≡ last self.old }
        ensures room { room self.new ≡ room self.old }
        ensures untouched { Untouched (W.view w.old) (W.view w.new) }
    {
        match self.get(alloc, w, nid)? {
            Some(node) => Ok(Some(node.data_block(alloc, position)?)),
            None => Ok(None),
        }
    }

    // What it holds depends on what the world tells of the disk alone, and without a disk on nothing of the world.
    ghost holds_on: { (k : Self) (v w : W) → (has_disk ≡ true → (W.view w).tells × SameDisk (W.view v).here (W.view w).here) → (N : Nodes) → holds k (W.view v) N → holds k (W.view w) N };

    ghost pinned_on: { (k : Self) (v w : W) → (has_disk ≡ true → (W.view w).tells × SameDisk (W.view v).here (W.view w).here) → (p : ℕ) (N : Nodes) → pinned k (W.view v) p N → pinned k (W.view w) p N };
}

/// What keeps nodes. A change is made in two steps: `prepare` finds whether it can be made, and takes what it needs; `apply` makes it. A plan may be given up: then nothing has changed.
pub trait Keeper<W: Outside>: NodeReader<W> {
    /// Changes that can be made.
    type Ready: Drop;

    /// That a plan is of the latest `prepare` over this world, with these counters and these changes, and may be applied.
    ghost fits: { Self → World → Self.Ready → List ℕ → List (Id × Option Rec) → Type 0 };

    /// An image of the disk stands for nodes and counters. The first is the header that the keeper was opened on, as bytes.
    ghost stands: { List ℕ → Image → Nodes → List ℕ → Type 0 };

    /// The disk is as a commit needs it at its start.
    ghost rests: { Image → Type 0 };

    /// What `apply` of a plan of these changes does to the disk beside these pins, where it succeeds, and by writing at most so many bytes.
    ghost applied: { Pins → List (Id × Option Rec) → ℕ → Image → Image → Type 0 };

    /// What room the disk has.
    ghost measures: { Image → Room → Type 0 };

    /// How many bytes `apply` of a plan writes at most.
    ghost cost: { Self.Ready → ℕ };

    /// The counters of indices. Takes no memory.
    fn counts(&self) -> Counts
        ensures { result.last ≡ Self.last self.now };

    /// Plans changes, of which none is seen until they are applied. Their nodes are to ascend strictly by id, and `room` is at most 2^60; `None` for a node that isn't there changes nothing.
    ///
    /// `Full` comes just where too few cells are free, `IdsSpent` just where a next number for blocks or pages is 2^61 or above, and the others as in `get`.
    fn prepare(
        &mut self,
        alloc: Global,
        w: &mut W,
        changes: Changes,
    ) -> Result<Self::Ready, PrepareStop>
        requires order { IsTrue (ascend 0 changes.nodes.items) }
        requires room { changes.room ≤ 2 ^ 60 }
        ensures fits { IfOk result (λ ready. fits self.new (W.view w.new) ready changes.counts.last changes.nodes.items) }
        ensures full { Tells (Self.holds self.old (W.view w.old)) (λ N. RoomDecides (Self.room self.old) changes.room changes.nodes.items result) }
        ensures stops { IfErr result (PrepareStops Self.has_disk (W.view w.old).disk_faults (W.view w.new).disk_faults (Self.holds self.old (W.view w.old))) }
        ensures stays { Tells (Self.holds self.old (W.view w.old)) (Self.holds self.new (W.view w.new)) }
        ensures pinned { KeepsPins (Self.holds self.old (W.view w.old)) (Self.pinned self.old (W.view w.old)) (Self.pinned self.new (W.view w.new)) }
        ensures last { Self.last self.new ≡ Self.last self.old }
        ensures room { Self.room self.new ≡ Self.room self.old }
        ensures untouched { Untouched (W.view w.old) (W.view w.new) };

    /// Makes the changes of the latest plan. It fails only where the disk failed; then nothing is said of the keeper, and each image stands for the nodes from before or those after. Takes no memory.
    fn apply(&mut self, w: &mut W, ready: Self::Ready) -> Result<(), Failed>
        requires fits { (last : List ℕ) × (cs : List (Id × Option Rec)) × fits self.old (W.view w.old) ready last cs }
        ensures made { OnOk result ((last : List ℕ) (cs : List (Id × Option Rec)) → fits self.old (W.view w.old) ready last cs → ((W.view w.old).tells → rests (W.view w.old).here) → (Self.has_disk ≡ true → (W.view w.new).tells)
            → (N : Nodes) → Self.holds self.old (W.view w.old) N → Self.holds self.new (W.view w.new) (changed N cs)) }
        ensures last { OnOk result ((last : List ℕ) (cs : List (Id × Option Rec)) → fits self.old (W.view w.old) ready last cs → Self.last self.new ≡ last) }
        ensures found { (Self.room self.new).found ≡ (Self.room self.old).found }
        ensures pins { (Self.room self.new).pins ≡ (Self.room self.old).pins }
        ensures pinned { OnOk result (((W.view w.old).tells → rests (W.view w.old).here) → (Self.has_disk ≡ true → (W.view w.new).tells)
            → KeepsPins (Self.holds self.old (W.view w.old)) (Self.pinned self.old (W.view w.old)) (Self.pinned self.new (W.view w.new))) }
        ensures applied { OnOk result ((last : List ℕ) (cs : List (Id × Option Rec)) → fits self.old (W.view w.old) ready last cs → (N : Nodes) → Self.holds self.old (W.view w.old) N
            → ((W.view w.old).tells → rests (W.view w.old).here) → (W.view w.new).tells → applied (Self.room self.old).pins cs (cost ready) (W.view w.old).here (W.view w.new).here) }
        // Nothing is pending after it if nothing was, and the disk is as the next commit needs it.
        ensures settled { Settled (W.view w.old) → OnOk result (Settled (W.view w.new)) }
        ensures rests { ((W.view w.old).tells → rests (W.view w.old).here) → OnOk result ((W.view w.new).tells → rests (W.view w.new).here) }
        // A crash at any moment leaves the nodes from before or those after.
        ensures any_moment { (last : List ℕ) (cs : List (Id × Option Rec)) → fits self.old (W.view w.old) ready last cs → (N : Nodes) → Self.holds self.old (W.view w.old) N
            → Settled (W.view w.old) → ((W.view w.old).tells → rests (W.view w.old).here)
            → LeavesOnly (W.view w.old) (W.view w.new) (λ c. (c.said ≡ (W.view w.old).here.said) × (stands (Self.room self.old).found c N (Self.last self.old) ⊎ stands (Self.room self.old).found c (changed N cs) last)) }
        ensures written { (W.view w.new).written ≤ (W.view w.old).written + cost ready }
        ensures told { (W.view w.new).tells → (W.view w.old).tells }
        ensures input { (W.view w.new).tells → (W.view w.new).input ≡ (W.view w.old).input }
        ensures cause { OnErr result (Rose (W.view w.old).disk_faults (W.view w.new).disk_faults × (Self.has_disk ≡ true)) }
        ensures counts { NeverFall (W.view w.old) (W.view w.new) };

    // The disk stands for the nodes that are held.
    ghost held_stands: { (k : Self) (w : W) (N : Nodes) → Self.holds k (W.view w) N → stands (Self.room k).found (W.view w).here N (Self.last k) };

    // The keeper's room is that of the disk.
    ghost held_measures: { (k : Self) (w : W) (N : Nodes) → Self.holds k (W.view w) N → measures (W.view w).here (Self.room k) };

    // What has been said doesn't matter.
    ghost stands_on: { (found : List ℕ) (c d : Image) → SameDisk c d → (N : Nodes) (last : List ℕ) → stands found c N last → stands found d N last };

    ghost rests_on: { (c d : Image) → SameDisk c d → rests c → rests d };
}

/// A keeper that can put on the disk what other readers look for beside the nodes: of a file the map of the places that are in use.
pub trait Saver<W: Outside>: Keeper<W> {
    /// What `save` does to the disk, where it succeeds, and by writing at most so many bytes.
    ghost saved: { ℕ → Image → Image → Type 0 };

    /// How many bytes `save` writes at most.
    ghost save_cost: { Self → ℕ };

    /// Saves what is known beside the nodes. Nodes, counters and room stay. It fails only where the disk failed; then nothing is said of the keeper. A plan of an earlier `prepare` can't be applied any more. Takes no memory.
    fn save(&mut self, w: &mut W) -> Result<(), Failed>
        ensures same { OnOk result (((W.view w.old).tells → Self.rests (W.view w.old).here) → (Self.has_disk ≡ true → (W.view w.new).tells) → (N : Nodes) → Self.holds self.old (W.view w.old) N → Self.holds self.new (W.view w.new) N) }
        ensures pinned { OnOk result (((W.view w.old).tells → Self.rests (W.view w.old).here) → (Self.has_disk ≡ true → (W.view w.new).tells)
            → KeepsPins (Self.holds self.old (W.view w.old)) (Self.pinned self.old (W.view w.old)) (Self.pinned self.new (W.view w.new))) }
        ensures last { Self.last self.new ≡ Self.last self.old }
        ensures room { Self.room self.new ≡ Self.room self.old }
        ensures saved { OnOk result ((N : Nodes) → Self.holds self.old (W.view w.old) N → ((W.view w.old).tells → Self.rests (W.view w.old).here) → (W.view w.new).tells → saved (save_cost self.old) (W.view w.old).here (W.view w.new).here) }
        ensures settled { Settled (W.view w.old) → OnOk result (Settled (W.view w.new)) }
        ensures rests { ((W.view w.old).tells → Self.rests (W.view w.old).here) → OnOk result ((W.view w.new).tells → Self.rests (W.view w.new).here) }
        // A crash at any moment leaves the same nodes.
        ensures any_moment { (N : Nodes) → Self.holds self.old (W.view w.old) N → Settled (W.view w.old) → ((W.view w.old).tells → Self.rests (W.view w.old).here)
            → LeavesOnly (W.view w.old) (W.view w.new) (λ c. (c.said ≡ (W.view w.old).here.said) × Self.stands (Self.room self.old).found c N (Self.last self.old)) }
        ensures written { (W.view w.new).written ≤ (W.view w.old).written + save_cost self.old }
        ensures told { (W.view w.new).tells → (W.view w.old).tells }
        ensures input { (W.view w.new).tells → (W.view w.new).input ≡ (W.view w.old).input }
        ensures cause { OnErr result (Rose (W.view w.old).disk_faults (W.view w.new).disk_faults × (Self.has_disk ≡ true)) }
        ensures counts { NeverFall (W.view w.old) (W.view w.new) };
}
