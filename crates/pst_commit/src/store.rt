//! What is asked of what reads a file's nodes and plans changes.
ghost use Rattle.std.specs.Prelude.{◌≡◌, ◌≤◌, ◌^◌, ◌++◌, ◌∷◌, [], ℕ, List, Bool, Option, true, length, IfOk, IfErr, IsTrue, OnErr, OnOk};
ghost use Rattle.node_port.specs.declared.node.NodeRec.{NodeRec as Rec};
ghost use Rattle.pst_base.specs.declared.ids.Nid.{Nid as Id};
ghost use Rattle.pst_header.specs.declared.header.Header.{Header as Head};
ghost use Rattle.pst_header.specs.Format.{IsWritable};
ghost use Rattle.node_port.specs.Nodes.{ascend, block_in, content_of, IsNext, node_at};
ghost use Rattle.node_port.specs.Pins.{no_pins};
ghost use Rattle.node_port.specs.Stops.{KeepStops, PrepareStops, RoomDecides, Tells};
ghost use Rattle.lays_kept.specs.Saved.{LaysSame};
ghost use Rattle.pst_commit.specs.declared.store.Pin.{Pin as Pins};
ghost use Rattle.pst_commit.specs.Held.{held_without, opened_of, pin_at};
ghost use Rattle.pst_commit.specs.Keeping.{Holds, IsKnowledge, LooksOn, PlansFor, ReadsAs, room_with};

use alloc_map::Slots;
use lays_kept::Piece;
use node_port::{Changes, KeepStop, NodeBlock, NodeRec, PrepareStop};
use pst_base::{Bref, Nid};
use pst_header::Header;
use pst_outside::Outside;
use std::alloc::{AllocError, Global};

/// A pin of a file: its number, and the roots of both trees when it was made.
#[derive(Clone, Copy, Debug, PartialEq, Eq, Drop)]
pub struct Pin {
    pub number: u32,
    pub nbt: Bref,
    pub bbt: Bref,
}

/// A commit that was planned: the pieces to be written, the new header and its bytes, and what the planner knows after it.
#[derive(Drop)]
pub struct CommitPlan<A> {
    pub pieces: Vec<Piece>,
    pub sealed: [u8; 564],
    pub header: Header,
    pub adopts: A,
    pub ghost writable: { IsWritable header },
}

/// What reads the nodes of a file with a header, and plans changes of them. It is used with one world, and with the header that it knows; nodes are also read under that header with the roots of a pin.
///
/// It keeps pins, each with the slots that were used when it was made: nothing is placed there while the pin is kept, whatever commits free.
///
/// `Fault` comes where the disk failed, `Memory` where there was no memory, and `Changed` where something isn't as it was found before, so never where the file lays nodes under the header. No call but `adopt` and `stay` changes what is known, and none writes.
pub trait NodeStore<W: Outside> {
    /// What the planner knows after a commit.
    type Adopts: Drop;

    /// Its used places, counts of references and cached pages are those of a file with a header.
    ghost knows: { Self → Head → List ℕ → Type 0 };

    /// What it will know once it has adopted a plan.
    ghost knows_after: { Self → Self.Adopts → Head → List ℕ → Type 0 };

    /// What a plan makes of a file beside its nodes and these pins: the header's numbers, the blocks that are freed, and the places that are taken.
    ghost becomes: { List (ℕ × List Bool) → List ℕ → List ℕ → Type 0 };

    /// How many bytes the pieces of a plan have that makes these changes of the one file and so the other.
    ghost costs: { List ℕ → List ℕ → List (Id × Option Rec) → ℕ → Type 0 };

    /// The slots that the file uses.
    ghost used: { Self → List Bool };

    /// The pins, each with the slots that it holds.
    ghost held: { Self → List (Pins × List Bool) };

    /// The cells that are free beside the file and its pins, the pages of both trees, and whether a next number is used up.
    ghost cells: { Self → ℕ × ℕ × Bool };

    /// The node with this id, or `None` where there is none.
    fn node(
        &mut self,
        alloc: Global,
        w: &mut W,
        header: &Header,
        nid: Nid,
    ) -> Result<Option<NodeRec>, KeepStop>
        ensures node { IfOk result (λ node. Tells (ReadsAs (knows self.old) header.now (W.view w.old)) (λ N. node ≡ node_at N nid.bits)) }
        ensures stops { IfErr result (KeepStops true (W.view w.old).disk_faults (W.view w.new).disk_faults (ReadsAs (knows self.old) header.now (W.view w.old))) }
        ensures looks { LooksOn (knows self.old) (knows self.new) header.now (used self.old) (used self.new) (held self.old) (held self.new) (cells self.old) (cells self.new) (W.view w.old) (W.view w.new) };

    /// The same without its subnodes.
    fn content(
        &mut self,
        alloc: Global,
        w: &mut W,
        header: &Header,
        nid: Nid,
    ) -> Result<Option<NodeRec>, KeepStop>
        ensures node { IfOk result (λ node. Tells (ReadsAs (knows self.old) header.now (W.view w.old)) (λ N. node ≡ content_of (node_at N nid.bits))) }
        ensures stops { IfErr result (KeepStops true (W.view w.old).disk_faults (W.view w.new).disk_faults (ReadsAs (knows self.old) header.now (W.view w.old))) }
        ensures looks { LooksOn (knows self.old) (knows self.new) header.now (used self.old) (used self.new) (held self.old) (held self.new) (cells self.old) (cells self.new) (W.view w.old) (W.view w.new) };

    /// The data block at a position of the node with this id, and how many it has; `None` where there is no such node.
    fn data_block(
        &mut self,
        alloc: Global,
        w: &mut W,
        header: &Header,
        nid: Nid,
        position: usize,
    ) -> Result<Option<NodeBlock>, KeepStop>
        ensures block { IfOk result (λ block. Tells (ReadsAs (knows self.old) header.now (W.view w.old)) (λ N. block ≡ block_in position (node_at N nid.bits))) }
        ensures stops { IfErr result (KeepStops true (W.view w.old).disk_faults (W.view w.new).disk_faults (ReadsAs (knows self.old) header.now (W.view w.old))) }
        ensures looks { LooksOn (knows self.old) (knows self.new) header.now (used self.old) (used self.new) (held self.old) (held self.new) (cells self.old) (cells self.new) (W.view w.old) (W.view w.new) };

    /// The least id of a node above this one, or the least of all for `None`; `None` where there is none. Takes no memory.
    fn next(
        &mut self,
        w: &mut W,
        header: &Header,
        nid: Option<Nid>,
    ) -> Result<Option<Nid>, KeepStop>
        ensures next { IfOk result (λ next. Tells (ReadsAs (knows self.old) header.now (W.view w.old)) (λ N. IsNext N nid next)) }
        ensures stops { IfErr result (KeepStops true (W.view w.old).disk_faults (W.view w.new).disk_faults (ReadsAs (knows self.old) header.now (W.view w.old))) }
        ensures looks { LooksOn (knows self.old) (knows self.new) header.now (used self.old) (used self.new) (held self.old) (held self.new) (cells self.old) (cells self.new) (W.view w.old) (W.view w.new) };

    /// Plans changes, of whose nodes the ids ascend strictly. `Full` comes just where too few cells are free, and `IdsSpent` just where a next number is used up. A plan that is given up leaves nothing: its places are free for the next, and aren't among the used slots.
    fn plan(
        &mut self,
        alloc: Global,
        w: &mut W,
        header: &Header,
        changes: Changes,
    ) -> Result<CommitPlan<Self::Adopts>, PrepareStop>
        requires order { IsTrue (ascend 0 changes.nodes.items) }
        requires room { changes.room ≤ 2 ^ 60 }
        requires writable { IsWritable header.now }
        ensures plan { (found : List ℕ) → IfOk result (λ p. (p.header.indexes ≡ changes.counts.last) × PlansFor (knows self.new) (knows_after self.new p.adopts) (becomes (opened_of (held self.new))) costs (held self.new) found header.now (W.view w.new) p.pieces.items p.sealed p.header changes.nodes.items) }
        ensures full { (found : List ℕ) → Tells (Holds (knows self.old) found header.now (W.view w.old)) (λ N. RoomDecides (room_with (cells self.old) found no_pins) changes.room changes.nodes.items result) }
        ensures stops { (found : List ℕ) → IfErr result (PrepareStops true (W.view w.old).disk_faults (W.view w.new).disk_faults (Holds (knows self.old) found header.now (W.view w.old))) }
        ensures looks { LooksOn (knows self.old) (knows self.new) header.now (used self.old) (used self.new) (held self.old) (held self.new) (cells self.old) (cells self.new) (W.view w.old) (W.view w.new) };

    /// Knows a plan's file from now on. Takes no memory.
    fn adopt(&mut self, adopts: Self::Adopts)
        ensures known { (header : Head) (file : List ℕ) → knows_after self.old adopts header file → knows self.new header file }
        ensures pins { held self.new ≡ held self.old };

    /// The trees stay, under another header, while other bytes may have been written beside them. Takes no memory.
    fn stay(&mut self)
        ensures known { (old new : Head) (file other : List ℕ) → LaysSame old new file other → knows self.old old file → knows self.new new other }
        ensures slots { used self.new ≡ used self.old }
        ensures pins { held self.new ≡ held self.old }
        ensures room { cells self.new ≡ cells self.old };

    /// The slots that the file uses.
    fn slots(&self) -> &Slots
        ensures { result.now ≡ used self.now };

    /// Keeps a pin, with the slots that the file uses now. A failure leaves all as it was.
    fn hold(&mut self, alloc: Global, pin: Pin) -> Result<(), AllocError>
        ensures pins { OnOk result (held self.new ≡ held self.old ++ (pin, used self.old) ∷ []) }
        ensures none { OnErr result (held self.new ≡ held self.old) }
        ensures known { (header : Head) (file : List ℕ) → knows self.old header file → knows self.new header file }
        ensures slots { used self.new ≡ used self.old }
        ensures room { cells self.new ≡ cells self.old };

    /// The pin of a number, if it is kept. Takes no memory.
    fn pin_at(&self, number: u32) -> Option<Pin>
        ensures { result ≡ pin_at number (held self.now) };

    /// How many pins are kept. Takes no memory.
    fn count_pins(&self) -> usize
        ensures { result ≡ length (held self.now) };

    /// Keeps the pin of a number no more, if it was kept: its slots are free where neither the file nor another pin uses them. Takes no memory.
    fn let_go(&mut self, number: u32)
        ensures pins { held self.new ≡ held_without number (held self.old) }
        ensures known { (header : Head) (file : List ℕ) → knows self.old header file → knows self.new header file }
        ensures slots { used self.new ≡ used self.old }
        ensures pages { (cells self.new).1 ≡ (cells self.old).1 }
        ensures spent { (cells self.new).2 ≡ (cells self.old).2 };

    // What is known is right.
    ghost known_right: { (s : Self) → IsKnowledge (knows s) (used s) (opened_of (held s)) (cells s) };
}
