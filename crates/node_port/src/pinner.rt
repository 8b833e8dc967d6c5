//! Pins: the nodes of a moment, which stay readable while changes go on.
ghost use Rattle.std.specs.Prelude.{◌≡◌, ◌≢◌, true, ℕ, IfOk, IfErr};
ghost use Rattle.pst_outside.specs.Calls.{Untouched};
ghost use Rattle.node_port.specs.Nodes.{Nodes, IsNext, node_at};
ghost use Rattle.node_port.specs.Pins.{AddsPin, PinStops, has_pin, without_pin};
ghost use Rattle.node_port.specs.Stops.{KeepStops, KeepsPins, SameSpace, Tells};

use crate::keeper::{KeepStop, Keeper};
use crate::node::NodeRec;
use pst_base::{MemOr, Nid};
use pst_outside::Outside;
use std::alloc::Global;

/// No pin can be made: 16 are open, or all numbers were given.
#[derive(Clone, Copy, Debug, PartialEq, Eq, Drop)]
pub struct PinsFull;

/// A keeper whose nodes can be pinned: a pin tells the nodes of the moment when it was made, whatever is changed later. Its places aren't free until it is given up. A keeper that is opened again has no pins.
pub trait Pinner<W: Outside>: Keeper<W> {
    /// Pins the nodes that are told now. Pins count from 1, and no number is given twice.
    ///
    /// `PinsFull` comes just where 16 pins are open, or 2^32 - 1 numbers were given.
    fn pin(&mut self, alloc: Global) -> Result<u32, MemOr<PinsFull>>
        ensures pinned { IfOk result (λ p. (v : W) (N : Nodes) → Self.holds self.old (W.view v) N → Self.pinned self.new (W.view v) p N) }
        ensures adds { IfOk result (AddsPin (Self.room self.old).pins (Self.room self.new).pins) }
        ensures full { IfErr result (PinStops (Self.room self.old).pins) }
        ensures none { IfErr result (λ _. (Self.room self.new).pins ≡ (Self.room self.old).pins) }
        ensures stays { (v : W) (N : Nodes) → Self.holds self.old (W.view v) N → Self.holds self.new (W.view v) N }
        ensures others { (v : W) (q : ℕ) (N : Nodes) → Self.pinned self.old (W.view v) q N → Self.pinned self.new (W.view v) q N }
        ensures last { Self.last self.new ≡ Self.last self.old }
        ensures room { SameSpace (Self.room self.old) (Self.room self.new) };

    /// Whether a pin of this number is open. Takes no memory.
    fn has_pin(&self, p: u32) -> bool
        ensures { result ≡ has_pin p (Self.room self.now).pins };

    /// The node with an id as a pin tells it. The pin is open. It stops as `get`.
    fn get_at(
        &mut self,
        alloc: Global,
        w: &mut W,
        p: u32,
        nid: Nid,
    ) -> Result<Option<NodeRec>, KeepStop>
        requires is_open { has_pin p (Self.room self.old).pins ≡ true }
        ensures node { IfOk result (λ node. Tells (Self.holds self.old (W.view w.old)) (λ N. Tells (Self.pinned self.old (W.view w.old) p) (λ M. node ≡ node_at M nid.bits))) }
        ensures stops { IfErr result (KeepStops Self.has_disk (W.view w.old).disk_faults (W.view w.new).disk_faults (λ N. Self.holds self.old (W.view w.old) N × (M : Nodes) × Self.pinned self.old (W.view w.old) p M)) }
        ensures stays { Tells (Self.holds self.old (W.view w.old)) (λ N. Tells (Self.pinned self.old (W.view w.old) p) (λ M. Self.holds self.new (W.view w.new) N)) }
        ensures pinned { KeepsPins (Self.holds self.old (W.view w.old)) (Self.pinned self.old (W.view w.old)) (Self.pinned self.new (W.view w.new)) }
        ensures last { Self.last self.new ≡ Self.last self.old }
        ensures room { Self.room self.new ≡ Self.room self.old }
        ensures untouched { Untouched (W.view w.old) (W.view w.new) };

    /// The least id of a node above this one as a pin tells them, or the least of all for `None`; `None` where there is none. The pin is open. It stops as `get`.
    fn next_at(&mut self, w: &mut W, p: u32, nid: Option<Nid>) -> Result<Option<Nid>, KeepStop>
        requires is_open { has_pin p (Self.room self.old).pins ≡ true }
        ensures next { IfOk result (λ next. Tells (Self.holds self.old (W.view w.old)) (λ N. Tells (Self.pinned self.old (W.view w.old) p) (λ M. IsNext M nid next))) }
        ensures stops { IfErr result (KeepStops Self.has_disk (W.view w.old).disk_faults (W.view w.new).disk_faults (λ N. Self.holds self.old (W.view w.old) N × (M : Nodes) × Self.pinned self.old (W.view w.old) p M)) }
        ensures stays { Tells (Self.holds self.old (W.view w.old)) (λ N. Tells (Self.pinned self.old (W.view w.old) p) (λ M. Self.holds self.new (W.view w.new) N)) }
        ensures pinned { KeepsPins (Self.holds self.old (W.view w.old)) (Self.pinned self.old (W.view w.old)) (Self.pinned self.new (W.view w.new)) }
        ensures last { Self.last self.new ≡ Self.last self.old }
        ensures room { Self.room self.new ≡ Self.room self.old }
        ensures untouched { Untouched (W.view w.old) (W.view w.new) };

    /// Gives up a pin, whose places are free from now on where nothing else holds them. `false` where no pin of this number is open: then nothing changes. A plan of an earlier `prepare` can't be applied any more. Takes no memory.
    fn unpin(&mut self, p: u32) -> bool
        ensures was_open { result ≡ has_pin p (Self.room self.old).pins }
        ensures pins { (Self.room self.new).pins ≡ without_pin p (Self.room self.old).pins }
        ensures stays { (v : W) (N : Nodes) → Self.holds self.old (W.view v) N → Self.holds self.new (W.view v) N }
        ensures others { (v : W) (q : ℕ) (N : Nodes) → q ≢ p → Self.pinned self.old (W.view v) q N → Self.pinned self.new (W.view v) q N }
        ensures last { Self.last self.new ≡ Self.last self.old }
        ensures pages { (Self.room self.new).pages ≡ (Self.room self.old).pages }
        ensures spent { (Self.room self.new).spent ≡ (Self.room self.old).spent }
        ensures found { (Self.room self.new).found ≡ (Self.room self.old).found };
}
