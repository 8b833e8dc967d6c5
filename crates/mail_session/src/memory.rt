//! Nodes in memory, with pins.
ghost use Rattle.std.specs.Prelude.{◌≡◌, replicate};
ghost use Rattle.node_port.specs.Nodes.{no_nodes};
ghost use Rattle.node_port.specs.Pins.{no_pins};
ghost use Rattle.node_port.specs.Slots.{Keeps};
ghost use Rattle.mail_session.specs.Memory.{memory_room};

use crate::copied::MemoryPin;
use node_port::{
    Changes, Counts, KeepStop, Keeper, MapKeeper, MapReady, NodeReader, NodeRec, PrepareStop, Saver,
};
use pst_base::Nid;
use pst_outside::{Failed, Outside};
use std::alloc::Global;

/// A keeper in memory: its nodes, how many pins were numbered, and the open pins, each with its own copy of the nodes.
#[derive(Drop)]
pub(crate) struct MemoryKeeper {
    pub(crate) nodes: MapKeeper,
    pub(crate) given: u32,
    pub(crate) pins: Vec<MemoryPin>,
}

impl MemoryKeeper {
    /// A keeper with no nodes and no pins, all of whose counters are 0. Takes no memory.
    pub(crate) fn new(alloc: Global) -> MemoryKeeper
        ensures nodes { Keeps result.nodes.nodes no_nodes }
        ensures counts { result.nodes.counts.last ≡ replicate 32 0 }
        ensures pins { (memory_room result).pins ≡ no_pins }
    {
        MemoryKeeper {
            nodes: MapKeeper::new(alloc),
            given: 0,
            pins: Vec::new(alloc),
        }
    }
}

impl<W: Outside> NodeReader<W> for MemoryKeeper {
    ghost use Rattle.std.specs.Prelude.{false};
    ghost use Rattle.mail_session.specs.Memory.{memory_holds, memory_last, memory_pinned, memory_room};

    ghost holds = { memory_holds };

    ghost last = { memory_last };

    ghost room = { memory_room };

    ghost pinned = { memory_pinned };

    ghost has_disk = { false };

    ghost holds_on = { λ k v w same N held. held };

    ghost pinned_on = { λ k v w same p N is. is };

    fn get(&mut self, alloc: Global, w: &mut W, nid: Nid) -> Result<Option<NodeRec>, KeepStop> {
        self.nodes.get(alloc, w, nid)
    }

    fn next_after(&mut self, w: &mut W, nid: Option<Nid>) -> Result<Option<Nid>, KeepStop> {
        self.nodes.next_after(w, nid)
    }
}

impl<W: Outside> Keeper<W> for MemoryKeeper {
    type Ready = MapReady;

    ghost use Rattle.std.specs.Prelude.{◌≡◌, refl};
    ghost use Rattle.node_port.specs.Slots.{HasSlots};
    ghost use Rattle.node_port.specs.Stops.{SameSpace, ample};
    ghost use Rattle.mail_session.specs.Memory.{StaysImage, memory_rests, memory_stands};

    ghost fits = { λ k v ready last cs. (ready.nodes.items ≡ cs) × (ready.counts.last ≡ last) × HasSlots k.nodes.nodes cs };

    ghost stands = { memory_stands };

    ghost rests = { memory_rests };

    ghost applied = { λ pins cs. StaysImage };

    ghost measures = { λ image room. SameSpace ample room };

    ghost cost = { λ ready. 0 };

    ghost held_stands = { λ k w N held. tt };

    ghost held_measures = { λ k w N held. record { free = refl; pages = refl; spent = refl; found = refl } };

    ghost stands_on = { λ found c d same N last is. is };

    ghost rests_on = { λ c d same is. is };

    fn counts(&self) -> Counts {
        Keeper::<W>::counts(&self.nodes)
    }

    fn prepare(
        &mut self,
        alloc: Global,
        w: &mut W,
        changes: Changes,
    ) -> Result<MapReady, PrepareStop> {
        self.nodes.prepare(alloc, w, changes)
    }

    fn apply(&mut self, w: &mut W, ready: MapReady) -> Result<(), Failed> {
        self.nodes.apply(w, ready)
    }
}

impl<W: Outside> Saver<W> for MemoryKeeper {
    ghost use Rattle.mail_session.specs.Memory.{StaysImage};

    ghost saved = { StaysImage };

    ghost save_cost = { λ k. 0 };

    fn save(&mut self, _w: &mut W) -> Result<(), Failed> {
        Ok(())
    }
}
