//! Nodes in memory.
ghost use Rattle.std.specs.Prelude.{◌≡◌, replicate};
ghost use Rattle.node_port.specs.Nodes.{no_nodes};
ghost use Rattle.node_port.specs.Slots.{Keeps};

use crate::keeper::{KeepStop, Keeper, NodeReader, PrepareStop, Saver};
use crate::node::{Changes, Counts, NodeBlock, NodeRec};
use crate::slots::{Slots, fill_all, find, make_slots, next_kept};
use pst_base::Nid;
use pst_outside::{Failed, Outside};
use std::alloc::Global;
use std::collections::BTreeMap;

/// A keeper in memory. `prepare` makes empty slots, which nobody sees, so that `apply` needs no memory.
#[derive(Debug, Drop)]
pub struct MapKeeper {
    nodes: Slots,
    counts: Counts,
}

/// Changes for which there are slots.
#[derive(Debug, Drop)]
pub struct MapReady {
    nodes: Vec<(Nid, Option<NodeRec>)>,
    counts: Counts,
}

impl MapKeeper {
    /// A keeper with no nodes, all of whose counters are 0. Takes no memory.
    pub fn new(alloc: Global) -> MapKeeper
        ensures nodes { Keeps result.nodes no_nodes }
        ensures counts { result.counts.last ≡ replicate 32 0 }
    {
        MapKeeper {
            nodes: BTreeMap::new(alloc),
            counts: Counts { last: [0; 32] },
        }
    }
}

impl<W: Outside> NodeReader<W> for MapKeeper {
    ghost use Rattle.node_port.specs.Slots.{Keeps};
    ghost use Rattle.node_port.specs.Stops.{ample};
    ghost use Rattle.std.specs.Prelude.{false};

    ghost holds = { λ k v. Keeps k.nodes };

    ghost last = { λ k. k.counts.last };

    ghost room = { λ k. ample };

    ghost pinned = { λ k v p N. ⊥ };

    ghost has_disk = { false };

    ghost holds_on = { λ k v w same N held. held };

    ghost pinned_on = { λ k v w same p N is. is };

    fn get(&mut self, alloc: Global, _w: &mut W, nid: Nid) -> Result<Option<NodeRec>, KeepStop> {
        match find(&self.nodes, nid.bits) {
            Some(node) => Ok(Some(node.copy(alloc)?)),
            None => Ok(None),
        }
    }

    fn data_block(
        &mut self,
        alloc: Global,
        _w: &mut W,
        nid: Nid,
        position: usize,
    ) -> Result<Option<NodeBlock>, KeepStop> {
        match find(&self.nodes, nid.bits) {
            Some(node) => Ok(Some(node.data_block(alloc, position)?)),
            None => Ok(None),
        }
    }

    fn next_after(&mut self, _w: &mut W, nid: Option<Nid>) -> Result<Option<Nid>, KeepStop> {
        let after = match nid {
            Some(nid) => Some(nid.bits),
            None => None,
        };
        match next_kept(&self.nodes, after) {
            Some(bits) => Ok(Some(Nid { bits })),
            None => Ok(None),
        }
    }
}

impl<W: Outside> Keeper<W> for MapKeeper {
    type Ready = MapReady;

    ghost use Rattle.std.specs.Prelude.{◌≡◌, refl};
    ghost use Rattle.node_port.specs.Slots.{HasSlots};
    ghost use Rattle.node_port.specs.Stops.{ample};

    ghost fits = { λ k v ready last cs. (ready.nodes.items ≡ cs) × (ready.counts.last ≡ last) × HasSlots k.nodes cs };

    ghost stands = { λ found image N last. Unit {0} };

    ghost rests = { λ image. Unit {0} };

    ghost applied = { λ pins cs bytes old new. (new ≡ old) × (bytes ≡ 0) };

    ghost measures = { λ image room. room ≡ ample };

    ghost cost = { λ ready. 0 };

    ghost held_stands = { λ k w N held. tt };

    ghost held_measures = { λ k w N held. refl };

    ghost stands_on = { λ found c d same N last is. is };

    ghost rests_on = { λ c d same is. is };

    fn counts(&self) -> Counts {
        self.counts
    }

    fn prepare(
        &mut self,
        _alloc: Global,
        _w: &mut W,
        changes: Changes,
    ) -> Result<MapReady, PrepareStop> {
        make_slots(&mut self.nodes, changes.nodes.as_slice())?;
        Ok(MapReady {
            nodes: changes.nodes,
            counts: changes.counts,
        })
    }

    fn apply(&mut self, _w: &mut W, ready: MapReady) -> Result<(), Failed> {
        fill_all(&mut self.nodes, ready.nodes);
        self.counts = ready.counts;
        Ok(())
    }
}

impl<W: Outside> Saver<W> for MapKeeper {
    ghost use Rattle.std.specs.Prelude.{◌≡◌};

    ghost saved = { λ bytes old new. (new ≡ old) × (bytes ≡ 0) };

    ghost save_cost = { λ k. 0 };

    fn save(&mut self, _w: &mut W) -> Result<(), Failed> {
        Ok(())
    }
}
