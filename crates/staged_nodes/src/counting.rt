//! A keeper of counters alone.
use crate::nowhere::Nowhere;
use node_port::{Changes, Counts, KeepStop, Keeper, NodeReader, NodeRec, PrepareStop};
use pst_base::Nid;
use pst_outside::Failed;
use std::alloc::Global;

/// A keeper that tells no nodes and keeps the counters alone: a store over it settles what it knows beside its nodes.
#[derive(Drop)]
pub struct CountKeeper {
    pub counts: Counts,
}

impl NodeReader<Nowhere> for CountKeeper {
    ghost use Rattle.std.specs.Prelude.{false};
    ghost use Rattle.node_port.specs.Stops.{ample};

    ghost holds = { λ k v N. Unit {0} };

    ghost last = { λ k. k.counts.last };

    ghost room = { λ k. ample };

    ghost pinned = { λ k v p N. ⊥ };

    ghost has_disk = { false };

    ghost holds_on = { λ k v w same N is. is };

    ghost pinned_on = { λ k v w same p N is. is };

    fn get(
        &mut self,
        _alloc: Global,
        _w: &mut Nowhere,
        _nid: Nid,
    ) -> Result<Option<NodeRec>, KeepStop> {
        Err(KeepStop::Memory)
    }

    fn next_after(&mut self, _w: &mut Nowhere, _nid: Option<Nid>) -> Result<Option<Nid>, KeepStop> {
        Err(KeepStop::Memory)
    }
}

impl Keeper<Nowhere> for CountKeeper {
    type Ready = Counts;

    ghost use Rattle.std.specs.Prelude.{◌≡◌};

    ghost fits = { λ k v ready last cs. ready.last ≡ last };

    ghost stands = { λ found c N last. Unit {0} };

    ghost rests = { λ c. Unit {0} };

    ghost applied = { λ pins cs bytes old new. (new ≡ old) × (bytes ≡ 0) };

    ghost measures = { λ c room. Unit {0} };

    ghost cost = { λ ready. 0 };

    ghost held_stands = { λ k w N held. tt };

    ghost held_measures = { λ k w N held. tt };

    ghost stands_on = { λ found c d same N last is. is };

    ghost rests_on = { λ c d same is. is };

    fn counts(&self) -> Counts {
        self.counts
    }

    fn prepare(
        &mut self,
        _alloc: Global,
        _w: &mut Nowhere,
        _changes: Changes,
    ) -> Result<Counts, PrepareStop> {
        Err(PrepareStop::Memory)
    }

    fn apply(&mut self, _w: &mut Nowhere, ready: Counts) -> Result<(), Failed> {
        self.counts = ready;
        Ok(())
    }
}
