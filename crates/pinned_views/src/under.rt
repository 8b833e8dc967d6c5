//! A keeper whose pins are kept by each call.
use crate::around::Around;
use node_port::{
    Changes, Counts, KeepStop, Keeper, NodeBlock, NodeReader, NodeRec, PrepareStop, Saver,
};
use pst_base::Nid;
use pst_outside::{Failed, Outside};
use std::alloc::Global;
use std::marker::PhantomData;

/// A keeper, whose nodes are held together with what its pins are to tell.
#[derive(Drop)]
pub struct UnderPins<K, P: Around> {
    pub keeper: K,
    pub around: PhantomData<P>,
}

impl<W: Outside, K: NodeReader<W>, P: Around> NodeReader<W> for UnderPins<K, P> {
    ghost use Rattle.pinned_views.specs.Telling.{HoldsPinned};

    ghost holds = { λ k v N. HoldsPinned P.told (K.holds k.keeper v) (K.pinned k.keeper v) N };

    ghost last = { λ k. K.last k.keeper };

    ghost room = { λ k. K.room k.keeper };

    ghost pinned = { λ k v p N. K.pinned k.keeper v p N };

    ghost has_disk = { K.has_disk };

    ghost holds_on = { λ k v w same N is. record { held = K.holds_on k.keeper v w same N is.held; keeps = λ p M told. K.pinned_on k.keeper v w same p M (is.keeps p M told) } };

    ghost pinned_on = { λ k v w same p N is. K.pinned_on k.keeper v w same p N is };

    fn get(&mut self, alloc: Global, w: &mut W, nid: Nid) -> Result<Option<NodeRec>, KeepStop> {
        self.keeper.get(alloc, w, nid)
    }

    fn next_after(&mut self, w: &mut W, nid: Option<Nid>) -> Result<Option<Nid>, KeepStop> {
        self.keeper.next_after(w, nid)
    }

    fn get_content(
        &mut self,
        alloc: Global,
        w: &mut W,
        nid: Nid,
    ) -> Result<Option<NodeRec>, KeepStop> {
        self.keeper.get_content(alloc, w, nid)
    }

    fn data_block(
        &mut self,
        alloc: Global,
        w: &mut W,
        nid: Nid,
        position: usize,
    ) -> Result<Option<NodeBlock>, KeepStop> {
        self.keeper.data_block(alloc, w, nid, position)
    }
}

impl<W: Outside, K: Keeper<W>, P: Around> Keeper<W> for UnderPins<K, P> {
    type Ready = K::Ready;

    ghost fits = { λ k v ready last cs. K.fits k.keeper v ready last cs };

    ghost stands = { λ found c N last. K.stands found c N last };

    ghost rests = { λ c. K.rests c };

    ghost applied = { λ pins cs bytes c d. K.applied pins cs bytes c d };

    ghost measures = { λ c room. K.measures c room };

    ghost cost = { λ ready. K.cost ready };

    ghost held_stands = { λ k w N is. K.held_stands k.keeper w N is.held };

    ghost held_measures = { λ k w N is. K.held_measures k.keeper w N is.held };

    ghost stands_on = { λ found c d same N last is. K.stands_on found c d same N last is };

    ghost rests_on = { λ c d same is. K.rests_on c d same is };

    fn counts(&self) -> Counts {
        self.keeper.counts()
    }

    fn prepare(
        &mut self,
        alloc: Global,
        w: &mut W,
        changes: Changes,
    ) -> Result<K::Ready, PrepareStop> {
        self.keeper.prepare(alloc, w, changes)
    }

    fn apply(&mut self, w: &mut W, ready: K::Ready) -> Result<(), Failed> {
        self.keeper.apply(w, ready)
    }
}

impl<W: Outside, K: Saver<W>, P: Around> Saver<W> for UnderPins<K, P> {
    ghost saved = { λ bytes c d. K.saved bytes c d };

    ghost save_cost = { λ k. K.save_cost k.keeper };

    fn save(&mut self, w: &mut W) -> Result<(), Failed> {
        self.keeper.save(w)
    }
}
