//! What one pin of a keeper tells.
use crate::around::Around;
use node_port::{Counts, KeepStop, NodeReader, NodeRec, Pinner};
use pst_base::Nid;
use pst_outside::Outside;
use std::alloc::Global;
use std::marker::PhantomData;

/// One pin of a keeper, read as what tells nodes, with the counters of the moment when it was made.
#[derive(Drop)]
pub struct PinReader<K, P: Around> {
    pub keeper: K,
    pub pin: u32,
    pub counts: Counts,
    pub around: PhantomData<P>,
}

impl<W: Outside, K: Pinner<W>, P: Around> NodeReader<W> for PinReader<K, P> {
    ghost use Rattle.pinned_views.specs.Telling.{TellsPin};

    ghost holds = { λ r v N. TellsPin P.held P.told P.last (K.holds r.keeper v) (K.pinned r.keeper v) (K.last r.keeper) r.pin N };

    ghost last = { λ r. r.counts.last };

    ghost room = { λ r. K.room r.keeper };

    ghost pinned = { λ r v p N. K.pinned r.keeper v p N };

    ghost has_disk = { K.has_disk };

    ghost holds_on = { λ r v w same N is. record {
      tells = K.pinned_on r.keeper v w same r.pin N is.tells;
      some = is.some;
      has = K.holds_on r.keeper v w same is.some is.has;
      stays = λ M held. K.holds_on r.keeper v w same M (is.stays M held);
      keeps = λ p M told. K.pinned_on r.keeper v w same p M (is.keeps p M told);
      counted = is.counted;
    } };

    ghost pinned_on = { λ r v w same p N is. K.pinned_on r.keeper v w same p N is };

    fn get(&mut self, alloc: Global, w: &mut W, nid: Nid) -> Result<Option<NodeRec>, KeepStop> {
        // (a reader is made of an open pin alone, which its type doesn't say)
        if !self.keeper.has_pin(self.pin) {
            return Err(KeepStop::Memory);
        }
        self.keeper.get_at(alloc, w, self.pin, nid)
    }

    fn next_after(&mut self, w: &mut W, nid: Option<Nid>) -> Result<Option<Nid>, KeepStop> {
        if !self.keeper.has_pin(self.pin) {
            return Err(KeepStop::Memory);
        }
        self.keeper.next_at(w, self.pin, nid)
    }
}
