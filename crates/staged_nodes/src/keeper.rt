//! The nodes of a keeper as a transaction makes them.
ghost use Rattle.std.specs.Prelude.{Option, IfErr, IfOk, IsTrue};
ghost use Rattle.pst_base.specs.declared.ids.Nid.{Nid as Id};
ghost use Rattle.node_port.specs.Nodes.{IsNext, Nodes};
ghost use Rattle.node_port.specs.Stops.{KeepStops, Tells};
ghost use Rattle.staged_nodes.specs.Looking.{Looks};
ghost use Rattle.staged_nodes.specs.Staging.{IsNextBelow, IsNextPut, LiesOver, Rises, Slots as Kept};

use crate::around::AroundStaged;
use crate::slots::{Slots, copied, copied_block, copied_content, is_gone};
use crate::staging::{StagedReady, Staging};
use node_port::{Changes, Counts, KeepStop, Keeper, NodeBlock, NodeReader, NodeRec, PrepareStop};
use pst_base::Nid;
use pst_outside::{Failed, Outside};
use std::alloc::Global;
use std::marker::PhantomData;

/// A keeper, which stays as it is, with the changes of a transaction over it. Further changes can be planned; where they are made too, its nodes are told no more.
#[derive(Drop)]
pub struct StagedKeeper<'a, K, P: AroundStaged> {
    pub keeper: K,
    pub staging: &'a Staging,
    pub done: Option<StagedReady>,
    pub around: PhantomData<P>,
}

/// Whether an id that came is above the one before.
fn rises(after: Option<Nid>, next: Option<Nid>) -> bool
    ensures { IsTrue result → Rises after next }
{
    match (after, next) {
        (Some(after), Some(next)) => after.bits < next.bits,
        _ => true,
    }
}

/// The lesser of two ids, where there are any: the next of a keeper that isn't gone, and the next that is put.
fn lesser(below: Option<Nid>, put: Option<Nid>) -> Option<Nid>
    ensures { (N M : Nodes) (m : Kept) (after : Option Id) → LiesOver N m M → IsNextBelow N m after below → IsNextPut m after put → IsNext M after result }
{
    match (below, put) {
        (Some(below), Some(put)) => Some(if below.bits < put.bits { below } else { put }),
        (Some(below), None) => Some(below),
        (None, put) => put,
    }
}

/// The least id of a node of a keeper above one, which is above it whatever the keeper tells.
fn next_rising<W: Outside, K: NodeReader<W>>(
    keeper: &mut K,
    w: &mut W,
    after: Option<Nid>,
) -> Result<Option<Nid>, KeepStop>
    ensures next { IfOk result (λ next. Tells (K.holds keeper.old (W.view w.old)) (λ N. IsNext N after next)) }
    ensures rises { IfOk result (Rises after) }
    ensures stops { IfErr result (KeepStops K.has_disk (W.view w.old).disk_faults (W.view w.new).disk_faults (K.holds keeper.old (W.view w.old))) }
    ensures looks { Looks (K.holds keeper.old (W.view w.old)) (K.holds keeper.new (W.view w.new)) (K.pinned keeper.old (W.view w.old)) (K.pinned keeper.new (W.view w.new)) (K.last keeper.old) (K.last keeper.new) (K.room keeper.old) (K.room keeper.new) (W.view w.old) (W.view w.new) }
{
    let next = keeper.next_after(w, after)?;
    // (of a keeper that tells nodes it is above)
    if !rises(after, next) {
        return Err(KeepStop::Memory);
    }
    Ok(next)
}

/// The least id above one of a node of a keeper that isn't gone by the slots.
fn next_below<W: Outside, K: NodeReader<W>>(
    keeper: &mut K,
    slots: &Slots,
    w: &mut W,
    after: Option<Nid>,
) -> Result<Option<Nid>, KeepStop>
    ensures next { IfOk result (λ next. Tells (K.holds keeper.old (W.view w.old)) (λ N. IsNextBelow N slots.now after next)) }
    ensures stops { IfErr result (KeepStops K.has_disk (W.view w.old).disk_faults (W.view w.new).disk_faults (K.holds keeper.old (W.view w.old))) }
    ensures looks { Looks (K.holds keeper.old (W.view w.old)) (K.holds keeper.new (W.view w.new)) (K.pinned keeper.old (W.view w.old)) (K.pinned keeper.new (W.view w.new)) (K.last keeper.old) (K.last keeper.new) (K.room keeper.old) (K.room keeper.new) (W.view w.old) (W.view w.new) }
{
    let mut passed = after;
    while let Some(next) = next_rising(keeper, w, passed)? {
        if !is_gone(slots, next.bits) {
            return Ok(Some(next));
        }
        passed = Some(next);
    }
    Ok(None)
}

impl<'a, W: Outside, K: NodeReader<W>, P: AroundStaged> NodeReader<W> for StagedKeeper<'a, K, P> {
    ghost use Rattle.node_port.specs.Nodes.{Nodes};
    ghost use Rattle.staged_nodes.specs.Room.{room_beside};
    ghost use Rattle.staged_nodes.specs.Telling.{ShowsDone, ShowsOver, done_alike, last_with};

    ghost holds = { λ k v M. ShowsDone k.done (ShowsOver P.held P.told P.last P.staged (K.holds k.keeper v) (K.pinned k.keeper v) (K.last k.keeper) (K.room k.keeper) k.staging.now) M };

    ghost last = { λ k. last_with k.done k.staging.now };

    ghost room = { λ k. room_beside k.staging.now.size (K.room k.keeper) };

    ghost pinned = { λ k v p N. K.pinned k.keeper v p N };

    ghost has_disk = { K.has_disk };

    ghost holds_on = { λ k v w same M is. done_alike k.done
        (ShowsOver P.held P.told P.last P.staged (K.holds k.keeper (W.view v)) (K.pinned k.keeper (W.view v)) (K.last k.keeper) (K.room k.keeper) k.staging.now)
        (ShowsOver P.held P.told P.last P.staged (K.holds k.keeper (W.view w)) (K.pinned k.keeper (W.view w)) (K.last k.keeper) (K.room k.keeper) k.staging.now)
        (λ N shows. record {
          some = shows.some;
          was = shows.was;
          over = shows.over;
          stays = λ L held. K.holds_on k.keeper v w same L (shows.stays L held);
          keeps = λ p L told. K.pinned_on k.keeper v w same p L (shows.keeps p L told);
          counted = shows.counted;
          left = shows.left;
          are = shows.are;
        }) M is };

    ghost pinned_on = { λ k v w same p N is. K.pinned_on k.keeper v w same p N is };

    fn get(&mut self, alloc: Global, w: &mut W, nid: Nid) -> Result<Option<NodeRec>, KeepStop> {
        if self.done.is_some() {
            return Err(KeepStop::Memory);
        }
        match self.staging.find(nid) {
            Some(node) => Ok(copied(alloc, node)?),
            None => self.keeper.get(alloc, w, nid),
        }
    }

    fn next_after(&mut self, w: &mut W, nid: Option<Nid>) -> Result<Option<Nid>, KeepStop> {
        if self.done.is_some() {
            return Err(KeepStop::Memory);
        }
        let below = next_below(&mut self.keeper, &self.staging.slots, w, nid)?;
        Ok(lesser(below, self.staging.next_put(nid)))
    }

    fn get_content(
        &mut self,
        alloc: Global,
        w: &mut W,
        nid: Nid,
    ) -> Result<Option<NodeRec>, KeepStop> {
        if self.done.is_some() {
            return Err(KeepStop::Memory);
        }
        match self.staging.find(nid) {
            Some(node) => Ok(copied_content(alloc, node)?),
            None => self.keeper.get_content(alloc, w, nid),
        }
    }

    fn data_block(
        &mut self,
        alloc: Global,
        w: &mut W,
        nid: Nid,
        position: usize,
    ) -> Result<Option<NodeBlock>, KeepStop> {
        if self.done.is_some() {
            return Err(KeepStop::Memory);
        }
        match self.staging.find(nid) {
            Some(node) => Ok(copied_block(alloc, node, position)?),
            None => self.keeper.data_block(alloc, w, nid, position),
        }
    }
}

impl<'a, W: Outside, K: NodeReader<W>, P: AroundStaged> Keeper<W> for StagedKeeper<'a, K, P> {
    type Ready = StagedReady;

    ghost use Rattle.std.specs.Prelude.{◌≡◌, None};
    ghost use Rattle.staged_nodes.specs.Staging.{Fits};

    ghost fits = { λ k v ready last cs. (k.done ≡ None) × Fits k.staging.now ready last cs };

    ghost stands = { λ found c N last. Unit {0} };

    ghost rests = { λ c. Unit {0} };

    ghost applied = { λ pins cs bytes old new. (new ≡ old) × (bytes ≡ 0) };

    ghost measures = { λ c room. Unit {0} };

    ghost cost = { λ ready. 0 };

    ghost held_stands = { λ k w N held. tt };

    ghost held_measures = { λ k w N held. tt };

    ghost stands_on = { λ found c d same N last is. is };

    ghost rests_on = { λ c d same is. is };

    fn counts(&self) -> Counts {
        match &self.done {
            Some(ready) => ready.counts,
            None => self.staging.counts,
        }
    }

    fn prepare(
        &mut self,
        _alloc: Global,
        _w: &mut W,
        changes: Changes,
    ) -> Result<StagedReady, PrepareStop> {
        if self.done.is_some() {
            return Err(PrepareStop::Memory);
        }
        self.staging.plan(changes)
    }

    fn apply(&mut self, _w: &mut W, ready: StagedReady) -> Result<(), Failed> {
        self.done = Some(ready);
        Ok(())
    }
}
