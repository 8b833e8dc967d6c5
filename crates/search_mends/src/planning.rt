//! Mending a search, planned.
ghost use Rattle.std.specs.Prelude.{◌≡◌, ℕ, Bool, List, Option, true, IfErr, IfOk};
ghost use Rattle.std.specs.Option.{ForSome};
ghost use Rattle.pst_base.specs.declared.ids.Nid.{Nid as Id};
ghost use Rattle.node_port.specs.declared.node.NodeRec.{NodeRec as Rec};
ghost use Rattle.store_session.specs.mail_draft.Answers.{Looks};
ghost use Rattle.store_session.specs.mail_store.Planning.{PlansTo, SameKnown};
ghost use Rattle.mail_searches.specs.Searching.{Searching, is_own};
ghost use Rattle.search_mending.specs.Laws.{IsMendable};
ghost use Rattle.search_mends.specs.Mendings.{PlansMending};
ghost use Rattle.search_mends.specs.Stops.{IsCaused};
ghost use Rattle.store_session.specs.search_store.Planning.{StoresSearches};

use crate::coming::{SearchMending, mending};
use crate::stop::{MendStop, of_hindrance, of_refusal};
use node_port::Keeper;
use pst_base::{Ledger, Nid, Steps};
use pst_outside::Outside;
use std::alloc::Global;
use store_session::mail_store::{Planned, plan_outcome};
use store_session::search_store::SearchStore;

/// Mending a search that is planned: whether its list was stale, whether its criteria object was of the first version, and what is planned in the tree. It may be given up: then nothing has changed.
#[derive(Drop)]
pub(crate) struct PlannedMending<R> {
    pub(crate) stale: bool,
    pub(crate) first: bool,
    pub(crate) tree: Planned<R>,
}

/// Plans to mend the search of an own search folder. Nothing changes but the count of steps.
pub(crate) fn plan_mending<W: Outside, K: Keeper<W>, L: Ledger>(
    alloc: Global,
    store: &mut SearchStore<K>,
    w: &mut W,
    search: Nid,
    steps: &mut Steps<L>,
) -> Result<PlannedMending<K::Ready>, MendStop>
    ensures answer { (tidy : Bool) (X : Searching) → StoresSearches (K.holds store.old.store.keeper (W.view w.old)) (K.last store.old.store.keeper) store.old.store.known store.old.searches X → IsMendable tidy X → is_own X.own search.bits ≡ true
        → PlansMending (K.room store.old.store.keeper) X search.bits (λ m planned. (planned.stale ≡ m.stale) × (planned.first ≡ m.first)
        × PlansTo (K.fits store.new.store.keeper (W.view w.new)) X.tree m.coming.outcome planned.tree.change planned.tree.places planned.tree.flags.items planned.tree.reply) result }
    ensures fits { IfOk result (λ planned. ForSome planned.tree.change (λ ready. (after : List ℕ) × (cs : List (Id × Option Rec)) × K.fits store.new.store.keeper (W.view w.new) ready after cs)) }
    ensures known { SameKnown store.old.store.known store.new.store.known × (store.new.searches ≡ store.old.searches) }
    ensures looks { Looks (K.holds store.old.store.keeper (W.view w.old)) (K.holds store.new.store.keeper (W.view w.new)) (K.last store.old.store.keeper) (K.last store.new.store.keeper) (K.room store.old.store.keeper) (K.room store.new.store.keeper) (W.view w.old) (W.view w.new) }
    ensures cause { IfErr result (IsCaused K.has_disk (W.view w.old).disk_faults (W.view w.new).disk_faults) }
{
    let made = mending(
        alloc,
        &mut store.store.keeper,
        w,
        &store.store.known,
        &store.searches,
        search,
        steps,
    );
    let SearchMending {
        stale,
        first,
        outcome,
    } = match made {
        Ok(made) => made,
        Err(stop) => return Err(of_refusal(search, stop)),
    };
    match plan_outcome(alloc, &mut store.store, w, outcome) {
        Ok(tree) => Ok(PlannedMending { stale, first, tree }),
        Err(stop) => Err(of_hindrance(search, stop)),
    }
}
