//! One search, mended.
ghost use Rattle.std.specs.Prelude.{◌≡◌, Bool, true, IfErr};
ghost use Rattle.pst_outside.specs.Calls.{NeverFall};
ghost use Rattle.mail_searches.specs.Searching.{Searching, is_own};
ghost use Rattle.search_mends.specs.Mends.{CommitsOne, HasMendable, LeavesOne, MendsOne};
ghost use Rattle.search_mends.specs.Stops.{IsCaused};

use crate::planning::{PlannedMending, plan_mending};
use crate::stop::MendStop;
use node_port::Keeper;
use pst_base::{Ledger, Nid, Steps};
use pst_outside::Outside;
use std::alloc::Global;
use store_session::search_store::{PlannedSearch, SearchStore, commit};

/// A search that was mended: whether its list was stale, and whether its criteria object was of the first version.
#[derive(Clone, Copy, Debug, Drop)]
pub(crate) struct WasMended {
    pub(crate) stale: bool,
    pub(crate) first: bool,
}

/// Mends the search of an own search folder, by one commit if there is something to change.
pub(crate) fn mend_one<W: Outside, K: Keeper<W>, L: Ledger>(
    alloc: Global,
    store: &mut SearchStore<K>,
    w: &mut W,
    search: Nid,
    steps: &mut Steps<L>,
) -> Result<WasMended, MendStop>
    ensures mends { (tidy : Bool) (X : Searching) → HasMendable K.holds K.last K.rests store.old (W.view w.old) tidy X
        → is_own X.own search.bits ≡ true → (K.has_disk ≡ true → (W.view w.new).tells)
        → MendsOne (HasMendable K.holds K.last K.rests store.new (W.view w.new) tidy) (K.room store.new.store.keeper) X search.bits result }
    ensures images { (tidy : Bool) (X : Searching) → HasMendable K.holds K.last K.rests store.old (W.view w.old) tidy X
        → is_own X.own search.bits ≡ true → LeavesOne (K.stands (K.room store.old.store.keeper).found) (W.view w.old) (W.view w.new) X search.bits }
    ensures disk { (tidy : Bool) (X : Searching) → HasMendable K.holds K.last K.rests store.old (W.view w.old) tidy X
        → is_own X.own search.bits ≡ true → CommitsOne (K.applied (K.room store.old.store.keeper).pins) (W.view w.old) (W.view w.new) X search.bits result }
    ensures found { (K.room store.new.store.keeper).found ≡ (K.room store.old.store.keeper).found }
    ensures pins { (K.room store.new.store.keeper).pins ≡ (K.room store.old.store.keeper).pins }
    ensures told { (W.view w.new).tells → (W.view w.old).tells }
    ensures input { (W.view w.new).tells → (W.view w.new).input ≡ (W.view w.old).input }
    ensures cause { IfErr result (IsCaused K.has_disk (W.view w.old).disk_faults (W.view w.new).disk_faults) }
    ensures counts { NeverFall (W.view w.old) (W.view w.new) }
{
    let PlannedMending { stale, first, tree } = plan_mending(alloc, store, w, search, steps)?;
    let planned = PlannedSearch {
        tree,
        own: None,
        searches: None,
    };
    let _reply = commit(store, w, planned)?;
    Ok(WasMended { stale, first })
}
