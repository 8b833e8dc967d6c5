//! All searches of a store, mended one after another.
ghost use Rattle.std.specs.Prelude.{◌≡◌, ◌<◌, ◌≤◌, ◌+◌, ◌^◌, Bool, true, cond, filter, map, IfErr, IfOk};
ghost use Rattle.pst_outside.specs.Calls.{NeverFall};
ghost use Rattle.mail_tree.specs.Places.{place_id};
ghost use Rattle.mail_searches.specs.Searching.{Searching, is_own};
ghost use Rattle.store_session.specs.Disks.{medium};
ghost use Rattle.search_mends.specs.Mends.{HasMendable, LeavesMended, MendRun, MendsSearches};
ghost use Rattle.search_mends.specs.Stops.{IsCaused};

use crate::one::{WasMended, mend_one};
use crate::stop::MendStop;
use mail_searches::OwnFolders;
use mail_tree::Places;
use node_port::Keeper;
use pst_base::{Ledger, Nid, Steps};
use pst_outside::Outside;
use std::alloc::{AllocError, Global};
use store_session::search_store::SearchStore;

/// How many searches were mended: of `stale` the list was made anew, and of `migrated` the criteria object was turned into one of the second version.
#[derive(Clone, Copy, Debug, PartialEq, Eq, Drop)]
pub struct Mended {
    pub stale: u64,
    pub migrated: u64,
}

/// A count, with one more where this holds.
fn counted(count: u64, holds: bool) -> u64
    requires { count + 1 < 2 ^ 64 }
    ensures { result ≡ count + cond holds 1 0 }
{
    if holds { count + 1 } else { count }
}

impl Mended {
    /// These and one more.
    fn with(self, one: WasMended) -> Mended
        requires stale { self.stale + 1 < 2 ^ 64 }
        requires migrated { self.migrated + 1 < 2 ^ 64 }
        ensures stale { result.stale ≡ self.stale + cond one.stale 1 0 }
        ensures migrated { result.migrated ≡ self.migrated + cond one.first 1 0 }
    {
        Mended {
            stale: counted(self.stale, one.stale),
            migrated: counted(self.migrated, one.first),
        }
    }
}

/// The ids of the own search folders among these places, ascending.
fn own_ids(alloc: Global, places: &Places, own: &OwnFolders) -> Result<Vec<Nid>, AllocError>
    ensures { IfOk result (λ ids. map (λ n. n.bits) ids.items ≡ filter (is_own own.now) (map place_id places.now)) }
{
    let mut ids = Vec::new(alloc);
    for place in places.as_slice() {
        if own.contains(place.nid) {
            ids.push(place.nid)?;
        }
    }
    Ok(ids)
}

/// Mends the search of each own search folder that is stale or whose criteria object is of the first version, ascending by id, each by one commit. A search that is neither takes none.
///
/// Where it stops, the searches before stay mended: `Rows` where what would be written for a search passes a limit, `Full` and `Ids` where the file has no room or no number left for it, `Fault` where the disk failed, after which nothing more is known of the store, and `Memory` where there was no memory. `Changed` never comes of a store that has a tree. A stop at any moment leaves a disk that stands for the tree with some of the first searches mended.
pub fn mend_searches<W: Outside, K: Keeper<W>, L: Ledger>(
    alloc: Global,
    store: &mut SearchStore<K>,
    w: &mut W,
    steps: &mut Steps<L>,
) -> Result<Mended, MendStop>
    ensures mends { (tidy : Bool) (X : Searching) → HasMendable K.holds K.last K.rests store.old (W.view w.old) tidy X
        → (K.has_disk ≡ true → (W.view w.new).tells)
        → MendsSearches (λ Y. HasMendable K.holds K.last K.rests store.new (W.view w.new) tidy Y × MendRun (K.applied (K.room store.old.store.keeper).pins) (W.view w.new).tells X (medium (W.view w.old)) Y (medium (W.view w.new))) (K.room store.new.store.keeper) X result }
    ensures images { (tidy : Bool) (X : Searching) → HasMendable K.holds K.last K.rests store.old (W.view w.old) tidy X
        → (K.has_disk ≡ true → (W.view w.new).tells) → LeavesMended (K.stands (K.room store.old.store.keeper).found) (W.view w.old) (W.view w.new) X }
    ensures found { (K.room store.new.store.keeper).found ≡ (K.room store.old.store.keeper).found }
    ensures pins { (K.room store.new.store.keeper).pins ≡ (K.room store.old.store.keeper).pins }
    ensures told { (W.view w.new).tells → (W.view w.old).tells }
    ensures input { (W.view w.new).tells → (W.view w.new).input ≡ (W.view w.old).input }
    ensures cause { IfErr result (IsCaused K.has_disk (W.view w.old).disk_faults (W.view w.new).disk_faults) }
    ensures counts { NeverFall (W.view w.old) (W.view w.new) }
{
    let own = own_ids(alloc, &store.store.known.places, &store.searches.own)?;
    let mut mended = Mended {
        stale: 0,
        migrated: 0,
    };
    for search in &own {
        let one = mend_one(alloc, store, w, *search, steps)?;
        mended = mended.with(one);
    }
    Ok(mended)
}
