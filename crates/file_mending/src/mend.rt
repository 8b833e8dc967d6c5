//! From the opening of a file to its last search.
ghost use Rattle.std.specs.Prelude.{◌≡◌, Bool, true, Result as Answers, IfErr};
ghost use Rattle.pst_outside.specs.Calls.{NeverFall, Untouched};
ghost use Rattle.mail_searches.specs.Searching.{Searching};
ghost use Rattle.search_mends.specs.store_session.Disks.{medium};
ghost use Rattle.search_mends.specs.Mends.{HasMendable, LeavesMended, MendRun, MendsSearches};
ghost use Rattle.search_mends.specs.Stops.{IsCaused};
ghost use Rattle.search_mends.specs.declared.all.Mended.{Mended as Count};
ghost use Rattle.search_mends.specs.declared.stop.MendStop.{MendStop as Stops};
ghost use Rattle.file_open.specs.Opening.{IsFileRefused, ReadsTree};
ghost use Rattle.file_open.specs.declared.stops.FileRefusal.{FileRefusal as Refusals};
ghost use Rattle.file_mending.specs.FileMends.{FileMendEnds, StandsMendable, unopened};

use file_open::file_laying::FoundStore;
use file_open::{FileRefusal, FileStop, open_mendable};
use node_port::Keeper;
use pst_base::{Ledger, Steps};
use pst_outside::Outside;
use search_mends::mail_store::Store;
use search_mends::search_store::SearchStore;
use search_mends::{MendStop, Mended, mend_searches};
use std::alloc::Global;
use std::marker::Brand;
use std::sync::ledger::Blank;

/// How the mending of a file went.
#[derive(Clone, Copy, Debug, PartialEq, Eq)]
pub enum FileMend {
    /// The file was refused, and nothing was written.
    Refused(FileRefusal),
    /// It ended so.
    Ended(Result<Mended, MendStop>),
}

/// The end of a mending whose opening gave nothing.
fn unopened(stop: FileStop) -> FileMend
    ensures { result ≡ unopened stop }
{
    match stop {
        FileStop::Refused(refusal) => FileMend::Refused(refusal),
        FileStop::Fault => FileMend::Ended(Err(MendStop::Fault)),
        FileStop::Changed {
            ib,
            stored,
            computed,
        } => FileMend::Ended(Err(MendStop::Changed {
            ib,
            stored,
            computed,
        })),
        FileStop::Memory => FileMend::Ended(Err(MendStop::Memory)),
    }
}

/// Mends the searches of a store, with a count of steps of its own.
fn mend_counted<W: Outside, K: Keeper<W>, L: Ledger>(
    alloc: Global,
    store: &mut SearchStore<K>,
    w: &mut W,
    blank: Blank,
) -> Result<Mended, MendStop>
    requires name { blank.name ≡ L.name }
    requires parts { blank.parts ≡ L.parts }
    requires some { blank.parts ≡ 1 }
    ensures mends { (tidy : Bool) (X : Searching) → HasMendable K.holds K.last K.rests store.old (W.view w.old) tidy X → (K.has_disk ≡ true → (W.view w.new).tells)
        → MendsSearches (λ Y. StandsMendable tidy (K.stands (K.room store.old.store.keeper).found) K.measures (K.room store.new.store.keeper) (W.view w.new) Y
        × MendRun (K.applied (K.room store.old.store.keeper).pins) (W.view w.new).tells X (medium (W.view w.old)) Y (medium (W.view w.new))) (K.room store.new.store.keeper) X result }
    ensures images { (tidy : Bool) (X : Searching) → HasMendable K.holds K.last K.rests store.old (W.view w.old) tidy X → (K.has_disk ≡ true → (W.view w.new).tells)
        → LeavesMended (K.stands (K.room store.old.store.keeper).found) (W.view w.old) (W.view w.new) X }
    ensures told { (W.view w.new).tells → (W.view w.old).tells }
    ensures input { (W.view w.new).tells → (W.view w.new).input ≡ (W.view w.old).input }
    ensures cause { IfErr result (IsCaused K.has_disk (W.view w.old).disk_faults (W.view w.new).disk_faults) }
    ensures counts { NeverFall (W.view w.old) (W.view w.new) }
{
    let (book, share) = blank.open::<L>();
    let mut steps = Steps::new(book, share);
    mend_searches(alloc, store, w, &mut steps)
}

/// Opens the two files, whatever their running searches list and whether numbers are left, and mends each own search folder that is stale or whose criteria object is of the first version, ascending by id, each by one commit.
///
/// A refusal is that of the opening. Where mending stops, the searches before stay mended: `Rows` where what would be written for a search passes a limit, `Ids` and `Full` where no number or too little room is left for it, `Fault` where the disk failed, and `Memory` where there was no memory. `Changed` comes only where something isn't as it was found before, never over a world that tells.
pub fn mend_file<W: Outside, S: FoundStore<W> + Drop>(alloc: Global, world: &mut W) -> FileMend
    ensures refused { (refusal : Refusals) → result ≡ FileMend.Refused refusal → Untouched (W.view world.old) (W.view world.new)
        × ((W.view world.new).tells → IsFileRefused (W.view world.old).here refusal × ((X : Searching) → ReadsTree (W.view world.old).here X → ⊥)) }
    ensures ends { (end : Answers Count Stops) → result ≡ FileMend.Ended end → (W.view world.new).tells → FileMendEnds S.becomes S.costs (W.view world.old) (W.view world.new) end }
    ensures cause { (end : Answers Count Stops) → result ≡ FileMend.Ended end → IfErr end (IsCaused true (W.view world.old).disk_faults (W.view world.new).disk_faults) }
    ensures told { (W.view world.new).tells → (W.view world.old).tells }
    ensures input { (W.view world.new).tells → (W.view world.new).input ≡ (W.view world.old).input }
    ensures counts { NeverFall (W.view world.old) (W.view world.new) }
{
    match open_mendable::<W, S>(alloc, world) {
        Ok(opened) => {
            let mut store = SearchStore {
                store: Store {
                    keeper: opened.keeper,
                    known: opened.tree.known,
                },
                searches: opened.tree.searches,
            };
            let blank = Blank::new(1);
            FileMend::Ended(mend_counted::<W, _, Brand>(alloc, &mut store, world, blank))
        }
        Err(stop) => unopened(stop),
    }
}
