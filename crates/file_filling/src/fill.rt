//! From the opening of a file to the counts.
ghost use Rattle.std.specs.Prelude.{◌≡◌, true, Result as Answers, IfErr};
ghost use Rattle.pst_outside.specs.Calls.{NeverFall, Untouched};
ghost use Rattle.store_filling.specs.mail_draft.Answers.{IsCaused};
ghost use Rattle.store_filling.specs.mail_draft.declared.stop.Stop.{Stop as Stops};
ghost use Rattle.mail_searches.specs.Searching.{Searching};
ghost use Rattle.file_session.specs.file_open.Opening.{IsFileRefused, ReadsFresh};
ghost use Rattle.file_session.specs.file_open.declared.stops.FileRefusal.{FileRefusal as Refusals};
ghost use Rattle.store_filling.specs.store_session.Session.{HasCause};
ghost use Rattle.store_filling.specs.store_session.declared.session.SessionEnd.{SessionEnd as End};
ghost use Rattle.store_filling.specs.declared.counting.FillCounts.{FillCounts as Counts};
ghost use Rattle.file_session.specs.FileRun.{EndsUnopened};
ghost use Rattle.file_filling.specs.FileFills.{FillOpened};

use file_session::file_laying::FoundStore;
use file_session::file_open::open_file;
use file_session::{FileRun, unopened};
use pst_outside::Outside;
use std::alloc::Global;
use store_filling::mail_store::Store;
use store_filling::search_store::SearchStore;
use store_filling::{FillCounts, Stop, fill_store};

/// How making a large input in a file went.
#[derive(Clone, Copy, Debug, PartialEq, Eq)]
pub enum FileFill {
    /// The opening gave nothing: so a session over the file would have ended.
    Unopened(FileRun),
    /// It ended so.
    Ended(Result<FillCounts, Stop>),
}

/// Opens the two files as a session does, and makes a large input in their store: the folder `Fill SEED`, the search `Find SEED` over it, and `count` messages.
///
/// A refusal is that of the opening. Where making it stops, what was made before stays: `Refused` where a command is refused or the file has no room or no number left for it, `Fault` where the disk failed, and `Memory` where there was no memory. `Changed` comes only where something isn't as it was found before, never over a world that tells.
pub fn fill_file<W: Outside, S: FoundStore<W> + Drop>(
    alloc: Global,
    world: &mut W,
    seed: u32,
    count: u16,
) -> FileFill
    ensures refused { (refusal : Refusals) → result ≡ FileFill.Unopened (FileRun.Refused refusal) → Untouched (W.view world.old) (W.view world.new)
        × ((W.view world.new).tells → IsFileRefused (W.view world.old).here refusal × ((X : Searching) → ReadsFresh (W.view world.old).here X → ⊥)) }
    ensures unopened { (end : End) → result ≡ FileFill.Unopened (FileRun.Ended end) → (W.view world.new).tells → EndsUnopened (W.view world.old) (W.view world.new) end }
    ensures unopened_cause { (end : End) → result ≡ FileFill.Unopened (FileRun.Ended end) → HasCause true (W.view world.old) (W.view world.new) end }
    ensures ends { (end : Answers Counts Stops) → result ≡ FileFill.Ended end → (W.view world.new).tells → FillOpened S.becomes S.costs (W.view world.old) (W.view world.new) seed count end }
    ensures cause { (end : Answers Counts Stops) → result ≡ FileFill.Ended end → IfErr end (IsCaused true (W.view world.old).disk_faults (W.view world.new).disk_faults) }
    ensures told { (W.view world.new).tells → (W.view world.old).tells }
    ensures input { (W.view world.new).tells → (W.view world.new).input ≡ (W.view world.old).input }
    ensures counts { NeverFall (W.view world.old) (W.view world.new) }
{
    match open_file::<W, S>(alloc, world) {
        Ok(opened) => {
            let mut store = SearchStore {
                store: Store {
                    keeper: opened.keeper,
                    known: opened.tree.known,
                },
                searches: opened.tree.searches,
            };
            FileFill::Ended(fill_store(alloc, &mut store, world, seed, count))
        }
        Err(stop) => FileFill::Unopened(unopened(stop)),
    }
}
