//! A session over a file.
ghost use Rattle.std.specs.Prelude.{◌≡◌, true};
ghost use Rattle.pst_outside.specs.Calls.{NeverFall, Untouched};
ghost use Rattle.mail_searches.specs.Searching.{Searching};
ghost use Rattle.file_open.specs.Opening.{IsFileRefused, ReadsFresh};
ghost use Rattle.file_open.specs.declared.stops.FileRefusal.{FileRefusal as Refusals};
ghost use Rattle.mail_transactions.specs.pinned_session.store_session.Session.{HasCause};
ghost use Rattle.mail_transactions.specs.pinned_session.store_session.declared.session.SessionEnd.{SessionEnd as End};
ghost use Rattle.file_session.specs.Stops.{unopened};
ghost use Rattle.file_session.specs.FileRun.{FileRunEnds};

use file_laying::FoundStore;
use file_open::{FileRefusal, FileStop, open_file};
use mail_transactions::pinned_session::store_session::{SearchStore, SessionEnd, Store};
use mail_transactions::run_session;
use pst_outside::Outside;
use std::alloc::Global;

/// How a session over a file went.
#[derive(Clone, Copy, Debug, PartialEq, Eq)]
pub enum FileRun {
    /// The file was refused, and nothing was said.
    Refused(FileRefusal),
    /// It ended so.
    Ended(SessionEnd),
}

/// The end of a session whose opening gave nothing.
pub fn unopened(stop: FileStop) -> FileRun
    ensures { result ≡ unopened stop }
{
    match stop {
        FileStop::Refused(refusal) => FileRun::Refused(refusal),
        FileStop::Fault => FileRun::Ended(SessionEnd::Disk),
        FileStop::Changed {
            ib,
            stored,
            computed,
        } => FileRun::Ended(SessionEnd::Changed {
            ib,
            stored,
            computed,
        }),
        FileStop::Memory => FileRun::Ended(SessionEnd::Memory),
    }
}

/// Opens the two files, and answers the lines of the input over the tree that they are read as: takes lines until the input ends, a line is `quit`, a device fails, something changed, or 2^32 lines were taken. Each reply is made before its command is committed, and said after it.
pub fn run_file<W: Outside, S: FoundStore<W> + Drop>(alloc: Global, world: &mut W) -> FileRun
    ensures refused { (refusal : Refusals) → result ≡ FileRun.Refused refusal → Untouched (W.view world.old) (W.view world.new)
        × ((W.view world.new).tells → IsFileRefused (W.view world.old).here refusal × ((X : Searching) → ReadsFresh (W.view world.old).here X → ⊥)) }
    // The replies are those of a run from the file as it was, and a stop at any moment leaves the tree after some of its turns.
    ensures ends { (end : End) → result ≡ FileRun.Ended end → (W.view world.new).tells → FileRunEnds S.becomes S.costs (W.view world.old) (W.view world.new) end }
    ensures cause { (end : End) → result ≡ FileRun.Ended end → HasCause true (W.view world.old) (W.view world.new) end }
    ensures told { (W.view world.new).tells → (W.view world.old).tells }
    ensures counts { NeverFall (W.view world.old) (W.view world.new) }
{
    match open_file::<W, S>(alloc, world) {
        Ok(opened) => {
            let store = SearchStore {
                store: Store {
                    keeper: opened.keeper,
                    known: opened.tree.known,
                },
                searches: opened.tree.searches,
            };
            FileRun::Ended(run_session(alloc, store, world))
        }
        Err(stop) => unopened(stop),
    }
}
