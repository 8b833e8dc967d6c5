//! The check of the lists of running searches.
ghost use Rattle.std.specs.Prelude.{◌≡◌, IfErr};
ghost use Rattle.mail_tree.specs.Knowing.{Knows};
ghost use Rattle.mail_tree.specs.Tree.{Shown};
ghost use Rattle.mail_tree.specs.Whole.{IsWhole};
ghost use Rattle.mail_draft.specs.Answers.{IsCaused, Looks};
ghost use Rattle.mail_searches.specs.Searches.{KnowsMessages};
ghost use Rattle.mail_searches.specs.Searching.{AreSearches, Searching};
ghost use Rattle.list_check.specs.Checking.{Checks};

use crate::passing::stale_below;
use crate::reading::watched;
use crate::watching::stray_of;
use mail_draft::Stop;
use mail_searches::Searches;
use mail_tree::Known;
use node_port::NodeReader;
use pst_base::{Ledger, Nid, Steps};
use pst_outside::Outside;
use std::alloc::Global;

/// A running search whose list isn't what it is to be, if there is one: the first with a row that names no message, or else the first that differs on a message, in the order of folders and messages. Where no search runs nothing is read. Else each list is read once, and then each message once, up to the first that tells. Something is to be known of each message.
pub fn find_stale<W: Outside, K: NodeReader<W>, L: Ledger>(
    alloc: Global,
    keeper: &mut K,
    w: &mut W,
    known: &Known,
    searches: &Searches,
    steps: &mut Steps<L>,
) -> Result<Option<Nid>, Stop>
    ensures answer { (X : Searching) → Shown (K.holds keeper.old (W.view w.old)) (K.last keeper.old) X.tree → Knows X.tree known.now → KnowsMessages X.tree known.now.flags → X.searches ≡ searches.now → IsWhole X.tree → AreSearches X → Checks X result }
    ensures looks { Looks (K.holds keeper.old (W.view w.old)) (K.holds keeper.new (W.view w.new)) (K.last keeper.old) (K.last keeper.new) (K.room keeper.old) (K.room keeper.new) (W.view w.old) (W.view w.new) }
    ensures cause { IfErr result (IsCaused K.has_disk (W.view w.old).disk_faults (W.view w.new).disk_faults) }
{
    let watched = watched(alloc, keeper, w, searches.as_slice())?;
    let running = watched.as_slice();
    if running.is_empty() {
        return Ok(None);
    }
    let stray = stray_of(&known.flags, running);
    if stray.is_some() {
        return Ok(stray);
    }
    stale_below(alloc, keeper, w, &known.places, running, steps)
}
