//! The opening of nodes as a store.
ghost use Rattle.std.specs.Prelude.{◌≡◌, IfErr, IfOk};
ghost use Rattle.node_port.specs.Nodes.{Nodes};
ghost use Rattle.mail_tree.specs.Knowing.{Knows};
ghost use Rattle.mail_tree.specs.Tree.{Shown};
ghost use Rattle.mail_tree.specs.Whole.{IsWhole};
ghost use Rattle.tree_look.specs.mail_draft.Answers.{IsCaused as IsCausedThere, Looks as LooksThere};
ghost use Rattle.mail_searches.specs.Searches.{KnowsMessages};
ghost use Rattle.mail_searches.specs.Searching.{AreSearches, Searching};
ghost use Rattle.list_check.specs.Checking.{Checks};
ghost use Rattle.tree_look.specs.Walk.{Looks};
ghost use Rattle.store_open.specs.Opening.{KnowsTree, LooksTree, StopsLook, StopsTree};
ghost use Rattle.store_open.specs.Stops.{IsCaused};

use crate::stops::{TreeRefusal, TreeStop};
use list_check::find_stale;
use mail_searches::{KnownSearches, Searches};
use mail_tree::Known;
use node_port::NodeReader;
use pst_base::{Ledger, Nid, Steps};
use pst_outside::Outside;
use search_look::{SearchRefusal, look_searches};
use std::alloc::Global;
use std::marker::Brand;
use std::sync::ledger::Blank;
use tree_look::look_folders;
use tree_look::mail_draft::Stop;

/// What is known of a store's tree, and of its searches.
#[derive(Debug, Drop)]
pub struct OpenedTree {
    pub known: Known,
    pub searches: KnownSearches,
}

/// A running search whose list isn't what it is to be, if there is one, with a count of steps of its own.
fn find_stale_counted<W: Outside, K: NodeReader<W>, L: Ledger>(
    alloc: Global,
    keeper: &mut K,
    w: &mut W,
    known: &Known,
    searches: &Searches,
    blank: Blank,
) -> Result<Option<Nid>, Stop>
    requires name { blank.name ≡ L.name }
    requires parts { blank.parts ≡ L.parts }
    requires some { blank.parts ≡ 1 }
    ensures answer { (X : Searching) → Shown (K.holds keeper.old (W.view w.old)) (K.last keeper.old) X.tree → Knows X.tree known.now → KnowsMessages X.tree known.now.flags → X.searches ≡ searches.now → IsWhole X.tree → AreSearches X → Checks X result }
    ensures looks { LooksThere (K.holds keeper.old (W.view w.old)) (K.holds keeper.new (W.view w.new)) (K.last keeper.old) (K.last keeper.new) (K.room keeper.old) (K.room keeper.new) (W.view w.old) (W.view w.new) }
    ensures cause { IfErr result (IsCausedThere K.has_disk (W.view w.old).disk_faults (W.view w.new).disk_faults) }
{
    let (book, share) = blank.open::<L>();
    let mut steps = Steps::new(book, share);
    find_stale(alloc, keeper, w, known, searches, &mut steps)
}

/// Looks at nodes as a store that is only read: finds its folders and their names, which of its messages are unread, and its searches, whatever these list.
///
/// `Refused` names the first thing that is wrong with folders, tables and messages as `look_folders` finds it, then with the searches as `look_searches` does. `Kept` comes as the keeper's own stops do, never `Changed` of a keeper that tells its nodes.
pub fn look_store<W: Outside, K: NodeReader<W>>(
    alloc: Global,
    keeper: &mut K,
    w: &mut W,
) -> Result<OpenedTree, TreeStop>
    ensures found { (N : Nodes) → K.holds keeper.old (W.view w.old) N → IfOk result (LooksTree N (K.last keeper.old)) }
    ensures stops { (N : Nodes) → K.holds keeper.old (W.view w.old) N → IfErr result (StopsLook N) }
    ensures looks { Looks (K.holds keeper.old (W.view w.old)) (K.holds keeper.new (W.view w.new)) (K.last keeper.old) (K.last keeper.new) (K.room keeper.old) (K.room keeper.new) (W.view w.old) (W.view w.new) }
    ensures cause { IfErr result (IsCaused K.has_disk (W.view w.old).disk_faults (W.view w.new).disk_faults) }
{
    let (places, flags) = look_folders(alloc, keeper, w)?;
    let known = Known { places, flags };
    let searches = look_searches(alloc, keeper, w, &known.places)?;
    Ok(OpenedTree { known, searches })
}

/// Opens nodes as a store: finds its folders and their names, which of its messages are unread, and its searches, and looks at every message once more where a search runs.
///
/// `Refused` names the first thing that is wrong with folders, tables and messages as `look_folders` finds it, then with the searches as `look_searches` does, and last a running search whose list isn't what it is to be. `Kept` comes as the keeper's own stops do, never `Changed` of a keeper that tells its nodes.
pub fn open_store<W: Outside, K: NodeReader<W>>(
    alloc: Global,
    keeper: &mut K,
    w: &mut W,
) -> Result<OpenedTree, TreeStop>
    ensures found { (N : Nodes) → K.holds keeper.old (W.view w.old) N → IfOk result (KnowsTree N (K.last keeper.old)) }
    ensures stops { (N : Nodes) → K.holds keeper.old (W.view w.old) N → IfErr result (StopsTree N) }
    ensures looks { Looks (K.holds keeper.old (W.view w.old)) (K.holds keeper.new (W.view w.new)) (K.last keeper.old) (K.last keeper.new) (K.room keeper.old) (K.room keeper.new) (W.view w.old) (W.view w.new) }
    ensures cause { IfErr result (IsCaused K.has_disk (W.view w.old).disk_faults (W.view w.new).disk_faults) }
{
    let tree = look_store(alloc, keeper, w)?;
    let blank = Blank::new(1);
    let stale = find_stale_counted::<W, K, Brand>(
        alloc,
        keeper,
        w,
        &tree.known,
        &tree.searches.searches,
        blank,
    )?;
    match stale {
        Some(folder) => Err(TreeStop::Refused(TreeRefusal::Searches(SearchRefusal::Stale {
            folder,
        }))),
        None => Ok(tree),
    }
}
