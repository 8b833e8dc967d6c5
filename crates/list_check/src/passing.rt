//! One pass over the messages.
ghost use Rattle.std.specs.Prelude.{◌≡◌, IfErr};
ghost use Rattle.mail_tree.specs.Tree.{Shown, Tree};
ghost use Rattle.mail_draft.specs.Answers.{IsCaused, Looks, Says};
ghost use Rattle.list_check.specs.Watching.{bits_of, stale_among, stale_at, stale_below, stale_in, stale_listed, watches_of};

use crate::watching::{Watched, stale_of};
use mail_draft::{Stop, contents, message_ids};
use mail_folders::{message_in, table_in};
use mail_tree::{FolderPlace, Places, Sort};
use node_port::NodeReader;
use pst_base::{Ledger, Nid, Steps};
use pst_outside::Outside;
use std::alloc::Global;

/// The first search that differs on the message with this id, which is read.
#[tactic(auto, unfolding(crate::specs::Watching::stale_at))]
fn stale_at<W: Outside, K: NodeReader<W>, L: Ledger>(
    alloc: Global,
    keeper: &mut K,
    w: &mut W,
    places: &Places,
    watched: &[Watched<'_>],
    id: Nid,
    steps: &mut Steps<L>,
) -> Result<Option<Nid>, Stop>
    ensures answer { (T : Tree) → Shown (K.holds keeper.old (W.view w.old)) (K.last keeper.old) T → T.places ≡ places.now → Says bits_of (stale_at T (watches_of watched.now) id.bits) result }
    ensures looks { Looks (K.holds keeper.old (W.view w.old)) (K.holds keeper.new (W.view w.new)) (K.last keeper.old) (K.last keeper.new) (K.room keeper.old) (K.room keeper.new) (W.view w.old) (W.view w.new) }
    ensures cause { IfErr result (IsCaused K.has_disk (W.view w.old).disk_faults (W.view w.new).disk_faults) }
{
    let mail = message_in(alloc, keeper, w, id)?;
    Ok(stale_of(places, watched, id, mail.message(), steps))
}

/// The first search that differs on one of these messages.
fn stale_among<W: Outside, K: NodeReader<W>, L: Ledger>(
    alloc: Global,
    keeper: &mut K,
    w: &mut W,
    places: &Places,
    watched: &[Watched<'_>],
    messages: &[u32],
    steps: &mut Steps<L>,
) -> Result<Option<Nid>, Stop>
    ensures answer { (T : Tree) → Shown (K.holds keeper.old (W.view w.old)) (K.last keeper.old) T → T.places ≡ places.now → Says bits_of (stale_among T (watches_of watched.now) messages.now) result }
    ensures looks { Looks (K.holds keeper.old (W.view w.old)) (K.holds keeper.new (W.view w.new)) (K.last keeper.old) (K.last keeper.new) (K.room keeper.old) (K.room keeper.new) (W.view w.old) (W.view w.new) }
    ensures cause { IfErr result (IsCaused K.has_disk (W.view w.old).disk_faults (W.view w.new).disk_faults) }
{
    for message in messages {
        let id = Nid { bits: *message };
        let stale = stale_at(alloc, keeper, w, places, watched, id, steps)?;
        if stale.is_some() {
            return Ok(stale);
        }
    }
    Ok(None)
}

/// The first search that differs on a message in this plain folder.
#[tactic(auto, unfolding(crate::specs::Watching::stale_listed))]
fn stale_listed<W: Outside, K: NodeReader<W>, L: Ledger>(
    alloc: Global,
    keeper: &mut K,
    w: &mut W,
    places: &Places,
    watched: &[Watched<'_>],
    folder: Nid,
    steps: &mut Steps<L>,
) -> Result<Option<Nid>, Stop>
    ensures answer { (T : Tree) → Shown (K.holds keeper.old (W.view w.old)) (K.last keeper.old) T → T.places ≡ places.now → Says bits_of (stale_listed T (watches_of watched.now) folder.bits) result }
    ensures looks { Looks (K.holds keeper.old (W.view w.old)) (K.holds keeper.new (W.view w.new)) (K.last keeper.old) (K.last keeper.new) (K.room keeper.old) (K.room keeper.new) (W.view w.old) (W.view w.new) }
    ensures cause { IfErr result (IsCaused K.has_disk (W.view w.old).disk_faults (W.view w.new).disk_faults) }
{
    let node = table_in(alloc, keeper, w, contents(folder))?;
    let messages = message_ids(alloc, node.table())?;
    stale_among(
        alloc,
        keeper,
        w,
        places,
        watched,
        messages.as_slice(),
        steps,
    )
}

/// The first search that differs on a message in this folder, if it is a plain one.
#[tactic(auto, unfolding(crate::specs::Watching::stale_in))]
fn stale_in<W: Outside, K: NodeReader<W>, L: Ledger>(
    alloc: Global,
    keeper: &mut K,
    w: &mut W,
    places: &Places,
    watched: &[Watched<'_>],
    place: FolderPlace,
    steps: &mut Steps<L>,
) -> Result<Option<Nid>, Stop>
    ensures answer { (T : Tree) → Shown (K.holds keeper.old (W.view w.old)) (K.last keeper.old) T → T.places ≡ places.now → Says bits_of (stale_in T (watches_of watched.now) place) result }
    ensures looks { Looks (K.holds keeper.old (W.view w.old)) (K.holds keeper.new (W.view w.new)) (K.last keeper.old) (K.last keeper.new) (K.room keeper.old) (K.room keeper.new) (W.view w.old) (W.view w.new) }
    ensures cause { IfErr result (IsCaused K.has_disk (W.view w.old).disk_faults (W.view w.new).disk_faults) }
{
    match place.sort {
        Sort::Plain => stale_listed(alloc, keeper, w, places, watched, place.nid, steps),
        Sort::Foreign => Ok(None),
    }
}

/// The first search that differs on a message in any of the folders. Each message is read once.
pub(crate) fn stale_below<W: Outside, K: NodeReader<W>, L: Ledger>(
    alloc: Global,
    keeper: &mut K,
    w: &mut W,
    places: &Places,
    watched: &[Watched<'_>],
    steps: &mut Steps<L>,
) -> Result<Option<Nid>, Stop>
    ensures answer { (T : Tree) → Shown (K.holds keeper.old (W.view w.old)) (K.last keeper.old) T → T.places ≡ places.now → Says bits_of (stale_below T (watches_of watched.now) places.now) result }
    ensures looks { Looks (K.holds keeper.old (W.view w.old)) (K.holds keeper.new (W.view w.new)) (K.last keeper.old) (K.last keeper.new) (K.room keeper.old) (K.room keeper.new) (W.view w.old) (W.view w.new) }
    ensures cause { IfErr result (IsCaused K.has_disk (W.view w.old).disk_faults (W.view w.new).disk_faults) }
{
    for place in places.as_slice() {
        let stale = stale_in(alloc, keeper, w, places, watched, *place, steps)?;
        if stale.is_some() {
            return Ok(stale);
        }
    }
    Ok(None)
}
