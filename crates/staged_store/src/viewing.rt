//! Lines on views within a transaction.
ghost use Rattle.std.specs.Prelude.{◌≡◌, Bool, IfErr};
ghost use Rattle.node_port.specs.Nodes.{Nodes};
ghost use Rattle.pst_outside.specs.Calls.{Untouched};
ghost use Rattle.pinned_session.specs.mail_reading.Viewed.{listing_of, listing_view};
ghost use Rattle.pinned_session.specs.store_session.Carrying.{IsCaused};
ghost use Rattle.pinned_session.specs.store_session.mail_draft.Answers.{IsCaused as IsDiskCaused, Says};
ghost use Rattle.session_lines.specs.declared.line.SessionLine.TheVariants.{OpenView, ShowView};
ghost use Rattle.staged_store.specs.Saying.{Underway};
ghost use Rattle.staged_store.specs.Standing.{IsUnderway, Responds};
ghost use Rattle.staged_store.specs.Telling.{Keeps};

use crate::reading::list_keeping;
use crate::underway::StagedStore;
use line_server::Spoken;
use mapi_values::Tag;
use node_port::NodeReader;
use pinned_session::mail_reading::Listing;
use pinned_session::session_lines::ViewReply;
use pinned_session::store_session::mail_draft::Stop;
use pinned_session::store_session::search_store::SearchStore;
use pinned_session::store_session::{Store, StoreStop, stopped};
use pinned_session::{add_listed, shown_spoken, view_at, view_spoken};
use pst_base::Nid;
use pst_outside::Outside;
use sorted_views::Direction;
use std::alloc::Global;

/// What a folder lists, and the store back.
fn list<W: Outside, K: NodeReader<W>>(
    alloc: Global,
    under: StagedStore<K>,
    world: &mut W,
    folder: Nid,
) -> (StagedStore<K>, Result<Listing, Stop>)
    ensures answer { (base : Nodes) (tidy : Bool) (U : Underway) → K.holds under.store.store.keeper (W.view world.old) base → IsUnderway base (K.room under.store.store.keeper) under tidy U → Says listing_view (listing_of U.now folder.bits) result.1 }
    ensures underway { (base : Nodes) (tidy : Bool) (U : Underway) → K.holds under.store.store.keeper (W.view world.old) base → IsUnderway base (K.room under.store.store.keeper) under tidy U → IsUnderway base (K.room under.store.store.keeper) result.0 tidy U }
    ensures stays { (base : Nodes) (tidy : Bool) (U : Underway) → K.holds under.store.store.keeper (W.view world.old) base → IsUnderway base (K.room under.store.store.keeper) under tidy U
        → Keeps (K.holds under.store.store.keeper (W.view world.old)) (K.holds result.0.store.store.keeper (W.view world.new)) (K.pinned under.store.store.keeper (W.view world.old)) (K.pinned result.0.store.store.keeper (W.view world.new)) (K.last under.store.store.keeper) (K.last result.0.store.store.keeper) (K.room under.store.store.keeper) (K.room result.0.store.store.keeper) }
    ensures same { Untouched (W.view world.old) (W.view world.new) }
    ensures cause { IfErr result.1 (IsDiskCaused K.has_disk (W.view world.old).disk_faults (W.view world.new).disk_faults) }
{
    let StagedStore {
        store,
        staging,
        views,
    } = under;
    let SearchStore {
        store: Store { keeper, known },
        searches,
    } = store;
    let (keeper, answer) = list_keeping(alloc, keeper, &staging, world, &known, &searches, folder);
    let store = SearchStore {
        store: Store { keeper, known },
        searches,
    };
    let under = StagedStore {
        store,
        staging,
        views,
    };
    (under, answer)
}

/// Opens a view of a folder's messages, sorted by a column.
pub(crate) fn open_view<W: Outside, K: NodeReader<W>>(
    alloc: Global,
    under: StagedStore<K>,
    world: &mut W,
    folder: Nid,
    tag: Tag,
    direction: Direction,
) -> (StagedStore<K>, Result<Spoken, StoreStop>)
    ensures responds { (base : Nodes) (tidy : Bool) (U : Underway) → K.holds under.store.store.keeper (W.view world.old) base → IsUnderway base (K.room under.store.store.keeper) under tidy U
        → Responds (K.room under.store.store.keeper) U (OpenView folder tag direction) (IsUnderway base (K.room under.store.store.keeper) result.0 tidy) result.1 }
    ensures stays { (base : Nodes) (tidy : Bool) (U : Underway) → K.holds under.store.store.keeper (W.view world.old) base → IsUnderway base (K.room under.store.store.keeper) under tidy U
        → Keeps (K.holds under.store.store.keeper (W.view world.old)) (K.holds result.0.store.store.keeper (W.view world.new)) (K.pinned under.store.store.keeper (W.view world.old)) (K.pinned result.0.store.store.keeper (W.view world.new)) (K.last under.store.store.keeper) (K.last result.0.store.store.keeper) (K.room under.store.store.keeper) (K.room result.0.store.store.keeper) }
    ensures same { Untouched (W.view world.old) (W.view world.new) }
    ensures cause { IfErr result.1 (IsCaused K.has_disk (W.view world.old) (W.view world.new)) }
{
    let (mut under, answer) = list(alloc, under, world, folder);
    match answer {
        Ok(listing) => {
            let views = &mut under.views;
            let spoken = add_listed(alloc, views, &listing, folder, tag, direction);
            (under, Ok(spoken))
        }
        Err(stop) => (under, stopped(alloc, stop)),
    }
}

/// Shows the rows of the view that a line names, or its groups, as its folder lists them now.
pub(crate) fn show_view<W: Outside, K: NodeReader<W>>(
    alloc: Global,
    under: StagedStore<K>,
    world: &mut W,
    view: Option<u32>,
    grouped: bool,
) -> (StagedStore<K>, Result<Spoken, StoreStop>)
    ensures responds { (base : Nodes) (tidy : Bool) (U : Underway) → K.holds under.store.store.keeper (W.view world.old) base → IsUnderway base (K.room under.store.store.keeper) under tidy U
        → Responds (K.room under.store.store.keeper) U (ShowView view grouped) (IsUnderway base (K.room under.store.store.keeper) result.0 tidy) result.1 }
    ensures stays { (base : Nodes) (tidy : Bool) (U : Underway) → K.holds under.store.store.keeper (W.view world.old) base → IsUnderway base (K.room under.store.store.keeper) under tidy U
        → Keeps (K.holds under.store.store.keeper (W.view world.old)) (K.holds result.0.store.store.keeper (W.view world.new)) (K.pinned under.store.store.keeper (W.view world.old)) (K.pinned result.0.store.store.keeper (W.view world.new)) (K.last under.store.store.keeper) (K.last result.0.store.store.keeper) (K.room under.store.store.keeper) (K.room result.0.store.store.keeper) }
    ensures same { Untouched (W.view world.old) (W.view world.new) }
    ensures cause { IfErr result.1 (IsCaused K.has_disk (W.view world.old) (W.view world.new)) }
{
    let Some(open) = view_at(&under.views, view) else {
        return (under, Ok(view_spoken(alloc, ViewReply::NoView)));
    };
    let (under, answer) = list(alloc, under, world, open.folder);
    match answer {
        Ok(listing) => (under, Ok(shown_spoken(alloc, &listing, &open, grouped))),
        Err(stop) => (under, stopped(alloc, stop)),
    }
}
