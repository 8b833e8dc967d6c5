//! Views opened, shown and closed.
ghost use Rattle.std.specs.Prelude.{◌≡◌, ◌⊎◌, ℕ, Bool, List, true, IfErr, IfOk};
ghost use Rattle.pst_outside.specs.Calls.{Untouched};
ghost use Rattle.line_server.specs.Spoken.{no_memory_text, spoken_text};
ghost use Rattle.line_server.specs.Worlds.{Quiet};
ghost use Rattle.mail_searches.specs.Searching.{Searching};
ghost use Rattle.mail_reading.specs.Viewed.{listing_of, listing_view};
ghost use Rattle.pinned_views.specs.Telling.{KeepsTold};
ghost use Rattle.session_lines.specs.Texts.{view_text};
ghost use Rattle.session_lines.specs.declared.line.SessionLine.TheVariants.{OpenView as OpensLine, ShowView};
ghost use Rattle.store_session.specs.Carrying.{CarriesOut, Has, IsCaused};
ghost use Rattle.store_session.specs.Disks.{effects_of, medium};
ghost use Rattle.store_session.specs.mail_draft.Answers.{IsCaused as IsDiskCaused, Says};
ghost use Rattle.pinned_session.specs.Run.{SaysTo};
ghost use Rattle.pinned_session.specs.Showing.{LacksMemory, Opens, OpensColumn, ShowsRows, closed_text};
ghost use Rattle.pinned_session.specs.Sits.{Sits, StandsNow};
ghost use Rattle.pinned_session.specs.Sitting.{Sitting};
ghost use Rattle.pinned_session.specs.Viewing.{view_at, viewing_of, without_view};
ghost use Rattle.sorted_views.specs.Rows.{sorts_by};

use crate::pins::PinnedStore;
use crate::views::{OpenView, OpenViews, close_named, view_at};
use line_server::Spoken;
use mail_reading::{Listing, list_rows};
use mapi_values::Tag;
use node_port::{Pinner, Saver};
use pinned_views::{Around, UnderPins};
use pst_base::{Bytes, Nid};
use pst_outside::Outside;
use session_lines::{ViewReply, groups_text, rows_text, view_reply_text};
use sorted_views::{Direction, sort_rows, sorts_by};
use std::alloc::{AllocError, Global};
use std::marker::{Brand, PhantomData};
use store_session::mail_draft::Stop;
use store_session::search_store::SearchStore;
use store_session::{Store, StoreStop, stopped};

/// The most views that are open at once.
const VIEWS: usize = 16;

/// What a folder lists, by a keeper whose pins are to tell something, and the store back: its pins tell that still.
fn list_under<P: Around, W: Outside, K: Saver<W>>(
    alloc: Global,
    store: SearchStore<K>,
    world: &mut W,
    folder: Nid,
) -> (SearchStore<K>, Result<Listing, Stop>)
    requires told { KeepsTold P.told (K.pinned store.store.keeper (W.view world.old)) }
    ensures answer { (tidy : Bool) (X : Searching) → Has (K.holds store.store.keeper (W.view world.old)) (K.last store.store.keeper) store.store.known store.searches K.rests (W.view world.old) tidy X → Says listing_view (listing_of X folder.bits) result.1 }
    ensures stays { (tidy : Bool) (X : Searching) → Has (K.holds store.store.keeper (W.view world.old)) (K.last store.store.keeper) store.store.known store.searches K.rests (W.view world.old) tidy X
        → Has (K.holds result.0.store.keeper (W.view world.new)) (K.last result.0.store.keeper) result.0.store.known result.0.searches K.rests (W.view world.new) tidy X × KeepsTold P.told (K.pinned result.0.store.keeper (W.view world.new)) }
    ensures room { K.room result.0.store.keeper ≡ K.room store.store.keeper }
    ensures same { Untouched (W.view world.old) (W.view world.new) }
    ensures cause { IfErr result.1 (IsDiskCaused K.has_disk (W.view world.old).disk_faults (W.view world.new).disk_faults) }
{
    let SearchStore {
        store: Store { keeper, known },
        searches,
    } = store;
    let mut under: UnderPins<K, P> = UnderPins {
        keeper,
        around: PhantomData,
    };
    let answer = list_rows(alloc, &mut under, world, &known, &searches, folder);
    let UnderPins { keeper, .. } = under;
    let store = SearchStore {
        store: Store { keeper, known },
        searches,
    };
    (store, answer)
}

/// What a folder lists, and the store back. Each pin tells what it told.
fn list_keeping<W: Outside, K: Saver<W>>(
    alloc: Global,
    store: SearchStore<K>,
    world: &mut W,
    folder: Nid,
) -> (SearchStore<K>, Result<Listing, Stop>)
    ensures answer { (tidy : Bool) (X : Searching) → Has (K.holds store.store.keeper (W.view world.old)) (K.last store.store.keeper) store.store.known store.searches K.rests (W.view world.old) tidy X → Says listing_view (listing_of X folder.bits) result.1 }
    ensures stays { (tidy : Bool) (X : Searching) → Has (K.holds store.store.keeper (W.view world.old)) (K.last store.store.keeper) store.store.known store.searches K.rests (W.view world.old) tidy X
        → Has (K.holds result.0.store.keeper (W.view world.new)) (K.last result.0.store.keeper) result.0.store.known result.0.searches K.rests (W.view world.new) tidy X × KeepsTold (K.pinned store.store.keeper (W.view world.old)) (K.pinned result.0.store.keeper (W.view world.new)) }
    ensures room { K.room result.0.store.keeper ≡ K.room store.store.keeper }
    ensures same { Untouched (W.view world.old) (W.view world.new) }
    ensures cause { IfErr result.1 (IsDiskCaused K.has_disk (W.view world.old).disk_faults (W.view world.new).disk_faults) }
{
    list_under::<Brand, W, K>(alloc, store, world, folder)
}

/// What is said of a view.
pub fn view_spoken(alloc: Global, reply: ViewReply) -> Spoken
    ensures { (spoken_text result ≡ view_text reply) ⊎ (spoken_text result ≡ no_memory_text) }
{
    match view_reply_text(alloc, reply) {
        Ok(text) => Spoken::Reply(text),
        Err(AllocError) => Spoken::NoMemory,
    }
}

/// Opens a view, with the next number. Its reply is made before, and where there is no memory nothing changes.
fn add_view(
    alloc: Global,
    views: &mut OpenViews,
    folder: Nid,
    tag: Tag,
    direction: Direction,
) -> Spoken
    ensures { Opens folder tag direction (viewing_of views.old) (spoken_text result) (viewing_of views.new) ⊎ LacksMemory views.old views.new (spoken_text result) }
{
    let Some(number) = views.given.checked_add(1) else {
        return view_spoken(alloc, ViewReply::ViewsFull);
    };
    if views.opened.len() >= VIEWS {
        return view_spoken(alloc, ViewReply::ViewsFull);
    }
    let Ok(text) = view_reply_text(alloc, ViewReply::Opened(number)) else {
        return Spoken::NoMemory;
    };
    let view = OpenView {
        number,
        folder,
        tag,
        direction,
    };
    let Ok(()) = views.opened.push(view) else {
        return Spoken::NoMemory;
    };
    views.given = number;
    Spoken::Reply(text)
}

/// Opens a view of a folder that lists this, if its table has the column.
pub fn add_listed(
    alloc: Global,
    views: &mut OpenViews,
    listing: &Listing,
    folder: Nid,
    tag: Tag,
    direction: Direction,
) -> Spoken
    ensures { OpensColumn (sorts_by listing.now.table.table tag) folder tag direction (viewing_of views.old) (spoken_text result) (viewing_of views.new) ⊎ LacksMemory views.old views.new (spoken_text result) }
{
    if sorts_by(listing.table.table(), tag) {
        add_view(alloc, views, folder, tag, direction)
    } else {
        view_spoken(alloc, ViewReply::NoColumn)
    }
}

/// Opens a view of a folder's messages, sorted by a column.
pub(crate) fn open_view<W: Outside, K: Pinner<W> + Saver<W>>(
    alloc: Global,
    pinned: PinnedStore<K>,
    world: &mut W,
    folder: Nid,
    tag: Tag,
    direction: Direction,
) -> (PinnedStore<K>, Result<Spoken, StoreStop>)
    ensures carries { (found : List ℕ) (tidy : Bool) (S : Sitting) → Sits W.view K.holds K.last K.pinned K.room K.rests pinned world.old found tidy S → (K.has_disk ≡ true → (W.view world.new).tells)
        → CarriesOut (Sits W.view K.holds K.last K.pinned K.room K.rests result.0 world.new found tidy) (StandsNow K.stands found tidy) (SaysTo (λ pins. effects_of pins K.measures K.applied K.saved) (K.room pinned.store.store.keeper) S (medium (W.view world.old)) (OpensLine folder tag direction)) (W.view world.old) (W.view world.new) S result.1 }
    ensures cause { IfErr result.1 (IsCaused K.has_disk (W.view world.old) (W.view world.new)) }
    ensures quiet { Quiet (W.view world.old) (W.view world.new) }
{
    let PinnedStore {
        store,
        given,
        pins,
        views,
    } = pinned;
    let (store, answer) = list_keeping(alloc, store, world, folder);
    let mut pinned = PinnedStore {
        store,
        given,
        pins,
        views,
    };
    match answer {
        Ok(listing) => {
            let views = &mut pinned.views;
            let spoken = add_listed(alloc, views, &listing, folder, tag, direction);
            (pinned, Ok(spoken))
        }
        Err(stop) => (pinned, stopped(alloc, stop)),
    }
}

/// The rows of a view over what its folder lists, or its groups, as text. It fails only where memory runs out.
fn shown_text(
    alloc: Global,
    listing: &Listing,
    view: &OpenView,
    grouped: bool,
) -> Result<Bytes, AllocError>
    ensures { IfOk result (ShowsRows grouped view.now listing.now.table.table listing.now.ids.items) }
{
    let table = listing.table.table();
    let ids = listing.ids.as_slice();
    let rows = sort_rows(alloc, table, view.tag, view.direction, ids)?;
    if grouped {
        groups_text(alloc, table, view.tag, rows.as_slice())
    } else {
        rows_text(alloc, table, view.tag, rows.as_slice())
    }
}

/// What is said of a view over what its folder lists.
pub fn shown_spoken(alloc: Global, listing: &Listing, view: &OpenView, grouped: bool) -> Spoken
    ensures { ShowsRows grouped view.now listing.now.table.table listing.now.ids.items (spoken_text result) ⊎ (spoken_text result ≡ no_memory_text) }
{
    match shown_text(alloc, listing, view, grouped) {
        Ok(text) => Spoken::Reply(text),
        Err(AllocError) => Spoken::NoMemory,
    }
}

/// Shows the rows of the view that a line names, or its groups, as its folder lists them now.
pub(crate) fn show_view<W: Outside, K: Pinner<W> + Saver<W>>(
    alloc: Global,
    pinned: PinnedStore<K>,
    world: &mut W,
    view: Option<u32>,
    grouped: bool,
) -> (PinnedStore<K>, Result<Spoken, StoreStop>)
    ensures carries { (found : List ℕ) (tidy : Bool) (S : Sitting) → Sits W.view K.holds K.last K.pinned K.room K.rests pinned world.old found tidy S → (K.has_disk ≡ true → (W.view world.new).tells)
        → CarriesOut (Sits W.view K.holds K.last K.pinned K.room K.rests result.0 world.new found tidy) (StandsNow K.stands found tidy) (SaysTo (λ pins. effects_of pins K.measures K.applied K.saved) (K.room pinned.store.store.keeper) S (medium (W.view world.old)) (ShowView view grouped)) (W.view world.old) (W.view world.new) S result.1 }
    ensures cause { IfErr result.1 (IsCaused K.has_disk (W.view world.old) (W.view world.new)) }
    ensures quiet { Quiet (W.view world.old) (W.view world.new) }
{
    let Some(open) = view_at(&pinned.views, view) else {
        return (pinned, Ok(view_spoken(alloc, ViewReply::NoView)));
    };
    let PinnedStore {
        store,
        given,
        pins,
        views,
    } = pinned;
    let (store, answer) = list_keeping(alloc, store, world, open.folder);
    let pinned = PinnedStore {
        store,
        given,
        pins,
        views,
    };
    match answer {
        Ok(listing) => (pinned, Ok(shown_spoken(alloc, &listing, &open, grouped))),
        Err(stop) => (pinned, stopped(alloc, stop)),
    }
}

/// Closes the view that a line names. Its reply is made before, and where there is no memory nothing changes.
pub fn close_view(alloc: Global, views: &mut OpenViews, view: Option<u32>) -> Spoken
    ensures { ((spoken_text result ≡ closed_text (view_at view (viewing_of views.old))) × (viewing_of views.new ≡ without_view view (viewing_of views.old))) ⊎ LacksMemory views.old views.new (spoken_text result) }
{
    let Some(open) = view_at(views, view) else {
        return view_spoken(alloc, ViewReply::NoView);
    };
    let Ok(text) = view_reply_text(alloc, ViewReply::Closed) else {
        return Spoken::NoMemory;
    };
    close_named(&mut views.opened, open.number);
    Spoken::Reply(text)
}
