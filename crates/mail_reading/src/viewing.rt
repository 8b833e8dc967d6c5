//! What a view shows: the table of a folder, and which messages its rows name.
ghost use Rattle.std.specs.Prelude.{◌≡◌, IfErr};
ghost use Rattle.mail_tree.specs.Knowing.{Knows};
ghost use Rattle.mail_tree.specs.Tree.{Shown};
ghost use Rattle.search_folders.specs.mail_draft.Answers.{IsCaused, Looks, Says};
ghost use Rattle.search_folders.specs.mail_draft.Sight.{Answers, Reads};
ghost use Rattle.mail_searches.specs.Searches.{results};
ghost use Rattle.mail_searches.specs.Searching.{Searching};
ghost use Rattle.search_folders.specs.Comings.{KnowsSearches};
ghost use Rattle.search_folders.specs.Among.{among};
ghost use Rattle.search_folders.specs.mail_draft.Showing.{Showing};
ghost use Rattle.mail_reading.specs.Viewed.{ListsRows, contents_in, listed_ids, listing_of, listing_view, plain_contents, with_named};

use mail_objects::TableNode;
use mail_searches::{KnownSearches, OwnFolders};
use mail_tree::Known;
use mapi_values::Props;
use node_port::NodeReader;
use pst_base::{Nid, make_nid};
use pst_outside::Outside;
use search_folders::mail_draft::{Desk, Draft, Seen, Stop, StoreDesk, contents};
use search_folders::mail_folders::{FolderDesk, plain_in};
use search_folders::search_results::is_message;
use std::alloc::Global;

/// The table that lists the messages of a folder, and the ids of those that are there.
#[derive(Drop)]
pub struct Listing {
    pub table: TableNode,
    pub ids: Vec<u32>,
}

/// The table of what a search lists.
fn results(search: Nid) -> Nid
    ensures { result.bits ≡ results search.bits }
{
    make_nid(0x10, search.index())
}

/// The contents of a plain folder.
fn plain_contents<D: Desk>(desk: &mut D, folder: Nid) -> Result<TableNode, Stop>
    ensures reads { Reads (D.view desk.old) (D.view desk.new) result }
    ensures answer { Answers (D.view desk.old) (λ t. t) (λ T c. plain_contents T folder.bits) result }
{
    plain_in(desk.places(), folder)?;
    desk.table_before(contents(folder))
}

/// The table that lists the messages of a folder: the list of an own search, the contents of a plain folder. The refusals: `Object`, and `Reserved` of a search folder of another program.
#[tactic(auto, unfolding(crate::specs::Viewed::contents_in))]
fn contents_in<D: Desk>(desk: &mut D, own: &OwnFolders, folder: Nid) -> Result<TableNode, Stop>
    ensures reads { Reads (D.view desk.old) (D.view desk.new) result }
    ensures answer { (X : Searching) → (D.view desk.old).shows X.tree → X.own ≡ own.now → Says (λ t. t) (contents_in X folder.bits) result }
{
    if own.contains(folder) {
        desk.table_before(results(folder))
    } else {
        plain_contents(desk, folder)
    }
}

/// The ids so far, with that of a message, if there is one. The ids are lost with an `Err`.
#[tactic(auto, unfolding(crate::specs::Viewed::with_named))]
fn with_named<D: FolderDesk>(desk: &mut D, mut ids: Vec<u32>, id: u32) -> Result<Vec<u32>, Stop>
    ensures reads { Reads (D.view desk.old) (D.view desk.new) result }
    ensures answer { Answers (D.view desk.old) (λ more. more.items) (λ T c. with_named T ids.items id) result }
{
    if is_message(desk, Nid { bits: id })? {
        ids.push(id)?;
    }
    Ok(ids)
}

/// The ids of the messages that rows name.
fn listed_ids<D: FolderDesk>(desk: &mut D, rows: &[(u32, Props)]) -> Result<Vec<u32>, Stop>
    ensures reads { Reads (D.view desk.old) (D.view desk.new) result }
    ensures answer { Answers (D.view desk.old) (λ ids. ids.items) (λ T c. listed_ids T rows.now) result }
{
    let mut ids = Vec::new(desk.alloc());
    for row in rows {
        ids = with_named(desk, ids, row.0)?;
    }
    Ok(ids)
}

/// What a view of a folder shows, on a desk.
#[tactic(auto, unfolding(crate::specs::Viewed::listing_of))]
fn rows_on_desk<D: FolderDesk>(
    desk: &mut D,
    searches: &KnownSearches,
    folder: Nid,
) -> Result<Listing, Stop>
    ensures reads { Reads (D.view desk.old) (D.view desk.new) result }
    ensures answer { (X : Searching) → (D.view desk.old).shows X.tree → KnowsSearches X searches.now → Says listing_view (listing_of X folder.bits) result }
{
    let table = contents_in(desk, &searches.own, folder)?;
    let ids = listed_ids(desk, table.table().rows())?;
    Ok(Listing { table, ids })
}

/// The same on a desk over a keeper.
fn rows_on_keeper<W: Outside, K: NodeReader<W>>(
    desk: &mut StoreDesk<'_, '_, '_, '_, '_, '_, W, K>,
    searches: &KnownSearches,
    folder: Nid,
) -> Result<Listing, Stop>
    ensures names { (desk.new.keeper.ghost_name ≡ desk.old.keeper.ghost_name) × (desk.new.world.ghost_name ≡ desk.old.world.ghost_name) × (desk.new.seen.ghost_name ≡ desk.old.seen.ghost_name) × (desk.new.draft.ghost_name ≡ desk.old.draft.ghost_name) }
    ensures answer { ListsRows (among (Showing (K.holds desk.old.keeper.now (W.view desk.old.world.now)) (K.last desk.old.keeper.now) desk.old.places.now desk.old.flags.now desk.old.seen.now) searches.now) folder.bits result }
    ensures looks { Looks (K.holds desk.old.keeper.now (W.view desk.old.world.now)) (K.holds desk.new.keeper.now (W.view desk.new.world.now)) (K.last desk.old.keeper.now) (K.last desk.new.keeper.now) (K.room desk.old.keeper.now) (K.room desk.new.keeper.now) (W.view desk.old.world.now) (W.view desk.new.world.now) }
    ensures cause { IfErr result (IsCaused K.has_disk (W.view desk.old.world.now).disk_faults (W.view desk.new.world.now).disk_faults) }
{
    rows_on_desk(desk, searches, folder)
}

/// What a view of a folder shows: its table as it is now, and which of its rows name messages. The refusals: `Object`, and `Reserved` of a search folder of another program.
pub fn list_rows<W: Outside, K: NodeReader<W>>(
    alloc: Global,
    keeper: &mut K,
    w: &mut W,
    known: &Known,
    searches: &KnownSearches,
    folder: Nid,
) -> Result<Listing, Stop>
    ensures answer { (X : Searching) → Shown (K.holds keeper.old (W.view w.old)) (K.last keeper.old) X.tree → Knows X.tree known.now → KnowsSearches X searches.now → Says listing_view (listing_of X folder.bits) result }
    ensures looks { Looks (K.holds keeper.old (W.view w.old)) (K.holds keeper.new (W.view w.new)) (K.last keeper.old) (K.last keeper.new) (K.room keeper.old) (K.room keeper.new) (W.view w.old) (W.view w.new) }
    ensures cause { IfErr result (IsCaused K.has_disk (W.view w.old).disk_faults (W.view w.new).disk_faults) }
{
    let mut seen = Seen::new(alloc);
    let mut draft = Draft::new(alloc);
    let mut desk = StoreDesk {
        keeper,
        world: w,
        places: &known.places,
        flags: &known.flags,
        seen: &mut seen,
        draft: &mut draft,
        alloc,
    };
    rows_on_keeper(&mut desk, searches, folder)
}
