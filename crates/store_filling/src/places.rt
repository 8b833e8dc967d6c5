//! Where a large input is to stand.
ghost use Rattle.std.specs.Prelude.{◌≡◌, IfErr, option_copied, option_map};
ghost use Rattle.mail_tree.specs.Knowing.{Knows};
ghost use Rattle.mail_tree.specs.Tree.{Shown, Tree};
ghost use Rattle.mail_reading.specs.mail_draft.Answers.{IsCaused, Looks, Says};
ghost use Rattle.store_filling.specs.Places.{fill_places, named_folder, named_node, plain_or_root};

use mail_reading::mail_draft::{Stop, bytes_of};
use mail_reading::mail_folders::context_in;
use mail_tree::{FolderPlace, Known, Places, ROOT_FOLDER, Sort};
use mapi_values::Props;
use mapi_values::tags::{PID_TAG_FINDER_ENTRY_ID, PID_TAG_IPM_SUBTREE_ENTRY_ID, PTYP_BINARY};
use node_port::NodeReader;
use pst_base::{Nid, u32_at};
use pst_outside::Outside;
use std::alloc::Global;

/// The store's own values.
const STORE: Nid = Nid { bits: 0x21 };

/// The root of all folders.
const ROOT: Nid = Nid { bits: ROOT_FOLDER };

/// Where a large input is to stand: the folder in which its folder is made, and the one in which its search is made.
#[derive(Clone, Copy, Debug, PartialEq, Eq)]
pub struct FillPlaces {
    pub folder: Nid,
    pub search: Nid,
}

/// The node that the store names by an entry id under this id, if it has one there of 24 bytes.
fn named_node(store: &Props, id: u16) -> Option<Nid>
    ensures { option_map (λ n. n.bits) result ≡ named_node id store.now }
{
    let entry = bytes_of(store, id, PTYP_BINARY)?;
    if entry.len() == 24 {
        Some(Nid {
            bits: u32_at(entry, 20),
        })
    } else {
        None
    }
}

/// The folder, if it is there and plain, and else the root.
fn plain_or_root(place: Option<&FolderPlace>) -> Nid
    ensures { result.bits ≡ plain_or_root (option_copied place.entry) }
{
    match place {
        Some(place) => match place.sort {
            Sort::Plain => place.nid,
            Sort::Foreign => ROOT,
        },
        None => ROOT,
    }
}

/// The plain folder that the store names under this id, or the root where there is none.
fn named_folder(places: &Places, store: &Props, id: u16) -> Nid
    ensures { result.bits ≡ named_folder places.now id store.now }
{
    match named_node(store, id) {
        Some(node) => plain_or_root(places.find(node)),
        None => ROOT,
    }
}

/// Where a large input is to stand: in the folders that the store names as the top of the user's folders and as the place for search folders. An `Err` says that the store's values aren't of their form, that no memory is left, or as the keeper stops.
#[tactic(auto, unfolding(crate::specs::Places::fill_places))]
pub(crate) fn fill_places<W: Outside, K: NodeReader<W>>(
    alloc: Global,
    keeper: &mut K,
    w: &mut W,
    known: &Known,
) -> Result<FillPlaces, Stop>
    ensures answer { (T : Tree) → Shown (K.holds keeper.old (W.view w.old)) (K.last keeper.old) T → Knows T known.now → Says (λ p. (p.folder.bits, p.search.bits)) (fill_places T) result }
    ensures looks { Looks (K.holds keeper.old (W.view w.old)) (K.holds keeper.new (W.view w.new)) (K.last keeper.old) (K.last keeper.new) (K.room keeper.old) (K.room keeper.new) (W.view w.old) (W.view w.new) }
    ensures cause { IfErr result (IsCaused K.has_disk (W.view w.old).disk_faults (W.view w.new).disk_faults) }
{
    let store = context_in(alloc, keeper, w, STORE)?;
    let props = store.props();
    Ok(FillPlaces {
        folder: named_folder(&known.places, props, PID_TAG_IPM_SUBTREE_ENTRY_ID.id),
        search: named_folder(&known.places, props, PID_TAG_FINDER_ENTRY_ID.id),
    })
}
