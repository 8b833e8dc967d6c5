//! The look at the search folders of a tree.
ghost use Rattle.std.specs.Prelude.{◌≡◌, ◌%◌, ◌<◌, List, ◌∷◌, IfErr, IsSome, OnOk};
ghost use Rattle.std.specs.Option.{is_some};
ghost use Rattle.pst_base.specs.Ids.{index_of, nid_of};
ghost use Rattle.mapi_values.specs.Keyed.{put_key};
ghost use Rattle.node_port.specs.Nodes.{Nodes, node_at};
ghost use Rattle.mail_tree.specs.Places.{find_place};
ghost use Rattle.mail_tree.specs.Standing.{HasTree};
ghost use Rattle.mail_tree.specs.declared.places.FolderPlace.{FolderPlace as Stands};
ghost use Rattle.tree_look.specs.Walk.{Looks};
ghost use Rattle.search_look.specs.Having.{IsSearchIn};
ghost use Rattle.search_look.specs.Faults.{FindsSearches, HasSearchFault};
ghost use Rattle.search_look.specs.Looking.{ArePart, Finds, FoundAt, IsKept, IsNever, LacksCriteriaAt, TellsOwnAt, with_set};

use crate::criteria::read_own;
use crate::list::check_list;
use crate::stops::SearchStop;
use mail_searches::{KnownSearches, OwnFolders, OwnSearch, Searches};
use mail_tree::{FolderPlace, Places};
use node_port::{NodeReader, NodeRec};
use pst_base::Nid;
use pst_outside::Outside;
use search_obj::{Criteria, CriteriaSet};
use std::alloc::{AllocError, Global};

/// The node at an id, `None` where there is none.
fn node_at<W: Outside, K: NodeReader<W>>(
    alloc: Global,
    keeper: &mut K,
    w: &mut W,
    nid: Nid,
) -> Result<Option<NodeRec>, SearchStop>
    ensures found { (N : Nodes) → K.holds keeper.old (W.view w.old) N → Finds (λ node. node ≡ node_at N nid.bits) IsNever result }
    ensures looks { Looks (K.holds keeper.old (W.view w.old)) (K.holds keeper.new (W.view w.new)) (K.last keeper.old) (K.last keeper.new) (K.room keeper.old) (K.room keeper.new) (W.view w.old) (W.view w.new) }
    ensures stops { IfErr result (IsKept K.has_disk (W.view w.old).disk_faults (W.view w.new).disk_faults (K.holds keeper.old (W.view w.old))) }
{
    Ok(keeper.get(alloc, w, nid)?)
}

/// Whether there is a node at an id.
fn is_there<W: Outside, K: NodeReader<W>>(
    alloc: Global,
    keeper: &mut K,
    w: &mut W,
    nid: Nid,
) -> Result<bool, SearchStop>
    ensures found { (N : Nodes) → K.holds keeper.old (W.view w.old) N → Finds (λ there. there ≡ is_some (node_at N nid.bits)) IsNever result }
    ensures looks { Looks (K.holds keeper.old (W.view w.old)) (K.holds keeper.new (W.view w.new)) (K.last keeper.old) (K.last keeper.new) (K.room keeper.old) (K.room keeper.new) (W.view w.old) (W.view w.new) }
    ensures stops { IfErr result (IsKept K.has_disk (W.view w.old).disk_faults (W.view w.new).disk_faults (K.holds keeper.old (W.view w.old))) }
{
    Ok(keeper.get_content(alloc, w, nid)?.is_some())
}

/// The node beside a folder, of a kind.
fn beside(folder: Nid, kind: u32) -> Nid
    requires { kind < 32 }
    ensures { result.bits ≡ nid_of kind (index_of folder.bits) }
{
    Nid {
        bits: folder.bits / 32 * 32 + kind,
    }
}

/// The criteria that the criteria object of a search folder says, `None` where it is none of the store's own.
fn look_criteria<W: Outside, K: NodeReader<W>>(
    alloc: Global,
    keeper: &mut K,
    w: &mut W,
    folder: Nid,
) -> Result<Option<Criteria>, SearchStop>
    ensures found { (N : Nodes) → K.holds keeper.old (W.view w.old) N → Finds (TellsOwnAt N folder.bits) (LacksCriteriaAt N folder.bits) result }
    ensures looks { Looks (K.holds keeper.old (W.view w.old)) (K.holds keeper.new (W.view w.new)) (K.last keeper.old) (K.last keeper.new) (K.room keeper.old) (K.room keeper.new) (W.view w.old) (W.view w.new) }
    ensures stops { IfErr result (IsKept K.has_disk (W.view w.old).disk_faults (W.view w.new).disk_faults (K.holds keeper.old (W.view w.old))) }
{
    let nid = beside(folder, 0x07);
    let Some(node) = node_at(alloc, keeper, w, nid)? else {
        return Ok(None);
    };
    read_own(alloc, nid, &node)
}

/// The criteria of a search folder whose list is there, `None` where it is none of the store's own.
fn look_search<W: Outside, K: NodeReader<W>>(
    alloc: Global,
    keeper: &mut K,
    w: &mut W,
    folder: Nid,
) -> Result<Option<Criteria>, SearchStop>
    ensures found { (N : Nodes) (places : List Stands) → K.holds keeper.old (W.view w.old) N → IsSearchIn places folder.bits → Finds (FoundAt N folder.bits) (HasSearchFault N places) result }
    ensures looks { Looks (K.holds keeper.old (W.view w.old)) (K.holds keeper.new (W.view w.new)) (K.last keeper.old) (K.last keeper.new) (K.room keeper.old) (K.room keeper.new) (W.view w.old) (W.view w.new) }
    ensures stops { IfErr result (IsKept K.has_disk (W.view w.old).disk_faults (W.view w.new).disk_faults (K.holds keeper.old (W.view w.old))) }
{
    let nid = beside(folder, 0x10);
    // A list of another program may be long: it is read only once the folder is known to be an own one.
    if !is_there(alloc, keeper, w, nid)? {
        return Ok(None);
    }
    let Some(criteria) = look_criteria(alloc, keeper, w, folder)? else {
        return Ok(None);
    };
    let Some(node) = node_at(alloc, keeper, w, nid)? else {
        return Ok(None);
    };
    check_list(alloc, nid, &node)?;
    Ok(Some(criteria))
}

/// Keeps an own search folder, and its search where criteria are set. Nothing is said after an `Err`.
fn keep_search(
    own: &mut OwnFolders,
    searches: &mut Searches,
    folder: Nid,
    set: Option<CriteriaSet>,
) -> Result<(), AllocError>
    ensures { OnOk result ((own.new ≡ put_key (λ f. f) folder.bits own.old) × (searches.new ≡ with_set folder.bits set searches.old)) }
{
    own.put(folder)?;
    match set {
        Some(set) => searches.put(OwnSearch::new(folder, set)),
        None => Ok(()),
    }
}

/// Looks at a folder, and keeps it where it is an own search folder. So many folders are left after it.
fn look_place<W: Outside, K: NodeReader<W>>(
    alloc: Global,
    keeper: &mut K,
    w: &mut W,
    place: FolderPlace,
    own: &mut OwnFolders,
    searches: &mut Searches,
) -> Result<(), SearchStop>
    ensures found { (N : Nodes) (places rest : List Stands) → K.holds keeper.old (W.view w.old) N → IsSome (find_place place.nid.bits places)
        → ArePart N places (place ∷ rest) own.old searches.old → Finds (λ u. ArePart N places rest own.new searches.new) (HasSearchFault N places) result }
    ensures looks { Looks (K.holds keeper.old (W.view w.old)) (K.holds keeper.new (W.view w.new)) (K.last keeper.old) (K.last keeper.new) (K.room keeper.old) (K.room keeper.new) (W.view w.old) (W.view w.new) }
    ensures stops { IfErr result (IsKept K.has_disk (W.view w.old).disk_faults (W.view w.new).disk_faults (K.holds keeper.old (W.view w.old))) }
{
    if place.nid.bits % 32 != 3 {
        return Ok(());
    }
    let Some(criteria) = look_search(alloc, keeper, w, place.nid)? else {
        return Ok(());
    };
    Ok(keep_search(own, searches, place.nid, criteria.set)?)
}

/// The searches that nodes have beside their tree, whose folders stand at these places: its own search folders, and of these the searches with criteria; or what is wrong with the first that isn't in order.
///
/// A search folder, one with an id of kind 3, is an own one where the node of its list is there (kind 10h at its index, [MS-PST] 2.4.8.6) and the node of its criteria (kind 07h) is a property context whose values are marked. Of all others nothing is said, whatever their nodes are. `Kept` stops come as the keeper's own: `Fault` where the disk failed, `Memory` where there was none, and `Changed` never of a reader that tells its nodes.
pub fn look_searches<W: Outside, K: NodeReader<W>>(
    alloc: Global,
    keeper: &mut K,
    w: &mut W,
    places: &Places,
) -> Result<KnownSearches, SearchStop>
    ensures found { (N : Nodes) → K.holds keeper.old (W.view w.old) N → HasTree N places.now → FindsSearches N places.now result }
    ensures looks { Looks (K.holds keeper.old (W.view w.old)) (K.holds keeper.new (W.view w.new)) (K.last keeper.old) (K.last keeper.new) (K.room keeper.old) (K.room keeper.new) (W.view w.old) (W.view w.new) }
    ensures stops { IfErr result (IsKept K.has_disk (W.view w.old).disk_faults (W.view w.new).disk_faults (K.holds keeper.old (W.view w.old))) }
{
    let mut own = OwnFolders::new(alloc);
    let mut searches = Searches::new(alloc);
    for place in places.as_slice() {
        look_place(alloc, keeper, w, *place, &mut own, &mut searches)?;
    }
    Ok(KnownSearches { own, searches })
}
