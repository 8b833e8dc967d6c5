//! The walk from the root down.
ghost use Rattle.std.specs.Prelude.{◌≡◌, ◌+◌, ℕ, List, IfErr, IfOk, OnOk, Ok};
ghost use Rattle.mail_tree.specs.Places.{is_plain_sort};
ghost use Rattle.mail_tree.specs.declared.places.FolderPlace.{FolderPlace as Stands};
ghost use Rattle.node_port.specs.Nodes.{Nodes};
ghost use Rattle.tree_look.specs.Faults.{Finds};
ghost use Rattle.mail_tree.specs.Standing.{HasTree};
ghost use Rattle.tree_look.specs.declared.stops.LookRefusal.{LookRefusal as Refusal};
ghost use Rattle.tree_look.specs.declared.stops.LookStop.TheVariants.{Refused};
ghost use Rattle.tree_look.specs.Seeing.{AreKnown, AreListed, Learns};
ghost use Rattle.tree_look.specs.Walk.{parent_of, Awaits, Comes, Follows, IsCaused, IsPart, Looks};

use crate::forms::check_names;
use crate::nodes::{check_row, look_fixed, look_tables};
use crate::stops::LookStop;
use mail_tree::{Flags, FolderPlace, Places, ROOT_FOLDER, Sort};
use node_port::NodeReader;
use pst_base::Nid;
use pst_outside::Outside;
use std::alloc::Global;

/// The folder that is above, the root itself for the root.
fn parent_of(above: Option<Nid>) -> Nid
    ensures { result.bits ≡ parent_of above }
{
    match above {
        Some(parent) => parent,
        None => Nid { bits: ROOT_FOLDER },
    }
}

/// Whether a folder of this sort holds folders and messages.
fn is_plain(sort: Sort) -> bool
    ensures { result ≡ is_plain_sort sort }
{
    matches!(sort, Sort::Plain)
}

/// Follows a row: finds the folder that it names, if it names one, and all below it, in preorder by ascending ids. So many folders may stand one below another from it on.
fn follow<W: Outside, K: NodeReader<W>>(
    alloc: Global,
    keeper: &mut K,
    w: &mut W,
    above: Option<Nid>,
    row: Nid,
    left: u8,
    places: &mut Places,
    flags: &mut Flags,
) -> Result<(), LookStop>
    ensures found { (N : Nodes) → K.holds keeper.old (W.view w.old) N → (n : ℕ) → n + left ≡ 65 → Comes N above n row.bits → Awaits above n row.bits places.old → IsPart N places.old
        → Finds N (λ u. Follows N above row.bits places.old places.new) result }
    ensures flags { (N : Nodes) → K.holds keeper.old (W.view w.old) N → (n : ℕ) → n + left ≡ 65 → Comes N above n row.bits → Awaits above n row.bits places.old → IsPart N places.old
        → OnOk result (Learns N flags.old flags.new) }
    ensures known { (N : Nodes) → K.holds keeper.old (W.view w.old) N → (n : ℕ) → n + left ≡ 65 → Comes N above n row.bits → Awaits above n row.bits places.old → IsPart N places.old
        → OnOk result (AreKnown N places.old flags.old → AreKnown N places.new flags.new) }
    ensures looks { Looks (K.holds keeper.old (W.view w.old)) (K.holds keeper.new (W.view w.new)) (K.last keeper.old) (K.last keeper.new) (K.room keeper.old) (K.room keeper.new) (W.view w.old) (W.view w.new) }
    ensures cause { IfErr result (IsCaused K.has_disk (W.view w.old).disk_faults (W.view w.new).disk_faults) }
{
    let Some(sort) = check_row(alloc, keeper, w, above, row, left, flags)? else {
        return Ok(());
    };
    let place = FolderPlace {
        nid: row,
        parent: parent_of(above),
        sort,
    };
    places.put(place)?;
    if !is_plain(sort) {
        return Ok(());
    }
    let rows = look_tables(alloc, keeper, w, row, flags)?;
    for child in rows.as_slice() {
        follow(alloc, keeper, w, Some(row), *child, left - 1, places, flags)?;
    }
    Ok(())
}

/// The places of the folders of the tree that nodes have, by their ids, which of its messages are unread, and what its folders are named; or what is wrong: the first thing that is met of the store's values, the names, and the folders in preorder by ascending ids. Of each folder its values are looked at, then its tables, its messages, and the folders below it.
///
/// The root is at 122h. A row of a table of folders names a plain folder where its id is of kind 2, and a search folder where it is of kind 3 and its node is there; a row of a table of messages names one where its id is of kind 4 ([MS-PST] 2.2.2.1). All other rows name nothing here. `Fault` comes where the disk failed, `Memory` where there was none, and `Changed` never of a reader that tells its nodes.
pub fn look_folders<W: Outside, K: NodeReader<W>>(
    alloc: Global,
    keeper: &mut K,
    w: &mut W,
) -> Result<(Places, Flags), LookStop>
    ensures found { (N : Nodes) → K.holds keeper.old (W.view w.old) N → Finds N (λ found. HasTree N found.0) result }
    ensures flags { (N : Nodes) → K.holds keeper.old (W.view w.old) N → IfOk result (λ found. AreListed N found.0 found.1) }
    ensures known { (N : Nodes) → K.holds keeper.old (W.view w.old) N → IfOk result (λ found. AreKnown N found.0 found.1) }
    // What is wrong excludes every tree.
    ensures only { IfErr result (λ stop. (refusal : Refusal) → stop ≡ Refused refusal → (N : Nodes) → K.holds keeper.old (W.view w.old) N → (places : List Stands) → HasTree N places → ⊥) }
    ensures looks { Looks (K.holds keeper.old (W.view w.old)) (K.holds keeper.new (W.view w.new)) (K.last keeper.old) (K.last keeper.new) (K.room keeper.old) (K.room keeper.new) (W.view w.old) (W.view w.new) }
    ensures cause { IfErr result (IsCaused K.has_disk (W.view w.old).disk_faults (W.view w.new).disk_faults) }
{
    look_fixed(alloc, keeper, w, Nid { bits: 0x21 })?;
    let names = look_fixed(alloc, keeper, w, Nid { bits: 0x61 })?;
    check_names(alloc, &names)?;
    let mut places = Places::new(alloc);
    let mut flags = Flags::new(alloc);
    follow(
        alloc,
        keeper,
        w,
        None,
        Nid { bits: ROOT_FOLDER },
        65,
        &mut places,
        &mut flags,
    )?;
    Ok((places, flags))
}
