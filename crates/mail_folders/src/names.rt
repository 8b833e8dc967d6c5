//! Names of folders, compared with their case folded.
ghost use Rattle.std.specs.Prelude.{◌≡◌, map, filter, ◌==◌, IfOk, IfSome, Ok};
ghost use Rattle.mail_tree.specs.Places.{children, is_child};
ghost use Rattle.mail_tree.specs.Flags.{AreFlags};
ghost use Rattle.mail_tree.specs.Tree.{Tree, object_at};
ghost use Rattle.mail_tree.specs.Folders.{siblings, unless_named};
ghost use Rattle.mail_folders.specs.Pieces.{has_name, name_in, unless_child_named, unless_has_name};
ghost use Rattle.mail_draft.specs.Answers.{Says};
ghost use Rattle.mail_draft.specs.Sight.{Answers, Reads};

use crate::desk::FolderDesk;
use command_text::CommandRefusal;
use mail_draft::{Desk, Stop, folded_name, name_of};
use mail_tree::{Flags, FolderPlace, Places};
use mapi_values::Units;
use pst_base::Nid;
use std::alloc::{AllocError, Global};

/// The id of the root of all folders.
pub(crate) const ROOT: u32 = 0x122;

/// Whether a folder stands directly in that one.
pub(crate) fn is_child(parent: Nid, place: &FolderPlace) -> bool
    ensures { result ≡ is_child parent.bits place.now }
{
    place.parent.bits == parent.bits && place.nid.bits != ROOT
}

/// The ids of the folders directly in a parent, ascending.
pub(crate) fn children(alloc: Global, places: &Places, parent: Nid) -> Result<Vec<u32>, AllocError>
    ensures { IfOk result (λ ids. ids.items ≡ children parent.bits places.now) }
{
    places
        .as_slice()
        .iter()
        .filter(|place| is_child(parent, place))
        .map(|place| place.nid.bits)
        .collect(alloc)
}

/// The ids of the other folders in a folder's parent, ascending.
pub(crate) fn siblings(
    alloc: Global,
    places: &Places,
    parent: Nid,
    folder: Nid,
) -> Result<Vec<u32>, AllocError>
    ensures { IfOk result (λ ids. (T : Tree) → T.places ≡ places.now → ids.items ≡ siblings T parent.bits folder.bits) }
{
    let ids = children(alloc, places, parent)?;
    ids.iter()
        .copied()
        .filter(|id| *id != folder.bits)
        .collect(alloc)
}

/// The name of a folder.
pub(crate) fn name_in<D: Desk>(desk: &mut D, folder: Nid) -> Result<Units, Stop>
    ensures reads { Reads (D.view desk.old) (D.view desk.new) result }
    ensures answer { Answers (D.view desk.old) (λ units. units) (λ T c. name_in T folder.bits) result }
{
    let context = desk.context_before(folder)?;
    Ok(name_of(desk.alloc(), context.props())?)
}

/// Whether a folder has this name, which is folded already, if its name is known.
fn known_name(flags: &Flags, name: &Units, folder: Nid) -> Option<bool>
    ensures { IfSome result (λ has. (T : Tree) → AreFlags (object_at T) flags.now → Says (λ b. b) (has_name T name.now folder.bits) (Ok has)) }
{
    match flags.name(folder.bits) {
        Some(own) => Some(own.as_slice() == name.as_slice()),
        None => None,
    }
}

/// Whether a folder has this name, which is folded already. Its node is read only where its name isn't known.
fn has_name<D: FolderDesk>(desk: &mut D, name: &Units, folder: Nid) -> Result<bool, Stop>
    ensures reads { Reads (D.view desk.old) (D.view desk.new) result }
    ensures answer { Answers (D.view desk.old) (λ b. b) (λ T c. has_name T name.now folder.bits) result }
{
    if let Some(has) = known_name(desk.flags(), name, folder) {
        return Ok(has);
    }
    let context = desk.context_before(folder)?;
    let own = folded_name(desk.alloc(), context.props())?;
    Ok(own.as_slice() == name.as_slice())
}

/// Refused where a folder has this name, which is folded already.
fn unless_has_name<D: FolderDesk>(desk: &mut D, name: &Units, folder: Nid) -> Result<(), Stop>
    ensures reads { Reads (D.view desk.old) (D.view desk.new) result }
    ensures answer { Answers (D.view desk.old) (λ u. u) (λ T c. unless_has_name T name.now folder.bits) result }
{
    let is_taken = has_name(desk, name, folder)?;
    if is_taken {
        return Err(Stop::Refused(CommandRefusal::NameTaken));
    }
    Ok(())
}

/// Refused where one of these folders has this name, which is folded already.
pub(crate) fn unless_named<D: FolderDesk>(
    desk: &mut D,
    name: &Units,
    folders: &[u32],
) -> Result<(), Stop>
    ensures reads { Reads (D.view desk.old) (D.view desk.new) result }
    ensures answer { Answers (D.view desk.old) (λ u. u) (λ T c. unless_named T name.now folders.now) result }
{
    for folder in folders {
        unless_has_name(desk, name, Nid { bits: *folder })?;
    }
    Ok(())
}

/// Refused where a folder in a parent has this name.
pub fn unless_child_named<D: FolderDesk>(
    desk: &mut D,
    parent: Nid,
    name: &Units,
) -> Result<(), Stop>
    ensures reads { Reads (D.view desk.old) (D.view desk.new) result }
    ensures answer { Answers (D.view desk.old) (λ u. u) (λ T c. unless_child_named T parent.bits name.now) result }
{
    let ids = children(desk.alloc(), desk.places(), parent)?;
    let folded = name.fold(desk.alloc(), false)?;
    unless_named(desk, &folded, ids.as_slice())
}
