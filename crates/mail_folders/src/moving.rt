//! `mvdir`
ghost use Rattle.std.specs.Prelude.{◌≡◌, Ok};
ghost use Rattle.mail_tree.specs.Changing.{nothing};
ghost use Rattle.mail_tree.specs.Folders.{moved_between, moved_folder};
ghost use Rattle.mail_folders.specs.Pieces.{added_between, moving_folder, placing_folder, unless_crowds_name, with_parent};
ghost use Rattle.mail_draft.specs.Desks.{Comes};
ghost use Rattle.mail_draft.specs.Sight.{Answers, Changes, Drafts, Reads};

use crate::desk::FolderDesk;
use crate::ending::moving;
use crate::finding::both_plain_in;
use crate::names::{name_in, unless_child_named};
use crate::protecting::unless_protected;
use crate::standing::{unless_moves_deep, unless_within, with_place};
use command_text::{LastLine, Reply};
use mail_draft::on_desk::{add_shown, drop_shown};
use mail_draft::{Coming, Desk, Stop, hierarchy};
use mail_tree::Places;
use mail_tree::mail_objects::{Context, Object};
use mapi_values::Props;
use pst_base::Nid;

/// Moves a folder, with all below it, into another parent. Refused where one of the two isn't there or isn't plain, where the folder is protected, the parent is it or stands below it (`Cycle`), a folder there has its name, or it would stand too deep.
pub fn move_folder<D: FolderDesk>(desk: &mut D, folder: Nid, parent: Nid) -> Result<Coming, Stop>
    requires fresh { (D.view desk.old).changed ≡ nothing }
    ensures drafts { Drafts (D.view desk.old) (D.view desk.new) result }
    ensures answer { Comes (D.view desk.old) (D.view desk.new) (λ T c. moved_folder T folder.bits parent.bits) result }
{
    let place = both_plain_in(desk.places(), folder, parent)?;
    unless_protected(desk, folder)?;
    unless_within(desk.alloc(), desk.places(), folder, parent)?;
    if place.parent.bits == parent.bits {
        let reply = Reply::without_data(desk.alloc(), LastLine::Done);
        return Ok(Coming::replied(reply));
    }
    moving_folder(desk, folder, place.parent, parent)
}

/// Refused where a folder in a parent has the name that this one has.
pub fn unless_crowds_name<D: FolderDesk>(desk: &mut D, folder: Nid, parent: Nid) -> Result<(), Stop>
    ensures reads { Reads (D.view desk.old) (D.view desk.new) result }
    ensures answer { Answers (D.view desk.old) (λ u. u) (λ T c. unless_crowds_name T folder.bits parent.bits) result }
{
    let name = name_in(desk, folder)?;
    unless_child_named(desk, parent, &name)
}

/// Moves a folder to another parent than it has.
fn moving_folder<D: FolderDesk>(
    desk: &mut D,
    folder: Nid,
    from: Nid,
    to: Nid,
) -> Result<Coming, Stop>
    requires fresh { (D.view desk.old).changed ≡ nothing }
    ensures drafts { Drafts (D.view desk.old) (D.view desk.new) result }
    ensures answer { Comes (D.view desk.old) (D.view desk.new) (λ T c. moving_folder T folder.bits from.bits to.bits) result }
{
    unless_crowds_name(desk, folder, to)?;
    unless_moves_deep(desk.alloc(), desk.places(), folder, to)?;
    placing_folder(desk, folder, from, to)
}

/// Moves a folder from one parent to another, where it then stands.
fn placing_folder<D: FolderDesk>(
    desk: &mut D,
    folder: Nid,
    from: Nid,
    to: Nid,
) -> Result<Coming, Stop>
    requires fresh { (D.view desk.old).changed ≡ nothing }
    ensures drafts { Drafts (D.view desk.old) (D.view desk.new) result }
    ensures answer { Comes (D.view desk.old) (D.view desk.new) (λ T c. placing_folder T folder.bits from.bits to.bits) result }
{
    let after = with_place(desk.alloc(), desk.places(), folder, to)?;
    moved_between(desk, &after, folder, from, to)?;
    moving(desk, after)
}

/// Puts a folder's properties with another parent.
fn put_parent<D: Desk>(desk: &mut D, folder: Nid, context: Context, parent: Nid) -> Result<(), Stop>
    ensures drafts { Drafts (D.view desk.old) (D.view desk.new) result }
    ensures answer { Changes (D.view desk.old) (D.view desk.new) (λ T c. Ok (with_parent folder.bits context parent.bits c)) result }
{
    desk.put(folder, Some(Object::Context(context.with_parent(parent))))
}

/// Moves a folder from one parent to another: its parent, its rows, and the counts of both. The folders then stand at these places.
pub fn moved_between<D: FolderDesk>(
    desk: &mut D,
    places: &Places,
    folder: Nid,
    from: Nid,
    to: Nid,
) -> Result<(), Stop>
    requires fresh { (D.view desk.old).changed ≡ nothing }
    ensures drafts { Drafts (D.view desk.old) (D.view desk.new) result }
    ensures answer { Changes (D.view desk.old) (D.view desk.new) (λ T c. moved_between T folder.bits from.bits to.bits places.now) result }
{
    let context = desk.context_before(folder)?;
    let props = context.props().copy(desk.alloc())?;
    put_parent(desk, folder, context, to)?;
    drop_shown(desk, hierarchy(from), folder)?;
    added_between(desk, places, folder, from, to, &props)
}

/// Adds a folder's row to its new parent's table, and counts both parents anew.
fn added_between<D: FolderDesk>(
    desk: &mut D,
    places: &Places,
    folder: Nid,
    from: Nid,
    to: Nid,
    props: &Props,
) -> Result<(), Stop>
    ensures drafts { Drafts (D.view desk.old) (D.view desk.new) result }
    ensures answer { Changes (D.view desk.old) (D.view desk.new) (λ T. added_between T folder.bits from.bits to.bits places.now props.now) result }
{
    add_shown(desk, hierarchy(to), folder, props)?;
    desk.settle(places, from)?;
    desk.settle(places, to)
}
