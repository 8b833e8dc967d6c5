//! `rename`
ghost use Rattle.std.specs.Prelude.{◌≡◌, IfOk};
ghost use Rattle.mail_tree.specs.Changing.{nothing};
ghost use Rattle.mail_tree.specs.Values.{text};
ghost use Rattle.mail_tree.specs.Folders.{renamed_folder};
ghost use Rattle.mail_folders.specs.Pieces.{named_anew, unless_beside};
ghost use Rattle.mapi_values.specs.Properties.{put};
ghost use Rattle.mail_draft.specs.Desks.{Comes};
ghost use Rattle.mail_draft.specs.Sight.{Answers, Changes, Drafts, Reads};

use crate::desk::FolderDesk;
use crate::finding::plain_in;
use crate::names::{siblings, unless_named};
use crate::protecting::unless_protected;
use mail_draft::on_desk::{changing, put_context};
use mail_draft::{Coming, Desk, Stop, put_text};
use mapi_values::tags::PID_TAG_DISPLAY_NAME;
use mapi_values::{Props, Units};
use pst_base::Nid;
use std::alloc::{AllocError, Global};

/// Gives a folder another name. Refused where it isn't there, isn't plain, is protected, or another folder in its parent has the name.
pub fn rename_folder<D: FolderDesk>(desk: &mut D, folder: Nid, name: &Units) -> Result<Coming, Stop>
    requires fresh { (D.view desk.old).changed ≡ nothing }
    ensures drafts { Drafts (D.view desk.old) (D.view desk.new) result }
    ensures answer { Comes (D.view desk.old) (D.view desk.new) (λ T c. renamed_folder T folder.bits name.now) result }
{
    let place = plain_in(desk.places(), folder)?;
    unless_protected(desk, folder)?;
    unless_beside(desk, place.parent, folder, name)?;
    named_anew(desk, folder, name)?;
    changing(desk)
}

/// Refused where another folder in a folder's parent has this name.
pub fn unless_beside<D: FolderDesk>(
    desk: &mut D,
    parent: Nid,
    folder: Nid,
    name: &Units,
) -> Result<(), Stop>
    ensures reads { Reads (D.view desk.old) (D.view desk.new) result }
    ensures answer { Answers (D.view desk.old) (λ u. u) (λ T c. unless_beside T parent.bits folder.bits name.now) result }
{
    let ids = siblings(desk.alloc(), desk.places(), parent, folder)?;
    let folded = name.fold(desk.alloc(), false)?;
    unless_named(desk, &folded, ids.as_slice())
}

/// The values of a folder with another name.
fn with_name(alloc: Global, props: &Props, name: &Units) -> Result<Props, AllocError>
    ensures { IfOk result (λ p. p ≡ put (text 0x3001 name.now) props.now) }
{
    let mut named = props.copy(alloc)?;
    put_text(alloc, &mut named, PID_TAG_DISPLAY_NAME.id, name)?;
    Ok(named)
}

/// Gives a folder another name, which its row shows.
pub fn named_anew<D: FolderDesk>(desk: &mut D, folder: Nid, name: &Units) -> Result<(), Stop>
    requires fresh { (D.view desk.old).changed ≡ nothing }
    ensures drafts { Drafts (D.view desk.old) (D.view desk.new) result }
    ensures answer { Changes (D.view desk.old) (D.view desk.new) (λ T c. named_anew T folder.bits name.now) result }
{
    let context = desk.context_before(folder)?;
    let props = with_name(desk.alloc(), context.props(), name)?;
    put_context(desk, folder, context, props)?;
    desk.mirror(folder)
}
