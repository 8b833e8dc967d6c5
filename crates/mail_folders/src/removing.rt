//! `rmdir`
ghost use Rattle.std.specs.Prelude.{◌≡◌, IfErr, Ok, ◌||◌};
ghost use Rattle.mail_tree.specs.Folders.{has_rows, removed_folder, without_folder};
ghost use Rattle.mail_folders.specs.Pieces.{has_associated_in, has_rows_in, removing_folder, unless_filled, without_nodes};
ghost use Rattle.mail_tree.specs.Changing.{nothing, refused_if};
ghost use Rattle.command_text.specs.declared.reply.CommandRefusal.TheVariants.{NotEmpty};
ghost use Rattle.mail_draft.specs.Answers.{IsCalm, Says};
ghost use Rattle.mail_draft.specs.Desks.{Comes};
ghost use Rattle.mail_draft.specs.Sight.{Answers, Changes, Drafts, Reads};

use crate::desk::FolderDesk;
use crate::ending::moving;
use crate::finding::plain_in;
use crate::protecting::unless_protected;
use crate::standing::without_place;
use command_text::CommandRefusal;
use mail_draft::on_desk::drop_shown;
use mail_draft::{Coming, Desk, Stop, associated, contents, hierarchy};
use mail_tree::mail_objects::TableNode;
use pst_base::Nid;

/// Removes a folder. Refused where it isn't there, isn't plain, is protected, or one of its tables has a row (`NotEmpty`).
pub fn remove_folder<D: FolderDesk>(desk: &mut D, folder: Nid) -> Result<Coming, Stop>
    requires fresh { (D.view desk.old).changed ≡ nothing }
    ensures drafts { Drafts (D.view desk.old) (D.view desk.new) result }
    ensures answer { Comes (D.view desk.old) (D.view desk.new) (λ T c. removed_folder T folder.bits) result }
{
    let place = plain_in(desk.places(), folder)?;
    unless_protected(desk, folder)?;
    unless_filled(desk, folder)?;
    removing_folder(desk, folder, place.parent)
}

/// Whether a table has rows.
fn has_rows(table: &TableNode) -> bool
    ensures { result ≡ has_rows table.now }
{
    !table.table().rows().is_empty()
}

/// Whether the table at an id has rows.
fn has_rows_in<D: Desk>(desk: &mut D, nid: Nid) -> Result<bool, Stop>
    ensures reads { Reads (D.view desk.old) (D.view desk.new) result }
    ensures answer { Answers (D.view desk.old) (λ b. b) (λ T c. has_rows_in T nid.bits) result }
{
    let table = desk.table_before(nid)?;
    Ok(has_rows(&table))
}

/// Whether a folder's table of associated messages, which may be missing, has rows.
fn has_associated_in<D: FolderDesk>(desk: &mut D, folder: Nid) -> Result<bool, Stop>
    ensures reads { Reads (D.view desk.old) (D.view desk.new) result }
    ensures answer { Answers (D.view desk.old) (λ b. b) (λ T c. has_associated_in T folder.bits) result }
{
    let nid = associated(folder);
    if desk.is_taken(nid)? {
        return has_rows_in(desk, nid);
    }
    Ok(false)
}

/// Refused where one of the tables has rows.
fn unless_rows(has_folders: bool, has_messages: bool, has_associated: bool) -> Result<(), Stop>
    ensures answer { Says (λ u. u) (refused_if (has_folders || (has_messages || has_associated)) NotEmpty) result }
    ensures calm { IfErr result IsCalm }
{
    if has_folders || has_messages || has_associated {
        return Err(Stop::Refused(CommandRefusal::NotEmpty));
    }
    Ok(())
}

/// Refused where one of a folder's tables has rows.
fn unless_filled<D: FolderDesk>(desk: &mut D, folder: Nid) -> Result<(), Stop>
    ensures reads { Reads (D.view desk.old) (D.view desk.new) result }
    ensures answer { Answers (D.view desk.old) (λ u. u) (λ T c. unless_filled T folder.bits) result }
{
    let has_folders = has_rows_in(desk, hierarchy(folder))?;
    let has_messages = has_rows_in(desk, contents(folder))?;
    let has_associated = has_associated_in(desk, folder)?;
    unless_rows(has_folders, has_messages, has_associated)
}

/// Takes away the three nodes that each folder has.
fn drop_nodes<D: Desk>(desk: &mut D, folder: Nid) -> Result<(), Stop>
    ensures drafts { Drafts (D.view desk.old) (D.view desk.new) result }
    ensures answer { Changes (D.view desk.old) (D.view desk.new) (λ T c. Ok (without_nodes folder.bits c)) result }
{
    desk.put(folder, None)?;
    desk.put(hierarchy(folder), None)?;
    desk.put(contents(folder), None)
}

/// Takes away a folder's nodes.
fn drop_folder<D: FolderDesk>(desk: &mut D, folder: Nid) -> Result<(), Stop>
    ensures drafts { Drafts (D.view desk.old) (D.view desk.new) result }
    ensures answer { Changes (D.view desk.old) (D.view desk.new) (λ T c. Ok (without_folder T folder.bits c)) result }
{
    let has_associated = desk.is_taken(associated(folder))?;
    drop_nodes(desk, folder)?;
    if !has_associated {
        return Ok(());
    }
    desk.put(associated(folder), None)
}

/// Removes a folder in a parent, with its row, and counts the parent anew.
fn removing_folder<D: FolderDesk>(desk: &mut D, folder: Nid, parent: Nid) -> Result<Coming, Stop>
    requires fresh { (D.view desk.old).changed ≡ nothing }
    ensures drafts { Drafts (D.view desk.old) (D.view desk.new) result }
    ensures answer { Comes (D.view desk.old) (D.view desk.new) (λ T c. removing_folder T folder.bits parent.bits) result }
{
    let after = without_place(desk.alloc(), desk.places(), folder)?;
    drop_folder(desk, folder)?;
    drop_shown(desk, hierarchy(parent), folder)?;
    desk.settle(&after, parent)?;
    moving(desk, after)
}
