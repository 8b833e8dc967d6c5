//! Counts of folders, and the rows that show them.
ghost use Rattle.std.specs.Prelude.{Ok};
ghost use Rattle.mail_tree.specs.Settling.{mirrored, settled, with_context};
ghost use Rattle.mail_draft.specs.Counting.{counted_with, settled_with};
ghost use Rattle.mail_draft.specs.Sight.{Changes, Drafts};

use super::rows::put_shown;
use super::touch::table_as_is;
use super::unread::unread_among;
use crate::beside::{contents, hierarchy};
use crate::desk::Desk;
use crate::settle::has_folders;
use crate::stop::Stop;
use crate::values::with_counts;
use mail_objects::{Context, Object};
use mail_tree::{Places, ROOT_FOLDER};
use mapi_values::Props;
use pst_base::Nid;

/// Puts other values at a node of properties.
pub fn put_context<D: Desk>(
    desk: &mut D,
    nid: Nid,
    context: Context,
    props: Props,
) -> Result<(), Stop>
    ensures drafts { Drafts (D.view desk.old) (D.view desk.new) result }
    ensures answer { Changes (D.view desk.old) (D.view desk.new) (λ T c. Ok (with_context nid.bits context props c)) result }
{
    desk.put(nid, Some(Object::Context(context.with_props(props))))
}

/// Counts a folder anew: its messages, those that are unread, and whether it has folders. A message is read only where nothing is known of it.
fn counted_with<D: Desk>(desk: &mut D, has_folders: bool, folder: Nid) -> Result<(), Stop>
    ensures drafts { Drafts (D.view desk.old) (D.view desk.new) result }
    ensures answer { Changes (D.view desk.old) (D.view desk.new) (λ T. counted_with T has_folders folder.bits) result }
{
    let context = desk.context(folder)?;
    let ids = desk.message_ids(contents(folder))?;
    let unread = unread_among(desk, ids.as_slice())?;
    let old_props = context.props().copy(desk.alloc())?;
    let props = with_counts(
        desk.alloc(),
        old_props,
        ids.len() as u64,
        unread,
        has_folders,
    )?;
    put_context(desk, folder, context, props)
}

/// Makes the row of a folder in its parent's table show it. The root has none, and its own table of folders is put as it is.
pub fn mirrored<D: Desk>(desk: &mut D, folder: Nid) -> Result<(), Stop>
    ensures drafts { Drafts (D.view desk.old) (D.view desk.new) result }
    ensures answer { Changes (D.view desk.old) (D.view desk.new) (λ T. mirrored T folder.bits) result }
{
    if folder.bits == ROOT_FOLDER {
        return table_as_is(desk, hierarchy(folder));
    }
    let context = desk.context(folder)?;
    put_shown(desk, hierarchy(context.parent()), folder, context.props())
}

/// Counts a folder anew, which has folders or not, and makes its row show it.
fn settled_with<D: Desk>(desk: &mut D, has_folders: bool, folder: Nid) -> Result<(), Stop>
    ensures drafts { Drafts (D.view desk.old) (D.view desk.new) result }
    ensures answer { Changes (D.view desk.old) (D.view desk.new) (λ T. settled_with T has_folders folder.bits) result }
{
    counted_with(desk, has_folders, folder)?;
    mirrored(desk, folder)
}

/// Counts a folder anew in which something came, went or changed, and makes its row show it. The folders stand where they stood before the line.
pub fn settled<D: Desk>(desk: &mut D, folder: Nid) -> Result<(), Stop>
    ensures drafts { Drafts (D.view desk.old) (D.view desk.new) result }
    ensures answer { Changes (D.view desk.old) (D.view desk.new) (λ T. settled T T.places folder.bits) result }
{
    let has_folders = has_folders(desk.places(), folder);
    settled_with(desk, has_folders, folder)
}

/// The same where the folders then stand at these places.
pub fn settled_at<D: Desk>(desk: &mut D, places: &Places, folder: Nid) -> Result<(), Stop>
    ensures drafts { Drafts (D.view desk.old) (D.view desk.new) result }
    ensures answer { Changes (D.view desk.old) (D.view desk.new) (λ T. settled T places.now folder.bits) result }
{
    settled_with(desk, has_folders(places, folder), folder)
}
