//! `mkdir`
ghost use Rattle.std.specs.Prelude.{◌≡◌, IfErr, IfOk, Ok, Some};
ghost use Rattle.mail_folders.specs.Pieces.{adding_folder, counted_folder, unless_long, with_tables};
ghost use Rattle.mail_tree.specs.Folders.{made_folder, making_folder, unless_full, with_folder};
ghost use Rattle.mail_tree.specs.Changing.{nothing, with_object};
ghost use Rattle.mail_tree.specs.Columns.{contents_table, hierarchy_table};
ghost use Rattle.mail_tree.specs.Values.{folder_props};
ghost use Rattle.mail_tree.specs.mail_objects.declared.object.Object.TheVariants.{Table};
ghost use Rattle.mail_draft.specs.Answers.{IsCalm, Says};
ghost use Rattle.mail_draft.specs.Desks.{Comes};
ghost use Rattle.mail_draft.specs.Sight.{Answers, Changes, Drafts, Reads};

use crate::desk::{FolderDesk, FolderMakingDesk};
use crate::finding::plain_in;
use crate::names::unless_child_named;
use crate::standing::{unless_deep, with_place};
use command_text::{CommandRefusal, Limit};
use mail_draft::on_desk::add_shown;
use mail_draft::{
    Coming, Desk, Stop, associated, contents, hierarchy, new_id, put_text, with_counts,
};
use mail_tree::mail_objects::{Context, Object, TableNode};
use mail_tree::{Places, contents_table, hierarchy_table};
use mapi_values::tags::PID_TAG_DISPLAY_NAME;
use mapi_values::{Props, Units};
use pst_base::{Nid, Subs};
use std::alloc::{AllocError, Global};

/// The number of rows at which no folder is made in a table.
const FULL_ROWS: usize = 100_000;

/// A new folder of this name in a parent. Refused, in this order: the parent isn't there (`Object`) or isn't plain (`Reserved`), a folder in it has the name (`NameTaken`), it would stand below more than 64 others (`Limit(Depth)`), its parent has 100,000 folders or more or its table would have too many rows (`Limit(Rows)`), a folder would have too many values (`Limit(Properties)`), no index is left (`Ids`).
pub fn make_folder<D: FolderMakingDesk>(
    desk: &mut D,
    parent: Nid,
    name: &Units,
) -> Result<Coming, Stop>
    requires fresh { (D.view desk.old).changed ≡ nothing }
    ensures drafts { Drafts (D.view desk.old) (D.view desk.new) result }
    ensures answer { Comes (D.view desk.old) (D.view desk.new) (λ T c. made_folder T parent.bits name.now) result }
{
    let _place = plain_in(desk.places(), parent)?;
    unless_child_named(desk, parent, name)?;
    unless_deep(desk.alloc(), desk.places(), parent)?;
    unless_full(desk, hierarchy(parent))?;
    let index = desk.next_folder()?;
    making_folder(desk, parent, name, index)
}

/// Refused where a table has 100,000 rows or more.
fn unless_long(table: &TableNode) -> Result<(), Stop>
    ensures answer { Says (λ u. u) (unless_long table.now) result }
    ensures calm { IfErr result IsCalm }
{
    if table.table().rows().len() >= FULL_ROWS {
        return Err(Stop::Refused(CommandRefusal::Limit(Limit::Rows)));
    }
    Ok(())
}

/// Refused where the table at an id has 100,000 rows or more.
pub fn unless_full<D: Desk>(desk: &mut D, nid: Nid) -> Result<(), Stop>
    ensures reads { Reads (D.view desk.old) (D.view desk.new) result }
    ensures answer { Answers (D.view desk.old) (λ u. u) (λ T c. unless_full T nid.bits) result }
{
    let table = desk.table_before(nid)?;
    unless_long(&table)
}

/// The values of a new folder.
pub fn folder_props(alloc: Global, name: &Units) -> Result<Props, AllocError>
    ensures { IfOk result (λ p. p ≡ folder_props name.now) }
{
    let mut props = Props::new(alloc);
    put_text(alloc, &mut props, PID_TAG_DISPLAY_NAME.id, name)?;
    with_counts(alloc, props, 0, 0, false)
}

/// Puts a table of folders that has no rows.
fn put_folders_table<D: Desk>(desk: &mut D, nid: Nid) -> Result<(), Stop>
    ensures drafts { Drafts (D.view desk.old) (D.view desk.new) result }
    ensures answer { Changes (D.view desk.old) (D.view desk.new) (λ T c. Ok (with_object nid.bits (Some (Table hierarchy_table)) c)) result }
{
    let table = hierarchy_table(desk.alloc())?;
    desk.put(nid, Some(Object::Table(table)))
}

/// Puts a table of messages that has no rows.
fn put_messages_table<D: Desk>(desk: &mut D, nid: Nid) -> Result<(), Stop>
    ensures drafts { Drafts (D.view desk.old) (D.view desk.new) result }
    ensures answer { Changes (D.view desk.old) (D.view desk.new) (λ T c. Ok (with_object nid.bits (Some (Table contents_table)) c)) result }
{
    let table = contents_table(desk.alloc())?;
    desk.put(nid, Some(Object::Table(table)))
}

/// Puts the three tables of a new folder.
fn put_tables<D: Desk>(desk: &mut D, folder: Nid) -> Result<(), Stop>
    ensures drafts { Drafts (D.view desk.old) (D.view desk.new) result }
    ensures answer { Changes (D.view desk.old) (D.view desk.new) (λ T c. Ok (with_tables folder.bits c)) result }
{
    put_folders_table(desk, hierarchy(folder))?;
    put_messages_table(desk, contents(folder))?;
    put_messages_table(desk, associated(folder))
}

/// Puts the nodes of a new folder with these values.
fn put_folder<D: Desk>(desk: &mut D, folder: Nid, parent: Nid, name: &Units) -> Result<(), Stop>
    ensures drafts { Drafts (D.view desk.old) (D.view desk.new) result }
    ensures answer { Changes (D.view desk.old) (D.view desk.new) (λ T c. Ok (with_folder folder.bits parent.bits name.now c)) result }
{
    let props = folder_props(desk.alloc(), name)?;
    let context = Context::new(parent, props, Subs::new(desk.alloc()));
    desk.put(folder, Some(Object::Context(context)))?;
    put_tables(desk, folder)
}

/// Puts a new folder, and its row in its parent's table.
fn add_folder<D: Desk>(desk: &mut D, folder: Nid, parent: Nid, name: &Units) -> Result<(), Stop>
    ensures drafts { Drafts (D.view desk.old) (D.view desk.new) result }
    ensures answer { Changes (D.view desk.old) (D.view desk.new) (λ T. adding_folder T folder.bits parent.bits name.now) result }
{
    let props = folder_props(desk.alloc(), name)?;
    put_folder(desk, folder, parent, name)?;
    add_shown(desk, hierarchy(parent), folder, &props)
}

/// Puts a new folder and its row, and counts its parent anew. The folders then stand at these places.
fn counted<D: FolderDesk>(
    desk: &mut D,
    places: &Places,
    folder: Nid,
    parent: Nid,
    name: &Units,
) -> Result<(), Stop>
    requires fresh { (D.view desk.old).changed ≡ nothing }
    ensures drafts { Drafts (D.view desk.old) (D.view desk.new) result }
    ensures answer { Changes (D.view desk.old) (D.view desk.new) (λ T c. counted_folder T folder.bits parent.bits name.now places.now) result }
{
    add_folder(desk, folder, parent, name)?;
    desk.settle(places, parent)
}

/// Makes the folder of this index: its nodes, its row, and its parent's counts.
fn making_folder<D: FolderMakingDesk>(
    desk: &mut D,
    parent: Nid,
    name: &Units,
    index: u64,
) -> Result<Coming, Stop>
    requires fresh { (D.view desk.old).changed ≡ nothing }
    ensures drafts { Drafts (D.view desk.old) (D.view desk.new) result }
    ensures answer { Comes (D.view desk.old) (D.view desk.new) (λ T c. making_folder T parent.bits name.now index) result }
{
    let folder = new_id(2, index);
    let after = with_place(desk.alloc(), desk.places(), folder, parent)?;
    counted(desk, &after, folder, parent, name)?;
    desk.make(after, index)
}
