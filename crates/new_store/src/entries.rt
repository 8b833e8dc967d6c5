//! What stands at the ids of a new store.
ghost use Rattle.std.specs.Prelude.{◌≡◌, ◌+◌, ◌^◌, ◌<◌, ◌∷◌, [], ◌++◌, None, Some, IfOk, OnOk};
ghost use Rattle.mail_tree.specs.Folders.{nid};
ghost use Rattle.mail_tree.specs.Start.{folder_nodes};
ghost use Rattle.new_store.specs.Entries.{entries_of, root_nodes, start_entries, template_nodes};

use crate::contexts::{context, folder_props, names_props, root_props, store_props};
use crate::folders::{DELETED, DELETED_NAME, ROOT, SEARCH_NAME, SEARCH_ROOT, TOP, TOP_NAME};
use crate::tables::{attachments, contents, hierarchy, recipients, root_hierarchy};
use mail_objects::Object;
use mapi_values::Units;
use pst_base::Nid;
use std::alloc::{AllocError, Global};

/// An id and the object of its node, or `None` for a node without data.
pub type Entry = (Nid, Option<Object>);

/// Puts an object at the end. An `Err` leaves a vector that is to be given up.
fn push(entries: &mut Vec<Entry>, bits: u32, object: Object) -> Result<(), AllocError>
    ensures { OnOk result (entries.new.items ≡ entries.old.items ++ (nid bits, Some object) ∷ []) }
{
    entries.push((Nid { bits }, Some(object)))?;
    Ok(())
}

/// Puts a node without data at the end. An `Err` leaves a vector that is to be given up.
fn push_bare(entries: &mut Vec<Entry>, bits: u32) -> Result<(), AllocError>
    ensures { OnOk result (entries.new.items ≡ entries.old.items ++ (nid bits, None) ∷ []) }
{
    entries.push((Nid { bits }, None))?;
    Ok(())
}

/// Puts the nodes of the root at the end. An `Err` leaves a vector that is to be given up.
fn push_root(alloc: Global, entries: &mut Vec<Entry>) -> Result<(), AllocError>
    ensures { OnOk result (entries.new.items ≡ entries.old.items ++ entries_of root_nodes) }
{
    let root = context(alloc, ROOT, root_props(alloc)?);
    push(entries, ROOT, root)?;
    push(entries, ROOT + 11, root_hierarchy(alloc)?)?;
    push(entries, ROOT + 12, contents(alloc)?)?;
    push(entries, ROOT + 13, contents(alloc)?)
}

/// Puts the templates of tables at the end. An `Err` leaves a vector that is to be given up.
fn push_templates(alloc: Global, entries: &mut Vec<Entry>) -> Result<(), AllocError>
    ensures { OnOk result (entries.new.items ≡ entries.old.items ++ entries_of template_nodes) }
{
    push(entries, 0x60D, hierarchy(alloc)?)?;
    push(entries, 0x60E, contents(alloc)?)?;
    push(entries, 0x60F, contents(alloc)?)?;
    push(entries, 0x610, contents(alloc)?)?;
    push(entries, 0x671, attachments(alloc)?)?;
    push(entries, 0x692, recipients(alloc)?)
}

/// Puts the nodes of a new folder in the root at the end. An `Err` leaves a vector that is to be given up.
fn push_folder(
    alloc: Global,
    entries: &mut Vec<Entry>,
    folder: u32,
    name: &[u8],
) -> Result<(), AllocError>
    requires { folder < 2 ^ 31 }
    ensures { OnOk result (entries.new.items ≡ entries.old.items ++ entries_of (folder_nodes folder name.now)) }
{
    let values = context(alloc, ROOT, folder_props(alloc, name)?);
    push(entries, folder, values)?;
    push(entries, folder + 11, hierarchy(alloc)?)?;
    push(entries, folder + 12, contents(alloc)?)?;
    push(entries, folder + 13, contents(alloc)?)
}

/// What stands at the ids of a new store of this name, ascending by id.
pub fn start_entries(alloc: Global, name: &Units) -> Result<Vec<Entry>, AllocError>
    ensures { IfOk result (λ entries. entries.items ≡ start_entries name.now) }
{
    let mut entries = Vec::with_capacity(alloc, 26)?;
    let store = context(alloc, 0, store_props(alloc, name)?);
    push(&mut entries, 0x21, store)?;
    let names = context(alloc, 0, names_props(alloc)?);
    push(&mut entries, 0x61, names)?;
    push_root(alloc, &mut entries)?;
    push_bare(&mut entries, 0x1E1)?;
    push_bare(&mut entries, 0x201)?;
    push_templates(alloc, &mut entries)?;
    push_folder(alloc, &mut entries, TOP, TOP_NAME)?;
    push_folder(alloc, &mut entries, SEARCH_ROOT, SEARCH_NAME)?;
    push_folder(alloc, &mut entries, DELETED, DELETED_NAME)?;
    Ok(entries)
}
