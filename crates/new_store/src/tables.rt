//! The tables of a new store.
ghost use Rattle.std.specs.Prelude.{◌≡◌, IfOk};
ghost use Rattle.mapi_values.specs.Tables.{mirror, put_row};
ghost use Rattle.mail_objects.specs.declared.object.Object.TheVariants.{Table as TableOf};
ghost use Rattle.mail_tree.specs.Columns.{attachments_table, contents_table, hierarchy_table, recipients_table};
ghost use Rattle.mail_tree.specs.Start.{root_hierarchy};
ghost use Rattle.mail_tree.specs.Values.{folder_props};

use crate::contexts::folder_props;
use crate::folders::{DELETED, DELETED_NAME, SEARCH_NAME, SEARCH_ROOT, TOP, TOP_NAME};
use mail_objects::{Object, TableNode};
use mail_tree::{attachments_table, contents_table, hierarchy_table, recipients_table};
use std::alloc::{AllocError, Global};

/// The table of a folder's folders, of which there are none.
pub fn hierarchy(alloc: Global) -> Result<Object, AllocError>
    ensures { IfOk result (λ object. object ≡ TableOf hierarchy_table) }
{
    Ok(Object::Table(hierarchy_table(alloc)?))
}

/// The table of a folder's messages, of which there are none.
pub fn contents(alloc: Global) -> Result<Object, AllocError>
    ensures { IfOk result (λ object. object ≡ TableOf contents_table) }
{
    Ok(Object::Table(contents_table(alloc)?))
}

/// The table of a message's recipients, of which there are none.
pub fn recipients(alloc: Global) -> Result<Object, AllocError>
    ensures { IfOk result (λ object. object ≡ TableOf recipients_table) }
{
    Ok(Object::Table(recipients_table(alloc)?))
}

/// The table of a message's attachments, of which there are none.
pub fn attachments(alloc: Global) -> Result<Object, AllocError>
    ensures { IfOk result (λ object. object ≡ TableOf attachments_table) }
{
    Ok(Object::Table(attachments_table(alloc)?))
}

/// A table with the row that shows a new folder of this name. The table is lost with an `Err`.
fn with_folder(
    alloc: Global,
    table: TableNode,
    folder: u32,
    name: &[u8],
) -> Result<TableNode, AllocError>
    ensures { IfOk result (λ t. t ≡ record table { table = record table.table { rows = put_row folder (mirror table.table.columns (folder_props name.now)) table.table.rows } }) }
{
    let props = folder_props(alloc, name)?;
    table.with_row(alloc, folder, &props)
}

/// The root's table of folders: the three that stand in it.
#[tactic(auto, unfolding(mail_tree::specs::Start::root_hierarchy))]
pub fn root_hierarchy(alloc: Global) -> Result<Object, AllocError>
    ensures { IfOk result (λ object. object ≡ root_hierarchy) }
{
    let table = hierarchy_table(alloc)?;
    let table = with_folder(alloc, table, TOP, TOP_NAME)?;
    let table = with_folder(alloc, table, SEARCH_ROOT, SEARCH_NAME)?;
    let table = with_folder(alloc, table, DELETED, DELETED_NAME)?;
    Ok(Object::Table(table))
}
