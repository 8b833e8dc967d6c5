//! The list of a search with other rows.
ghost use Rattle.std.specs.Prelude.{◌≡◌, ℕ, List, IfOk};
ghost use Rattle.mapi_values.specs.Values.{Val};
ghost use Rattle.mail_draft.specs.Sight.{Changes, Drafts};
ghost use Rattle.mail_searches.specs.Relisting.{counted_search, with_results};
ghost use Rattle.mail_searches.specs.Searches.{results, row_ids};

use crate::counting::tallied;
use crate::desk::SearchDesk;
use mail_draft::on_desk::put_context;
use mail_draft::{Desk, Stop, with_counts};
use mail_folders::FolderDesk;
use mail_objects::{Object, TableNode};
use mapi_values::Table;
use pst_base::{Nid, make_nid};
use std::alloc::{AllocError, Global};

/// The table of what a search lists.
pub fn results_table(search: Nid) -> Nid
    ensures { result.bits ≡ results search.bits }
{
    make_nid(0x10, search.index())
}

/// The ids of a table's rows.
fn row_ids(alloc: Global, table: &Table) -> Result<Vec<u32>, AllocError>
    ensures { IfOk result (λ ids. ids.items ≡ row_ids table.now.rows) }
{
    let mut ids = Vec::with_capacity(alloc, table.rows().len())?;
    for row in table.rows() {
        ids.push(row.0)?;
    }
    Ok(ids)
}

/// Counts a search anew whose rows have these ids: the messages that they name, and those of them that weren't read.
fn counted_search<D: SearchDesk>(desk: &mut D, search: Nid, ids: &[u32]) -> Result<(), Stop>
    ensures drafts { Drafts (D.view desk.old) (D.view desk.new) result }
    ensures answer { (rows : List (ℕ × List Val)) → ids.now ≡ row_ids rows → Changes (D.view desk.old) (D.view desk.new) (λ T. counted_search T search.bits rows) result }
{
    let alloc = desk.alloc();
    let context = desk.context(search)?;
    let count = tallied(desk, ids)?;
    let old_props = context.props().copy(alloc)?;
    let props = with_counts(alloc, old_props, count.messages, count.unread, false)?;
    put_context(desk, search, context, props)
}

/// A search whose list is this table: the table is put, the search is counted anew, and the row that shows it is in order. A message is read only where nothing is known of it.
pub fn with_results<D: SearchDesk>(desk: &mut D, search: Nid, table: TableNode) -> Result<(), Stop>
    ensures drafts { Drafts (D.view desk.old) (D.view desk.new) result }
    ensures answer { Changes (D.view desk.old) (D.view desk.new) (λ T. with_results T search.bits table.table.rows table) result }
{
    let ids = row_ids(desk.alloc(), table.table())?;
    desk.put(results_table(search), Some(Object::Table(table)))?;
    counted_search(desk, search, ids.as_slice())?;
    desk.mirror(search)
}
