//! The list of a search, made anew where it is wrong.
ghost use Rattle.std.specs.Prelude.{◌≡◌, ◌==◌, [], IfOk, nat_eq, option_copied};
ghost use Rattle.std.specs.Cmp.Lexicographic.{pointwise};
ghost use Rattle.mapi_values.specs.Tables.{IsTable};
ghost use Rattle.store_session.specs.mail_draft.Sight.{Answers, Reads};
ghost use Rattle.mail_searches.specs.Building.{built_rows};
ghost use Rattle.mail_searches.specs.Searches.{find_search, row_ids, search_id};
ghost use Rattle.search_mending.specs.Mending.{list_if_wrong, list_of_any, or_stood, with_other_rows, with_stood};
ghost use Rattle.search_mends.specs.Mendings.{AnswersWhole};

use mail_objects::TableNode;
use mail_searches::{OwnSearch, Searches};
use mapi_values::{Props, Table};
use pst_base::{Ledger, Nid, Steps};
use std::alloc::{AllocError, Global};
use store_session::mail_draft::{Desk, Stop};
use store_session::search_folders::find_below;
use store_session::search_results::results_table;

/// Whether a search is that of this folder.
fn is_of(search: &OwnSearch, folder: Nid) -> bool
    ensures { result ≡ (search_id search.now == folder.bits) }
{
    search.nid.bits == folder.bits
}

/// The search of this folder, if it has criteria. Takes no memory.
fn find_search(searches: &Searches, folder: Nid) -> Option<&OwnSearch>
    ensures { option_copied result ≡ find_search folder.bits searches.now }
{
    for search in searches.as_slice() {
        if is_of(search, folder) {
            return Some(search);
        }
    }
    None
}

/// A table without rows, with the columns of this one.
fn without_rows(alloc: Global, table: &Table) -> Result<Table, AllocError>
    ensures columns { IfOk result (λ t. t.columns ≡ table.now.columns) }
    ensures rows { IfOk result (λ t. t.rows ≡ []) }
{
    let columns = Vec::from_slice(alloc, table.columns())?;
    Ok(Table::new(alloc, columns, table.ends()))
}

/// A table with the columns of this one and the rows that the search is to have.
fn build<D: Desk, L: Ledger>(
    desk: &mut D,
    search: &OwnSearch,
    stood: &Table,
    steps: &mut Steps<L>,
) -> Result<Table, Stop>
    ensures reads { Reads (D.view desk.old) (D.view desk.new) result }
    ensures answer { Answers (D.view desk.old) (λ t. t.rows) (λ T c. built_rows T search.now stood.now.columns) result }
    ensures columns { IfOk result (λ t. t.columns ≡ stood.now.columns) }
{
    let mut table = without_rows(desk.alloc(), stood)?;
    find_below(desk, search, &mut table, steps)?;
    Ok(table)
}

/// The ids of a table's rows.
fn row_ids(alloc: Global, table: &Table) -> Result<Vec<u32>, AllocError>
    ensures { IfOk result (λ ids. ids.items ≡ row_ids table.now.rows) }
{
    table.rows().iter().map(|row| row.0).collect(alloc)
}

/// Whether two tables have rows of the same ids.
fn have_same_ids(alloc: Global, one: &Table, other: &Table) -> Result<bool, AllocError>
    ensures { IfOk result (λ same. same ≡ pointwise nat_eq (row_ids one.now.rows) (row_ids other.now.rows)) }
{
    let ids = row_ids(alloc, one)?;
    let others = row_ids(alloc, other)?;
    Ok(ids.as_slice() == others.as_slice())
}

/// The row that stood there, or else this one.
fn or_stood(
    alloc: Global,
    row: &(u32, Props),
    stood: Option<&(u32, Props)>,
) -> Result<(u32, Props), AllocError>
    ensures { IfOk result (λ r. r ≡ or_stood row.now (option_copied stood.entry)) }
{
    let kept = stood.unwrap_or(row);
    Ok((kept.0, kept.1.copy(alloc)?))
}

/// These rows, of which each that stood in the table keeps its cells.
fn with_stood(
    alloc: Global,
    stood: &Table,
    built: &[(u32, Props)],
) -> Result<Vec<(u32, Props)>, AllocError>
    ensures { IfOk result (λ rows. rows.items ≡ with_stood stood.now.rows built.now) }
{
    let mut rows = Vec::with_capacity(alloc, built.len())?;
    for row in built {
        rows.push(or_stood(alloc, row, stood.row(row.0))?)?;
    }
    Ok(rows)
}

/// The table with these rows in place of its own.
fn with_rows(table: Table, rows: Vec<(u32, Props)>) -> Table
    requires { IsTable (record table { rows = rows.items }) }
    ensures { result ≡ record table { rows = rows.items } }
{
    let Table {
        columns,
        ends,
        rows: _,
        kept,
    } = table;
    Table::from_parts(columns, ends, rows, kept)
}

/// The list of a search with the rows that were built for it, of which those that stood keep their cells. The list is lost with an `Err`.
fn with_built(alloc: Global, node: TableNode, built: &Table) -> Result<TableNode, AllocError>
    requires { built.now.columns ≡ node.table.columns }
    ensures { IfOk result (λ t. t ≡ with_other_rows (with_stood node.table.rows built.now.rows) node) }
{
    let parent = node.parent();
    let stood = node.into_table();
    let rows = with_stood(alloc, &stood, built.rows())?;
    Ok(TableNode::new(parent, with_rows(stood, rows)))
}

/// The list of a search made anew, if the search runs and its list has other rows than filtering all messages gives. Rows that stay keep their cells.
#[tactic(auto, unfolding(search_mending::specs::Mending::list_if_wrong, search_mending::specs::Mending::list_anew))]
fn list_if_wrong<D: Desk, L: Ledger>(
    desk: &mut D,
    search: &OwnSearch,
    steps: &mut Steps<L>,
) -> Result<Option<TableNode>, Stop>
    ensures reads { Reads (D.view desk.old) (D.view desk.new) result }
    ensures answer { AnswersWhole (D.view desk.old) (λ T. list_if_wrong T search.now) result }
{
    if !search.runs() {
        return Ok(None);
    }
    let node = desk.table_before(results_table(search.nid))?;
    let built = build(desk, search, node.table(), steps)?;
    let same = have_same_ids(desk.alloc(), node.table(), &built)?;
    if same {
        return Ok(None);
    }
    let list = with_built(desk.alloc(), node, &built)?;
    Ok(Some(list))
}

/// The same of the search of a folder, if it has criteria.
pub(crate) fn list_of_any<D: Desk, L: Ledger>(
    desk: &mut D,
    searches: &Searches,
    search: Nid,
    steps: &mut Steps<L>,
) -> Result<Option<TableNode>, Stop>
    ensures reads { Reads (D.view desk.old) (D.view desk.new) result }
    ensures answer { AnswersWhole (D.view desk.old) (λ T. list_of_any T (find_search search.bits searches.now)) result }
{
    match find_search(searches, search) {
        Some(found) => list_if_wrong(desk, found, steps),
        None => Ok(None),
    }
}
