//! Tables that get columns.
ghost use Rattle.std.specs.Prelude.{◌≡◌, ◌≤◌, ℕ, true, None, Some, nat_lt, IfOk, OnOk, length, if◌then◌else◌};
ghost use Rattle.mapi_values.specs.Columns.{has_column, tag_number};
ghost use Rattle.mapi_values.specs.Keyed.{keys_ascend};
ghost use Rattle.column_layout.specs.Layout.{completed, has_columns, has_tag, laid_out, unplaced, with_column, with_columns};

use crate::places::{all_placed, placed_ends};
use mapi_values::{Column, Keyed, Table, Tag, find_keyed, put_keyed};
use std::alloc::{AllocError, Global};

/// How many columns a table may have that is written.
const MOST_COLUMNS: usize = 255;

/// A column without a place.
fn unplaced(tag: Tag) -> Column
    ensures { result ≡ unplaced tag }
{
    Column {
        tag,
        at: 0,
        width: 0,
        bit: 0,
    }
}

/// Whether there is a column of this tag.
fn has_tag(columns: &[Column], tag: Tag) -> bool
    requires { keys_ascend tag_number 0 columns.now ≡ true }
    ensures { result ≡ has_tag columns.now tag }
{
    find_keyed(columns, unplaced(tag).key()).is_some()
}

/// Whether there is a column of each of these tags. The columns ascend strictly by tag.
pub fn has_columns(columns: &[Column], tags: &[Tag]) -> bool
    requires { keys_ascend tag_number 0 columns.now ≡ true }
    ensures { result ≡ has_columns columns.now tags.now }
{
    tags.iter().all(|tag| has_tag(columns, *tag))
}

/// Adds a column of this tag where there is none.
fn add_column(columns: &mut Vec<Column>, tag: Tag) -> Result<(), AllocError>
    requires { keys_ascend tag_number 0 columns.old.items ≡ true }
    ensures { OnOk result (columns.new.items ≡ with_column columns.old.items tag) }
{
    if has_tag(columns.as_slice(), tag) {
        return Ok(());
    }
    put_keyed(columns, unplaced(tag))
}

/// The columns and those of these tags.
fn with_columns(alloc: Global, columns: &[Column], tags: &[Tag]) -> Result<Vec<Column>, AllocError>
    requires { keys_ascend tag_number 0 columns.now ≡ true }
    ensures columns { IfOk result (λ all. all.items ≡ with_columns tags.now columns.now) }
    ensures ascend { IfOk result (λ all. keys_ascend tag_number 0 all.items ≡ true) }
    ensures more { IfOk result (λ all. (id kind : ℕ) → has_column columns.now id kind ≡ true → has_column all.items id kind ≡ true) }
{
    let mut all = Vec::from_slice(alloc, columns)?;
    for tag in tags {
        add_column(&mut all, *tag)?;
    }
    Ok(all)
}

/// The table with these columns in place of its own, laid out anew.
fn laid_out(alloc: Global, columns: &[Column], table: Table) -> Result<Table, AllocError>
    requires few { length columns.now ≤ 255 }
    requires ascend { keys_ascend tag_number 0 columns.now ≡ true }
    requires more { (id kind : ℕ) → has_column table.columns id kind ≡ true → has_column columns.now id kind ≡ true }
    ensures { IfOk result (λ t. t ≡ laid_out columns.now table) }
{
    let placed = all_placed(alloc, columns)?;
    let ends = placed_ends(columns);
    Ok(Table::from_parts(placed, ends, table.rows, table.kept))
}

/// The table with the columns of these tags that it lacks; `None` where it would have more than 255. It is laid out anew unless it lacks none: the row id and the row version keep their places, then come the other cells of 8 and 4 bytes, those of 2 bytes and those of 1 byte, each group ascending by tag, and then the existence bits in this order. The rows keep their cells. The table is lost with an `Err`.
pub fn completed(alloc: Global, tags: &[Tag], table: Table) -> Result<Option<Table>, AllocError>
    ensures { IfOk result (λ t. t ≡ (if nat_lt 255 (length (with_columns tags.now table.columns)) then None else Some (completed tags.now table))) }
{
    let columns = with_columns(alloc, table.columns(), tags)?;
    if columns.len() > MOST_COLUMNS {
        return Ok(None);
    }
    if has_columns(table.columns(), tags) {
        return Ok(Some(table));
    }
    Ok(Some(laid_out(alloc, columns.as_slice(), table)?))
}
