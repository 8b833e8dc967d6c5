//! The places of columns in a row that is laid out anew.
ghost use Rattle.std.specs.Prelude.{◌≡◌, ◌≤◌, ◌*◌, IfOk, length, map};
ghost use Rattle.column_layout.specs.Layout.{IsOneOf, count_where, first_bit, group, group_end, is_row_column, is_row_id, is_row_version, placed, placed_ends, precedes, widths_where, within_group};

use mapi_values::tags::{PID_TAG_LTP_ROW_ID, PID_TAG_LTP_ROW_VER};
use mapi_values::{Column, Keyed, cell_width, has_column};
use std::alloc::{AllocError, Global};

/// Whether the column is the row id.
fn is_row_id(column: &Column) -> bool
    ensures { result ≡ is_row_id column.now }
{
    column.is_of(PID_TAG_LTP_ROW_ID.id, PID_TAG_LTP_ROW_ID.kind)
}

/// Whether the column is the row version.
fn is_row_version(column: &Column) -> bool
    ensures { result ≡ is_row_version column.now }
{
    column.is_of(PID_TAG_LTP_ROW_VER.id, PID_TAG_LTP_ROW_VER.kind)
}

/// Whether the column is the row id or the row version.
#[tactic(auto, unfolding(crate::specs::Layout::is_row_column))]
fn is_row_column(column: &Column) -> bool
    ensures { result ≡ is_row_column column.now }
{
    is_row_id(column) || is_row_version(column)
}

/// The group of a column: cells of 8 and 4 bytes, of 2 bytes, or of 1 byte.
#[tactic(auto, unfolding(crate::specs::Layout::group))]
fn group(column: &Column) -> u8
    ensures { result ≡ group column.now }
{
    let width = cell_width(column.tag.kind);
    if width >= 4 {
        0
    } else if width == 2 {
        1
    } else {
        2
    }
}

/// Whether the cell of another column stands before that of this one, behind the row id and the row version.
#[tactic(auto, unfolding(crate::specs::Layout::precedes))]
fn precedes(column: &Column, other: &Column) -> bool
    ensures { result ≡ precedes column.now other.now }
{
    !is_row_column(other)
        && (group(other) < group(column)
            || (group(other) == group(column) && other.key() < column.key()))
}

/// Whether the cell of a column stands in one of the groups up to this one.
#[tactic(auto, unfolding(crate::specs::Layout::within_group))]
fn is_within(last: u8, column: &Column) -> bool
    ensures { result ≡ within_group last column.now }
{
    !is_row_column(column) && group(column) <= last
}

/// How many bytes the cells before that of a column take.
fn widths_before(columns: &[Column], column: &Column) -> u16
    requires { length columns.now ≤ 255 }
    ensures { result ≡ widths_where (precedes column.now) columns.now }
{
    let mut total = 0;
    for other in columns {
        if precedes(column, other) {
            total += cell_width(other.tag.kind) as u16;
        }
    }
    total
}

/// How many cells stand before that of a column.
fn count_before(columns: &[Column], column: &Column) -> u8
    requires { length columns.now ≤ 255 }
    ensures { result ≡ count_where (precedes column.now) columns.now }
{
    let mut count = 0;
    for other in columns {
        if precedes(column, other) {
            count += 1;
        }
    }
    count
}

/// How many bytes the cells of the groups up to this one take.
fn widths_within(columns: &[Column], last: u8) -> u16
    requires { length columns.now ≤ 255 }
    ensures { result ≡ widths_where (within_group last) columns.now }
{
    let mut total = 0;
    for column in columns {
        if is_within(last, column) {
            total += cell_width(column.tag.kind) as u16;
        }
    }
    total
}

/// How many cells there are but for the row id and the row version.
fn count_cells(columns: &[Column]) -> u8
    requires { length columns.now ≤ 255 }
    ensures { result ≡ count_where (within_group 2) columns.now }
{
    let mut count = 0;
    for column in columns {
        if is_within(2, column) {
            count += 1;
        }
    }
    count
}

/// How many existence bits, and cells of 4 bytes, are kept for the row id and the row version.
#[tactic(auto, unfolding(crate::specs::Layout::first_bit))]
fn first_bit(columns: &[Column]) -> u8
    ensures value { result ≡ first_bit columns.now }
    ensures few { result ≤ 2 }
{
    if has_column(columns, PID_TAG_LTP_ROW_VER.id, PID_TAG_LTP_ROW_VER.kind) {
        2
    } else if has_column(columns, PID_TAG_LTP_ROW_ID.id, PID_TAG_LTP_ROW_ID.kind) {
        1
    } else {
        0
    }
}

/// The column with its place among these, of which it is one.
#[tactic(auto, unfolding(crate::specs::Layout::placed))]
fn placed(columns: &[Column], column: Column) -> Column
    requires few { length columns.now ≤ 255 }
    requires one { IsOneOf columns.now column }
    ensures { result ≡ placed columns.now column }
{
    if is_row_id(&column) {
        return Column {
            tag: column.tag,
            at: 0,
            width: 4,
            bit: 0,
        };
    }
    if is_row_version(&column) {
        return Column {
            tag: column.tag,
            at: 4,
            width: 4,
            bit: 1,
        };
    }
    let first = first_bit(columns);
    Column {
        tag: column.tag,
        at: 4 * u16::from(first) + widths_before(columns, &column),
        width: cell_width(column.tag.kind) as u8,
        bit: first + count_before(columns, &column),
    }
}

/// All columns with their places.
pub(crate) fn all_placed(alloc: Global, columns: &[Column]) -> Result<Vec<Column>, AllocError>
    requires { length columns.now ≤ 255 }
    ensures { IfOk result (λ all. all.items ≡ map (placed columns.now) columns.now) }
{
    let mut all = Vec::with_capacity(alloc, columns.len())?;
    for column in columns {
        all.push(placed(columns, *column))?;
    }
    Ok(all)
}

/// Where the cells of the groups up to this one end.
fn group_end(columns: &[Column], last: u8) -> u16
    requires { length columns.now ≤ 255 }
    ensures value { result ≡ group_end columns.now last }
    ensures few { result ≤ 2048 }
{
    4 * u16::from(first_bit(columns)) + widths_within(columns, last)
}

/// The end offsets of a row in which all columns have their places.
#[tactic(auto, unfolding(crate::specs::Layout::placed_ends))]
pub(crate) fn placed_ends(columns: &[Column]) -> [u16; 4]
    requires { length columns.now ≤ 255 }
    ensures { result ≡ placed_ends columns.now }
{
    let bits = u16::from(first_bit(columns)) + u16::from(count_cells(columns));
    let cells = group_end(columns, 2);
    [
        group_end(columns, 0),
        group_end(columns, 1),
        cells,
        cells + (bits + 7) / 8,
    ]
}
