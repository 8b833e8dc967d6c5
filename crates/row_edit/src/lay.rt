//! Laying the bytes of a row.
ghost use Rattle.std.specs.Prelude.{◌≡◌, ◌≤◌, ◌<◌, ◌+◌, ◌-◌, ◌*◌, ◌++◌, ℕ, length, IfOk, true, false, get_or};
ghost use Rattle.mapi_values.specs.Columns.{cell_width, is_layout, suits_cell};
ghost use Rattle.mapi_values.specs.Tables.{cells_suit};
ghost use Rattle.table_writer.specs.Bits.{bits};
ghost use Rattle.table_writer.specs.Filling.{Suited, no_column};
ghost use Rattle.row_edit.specs.Cells.{Filled, FillsColumn, IsCell, PutsValue};

use crate::pick::pick;
use mapi_values::tags::PID_TAG_LTP_ROW_ID;
use mapi_values::{Column, Props, Value, fixed_width};
use pst_base::Bytes;
use std::alloc::{AllocError, Global};
use table_writer::{no_marks, push_bits, put, zeros};

/// Puts a value into its cell: itself where its kind has a width, or else what names it.
fn put_value(front: &mut [u8], at: usize, value: &Value, hnid: u32)
    requires room { at + cell_width value.now.kind ≤ length front.old }
    requires suits { suits_cell value.now.kind (length value.now.bytes) ≡ true }
    ensures { PutsValue at value.now hnid front.old front.new }
{
    match fixed_width(value.kind()) {
        Some(_) => put(front, at, value.bytes()),
        None => put(front, at, &hnid.to_le_bytes()),
    }
}

/// Fills the cell of column `i` and marks its existence bit: with the row id, or with the column's value if there is one.
fn fill_column(
    columns: &[Column],
    i: usize,
    id: u32,
    values: &Props,
    hnid: u32,
    front: &mut [u8],
    marks: &mut [bool],
    count: usize,
)
    requires suited { Suited (length front.old) count columns.now values.now }
    requires inside { i < length columns.now }
    requires marks { length marks.old ≡ 8 * count }
    requires clear { get_or marks.old (get_or columns.now i no_column).bit false ≡ false }
    ensures { FillsColumn (length front.old) count id hnid values.now (get_or columns.now i no_column) front.old front.new marks.old marks.new }
{
    let column = &columns[i];
    let kind = column.tag.kind;
    let _ = kind;
    if column.is_of(PID_TAG_LTP_ROW_ID.id, PID_TAG_LTP_ROW_ID.kind) {
        put(front, usize::from(column.at), &id.to_le_bytes());
        marks[usize::from(column.bit)] = true;
        return;
    }
    match pick(values, column) {
        Some(value) => {
            put_value(front, usize::from(column.at), value, hnid);
            marks[usize::from(column.bit)] = true;
        }
        None => {}
    }
}

/// Fills the cells of a row and marks its existence bits.
fn fill(
    columns: &[Column],
    id: u32,
    values: &Props,
    ids: &[u32],
    front: &mut [u8],
    marks: &mut [bool],
    count: usize,
)
    requires suited { Suited (length front.old) count columns.now values.now }
    requires ids { length ids.now ≡ length columns.now }
    requires filled { Filled (length front.old) count id values.now columns.now ids.now 0 front.old marks.old }
    ensures { Filled (length front.old) count id values.now columns.now ids.now (length columns.now) front.new marks.new }
{
    for i in 0..columns.len() {
        fill_column(columns, i, id, values, ids[i], front, marks, count);
    }
}

/// The bytes of a row with this id and these values, of which those that don't stand in the row itself are named by the id of their column's place.
pub(crate) fn laid(
    alloc: Global,
    columns: &[Column],
    ends: &[u16; 4],
    id: u32,
    values: &Props,
    ids: &[u32],
) -> Result<Bytes, AllocError>
    requires layout { is_layout columns.now ends.now ≡ true }
    requires suit { cells_suit columns.now values.now ≡ true }
    requires ids { length ids.now ≡ length columns.now }
    ensures cells { IfOk result (λ new. (k : ℕ) → k < length columns.now → IsCell (get_or ends.now 2 0) id (get_or ids.now k 0) values.now new (get_or columns.now k no_column)) }
    ensures size { IfOk result (λ new. length new ≡ get_or ends.now 3 0) }
{
    let (third, fourth) = (usize::from(ends[2]), usize::from(ends[3]));
    let count = fourth - third;
    let mut row = zeros(alloc, third, fourth)?;
    let mut marks = no_marks(alloc, 8 * count)?;
    fill(
        columns,
        id,
        values,
        ids,
        row.as_mut_slice(),
        marks.as_mut_slice(),
        count,
    );
    push_bits(&mut row, marks.as_slice(), count)?;
    Ok(Bytes::from_vec(row))
}
