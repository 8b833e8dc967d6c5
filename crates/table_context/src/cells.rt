//! The values in the cells of a row.
ghost use Rattle.std.specs.Prelude.{◌≡◌, ◌≤◌, ◌<◌, ◌+◌, ◌/◌, length, true};
ghost use Rattle.std.specs.List.{list_all};
ghost use Rattle.pst_base.specs.Stops.{Finds};
ghost use Rattle.heap_on_node.specs.Heap.{item};
ghost use Rattle.mapi_values.specs.Columns.{cell_width, in_cell, lies};
ghost use Rattle.mapi_values.specs.Properties.{ascend_from};
ghost use Rattle.mapi_values.specs.Values.{fits};
ghost use Rattle.table_context.specs.Rows.{cell_of, cells_of, content, has_cell, is_set, value_in};
ghost use Rattle.node_values.specs.Subnodes.{data_of};

use heap_on_node::HeapView;
use mapi_values::tags::ID_LTP_ROW_ID;
use mapi_values::{Column, Tag, Value, fits, fixed_width};
use node_values::{Absent, Finder, named_bytes};
use pst_base::{Bytes, MemOr, part, u32_at};
use std::alloc::Global;

/// Whether an existence bit is set, in a row whose existence bits begin at `from`.
#[tactic(auto, unfolding(crate::specs::Rows::is_set))]
fn is_set(row: &[u8], from: usize, bit: u8) -> bool
    requires { from + bit / 8 < length row.now }
    ensures { result ≡ is_set from row.now bit }
{
    (row[from + usize::from(bit / 8)] >> (7 - bit % 8)) % 2 == 1
}

/// Whether a row has a value in a column's cell.
#[tactic(auto, unfolding(crate::specs::Rows::has_cell))]
pub fn has_cell(row: &[u8], from: usize, column: &Column) -> bool
    requires { from + column.now.bit / 8 < length row.now }
    ensures { result ≡ has_cell from row.now column.now }
{
    column.tag.id != ID_LTP_ROW_ID && is_set(row, from, column.bit)
}

/// The bytes of the value in a column's cell.
fn content(
    alloc: Global,
    h: &HeapView,
    subs: &Finder,
    row: &[u8],
    column: &Column,
) -> Result<Bytes, MemOr<Absent>>
    requires { column.now.at + cell_width column.now.tag.kind ≤ length row.now }
    ensures { Finds (λ x. x) result (content (item h.now) (data_of subs.now) row.now column.now.at (in_cell column.now.tag.kind)) }
{
    let at = usize::from(column.at);
    match fixed_width(column.tag.kind) {
        Some(width) => Ok(Bytes::from_slice(alloc, part(row, at, width))?),
        None => named_bytes(alloc, h, subs, u32_at(row, at)),
    }
}

/// The value of these bytes in a column, if its kind may have so many.
#[tactic(auto, unfolding(crate::specs::Rows::value_in))]
fn value_in(column: &Column, bytes: Bytes) -> Result<Value, MemOr<Absent>>
    ensures { Finds (λ v. v) result (value_in column.now bytes) }
{
    let tag = Tag {
        id: column.tag.id,
        kind: column.tag.kind,
    };
    if !fits(tag.kind, bytes.len()) {
        return Err(MemOr::Refused(Absent));
    }
    Ok(Value::new(tag, bytes))
}

/// The value in a column's cell.
#[tactic(auto, unfolding(crate::specs::Rows::cell_of))]
fn cell(
    alloc: Global,
    h: &HeapView,
    subs: &Finder,
    row: &[u8],
    column: &Column,
) -> Result<Value, MemOr<Absent>>
    requires { column.now.at + cell_width column.now.tag.kind ≤ length row.now }
    ensures { Finds (λ v. v) result (cell_of (item h.now) (data_of subs.now) row.now column.now) }
{
    let bytes = content(alloc, h, subs, row, column)?;
    value_in(column, bytes)
}

/// The values in the cells of a row, whose existence bits begin at `from`.
pub fn cells(
    alloc: Global,
    h: &HeapView,
    subs: &Finder,
    columns: &[Column],
    from: usize,
    row: &[u8],
) -> Result<Vec<Value>, MemOr<Absent>>
    requires { list_all (lies from (length row.now)) columns.now ≡ true }
    ensures { Finds (λ v. v.items) result (cells_of (item h.now) (data_of subs.now) from row.now columns.now) }
{
    let mut values = Vec::new(alloc);
    for column in columns {
        if has_cell(row, from, column) {
            values.push(cell(alloc, h, subs, row, column)?)?;
        }
    }
    Ok(values)
}

/// Whether the ids of values ascend strictly.
pub fn values_ascend(values: &[Value]) -> bool
    ensures { result ≡ ascend_from 0 values.now }
{
    let mut low = 0u32;
    for value in values {
        let id = u32::from(value.id());
        if id < low {
            return false;
        }
        low = id + 1;
    }
    true
}
