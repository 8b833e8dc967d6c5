//! What stands in a column's cell, and what is to stand there.
ghost use Rattle.std.specs.Prelude.{◌≡◌, ◌<◌, ◌^◌, length, true, option_copied};
ghost use Rattle.std.specs.List.{list_all, list_any};
ghost use Rattle.mapi_values.specs.Columns.{lies};
ghost use Rattle.mapi_values.specs.Properties.{ascend_from};
ghost use Rattle.row_edit.specs.Cells.{held, in_subnode, is_short, of_kind, pick};
ghost use Rattle.mapi_values.specs.Properties.{find};

use mapi_values::{Column, Props, Value, fixed_width};
use pst_base::u32_at;
use table_context::has_cell;

/// The value with an id, if it has this kind.
fn with_tag(values: &Props, id: u16, kind: u16) -> Option<&Value>
    ensures { option_copied result ≡ of_kind kind (find id values.now) }
{
    let value = values.get(id)?;
    if value.kind() == kind {
        Some(value)
    } else {
        None
    }
}

/// The value of a column among these, if there is one.
pub(crate) fn pick<'a>(values: &'a Props, column: &Column) -> Option<&'a Value>
    requires { ascend_from 0 values.now ≡ true }
    ensures { option_copied result ≡ pick values.now column.now }
{
    with_tag(values, column.tag.id, column.tag.kind)
}

/// The id that a column's cell holds, or 0 where it holds none.
#[tactic(auto, unfolding(crate::specs::Cells::held))]
pub(crate) fn held(row: &[u8], third: usize, column: &Column) -> u32
    requires { lies third (length row.now) column.now ≡ true }
    ensures { result ≡ held third row.now column.now }
{
    match fixed_width(column.tag.kind) {
        Some(_) => 0,
        None => {
            if has_cell(row, third, column) {
                u32_at(row, usize::from(column.at))
            } else {
                0
            }
        }
    }
}

/// Whether some cell of a row names a subnode.
pub(crate) fn has_subnode(row: &[u8], third: usize, columns: &[Column]) -> bool
    requires { list_all (lies third (length row.now)) columns.now ≡ true }
    ensures { result ≡ list_any (in_subnode third row.now) columns.now }
{
    for column in columns {
        if held(row, third, column) % 32 != 0 {
            return true;
        }
    }
    false
}

/// Whether a heap may hold each value.
pub(crate) fn are_short(values: &[Value]) -> bool
    ensures { result ≡ list_all is_short values.now }
{
    values.iter().all(|value| value.len() <= 3580)
}
