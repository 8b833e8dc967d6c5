//! The row of a table that shows an object.
ghost use Rattle.std.specs.Prelude.{◌≡◌, IfOk, IsTrue, OnOk};
ghost use Rattle.mapi_values.specs.Properties.{IsProps};
ghost use Rattle.std.specs.List.{filter, list_all};
ghost use Rattle.mapi_values.specs.Tables.{cells_suit, is_mirrored, mirror, value_suits, version};

use crate::column::{Column, has_column, suits_cell};
use crate::props::Props;
use crate::tags::{ID_LTP_ROW_ID, ID_LTP_ROW_VER, PID_TAG_LTP_ROW_VER};
use crate::value::Value;
use pst_base::Bytes;
use std::alloc::{AllocError, Global};

/// Whether a value may stand in a cell: a column has its id and kind, it isn't the row id, and it has the cell's length where the cell is fixed.
#[tactic(auto, unfolding(crate::specs::Tables::value_suits))]
fn value_suits(columns: &[Column], value: &Value) -> bool
    ensures { result ≡ value_suits columns.now value.now }
{
    has_column(columns, value.id(), value.kind())
        && value.id() != ID_LTP_ROW_ID
        && suits_cell(value.kind(), value.len())
}

/// Whether each value may stand in a cell.
fn all_suit(columns: &[Column], values: &[Value]) -> bool
    ensures { result ≡ list_all (value_suits columns.now) values.now }
{
    values.iter().all(|value| value_suits(columns, value))
}

/// Whether the cells may stand in a row: each has a column of its id and kind other than the row id, and the cell's length where the cell is fixed.
#[tactic(auto, unfolding(crate::specs::Tables::cells_suit))]
pub fn cells_suit(columns: &[Column], cells: &Props) -> bool
    ensures { result ≡ cells_suit columns.now cells.now }
{
    all_suit(columns, cells.values())
}

/// Whether a value of an object stands in the row that shows it.
#[tactic(auto, unfolding(crate::specs::Tables::is_mirrored))]
fn is_mirrored(columns: &[Column], value: &Value) -> bool
    ensures { result ≡ is_mirrored columns.now value.now }
{
    value_suits(columns, value) && value.id() != ID_LTP_ROW_VER && value.len() <= 3580
}

/// The values of an object that stand in the row that shows it.
fn mirrored(alloc: Global, columns: &[Column], props: &Props) -> Result<Props, AllocError>
    ensures cells { IfOk result (λ cells. cells ≡ filter (is_mirrored columns.now) props.now) }
    ensures props { OnOk result (IsProps props.now) }
{
    let mut cells = Vec::new(alloc);
    for value in props.values() {
        if is_mirrored(columns, value) {
            cells.push(value.copy(alloc)?)?;
        }
    }
    Ok(Props::from_vec(cells))
}

/// The row version of a row that is written.
fn make_version(alloc: Global) -> Result<Value, AllocError>
    ensures { IfOk result (λ value. value ≡ version) }
{
    Ok(Value::new(PID_TAG_LTP_ROW_VER, Bytes::from_slice(alloc, &[0; 4])?))
}

/// The cells of the row that shows an object in a table with these columns ([MS-PST] 2.3.4): its values of the columns' ids and kinds, of at most 3580 bytes and of the cell's length where the cell is fixed. The row id 67F2 is no cell, and the row version 67F3 is 0 where it is a column.
#[tactic(auto, unfolding(crate::specs::Tables::mirror))]
pub fn mirror(alloc: Global, columns: &[Column], props: &Props) -> Result<Props, AllocError>
    ensures cells { IfOk result (λ cells. cells ≡ mirror columns.now props.now) }
    ensures suit { IfOk result (λ cells. IsTrue (cells_suit columns.now cells)) }
{
    let mut cells = mirrored(alloc, columns, props)?;
    if !has_column(columns, PID_TAG_LTP_ROW_VER.id, PID_TAG_LTP_ROW_VER.kind) {
        return Ok(cells);
    }
    cells.put(make_version(alloc)?)?;
    Ok(cells)
}
