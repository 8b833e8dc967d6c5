//! The root item of a table.
ghost use Rattle.std.specs.Prelude.{◌≡◌, ◌≤◌, ◌+◌, ◌*◌, ◌==◌, ◌&&◌, IfOk, length, get_or, nat_le};
ghost use Rattle.pst_base.specs.Stops.{Finds};
ghost use Rattle.table_context.specs.Header.{column_at, columns_at, columns_of, ends_in, has_form, names_index};
ghost use Rattle.mapi_values.specs.Columns.{is_layout};

use crate::read::TABLE_CONTEXT;
use mapi_values::{Column, Tag, is_layout};
use node_values::Absent;
use pst_base::{MemOr, u8_at, u16_at};
use std::alloc::{AllocError, Global};

/// Whether an item begins as the header of a table does, and is long enough to name a row index ([MS-PST] 2.3.4.1).
#[tactic(auto, unfolding(crate::specs::Header::names_index))]
pub fn names_index(x: &[u8]) -> bool
    ensures { result ≡ names_index x.now }
{
    x.len() >= 22 && u8_at(x, 0) == TABLE_CONTEXT
}

/// The column that 8 bytes from a place on describe ([MS-PST] 2.3.4.2).
fn column_at(x: &[u8], at: usize) -> Column
    requires { at + 8 ≤ length x.now }
    ensures { result ≡ column_at at x.now }
{
    Column {
        tag: Tag {
            id: u16_at(x, at + 2),
            kind: u16_at(x, at),
        },
        at: u16_at(x, at + 4),
        width: u8_at(x, at + 6),
        bit: u8_at(x, at + 7),
    }
}

/// So many columns, from the end of the fixed fields on.
fn columns_from(alloc: Global, x: &[u8], count: usize) -> Result<Vec<Column>, AllocError>
    requires { 22 + 8 * count ≤ length x.now }
    ensures { IfOk result (λ columns. columns.items ≡ columns_at count 22 x.now) }
{
    let mut columns = Vec::with_capacity(alloc, count)?;
    for i in 0..count {
        columns.push(column_at(x, 22 + 8 * i))?;
    }
    Ok(columns)
}

/// The end offsets of a row.
pub fn ends(x: &[u8]) -> [u16; 4]
    requires { 22 ≤ length x.now }
    ensures { result ≡ ends_in x.now }
{
    [u16_at(x, 2), u16_at(x, 4), u16_at(x, 6), u16_at(x, 8)]
}

/// Whether the item ends with the last of so many columns.
fn ends_there(x: &[u8], count: u8) -> bool
    ensures { result ≡ (length x.now == 22 + 8 * count) }
{
    x.len() == 22 + 8 * usize::from(count)
}

/// Whether a row has from 1 to 8176 bytes, and the columns a layout in it.
fn fit(columns: &[Column], ends: &[u16; 4]) -> bool
    ensures { result ≡ (nat_le 1 (get_or ends.now 3 0) && (nat_le (get_or ends.now 3 0) 8176 && is_layout columns.now ends.now)) }
{
    1 <= ends[3] && ends[3] <= 8176 && is_layout(columns, ends)
}

/// The columns of a table's header, if it is one.
#[tactic(auto, unfolding(crate::specs::Header::has_form))]
pub fn columns(alloc: Global, x: &[u8]) -> Result<Vec<Column>, MemOr<Absent>>
    requires { 22 ≤ length x.now }
    ensures { Finds (λ columns. columns.items) result (columns_of x.now) }
{
    let count = u8_at(x, 1);
    if !ends_there(x, count) {
        return Err(MemOr::Refused(Absent));
    }
    let columns = columns_from(alloc, x, usize::from(count))?;
    if !fit(columns.as_slice(), &ends(x)) {
        return Err(MemOr::Refused(Absent));
    }
    Ok(columns)
}
