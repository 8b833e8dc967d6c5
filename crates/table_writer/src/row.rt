//! Making the bytes of a row.
ghost use Rattle.std.specs.Prelude.{◌≡◌, ◌≤◌, ◌<◌, ◌+◌, ◌-◌, ◌*◌, ◌^◌, ◌++◌, length, IfOk, OnOk, true, false, get_or, replicate};
ghost use Rattle.pst_base.specs.Fields.{replaced};
ghost use Rattle.mapi_values.specs.Columns.{cell_width, is_layout, suits_cell};
ghost use Rattle.mapi_values.specs.Tables.{cells_suit};
ghost use Rattle.write_limits.specs.Limits.{cells_bytes, long_values};
ghost use Rattle.table_writer.specs.Bits.{bits, digit, octet};
ghost use Rattle.table_writer.specs.Filling.{Filled, Fills, Steps, Suited};
ghost use Rattle.table_writer.specs.Making.{IsMade, PutsCell, weight};
ghost use Rattle.table_writer.specs.Woven.{all_woven};

use crate::value::{Made, put_value};
use mapi_values::tags::PID_TAG_LTP_ROW_ID;
use mapi_values::{Column, Value, fixed_width};
use pst_base::Bytes;
use std::alloc::{AllocError, Global};

/// Writes bytes at a place.
pub fn put(row: &mut [u8], at: usize, bytes: &[u8])
    requires { at + length bytes.now ≤ length row.old }
    ensures { row.new ≡ replaced at bytes.now row.old }
{
    row[at..at + bytes.len()].copy_from_slice(bytes);
}

/// A bit as a number.
fn digit(marks: &[bool], at: usize) -> u8
    requires { at < length marks.now }
    ensures value { result ≡ digit (get_or marks.now at false) }
    ensures few { result ≤ 1 }
{
    if marks[at] { 1 } else { 0 }
}

/// The byte of the eight existence bits from a place on.
fn octet(marks: &[bool], at: usize) -> u8
    requires { at + 8 ≤ length marks.now }
    ensures { result ≡ octet at marks.now }
{
    digit(marks, at) * 128
        + digit(marks, at + 1) * 64
        + digit(marks, at + 2) * 32
        + digit(marks, at + 3) * 16
        + digit(marks, at + 4) * 8
        + digit(marks, at + 5) * 4
        + digit(marks, at + 6) * 2
        + digit(marks, at + 7)
}

/// Writes so many bytes of existence bits at the end.
pub fn push_bits(row: &mut Vec<u8>, marks: &[bool], count: usize) -> Result<(), AllocError>
    requires { 8 * count ≤ length marks.now }
    ensures { OnOk result (row.new.items ≡ row.old.items ++ bits count 0 marks.now) }
{
    for i in 0..count {
        row.push(octet(marks, 8 * i))?;
    }
    Ok(())
}

/// Puts a value into a cell at a place: itself where its kind has a width, or else what names it in the heap or among the subnodes.
fn put_cell<'a>(
    alloc: Global,
    made: Made<'a>,
    front: &mut [u8],
    at: usize,
    value: &Value,
) -> Result<Made<'a>, AllocError>
    requires room { at + cell_width value.now.kind ≤ length front.old }
    requires suits { suits_cell value.now.kind (length value.now.bytes) ≡ true }
    requires made { IsMade made }
    requires blocks { length made.maker < 65536 }
    requires few { length (all_woven made.subs) < 2 ^ 26 }
    ensures made { IfOk result (λ new. IsMade new) }
    ensures puts { IfOk result (λ new. PutsCell made.entry new front.old front.new at value.now) }
{
    let kind = value.kind();
    match fixed_width(kind) {
        Some(_) => {
            put(front, at, value.bytes());
            Ok(made)
        }
        None => {
            let (made, hnid) = put_value(alloc, made, value.bytes())?;
            put(front, at, &hnid.to_le_bytes());
            Ok(made)
        }
    }
}

/// Fills the cell of column `i` and marks its existence bit: with the row id, or with value `j - 1` if that is the column's. Gives how many values are left.
fn fill_column<'a>(
    alloc: Global,
    made: Made<'a>,
    columns: &[Column],
    i: usize,
    id: u32,
    cells: &[Value],
    j: usize,
    front: &mut [u8],
    marks: &mut [bool],
    count: usize,
) -> Result<(Made<'a>, usize), AllocError>
    requires suited { Suited (length front.old) count columns.now cells.now }
    requires inside { i < length columns.now }
    requires filled { Filled made (length front.old) count columns.now id cells.now (i + 1) j front.old marks.old }
    requires made { IsMade made }
    requires light { weight made.maker ≤ 210000000 }
    requires few { length (all_woven made.subs) < 2 ^ 26 }
    ensures made { IfOk result (λ r. IsMade r.0) }
    ensures steps { IfOk result (λ r. Steps made.entry r.0 (length front.old) count columns.now id cells.now i j r.1 front.old front.new marks.old marks.new) }
{
    let column = &columns[i];
    let kind = column.tag.kind;
    let _ = kind;
    if column.is_of(PID_TAG_LTP_ROW_ID.id, PID_TAG_LTP_ROW_ID.kind) {
        put(front, usize::from(column.at), &id.to_le_bytes());
        marks[usize::from(column.bit)] = true;
        return Ok((made, j));
    }
    if j == 0 {
        return Ok((made, j));
    }
    let value = &cells[j - 1];
    if !column.is_of(value.id(), value.kind()) {
        return Ok((made, j));
    }
    let made = put_cell(alloc, made, front, usize::from(column.at), value)?;
    marks[usize::from(column.bit)] = true;
    Ok((made, j - 1))
}

/// Fills the cells of a row and marks its existence bits, from the last column to the first.
fn fill<'a>(
    alloc: Global,
    made: Made<'a>,
    columns: &[Column],
    id: u32,
    cells: &[Value],
    front: &mut [u8],
    marks: &mut [bool],
    count: usize,
) -> Result<Made<'a>, AllocError>
    requires suited { Suited (length front.old) count columns.now cells.now }
    requires filled { Filled made (length front.old) count columns.now id cells.now (length columns.now) (length cells.now) front.old marks.old }
    requires made { IsMade made }
    requires light { weight made.maker + cells_bytes cells.now ≤ 210000000 }
    requires few { length (all_woven made.subs) + long_values cells.now < 2 ^ 26 }
    ensures made { IfOk result (λ new. IsMade new) }
    ensures fills { IfOk result (λ new. Fills made.entry new (length front.old) columns.now id cells.now (front.new ++ bits count 0 marks.new)) }
    ensures front { OnOk result (length front.new ≡ length front.old) }
    ensures marks { OnOk result (length marks.new ≡ 8 * count) }
{
    let mut made = made;
    let (mut i, mut j) = (columns.len(), cells.len());
    'columns: while i > 0 {
        i -= 1;
        (made, j) = fill_column(alloc, made, columns, i, id, cells, j, front, marks, count)?;
    }
    Ok(made)
}

/// So many zeros, with room for more.
pub fn zeros(alloc: Global, count: usize, room: usize) -> Result<Vec<u8>, AllocError>
    ensures { IfOk result (λ row. row.items ≡ replicate count 0) }
{
    let mut row = Vec::with_capacity(alloc, room)?;
    row.resize(count, 0u8)?;
    Ok(row)
}

/// So many bits, none of them set.
pub fn no_marks(alloc: Global, count: usize) -> Result<Vec<bool>, AllocError>
    ensures { IfOk result (λ marks. marks.items ≡ replicate count false) }
{
    let mut marks = Vec::new(alloc);
    marks.resize(count, false)?;
    Ok(marks)
}

/// The bytes of a row with this id and these cells.
pub fn row_bytes<'a>(
    alloc: Global,
    made: Made<'a>,
    columns: &[Column],
    ends: &[u16; 4],
    id: u32,
    cells: &[Value],
) -> Result<(Made<'a>, Bytes), AllocError>
    requires layout { is_layout columns.now ends.now ≡ true }
    requires suit { cells_suit columns.now cells.now ≡ true }
    requires made { IsMade made }
    requires light { weight made.maker + cells_bytes cells.now ≤ 210000000 }
    requires few { length (all_woven made.subs) + long_values cells.now < 2 ^ 26 }
    ensures made { IfOk result (λ r. IsMade r.0) }
    ensures fills { IfOk result (λ r. Fills made.entry r.0 (get_or ends.now 2 0) columns.now id cells.now r.1) }
    ensures size { IfOk result (λ r. length r.1 ≡ get_or ends.now 3 0) }
{
    let (third, fourth) = (usize::from(ends[2]), usize::from(ends[3]));
    let count = fourth - third;
    let mut row = zeros(alloc, third, fourth)?;
    let mut marks = no_marks(alloc, 8 * count)?;
    let made = fill(
        alloc,
        made,
        columns,
        id,
        cells,
        row.as_mut_slice(),
        marks.as_mut_slice(),
        count,
    )?;
    push_bits(&mut row, marks.as_slice(), count)?;
    Ok((made, Bytes::from_vec(row)))
}
