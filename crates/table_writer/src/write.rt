//! Writing a table.
ghost use Rattle.std.specs.Prelude.{◌≡◌, ◌≤◌, ◌<◌, ◌+◌, ◌-◌, ◌*◌, ◌/◌, ◌^◌, ◌++◌, ◌∷◌, [], ℕ, length, get_or, replicate, IfOk, OnOk, true, Some};
ghost use Rattle.std.specs.List.{concat, list_all};
ghost use Rattle.bth_tree.specs.Making.{AreRecords};
ghost use Rattle.heap_on_node.specs.Packing.{IsPacked, IsPlain, PacksTight};
ghost use Rattle.mapi_values.specs.Columns.{is_layout};
ghost use Rattle.mapi_values.specs.Keyed.{keys_ascend};
ghost use Rattle.mapi_values.specs.Tables.{row_suits};
ghost use Rattle.node_port.specs.Stops.{subs_size};
ghost use Rattle.write_limits.specs.Space.{table_space};
ghost use Rattle.write_limits.specs.Limits.{long_cells, rows_bytes, table_fits};
ghost use Rattle.table_context.specs.Context.{IsTableContext};
ghost use Rattle.table_writer.specs.Writing.{ColumnFits, EndsFit, column_bytes, front_of};
ghost use Rattle.table_writer.specs.Making.{IsMade, load, weight};
ghost use Rattle.node_values.specs.Subnodes.{ids_ascend, sub_id};
ghost use Rattle.table_writer.specs.Woven.{all_woven};
ghost use Rattle.table_writer.specs.Writing.{FillsRows, HaveLength, IsHeader, PutsHead, PutsRows, numbered, row_among};

use crate::row::row_bytes;
use crate::value::{Made, put_item, put_sub};
use crate::woven::Woven;
use bth_tree::bth_make;
use heap_on_node::HeapMaker;
use mapi_values::{Column, Props, Table};
use pst_base::{Blocks, Bytes, Sub, Subs};
use std::alloc::{AllocError, Global};
use table_context::TABLE_CONTEXT;

/// The bytes of all rows.
fn rows_bytes<'a>(
    alloc: Global,
    made: Made<'a>,
    columns: &[Column],
    ends: &[u16; 4],
    rows: &[(u32, Props)],
) -> Result<(Made<'a>, Vec<Bytes>), AllocError>
    requires layout { is_layout columns.now ends.now ≡ true }
    requires suit { list_all (row_suits columns.now) rows.now ≡ true }
    requires made { IsMade made }
    requires light { weight made.maker + rows_bytes rows.now ≤ 210000000 }
    requires few { length (all_woven made.subs) + long_cells rows.now < 2 ^ 26 }
    ensures { IfOk result (λ r. FillsRows made.entry r.0 (get_or ends.now 2 0) (get_or ends.now 3 0) columns.now rows.now r.1.items) }
{
    let mut made = made;
    let mut out = Vec::with_capacity(alloc, rows.len())?;
    for row in rows {
        let (next, bytes) = row_bytes(alloc, made, columns, ends, row.0, row.1.values())?;
        out.push(bytes)?;
        made = next;
    }
    Ok((made, out))
}

/// Bytes that are filled up with zeros to a size.
fn filled_up(bytes: Vec<u8>, size: usize) -> Result<Bytes, AllocError>
    ensures { IfOk result (λ b. b ≡ bytes.items ++ replicate (size - length bytes.items) 0) }
{
    let mut bytes = bytes;
    bytes.resize(bytes.len().max(size), 0)?;
    Ok(Bytes::from_vec(bytes))
}

/// Rows one behind the other, filled up with zeros to a size.
fn packed(alloc: Global, rows: &[Bytes], size: usize) -> Result<Bytes, AllocError>
    ensures { IfOk result (λ b. b ≡ concat rows.now ++ replicate (size - length (concat rows.now)) 0) }
{
    let mut bytes = Vec::with_capacity(alloc, size)?;
    for row in rows {
        bytes.extend_from_slice(row.as_slice())?;
    }
    filled_up(bytes, size)
}

/// The blocks of a row matrix ([MS-PST] 2.3.4.4), each with so many rows but the last, and all but the last of 8176 bytes.
fn matrix_blocks(alloc: Global, rows: &[Bytes], per: usize) -> Result<Blocks, AllocError>
    requires { 0 < per }
    ensures rows { IfOk result (λ blocks. (size : ℕ) → HaveLength size rows.now → (n : ℕ) → n < length rows.now → row_among size per blocks n ≡ Some (get_or rows.now n [])) }
    ensures count { IfOk result (λ blocks. length blocks ≤ (length rows.now - 1) / per + 1) }
{
    let mut blocks = Blocks::new(alloc);
    let mut rest = rows;
    'cutting: while rest.len() > per {
        let (some, others) = rest.split_at(per);
        blocks.push(packed(alloc, some, 8176)?)?;
        rest = others;
    }
    blocks.push(packed(alloc, rest, 0)?)?;
    Ok(blocks)
}

/// Puts the rows into the heap, or into a subnode where they have more than 3580 bytes together, and gives what names them: 0 where there are none.
fn put_matrix<'a>(
    alloc: Global,
    made: Made<'a>,
    rows: &[Bytes],
    size: usize,
) -> Result<(Made<'a>, u32), AllocError>
    requires made { IsMade made }
    requires sizes { HaveLength size rows.now }
    requires low { 1 ≤ size }
    requires high { size ≤ 8176 }
    requires count { length rows.now ≤ 500000 }
    requires blocks { length made.maker < 65536 }
    requires few { length (all_woven made.subs) < 2 ^ 26 }
    ensures puts { IfOk result (λ r. PutsRows made.entry r.0 size rows.now r.1) }
    ensures fits { IfOk result (λ r. r.1 < 2 ^ 32) }
{
    if rows.len() == 0 {
        return Ok((made, 0));
    }
    if rows.len() * size <= 3580 {
        let bytes = packed(alloc, rows, 0)?;
        return put_item(made, bytes.as_slice());
    }
    put_sub(alloc, made, matrix_blocks(alloc, rows, 8176 / size)?)
}

/// The records of the row index ([MS-PST] 2.3.4.3): each row's id and its number.
fn index_records(alloc: Global, rows: &[(u32, Props)]) -> Result<Vec<(u32, Bytes)>, AllocError>
    requires { length rows.now ≤ 500000 }
    ensures all { IfOk result (λ records. records.items ≡ numbered 0 rows.now) }
    ensures fit { IfOk result (λ records. AreRecords 4 4 records.items) }
{
    let mut records = Vec::with_capacity(alloc, rows.len())?;
    let mut n = 0u32;
    for row in rows {
        let id = row.0;
        records.push((id, Bytes::from_slice(alloc, &n.to_le_bytes())?))?;
        n += 1;
    }
    Ok(records)
}

/// Writes the fixed fields of a header.
fn push_front(
    x: &mut Vec<u8>,
    count: u8,
    ends: &[u16; 4],
    index: u32,
    matrix: u32,
) -> Result<(), AllocError>
    ensures bytes { OnOk result (x.new.items ≡ x.old.items ++ front_of count ends.now index matrix) }
    ensures fits { OnOk result (EndsFit ends.now) }
{
    let (first, second, third, fourth) = (ends[0], ends[1], ends[2], ends[3]);
    x.extend_from_slice(&TABLE_CONTEXT.to_le_bytes())?;
    x.extend_from_slice(&count.to_le_bytes())?;
    x.extend_from_slice(&first.to_le_bytes())?;
    x.extend_from_slice(&second.to_le_bytes())?;
    x.extend_from_slice(&third.to_le_bytes())?;
    x.extend_from_slice(&fourth.to_le_bytes())?;
    x.extend_from_slice(&index.to_le_bytes())?;
    x.extend_from_slice(&matrix.to_le_bytes())?;
    x.extend_from_slice(&0u32.to_le_bytes())?;
    Ok(())
}

/// Writes the description of a column ([MS-PST] 2.3.4.2).
fn push_column(x: &mut Vec<u8>, column: &Column) -> Result<(), AllocError>
    ensures bytes { OnOk result (x.new.items ≡ x.old.items ++ column_bytes column.now) }
    ensures fits { OnOk result (ColumnFits column.now) }
{
    let (id, kind, at) = (column.tag.id, column.tag.kind, column.at);
    let (width, bit) = (column.width, column.bit);
    x.extend_from_slice(&kind.to_le_bytes())?;
    x.extend_from_slice(&id.to_le_bytes())?;
    x.extend_from_slice(&at.to_le_bytes())?;
    x.extend_from_slice(&width.to_le_bytes())?;
    x.extend_from_slice(&bit.to_le_bytes())?;
    Ok(())
}

/// The header of a table ([MS-PST] 2.3.4.1).
fn header(
    alloc: Global,
    columns: &[Column],
    ends: &[u16; 4],
    index: u32,
    matrix: u32,
) -> Result<Vec<u8>, AllocError>
    requires count { length columns.now ≤ 255 }
    requires layout { is_layout columns.now ends.now ≡ true }
    requires low { 1 ≤ get_or ends.now 3 0 }
    requires high { get_or ends.now 3 0 ≤ 8176 }
    ensures { IfOk result (λ x. IsHeader x.items columns.now ends.now index matrix) }
{
    let mut x = Vec::with_capacity(alloc, 22 + 8 * columns.len())?;
    push_front(&mut x, columns.len() as u8, ends, index, matrix)?;
    for column in columns {
        push_column(&mut x, column)?;
    }
    Ok(x)
}

/// The row index and the header of a table, and the heap id of the latter.
fn put_head(
    alloc: Global,
    maker: HeapMaker,
    t: &Table,
    matrix: u32,
) -> Result<(HeapMaker, u32), AllocError>
    requires fit { table_fits t.now ≡ true }
    requires blocks { length maker ≤ 60000 }
    ensures puts { IfOk result (λ r. PutsHead maker r.0 t.now matrix r.1) }
    ensures packed { IfOk result (λ r. IsPacked r.0) }
{
    let records = index_records(alloc, t.rows())?;
    let mut maker = maker;
    let index = bth_make(alloc, &mut maker, 4, 4, records.as_slice())?;
    let head = header(alloc, t.columns(), &t.ends(), index, matrix)?;
    let root = maker.add(head.as_slice())?;
    Ok((maker, root))
}

/// The beginning: an empty heap, and the subnodes that are kept.
fn begin<'a>(alloc: Global, kept: &'a [Sub]) -> Result<Made<'a>, AllocError>
    requires { keys_ascend sub_id 0 kept.now ≡ true }
    ensures made { IfOk result (λ made. IsMade made) }
    ensures none { IfOk result (λ made. made.maker ≡ [] ∷ []) }
    ensures load { IfOk result (λ made. load made ≡ 1024) }
    ensures subs { IfOk result (λ made. all_woven made.subs ≡ kept.now) }
{
    let mut singles = Vec::with_capacity(alloc, 256)?;
    singles.resize(256, 0u32)?;
    Ok(Made {
        maker: HeapMaker::new(alloc),
        singles,
        subs: Woven::new(alloc, kept),
    })
}

/// The data blocks and the subnodes of a table ([MS-PST] 2.3.4) that is small enough and keeps subnodes by ascending ids. The error: memory ran out. The rows stand in the order of their ids; a value of more than 3580 bytes, and the rows where they have more than that, get subnodes of kind 1Fh beside those that the table keeps. Equal values of one byte share an item of the heap.
pub fn write_tc(alloc: Global, t: &Table) -> Result<(Blocks, Subs), AllocError>
    requires fit { table_fits t.now ≡ true }
    requires ascend { ids_ascend 0 t.now.kept ≡ true }
    ensures exact { IfOk result (λ made. IsTableContext made.0 made.1 t.now) }
    ensures ascend { IfOk result (λ made. ids_ascend 0 made.1 ≡ true) }
    ensures plain { IfOk result (λ made. (k : ℕ) → k < length made.0 → IsPlain k (get_or made.0 k [])) }
    ensures tight { IfOk result (λ made. PacksTight made.0) }
    ensures small { IfOk result (λ made. length made.0 + subs_size made.1 + 1 ≤ table_space t.now) }
{
    let ends = t.ends();
    let begun = begin(alloc, t.kept().as_slice())?;
    let (filled, bytes) = rows_bytes(alloc, begun, t.columns(), &ends, t.rows())?;
    let (made, matrix) = put_matrix(alloc, filled, bytes.as_slice(), usize::from(ends[3]))?;
    let (maker, root) = put_head(alloc, made.maker, t, matrix)?;
    Ok((maker.finish(TABLE_CONTEXT, root)?, made.subs.finish(alloc)?))
}
