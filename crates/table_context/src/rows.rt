//! The rows that a row index names.
ghost use Rattle.std.specs.Prelude.{◌≡◌, ◌≤◌, ◌<◌, ◌+◌, ◌*◌, ◌/◌, ◌%◌, length, map, All, IfOk, true, option_copied};
ghost use Rattle.std.specs.List.{list_all};
ghost use Rattle.pst_base.specs.Stops.{Finds};
ghost use Rattle.heap_on_node.specs.Heap.{item};
ghost use Rattle.bth_tree.specs.Answers.{IsRecord, seen};
ghost use Rattle.mapi_values.specs.Columns.{has_column, lies};
ghost use Rattle.mapi_values.specs.Tags.{pid_tag_ltp_row_id};
ghost use Rattle.table_context.specs.Rows.{piece, raw_rows, row_in, row_of, rows_of, shows_id};
ghost use Rattle.table_context.specs.Answers.{HasSize, raw_seen};
ghost use Rattle.node_values.specs.Subnodes.{data_of};

use crate::cells::{cells, values_ascend};
use bth_tree::Record;
use heap_on_node::HeapView;
use mapi_values::tags::PID_TAG_LTP_ROW_ID;
use mapi_values::{Column, Props, has_column};
use node_values::{Absent, Finder};
use pst_base::{MemOr, part, u32_at};
use std::alloc::Global;

/// The id of a row, and its bytes.
#[derive(Clone, Copy, Debug)]
pub struct RawRow<'a> {
    pub id: u32,
    pub bytes: &'a [u8],
}

/// Piece `n` of bytes that are cut into pieces of a size, if it is whole.
#[tactic(auto, unfolding(crate::specs::Rows::piece))]
pub fn piece(b: &[u8], size: usize, n: usize) -> Option<&[u8]>
    requires size { size ≤ 8176 }
    requires n { n < 4294967296 }
    ensures { option_copied result ≡ piece size n b.now }
{
    if n * size + size <= b.len() {
        Some(part(b, n * size, size))
    } else {
        None
    }
}

/// Row `n` of the matrix that an id of a heap item or a subnode names.
#[tactic(auto, unfolding(crate::specs::Rows::row_in))]
fn row_in<'a>(
    h: &HeapView<'a>,
    subs: &Finder<'a>,
    size: usize,
    hnid: u32,
    n: usize,
) -> Option<&'a [u8]>
    requires low { 1 ≤ size }
    requires high { size ≤ 8176 }
    requires n { n < 4294967296 }
    ensures { option_copied result ≡ row_in (item h.now) (data_of subs.now) size hnid n }
{
    if hnid % 32 == 0 {
        return piece(h.item(hnid)?, size, n);
    }
    let per = 8176 / size;
    let block = subs.data(hnid)?.get(n / per)?;
    piece(block.as_slice(), size, n % per)
}

/// The rows that records of a row index name.
pub fn raw_rows<'a>(
    alloc: Global,
    h: &HeapView<'a>,
    subs: &Finder<'a>,
    size: usize,
    hnid: u32,
    recs: &[Record],
) -> Result<Vec<RawRow<'a>>, MemOr<Absent>>
    requires low { 1 ≤ size }
    requires high { size ≤ 8176 }
    requires each { All (IsRecord 4 4) recs.now }
    ensures exact { Finds (λ v. map raw_seen v.items) result (raw_rows (row_in (item h.now) (data_of subs.now) size hnid) (map seen recs.now)) }
    ensures each { IfOk result (λ v. All (HasSize size) v.items) }
{
    let mut raws = Vec::with_capacity(alloc, recs.len())?;
    for record in recs {
        let n = u32_at(record.entry, 0);
        let Some(bytes) = row_in(h, subs, size, hnid, n as usize) else {
            return Err(MemOr::Refused(Absent));
        };
        raws.push(RawRow {
            id: record.key,
            bytes,
        })?;
    }
    Ok(raws)
}

/// Whether a row shows its id, where the row id is a column.
#[tactic(auto, unfolding(crate::specs::Rows::shows_id))]
fn shows_id(columns: &[Column], id: u32, row: &[u8]) -> bool
    requires { has_column columns.now pid_tag_ltp_row_id.id pid_tag_ltp_row_id.kind ≡ true → 4 ≤ length row.now }
    ensures { result ≡ shows_id columns.now id row.now }
{
    if has_column(columns, PID_TAG_LTP_ROW_ID.id, PID_TAG_LTP_ROW_ID.kind) {
        u32_at(row, 0) == id
    } else {
        true
    }
}

/// The values in the cells of the row of an id, whose existence bits begin at `from`.
fn row(
    alloc: Global,
    h: &HeapView,
    subs: &Finder,
    columns: &[Column],
    from: usize,
    id: u32,
    bytes: &[u8],
) -> Result<Props, MemOr<Absent>>
    requires { list_all (lies from (length bytes.now)) columns.now ≡ true }
    ensures { Finds (λ cells. (id, cells)) result (row_of (item h.now) (data_of subs.now) from columns.now id bytes.now) }
{
    if !shows_id(columns, id, bytes) {
        return Err(MemOr::Refused(Absent));
    }
    let values = cells(alloc, h, subs, columns, from, bytes)?;
    if !values_ascend(values.as_slice()) {
        return Err(MemOr::Refused(Absent));
    }
    Ok(Props::from_vec(values))
}

/// The rows of these ids and bytes, whose existence bits begin at `from`.
pub fn rows(
    alloc: Global,
    h: &HeapView,
    subs: &Finder,
    columns: &[Column],
    from: usize,
    raws: &[RawRow],
) -> Result<Vec<(u32, Props)>, MemOr<Absent>>
    requires { All (λ r. list_all (lies from (length r.bytes.now)) columns.now ≡ true) raws.now }
    ensures { Finds (λ v. v.items) result (rows_of (item h.now) (data_of subs.now) from columns.now (map raw_seen raws.now)) }
{
    let mut rows = Vec::with_capacity(alloc, raws.len())?;
    for raw in raws {
        rows.push((
            raw.id,
            row(alloc, h, subs, columns, from, raw.id, raw.bytes)?,
        ))?;
    }
    Ok(rows)
}
