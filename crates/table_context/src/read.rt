//! Reading a table.
ghost use Rattle.std.specs.Prelude.{◌≡◌, ◌≤◌, ◌^◌, Some, length, map, All, true};
ghost use Rattle.pst_base.specs.Stops.{Finds};
ghost use Rattle.heap_on_node.specs.Heap.{item};
ghost use Rattle.bth_tree.specs.Answers.{IsRecord, seen};
ghost use Rattle.bth_tree.specs.Records.{within};
ghost use Rattle.table_context.specs.Context.{ReadsTc, table_in, table_of};
ghost use Rattle.table_context.specs.Header.{columns_of};
ghost use Rattle.table_context.specs.declared.fault.TcFault.{TcFault};

use crate::fault::TcFault;
use crate::header::{columns, ends, names_index};
use crate::kept::kept;
use crate::rows::{raw_rows, rows};
use bth_tree::{Record, bth_read};
use heap_on_node::HeapView;
use mapi_values::{Column, Table};
use node_values::{Absent, Finder};
use pst_base::{Bytes, MemOr, Subs, u32_at};
use std::alloc::Global;

/// The client of a heap that is a table ([MS-PST] 2.3.1.2), and the first byte of its header.
pub const TABLE_CONTEXT: u8 = 0x7C;

/// The table of a header with these columns, with the rows that records of the row index name.
#[tactic(auto, unfolding(crate::specs::Context::table_of))]
fn table_of(
    alloc: Global,
    h: &HeapView,
    subs: &Finder,
    x: &[u8],
    columns: Vec<Column>,
    recs: &[Record],
) -> Result<Table, MemOr<Absent>>
    requires size { 22 ≤ length x.now }
    requires form { columns_of x.now ≡ Some columns.items }
    requires each { All (IsRecord 4 4) recs.now }
    requires ascend { within 0 (2 ^ 32) (map seen recs.now) ≡ true }
    ensures { Finds (λ t. t) result (table_of (item h.now) subs.now x.now columns.items (map seen recs.now)) }
{
    let ends = ends(x);
    let (from, size) = (usize::from(ends[2]), usize::from(ends[3]));
    let hnid = u32_at(x, 14);
    let raws = raw_rows(alloc, h, subs, size, hnid, recs)?;
    let rows = rows(alloc, h, subs, columns.as_slice(), from, raws.as_slice())?;
    let kept = kept(alloc, subs, columns.as_slice(), from, raws.as_slice(), hnid)?;
    Ok(Table::from_parts(columns, ends, rows, kept))
}

/// The same, if it is a header of a table.
#[tactic(auto, unfolding(crate::specs::Context::table_in))]
fn table_in(
    alloc: Global,
    h: &HeapView,
    subs: &Finder,
    x: &[u8],
    recs: &[Record],
) -> Result<Table, MemOr<Absent>>
    requires size { 22 ≤ length x.now }
    requires each { All (IsRecord 4 4) recs.now }
    requires ascend { within 0 (2 ^ 32) (map seen recs.now) ≡ true }
    ensures { Finds (λ t. t) result (table_in (item h.now) subs.now x.now (map seen recs.now)) }
{
    let columns = columns(alloc, x)?;
    table_of(alloc, h, subs, x, columns, recs)
}

/// The table that the data blocks of a node and its subnodes are ([MS-PST] 2.3.4), with the subnodes that it doesn't use. A fault is the first that is wrong: `Heap` where the blocks are no heap of a table, `Bth` where the header names a row index that isn't one, and `Tc` for anything else.
pub fn read_tc(alloc: Global, blocks: &[Bytes], subs: &Subs) -> Result<Table, MemOr<TcFault>>
    ensures { ReadsTc blocks.now subs.now result }
{
    let Ok(heap) = HeapView::read(blocks) else {
        return Err(MemOr::Refused(TcFault::Heap));
    };
    let Some(root) = heap.root_for(TABLE_CONTEXT) else {
        return Err(MemOr::Refused(TcFault::Heap));
    };
    let Some(x) = heap.item(root) else {
        return Err(MemOr::Refused(TcFault::Tc));
    };
    if !names_index(x) {
        return Err(MemOr::Refused(TcFault::Tc));
    }
    let recs = match bth_read(alloc, &heap, u32_at(x, 10), 4, 4) {
        Ok(recs) => recs,
        Err(MemOr::Memory) => return Err(MemOr::Memory),
        Err(MemOr::Refused(_)) => return Err(MemOr::Refused(TcFault::Bth)),
    };
    let finder = Finder::new(alloc, subs)?;
    match table_in(alloc, &heap, &finder, x, recs.as_slice()) {
        Ok(table) => Ok(table),
        Err(MemOr::Memory) => Err(MemOr::Memory),
        Err(MemOr::Refused(_)) => Err(MemOr::Refused(TcFault::Tc)),
    }
}
