//! Heap ids for the values of a row.
ghost use Rattle.std.specs.Prelude.{◌≡◌, ◌≢◌, ◌≤◌, ◌<◌, ◌^◌, ◌↔◌, ◌++◌, ◌∷◌, [], ℕ, List, Option, Some, length, IfOk, IfErr, OnErr, OnOk, IsTrue, true};
ghost use Rattle.std.specs.List.{list_all};
ghost use Rattle.mapi_values.specs.Columns.{lies};
ghost use Rattle.mapi_values.specs.Properties.{ascend_from};
ghost use Rattle.row_edit.specs.Cells.{is_short};
ghost use Rattle.row_edit.specs.Edits.{Adds, Keeping, NamesBytes, NamesValue, NamesValues, NotSubnode};

use crate::pick::{held, pick};
use crate::stop::RowStop;
use heap_items::HeapItems;
use mapi_values::{Column, Props, fixed_width};
use std::alloc::{AllocError, Global};

/// Whether an id is that of an item with these bytes.
fn holds<H: HeapItems>(heap: &H, hid: u32, bytes: &[u8]) -> Result<bool, RowStop<H::Stop>>
    ensures holds { IfOk result (λ is. (was : List (List ℕ)) (get : ℕ → Option (List ℕ)) → H.tells heap.now was get → IsTrue is ↔ (get hid ≡ Some bytes.now)) }
    ensures why { IfErr result NotSubnode }
{
    match heap.item(hid) {
        Ok(Some(x)) => Ok(x == bytes),
        Ok(None) => Ok(false),
        Err(stop) => Err(RowStop::Heap(stop)),
    }
}

/// What names bytes in the heap: 0 where there are none, the id that was held if it names just these, or that of a new item.
fn id_of<H: HeapItems>(heap: &mut H, held: u32, bytes: &[u8]) -> Result<u32, RowStop<H::Stop>>
    requires { length bytes.now ≤ 3580 }
    ensures names { IfOk result (λ hnid. (was : List (List ℕ)) (get : ℕ → Option (List ℕ)) → H.tells heap.old was get
        → Adds (H.tells heap.new was) get (λ now. NamesBytes get now held bytes.now hnid)) }
    ensures fits { IfOk result (λ hnid. hnid < 2 ^ 32) }
    ensures err { OnErr result ((was : List (List ℕ)) (get : ℕ → Option (List ℕ)) → H.tells heap.old was get → H.tells heap.new was get) }
    ensures why { IfErr result NotSubnode }
{
    if bytes.len() == 0 {
        return Ok(0);
    }
    if held != 0 && held % 32 == 0 {
        match holds(heap, held, bytes) {
            Ok(true) => return Ok(held),
            Ok(false) => {}
            Err(stop) => return Err(stop),
        }
    }
    match heap.add(bytes) {
        Ok(hid) => Ok(hid),
        Err(stop) => Err(RowStop::Heap(stop)),
    }
}

/// What names the value in a column's cell: 0 where there is none, or where it stands in the row itself.
fn cell_id<H: HeapItems>(
    heap: &mut H,
    column: &Column,
    third: usize,
    row: &[u8],
    values: &Props,
) -> Result<u32, RowStop<H::Stop>>
    requires lies { lies third (length row.now) column.now ≡ true }
    requires ascend { ascend_from 0 values.now ≡ true }
    requires short { list_all is_short values.now ≡ true }
    ensures names { IfOk result (λ hnid. (was : List (List ℕ)) (get : ℕ → Option (List ℕ)) → H.tells heap.old was get
        → Adds (H.tells heap.new was) get (λ now. NamesValue get now third row.now values.now column.now hnid)) }
    ensures err { OnErr result ((was : List (List ℕ)) (get : ℕ → Option (List ℕ)) → H.tells heap.old was get → H.tells heap.new was get) }
    ensures why { IfErr result NotSubnode }
{
    if fixed_width(column.tag.kind).is_some() {
        return Ok(0);
    }
    match pick(values, column) {
        Some(value) => id_of(heap, held(row, third, column), value.bytes()),
        None => Ok(0),
    }
}

/// Puts an id at the end.
fn push_id(ids: &mut Vec<u32>, hnid: u32) -> Result<(), AllocError>
    ensures { OnOk result (ids.new.items ≡ ids.old.items ++ hnid ∷ []) }
{
    ids.push(hnid)?;
    Ok(())
}

/// What names the value in each column's cell, or 0.
pub(crate) fn cell_ids<H: HeapItems>(
    alloc: Global,
    heap: &mut H,
    columns: &[Column],
    third: usize,
    row: &[u8],
    values: &Props,
) -> Result<Vec<u32>, RowStop<H::Stop>>
    requires lie { list_all (lies third (length row.now)) columns.now ≡ true }
    requires ascend { ascend_from 0 values.now ≡ true }
    requires short { list_all is_short values.now ≡ true }
    ensures names { IfOk result (λ ids. (was : List (List ℕ)) (get : ℕ → Option (List ℕ)) → H.tells heap.old was get
        → Adds (H.tells heap.new was) get (λ now. NamesValues get now third row.now values.now columns.now ids.items)) }
    ensures count { IfOk result (λ ids. length ids.items ≡ length columns.now) }
    ensures err { OnErr result ((was : List (List ℕ)) (get : ℕ → Option (List ℕ)) → H.tells heap.old was get → Keeping (H.tells heap.new was) get) }
    ensures why { IfErr result NotSubnode }
{
    let mut ids = Vec::new(alloc);
    for column in columns {
        let hnid = match cell_id(heap, column, third, row, values) {
            Ok(hnid) => hnid,
            Err(stop) => return Err(stop),
        };
        push_id(&mut ids, hnid)?;
    }
    Ok(ids)
}
