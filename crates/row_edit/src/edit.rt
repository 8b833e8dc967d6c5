//! Editing a row.
ghost use Rattle.std.specs.Prelude.{◌≡◌, ◌≢◌, ℕ, List, [], Option, length, IfOk, IfErr, OnErr, OnOk, true, get_or};
ghost use Rattle.mapi_values.specs.Columns.{is_layout};
ghost use Rattle.mapi_values.specs.Tables.{cells_suit};
ghost use Rattle.table_context.specs.Rows.{row_names};
ghost use Rattle.row_edit.specs.Edits.{EditsRow, Keeping, Stops};

use crate::ids::cell_ids;
use crate::lay::laid;
use crate::pick::{are_short, has_subnode};
use crate::stop::RowStop;
use heap_items::HeapItems;
use mapi_values::{Column, Props};
use pst_base::Bytes;
use std::alloc::Global;

/// The bytes of a row once it has these values. A value that stands in the heap keeps its id, and one that doesn't is added. `NeedsSubnode` comes just where a value is longer than 3,580 bytes, or a cell of the row names a subnode; the other stops are those of the heap and of memory.
pub fn edited_row<H: HeapItems>(
    alloc: Global,
    heap: &mut H,
    columns: &[Column],
    ends: &[u16; 4],
    id: u32,
    row: &[u8],
    values: &Props,
) -> Result<Bytes, RowStop<H::Stop>>
    requires layout { is_layout columns.now ends.now ≡ true }
    requires size { length row.now ≡ get_or ends.now 3 0 }
    requires suit { cells_suit columns.now values.now ≡ true }
    ensures edits { IfOk result (λ new. (was : List (List ℕ)) (get : ℕ → Option (List ℕ)) → H.tells heap.old was get
        → EditsRow (H.tells heap.new was) get (get_or ends.now 2 0) columns.now id row.now values.now new) }
    ensures size { IfOk result (λ new. length new ≡ get_or ends.now 3 0) }
    ensures before { OnOk result (row_names (get_or ends.now 2 0) columns.now row.now ≡ []) }
    ensures err { OnErr result ((was : List (List ℕ)) (get : ℕ → Option (List ℕ)) → H.tells heap.old was get → Keeping (H.tells heap.new was) get) }
    ensures why { IfErr result (Stops (get_or ends.now 2 0) columns.now row.now values.now) }
{
    let third = usize::from(ends[2]);
    if !are_short(values.values()) || has_subnode(row, third, columns) {
        return Err(RowStop::NeedsSubnode);
    }
    let ids = match cell_ids(alloc, heap, columns, third, row, values) {
        Ok(ids) => ids,
        Err(stop) => return Err(stop),
    };
    match laid(alloc, columns, ends, id, values, ids.as_slice()) {
        Ok(new) => Ok(new),
        Err(_) => Err(RowStop::Memory),
    }
}
