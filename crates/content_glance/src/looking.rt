//! Which rows a table has, as far as some blocks of its node tell.
ghost use Rattle.std.specs.Prelude.{ℕ, List, IfOk};
ghost use Rattle.heap_on_node.specs.Heap.{IsHeap, IsStart};
ghost use Rattle.heap_edit.specs.Known.{AreKnown, blocks_now};
ghost use Rattle.content_glance.specs.Rows.{NamesIndex, TellsKnown};

use heap_edit::{HeapStop, KnownHeap};
use index_edit::{IndexStop, find_entry};
use mail_objects::table_context::{TABLE_CONTEXT, names_index};
use pst_base::{MemOr, u32_at};

/// Why some blocks of a table tell nothing of a row.
#[derive(Clone, Copy, Debug, PartialEq, Eq, Drop)]
pub enum Untold {
    /// The block at this position isn't known. Make it known, and ask again.
    Lacks(usize),
    /// The blocks don't tell it in this way.
    Unclear,
}

/// What is told where the heap stopped.
fn stopped(stop: MemOr<HeapStop>) -> Untold {
    match stop {
        MemOr::Refused(HeapStop::Lacks(position)) => Untold::Lacks(position),
        _ => Untold::Unclear,
    }
}

/// The root of a heap of tables.
fn root_of(heap: &KnownHeap) -> Result<u32, Untold>
    ensures { IfOk result (λ root. (old : List (List ℕ)) → AreKnown heap.now old → IsStart (blocks_now heap.now old) → IsHeap (blocks_now heap.now old) 0x7C root) }
{
    match heap.client_root() {
        Ok((client, root)) if client == TABLE_CONTEXT => Ok(root),
        Ok(_) => Err(Untold::Unclear),
        Err(stop) => Err(stopped(stop)),
    }
}

/// The heap id of the row index that a table's header names ([MS-PST] 2.3.4.1).
fn index_of(heap: &KnownHeap) -> Result<u32, Untold>
    ensures { IfOk result (NamesIndex heap.now) }
{
    let root = root_of(heap)?;
    let head = match heap.find(root) {
        Ok(Some(head)) => head,
        Ok(None) => return Err(Untold::Unclear),
        Err(stop) => return Err(stopped(stop)),
    };
    if !names_index(head) {
        return Err(Untold::Unclear);
    }
    Ok(u32_at(head, 10))
}

/// Whether the table in a heap of which some blocks are known has a row with this id, whatever the other blocks and the subnodes are. Only blocks on the way to the row's record are looked at ([MS-PST] 2.3.4.3). Takes no memory.
pub fn look_for_row(heap: &KnownHeap, id: u32) -> Result<bool, Untold>
    ensures { IfOk result (TellsKnown heap.now id) }
{
    let index = index_of(heap)?;
    match find_entry(heap, index, id) {
        Ok(entry) => Ok(entry.is_some()),
        Err(IndexStop::Heap(stop)) => Err(stopped(stop)),
        Err(_) => Err(Untold::Unclear),
    }
}
