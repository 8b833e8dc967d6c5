//! Which rows a table has, and how many, as far as the node's data tells of them.
ghost use Rattle.std.specs.Prelude.{IfOk};
ghost use Rattle.content_glance.specs.Rows.{TellsCount, TellsRow};

use bth_tree::{bth_find, bth_read};
use heap_on_node::HeapView;
use mail_objects::table_context::{TABLE_CONTEXT, names_index};
use pst_base::{Bytes, MemOr, u32_at};
use std::alloc::{AllocError, Global};

/// Whether the table that the data blocks of a node are has a row with this id, whatever its subnodes are: the ids of rows stand in the blocks, whose other values aren't looked at ([MS-PST] 2.3.4.3). `None` comes only where the node is no table; that it is one isn't told by the rest. Takes no memory.
pub fn has_row_at(blocks: &[Bytes], id: u32) -> Option<bool>
    ensures { TellsRow blocks.now id result }
{
    let Ok(view) = HeapView::read(blocks) else {
        return None;
    };
    let root = view.root_for(TABLE_CONTEXT)?;
    let head = view.item(root)?;
    if !names_index(head) {
        return None;
    }
    match bth_find(&view, u32_at(head, 10), id) {
        Ok(entry) => Some(entry.is_some()),
        Err(_) => None,
    }
}

/// How many rows the table that the data blocks of a node are has, whatever its subnodes are: the records of the row index are counted, and no row is read ([MS-PST] 2.3.4.3). `None` comes only where the node is no table; that it is one isn't told by the rest. The error: memory ran out.
pub fn row_count_at(alloc: Global, blocks: &[Bytes]) -> Result<Option<usize>, AllocError>
    ensures { IfOk result (TellsCount blocks.now) }
{
    let Ok(view) = HeapView::read(blocks) else {
        return Ok(None);
    };
    let Some(root) = view.root_for(TABLE_CONTEXT) else {
        return Ok(None);
    };
    let Some(head) = view.item(root) else {
        return Ok(None);
    };
    if !names_index(head) {
        return Ok(None);
    }
    match bth_read(alloc, &view, u32_at(head, 10), 4, 4) {
        Ok(records) => Ok(Some(records.len())),
        Err(MemOr::Memory) => Err(AllocError),
        Err(MemOr::Refused(_)) => Ok(None),
    }
}
