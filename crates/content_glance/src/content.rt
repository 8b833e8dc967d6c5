//! One value of a property context, as far as the node's data tells of it.
ghost use Rattle.std.specs.Prelude.{◌≡◌, IfOk, length};
ghost use Rattle.heap_on_node.specs.Heap.{item};
ghost use Rattle.content_glance.specs.Glances.{NamesSubnode, RecordTells, Tells};

use crate::held::{Away, field_bytes};
use bth_tree::bth_find;
use heap_on_node::HeapView;
use mapi_values::{Tag, Value, field_width, fits};
use pst_base::{Bytes, u16_at};
use std::alloc::{AllocError, Global};

/// The client of a heap that is a property context ([MS-PST] 2.3.1.2).
const PROPERTY_CONTEXT: u8 = 0xBC;

/// The length of a record's entry: kind and field ([MS-PST] 2.3.3.3).
const ENTRY_LEN: usize = 6;

/// What a node's data tells of one value.
#[derive(Debug, Drop)]
pub enum Glance {
    /// The value.
    Held(Value),
    /// There is none.
    Absent,
    /// There is one, and its bytes stand in a subnode.
    Below,
}

/// What a record tells of its value, or `None` where it has none whatever the subnodes are.
#[tactic(auto, unfolding(property_context::specs::Context::value_of, property_context::specs::Context::fitting, property_context::specs::Context::names))]
fn told_by(alloc: Global, h: &HeapView, id: u16, entry: &[u8]) -> Result<Option<Glance>, AllocError>
    requires { length entry.now ≡ 6 }
    ensures { IfOk result (RecordTells (item h.now) (id, entry.now)) }
{
    let kind = u16_at(entry, 0);
    let bytes = match field_bytes(h, field_width(kind), &entry[2..]) {
        Ok(bytes) => bytes,
        Err(Away::Below) => return Ok(Some(Glance::Below)),
        Err(Away::Nowhere) => return Ok(None),
    };
    if !fits(kind, bytes.len()) {
        return Ok(None);
    }
    let bytes = Bytes::from_slice(alloc, bytes)?;
    Ok(Some(Glance::Held(Value::new(Tag { id, kind }, bytes))))
}

/// What the data blocks of a node tell of the value with an id in its property context, whatever its subnodes are. `None` comes only where the node is no property context; that it is one isn't told by the rest, since other values aren't looked at. The error: memory ran out.
pub fn glance_at(alloc: Global, blocks: &[Bytes], id: u16) -> Result<Option<Glance>, AllocError>
    ensures told { IfOk result (Tells blocks.now id) }
    ensures below { IfOk result (NamesSubnode blocks.now id) }
{
    let Ok(view) = HeapView::read(blocks) else {
        return Ok(None);
    };
    let Some(root) = view.root_for(PROPERTY_CONTEXT) else {
        return Ok(None);
    };
    match bth_find(&view, root, u32::from(id)) {
        Ok(Some(entry)) if entry.len() == ENTRY_LEN => told_by(alloc, &view, id, entry),
        Ok(Some(_)) => Ok(None),
        Ok(None) => Ok(Some(Glance::Absent)),
        Err(_) => Ok(None),
    }
}
