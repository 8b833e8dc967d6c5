//! Reading a property context.
ghost use Rattle.std.specs.Prelude.{◌≡◌, true, IfOk};
ghost use Rattle.property_context.specs.Context.{ReadsPc};
ghost use Rattle.node_values.specs.Subnodes.{ids_ascend};

use crate::value::{named_ids, values_at};
use bth_tree::bth_read;
use heap_on_node::HeapView;
use mapi_values::Props;
use node_values::Finder;
use pst_base::{Bytes, MemOr, Subs};
use std::alloc::Global;

/// The client of a heap that is a property context ([MS-PST] 2.3.1.2).
pub const PROPERTY_CONTEXT: u8 = 0xBC;

/// Why blocks and subnodes aren't a property context: the first of these that holds.
#[derive(Clone, Copy, Debug, PartialEq, Eq)]
pub enum PcFault {
    /// The blocks are no heap of a property context.
    Heap,
    /// No BTree of properties stands under the heap's root.
    Bth,
    /// A property has no value, or not one of a length that its kind may have.
    Pc,
}

/// The properties in the data blocks of a node and its subnodes ([MS-PST] 2.3.3), and those subnodes that no property names. A refusal comes exactly where there is no property context, with the first fault in the order of `PcFault`. The order of the subnodes' ids stays.
pub fn read_pc(
    alloc: Global,
    blocks: &[Bytes],
    subs: &Subs,
) -> Result<(Props, Subs), MemOr<PcFault>>
    ensures exact { ReadsPc blocks.now subs.now result }
    ensures ascend { IfOk result (λ found. ids_ascend 0 subs.now ≡ true → ids_ascend 0 found.1 ≡ true) }
{
    let Ok(view) = HeapView::read(blocks) else {
        return Err(MemOr::Refused(PcFault::Heap));
    };
    let Some(root) = view.root_for(PROPERTY_CONTEXT) else {
        return Err(MemOr::Refused(PcFault::Heap));
    };
    let records = match bth_read(alloc, &view, root, 2, 6) {
        Ok(records) => records,
        Err(MemOr::Memory) => return Err(MemOr::Memory),
        Err(MemOr::Refused(_)) => return Err(MemOr::Refused(PcFault::Bth)),
    };
    let finder = Finder::new(alloc, subs)?;
    let values = match values_at(alloc, &view, &finder, records.as_slice()) {
        Ok(values) => values,
        Err(MemOr::Memory) => return Err(MemOr::Memory),
        Err(MemOr::Refused(_)) => return Err(MemOr::Refused(PcFault::Pc)),
    };
    let ids = named_ids(alloc, records.as_slice())?;
    Ok((Props::from_vec(values), finder.without(alloc, &ids)?))
}
