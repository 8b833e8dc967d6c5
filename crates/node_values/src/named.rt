//! The bytes that ids name, and the blocks of those that stand in a subnode.
ghost use Rattle.std.specs.Prelude.{◌≡◌, IfOk};
ghost use Rattle.std.specs.List.{concat};
ghost use Rattle.pst_base.specs.Stops.{Finds};
ghost use Rattle.heap_on_node.specs.Heap.{item};
ghost use Rattle.node_values.specs.Named.{named, pieces};
ghost use Rattle.node_values.specs.Subnodes.{data_of};

use crate::finder::Finder;
use heap_on_node::HeapView;
use pst_base::{Blocks, Bytes, MemOr};
use std::alloc::{AllocError, Global};

/// What was asked for isn't there, or isn't in order.
#[derive(Clone, Copy, Debug, PartialEq, Eq)]
pub struct Absent;

/// The bytes of some blocks, one behind the other.
fn join(alloc: Global, blocks: &[Bytes]) -> Result<Bytes, AllocError>
    ensures { IfOk result (λ b. b ≡ concat blocks.now) }
{
    let mut out = Vec::new(alloc);
    for block in blocks {
        out.extend_from_slice(block.as_slice())?;
    }
    Ok(Bytes::from_vec(out))
}

/// The bytes that an id of a heap item or a subnode names ([MS-PST] 2.3.3.2): none under 0.
#[tactic(auto, unfolding(crate::specs::Named::named))]
pub fn named_bytes(
    alloc: Global,
    h: &HeapView,
    finder: &Finder,
    id: u32,
) -> Result<Bytes, MemOr<Absent>>
    ensures { Finds (λ b. b) result (named (item h.now) (data_of finder.now) id) }
{
    if id == 0 {
        return Ok(Bytes::new(alloc));
    }
    if id % 32 == 0 {
        let Some(bytes) = h.item(id) else {
            return Err(MemOr::Refused(Absent));
        };
        return Ok(Bytes::from_slice(alloc, bytes)?);
    }
    let Some(blocks) = finder.data(id) else {
        return Err(MemOr::Refused(Absent));
    };
    Ok(join(alloc, blocks)?)
}

/// The blocks of the data of a subnode: 8176 bytes in each but the last ([MS-PST] 2.2.2.8.3.1).
pub fn cut(alloc: Global, bytes: &[u8]) -> Result<Blocks, AllocError>
    ensures { IfOk result (λ blocks. blocks ≡ pieces bytes.now) }
{
    let mut pieces = Blocks::new(alloc);
    let mut rest = bytes;
    while rest.len() > 0 {
        let (piece, others) = rest.split_at(rest.len().min(8176));
        pieces.push(Bytes::from_slice(alloc, piece)?)?;
        rest = others;
    }
    Ok(pieces)
}
