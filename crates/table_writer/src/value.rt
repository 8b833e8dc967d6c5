//! Putting a value where a cell can name it.
ghost use Rattle.std.specs.Prelude.{◌≡◌, ◌≤◌, ◌<◌, ◌^◌, ◌∷◌, [], length, IfOk};
ghost use Rattle.heap_on_node.specs.Packing.{Adds};
ghost use Rattle.table_writer.specs.Making.{IsMade, PutsValue};
ghost use Rattle.table_writer.specs.Woven.{Weaves, all_woven};

use crate::woven::Woven;
use heap_on_node::HeapMaker;
use node_values::cut;
use pst_base::Blocks;
use std::alloc::{AllocError, Global};

/// What is made of a table so far: its heap, for each byte the id of the item that has just this byte or 0, and the subnodes.
#[derive(Debug, Drop)]
pub struct Made<'a> {
    pub maker: HeapMaker,
    pub singles: Vec<u32>,
    pub subs: Woven<'a>,
}

/// Adds an item.
pub fn put_item<'a>(made: Made<'a>, item: &[u8]) -> Result<(Made<'a>, u32), AllocError>
    requires made { IsMade made }
    requires size { length item.now ≤ 3580 }
    requires blocks { length made.maker < 65536 }
    ensures made { IfOk result (λ r. IsMade r.0) }
    ensures adds { IfOk result (λ r. Adds made.entry.maker item.now r.0.maker r.1) }
    ensures subs { IfOk result (λ r. all_woven r.0.subs ≡ all_woven made.entry.subs) }
    ensures singles { IfOk result (λ r. r.0.singles.items ≡ made.entry.singles.items) }
    ensures fits { IfOk result (λ r. r.1 < 2 ^ 32) }
{
    let mut maker = made.maker;
    let hid = maker.add(item)?;
    let new = Made {
        maker,
        singles: made.singles,
        subs: made.subs,
    };
    Ok((new, hid))
}

/// Puts a value of one byte into the heap, where it stands once however often it is put: items of one byte would take far more blocks than their bytes.
fn put_byte<'a>(made: Made<'a>, byte: u8) -> Result<(Made<'a>, u32), AllocError>
    requires made { IsMade made }
    requires blocks { length made.maker < 65536 }
    ensures made { IfOk result (λ r. IsMade r.0) }
    ensures puts { IfOk result (λ r. PutsValue made.entry r.0 (byte ∷ []) r.1) }
{
    let known = made.singles[usize::from(byte)];
    if known != 0 {
        return Ok((made, known));
    }
    let (made, hid) = put_item(made, &[byte])?;
    let mut singles = made.singles;
    singles[usize::from(byte)] = hid;
    let new = Made {
        maker: made.maker,
        singles,
        subs: made.subs,
    };
    Ok((new, hid))
}

/// Adds a subnode.
pub fn put_sub<'a>(
    alloc: Global,
    made: Made<'a>,
    blocks: Blocks,
) -> Result<(Made<'a>, u32), AllocError>
    requires made { IsMade made }
    requires few { length (all_woven made.subs) < 2 ^ 26 }
    ensures made { IfOk result (λ r. IsMade r.0) }
    ensures adds { IfOk result (λ r. Weaves (all_woven made.entry.subs) blocks (all_woven r.0.subs) r.1) }
    ensures maker { IfOk result (λ r. r.0.maker ≡ made.entry.maker) }
    ensures singles { IfOk result (λ r. r.0.singles.items ≡ made.entry.singles.items) }
    ensures fits { IfOk result (λ r. r.1 < 2 ^ 32) }
{
    let (subs, nid) = made.subs.add(alloc, blocks)?;
    let new = Made {
        maker: made.maker,
        singles: made.singles,
        subs,
    };
    Ok((new, nid))
}

/// Puts bytes into the heap, or into a subnode where they are more than 3580, and gives what names them: 0 where there are none. One byte shares the item of those before it that are the same.
pub fn put_value<'a>(
    alloc: Global,
    made: Made<'a>,
    bytes: &[u8],
) -> Result<(Made<'a>, u32), AllocError>
    requires made { IsMade made }
    requires blocks { length made.maker < 65536 }
    requires few { length (all_woven made.subs) < 2 ^ 26 }
    ensures made { IfOk result (λ r. IsMade r.0) }
    ensures puts { IfOk result (λ r. PutsValue made.entry r.0 bytes.now r.1) }
    ensures fits { IfOk result (λ r. r.1 < 2 ^ 32) }
{
    if bytes.len() == 0 {
        return Ok((made, 0));
    }
    if bytes.len() == 1 {
        return put_byte(made, bytes[0]);
    }
    if bytes.len() <= 3580 {
        return put_item(made, bytes);
    }
    put_sub(alloc, made, cut(alloc, bytes)?)
}
