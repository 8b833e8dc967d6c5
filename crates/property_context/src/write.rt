//! Writing a property context.
ghost use Rattle.std.specs.Prelude.{◌≡◌, ◌+◌, ◌-◌, ◌*◌, ◌≤◌, ◌<◌, ◌^◌, ◌∷◌, ◌++◌, ℕ, List, [], true, length, get_or, replicate, IfOk};
ghost use Rattle.byteorder.specs.Endian.{little_bytes};
ghost use Rattle.pst_base.specs.Flat.{Flat};
ghost use Rattle.heap_on_node.specs.Packing.{IsPacked, IsPlain, PacksTight};
ghost use Rattle.mapi_values.specs.Properties.{ascend_from};
ghost use Rattle.node_port.specs.Stops.{subs_size};
ghost use Rattle.write_limits.specs.Space.{kept_space, props_space};
ghost use Rattle.write_limits.specs.Limits.{long_values, props_fit};
ghost use Rattle.property_context.specs.Context.{IsPropertyContext};
ghost use Rattle.node_values.specs.Subnodes.{ids_ascend};
ghost use Rattle.property_context.specs.Placing.{AddsLong, Placing, span};
ghost use Rattle.property_context.specs.Writing.{PutsBytes, PutsValue, PutsValues, WritesFields};

use crate::placing::{Placer, all_placed, begin, place};
use crate::read::PROPERTY_CONTEXT;
use bth_tree::bth_make;
use heap_on_node::HeapMaker;
use mapi_values::{Props, Value, field_width};
use pst_base::{Blocks, Bytes, Subs};
use std::alloc::{AllocError, Global};

/// Puts bytes where an id names them ([MS-PST] 2.3.3.2): none under 0, up to 3580 in the heap, more in a subnode.
fn put_bytes(
    alloc: Global,
    h: &mut HeapMaker,
    p: &mut Placer,
    bytes: &[u8],
) -> Result<u32, AllocError>
    requires blocks { length h.old < 65536 }
    requires span { span p.old + 32 < 2 ^ 32 }
    requires placing { (long : List (ℕ × List ℕ)) × (rest : List Flat) × Placing p.old long rest }
    ensures { IfOk result (λ id. PutsBytes h.old h.new p.old p.new bytes.now id) }
{
    if bytes.len() == 0 {
        return Ok(0);
    }
    if bytes.len() <= 3580 {
        return Ok(h.add(bytes)?);
    }
    Ok(place(alloc, p, bytes)?)
}

/// The entry of a record ([MS-PST] 2.3.3.3): the kind, and a field of 4 bytes, filled up with zeros.
fn entry(alloc: Global, kind: u16, field: &[u8]) -> Result<Bytes, AllocError>
    requires { length field.now ≤ 4 }
    ensures { IfOk result (λ b. b ≡ little_bytes 2 kind ++ (field.now ++ replicate (4 - length field.now) 0)) }
{
    let mut out = Vec::with_capacity(alloc, 6)?;
    out.extend_from_slice(&kind.to_le_bytes())?;
    out.extend_from_slice(field)?;
    out.resize(6, 0)?;
    Ok(Bytes::from_vec(out))
}

/// Puts a value where a record names it.
fn put_value(
    alloc: Global,
    h: &mut HeapMaker,
    p: &mut Placer,
    value: &Value,
) -> Result<(u32, Bytes), AllocError>
    requires blocks { length h.old < 65536 }
    requires span { span p.old + 32 < 2 ^ 32 }
    requires placing { (long : List (ℕ × List ℕ)) × (rest : List Flat) × Placing p.old long rest }
    ensures { IfOk result (λ r. PutsValue h.old h.new p.old p.new value.now r) }
{
    let (id, kind, bytes) = (u32::from(value.id()), value.kind(), value.bytes());
    match field_width(kind) {
        Some(_) => Ok((id, entry(alloc, kind, bytes)?)),
        None => {
            let place = put_bytes(alloc, h, p, bytes)?;
            Ok((id, entry(alloc, kind, &place.to_le_bytes())?))
        }
    }
}

/// Puts values where records name them, into a heap of their own.
fn put_values(
    alloc: Global,
    p: &mut Placer,
    values: &[Value],
) -> Result<(HeapMaker, Vec<(u32, Bytes)>), AllocError>
    requires ascend { ascend_from 0 values.now ≡ true }
    requires span { span p.old + 32 * long_values values.now + 32 < 2 ^ 32 }
    requires placing { (rest : List Flat) × Placing p.old [] rest }
    ensures puts { IfOk result (λ made. PutsValues ([] ∷ []) made.0 p.old p.new values.now made.1.items) }
    ensures blocks { IfOk result (λ made. length made.0 ≤ 32769) }
    ensures few { IfOk result (λ made. length made.1.items ≤ 65536) }
    ensures packed { IfOk result (λ made. IsPacked made.0) }
{
    let mut heap = HeapMaker::new(alloc);
    let mut records = Vec::with_capacity(alloc, values.len())?;
    for value in values {
        records.push(put_value(alloc, &mut heap, p, value)?)?;
    }
    Ok((heap, records))
}

/// The data blocks of a node with these properties ([MS-PST] 2.3.3), and its subnodes: those of values of more than 3580 bytes, and the rest, whose ids ascend strictly.
pub fn write_pc(alloc: Global, p: &Props, rest: Subs) -> Result<(Blocks, Subs), AllocError>
    requires fit { props_fit p.now rest ≡ true }
    requires ascend { ids_ascend 0 rest ≡ true }
    ensures exact { IfOk result (λ made. IsPropertyContext made.0 made.1 p.now rest) }
    ensures fields { IfOk result (λ made. WritesFields made.0 p.now) }
    ensures subnodes { IfOk result (λ made. AddsLong p.now rest made.1) }
    ensures plain { IfOk result (λ made. (k : ℕ) → k < length made.0 → IsPlain k (get_or made.0 k [])) }
    ensures tight { IfOk result (λ made. PacksTight made.0) }
    ensures own { IfOk result (λ made. length made.0 + subs_size made.1 + 1 ≤ props_space p.now + subs_size rest) }
    ensures small { IfOk result (λ made. length made.0 + subs_size made.1 + 1 ≤ props_space p.now + kept_space rest) }
{
    let mut placer = begin(alloc, rest);
    let (mut heap, records) = put_values(alloc, &mut placer, p.values())?;
    let root = bth_make(alloc, &mut heap, 2, 6, records.as_slice())?;
    let blocks = heap.finish(PROPERTY_CONTEXT, root)?;
    Ok((blocks, all_placed(placer)?))
}
