//! The values of records.
ghost use Rattle.std.specs.Prelude.{◌≡◌, ◌==◌, ℕ, false, length, map, All, IfOk, MatchOption};
ghost use Rattle.std.specs.Ordering.{nat_cmp};
ghost use Rattle.std.specs.BTreeSet.{contains};
ghost use Rattle.pst_base.specs.Stops.{Finds};
ghost use Rattle.heap_on_node.specs.Heap.{item};
ghost use Rattle.bth_tree.specs.Answers.{IsRecord, seen};
ghost use Rattle.property_context.specs.Context.{fitting, is_named, names, of_field, value_of, values_of};
ghost use Rattle.node_values.specs.Subnodes.{data_of};

use bth_tree::Record;
use heap_on_node::HeapView;
use mapi_values::{Tag, Value, field_width, fits};
use node_values::{Absent, Finder, named_bytes};
use pst_base::{Bytes, MemOr, u16_at, u32_at};
use std::alloc::{AllocError, Global};
use std::collections::BTreeSet;

/// The bytes of the value of a field of 4 bytes.
fn field_bytes(
    alloc: Global,
    h: &HeapView,
    finder: &Finder,
    width: Option<usize>,
    field: &[u8],
) -> Result<Bytes, MemOr<Absent>>
    requires { length field.now ≡ 4 }
    ensures { Finds (λ b. b) result (of_field (item h.now) (data_of finder.now) width field.now) }
{
    match width {
        Some(width) => Ok(Bytes::from_slice(alloc, &field[..width.min(4)])?),
        None => named_bytes(alloc, h, finder, u32_at(field, 0)),
    }
}

/// The value with this tag and these bytes, if its kind may have so many.
#[tactic(auto, unfolding(crate::specs::Context::fitting))]
fn fitting(tag: Tag, bytes: Bytes) -> Result<Value, MemOr<Absent>>
    ensures { Finds (λ v. v) result (fitting tag.id tag.kind bytes) }
{
    if fits(tag.kind, bytes.len()) {
        Ok(Value::new(tag, bytes))
    } else {
        Err(MemOr::Refused(Absent))
    }
}

/// The value of a record ([MS-PST] 2.3.3.3).
#[tactic(auto, unfolding(crate::specs::Context::value_of))]
fn value_at(
    alloc: Global,
    h: &HeapView,
    finder: &Finder,
    property: &Record,
) -> Result<Value, MemOr<Absent>>
    requires { IsRecord 2 6 property.now }
    ensures { Finds (λ v. v) result (value_of (item h.now) (data_of finder.now) (seen property.now)) }
{
    let kind = u16_at(property.entry, 0);
    let bytes = field_bytes(alloc, h, finder, field_width(kind), &property.entry[2..])?;
    let id = property.key as u16;
    fitting(Tag { id, kind }, bytes)
}

/// The values of all records.
pub fn values_at(
    alloc: Global,
    h: &HeapView,
    finder: &Finder,
    records: &[Record],
) -> Result<Vec<Value>, MemOr<Absent>>
    requires { All (IsRecord 2 6) records.now }
    ensures { Finds (λ v. v.items) result (values_of (item h.now) (data_of finder.now) (map seen records.now)) }
{
    let mut values = Vec::with_capacity(alloc, records.len())?;
    for property in records {
        values.push(value_at(alloc, h, finder, property)?)?;
    }
    Ok(values)
}

/// The id of the subnode that a record names, if it names one.
#[tactic(auto, unfolding(crate::specs::Context::names))]
fn subnode_of(property: &Record) -> Option<u32>
    requires { IsRecord 2 6 property.now }
    ensures { MatchOption result ((nid : ℕ) → names nid (seen property.now) ≡ false) (λ id. (nid : ℕ) → names nid (seen property.now) ≡ (id == nid)) }
{
    let id = u32_at(&property.entry[2..], 0);
    if field_width(u16_at(property.entry, 0)).is_some() || id % 32 == 0 {
        return None;
    }
    Some(id)
}

/// The ids of the subnodes that the records name.
pub fn named_ids(alloc: Global, records: &[Record]) -> Result<BTreeSet<u32>, AllocError>
    requires { All (IsRecord 2 6) records.now }
    ensures { IfOk result (λ ids. (nid : ℕ) → contains nat_cmp ids nid ≡ is_named (map seen records.now) nid) }
{
    let mut ids = BTreeSet::new(alloc);
    for property in records {
        if let Some(id) = subnode_of(property) {
            ids.insert(id)?;
        }
    }
    Ok(ids)
}
