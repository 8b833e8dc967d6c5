//! Reading all records of a tree.
ghost use Rattle.std.specs.Prelude.{◌≡◌, ◌≤◌, ◌<◌, ◌^◌, ◌+◌, length, map, drop, true, All, IfOk, OnOk};
ghost use Rattle.pst_base.specs.Stops.{Finds};
ghost use Rattle.heap_on_node.specs.Heap.{item};
ghost use Rattle.bth_tree.specs.Answers.{IsRecord, Puts, seen};
ghost use Rattle.bth_tree.specs.Records.{front, ordered, within};
ghost use Rattle.bth_tree.specs.Tree.{bth, filled, is_header, tree, under};

use crate::record::{BthFault, Record, key_at, record_at};
use heap_on_node::HeapView;
use pst_base::{MemOr, u8_at, u32_at};
use std::alloc::Global;

/// The bytes behind the first `n`.
pub fn behind(b: &[u8], n: usize) -> &[u8]
    requires { n ≤ length b.now }
    ensures { result.now ≡ drop n b.now }
{
    &b[n..]
}

/// Puts a leaf's records behind those that stand in `out`.
fn read_leaf<'a>(
    x: &'a [u8],
    k: usize,
    e: usize,
    out: &mut Vec<Record<'a>>,
) -> Result<(), MemOr<BthFault>>
    requires low { 1 ≤ k }
    requires high { k ≤ 4 }
    requires entry { e < 256 }
    requires each { All (IsRecord k e) out.old.items }
    ensures put { Puts result (ordered k e 0 (2 ^ 32) x.now) out.old.items out.new.items }
    ensures each { OnOk result (All (IsRecord k e) out.new.items) }
{
    let mut rest = x;
    let mut low = 0u64;
    while rest.len() > 0 {
        if rest.len() < k + e {
            return Err(MemOr::Refused(BthFault));
        }
        let record = record_at(rest, k, e);
        if u64::from(record.key) < low {
            return Err(MemOr::Refused(BthFault));
        }
        low = u64::from(record.key) + 1;
        out.push(record)?;
        rest = behind(rest, k + e);
    }
    Ok(())
}

/// The key of the pair at the front of bytes, or what is above each key where there is none.
pub fn end_at(b: &[u8], k: usize) -> u64
    requires low { 1 ≤ k }
    requires high { k ≤ 4 }
    ensures { result ≡ front k b.now }
{
    if b.len() < k + 4 {
        0x1_0000_0000
    } else {
        u64::from(record_at(b, k, 4).key)
    }
}

/// Whether the keys of the records from a place on ascend strictly, from `low` on and below `high`.
fn lie_within(records: &[Record], from: usize, low: u32, high: u64) -> bool
    requires { from ≤ length records.now }
    ensures { result ≡ within low high (drop from (map seen records.now)) }
{
    let mut least = u64::from(low);
    for i in from..records.len() {
        let key = u64::from(records[i].key);
        if key < least {
            return false;
        }
        if high <= key {
            return false;
        }
        least = key + 1;
    }
    true
}

/// Whether records were put behind the first `start`.
fn grown(out: &[Record], start: usize) -> Result<(), MemOr<BthFault>>
    requires { start ≤ length out.now }
    ensures { Finds (λ _. drop start (map seen out.now)) result (filled (drop start (map seen out.now))) }
{
    if out.len() == start {
        return Err(MemOr::Refused(BthFault));
    }
    Ok(())
}

/// Puts the records below an item of a level behind those that stand in `out`.
fn read_tree<'a>(
    h: &HeapView<'a>,
    k: usize,
    e: usize,
    level: u8,
    hid: u32,
    out: &mut Vec<Record<'a>>,
) -> Result<(), MemOr<BthFault>>
    requires low { 1 ≤ k }
    requires high { k ≤ 4 }
    requires entry { e < 256 }
    requires each { All (IsRecord k e) out.old.items }
    ensures put { Puts result (tree (item h.now) k e level hid) out.old.items out.new.items }
    ensures each { OnOk result (All (IsRecord k e) out.new.items) }
{
    let Some(x) = h.item(hid) else {
        return Err(MemOr::Refused(BthFault));
    };
    let start = out.len();
    if level == 0 {
        read_leaf(x, k, e, out)?;
        return grown(out.as_slice(), start);
    }
    let mut rest = x;
    while rest.len() > 0 {
        if rest.len() < k + 4 {
            return Err(MemOr::Refused(BthFault));
        }
        let pair = record_at(rest, k, 4);
        rest = behind(rest, k + 4);
        let end = end_at(rest, k);
        let from = out.len();
        read_tree(h, k, e, level - 1, key_at(pair.entry, 4), out)?;
        if !lie_within(out.as_slice(), from, pair.key, end) {
            return Err(MemOr::Refused(BthFault));
        }
    }
    grown(out.as_slice(), start)
}

/// Whether an item is the header of a tree with these lengths ([MS-PST] 2.3.2.1).
pub fn has_header(x: &[u8], k: u8, e: u8) -> bool
    ensures { result ≡ is_header k e x.now }
{
    x.len() >= 8 && u8_at(x, 0) == 0xB5 && u8_at(x, 1) == k && u8_at(x, 2) == e
}

/// Puts the records of the tree that a header begins behind those that stand in `out`.
fn read_under<'a>(
    h: &HeapView<'a>,
    k: usize,
    e: usize,
    x: &[u8],
    out: &mut Vec<Record<'a>>,
) -> Result<(), MemOr<BthFault>>
    requires low { 1 ≤ k }
    requires high { k ≤ 4 }
    requires entry { e < 256 }
    requires size { 8 ≤ length x.now }
    requires each { All (IsRecord k e) out.old.items }
    ensures put { Puts result (under (item h.now) k e x.now) out.old.items out.new.items }
    ensures each { OnOk result (All (IsRecord k e) out.new.items) }
{
    let (level, hid) = (u8_at(x, 3), u32_at(x, 4));
    if hid == 0 {
        return Ok(());
    }
    if level > 0 {
        return read_tree(h, k, e, level, hid, out);
    }
    let Some(leaf) = h.item(hid) else {
        return Err(MemOr::Refused(BthFault));
    };
    read_leaf(leaf, k, e, out)
}

/// The records of a tree, as `bth_read` gives them.
fn read_all<'a>(
    alloc: Global,
    h: &HeapView<'a>,
    hid: u32,
    key_len: u8,
    ent_len: u8,
) -> Result<Vec<Record<'a>>, MemOr<BthFault>>
    requires low { 1 ≤ key_len }
    requires high { key_len ≤ 4 }
    ensures exact { Finds (λ v. map seen v.items) result (bth (item h.now) hid key_len ent_len) }
    ensures each { IfOk result (λ v. All (IsRecord key_len ent_len) v.items) }
{
    let Some(x) = h.item(hid) else {
        return Err(MemOr::Refused(BthFault));
    };
    if !has_header(x, key_len, ent_len) {
        return Err(MemOr::Refused(BthFault));
    }
    let mut out = Vec::new(alloc);
    read_under(h, usize::from(key_len), usize::from(ent_len), x, &mut out)?;
    Ok(out)
}

/// The records of the tree under a heap id, with keys of `key_len` bytes, from 1 to 4, and entries of `ent_len` bytes, by ascending keys. A refusal comes exactly where no such tree stands there.
pub fn bth_read<'a>(
    alloc: Global,
    h: &HeapView<'a>,
    hid: u32,
    key_len: u8,
    ent_len: u8,
) -> Result<Vec<Record<'a>>, MemOr<BthFault>>
    requires low { 1 ≤ key_len }
    requires high { key_len ≤ 4 }
    ensures exact { Finds (λ v. map seen v.items) result (bth (item h.now) hid key_len ent_len) }
    ensures each { IfOk result (λ v. All (IsRecord key_len ent_len) v.items) }
    ensures ascend { IfOk result (λ v. within 0 (2 ^ 32) (map seen v.items) ≡ true) }
{
    read_all(alloc, h, hid, key_len, ent_len)
}
