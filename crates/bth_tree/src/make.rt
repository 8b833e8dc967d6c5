//! Making a tree.
ghost use Rattle.std.specs.Prelude.{◌≡◌, ◌≤◌, ◌<◌, ◌^◌, ◌+◌, length, true, IfOk};
ghost use Rattle.heap_on_node.specs.Packing.{Adds};
ghost use Rattle.bth_tree.specs.Records.{within};
ghost use Rattle.bth_tree.specs.Making.{AddsPart, AreRecords, Makes, MakesLevel, MakesLevels, header_of, chunks, items_made, per_item, spelled};

use heap_on_node::HeapMaker;
use pst_base::{Bytes, u32_at};
use std::alloc::{AllocError, Global};

/// The bytes of records with keys of `k` bytes.
fn spell(alloc: Global, k: usize, recs: &[(u32, Bytes)]) -> Result<Vec<u8>, AllocError>
    requires { k ≤ 4 }
    ensures { IfOk result (λ x. x.items ≡ spelled k recs.now) }
{
    let mut out = Vec::new(alloc);
    for record in recs {
        let key = record.0.to_le_bytes();
        out.extend_from_slice(&key[..k])?;
        out.extend_from_slice(record.1.as_slice())?;
    }
    Ok(out)
}

/// Adds an item of these records, and gives the pair that names it.
fn put_part(
    alloc: Global,
    h: &mut HeapMaker,
    k: usize,
    part: &[(u32, Bytes)],
) -> Result<(u32, Bytes), AllocError>
    requires key { k ≤ 4 }
    requires some { 0 < length part.now }
    requires size { length (spelled k part.now) ≤ 3580 }
    requires blocks { length h.old < 65536 }
    ensures { IfOk result (λ p. AddsPart h.old h.new k part.now p) }
{
    let item = spell(alloc, k, part)?;
    let hid = h.add(item.as_slice())?;
    Ok((part[0].0, Bytes::from_slice(alloc, &hid.to_le_bytes())?))
}

/// Adds a level of items with these records, each as full as 3580 bytes allow but the last, and gives the pairs that name them.
fn put_level(
    alloc: Global,
    h: &mut HeapMaker,
    k: usize,
    e: usize,
    recs: &[(u32, Bytes)],
) -> Result<Vec<(u32, Bytes)>, AllocError>
    requires low { 1 ≤ k }
    requires high { k ≤ 4 }
    requires entry { e < 256 }
    requires records { AreRecords k e recs.now }
    requires blocks { length h.old + chunks (per_item (k + e)) (length recs.now) ≤ 65536 }
    ensures level { IfOk result (λ ps. MakesLevel h.old h.new k recs.now ps.items) }
    ensures count { IfOk result (λ ps. length ps.items ≡ chunks (per_item (k + e)) (length recs.now)) }
{
    let per = 3580 / (k + e);
    let mut pairs = Vec::new(alloc);
    let mut rest = recs;
    while rest.len() > 0 {
        let (part, others) = rest.split_at(per.min(rest.len()));
        pairs.push(put_part(alloc, h, k, part)?)?;
        rest = others;
    }
    Ok(pairs)
}

/// Adds all levels of a tree of some records, and gives its level count and its root.
fn put_levels(
    alloc: Global,
    h: &mut HeapMaker,
    k: usize,
    e: usize,
    recs: &[(u32, Bytes)],
) -> Result<(u8, u32), AllocError>
    requires low { 1 ≤ k }
    requires high { k ≤ 4 }
    requires entry { e < 256 }
    requires some { 0 < length recs.now }
    requires records { AreRecords k e recs.now }
    requires ascend { within 0 (2 ^ 32) recs.now ≡ true }
    requires blocks { length h.old + items_made k e (length recs.now) < 65536 }
    ensures { IfOk result (λ top. MakesLevels h.old h.new k e recs.now top.0 top.1) }
{
    let mut pairs = put_level(alloc, h, k, e, recs)?;
    let mut level = 0u8;
    'levels: while pairs.len() > 1 {
        pairs = put_level(alloc, h, k, 4, pairs.as_slice())?;
        level += 1;
    }
    Ok((level, u32_at(pairs[0].1.as_slice(), 0)))
}

/// Adds the header of a tree ([MS-PST] 2.3.2.1), and gives its heap id.
fn put_header(
    h: &mut HeapMaker,
    key_len: u8,
    ent_len: u8,
    level: u8,
    root: u32,
) -> Result<u32, AllocError>
    requires { length h.old < 65536 }
    ensures { IfOk result (λ hid. Adds h.old (header_of key_len ent_len level root) h.new hid) }
{
    let r = root.to_le_bytes();
    h.add(&[0xB5, key_len, ent_len, level, r[0], r[1], r[2], r[3]])
}

/// Makes a tree of records with keys of `key_len` bytes, from 1 to 4, that ascend strictly, and entries of `ent_len` bytes, and gives its heap id. An `Err` leaves items that nothing names.
pub fn bth_make(
    alloc: Global,
    h: &mut HeapMaker,
    key_len: u8,
    ent_len: u8,
    recs: &[(u32, Bytes)],
) -> Result<u32, AllocError>
    requires low { 1 ≤ key_len }
    requires high { key_len ≤ 4 }
    requires records { AreRecords key_len ent_len recs.now }
    requires ascend { within 0 (2 ^ 32) recs.now ≡ true }
    requires blocks { length h.old + items_made key_len ent_len (length recs.now) < 65536 }
    ensures { IfOk result (λ hid. Makes h.old h.new hid key_len ent_len recs.now) }
{
    if recs.len() == 0 {
        return put_header(h, key_len, ent_len, 0, 0);
    }
    let (level, root) = put_levels(alloc, h, usize::from(key_len), usize::from(ent_len), recs)?;
    put_header(h, key_len, ent_len, level, root)
}
