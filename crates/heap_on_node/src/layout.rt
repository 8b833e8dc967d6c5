//! The bytes of a heap's blocks.
ghost use Rattle.std.specs.Prelude.{◌≡◌, ◌<◌, ◌^◌, ◌+◌, ◌%◌, true, ◌++◌, length, map, replicate, OnOk, IfOk};
ghost use Rattle.std.specs.List.{concat, flat_map};
ghost use Rattle.byteorder.specs.Endian.{little_bytes};
ghost use Rattle.heap_on_node.specs.Layout.{block, free_among, head_rest, offsets, page_map, total};
ghost use Rattle.heap_on_node.specs.Packing.{fit_block, has_room, head_size};

use crate::draft::Draft;
use pst_base::Bytes;
use std::alloc::{AllocError, Global};

/// The fill levels of a block that has most of them.
const ZEROS: [u8; 64] = [0; 64];

/// How many bytes stand before the items of block `k`.
fn head_len(k: usize) -> usize
    ensures { result ≡ head_size k }
{
    if k == 0 {
        12
    } else if k % 128 == 8 {
        66
    } else {
        2
    }
}

/// Whether block `k` has room for `count` items of `n` bytes together.
pub fn is_room(k: usize, count: usize, n: usize) -> bool
    requires count { count < 2 ^ 62 }
    requires n { n < 2 ^ 62 }
    ensures { result ≡ has_room k count n }
{
    count <= 2047 && head_len(k) + n + n % 2 + 6 + 2 * count <= 8176
}

/// Writes the signature, the client and the root at the end, or fill levels of 0.
#[tactic(auto, unfolding(crate::specs::Layout::head_rest))]
fn push_head_rest(out: &mut Vec<u8>, k: usize, client: u8, root: u32) -> Result<(), AllocError>
    ensures { OnOk result (out.new.items ≡ out.old.items ++ head_rest k client root) }
{
    if k == 0 {
        out.push(0xEC)?;
        out.push(client)?;
        out.extend_from_slice(&root.to_le_bytes())?;
        out.extend_from_slice(&ZEROS[..4])
    } else {
        out.extend_from_slice(&ZEROS[..head_len(k) - 2])
    }
}

/// Writes where items of these sizes begin, the first at `from`, and where the last ends.
fn push_offsets(out: &mut Vec<u8>, from: u16, sizes: &[u16]) -> Result<(), AllocError>
    requires { from + total sizes.now < 2 ^ 16 }
    ensures { OnOk result (out.new.items ≡ out.old.items ++ flat_map (little_bytes 2) (offsets from sizes.now)) }
{
    let mut at = from;
    for size in sizes {
        out.extend_from_slice(&at.to_le_bytes())?;
        at += *size;
    }
    out.extend_from_slice(&at.to_le_bytes())
}

/// How many of some sizes are 0.
fn free_count(sizes: &[u16]) -> u16
    requires { length sizes.now < 2 ^ 16 }
    ensures { result ≡ free_among sizes.now }
{
    let mut free = 0;
    for size in sizes {
        if *size == 0 {
            free += 1;
        }
    }
    free
}

/// Writes the page map of items of these sizes at the end; the first begins at `from`.
#[tactic(auto, unfolding(crate::specs::Layout::page_map))]
fn push_map(out: &mut Vec<u8>, from: u16, sizes: &[u16]) -> Result<(), AllocError>
    requires count { length sizes.now < 2 ^ 16 }
    requires fits { from + total sizes.now < 2 ^ 16 }
    ensures { OnOk result (out.new.items ≡ out.old.items ++ page_map from sizes.now) }
{
    out.extend_from_slice(&(sizes.len() as u16).to_le_bytes())?;
    out.extend_from_slice(&free_count(sizes).to_le_bytes())?;
    push_offsets(out, from, sizes)
}

/// Writes a draft's items, and a byte behind them where they have an odd number of bytes.
fn push_items(out: &mut Vec<u8>, draft: &Draft) -> Result<(), AllocError>
    ensures { OnOk result (out.new.items ≡ out.old.items ++ (concat draft.now ++ replicate (length (concat draft.now) % 2) 0)) }
{
    out.extend_from_slice(draft.bytes())?;
    if draft.size() % 2 == 1 {
        out.extend_from_slice(&ZEROS[..1])?;
    }
    Ok(())
}

/// Block `k` of a heap, with the items of a draft.
#[tactic(auto, unfolding(crate::specs::Layout::block))]
pub fn block_of(
    alloc: Global,
    k: usize,
    draft: &Draft,
    client: u8,
    root: u32,
) -> Result<Bytes, AllocError>
    requires { fit_block k draft.now ≡ true }
    ensures { IfOk result (λ b. b ≡ block k client root draft.now) }
{
    let (head, size) = (head_len(k), draft.size());
    let map = head + size + size % 2;
    let mut out = Vec::with_capacity(alloc, map + 6 + 2 * draft.count())?;
    out.extend_from_slice(&(map as u16).to_le_bytes())?;
    push_head_rest(&mut out, k, client, root)?;
    push_items(&mut out, draft)?;
    push_map(&mut out, head as u16, draft.sizes())?;
    Ok(Bytes::from_vec(out))
}
