//! One block of a heap, laid anew with other items.
ghost use Rattle.std.specs.Prelude.{◌≡◌, ◌≤◌, ◌<◌, ◌+◌, ◌-◌, ◌*◌, ◌^◌, ◌↔◌, ◌∷◌, ◌++◌, [], length, get_or, IfOk, IsTrue};
ghost use Rattle.heap_on_node.specs.Heap.{HasMap, count_of, map_of, offset_of};
ghost use Rattle.heap_on_node.specs.Packing.{fit_block};
ghost use Rattle.pst_base.specs.Fields.{number_at};
ghost use Rattle.heap_edit.specs.Items.{Lays, items_of};

use heap_on_node::{Draft, block_of, bounds, count, is_room};
use pst_base::{Bytes, MemOr, u8_at, u16_at, u32_at};
use std::alloc::{AllocError, Global};

/// A block has no room for its items.
#[derive(Clone, Copy, Debug, PartialEq, Eq, Drop)]
pub(crate) struct NoRoom;

/// The client and the root that the first block of a heap has ([MS-PST] 2.3.1.2), or zeros, which the others are laid with.
#[derive(Clone, Copy, Debug, PartialEq, Eq, Drop)]
pub(crate) struct Head {
    pub(crate) client: u8,
    pub(crate) root: u32,
}

/// Where a block's page map stands.
#[tactic(auto, unfolding(heap_on_node::specs::Heap::map_of))]
fn map_at(b: &[u8]) -> u16
    requires { 2 ≤ length b.now }
    ensures { result ≡ map_of b.now }
{
    u16_at(b, 0)
}

/// Where item `i + 1` of a block begins, and item `i` ends.
#[tactic(auto, unfolding(heap_on_node::specs::Heap::offset_of))]
fn offset_at(b: &[u8], i: u16) -> u16
    requires { map_of b.now + 6 + 2 * i ≤ length b.now }
    ensures { result ≡ offset_of b.now i }
{
    let map = map_at(b);
    u16_at(b, usize::from(map) + 4 + 2 * usize::from(i))
}

/// Whether a block's page map lies in it, with offsets that don't fall and end before it.
pub(crate) fn has_map(b: &[u8]) -> bool
    ensures { IsTrue result ↔ HasMap b.now }
{
    if b.len() < 2 {
        return false;
    }
    let map = map_at(b);
    if b.len() < usize::from(map) + 4 {
        return false;
    }
    let count = count(b);
    if b.len() < usize::from(map) + 6 + 2 * usize::from(count) || offset_at(b, count) > map {
        return false;
    }
    for i in 0..count {
        if offset_at(b, i + 1) < offset_at(b, i) {
            return false;
        }
    }
    true
}

/// Item `i` of a block.
pub(crate) fn slot(b: &[u8], i: u16) -> &[u8]
    requires map { HasMap b.now }
    requires low { 0 < i }
    requires high { i ≤ count_of b.now }
    ensures item { result.now ≡ get_or (items_of b.now) (i - 1) [] }
    ensures small { length result.now < 2 ^ 16 }
{
    let (start, end) = bounds(b, i);
    &b[usize::from(start)..usize::from(end)]
}

/// The items of a block.
fn draft_of(alloc: Global, b: &[u8]) -> Result<Draft, AllocError>
    requires { HasMap b.now }
    ensures { IfOk result (λ d. d ≡ items_of b.now) }
{
    let count = count(b);
    let mut draft = Draft::new(alloc);
    for j in 0..count {
        draft.push(slot(b, j + 1))?;
    }
    Ok(draft)
}

/// Whether the items of a draft fit block `k`.
fn fits(k: usize, draft: &Draft) -> bool
    ensures { result ≡ fit_block k draft.now }
{
    draft.count() <= 2047 && draft.size() <= 8176 && is_room(k, draft.count(), draft.size())
}

/// Block `k` of a heap with the items of a draft, where they have room.
fn lay(alloc: Global, k: usize, head: Head, draft: &Draft) -> Result<Bytes, MemOr<NoRoom>>
    ensures { Lays k head.client head.root draft.now result }
{
    if !fits(k, draft) {
        return Err(MemOr::Refused(NoRoom));
    }
    Ok(block_of(alloc, k, draft, head.client, head.root)?)
}

/// What block `k` of a heap is laid with.
pub(crate) fn head_of(k: usize, b: &[u8]) -> Head
    requires { k ≡ 0 → 12 ≤ length b.now }
    ensures { k ≡ 0 → (result.client ≡ number_at 1 3 b.now) × (result.root ≡ number_at 4 4 b.now) }
{
    if k == 0 {
        Head {
            client: u8_at(b, 3),
            root: u32_at(b, 4),
        }
    } else {
        Head { client: 0, root: 0 }
    }
}

/// Block `k` of a heap with its items, laid with a head. `NoRoom` comes exactly where the items don't fit.
pub(crate) fn laid_with(
    alloc: Global,
    k: usize,
    head: Head,
    b: &[u8],
) -> Result<Bytes, MemOr<NoRoom>>
    requires { HasMap b.now }
    ensures { Lays k head.client head.root (items_of b.now) result }
{
    let draft = draft_of(alloc, b)?;
    lay(alloc, k, head, &draft)
}

/// Block `k` of a heap with its items and one more behind them. `NoRoom` comes exactly where the items don't fit.
pub(crate) fn grown(
    alloc: Global,
    k: usize,
    head: Head,
    b: &[u8],
    x: &[u8],
) -> Result<Bytes, MemOr<NoRoom>>
    requires map { HasMap b.now }
    requires small { length x.now < 2 ^ 16 }
    ensures { Lays k head.client head.root (items_of b.now ++ x.now ∷ []) result }
{
    let mut draft = draft_of(alloc, b)?;
    draft.push(x)?;
    lay(alloc, k, head, &draft)
}

/// Block `k` of a heap with one item.
pub(crate) fn first_in(alloc: Global, k: usize, x: &[u8]) -> Result<Bytes, MemOr<NoRoom>>
    requires { length x.now < 2 ^ 16 }
    ensures { Lays k 0 0 (x.now ∷ []) result }
{
    let mut draft = Draft::new(alloc);
    draft.push(x)?;
    lay(alloc, k, Head { client: 0, root: 0 }, &draft)
}
