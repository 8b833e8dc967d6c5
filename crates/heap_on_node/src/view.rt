//! Reading a heap.
ghost use Rattle.std.specs.Prelude.{◌≡◌, ◌≤◌, ◌<◌, ◌+◌, ◌-◌, ◌*◌, ◌↔◌, ℕ, length, IsTrue, IsErr, IfOk, MatchOption, option_copied};
ghost use Rattle.heap_on_node.specs.Heap.{HasMap, IsHeap, count_of, item, item_of, map_of, offset_of};

use pst_base::{Bytes, u8_at, u16_at, u32_at};
use std::marker::Model;

/// The blocks aren't a heap.
#[derive(Clone, Copy, Debug, PartialEq, Eq)]
pub struct HeapFault;

/// The blocks of a heap. Contracts see the blocks.
#[derive(Debug, Drop)]
pub struct HeapView<'a> {
    blocks: &'a [Bytes],
}

impl<'a> Model for HeapView<'a> {
    ghost use Rattle.std.specs.Prelude.{ℕ, List};

    ghost Value = { List (List ℕ) };

    ghost use Rattle.heap_on_node.specs.Heap.{IsStart};

    ghost view = { λ v. v.blocks.now };

    ghost invariant = { λ v. IsStart v.blocks.now };
}

/// Where a block's page map stands.
#[tactic(auto, unfolding(crate::specs::Heap::map_of))]
fn map_at(b: &[u8]) -> u16
    requires { 2 ≤ length b.now }
    ensures { result ≡ map_of b.now }
{
    u16_at(b, 0)
}

/// How many items a block has.
#[tactic(auto, unfolding(crate::specs::Heap::count_of))]
pub fn count(b: &[u8]) -> u16
    requires { map_of b.now + 4 ≤ length b.now }
    ensures { result ≡ count_of b.now }
{
    let map = map_at(b);
    u16_at(b, usize::from(map))
}

/// Where item `i + 1` of a block begins, and item `i` ends.
#[tactic(auto, unfolding(crate::specs::Heap::offset_of))]
fn offset_at(b: &[u8], i: u16) -> u16
    requires { map_of b.now + 6 + 2 * i ≤ length b.now }
    ensures { result ≡ offset_of b.now i }
{
    let map = map_at(b);
    u16_at(b, usize::from(map) + 4 + 2 * usize::from(i))
}

/// Whether a block's page map lies in it, with offsets that don't fall and end before it.
fn has_map(b: &[u8]) -> bool
    ensures { IsTrue result ↔ HasMap b.now }
{
    if b.len() < 2 {
        return false;
    }
    let map = map_at(b);
    if b.len() < usize::from(map) + 4 {
        return false;
    }
    let count = count(b);
    if b.len() < usize::from(map) + 6 + 2 * usize::from(count) || offset_at(b, count) > map {
        return false;
    }
    for i in 0..count {
        if offset_at(b, i + 1) < offset_at(b, i) {
            return false;
        }
    }
    true
}

/// Where item `i` of a block begins and ends.
pub fn bounds(b: &[u8], i: u16) -> (u16, u16)
    requires map { HasMap b.now }
    requires low { 0 < i }
    requires high { i ≤ count_of b.now }
    ensures start { result.0 ≡ offset_of b.now (i - 1) }
    ensures end { result.1 ≡ offset_of b.now i }
    ensures order { result.0 ≤ result.1 }
    ensures within { result.1 ≤ length b.now }
{
    (offset_at(b, i - 1), offset_at(b, i))
}

/// Item `i` of a block, if it has one.
#[tactic(auto, unfolding(crate::specs::Heap::item_of))]
fn item_at(b: &[u8], i: u16) -> Option<&[u8]>
    requires { HasMap b.now }
    ensures { option_copied result ≡ item_of b.now i }
{
    if i == 0 || count(b) < i {
        return None;
    }
    let (start, end) = bounds(b, i);
    Some(&b[usize::from(start)..usize::from(end)])
}

impl<'a> HeapView<'a> {
    /// Reads the data blocks of a node as a heap. A fault comes exactly where they are none, for any client and root.
    pub fn read(blocks: &'a [Bytes]) -> Result<HeapView<'a>, HeapFault>
        ensures same { IfOk result (λ v. v ≡ blocks.now) }
        ensures heap { IfOk result (λ v. (client : ℕ) × (root : ℕ) × IsHeap v client root) }
        ensures fault { IsErr result → (client root : ℕ) → IsHeap blocks.now client root → ⊥ }
    {
        let Some(first) = blocks.first() else {
            return Err(HeapFault);
        };
        let first = first.as_slice();
        if first.len() < 12 || u8_at(first, 2) != 0xEC {
            return Err(HeapFault);
        }
        for block in blocks {
            if !has_map(block.as_slice()) {
                return Err(HeapFault);
            }
        }
        Ok(HeapView { blocks })
    }

    /// The item under a heap id ([MS-PST] 2.3.1.1), if there is one.
    #[tactic(auto, unfolding(crate::specs::Heap::item))]
    pub fn item(&self, hid: u32) -> Option<&'a [u8]>
        ensures { option_copied result ≡ item self.now hid }
    {
        if hid % 32 != 0 {
            return None;
        }
        let Some(block) = self.blocks.get((hid / 65536) as usize) else {
            return None;
        };
        item_at(block.as_slice(), (hid / 32 % 2048) as u16)
    }

    /// The client whose heap this is ([MS-PST] 2.3.1.2).
    pub fn client(&self) -> u8
        ensures { (root : ℕ) × IsHeap self.now result root }
    {
        u8_at(self.blocks[0].as_slice(), 3)
    }

    /// The heap's root ([MS-PST] 2.3.1.2), if this is a heap of the client.
    pub fn root_for(&self, client: u8) -> Option<u32>
        ensures { MatchOption result ((root : ℕ) → IsHeap self.now client root → ⊥) (λ root. IsHeap self.now client root) }
    {
        let first = self.blocks[0].as_slice();
        if u8_at(first, 3) != client {
            return None;
        }
        Some(u32_at(first, 4))
    }
}
