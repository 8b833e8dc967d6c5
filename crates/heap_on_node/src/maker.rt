//! Making a heap.
ghost use Rattle.std.specs.Prelude.{◌≡◌, ◌≤◌, ◌<◌, ◌+◌, ℕ, [], ◌∷◌, ◌++◌, length, get_or, OnOk, OnErr, IfOk, true};
ghost use Rattle.heap_on_node.specs.Heap.{IsHeap, item};
ghost use Rattle.heap_on_node.specs.Layout.{laid};
ghost use Rattle.heap_on_node.specs.Packing.{Adds, IsPlain, PacksTight, fit_block, item_in};

use crate::draft::Draft;
use crate::layout::{block_of, is_room};
use pst_base::{Blocks, Bytes};
use std::alloc::{AllocError, Global};
use std::marker::Model;
use std::mem;

/// A heap in the making. Contracts see the groups of its items, one group a block; `item_in` finds an item among them.
#[derive(Debug, Drop)]
pub struct HeapMaker {
    alloc: Global,
    full: Vec<Draft>,
    last: Draft,
}

impl Model for HeapMaker {
    ghost use Rattle.std.specs.Prelude.{ℕ, List, [], ◌∷◌, ◌++◌};
    ghost use Rattle.heap_on_node.specs.Packing.{IsPacked};

    ghost Value = { List (List (List ℕ)) };

    ghost view = { λ m. m.full.items ++ m.last ∷ [] };

    ghost invariant = { λ m. IsPacked (m.full.items ++ m.last ∷ []) };
}

/// Begins a new draft with an item. An `Err` changes nothing.
fn begin(
    alloc: Global,
    full: &mut Vec<Draft>,
    last: &mut Draft,
    item: &[u8],
) -> Result<(), AllocError>
    requires { length item.now ≤ 3580 }
    ensures full { OnOk result (full.new.items ≡ full.old.items ++ last.old ∷ []) }
    ensures last { OnOk result (last.new ≡ item.now ∷ []) }
    ensures full_err { OnErr result (full.new.items ≡ full.old.items) }
    ensures last_err { OnErr result (last.new ≡ last.old) }
{
    let mut next = Draft::new(alloc);
    next.push(item)?;
    let done = mem::replace(last, next);
    if let Err(failed) = full.push(done) {
        *last = failed.value;
        return Err(AllocError);
    }
    Ok(())
}

/// The blocks with the items of these drafts.
fn blocks_of(
    alloc: Global,
    drafts: &[Draft],
    client: u8,
    root: u32,
) -> Result<Vec<Bytes>, AllocError>
    requires { (k : ℕ) → k < length drafts.now → fit_block k (get_or drafts.now k []) ≡ true }
    ensures { IfOk result (λ blocks. blocks.items ≡ laid 0 client root drafts.now) }
{
    let mut blocks = Vec::with_capacity(alloc, drafts.len())?;
    for (k, draft) in drafts.iter().enumerate() {
        blocks.push(block_of(alloc, k, draft, client, root)?)?;
    }
    Ok(blocks)
}

impl HeapMaker {
    /// A heap without items. Takes no memory.
    pub fn new(alloc: Global) -> HeapMaker
        ensures { result ≡ [] ∷ [] }
    {
        HeapMaker {
            alloc,
            full: Vec::new(alloc),
            last: Draft::new(alloc),
        }
    }

    /// Adds an item of at most 3580 bytes, and gives its heap id ([MS-PST] 2.3.1.1). An `Err` changes nothing.
    pub fn add(&mut self, item: &[u8]) -> Result<u32, AllocError>
        requires size { length item.now ≤ 3580 }
        requires blocks { length self.old < 65536 }
        ensures ok { IfOk result (λ hid. Adds self.old item.now self.new hid) }
        ensures err { OnErr result (self.new ≡ self.old) }
    {
        let (block, count) = (self.full.len(), self.last.count() + 1);
        if is_room(block, count, self.last.size() + item.len()) {
            self.last.push(item)?;
            return Ok(block as u32 * 65536 + count as u32 * 32);
        }
        begin(self.alloc, &mut self.full, &mut self.last, item)?;
        Ok((block as u32 + 1) * 65536 + 32)
    }

    /// The blocks of the heap of a client ([MS-PST] 2.3.1.2), with its root: a heap with just the items that were added, under their heap ids.
    pub fn finish(self, client: u8, root: u32) -> Result<Blocks, AllocError>
        ensures heap { IfOk result (λ blocks. IsHeap blocks client root) }
        ensures items { IfOk result (λ blocks. (hid : ℕ) → item blocks hid ≡ item_in self hid) }
        ensures blocks { IfOk result (λ blocks. length blocks ≡ length self) }
        ensures plain { IfOk result (λ blocks. (k : ℕ) → k < length blocks → IsPlain k (get_or blocks k [])) }
        ensures tight { IfOk result (λ blocks. PacksTight blocks) }
    {
        let mut drafts = self.full;
        drafts.push(self.last)?;
        Ok(Blocks::from_vec(blocks_of(self.alloc, drafts.as_slice(), client, root)?))
    }
}
