//! A heap of which some blocks are known.
ghost use Rattle.std.specs.Prelude.{◌≡◌, ◌≢◌, ◌≤◌, ◌<◌, ◌+◌, ◌-◌, ◌%◌, ℕ, List, Option, Some, [], length, get_or, slice_get, IfErr, IfOk, MatchOption, OnErr, OnOk, false, option_copied};
ghost use Rattle.heap_on_node.specs.Heap.{HasMap, IsHeap, IsStart, block_of, index_of, item};
ghost use Rattle.heap_on_node.specs.Packing.{fit_block};
ghost use Rattle.heap_edit.specs.Edits.{IsWhole, edited, with_at};
ghost use Rattle.heap_edit.specs.Heaps.{Adds, LastIsFull, NoneUnder, SetsRoot};
ghost use Rattle.heap_edit.specs.Items.{items_of};
ghost use Rattle.heap_edit.specs.NewItems.{AddsNew};
ghost use Rattle.heap_edit.specs.Known.{AreKnown, HasNoRoom, HasNoRoot, IsUnknown, MakesHeap, Stops, blocks_now};

use crate::block::{Head, first_in, grown, has_map, head_of, laid_with, slot};
use crate::blocks::KnownBlocks;
use crate::edit::DataEdit;
use crate::stops::HeapStop;
use heap_items::HeapItems;
use heap_on_node::count;
use pst_base::{Bytes, MemOr, u8_at, u32_at};
use std::alloc::{AllocError, Global};
use std::marker::Model;

/// A heap ([MS-PST] 2.3.1) of which some blocks are known, to which items are added. Contracts see what is known of its blocks, and what is put.
#[derive(Debug, Drop)]
pub struct KnownHeap {
    alloc: Global,
    blocks: KnownBlocks,
}

impl Model for KnownHeap {
    ghost use Rattle.heap_edit.specs.Known.{Known};

    ghost Value = { Known };

    ghost view = { λ h. h.blocks };
}

/// An item that is to be added: its heap id, and the block that is to have it, with the position of that.
#[derive(Debug, Drop)]
struct NewItem {
    hid: u32,
    position: usize,
    block: Bytes,
}

/// The block and the place there that a heap id names ([MS-PST] 2.3.1.1), if it can name an item.
fn named(hid: u32) -> Option<(usize, u16)>
    ensures { MatchOption result (NoneUnder hid) (λ p. (hid % 32 ≡ 0) × (p.0 ≡ block_of hid) × (index_of hid ≡ p.1 + 1)) }
{
    if hid % 32 != 0 {
        return None;
    }
    let index = (hid / 32 % 2048) as u16;
    if index == 0 {
        return None;
    }
    Some(((hid / 65536) as usize, index - 1))
}

impl KnownHeap {
    /// The heap that stands in these blocks.
    pub fn new(alloc: Global, blocks: KnownBlocks) -> KnownHeap
        ensures { result ≡ blocks }
    {
        KnownHeap { alloc, blocks }
    }

    /// Its blocks.
    pub fn into_blocks(self) -> KnownBlocks
        ensures { result ≡ self }
    {
        self.blocks
    }

    /// A block, if it may be one of a heap.
    fn block(&self, k: usize) -> Result<&[u8], MemOr<HeapStop>>
        requires { k < self.now.len }
        ensures found { IfOk result (λ b. (old : List (List ℕ)) → AreKnown self.now old → b.now ≡ get_or (blocks_now self.now old) k []) }
        ensures map { IfOk result (λ b. HasMap b.now) }
        ensures begins { IfOk result (λ b. k ≡ 0 → 12 ≤ length b.now) }
        ensures why { IfErr result (Stops self.now ⊥) }
    {
        let block = match self.blocks.block(k) {
            Ok(block) => block,
            Err(lacks) => return Err(MemOr::Refused(HeapStop::Lacks(lacks.position))),
        };
        if !has_map(block) {
            return Err(MemOr::Refused(HeapStop::NoHeap));
        }
        if k == 0 && block.len() < 12 {
            return Err(MemOr::Refused(HeapStop::NoHeap));
        }
        Ok(block)
    }

    /// The first block.
    fn first(&self) -> Result<&[u8], MemOr<HeapStop>>
        ensures some { IfOk result (λ _. 0 < self.now.len) }
        ensures found { IfOk result (λ b. (old : List (List ℕ)) → AreKnown self.now old → b.now ≡ get_or (blocks_now self.now old) 0 []) }
        ensures map { IfOk result (λ b. HasMap b.now) }
        ensures begins { IfOk result (λ b. 12 ≤ length b.now) }
        ensures why { IfErr result (Stops self.now ⊥) }
    {
        if self.blocks.count() == 0 {
            return Err(MemOr::Refused(HeapStop::NoHeap));
        }
        self.block(0)
    }

    /// The client whose heap this is, and the heap's root ([MS-PST] 2.3.1.2).
    pub fn client_root(&self) -> Result<(u8, u32), MemOr<HeapStop>>
        ensures found { IfOk result (λ r. (old : List (List ℕ)) → AreKnown self.now old → IsStart (blocks_now self.now old) → IsHeap (blocks_now self.now old) r.0 r.1) }
        ensures why { IfErr result (Stops self.now ⊥) }
    {
        match self.first() {
            Ok(block) => Ok((u8_at(block, 3), u32_at(block, 4))),
            Err(stop) => Err(stop),
        }
    }

    /// The first block, laid anew with another root.
    fn rooted(&self, root: u32) -> Result<Bytes, MemOr<HeapStop>>
        ensures some { IfOk result (λ _. 0 < self.now.len) }
        ensures sets { IfOk result (λ b. (old : List (List ℕ)) → AreKnown self.now old → IsStart (blocks_now self.now old) → SetsRoot (blocks_now self.now old) root (with_at (blocks_now self.now old) 0 b)) }
        ensures why { IfErr result (Stops self.now (HasNoRoot self.now)) }
    {
        let block = match self.first() {
            Ok(block) => block,
            Err(stop) => return Err(stop),
        };
        let head = Head {
            client: u8_at(block, 3),
            root,
        };
        match laid_with(self.alloc, 0, head, block) {
            Ok(laid) => Ok(laid),
            Err(MemOr::Memory) => Err(MemOr::Memory),
            Err(MemOr::Refused(_)) => Err(MemOr::Refused(HeapStop::Full)),
        }
    }

    /// Gives the heap another root. `Full` comes where its items don't fit the first block, which another program may have laid so that they overlap. An `Err` changes nothing.
    pub fn set_root(&mut self, root: u32) -> Result<(), MemOr<HeapStop>>
        ensures ok { OnOk result (MakesHeap (λ old new. SetsRoot old root new) self.old self.new) }
        ensures err { OnErr result (self.new ≡ self.old) }
        ensures why { IfErr result (Stops self.old (HasNoRoot self.old)) }
    {
        let block = match self.rooted(root) {
            Ok(block) => block,
            Err(stop) => return Err(stop),
        };
        self.blocks.put(0, block)?;
        Ok(())
    }

    /// A block with one more item behind its own.
    fn grown(&self, position: usize, x: &[u8]) -> Result<NewItem, MemOr<HeapStop>>
        requires within { position < self.now.len }
        requires few { position < 65536 }
        requires size { length x.now ≤ 3580 }
        ensures adds { IfOk result (λ new. AddsNew self.now x.now new) }
        ensures position { IfOk result (λ new. new.position ≡ position) }
        ensures why { IfErr result (Stops self.now (HasNoRoom self.now position x.now)) }
    {
        let block = match self.block(position) {
            Ok(block) => block,
            Err(stop) => return Err(stop),
        };
        let index = u32::from(count(block)) + 1;
        match grown(self.alloc, position, head_of(position, block), block, x) {
            Ok(block) => Ok(NewItem {
                hid: position as u32 * 65536 + index * 32,
                position,
                block,
            }),
            Err(MemOr::Memory) => Err(MemOr::Memory),
            Err(MemOr::Refused(_)) => Err(MemOr::Refused(HeapStop::Full)),
        }
    }

    /// A block with one item, to stand behind all.
    fn begun(&self, x: &[u8]) -> Result<NewItem, MemOr<HeapStop>>
        requires { length x.now ≤ 3580 }
        ensures adds { IfOk result (λ new. AddsNew self.now x.now new) }
        ensures position { IfOk result (λ new. new.position ≡ self.now.len) }
        ensures few { IfOk result (λ new. new.position < 65536) }
        ensures why { IfErr result (Stops self.now (65536 ≤ self.now.len)) }
    {
        let position = self.blocks.count();
        if position >= 65536 {
            return Err(MemOr::Refused(HeapStop::Full));
        }
        match first_in(self.alloc, position, x) {
            Ok(block) => Ok(NewItem {
                hid: position as u32 * 65536 + 32,
                position,
                block,
            }),
            Err(_) => Err(MemOr::Memory),
        }
    }

    /// The last block with one more item, or where that has no room a new one.
    fn new_item(&self, x: &[u8]) -> Result<NewItem, MemOr<HeapStop>>
        requires { length x.now ≤ 3580 }
        ensures adds { IfOk result (λ new. AddsNew self.now x.now new) }
        ensures within { IfOk result (λ new. new.position ≤ self.now.len) }
        ensures few { IfOk result (λ new. new.position < 65536) }
        ensures tight { IfOk result (λ new. new.position ≡ self.now.len → HasNoRoom self.now (self.now.len - 1) x.now) }
        ensures why { IfErr result (Stops self.now (65536 ≤ self.now.len)) }
    {
        let count = self.blocks.count();
        if count == 0 {
            return Err(MemOr::Refused(HeapStop::NoHeap));
        }
        if count > 65536 {
            return Err(MemOr::Refused(HeapStop::Full));
        }
        match self.grown(count - 1, x) {
            Ok(new) => Ok(new),
            Err(MemOr::Memory) => Err(MemOr::Memory),
            Err(MemOr::Refused(HeapStop::Full)) => self.begun(x),
            Err(MemOr::Refused(HeapStop::NoHeap)) => Err(MemOr::Refused(HeapStop::NoHeap)),
            Err(MemOr::Refused(HeapStop::Lacks(at))) => Err(MemOr::Refused(HeapStop::Lacks(at))),
        }
    }

    /// Adds an item of at most 3,580 bytes behind the items of the last block, or where that has no room in a new one, and gives its heap id. `Full` comes only where there are as many blocks as heap ids can name. An `Err` changes nothing.
    pub fn add_item(&mut self, x: &[u8]) -> Result<u32, MemOr<HeapStop>>
        requires { length x.now ≤ 3580 }
        ensures ok { IfOk result (λ hid. MakesHeap (λ old new. Adds old hid x.now new) self.old self.new) }
        ensures tight { OnOk result (MakesHeap (λ old new. length new ≡ length old + 1 → LastIsFull old x.now) self.old self.new) }
        ensures err { OnErr result (self.new ≡ self.old) }
        ensures why { IfErr result (Stops self.old (65536 ≤ self.old.len)) }
    {
        let new = match self.new_item(x) {
            Ok(new) => new,
            Err(stop) => return Err(stop),
        };
        self.blocks.put(new.position, new.block)?;
        Ok(new.hid)
    }

    /// The item under a heap id, if there is one.
    pub fn find(&self, hid: u32) -> Result<Option<&[u8]>, MemOr<HeapStop>>
        ensures found { IfOk result (λ x. (old : List (List ℕ)) → AreKnown self.now old → IsStart (blocks_now self.now old) → option_copied x ≡ item (blocks_now self.now old) hid) }
        ensures why { IfErr result (Stops self.now ⊥) }
    {
        let Some((k, at)) = named(hid) else {
            return Ok(None);
        };
        if k >= self.blocks.count() {
            return Ok(None);
        }
        let block = match self.block(k) {
            Ok(block) => block,
            Err(stop) => return Err(stop),
        };
        if at >= count(block) {
            return Ok(None);
        }
        Ok(Some(slot(block, at + 1)))
    }

    /// Makes the block known that was at a position. An `Err` changes nothing.
    pub fn know(&mut self, position: usize, block: Bytes) -> Result<(), AllocError>
        ensures known { OnOk result ((old : List (List ℕ)) → AreKnown self.old old → slice_get old position ≡ Some block → AreKnown self.new old) }
        ensures now { (old : List (List ℕ)) → blocks_now self.new old ≡ blocks_now self.old old }
        ensures found { OnOk result (IsUnknown self.new position → ⊥) }
        ensures err { OnErr result (self.new ≡ self.old) }
    {
        self.blocks.know(position, block)
    }

    /// Takes back all that is put. What is known stays. Takes no memory.
    pub fn undo(&mut self)
        ensures { (old : List (List ℕ)) → AreKnown self.old old → AreKnown self.new old × (blocks_now self.new old ≡ old) }
    {
        self.blocks.undo()
    }

    /// How many blocks there are now.
    pub fn count(&self) -> usize
        ensures { (old : List (List ℕ)) → length (blocks_now self.now old) ≡ result }
    {
        self.blocks.count()
    }

    /// The edit: the blocks that are put, each once, and how many blocks there are.
    pub fn into_edit(self) -> Result<DataEdit, AllocError>
        ensures edited { IfOk result (λ edit. (old : List (List ℕ)) → edited edit.puts.items edit.len old ≡ blocks_now self old) }
        ensures whole { IfOk result (λ edit. (old : List (List ℕ)) → AreKnown self old → IsWhole (length old) edit.puts.items edit.len) }
    {
        self.blocks.into_edit()
    }
}

impl HeapItems for KnownHeap {
    type Stop = MemOr<HeapStop>;

    ghost use Rattle.heap_edit.specs.Known.{Reads};

    ghost tells = { λ h old get. Reads h old get };

    fn item(&self, hid: u32) -> Result<Option<&[u8]>, MemOr<HeapStop>> {
        self.find(hid)
    }

    fn add(&mut self, x: &[u8]) -> Result<u32, MemOr<HeapStop>> {
        self.add_item(x)
    }
}
