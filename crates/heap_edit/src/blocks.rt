//! Blocks of a node of which some are known.
ghost use Rattle.std.specs.Prelude.{◌≡◌, ◌≤◌, ◌<◌, ◌^◌, ℕ, List, [], length, get_or, slice_get, Some, IfErr, IfOk, OnErr, OnOk};
ghost use Rattle.heap_edit.specs.Edits.{IsWhole, edited, with_at};
ghost use Rattle.heap_edit.specs.Known.{AreKnown, IsUnknown, Makes, blocks_now};

use crate::edit::DataEdit;
use crate::placed::Placed;
use crate::stops::Lacks;
use pst_base::Bytes;
use std::alloc::{AllocError, Global};
use std::marker::Model;

/// The data blocks of a node of which some are known, and an edit of them. Contracts see what is known and what is put; `blocks_now` are the blocks after the edit, for all blocks that agree with the known ones.
#[derive(Debug, Drop)]
pub struct KnownBlocks {
    alloc: Global,
    was: usize,
    known: Placed,
    puts: Placed,
    len: usize,
}

impl Model for KnownBlocks {
    ghost use Rattle.heap_edit.specs.Edits.{IsWhole};
    ghost use Rattle.heap_edit.specs.Known.{Known};

    ghost Value = { Known };

    ghost view = { λ e. record { was = e.was; known = e.known; puts = e.puts; len = e.len } };

    ghost invariant = { λ e. IsWhole e.was e.puts e.len };
}

impl KnownBlocks {
    /// So many blocks, of which none is known and none is put. Takes no memory.
    pub fn new(alloc: Global, count: usize) -> KnownBlocks
        ensures known { (old : List (List ℕ)) → length old ≡ count → AreKnown result old }
        ensures same { (old : List (List ℕ)) → AreKnown result old → (length old ≡ count) × (blocks_now result old ≡ old) }
    {
        let known = Placed::new(alloc);
        let puts = Placed::new(alloc);
        KnownBlocks {
            alloc,
            was: count,
            known,
            puts,
            len: count,
        }
    }

    /// Makes the block known that was at a position. An `Err` changes nothing.
    pub fn know(&mut self, position: usize, block: Bytes) -> Result<(), AllocError>
        ensures known { OnOk result ((old : List (List ℕ)) → AreKnown self.old old → slice_get old position ≡ Some block → AreKnown self.new old) }
        ensures now { (old : List (List ℕ)) → blocks_now self.new old ≡ blocks_now self.old old }
        ensures found { OnOk result (IsUnknown self.new position → ⊥) }
        ensures err { OnErr result (self.new ≡ self.old) }
    {
        self.known.put(position, block)
    }

    /// How many blocks there are now.
    pub fn count(&self) -> usize
        ensures len { result ≡ self.now.len }
        ensures all { (old : List (List ℕ)) → length (blocks_now self.now old) ≡ result }
    {
        self.len
    }

    /// The block at a position now. `Lacks` comes exactly where it isn't known.
    pub fn block(&self, position: usize) -> Result<&[u8], Lacks>
        requires { position < self.now.len }
        ensures found { IfOk result (λ b. (old : List (List ℕ)) → AreKnown self.now old → b.now ≡ get_or (blocks_now self.now old) position []) }
        ensures lacks { IfErr result (λ lacks. (lacks.position ≡ position) × IsUnknown self.now position) }
    {
        if let Some(block) = self.puts.get(position) {
            return Ok(block.as_slice());
        }
        match self.known.get(position) {
            Some(block) => Ok(block.as_slice()),
            None => Err(Lacks { position }),
        }
    }

    /// Puts a block at a position, in place of the one there or as the next one. An `Err` changes nothing.
    pub fn put(&mut self, position: usize, block: Bytes) -> Result<(), AllocError>
        requires within { position ≤ self.old.len }
        requires few { position < 2 ^ 32 }
        ensures ok { OnOk result (Makes (λ old new. new ≡ with_at old position block) self.old self.new) }
        ensures err { OnErr result (self.new ≡ self.old) }
    {
        self.puts.put(position, block)?;
        if position == self.len {
            self.len += 1;
        }
        Ok(())
    }

    /// Takes back all that is put. What is known stays. Takes no memory.
    pub fn undo(&mut self)
        ensures { (old : List (List ℕ)) → AreKnown self.old old → AreKnown self.new old × (blocks_now self.new old ≡ old) }
    {
        self.puts = Placed::new(self.alloc);
        self.len = self.was;
    }

    /// The edit: the blocks that are put, each once, and how many blocks there are.
    pub fn into_edit(self) -> Result<DataEdit, AllocError>
        ensures edited { IfOk result (λ edit. (old : List (List ℕ)) → edited edit.puts.items edit.len old ≡ blocks_now self old) }
        ensures whole { IfOk result (λ edit. (old : List (List ℕ)) → AreKnown self old → IsWhole (length old) edit.puts.items edit.len) }
    {
        Ok(DataEdit {
            puts: self.puts.into_vec(self.alloc)?,
            len: self.len,
        })
    }
}
