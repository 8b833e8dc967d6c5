//! A list of blocks' bytes.
ghost use Rattle.std.specs.Prelude.{◌≡◌, [], ◌++◌, ◌∷◌, length, IfOk, OnOk, OnErr};

use crate::bytes::Bytes;
use std::alloc::{AllocError, Global};
use std::marker::Model;

/// The data blocks of a node or a subnode, in their order. Contracts see a list of lists of bytes.
#[derive(Debug, Drop)]
pub struct Blocks {
    items: Vec<Bytes>,
}

impl Model for Blocks {
    ghost use Rattle.std.specs.Prelude.{ℕ, List};

    ghost Value = { List (List ℕ) };

    ghost view = { λ b. b.items.items };
}

impl Blocks {
    /// No blocks. Takes no memory.
    pub fn new(alloc: Global) -> Blocks
        ensures { result ≡ [] }
    {
        Blocks {
            items: Vec::new(alloc),
        }
    }

    /// The blocks of a vector, which it keeps.
    pub fn from_vec(items: Vec<Bytes>) -> Blocks
        ensures { result ≡ items.items }
    {
        Blocks { items }
    }

    /// The vector that keeps the blocks.
    pub fn into_vec(self) -> Vec<Bytes>
        ensures { result.items ≡ self }
    {
        self.items
    }

    /// The blocks.
    pub fn as_slice(&self) -> &[Bytes]
        ensures value { result.now ≡ self.now }
        ensures len { length result.now ≡ length self.now }
    {
        self.items.as_slice()
    }

    /// How many blocks there are.
    pub fn len(&self) -> usize
        ensures { result ≡ length self.now }
    {
        self.items.len()
    }

    /// Puts one more block at the end. An `Err` changes nothing.
    pub fn push(&mut self, block: Bytes) -> Result<(), AllocError>
        ensures ok { OnOk result (self.new ≡ self.old ++ block ∷ []) }
        ensures err { OnErr result (self.new ≡ self.old) }
    {
        self.items.push(block)?;
        Ok(())
    }

    /// The same blocks again.
    pub fn copy(&self, alloc: Global) -> Result<Blocks, AllocError>
        ensures { IfOk result (λ b. b ≡ self.now) }
    {
        let mut copied = Vec::with_capacity(alloc, self.items.len())?;
        for block in self.items.iter() {
            copied.push(block.copy(alloc)?)?;
        }
        Ok(Blocks { items: copied })
    }
}
