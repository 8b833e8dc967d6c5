//! Blocks by their positions.
ghost use Rattle.std.specs.Prelude.{◌≡◌, [], IfOk, OnErr, OnOk};
ghost use Rattle.std.specs.Option.{option_copied};
ghost use Rattle.heap_edit.specs.Edits.{PutsOne, put_at};

use pst_base::Bytes;
use std::alloc::{AllocError, Global};
use std::collections::BTreeMap;
use std::marker::Model;

/// Blocks by their positions, one at each. Contracts see the list.
#[derive(Debug, Drop)]
pub(crate) struct Placed {
    blocks: BTreeMap<usize, Bytes>,
}

impl Model for Placed {
    ghost use Rattle.heap_edit.specs.Edits.{Edits};

    ghost Value = { Edits };

    ghost view = { λ p. p.blocks.entries };
}

/// The blocks of a map with their positions.
fn entries(alloc: Global, blocks: BTreeMap<usize, Bytes>) -> Result<Vec<(usize, Bytes)>, AllocError>
    ensures { IfOk result (λ v. v.items ≡ blocks.entries) }
{
    let mut all = Vec::with_capacity(alloc, blocks.len())?;
    for put in blocks {
        all.push(put)?;
    }
    Ok(all)
}

impl Placed {
    /// No blocks. Takes no memory.
    pub(crate) fn new(alloc: Global) -> Placed
        ensures { result ≡ [] }
    {
        Placed {
            blocks: BTreeMap::new(alloc),
        }
    }

    /// The block at a position, if there is one.
    pub(crate) fn get(&self, position: usize) -> Option<&Bytes>
        ensures { option_copied result ≡ put_at self.now position }
    {
        self.blocks.get(&position)
    }

    /// Puts a block at a position, in place of the one there. An `Err` changes nothing.
    pub(crate) fn put(&mut self, position: usize, block: Bytes) -> Result<(), AllocError>
        ensures ok { OnOk result (PutsOne position block self.old self.new) }
        ensures err { OnErr result (self.new ≡ self.old) }
    {
        self.blocks.insert(position, block)?;
        Ok(())
    }

    /// The blocks with their positions.
    pub(crate) fn into_vec(self, alloc: Global) -> Result<Vec<(usize, Bytes)>, AllocError>
        ensures { IfOk result (λ v. v.items ≡ self) }
    {
        entries(alloc, self.blocks)
    }
}
