//! The subnodes of a node.
ghost use Rattle.std.specs.Prelude.{◌≡◌, [], IfOk};
ghost use Rattle.pst_base.specs.Subs.{flattened};

use crate::blocks::Blocks;
use crate::ids::Nid;
use std::alloc::{AllocError, Global};
use std::marker::Model;

/// A subnode ([MS-PST] 2.2.2.8.3.3): its id, its data blocks, and subnodes of its own.
#[cycle(subs)]
#[derive(Debug, Drop)]
pub struct Sub {
    pub nid: Nid,
    pub blocks: Blocks,
    pub subs: Subs,
}

/// The subnodes of a node or a subnode, with their ids. Contracts see a flat list: each subnode in its turn, and behind it those below it, one level deeper.
#[cycle(subs)]
#[derive(Debug, Drop)]
pub struct Subs {
    entries: Vec<Sub>,
}

impl Model for Subs {
    ghost use Rattle.std.specs.Prelude.{List, length};
    ghost use Rattle.pst_base.specs.Flat.{Flat};

    ghost Value = { List Flat };

    ghost use Rattle.pst_base.specs.Subs.{flattened};

    ghost view = { λ s. flattened s.entries.items };

    ghost size = { length };

    ghost use Rattle.std.proofs.Common.{arith};
    ghost use Rattle.pst_base.specs.SubsFall.{most-flattened};

    ghost size_decreases = { λ s h. omega (arith, most-flattened s.entries.items) };
}

impl Subs {
    /// No subnodes. Takes no memory.
    pub fn new(alloc: Global) -> Subs
        ensures { result ≡ [] }
    {
        Subs {
            entries: Vec::new(alloc),
        }
    }

    /// The subnodes of a vector, which it keeps. They are to ascend by id.
    pub fn from_vec(entries: Vec<Sub>) -> Subs
        ensures { result ≡ flattened entries.items }
    {
        Subs { entries }
    }

    /// The subnodes directly in it.
    pub fn as_slice(&self) -> &[Sub]
        ensures { flattened result.now ≡ self.now }
    {
        self.entries.as_slice()
    }

    /// The vector that keeps the subnodes directly in it.
    pub fn into_vec(self) -> Vec<Sub>
        ensures { flattened result.items ≡ self }
    {
        self.entries
    }

    /// The same subnodes again.
    pub fn copy(&self, alloc: Global) -> Result<Subs, AllocError>
        ensures { IfOk result (λ s. s ≡ self.now) }
    {
        let mut entries = Vec::with_capacity(alloc, self.entries.len())?;
        for sub in self.entries.iter() {
            let subs = sub.subs.copy(alloc)?;
            entries.push(Sub {
                nid: sub.nid,
                blocks: sub.blocks.copy(alloc)?,
                subs,
            })?;
        }
        Ok(Subs { entries })
    }
}
