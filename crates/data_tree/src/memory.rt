//! Blocks in memory.
ghost use Rattle.std.specs.Prelude.{◌≡◌, Some, None, IfSome, IfNone};
ghost use Rattle.pst_base.specs.Ids.{key_of};
ghost use Rattle.data_tree.specs.Listed.{block_at};

use crate::source::{BlockSizes, BlockSource};
use pst_base::{Bid, Bytes, MemOr, SourceStop};
use std::alloc::Global;

/// Blocks with their ids, and the length that their file is taken to have. Of two with one key the first counts.
#[derive(Debug, Drop)]
pub struct BlockList {
    pub blocks: Vec<(Bid, Bytes)>,
    pub limit: u64,
}

/// The first of some blocks whose id is this one but for bit 0.
fn listed(blocks: &[(Bid, Bytes)], bid: Bid) -> Option<&Bytes>
    ensures some { IfSome result (λ block. block_at (key_of bid.bits) blocks.now ≡ Some block.now) }
    ensures none { IfNone result (block_at (key_of bid.bits) blocks.now ≡ None) }
{
    for listed in blocks {
        if listed.0.key() == bid.key() {
            return Some(&listed.1);
        }
    }
    None
}

impl BlockSource for BlockList {
    ghost use Rattle.std.specs.Prelude.{◌≡◌, ℕ};
    ghost use Rattle.data_tree.specs.Listed.{block_at};

    ghost view = { λ s. record { holds = λ find. (key : ℕ) → find key ≡ block_at key s.blocks.items; fails = 0; changes = 0; eof = s.limit; since = λ first. first ≡ s } };

    fn block(&mut self, alloc: Global, bid: Bid) -> Result<Option<Bytes>, MemOr<SourceStop>> {
        match listed(self.blocks.as_slice(), bid) {
            Some(block) => Ok(Some(block.copy(alloc)?)),
            None => Ok(None),
        }
    }

    fn limit(&self) -> u64 {
        self.limit
    }
}

impl BlockSizes for BlockList {
    fn size(&self, bid: Bid) -> Option<u64> {
        match listed(self.blocks.as_slice(), bid) {
            Some(block) => Some(block.len() as u64),
            None => None,
        }
    }
}
