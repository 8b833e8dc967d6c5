//! A file as a source of blocks that are found by the pages of its block tree.
ghost use Rattle.std.specs.Prelude.{◌≡◌};

use btree_pages::BlockEntry;
use data_tree::BlockSource;
use file_blocks::{BlockStop, changed, read_block};
use file_pages::{FileTree, entry_at};
use page_cache::PageCache;
use pst_base::{Bid, Bytes, MemOr, SourceStop};
use pst_outside::Outside;
use std::alloc::Global;

/// The blocks of a file over a world, with a cache of the pages of its block tree. It writes nothing, and counts in `changes` what it found changed.
#[derive(Drop)]
pub struct TreeBlocks<'a, W: Outside> {
    pub world: &'a mut W,
    pub cache: &'a mut PageCache,
    pub tree: FileTree,
    pub changes: u64,
}

impl<'a, W: Outside> BlockSource for TreeBlocks<'a, W> {
    ghost use Rattle.std.specs.Prelude.{◌≡◌};
    ghost use Rattle.pst_outside.specs.Calls.{Untouched};
    ghost use Rattle.node_store.specs.Told.{TellsBlocks};

    ghost view = { λ s. record { holds = TellsBlocks (W.view s.world.now) s.tree s.cache.now; fails = (W.view s.world.now).disk_faults; changes = s.changes; eof = s.tree.eof; since = λ first. (s.world.ghost_name ≡ first.world.ghost_name) × (s.cache.ghost_name ≡ first.cache.ghost_name) × (s.tree ≡ first.tree) × Untouched (W.view first.world.now) (W.view s.world.now) } };

    fn block(&mut self, alloc: Global, bid: Bid) -> Result<Option<Bytes>, MemOr<SourceStop>> {
        let entry = match entry_at::<BlockEntry, W>(self.world, self.cache, self.tree, bid.key()) {
            Ok(Some(entry)) => entry,
            Ok(None) => return Ok(None),
            Err(stop) => {
                self.changes = self.changes.saturating_add(1);
                return Err(stop);
            }
        };
        match read_block(alloc, self.world, self.tree.eof, entry) {
            Ok(data) => Ok(Some(data)),
            Err(MemOr::Memory) => Err(MemOr::Memory),
            Err(MemOr::Refused(BlockStop::Failed)) => Err(MemOr::Refused(SourceStop::Failed)),
            Err(MemOr::Refused(BlockStop::Refused(refusal))) => {
                self.changes = self.changes.saturating_add(1);
                Err(MemOr::Refused(changed(entry.at.ib, refusal)))
            }
        }
    }

    fn limit(&self) -> u64 {
        self.tree.eof
    }
}
