//! A file as a source of blocks.
ghost use Rattle.std.specs.Prelude.{◌≡◌, ℕ};

use crate::check::{BlockRefusal, BlockStop, read_block};
use crate::entries::find_entry;
use block_frame::BlockFault;
use btree_pages::BlockEntry;
use data_tree::{BlockSizes, BlockSource};
use pst_base::{Bid, Bytes, MemOr, SourceStop};
use pst_outside::Outside;
use std::alloc::Global;

/// The number under which a changed block is told whose frame still holds.
const BLOCK_REFUSAL: u64 = 10;

/// The blocks of a file of `eof` bytes over a world, by the entries of its block tree, whose keys ascend and whose blocks were found whole. It writes nothing, and counts in `changes` the blocks that it found changed.
#[derive(Drop)]
pub struct FileBlocks<'a, W: Outside> {
    pub world: &'a mut W,
    pub entries: &'a [BlockEntry],
    pub eof: u64,
    pub changes: u64,
}

impl<'a, W: Outside> BlockSource for FileBlocks<'a, W> {
    ghost use Rattle.std.specs.Prelude.{◌≡◌, ℕ};
    ghost use Rattle.pst_outside.specs.Calls.{Untouched};
    ghost use Rattle.file_blocks.specs.Stops.{Holds};

    ghost view = { λ s. record { holds = Holds (W.view s.world.now) s.eof s.entries.now; fails = (W.view s.world.now).disk_faults; changes = s.changes; eof = s.eof; since = λ first. (s.world.ghost_name ≡ first.world.ghost_name) × Untouched (W.view first.world.now) (W.view s.world.now) } };

    fn block(&mut self, alloc: Global, bid: Bid) -> Result<Option<Bytes>, MemOr<SourceStop>> {
        let Some(entry) = find_entry(self.entries, bid) else {
            return Ok(None);
        };
        match read_block(alloc, self.world, self.eof, entry) {
            Ok(data) => Ok(Some(data)),
            Err(MemOr::Memory) => Err(MemOr::Memory),
            Err(MemOr::Refused(BlockStop::Failed)) => Err(MemOr::Refused(SourceStop::Failed)),
            Err(MemOr::Refused(BlockStop::Refused(refusal))) => {
                self.changes = self.changes.saturating_add(1);
                Err(MemOr::Refused(changed(entry.at.ib, refusal)))
            }
        }
    }

    fn limit(&self) -> u64 {
        self.eof
    }
}

impl<'a, W: Outside> BlockSizes for FileBlocks<'a, W> {
    fn size(&self, bid: Bid) -> Option<u64> {
        let entry = find_entry(self.entries, bid)?;
        Some(u64::from(entry.cb))
    }
}

/// What has changed of a block that was whole: the two numbers that its frame's check compared, or 10 and 0 where its frame holds.
pub fn changed(ib: u64, refusal: BlockRefusal) -> SourceStop
    ensures { (stored : ℕ) × (computed : ℕ) × (result ≡ SourceStop.Changed ib stored computed) }
{
    let (stored, computed) = match refusal {
        BlockRefusal::Faulty(
            BlockFault::Length { stored, computed }
            | BlockFault::Crc { stored, computed }
            | BlockFault::Sig { stored, computed }
            | BlockFault::Bid { stored, computed },
        ) => (stored, computed),
        _ => (BLOCK_REFUSAL, 0),
    };
    SourceStop::Changed {
        ib,
        stored,
        computed,
    }
}
