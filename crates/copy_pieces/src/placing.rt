//! The blocks of the copy, and where they stand.
ghost use Rattle.std.specs.Prelude.{◌≡◌, ◌≤◌, Err, IfOk, IfErr, OnOk, map};
ghost use Rattle.copy_layout.specs.Order.{InOrder};
ghost use Rattle.file_layout.specs.Nodes.{place_of};
ghost use Rattle.file_scan.specs.Parts.{AllShort};
ghost use Rattle.ref_counts.specs.Tables.{refs_in};
ghost use Rattle.copy_pieces.specs.Moved.{AreMoved, IsMoved, reached};

use crate::stops::{CompactStop, changed};
use block_frame::disk_size;
use btree_pages::{BlockEntry, Entry};
use copy_layout::next_block;
use pst_base::Bref;
use ref_counts::RefCounts;
use std::alloc::{AllocError, Global};

/// Where the first region begins.
const FIRST: u64 = 0x4400;

/// The greatest end that a block follows.
const LIMIT: u64 = 1 << 59;

/// The most bytes that a block's data has.
const LONGEST: u16 = 8176;

/// The most references that an entry's field holds.
const MOST: u64 = 65_535;

/// Blocks at their places, and where the last of them ends.
#[derive(Drop)]
pub struct Placed {
    pub entries: Vec<BlockEntry>,
    pub end: u64,
}

/// The entries of the blocks that nodes reach.
pub fn choose(
    alloc: Global,
    entries: &[BlockEntry],
    refs: &RefCounts,
) -> Result<Vec<BlockEntry>, AllocError>
    ensures { IfOk result (λ chosen. chosen.items ≡ reached (refs_in refs.now) entries.now) }
{
    let mut chosen = Vec::new(alloc);
    for entry in entries {
        if refs.get(entry.key()) != 0 {
            chosen.push(*entry)?;
        }
    }
    Ok(chosen)
}

/// The entry of a block at another place.
fn moved(entry: BlockEntry, refs: &RefCounts, ib: u64) -> BlockEntry
    ensures moved { IsMoved (refs_in refs.now) entry result }
    ensures place { result.at.ib ≡ ib }
{
    BlockEntry {
        at: Bref {
            bid: entry.at.bid,
            ib,
        },
        cb: entry.cb,
        refs: refs.get(entry.key()).saturating_add(1).min(MOST) as u16,
    }
}

/// The blocks one behind the other, each with how often it is referred to. An end past 2^59, which more entries would take than memory holds, is answered as want of it; a block that is longer than one may be, as one that has changed.
pub fn place(alloc: Global, entries: &[BlockEntry], refs: &RefCounts) -> Result<Placed, CompactStop>
    ensures moved { IfOk result (λ placed. AreMoved (refs_in refs.now) entries.now placed.entries.items) }
    ensures order { IfOk result (λ placed. InOrder 64 17408 (map place_of placed.entries.items) placed.end) }
    ensures low { IfOk result (λ placed. 17408 ≤ placed.end) }
    ensures short { IfOk result (λ placed. AllShort placed.entries.items) }
    ensures fits { OnOk result (AllShort entries.now) }
    ensures stops { IfErr result (λ stop. AllShort entries.now → stop ≡ CompactStop.Memory) }
    ensures fault { result ≡ Err CompactStop.Fault → ⊥ }
{
    let mut placed = Vec::new(alloc);
    let mut end = FIRST;
    for entry in entries {
        if entry.cb > LONGEST {
            return Err(changed(entry.at.ib));
        }
        if end > LIMIT {
            return Err(CompactStop::Memory);
        }
        let len = disk_size(entry.cb) as u64;
        let ib = next_block(end, len);
        placed.push(moved(*entry, refs, ib))?;
        end = ib + len;
    }
    Ok(Placed {
        entries: placed,
        end,
    })
}
