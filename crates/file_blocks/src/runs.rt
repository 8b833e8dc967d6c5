//! Runs of a file: blocks that stand near one another, so that one read has them all.
ghost use Rattle.std.specs.Prelude.{◌≡◌, ◌≤◌, ◌<◌, ◌+◌, ℕ, List, length, get_or, Err, IfOk, IfErr, IfSome, OnOk};
ghost use Rattle.block_frame.specs.Size.{disk_size_of};
ghost use Rattle.btree_pages.specs.declared.entry.BlockEntry.{BlockEntry};
ghost use Rattle.file_blocks.specs.Blocks.{data_at, Stands};
ghost use Rattle.file_blocks.specs.Runs.{IsIn, IsRun, IsOf};
ghost use Rattle.file_blocks.specs.Stops.{IsPlaced};

use crate::check::{BlockRefusal, framed, misplaced};
use block_frame::disk_size;
use btree_pages::BlockEntry;

/// The most bytes of a run: as many as stay near the processor between the read and the checks.
const MOST: usize = 65_536;

/// How many bytes a run may take in between two blocks.
const GAP: u64 = 8192;

/// A stretch of a file in which the blocks of some entries stand.
#[derive(Clone, Copy, Debug, PartialEq, Eq)]
pub struct Run {
    /// Where it begins in the file.
    pub from: u64,
    /// How many bytes it has, at most 65,536.
    pub len: usize,
    /// How many of the entries, from the first on, have their blocks in it.
    pub count: usize,
}

/// How many bytes from a place of the file on reach to the end of an entry's block, and are no fewer than `len`; `None` where the block isn't to be read with these: it may not stand where the entry says, or begins before the place or too far behind them.
fn reach(eof: u64, from: u64, len: usize, entry: BlockEntry) -> Option<usize>
    requires { len ≤ 65536 }
    ensures placed { IfSome result (λ _. IsPlaced eof entry) }
    ensures begins { IfSome result (λ _. from ≤ entry.at.ib) }
    ensures ends { IfSome result (λ more. entry.at.ib + disk_size_of entry.cb ≤ from + more) }
    ensures longer { IfSome result (λ more. len ≤ more) }
    ensures fits { IfSome result (λ more. more ≤ 65536) }
    ensures before { IfSome result (λ more. from + len ≤ eof → from + more ≤ eof) }
{
    if let Some(_) = misplaced(eof, entry) {
        return None;
    }
    let start = entry.at.ib.checked_sub(from)?;
    if start > len as u64 + GAP {
        return None;
    }
    let end = start as usize + disk_size(entry.cb);
    if end > MOST { None } else { Some(len.max(end)) }
}

/// The run that the block of the first of these entries begins in a file of `eof` bytes. It goes on as long as the next entry's block stands in it or a little behind it, and ends with the last of these blocks.
///
/// `Err` says what is wrong with the first entry, before its block's bytes are looked at.
#[tactic(auto, unfolding(crate::specs::Blocks::data_at))]
pub fn find_run(eof: u64, entries: &[BlockEntry]) -> Result<Run, BlockRefusal>
    requires { 0 < length entries.now }
    ensures run { IfOk result (IsRun eof entries.now) }
    ensures refused { IfErr result (λ refusal. (file : List ℕ) (d : BlockEntry) → data_at file eof (get_or entries.now 0 d) ≡ Err refusal) }
{
    let first = entries[0];
    if let Some(refusal) = misplaced(eof, first) {
        return Err(refusal);
    }
    let mut run = Run {
        from: first.at.ib,
        len: disk_size(first.cb),
        count: 1,
    };
    for entry in &entries[1..] {
        let Some(len) = reach(eof, run.from, run.len, *entry) else {
            return Ok(run);
        };
        run.len = len;
        run.count += 1;
    }
    Ok(run)
}

/// Checks that an entry names a whole block, by the bytes of a run in which the block stands.
///
/// An error says the first thing that is wrong with the block's frame.
#[tactic(auto, unfolding(crate::specs::Blocks::data_at))]
pub fn check_block_in(run: Run, bytes: &[u8], entry: BlockEntry) -> Result<(), BlockRefusal>
    requires size { length bytes.now ≡ run.len }
    requires within { IsIn run entry }
    ensures stands { OnOk result ((file : List ℕ) (eof : ℕ) → IsPlaced eof entry → IsOf file run bytes.now → Stands file eof entry) }
    ensures refused { IfErr result (λ refusal. (file : List ℕ) (eof : ℕ) → IsPlaced eof entry → IsOf file run bytes.now → data_at file eof entry ≡ Err refusal) }
{
    let start = (entry.at.ib - run.from) as usize;
    match framed(&bytes[start..start + disk_size(entry.cb)], entry) {
        Ok(_) => Ok(()),
        Err(refusal) => Err(refusal),
    }
}
