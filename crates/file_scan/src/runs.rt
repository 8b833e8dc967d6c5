//! The blocks of a run of the file.
ghost use Rattle.std.specs.Prelude.{◌≡◌, ◌≤◌, ◌<◌, ℕ, List, Err, length, take, All, IfOk, OnOk, IfErr};
ghost use Rattle.pst_outside.specs.Calls.{Rose, Untouched};
ghost use Rattle.file_blocks.specs.Blocks.{file_of, AllStand};
ghost use Rattle.file_blocks.specs.Runs.{IsIn, IsOf};
ghost use Rattle.file_scan.specs.Parts.{StopsAtBlock, AllPlaced};

use btree_pages::BlockEntry;
use file_blocks::{BlockRefusal, Run, check_block_in, find_run};
use file_layout::{OpenRefusal, OpenStop};
use pst_outside::{Outside, Part, read_part};

/// The stop at the block of an entry.
fn at_block(entry: BlockEntry, fault: BlockRefusal) -> OpenStop
    ensures { result ≡ OpenStop.Refused (OpenRefusal.Block entry.at.ib fault) }
{
    OpenStop::Refused(OpenRefusal::Block {
        ib: entry.at.ib,
        fault,
    })
}

/// Checks that each of these entries names a whole block, by the bytes of a run in which all their blocks stand.
fn check_in(run: Run, bytes: &[u8], blocks: &[BlockEntry]) -> Result<(), OpenStop>
    requires size { length bytes.now ≡ run.len }
    requires within { All (IsIn run) blocks.now }
    ensures stand { OnOk result ((file : List ℕ) (eof : ℕ) → AllPlaced eof blocks.now → IsOf file run bytes.now → AllStand file eof blocks.now) }
    ensures refused { IfErr result (λ stop. (file : List ℕ) (eof : ℕ) → AllPlaced eof blocks.now → IsOf file run bytes.now → StopsAtBlock stop file eof blocks.now) }
    ensures no_fault { result ≡ Err OpenStop.Fault → ⊥ }
{
    for entry in blocks {
        match check_block_in(run, bytes, *entry) {
            Ok(()) => {}
            Err(fault) => return Err(at_block(*entry, fault)),
        }
    }
    Ok(())
}

/// Checks the blocks of the run that the first of these entries begins, which it reads into the buffer, and says how many they are.
pub(crate) fn check_run<W: Outside>(
    w: &mut W,
    eof: u64,
    blocks: &[BlockEntry],
    buffer: &mut [u8; 65536],
) -> Result<usize, OpenStop>
    requires whole { (W.view w.old).tells → eof ≤ length (W.view w.old).here.main }
    requires any { 0 < length blocks.now }
    ensures some { IfOk result (λ n. 0 < n) }
    ensures within { IfOk result (λ n. n ≤ length blocks.now) }
    ensures stand { IfOk result (λ n. (W.view w.new).tells → AllStand (file_of (W.view w.new).here) eof (take n blocks.now)) }
    ensures placed { IfOk result (λ n. AllPlaced eof (take n blocks.now)) }
    ensures refused { IfErr result (λ stop. (W.view w.new).tells → StopsAtBlock stop (file_of (W.view w.new).here) eof blocks.now) }
    ensures fault { result ≡ Err OpenStop.Fault → Rose (W.view w.old).disk_faults (W.view w.new).disk_faults }
    ensures same { Untouched (W.view w.old) (W.view w.new) }
{
    let run = match find_run(eof, blocks) {
        Ok(run) => run,
        Err(fault) => return Err(at_block(blocks[0], fault)),
    };
    let (bytes, _) = buffer.split_at_mut(run.len);
    read_part(w, Part::Main, run.from, bytes)?;
    check_in(run, bytes, &blocks[..run.count])?;
    Ok(run.count)
}
