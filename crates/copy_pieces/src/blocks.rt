//! Blocks, copied to their places.
ghost use Rattle.std.specs.Prelude.{◌≡◌, ◌≤◌, ◌∷◌, [], ℕ, length, IfErr, OnOk, Err};
ghost use Rattle.pst_outside.specs.Calls.{Rose};
ghost use Rattle.copy_part.specs.Keeps.{KeepsSource};
ghost use Rattle.file_blocks.specs.Blocks.{AllStand, Stands, file_of};
ghost use Rattle.file_blocks.specs.declared.check.BlockRefusal.{BlockRefusal as BlockRefusals};
ghost use Rattle.file_scan.specs.Parts.{AllShort};
ghost use Rattle.lays_kept.specs.declared.Piece.{Piece as Pieces};
ghost use Rattle.copy_pieces.specs.Moved.{AreMoved, IsMoved};
ghost use Rattle.copy_pieces.specs.Stops.{StopsCopy};
ghost use Rattle.copy_pieces.specs.Writes.{Adds, AddsBlocks, IsCopied};

use crate::stops::{CompactStop, changed};
use block_frame::seal;
use btree_pages::BlockEntry;
use copy_part::put;
use file_blocks::{BlockStop, read_block};
use pst_base::MemOr;
use pst_outside::Outside;
use std::alloc::Global;

/// Why a block can't be read that was whole.
fn block_stop(ib: u64, stop: MemOr<BlockStop>) -> CompactStop
    ensures fault { result ≡ CompactStop.Fault → stop ≡ MemOr.Refused BlockStop.Failed }
    ensures large { (eof : ℕ) → result ≡ CompactStop.Large eof → ⊥ }
    ensures changed { (at stored computed : ℕ) → result ≡ CompactStop.Changed at stored computed → (refusal : BlockRefusals) × (stop ≡ MemOr.Refused (BlockStop.Refused refusal)) }
{
    match stop {
        MemOr::Memory => CompactStop::Memory,
        MemOr::Refused(BlockStop::Failed) => CompactStop::Fault,
        MemOr::Refused(BlockStop::Refused(_)) => changed(ib),
    }
}

/// Copies a block of the file to the place of its new entry.
fn copy_block<W: Outside>(
    alloc: Global,
    w: &mut W,
    eof: u64,
    old: BlockEntry,
    new: BlockEntry,
) -> Result<(), CompactStop>
    requires whole { (W.view w.old).tells → eof ≤ length (W.view w.old).here.main }
    requires stands { (W.view w.old).tells → Stands (file_of (W.view w.old).here) eof old }
    requires short { old.cb ≤ 8176 }
    requires bid { new.at.bid ≡ old.at.bid }
    requires size { new.cb ≡ old.cb }
    ensures keeps { KeepsSource (W.view w.old) (W.view w.new) }
    ensures fault { result ≡ Err CompactStop.Fault → Rose (W.view w.old).disk_faults (W.view w.new).disk_faults }
    ensures stops { IfErr result (λ stop. StopsCopy stop (W.view w.new)) }
    ensures copy { OnOk result ((W.view w.new).tells → (p : Pieces) × IsCopied (file_of (W.view w.old).here) old new p × Adds (W.view w.old).here.copy (W.view w.new).here.copy (p ∷ [])) }
{
    let content = match read_block(alloc, w, eof, old) {
        Ok(content) => content,
        Err(stop) => return Err(block_stop(old.at.ib, stop)),
    };
    if content.len() != usize::from(old.cb) {
        return Err(changed(old.at.ib));
    }
    let bytes = seal(alloc, content.as_slice(), new.at)?;
    put(w, new.at.ib, bytes.as_slice())?;
    Ok(())
}

/// Copies blocks of the file, each to the place of its new entry.
pub fn copy_blocks<W: Outside>(
    alloc: Global,
    w: &mut W,
    eof: u64,
    olds: &[BlockEntry],
    news: &[BlockEntry],
) -> Result<(), CompactStop>
    requires whole { (W.view w.old).tells → eof ≤ length (W.view w.old).here.main }
    requires stand { (W.view w.old).tells → AllStand (file_of (W.view w.old).here) eof olds.now }
    requires short { AllShort olds.now }
    requires moved { (uses : ℕ → ℕ) × AreMoved uses olds.now news.now }
    ensures keeps { KeepsSource (W.view w.old) (W.view w.new) }
    ensures fault { result ≡ Err CompactStop.Fault → Rose (W.view w.old).disk_faults (W.view w.new).disk_faults }
    ensures stops { IfErr result (λ stop. StopsCopy stop (W.view w.new)) }
    ensures copy { OnOk result ((W.view w.new).tells → AddsBlocks (file_of (W.view w.old).here) olds.now news.now (W.view w.old).here.copy (W.view w.new).here.copy) }
{
    for i in 0..olds.len() {
        copy_block(alloc, w, eof, olds[i], news[i])?;
    }
    Ok(())
}
