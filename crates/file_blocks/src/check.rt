//! One block.
ghost use Rattle.std.specs.Prelude.{◌≡◌, ◌≤◌, ◌+◌, ◌%◌, take, drop, length, IfOk, IfErr, IfNone, OnOk, OnErr};
ghost use Rattle.block_frame.specs.Block.{reading};
ghost use Rattle.pst_outside.specs.Calls.{Rose, Untouched};
ghost use Rattle.block_frame.specs.Size.{disk_size_of};
ghost use Rattle.file_blocks.specs.Blocks.{file_of, has_room, misplaced, data_at, faulty};
ghost use Rattle.file_blocks.specs.Stops.{StopsRead, Tells};

use block_frame::{BlockFault, BlockView, disk_size};
use btree_pages::BlockEntry;
use pst_base::{Bytes, MemOr};
use pst_outside::{Failed, Outside, Part, read_part};
use std::alloc::Global;

/// The most bytes of data that a block may have.
const MOST: u16 = 8176;

/// The most bytes that a block takes in the file.
const LARGEST: usize = 8192;

/// Where the file's first block may stand.
const FIRST: u64 = 0x4400;

/// What is wrong with a block, in the order in which it is looked for.
#[derive(Clone, Copy, Debug, PartialEq, Eq)]
pub enum BlockRefusal {
    /// Its entry in the block tree says that it has more than 8176 bytes of data.
    Length,
    /// Its place isn't a multiple of 64, or is below 4400h, or the block ends past the file's end.
    Outside,
    /// Its frame.
    Faulty(BlockFault),
    /// It names or lists others, and isn't of its layout.
    Form,
}

/// Why a block can't be read.
#[derive(Clone, Copy, Debug, PartialEq, Eq)]
pub enum BlockStop {
    Refused(BlockRefusal),
    /// A call on the disk failed.
    Failed,
}

/// Whether `len` bytes of a block or a page may stand at a place of a file of `eof` bytes: at a multiple of 64, at or above 4400h, and ending at or before `eof`.
pub fn has_room(eof: u64, len: usize, ib: u64) -> bool
    requires { len ≤ 8192 }
    ensures { result ≡ has_room eof len ib }
{
    if ib < FIRST {
        return false;
    }
    if ib % 64 != 0 {
        return false;
    }
    ib <= eof.saturating_sub(len as u64)
}

/// What is wrong with an entry, before its block's bytes are looked at.
#[tactic(auto, unfolding(crate::specs::Blocks::misplaced))]
pub(crate) fn misplaced(eof: u64, entry: BlockEntry) -> Option<BlockRefusal>
    ensures value { result ≡ misplaced eof entry }
    ensures fits { IfNone result (entry.cb ≤ 8176) }
    ensures low { IfNone result (0x4400 ≤ entry.at.ib) }
    ensures within { IfNone result (entry.at.ib + disk_size_of entry.cb ≤ eof) }
    ensures whole { IfNone result (entry.at.ib % 64 ≡ 0) }
{
    if entry.cb > MOST {
        return Some(BlockRefusal::Length);
    }
    if has_room(eof, disk_size(entry.cb), entry.at.ib) {
        None
    } else {
        Some(BlockRefusal::Outside)
    }
}

/// Reads all bytes of a block in the file to the front of a buffer.
fn read_bytes<W: Outside>(
    w: &mut W,
    entry: BlockEntry,
    buffer: &mut [u8; 8192],
) -> Result<(), Failed>
    requires fits { entry.cb ≤ 8176 }
    requires low { 0x4400 ≤ entry.at.ib }
    ensures bytes { OnOk result ((W.view w.new).tells → entry.at.ib + disk_size_of entry.cb ≤ length (W.view w.new).here.main → take (disk_size_of entry.cb) buffer.new ≡ take (disk_size_of entry.cb) (drop entry.at.ib (file_of (W.view w.new).here))) }
    ensures cause { OnErr result (Rose (W.view w.old).disk_faults (W.view w.new).disk_faults) }
    ensures same { Untouched (W.view w.old) (W.view w.new) }
{
    let (front, _) = buffer.split_at_mut(disk_size(entry.cb));
    read_part(w, Part::Main, entry.at.ib, front)
}

/// The block that these bytes are, or what is wrong with its frame.
pub(crate) fn framed<'a>(bytes: &'a [u8], entry: BlockEntry) -> Result<BlockView<'a>, BlockRefusal>
    requires fits { entry.cb ≤ 8176 }
    requires size { length bytes.now ≡ disk_size_of entry.cb }
    ensures { result ≡ faulty (reading entry.cb entry.at bytes.now) }
{
    match BlockView::read(bytes, entry.cb, entry.at) {
        Ok(view) => Ok(view),
        Err(fault) => Err(BlockRefusal::Faulty(fault)),
    }
}

/// The data of the block that an entry of the block tree names in a file of `eof` bytes. It writes nothing.
///
/// `Refused` says the first thing that is wrong with the block; `Failed` comes only where the disk failed, `Memory` where there was none.
#[tactic(auto, unfolding(crate::specs::Blocks::data_at))]
pub fn read_block<W: Outside>(
    alloc: Global,
    w: &mut W,
    eof: u64,
    entry: BlockEntry,
) -> Result<Bytes, MemOr<BlockStop>>
    ensures content { IfOk result (λ content. Tells (W.view w.new) eof → data_at (file_of (W.view w.new).here) eof entry ≡ Ok content) }
    ensures refused { IfErr result (λ stop. Tells (W.view w.new) eof → StopsRead stop (data_at (file_of (W.view w.new).here) eof entry)) }
    ensures fault { result ≡ Err (MemOr.Refused BlockStop.Failed) → Rose (W.view w.old).disk_faults (W.view w.new).disk_faults }
    ensures same { Untouched (W.view w.old) (W.view w.new) }
{
    if let Some(refusal) = misplaced(eof, entry) {
        return Err(MemOr::Refused(BlockStop::Refused(refusal)));
    }
    let mut buffer = [0; LARGEST];
    if let Err(Failed) = read_bytes(w, entry, &mut buffer) {
        return Err(MemOr::Refused(BlockStop::Failed));
    }
    match framed(&buffer[..disk_size(entry.cb)], entry) {
        Ok(view) => Ok(Bytes::from_slice(alloc, view.body())?),
        Err(refusal) => Err(MemOr::Refused(BlockStop::Refused(refusal))),
    }
}
