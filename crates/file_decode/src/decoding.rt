//! The data blocks of a file, decoded into its copy.
ghost use Rattle.std.specs.Prelude.{◌≡◌, ◌≢◌, ◌≤◌, ◌+◌, ℕ, List, length, count_by, OnErr, OnOk, IfErr, IfOk, Err, Ok};
ghost use Rattle.pst_outside.specs.Calls.{Rose};
ghost use Rattle.pst_outside.specs.World.{after_write};
ghost use Rattle.block_frame.specs.Block.{reading};
ghost use Rattle.block_frame.specs.Size.{disk_size_of};
ghost use Rattle.file_blocks.specs.Blocks.{AllStand, Stands, file_of};
ghost use Rattle.file_blocks.specs.Stops.{IsPlaced};
ghost use Rattle.file_scan.specs.Parts.{AllPlaced};
ghost use Rattle.file_decode.specs.Decoded.{IsChange, StopsWriting};
ghost use Rattle.file_decode.specs.Decoding.{bytes_at, decoded_block, decoded_blocks, decoded_count, is_data, with_blocks};
ghost use Rattle.copy_part.specs.Keeps.{KeepsSource};

use block_encoding::{Method, decode};
use block_frame::{BlockFault, BlockView, disk_size};
use btree_pages::BlockEntry;
use copy_part::put;
use file_layout::OpenStop;
use pst_base::put_u32;
use pst_checksum::crc;
use pst_outside::{Outside, Part, read_part};

/// The most bytes that a block takes in the file.
const LARGEST: usize = 8192;

/// How far from a block's end its checksum stands.
const CRC_FROM_END: usize = 12;

/// Decodes the data of a block in all its bytes, and writes its checksum.
#[tactic(auto, unfolding(crate::specs::Decoding::decoded_block))]
fn decode_bytes(method: Method, entry: BlockEntry, block: &mut [u8])
    requires short { entry.cb ≤ 8176 }
    requires size { length block.old ≡ disk_size_of entry.cb }
    ensures { block.new ≡ decoded_block method entry block.old }
{
    let (data, _) = block.split_at_mut(usize::from(entry.cb));
    decode(method, entry.at.bid, data);
    let checksum = crc(data);
    put_u32(block, disk_size(entry.cb) - CRC_FROM_END, checksum);
}

/// Checks the frame of a block again.
fn check_frame(block: &[u8], entry: BlockEntry) -> Result<(), OpenStop>
    requires short { entry.cb ≤ 8176 }
    requires size { length block.now ≡ disk_size_of entry.cb }
    ensures fault { result ≢ Err OpenStop.Fault }
    ensures change { IfErr result IsChange }
    ensures refused { OnErr result ((content : List ℕ) → reading entry.cb entry.at block.now ≡ Ok content → ⊥) }
{
    match BlockView::read(block, entry.cb, entry.at) {
        Ok(_) => Ok(()),
        Err(
            BlockFault::Length { stored, computed }
            | BlockFault::Crc { stored, computed }
            | BlockFault::Sig { stored, computed }
            | BlockFault::Bid { stored, computed },
        ) => Err(OpenStop::Changed {
            ib: entry.at.ib,
            stored,
            computed,
        }),
    }
}

/// Reads a data block of Main, and writes it decoded to the same place of Copy. The buffer's bytes don't matter.
fn decode_block<W: Outside>(
    w: &mut W,
    eof: u64,
    method: Method,
    entry: BlockEntry,
    buffer: &mut [u8; LARGEST],
) -> Result<(), OpenStop>
    requires placed { IsPlaced eof entry }
    requires whole { (W.view w.old).tells → eof ≤ length (W.view w.old).here.main }
    requires stands { (W.view w.old).tells → Stands (file_of (W.view w.old).here) eof entry }
    ensures keeps { KeepsSource (W.view w.old) (W.view w.new) }
    ensures fault { result ≡ Err OpenStop.Fault → Rose (W.view w.old).disk_faults (W.view w.new).disk_faults }
    ensures stops { IfErr result (λ stop. StopsWriting stop (W.view w.new)) }
    ensures copy { OnOk result ((W.view w.new).tells → (W.view w.new).here.copy ≡ after_write (W.view w.old).here.copy entry.at.ib (decoded_block method entry (bytes_at entry (file_of (W.view w.old).here)))) }
{
    let (block, _) = buffer.split_at_mut(disk_size(entry.cb));
    read_part(w, Part::Main, entry.at.ib, block)?;
    check_frame(block, entry)?;
    decode_bytes(method, entry, block);
    put(w, entry.at.ib, block)?;
    Ok(())
}

/// Decodes each data block into Copy, and counts them.
fn decode_each<W: Outside>(
    w: &mut W,
    eof: u64,
    method: Method,
    blocks: &[BlockEntry],
) -> Result<u64, OpenStop>
    requires placed { AllPlaced eof blocks.now }
    requires whole { (W.view w.old).tells → eof ≤ length (W.view w.old).here.main }
    requires stand { (W.view w.old).tells → AllStand (file_of (W.view w.old).here) eof blocks.now }
    ensures keeps { KeepsSource (W.view w.old) (W.view w.new) }
    ensures fault { result ≡ Err OpenStop.Fault → Rose (W.view w.old).disk_faults (W.view w.new).disk_faults }
    ensures stops { IfErr result (λ stop. StopsWriting stop (W.view w.new)) }
    ensures count { IfOk result (λ count. count ≡ count_by is_data blocks.now) }
    ensures copy { OnOk result ((W.view w.new).tells → (W.view w.new).here.copy ≡ with_blocks method (file_of (W.view w.old).here) blocks.now (W.view w.old).here.copy) }
{
    let mut buffer = [0; LARGEST];
    let mut count = 0;
    for entry in blocks {
        if !entry.at.bid.internal() {
            decode_block(w, eof, method, *entry, &mut buffer)?;
            count += 1;
        }
    }
    Ok(count)
}

/// The same by the method that the blocks are encoded by, if they are.
pub(crate) fn decode_blocks<W: Outside>(
    w: &mut W,
    eof: u64,
    method: Option<Method>,
    blocks: &[BlockEntry],
) -> Result<u64, OpenStop>
    requires placed { AllPlaced eof blocks.now }
    requires whole { (W.view w.old).tells → eof ≤ length (W.view w.old).here.main }
    requires stand { (W.view w.old).tells → AllStand (file_of (W.view w.old).here) eof blocks.now }
    ensures keeps { KeepsSource (W.view w.old) (W.view w.new) }
    ensures fault { result ≡ Err OpenStop.Fault → Rose (W.view w.old).disk_faults (W.view w.new).disk_faults }
    ensures stops { IfErr result (λ stop. StopsWriting stop (W.view w.new)) }
    ensures count { IfOk result (λ count. count ≡ decoded_count method blocks.now) }
    ensures copy { OnOk result ((W.view w.new).tells → (W.view w.new).here.copy ≡ decoded_blocks method (file_of (W.view w.old).here) blocks.now (W.view w.old).here.copy) }
{
    match method {
        Some(method) => decode_each(w, eof, method, blocks),
        None => Ok(0),
    }
}
