//! A file, decoded into its copy.
ghost use Rattle.std.specs.Prelude.{◌≡◌, ◌⊎◌, ◌≤◌, [], length, OnOk, IfErr, IfOk, Err};
ghost use Rattle.pst_outside.specs.Calls.{Rose, Untouched};
ghost use Rattle.file_blocks.specs.Blocks.{file_of};
ghost use Rattle.file_scan.specs.Found.{LaysBlocks};
ghost use Rattle.file_scan.specs.Parts.{AllPlaced};
ghost use Rattle.file_decode.specs.Decoded.{IsDecoded, StopsDecoding, StopsReading, StopsWriting};
ghost use Rattle.copy_part.specs.Keeps.{IsStable, KeepsSource};
ghost use Rattle.file_decode.specs.Source.{IsSource};

use crate::copying::copy_bytes;
use crate::decoding::decode_blocks;
use crate::source::{Source, open_source};
use crate::stops::DecodeStop;
use btree_pages::BlockEntry;
use copy_part::{put, settle};
use file_layout::OpenStop;
use file_scan::scan_blocks;
use pst_outside::{Failed, Outside, Part};
use std::alloc::Global;

/// Writes the copy, which has no bytes before: all bytes behind the header, then the data blocks once more, decoded, and last the header.
fn write_copy<W: Outside>(
    w: &mut W,
    source: &Source,
    blocks: &[BlockEntry],
) -> Result<u64, OpenStop>
    requires source { (W.view w.old).tells → IsSource (W.view w.old).here source.now }
    requires laid { (W.view w.old).tells → LaysBlocks source.now.header (file_of (W.view w.old).here) blocks.now }
    requires placed { AllPlaced source.now.header.eof blocks.now }
    requires whole { (W.view w.old).tells → source.now.header.eof ≤ length (W.view w.old).here.main }
    requires empty { (W.view w.old).tells → (W.view w.old).here.copy ≡ [] }
    ensures keeps { KeepsSource (W.view w.old) (W.view w.new) }
    ensures fault { result ≡ Err OpenStop.Fault → Rose (W.view w.old).disk_faults (W.view w.new).disk_faults }
    ensures stops { IfErr result (λ stop. StopsWriting stop (W.view w.new)) }
    ensures decoded { IfOk result (λ count. (W.view w.new).tells → IsDecoded (W.view w.old).here count (W.view w.new).here.copy) }
    ensures stable { OnOk result (IsStable (W.view w.new)) }
{
    copy_bytes(w)?;
    let count = decode_blocks(w, source.header.eof, source.method, blocks)?;
    settle(w)?;
    put(w, 0, &source.bytes)?;
    settle(w)?;
    Ok(count)
}

/// The same of the file that counts, once it was found whole.
fn decode_whole<W: Outside>(alloc: Global, w: &mut W) -> Result<u64, OpenStop>
    requires empty { (W.view w.old).tells → (W.view w.old).here.copy ≡ [] }
    ensures keeps { KeepsSource (W.view w.old) (W.view w.new) }
    ensures stops { IfErr result (λ stop. StopsReading stop (W.view w.old) (W.view w.new)) }
    ensures decoded { IfOk result (λ count. (W.view w.new).tells → IsDecoded (W.view w.old).here count (W.view w.new).here.copy) }
    ensures stable { OnOk result (IsStable (W.view w.new)) }
{
    let source = open_source(w)?;
    let blocks = scan_blocks(alloc, w, &source.header)?;
    write_copy(w, &source, blocks.as_slice())
}

/// Writes into Copy, which has no bytes, the file that counts with each data block decoded and a header that says so, makes it stable, and answers how many data blocks were encoded. A file that isn't encoded is copied. It reads the file once to find it whole, as a scan does, and once to copy it; then each data block once more. Beside the entries of the block tree, and what a scan takes, its memory is that of one piece.
///
/// `NotEmpty` comes before the file is looked at, and a refusal before anything is written. Main and Side are never written, and what a stop leaves of Copy is no file. `Changed` comes only where a block fails a check that it passed, never over a world that tells.
pub fn decode_file<W: Outside>(alloc: Global, w: &mut W) -> Result<u64, DecodeStop>
    ensures keeps { KeepsSource (W.view w.old) (W.view w.new) }
    ensures stops { IfErr result (λ stop. StopsDecoding stop (W.view w.old) (W.view w.new)) }
    ensures decoded { IfOk result (λ count. (W.view w.new).tells → IsDecoded (W.view w.old).here count (W.view w.new).here.copy) }
    ensures stable { OnOk result (IsStable (W.view w.new)) }
    // A copy that has bytes stays as it is.
    ensures occupied { (W.view w.old).tells → ((W.view w.old).here.copy ≡ [] → ⊥) → Untouched (W.view w.old) (W.view w.new) × ((result ≡ Err DecodeStop.NotEmpty) ⊎ (result ≡ Err (DecodeStop.Reading OpenStop.Fault))) }
{
    match w.len(Part::Copy) {
        Ok(0) => {}
        Ok(_) => return Err(DecodeStop::NotEmpty),
        Err(Failed) => return Err(DecodeStop::Reading(OpenStop::Fault)),
    }
    match decode_whole(alloc, w) {
        Ok(count) => Ok(count),
        Err(stop) => Err(DecodeStop::Reading(stop)),
    }
}
