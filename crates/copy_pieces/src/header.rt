//! The headers of the file and of its copy.
ghost use Rattle.std.specs.Prelude.{◌≡◌, ◌≤◌, ◌^◌, ℕ, Ok, Err, IfErr, OnOk, IsTrue, ◌↔◌};
ghost use Rattle.pst_outside.specs.Calls.{Rose, Untouched};
ghost use Rattle.pst_header.specs.Format.{IsWritable, reading};
ghost use Rattle.file_layout.specs.Opening.{opening};
ghost use Rattle.lays_kept.specs.Stands.{last_map};
ghost use Rattle.copy_pieces.specs.Headers.{Succeeds};
ghost use Rattle.copy_pieces.specs.Stops.{StopsCopy};

use crate::stops::{CompactStop, changed};
use file_layout::counted_header;
use pst_base::Bref;
use pst_header::{Header, read};
use pst_outside::Outside;

/// Where the first region begins.
const FIRST: u64 = 0x4400;

/// The length of a region, in bytes.
const REGION: u64 = 253_952;

/// What a copy's header has of its own.
#[derive(Clone, Copy, Debug, PartialEq, Eq)]
pub struct Made {
    pub eof: u64,
    /// How many bytes the free slots have.
    pub free: u64,
    pub nbt: Bref,
    pub bbt: Bref,
    pub next_block: u64,
    pub next_page: u64,
}

/// Whether bytes are a header's.
fn is_header(bytes: &[u8; 564], header: &Header) -> bool
    ensures reads { IsTrue result ↔ (reading bytes.now ≡ Ok header.now) }
    ensures writable { IsTrue result → IsWritable header.now }
{
    match read(bytes) {
        Ok(read) => read == *header,
        Err(_) => false,
    }
}

/// Looks whether the header that counts is that one, which can be written then.
pub fn check_header<W: Outside>(w: &mut W, header: &Header) -> Result<(), CompactStop>
    requires { (W.view w.old).tells → opening (W.view w.old).here.main (W.view w.old).here.side ≡ Ok header.now }
    ensures writable { OnOk result (IsWritable header.now) }
    ensures stops { IfErr result (λ stop. StopsCopy stop (W.view w.new)) }
    ensures fault { result ≡ Err CompactStop.Fault → Rose (W.view w.old).disk_faults (W.view w.new).disk_faults }
    ensures same { Untouched (W.view w.old) (W.view w.new) }
{
    let bytes = counted_header(w)?;
    if !is_header(&bytes, header) {
        return Err(changed(0));
    }
    Ok(())
}

/// Where the map page of the last region of a file stands that ends where a region does.
fn last_map(eof: u64) -> u64
    requires low { 271360 ≤ eof }
    requires high { eof ≤ 2 ^ 60 }
    ensures { result ≡ last_map eof }
{
    FIRST + (eof - FIRST + (REGION - 1)) / REGION * REGION - REGION
}

/// The header of a copy.
pub fn copy_header(header: &Header, made: Made) -> Header
    requires low { 271360 ≤ made.eof }
    requires high { made.eof ≤ 2 ^ 60 }
    requires writable { IsWritable header.now }
    ensures succeeds { Succeeds header.now result made.next_block made.next_page made.eof }
    ensures writable { IsWritable result }
    ensures free { result.amap_free ≡ made.free }
    ensures last { result.amap_last ≡ last_map made.eof }
    ensures nbt { result.nbt ≡ made.nbt }
    ensures bbt { result.bbt ≡ made.bbt }
{
    Header {
        unique: header.unique.wrapping_add(1),
        next_block: made.next_block,
        next_page: made.next_page,
        eof: made.eof,
        amap_last: last_map(made.eof),
        amap_free: made.free,
        pmap_free: 0,
        nbt: made.nbt,
        bbt: made.bbt,
        maps: 2,
        ..*header
    }
}
