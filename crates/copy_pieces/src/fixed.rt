//! The fixed pages of the copy.
ghost use Rattle.std.specs.Prelude.{◌≡◌, ◌≤◌, ◌<◌, ◌+◌, ◌*◌, ◌^◌, ◌++◌, ℕ, List, length, take, All, IfOk, IfErr, OnOk, Err};
ghost use Rattle.pst_outside.specs.Calls.{Rose};
ghost use Rattle.alloc_map.specs.Maps.{IsMapPage};
ghost use Rattle.alloc_map.specs.Slots.{IsLaid, regions_of};
ghost use Rattle.alloc_map.specs.Standing.{IsCovered, IsMeeting, fixed_slots, occupied, standing};
ghost use Rattle.copy_part.specs.Keeps.{KeepsSource};
ghost use Rattle.copy_pieces.specs.Fixed.{AddsFixed};
ghost use Rattle.copy_pieces.specs.Stops.{StopsCopy};

use crate::stops::CompactStop;
use alloc_map::Slots;
use copy_part::put;
use page_frame::seal;
use pst_base::{Bid, Bref, MemOr, Place};
use pst_outside::Outside;
use std::alloc::{AllocError, Global};

/// Where the first region begins.
const FIRST: u64 = 0x4400;

/// The length of a region, in bytes.
const REGION: u64 = 253_952;

/// The slots on which places and the fixed pages of regions stand. No two places meet, or one and a map page.
pub fn used_slots(alloc: Global, places: &[Place], regions: u32) -> Result<Slots, CompactStop>
    requires some { 1 ≤ regions }
    requires few { regions ≤ 8192 }
    requires laid { All (IsLaid regions) places.now }
    requires apart { (slot : ℕ) → IsMeeting (standing places.now regions) slot → ⊥ }
    ensures size { IfOk result (λ slots. length slots ≡ 3968 * regions) }
    ensures used { IfOk result (IsCovered (occupied places.now regions)) }
    ensures memory { IfErr result (λ stop. stop ≡ CompactStop.Memory) }
{
    match Slots::rebuild(alloc, places, regions) {
        Ok(slots) => Ok(slots),
        Err(MemOr::Memory) => Err(CompactStop::Memory),
        Err(MemOr::Refused(_)) => unreachable!(),
    }
}

/// A page of a kind whose bits are all set, and whose id is its place: no map of this kind is read.
fn full_page(kind: u8, at: u64) -> [u8; 512] {
    let bid = Bid { bits: at };
    seal(&[0xff; 496], kind, Bref { bid, ib: at })
}

/// Puts the fixed pages of a region behind its AMap page: a PMap page in each eighth region, and an FMap page in region 128 and each 496th after it.
fn push_further(bytes: &mut Vec<u8>, start: u64, r: u32) -> Result<(), AllocError>
    requires { start ≤ 2 ^ 60 }
    ensures { OnOk result ((more : List ℕ) × (bytes.new.items ≡ bytes.old.items ++ more) × (512 + length more ≡ 64 * fixed_slots r)) }
{
    if r % 496 == 128 {
        bytes.extend_from_slice(&full_page(0x83, start + 512))?;
        bytes.extend_from_slice(&full_page(0x82, start + 1024))?;
        Ok(())
    } else if r % 8 == 0 {
        bytes.extend_from_slice(&full_page(0x83, start + 512))?;
        Ok(())
    } else {
        Ok(())
    }
}

/// The fixed pages of a region ([MS-PST] 2.2.2.7.2 to 2.2.2.7.5), the first of them its map of used slots.
fn fixed_pages(alloc: Global, slots: &Slots, r: u32) -> Result<Vec<u8>, AllocError>
    requires within { r < regions_of slots.now }
    requires few { r < 8192 }
    ensures size { IfOk result (λ bytes. length bytes.items ≡ 64 * fixed_slots r) }
    ensures maps { IfOk result (λ bytes. IsMapPage slots.now r (take 512 bytes.items)) }
{
    let mut bytes = Vec::from_slice(alloc, &slots.map_page(r))?;
    push_further(&mut bytes, FIRST + REGION * u64::from(r), r)?;
    Ok(bytes)
}

/// Writes the fixed pages of all regions.
pub fn put_fixed<W: Outside>(
    alloc: Global,
    w: &mut W,
    slots: &Slots,
    regions: u32,
) -> Result<(), CompactStop>
    requires size { length slots.now ≡ 3968 * regions }
    requires few { regions ≤ 8192 }
    ensures keeps { KeepsSource (W.view w.old) (W.view w.new) }
    ensures fault { result ≡ Err CompactStop.Fault → Rose (W.view w.old).disk_faults (W.view w.new).disk_faults }
    ensures stops { IfErr result (λ stop. StopsCopy stop (W.view w.new)) }
    ensures copy { OnOk result ((W.view w.new).tells → AddsFixed slots.now regions (W.view w.old).here.copy (W.view w.new).here.copy) }
{
    for r in 0..regions {
        let bytes = fixed_pages(alloc, slots, r)?;
        put(w, FIRST + REGION * u64::from(r), bytes.as_slice())?;
    }
    Ok(())
}
