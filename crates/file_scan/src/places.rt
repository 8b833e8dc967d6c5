//! The places of a file's pages and blocks.
ghost use Rattle.std.specs.Prelude.{◌≡◌, ◌≤◌, ◌*◌, ℕ, ◌++◌, map, length, OnOk, IfOk, IfErr};
ghost use Rattle.alloc_map.specs.Standing.{standing, occupied, IsCovered, IsMeeting};
ghost use Rattle.file_layout.specs.Nodes.{LARGEST, regions_to, place_of};
ghost use Rattle.file_layout.specs.Trees.{AllPages, page_place};
ghost use Rattle.file_scan.specs.Parts.{AllPlaced, AllShort, StopsAtMeeting};

use alloc_map::Slots;
use block_frame::disk_size;
use btree_pages::BlockEntry;
use file_layout::{OpenRefusal, OpenStop};
use pst_base::{Bref, MemOr, Place};
use std::alloc::{AllocError, Global};

/// The most regions that a file may have.
const REGIONS: u32 = 8192;

/// The length of a page, in bytes.
const PAGE: u64 = 512;

/// Puts the places of pages behind those that are there.
fn push_pages(places: &mut Vec<Place>, pages: &[Bref]) -> Result<(), AllocError>
    ensures { OnOk result (places.new.items ≡ places.old.items ++ map page_place pages.now) }
{
    for page in pages {
        places.push(Place {
            ib: page.ib,
            len: PAGE,
        })?;
    }
    Ok(())
}

/// Puts the places of blocks behind those that are there.
fn push_blocks(places: &mut Vec<Place>, blocks: &[BlockEntry]) -> Result<(), AllocError>
    requires { AllShort blocks.now }
    ensures { OnOk result (places.new.items ≡ places.old.items ++ map place_of blocks.now) }
{
    for entry in blocks {
        places.push(Place {
            ib: entry.at.ib,
            len: disk_size(entry.cb) as u64,
        })?;
    }
    Ok(())
}

/// The slots on which these pages, these blocks and the fixed pages of all regions that a file may have stand, where no two of the pages, the blocks and the AMap pages of the file's own regions meet.
pub(crate) fn used_slots(
    alloc: Global,
    eof: u64,
    pages: &[Bref],
    blocks: &[BlockEntry],
) -> Result<Slots, OpenStop>
    requires small { eof ≤ LARGEST }
    requires pages { AllPages eof pages.now }
    requires placed { AllPlaced eof blocks.now }
    ensures size { IfOk result (λ slots. length slots ≡ 3968 * 8192) }
    ensures used { IfOk result (IsCovered (occupied (map page_place pages.now ++ map place_of blocks.now) 8192)) }
    ensures apart { IfOk result (λ _. (slot : ℕ) → IsMeeting (standing (map page_place pages.now ++ map place_of blocks.now) (regions_to eof)) slot → ⊥) }
    ensures overlap { IfErr result (λ stop. StopsAtMeeting stop (map page_place pages.now ++ map place_of blocks.now) (regions_to eof)) }
{
    let mut places = Vec::new(alloc);
    push_pages(&mut places, pages)?;
    push_blocks(&mut places, blocks)?;
    match Slots::rebuild(alloc, places.as_slice(), REGIONS) {
        Ok(slots) => Ok(slots),
        Err(MemOr::Memory) => Err(OpenStop::Memory),
        Err(MemOr::Refused(overlap)) => {
            Err(OpenStop::Refused(OpenRefusal::Overlap { ib: overlap.ib }))
        }
    }
}
