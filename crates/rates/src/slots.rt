//! Measures the used slots of a nearly full file: it fills so many regions but for some cells at the end of each, and gives blocks of 8192 bytes until there are so many or there is no room.
//!
//! The words are regions from 1 to 8192, bytes that are free at the end of each region, a multiple of 64 up to 245760, and blocks to give; without them 4, 16384 and 10. `bench/slots.sh` times it.

ghost use Rattle.std.specs.Prelude.{◌≡◌, ◌≤◌, ◌<◌, ◌%◌, IfOk, All};
ghost use Rattle.alloc_map.specs.Slots.{IsLaid};

use crate::numbers::number_or;
use alloc_map::Slots;
use pst_base::{MemOr, Place};
use std::alloc::{AllocError, Global};

/// A place in each region, from its byte 2048 to where the free bytes begin.
fn nearly_full(alloc: Global, regions: u32, free: u32) -> Result<Vec<Place>, AllocError>
    requires few { regions ≤ 8192 }
    requires room { free ≤ 245760 }
    requires whole { free % 64 ≡ 0 }
    ensures { IfOk result (λ places. All (IsLaid regions) places.items) }
{
    let mut places = Vec::with_capacity(alloc, regions as usize)?;
    for region in 0..regions {
        places.push(Place {
            ib: 0x4400 + 253_952 * u64::from(region) + 2048,
            len: 253_952 - 2048 - u64::from(free),
        })?;
    }
    Ok(places)
}

/// Gives blocks of 8192 bytes, and counts them up to a number.
fn give_blocks(slots: &mut Slots, blocks: u32) -> u32
    ensures { result ≤ blocks }
{
    for given in 0..blocks {
        if slots.place_block(8192).is_none() {
            return given;
        }
    }
    blocks
}

/// The free cells before and after the blocks that the words ask for.
pub(crate) fn report(alloc: Global, words: &[String]) -> Result<String, AllocError> {
    let regions = number_or(words, 0, 4).clamp(1, 8192);
    let free = number_or(words, 1, 16384).min(245_760) / 64 * 64;
    let places = nearly_full(alloc, regions, free)?;
    match Slots::rebuild(alloc, places.as_slice(), regions) {
        Ok(mut slots) => {
            let cells = slots.free_cells();
            let given = give_blocks(&mut slots, number_or(words, 2, 10));
            let left = slots.free_cells();
            format!(in alloc; "{cells} cells free, {given} blocks given, {left} cells left")
        }
        Err(MemOr::Refused(overlap)) => format!(in alloc; "overlap at {overlap:?}"),
        Err(MemOr::Memory) => Err(AllocError),
    }
}
