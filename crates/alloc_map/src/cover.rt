//! Places covered one after another, and the least slot that two of them cover.
ghost use Rattle.std.specs.Prelude.{◌≡◌, ◌<◌, ◌≤◌, ◌*◌, ◌+◌, ◌^◌, ◌++◌, List, true, false, length, All};
ghost use Rattle.alloc_map.specs.Slots.{AreAll, Becomes, IsLaid, slot_of, slots_in, start_of};
ghost use Rattle.alloc_map.specs.Standing.{IsCovered, amap_places, fixed_places, fixed_slots, standing};
ghost use Rattle.pst_base.specs.declared.places.Place.{Place as Places};
ghost use Rattle.alloc_map.specs.Covered.{IsCovering, IsLeastOf, IsUsedIn, least_of};

use crate::bits::Bits;
use crate::search::REGION;
use pst_base::Place;

/// The slot that begins at a byte of the file.
pub(crate) fn slot_of(ib: u64) -> usize
    requires { 17408 ≤ ib }
    ensures { result ≡ slot_of ib }
{
    ((ib - 0x4400) / 64) as usize
}

/// Where a slot begins in the file.
pub(crate) fn start_of(slot: usize) -> u64
    requires { slot < 2 ^ 32 }
    ensures { result ≡ start_of slot }
{
    0x4400 + 64 * slot as u64
}

/// How many slots a place has.
pub(crate) fn slots_in(place: &Place) -> usize
    ensures { result ≡ slots_in place.now }
{
    (place.len / 64) as usize
}

/// How many slots the fixed pages of a region take.
fn fixed_slots(region: usize) -> usize
    ensures { result ≡ fixed_slots region }
{
    if region % 496 == 128 {
        24
    } else if region % 8 == 0 {
        16
    } else {
        8
    }
}

/// Covers n slots, and gives the first that was covered before.
fn cover(used: &mut Bits, from: usize, n: usize) -> Option<usize>
    requires within { from + n ≤ length used.old }
    requires small { length used.old < 2 ^ 32 }
    ensures covered { Becomes used.old used.new from n true }
    ensures twice { IsLeastOf (IsUsedIn used.old from n) result }
{
    let mut first = None;
    for slot in from..from + n {
        if used.get(slot) {
            first = first.or(Some(slot));
        } else {
            used.fill(slot, 1, true);
        }
    }
    first
}

/// The lesser of two slots that may be none.
fn least_of(one: Option<usize>, other: Option<usize>) -> Option<usize>
    ensures { result ≡ least_of one other }
{
    match (one, other) {
        (Some(one), Some(other)) => Some(one.min(other)),
        (one, other) => one.or(other),
    }
}

/// Covers the AMap pages of all regions, and gives the least slot that is covered twice.
fn cover_amaps(used: &mut Bits, regions: usize) -> Option<usize>
    requires size { length used.old ≡ 3968 * regions }
    requires few { regions ≤ 8192 }
    requires clear { AreAll used.old 0 (3968 * regions) false }
    ensures size { length used.new ≡ length used.old }
    ensures covering { IsCovering (amap_places regions) used.new result }
{
    let mut twice = None;
    for region in 0..regions {
        twice = least_of(twice, cover(used, REGION * region, 8));
    }
    twice
}

/// Fills the fixed pages of all regions, on which places may stand.
pub(crate) fn fill_fixed(used: &mut Bits, regions: usize)
    requires size { length used.old ≡ 3968 * regions }
    requires few { regions ≤ 8192 }
    ensures size { length used.new ≡ length used.old }
    ensures covered { (places : List Places) → IsCovered places used.old → IsCovered (fixed_places regions ++ places) used.new }
{
    for region in 0..regions {
        used.fill(REGION * region, fixed_slots(region), true);
    }
}

/// Covers the AMap pages of all regions, which are clear, and then the places, and gives the least slot that is covered twice.
pub(crate) fn cover_all(used: &mut Bits, places: &[Place], regions: usize) -> Option<usize>
    requires size { length used.old ≡ 3968 * regions }
    requires few { regions ≤ 8192 }
    requires clear { AreAll used.old 0 (3968 * regions) false }
    requires laid { All (IsLaid regions) places.now }
    ensures size { length used.new ≡ length used.old }
    ensures covering { IsCovering (standing places.now regions) used.new result }
{
    let mut twice = cover_amaps(used, regions);
    let mut at = places.len();
    while at > 0 {
        at -= 1;
        let place = &places[at];
        twice = least_of(twice, cover(used, slot_of(place.ib), slots_in(place)));
    }
    twice
}
