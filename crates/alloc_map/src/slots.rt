//! The used slots of a file's regions.
ghost use Rattle.std.specs.Prelude.{◌≡◌, ◌<◌, ◌≤◌, ◌↔◌, ◌*◌, ◌/◌, ◌%◌, ◌+◌, ℕ, List, true, false, not, length, slice_index, count_by, take, All, IfOk, IfErr, IfSome, IfNone, IsTrue};
ghost use Rattle.alloc_map.specs.Slots.{AreAll, Becomes, BeginsLeast, IsLaid, IsPageRoom, IsRoom, Unites, regions_of, slot_of, slots_in};
ghost use Rattle.alloc_map.specs.Cells.{free_cells_of, page_rooms};
ghost use Rattle.alloc_map.specs.Ends.{free_slots_of};
ghost use Rattle.alloc_map.specs.Maps.{IsMapPage};
ghost use Rattle.alloc_map.specs.Standing.{IsCovered, IsMeeting, StopsAtOverlap, occupied, standing};
ghost use Rattle.alloc_map.specs.Taken.{IsAll};

use crate::bits::Bits;
use crate::bounds::Bounds;
use crate::cells::Cells;
use crate::count::count_clear;
use crate::cover::{cover_all, fill_fixed, slot_of, slots_in, start_of};
use crate::overlap::Overlap;
use crate::search::{REGION, find_block, find_page};
use page_frame::seal;
use pst_base::{Bid, Bref, MemOr, Place};
use std::alloc::{AllocError, Global};
use std::marker::Model;

/// The set of used slots of from 1 to 8192 regions. Contracts see a list with a Bool for each slot.
#[derive(Debug, Drop)]
pub struct Slots {
    used: Cells,
    bounds: Bounds,
    pages: Bounds,
}

impl Model for Slots {
    ghost use Rattle.std.specs.Prelude.{List, Bool};
    ghost use Rattle.alloc_map.specs.Rooms.{IsSound};

    ghost Value = { List Bool };

    ghost view = { λ s. s.used };

    ghost invariant = { λ s. IsSound s.used s.bounds s.pages };
}

impl Slots {
    /// The used slots of a number of regions, from 1 to 8192, in which just the places given and the fixed pages stand. Each place is made of whole slots of these regions, and one without bytes is none.
    ///
    /// `Refused` where two places meet, or one meets an AMap page: it names the least start of the later of such two. A place may stand on a fixed page of another kind, as in files that others wrote.
    pub fn rebuild(alloc: Global, places: &[Place], regions: u32) -> Result<Slots, MemOr<Overlap>>
        requires some { 1 ≤ regions }
        requires few { regions ≤ 8192 }
        requires laid { All (IsLaid regions) places.now }
        ensures size { IfOk result (λ slots. length slots ≡ 3968 * regions) }
        ensures used { IfOk result (IsCovered (occupied places.now regions)) }
        ensures apart { IfOk result (λ _. (slot : ℕ) → IsMeeting (standing places.now regions) slot → ⊥) }
        ensures overlap { IfErr result (StopsAtOverlap (standing places.now regions)) }
    {
        let regions = regions as usize;
        let Ok(mut used) = Bits::new(alloc, REGION / 8 * regions) else {
            return Err(MemOr::Memory);
        };
        if let Some(slot) = cover_all(&mut used, places, regions) {
            return Err(MemOr::Refused(Overlap { ib: start_of(slot) }));
        }
        fill_fixed(&mut used, regions);
        match Slots::over(alloc, used, regions) {
            Ok(slots) => Ok(slots),
            Err(_) => Err(MemOr::Memory),
        }
    }

    /// The used slots of regions of which nothing else is known.
    fn over(alloc: Global, used: Bits, regions: usize) -> Result<Slots, AllocError>
        requires some { 1 ≤ regions }
        requires few { regions ≤ 8192 }
        requires size { length used ≡ 3968 * regions }
        ensures { IfOk result (λ slots. slots ≡ used) }
    {
        Ok(Slots {
            used: Cells::new(used),
            bounds: Bounds::new(alloc, regions)?,
            pages: Bounds::new(alloc, regions)?,
        })
    }

    /// How many regions there are.
    pub fn regions(&self) -> u32
        ensures size { length self.now ≡ 3968 * result }
        ensures some { 1 ≤ result }
        ensures few { result ≤ 8192 }
    {
        self.bounds.len() as u32
    }

    /// Uses the slots of a place, which are free. A place is made of whole slots of the regions.
    pub fn mark(&mut self, place: Place)
        requires laid { IsLaid (regions_of self.old) place }
        requires free { AreAll self.old (slot_of place.ib) (slots_in place) false }
        ensures { Becomes self.old self.new (slot_of place.ib) (slots_in place) true }
    {
        self.used.fill(slot_of(place.ib), slots_in(&place), true);
    }

    /// Frees the slots of a place, which are used. A place is made of whole slots of the regions.
    pub fn give_back(&mut self, place: Place)
        requires laid { IsLaid (regions_of self.old) place }
        requires used { AreAll self.old (slot_of place.ib) (slots_in place) true }
        ensures { Becomes self.old self.new (slot_of place.ib) (slots_in place) false }
    {
        let (slot, n) = (slot_of(place.ib), slots_in(&place));
        self.used.fill(slot, n, false);
        let (from, to) = (slot / REGION, (slot + n + (REGION - 1)) / REGION);
        self.bounds.raise(from, to);
        self.pages.raise(from, to);
    }

    /// Whether a place is made of whole slots of the regions, of which each is used, or each is free.
    pub(crate) fn is_all(&self, place: &Place, used: bool) -> bool
        ensures { IsTrue result ↔ IsAll self.now place.now used }
    {
        let end = start_of(REGION * self.bounds.len());
        if place.ib < 0x4400 || end < place.ib || end - place.ib < place.len {
            return false;
        }
        if place.ib % 64 != 0 || place.len % 64 != 0 {
            return false;
        }
        self.used
            .bits()
            .are_all(slot_of(place.ib), slots_in(place), used)
    }

    /// The same set again.
    pub fn copy(&self, alloc: Global) -> Result<Slots, AllocError>
        ensures { IfOk result (λ slots. slots ≡ self.now) }
    {
        Ok(Slots {
            used: self.used.copy(alloc)?,
            bounds: self.bounds.copy(alloc)?,
            pages: self.pages.copy(alloc)?,
        })
    }

    /// Becomes another set of as many regions.
    pub fn assign(&mut self, other: &Slots)
        requires { length self.old ≡ length other.now }
        ensures { self.new ≡ other.now }
    {
        self.used.assign(&other.used);
        self.bounds.assign(&other.bounds);
        self.pages.assign(&other.pages);
    }

    /// Uses also the slots of another set of as many regions.
    pub fn unite(&mut self, other: &Slots)
        requires { length self.old ≡ length other.now }
        ensures { Unites self.old other.now self.new }
    {
        self.used.unite(&other.used);
    }

    /// How many cells are free. A region has 30 cells of 8192 bytes, the first at its byte 2048. Each free one has room for 16 pages.
    pub fn free_cells(&self) -> u64
        ensures count { result ≡ free_cells_of self.now }
        ensures pages { 16 * result ≤ page_rooms self.now }
    {
        self.used.free()
    }

    /// How many bytes the free slots of the first regions have.
    pub fn free_bytes(&self, regions: u32) -> u64
        requires { regions ≤ regions_of self.now }
        ensures { result ≡ 64 * count_by not (take (3968 * regions) self.now) }
    {
        64 * count_clear(self.used.bits(), REGION * regions as usize) as u64
    }

    /// How many free slots begin below a file's end, in bytes. 64 times as many is what a header counts as free ([MS-PST] 2.2.2.5, `cbAMapFree`).
    pub fn free_slots_below(&self, eof: u64) -> u64
        ensures { result ≡ free_slots_of self.now eof }
    {
        let below = (eof.saturating_sub(0x4400) + 63) / 64;
        let slots = below.min((REGION * self.bounds.len()) as u64);
        self.used.bits().clear_before(slots as usize)
    }

    /// Uses the least free place of a length, a multiple of 64 from 64 to 8192, that lies in one region outside of its first 2048 bytes. `None` where there is none: then no cell is free. It takes at most one free cell.
    pub fn place_block(&mut self, len: usize) -> Option<u64>
        requires whole { len % 64 ≡ 0 }
        requires low { 64 ≤ len }
        requires high { len ≤ 8192 }
        ensures least { IfSome result (BeginsLeast (IsRoom self.old (len / 64))) }
        ensures used { IfSome result (λ ib. Becomes self.old self.new (slot_of ib) (len / 64) true) }
        ensures none { IfNone result ((slot : ℕ) → IsRoom self.old (len / 64) slot → ⊥) }
        ensures same { IfNone result (self.new ≡ self.old) }
        ensures full { IfNone result (free_cells_of self.old ≡ 0) }
        ensures takes { free_cells_of self.old ≤ free_cells_of self.new + 1 }
    {
        let n = len / 64;
        let Some(slot) = find_block(self.used.bits(), &mut self.bounds, n as u8) else {
            return None;
        };
        self.used.fill(slot, n, true);
        Some(start_of(slot))
    }

    /// Uses the least free place of 512 bytes at a multiple of 512 that lies in one region outside of its first 2048 bytes. `None` where there is none: then no cell has a free sixteenth. It takes at most one of those.
    pub fn place_page(&mut self) -> Option<u64>
        ensures least { IfSome result (BeginsLeast (IsPageRoom self.old)) }
        ensures used { IfSome result (λ ib. Becomes self.old self.new (slot_of ib) 8 true) }
        ensures none { IfNone result ((slot : ℕ) → IsPageRoom self.old slot → ⊥) }
        ensures same { IfNone result (self.new ≡ self.old) }
        ensures full { IfNone result (page_rooms self.old ≡ 0) }
        ensures takes { page_rooms self.old ≤ page_rooms self.new + 1 }
    {
        let Some(slot) = find_page(self.used.bits(), &mut self.pages) else {
            return None;
        };
        self.used.fill(slot, 8, true);
        Some(start_of(slot))
    }

    /// The map page of a region, below the number of regions: kind 84h, its own place as its id, and a bit for each slot, from the most significant of the first byte on, set where the slot is used ([MS-PST] 2.2.2.7.2).
    pub fn map_page(&self, r: u32) -> [u8; 512]
        requires { r < regions_of self.now }
        ensures map { IsMapPage self.now r result }
        ensures only { (page : List ℕ) → IsMapPage self.now r page
            → ((i : ℕ) → slice_index page i < 256) → page ≡ result }
    {
        let body = self.used.bits().region(r as usize);
        let ib = start_of(REGION * r as usize);
        let bid = Bid { bits: ib };
        seal(&body, 0x84, Bref { bid, ib })
    }
}
