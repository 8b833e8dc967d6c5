//! Places taken for lists of blocks and pages, and given back.
ghost use Rattle.std.specs.Prelude.{◌≡◌, ◌≤◌, ◌+◌, ◌∷◌, List, Bool, All, length, map, IfOk, IfErr};
ghost use Rattle.pst_base.specs.declared.places.Place.{Place as Places};
ghost use Rattle.alloc_map.specs.Cells.{free_cells_of, page_rooms};
ghost use Rattle.alloc_map.specs.Slots.{slots_in};
ghost use Rattle.alloc_map.specs.Taken.{IsBlockPlace, IsPagePlace, Taken, Takes};

use crate::slots::Slots;
use pst_base::Place;
use std::alloc::{AllocError, Global};

impl Slots {
    /// Takes the least free places for blocks that take so many slots each, from 1 to 128, one after the other. There are no more than free cells. A failure leaves the slots as they were.
    pub fn place_blocks(&mut self, alloc: Global, sizes: &[u8]) -> Result<Vec<Place>, AllocError>
        requires low { All (λ n. 1 ≤ n) sizes.now }
        requires high { All (λ n. n ≤ 128) sizes.now }
        requires room { length sizes.now ≤ free_cells_of self.old }
        ensures placed { IfOk result (λ places. Takes IsBlockPlace self.old places.items self.new) }
        ensures count { IfOk result (λ places. length places.items ≡ length sizes.now) }
        ensures sized { IfOk result (λ places. map slots_in places.items ≡ sizes.now) }
        ensures taken { IfOk result (λ places. Taken self.old self.new places.items) }
        ensures room { IfOk result (λ _. free_cells_of self.old ≤ free_cells_of self.new + length sizes.now) }
        ensures back { IfErr result (λ _. self.new ≡ self.old) }
    {
        let mut places = Vec::new(alloc);
        for size in sizes {
            let Some(ib) = self.place_block(64 * *size as usize) else {
                unreachable!()
            };
            let place = Place {
                ib,
                len: 64 * *size as u64,
            };
            if let Err(e) = places.push(place) {
                self.give_back(place);
                self.give_back_all(places.as_slice());
                return Err(e.into());
            }
        }
        Ok(places)
    }

    /// Takes the least free places for so many pages, one after the other. There are no more than free sixteenths of cells. A failure leaves the slots as they were.
    pub fn place_pages(&mut self, alloc: Global, n: usize) -> Result<Vec<Place>, AllocError>
        requires room { n ≤ page_rooms self.old }
        ensures placed { IfOk result (λ places. Takes IsPagePlace self.old places.items self.new) }
        ensures count { IfOk result (λ places. length places.items ≡ n) }
        ensures sized { IfOk result (λ places. All (λ (p : Places). p.len ≡ 512) places.items) }
        ensures taken { IfOk result (λ places. Taken self.old self.new places.items) }
        ensures room { IfOk result (λ _. page_rooms self.old ≤ page_rooms self.new + n) }
        ensures back { IfErr result (λ _. self.new ≡ self.old) }
    {
        let mut places = Vec::new(alloc);
        for _ in 0..n {
            let Some(ib) = self.place_page() else {
                unreachable!()
            };
            let place = Place { ib, len: 512 };
            if let Err(e) = places.push(place) {
                self.give_back(place);
                self.give_back_all(places.as_slice());
                return Err(e.into());
            }
        }
        Ok(places)
    }

    /// Gives back places that were taken: the slots are as before. Takes no memory.
    pub fn give_back_all(&mut self, places: &[Place])
        requires taken { (before : List Bool) × Taken before self.old places.now }
        ensures back { (before : List Bool) → Taken before self.old places.now → self.new ≡ before }
    {
        for place in places {
            self.give_back(*place);
        }
    }

    /// Uses again the places that a plan took in these slots and gave back. Takes no memory. A place that lies outside, or of which a slot is used, is passed over.
    pub fn retake(&mut self, places: &[Place])
        ensures taken { (after : List Bool) → Taken self.old after places.now → self.new ≡ after }
        ensures size { length self.new ≡ length self.old }
    {
        for place in places {
            self.use_free(place);
        }
    }

    /// Frees places. Takes no memory. A place that lies outside, or of which a slot is free, is passed over.
    pub fn release(&mut self, places: &[Place])
        ensures freed { (after : List Bool) → Taken after self.old places.now → self.new ≡ after }
        ensures size { length self.new ≡ length self.old }
    {
        for place in places {
            self.free_used(place);
        }
    }

    /// Uses a place whose slots are free.
    fn use_free(&mut self, place: &Place)
        ensures rest { (after : List Bool) (ps : List Places) → Taken self.old after (place.now ∷ ps) → Taken self.new after ps }
        ensures size { length self.new ≡ length self.old }
    {
        if self.is_all(place, false) {
            self.mark(*place);
        }
    }

    /// Frees a place whose slots are used.
    fn free_used(&mut self, place: &Place)
        ensures rest { (after : List Bool) (ps : List Places) → Taken after self.old (place.now ∷ ps) → Taken after self.new ps }
        ensures size { length self.new ≡ length self.old }
    {
        if self.is_all(place, true) {
            self.give_back(*place);
        }
    }
}
