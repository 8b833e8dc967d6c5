//! What a commit frees, freed in the union of a file's slots with those that pins hold. Just the places that are freed are looked at, since a walk over all slots of a pin takes milliseconds.
ghost use Rattle.std.specs.Prelude.{◌≡◌, ◌<◌, ◌≤◌, ◌+◌, ◌-◌, ◌%◌, ◌^◌, ◌∷◌, ◌||◌, ℕ, List, Bool, true, false, length, slice_index_or};
ghost use Rattle.pst_base.specs.declared.places.Place.{Place as Places};
ghost use Rattle.alloc_map.specs.Packed.{packed_bit};
ghost use Rattle.alloc_map.specs.Slots.{AreAll, Becomes, is_used};
ghost use Rattle.pst_commit.specs.Held.{IsWithHeld, is_held, opened_of};
ghost use Rattle.file_planner.specs.Freeing.{BecomesEach, IsLeft};

use alloc_map::Slots;
use pst_base::Place;
use pst_commit::Pin;

/// How many slots a region has.
const REGION: usize = 3968;

/// How many slots are looked at together, which is as many as the longest block has.
const PART: usize = 128;

/// Whether the bit of a slot of a region is set in its map page.
fn is_set(page: &[u8; 512], at: usize) -> bool
    requires { at < 3968 }
    ensures { result ≡ packed_bit page.now at }
{
    page[at / 8] >> (7 - at % 8) & 1 == 1
}

/// Marks those of n slots from one on that a set uses; they lie in one region. The region's map page tells them: a set shows single slots in no other way.
fn mark_used(marks: &mut [bool; 128], slots: &Slots, from: usize, n: usize)
    requires short { n ≤ 128 }
    requires inside { from % 3968 + n ≤ 3968 }
    ensures { (k : ℕ) → k < n → slice_index_or marks.new k false ≡ (slice_index_or marks.old k false || is_used slots.now (from + k)) }
{
    let region = from / REGION;
    if region >= slots.regions() as usize {
        return;
    }
    let page = slots.map_page(region as u32);
    for k in 0..n {
        if is_set(&page, from % REGION + k) {
            marks[k] = true;
        }
    }
}

/// Marks of those of n slots from one on that pins hold; the slots lie in one region.
fn held_among(pins: &[(Pin, Slots)], from: usize, n: usize) -> [bool; 128]
    requires short { n ≤ 128 }
    requires inside { from % 3968 + n ≤ 3968 }
    ensures { (k : ℕ) → k < n → slice_index_or result k false ≡ is_held (opened_of pins.now) (from + k) }
{
    let mut marks = [false; PART];
    for pin in pins {
        mark_used(&mut marks, &pin.1, from, n);
    }
    marks
}

/// Whether none of the first n is marked.
fn is_unmarked(marks: &[bool; 128], n: usize) -> bool
    requires { n ≤ 128 }
    ensures { result ≡ true → (k : ℕ) → k < n → slice_index_or marks.now k false ≡ false }
{
    for k in 0..n {
        if marks[k] {
            return false;
        }
    }
    true
}

/// Frees n slots from one on, which are used.
fn free_run(all: &mut Slots, from: usize, n: usize)
    requires some { 1 ≤ n }
    requires low { from + n ≤ 2 ^ 40 }
    ensures size { length all.new ≡ length all.old }
    ensures freed { AreAll all.old from n true → Becomes all.old all.new from n false }
{
    let _regions = all.regions();
    let run = [Place {
        ib: 0x4400 + 64 * from as u64,
        len: 64 * n as u64,
    }];
    all.release(&run);
}

/// Frees n slots from one on, which are used, but for those that are marked: all at once where none is.
fn free_unmarked(all: &mut Slots, marks: &[bool; 128], from: usize, n: usize)
    requires some { 1 ≤ n }
    requires short { n ≤ 128 }
    requires low { from + n ≤ 2 ^ 40 }
    ensures size { length all.new ≡ length all.old }
    ensures freed { AreAll all.old from n true → BecomesEach all.old all.new from n (λ s. slice_index_or marks.now (s - from) false) }
{
    if is_unmarked(marks, n) {
        free_run(all, from, n);
        return;
    }
    for k in 0..n {
        if !marks[k] {
            free_run(all, from + k, 1);
        }
    }
}

/// Frees n slots from one on, which are used, but for those that pins hold; the slots lie in one region.
fn free_part(all: &mut Slots, pins: &[(Pin, Slots)], from: usize, n: usize)
    requires some { 1 ≤ n }
    requires short { n ≤ 128 }
    requires inside { from % 3968 + n ≤ 3968 }
    requires low { from + n ≤ 2 ^ 40 }
    ensures size { length all.new ≡ length all.old }
    ensures freed { AreAll all.old from n true → BecomesEach all.old all.new from n (is_held (opened_of pins.now)) }
{
    let marks = held_among(pins, from, n);
    free_unmarked(all, &marks, from, n);
}

/// The same of slots of any regions.
fn free_slots(all: &mut Slots, pins: &[(Pin, Slots)], from: usize, n: usize)
    requires low { from + n < 2 ^ 60 }
    ensures size { length all.new ≡ length all.old }
    ensures freed { AreAll all.old from n true → BecomesEach all.old all.new from n (is_held (opened_of pins.now)) }
{
    let end = (from + n).min(REGION * all.regions() as usize);
    let mut slot = from;
    'parts: while slot < end {
        let part = (end - slot).min(REGION - slot % REGION).min(PART);
        free_part(all, pins, slot, part);
        slot += part;
    }
}

/// Frees a place, but for what pins hold of it.
fn free_unheld(all: &mut Slots, pins: &[(Pin, Slots)], place: &Place)
    ensures { (after : List Bool) (ps : List Places) → IsLeft after all.old (opened_of pins.now) (place.now ∷ ps) → IsLeft after all.new (opened_of pins.now) ps }
{
    let from = place.ib.saturating_sub(0x4400) / 64;
    free_slots(all, pins, from as usize, (place.len / 64) as usize);
}

/// Frees places, but for what pins hold of them. Takes no memory.
pub(crate) fn free_each(all: &mut Slots, pins: &[(Pin, Slots)], places: &[Place])
    ensures { (after : List Bool) → IsLeft after all.old (opened_of pins.now) places.now → IsWithHeld after (opened_of pins.now) all.new }
{
    for place in places {
        free_unheld(all, pins, place);
    }
}
