//! What a caller may conclude of places that are taken and given back.
ghost use Rattle.std.specs.Prelude.{◌≡◌, ◌≤◌, ◌+◌, ◌*◌, ◌/◌, ◌++◌, ℕ, Bool, List, true, length, All};
ghost use Rattle.std.specs.List.Sorted.{IsPermutation};
ghost use Rattle.pst_base.specs.declared.places.Place.{Place};
ghost use Rattle.alloc_map.specs.Cells.{free_cells_of, page_rooms};
ghost use Rattle.alloc_map.specs.Covered.{Once};
ghost use Rattle.alloc_map.specs.Slots.{Becomes, BeginsLeast, IsLaid, IsPageRoom, IsRoom, regions_of, slot_of};
ghost use Rattle.alloc_map.specs.Standing.{IsCovered};
ghost use Rattle.alloc_map.specs.Taken.{Taken};
ghost use Rattle.alloc_map.specs.Tally.{tally};

/// What room blocks and pages take: a block at the least place at most one free cell, a page at most one of the places for pages, of which each free cell has sixteen. So n blocks and m pages find room where `n + m / 16 + 1` cells are free.
pub fn room_taken()
    ensures block { (old new : List Bool) (n ib : ℕ) → length old ≡ 3968 * regions_of old → n ≤ 128 → 1 ≤ n → BeginsLeast (IsRoom old n) ib
        → Becomes old new (slot_of ib) n true → free_cells_of old ≤ free_cells_of new + 1 }
    ensures page { (old new : List Bool) (ib : ℕ) → length old ≡ 3968 * regions_of old → BeginsLeast (IsPageRoom old) ib
        → Becomes old new (slot_of ib) 8 true → page_rooms old ≤ page_rooms new + 1 }
    ensures cell { (used : List Bool) → length used ≡ 3968 * regions_of used → 16 * free_cells_of used ≤ page_rooms used }
    ensures suffices { (used mid : List Bool) (n m : ℕ) → length used ≡ 3968 * regions_of used → length mid ≡ length used
        → free_cells_of used ≤ free_cells_of mid + n → n + m / 16 + 1 ≤ free_cells_of used → m ≤ page_rooms mid }
{}

/// What places that were taken are worth: they may be given back in any order; those taken in two turns are taken together; they meet nothing that stood; and where some of the places that stand may leave, giving those back leaves just the others.
pub fn places_taken()
    ensures reordered { (before now : List Bool) (ps qs : List Place) → IsPermutation ps qs → Taken before now ps → Taken before now qs }
    ensures both { (before mid now : List Bool) (ps qs : List Place) → Taken before mid ps → Taken mid now qs → Taken before now (qs ++ ps) }
    ensures beside { (ps qs : List Place) (used now : List Bool) → IsCovered ps used → Once ps → Taken used now qs → Once (qs ++ ps) }
    ensures covers { (ps qs : List Place) (used now : List Bool) → IsCovered ps used → Taken used now qs → IsCovered (qs ++ ps) now }
    ensures leave { (ps qs freed : List Place) (used : List Bool) → IsCovered ps used → Once ps
        → ((slot : ℕ) → tally slot qs + tally slot freed ≡ tally slot ps) → All (IsLaid (regions_of used)) freed → length used ≡ 3968 * regions_of used
        → (after : List Bool) × Taken after used freed × IsCovered qs after }
{}
