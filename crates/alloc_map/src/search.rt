//! The search for the least free place of a length.
ghost use Rattle.std.specs.Prelude.{◌≡◌, ◌<◌, ◌≤◌, ◌*◌, ◌+◌, ◌^◌, ℕ, length, IfSome, IfNone};
ghost use Rattle.alloc_map.specs.Slots.{IsRoom};
ghost use Rattle.alloc_map.specs.Rooms.{AreBounds, ArePageBounds, IsLeast, IsIn, IsPageIn, IsRoomAtEighth};

use crate::bits::Bits;
use crate::bounds::Bounds;

/// How many slots a region has.
pub(crate) const REGION: usize = 3968;

/// How many slots at the start of a region are never given.
pub(crate) const HEAD: usize = 32;

/// The first of the least n free slots in a row of a region.
fn find_in_region(used: &Bits, region: usize, n: usize) -> Option<usize>
    requires region { 3968 * region + 3968 ≤ length used.now }
    requires small { length used.now < 2 ^ 32 }
    requires some { 1 ≤ n }
    ensures some { IfSome result (IsLeast (IsIn used.now region n)) }
    ensures none { IfNone result ((p : ℕ) → IsIn used.now region n p → ⊥) }
{
    let mut from = REGION * region + HEAD;
    for at in from..REGION * region + REGION {
        if used.get(at) {
            from = at + 1;
        } else if at + 1 - from == n {
            return Some(from);
        }
    }
    None
}

/// The first slot of the least free page of a region.
fn find_page_in_region(used: &Bits, region: usize) -> Option<usize>
    requires region { 3968 * region + 3968 ≤ length used.now }
    requires small { length used.now < 2 ^ 32 }
    ensures some { IfSome result (IsLeast (IsPageIn used.now region)) }
    ensures none { IfNone result ((p : ℕ) → IsPageIn used.now region p → ⊥) }
{
    let start = REGION / 8 * region;
    for byte in start + HEAD / 8..start + REGION / 8 {
        if used.is_clear(byte) {
            return Some(8 * byte);
        }
    }
    None
}

/// The first of the least n free slots in a row of one region. Where a region has none its bound is lowered.
pub(crate) fn find_block(used: &Bits, bounds: &mut Bounds, n: u8) -> Option<usize>
    requires whole { length used.now ≡ 3968 * length bounds.old }
    requires few { length bounds.old ≤ 8192 }
    requires sound { AreBounds used.now bounds.old }
    requires low { 1 ≤ n }
    requires high { n ≤ 128 }
    ensures some { IfSome result (IsLeast (IsRoom used.now n)) }
    ensures none { IfNone result ((p : ℕ) → IsRoom used.now n p → ⊥) }
    ensures same { length bounds.new ≡ length bounds.old }
    ensures sound { AreBounds used.now bounds.new }
{
    while let Some(region) = bounds.first_at_least(n) {
        if let Some(slot) = find_in_region(used, region, usize::from(n)) {
            return Some(slot);
        }
        bounds.lower(region, n - 1);
    }
    None
}

/// The first slot of the least free page. Where a region has none its bound is lowered.
pub(crate) fn find_page(used: &Bits, bounds: &mut Bounds) -> Option<usize>
    requires whole { length used.now ≡ 3968 * length bounds.old }
    requires few { length bounds.old ≤ 8192 }
    requires sound { ArePageBounds used.now bounds.old }
    ensures some { IfSome result (IsLeast (IsRoomAtEighth used.now)) }
    ensures none { IfNone result ((p : ℕ) → IsRoomAtEighth used.now p → ⊥) }
    ensures same { length bounds.new ≡ length bounds.old }
    ensures sound { ArePageBounds used.now bounds.new }
{
    while let Some(region) = bounds.first_at_least(1) {
        if let Some(slot) = find_page_in_region(used, region) {
            return Some(slot);
        }
        bounds.lower(region, 0);
    }
    None
}
