//! The next place, and the end.
ghost use Rattle.std.specs.Prelude.{◌≡◌, ◌⊎◌, ◌≤◌, ◌<◌, ◌+◌, ◌*◌, ◌%◌, ◌^◌, ℕ};
ghost use Rattle.alloc_map.specs.Ends.{region_end};
ghost use Rattle.alloc_map.specs.Standing.{fixed_slots};
ghost use Rattle.copy_layout.specs.Order.{IsEnd, IsFree, IsNext};

/// Where the first region begins.
const FIRST: u64 = 0x4400;

/// The length of a region, in bytes.
const REGION: u64 = 253_952;

/// The length of a slot, of which blocks begin at multiples.
const SLOT: u64 = 64;

/// The length of a page, which begins at a multiple of it.
const PAGE: u64 = 512;

/// How many bytes the fixed pages of a region take.
fn fixed_len(region: u64) -> u64
    ensures value { result ≡ 64 * fixed_slots region }
    ensures low { 512 ≤ result }
    ensures high { result ≤ 1536 }
    ensures pages { result % 512 ≡ 0 }
{
    if region % 496 == 128 {
        3 * PAGE
    } else if region % 8 == 0 {
        2 * PAGE
    } else {
        PAGE
    }
}

/// The first place from one on at which so many bytes meet no fixed page: that one, or where the fixed pages end that they would meet.
fn beside_fixed(from: u64, len: u64) -> u64
    requires low { 17408 ≤ from }
    requires high { from ≤ 2 ^ 60 }
    requires some { 1 ≤ len }
    requires short { len ≤ 8192 }
    ensures free { IsFree len result }
    ensures behind { from ≤ result }
    ensures least { (p : ℕ) → from ≤ p → IsFree len p → result ≤ p }
    ensures grid { (result ≡ from) ⊎ (result % 512 ≡ 0) }
    ensures near { result ≤ from + 9728 }
{
    let region = (from - FIRST) / REGION;
    let start = FIRST + REGION * region;
    let behind = start + fixed_len(region);
    if from < behind {
        return behind;
    }
    if from + len > start + REGION {
        return start + REGION + fixed_len(region + 1);
    }
    from
}

/// Where the next block of so many bytes stands behind what ends at a place.
pub fn next_block(from: u64, len: u64) -> u64
    requires low { 17408 ≤ from }
    requires high { from ≤ 2 ^ 59 }
    requires some { 1 ≤ len }
    requires short { len ≤ 8192 }
    ensures next { IsNext 64 from len result }
    ensures near { result ≤ from + 9792 }
{
    beside_fixed((from + (SLOT - 1)) / SLOT * SLOT, len)
}

/// Where the next page stands behind what ends at a place.
pub fn next_page(from: u64) -> u64
    requires low { 17408 ≤ from }
    requires high { from ≤ 2 ^ 59 }
    ensures next { IsNext 512 from 512 result }
    ensures near { result ≤ from + 10240 }
{
    beside_fixed((from + (PAGE - 1)) / PAGE * PAGE, PAGE)
}

/// Where a file ends that needs so many bytes.
pub fn end_of_regions(need: u64) -> u64
    requires { need ≤ 2 ^ 60 }
    ensures { IsEnd need result }
{
    let past = need.max(FIRST + REGION);
    FIRST + (past - FIRST + (REGION - 1)) / REGION * REGION
}
