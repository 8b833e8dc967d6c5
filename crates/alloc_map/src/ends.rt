//! Where files end.
ghost use Rattle.std.specs.Prelude.{◌≤◌, All};
ghost use Rattle.alloc_map.specs.Ends.{region_end, IsEndFor};
ghost use Rattle.alloc_map.specs.Slots.{IsLaid};

use pst_base::Place;

/// Where the first region begins.
const FIRST: u64 = 0x4400;

/// The length of a region, in bytes.
const REGION_LEN: u64 = 253_952;

/// Where a file ends, in bytes, that has to hold some places: the least end of a region that isn't below `eof`, which is at most the end of 8192 regions, or below the end of a place.
pub fn end_for(eof: u64, places: &[Place]) -> u64
    requires small { eof ≤ region_end 8192 }
    requires laid { All (IsLaid 8192) places.now }
    ensures least { IsEndFor eof places.now result }
    ensures few { result ≤ region_end 8192 }
{
    let mut end = eof.max(FIRST);
    for place in places {
        end = end.max(place.ib + place.len);
    }
    FIRST + (end - FIRST + (REGION_LEN - 1)) / REGION_LEN * REGION_LEN
}
