//! Places that a commit frees.
ghost use Rattle.std.specs.Prelude.{◌≡◌, ◌<◌, ◌^◌, IfOk};
ghost use Rattle.alloc_map.specs.Standing.{fixed_slots};
ghost use Rattle.plan_drawing.specs.Freed.{all_behind, behind_fixed};

use pst_base::Place;
use std::alloc::{AllocError, Global};

/// Past the end of any file.
const LIMIT: u64 = 0x4000_0000_0000_0000;

/// How many slots of 64 bytes the fixed pages of a region take: eight for the AMap page, eight for a PMap page in each eighth region, and eight for an FMap page in region 128 and each 496th after it ([MS-PST] 2.2.2.7.2 to 2.2.2.7.5).
fn fixed_slots(region: u64) -> u64
    ensures { result ≡ fixed_slots region }
{
    if region % 496 == 128 {
        24
    } else if region % 8 == 0 {
        16
    } else {
        8
    }
}

/// The part of a place behind the fixed pages of its region.
fn behind_fixed(place: Place) -> Place
    requires low { place.ib < 2 ^ 62 }
    requires small { place.len < 2 ^ 62 }
    ensures { result ≡ behind_fixed place }
{
    let region = place.ib.saturating_sub(0x4400) / 64 / 3968;
    let slots = fixed_slots(region);
    let ib = place.ib.max(0x4400 + 64 * (3968 * region + slots));
    Place {
        ib,
        len: (place.ib + place.len).saturating_sub(ib),
    }
}

/// The parts of places behind the fixed pages of their regions. A place past 2^62, where no file has one, is answered as want of memory.
pub(crate) fn all_behind(alloc: Global, places: &[Place]) -> Result<Vec<Place>, AllocError>
    ensures { IfOk result (λ behind. behind.items ≡ all_behind places.now) }
{
    let mut behind = Vec::new(alloc);
    for place in places {
        if place.ib >= LIMIT || place.len >= LIMIT {
            return Err(AllocError);
        }
        behind.push(behind_fixed(*place))?;
    }
    Ok(behind)
}
