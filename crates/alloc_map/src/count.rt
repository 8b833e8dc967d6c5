//! Free slots, counted.
ghost use Rattle.std.specs.Prelude.{◌≡◌, ◌≤◌, ◌^◌, ◌<◌, length, not, count_by, take};

use crate::bits::Bits;

/// How many of the first n bits are clear.
pub(crate) fn count_clear(bits: &Bits, n: usize) -> usize
    requires within { n ≤ length bits.now }
    requires small { length bits.now < 2 ^ 32 }
    ensures { result ≡ count_by not (take n bits.now) }
{
    let mut free = 0;
    for at in 0..n {
        if !bits.get(at) {
            free += 1;
        }
    }
    free
}
