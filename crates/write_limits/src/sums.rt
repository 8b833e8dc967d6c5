//! Sums that end at 2^60.
ghost use Rattle.std.specs.Prelude.{◌≡◌, ◌+◌, ◌^◌, ◌≤◌, min};
ghost use Rattle.write_limits.specs.Space.{kept_space};

use pst_base::Subs;

/// Where counts end.
pub const MOST: u64 = 1 << 60;

/// A sum with so much more.
pub fn add(total: u64, more: u64) -> u64
    requires { total ≤ 2 ^ 60 }
    ensures { result ≡ min (total + more) (2 ^ 60) }
{
    (total + more.min(MOST)).min(MOST)
}

/// The room for subnodes that stay as they are, at all levels.
pub fn kept_space(subs: &Subs) -> u64
    ensures { result ≡ min (kept_space subs.now) (2 ^ 60) }
{
    let items = subs.as_slice();
    let mut total = 0;
    for sub in items {
        let blocks = add(3, sub.blocks.len() as u64);
        let below = kept_space(&sub.subs);
        total = add(add(total, blocks), below);
    }
    total
}
