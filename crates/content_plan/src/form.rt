//! Whether contents have the form of nodes.
ghost use Rattle.std.specs.Prelude.{◌≤◌, ◌<◌, IsTrue};
ghost use Rattle.std.specs.List.{All};
ghost use Rattle.data_tree.specs.Plan.{IsContent};
ghost use Rattle.subnode_tree.specs.Plan.{IsForm};

use pst_base::{Bytes, Subs};

/// The most data blocks of a tree: 1021 times 1021.
const MOST_BLOCKS: usize = 1_042_441;

/// The most bytes of a block.
const MOST_BYTES: usize = 8176;

/// The most subnodes of a node or a subnode: 340 times 510.
const MOST_SUBS: usize = 173_400;

/// Whether blocks are data that a tree can hold.
pub(crate) fn is_content(blocks: &[Bytes]) -> bool
    ensures { IsTrue result → IsContent blocks.now }
{
    if blocks.len() > MOST_BLOCKS {
        return false;
    }
    let mut total = 0u64;
    for block in blocks {
        if block.len() > MOST_BYTES {
            return false;
        }
        total += block.len() as u64;
    }
    total < 0x1_0000_0000
}

/// Whether subnodes can be written at no more than so many levels.
pub(crate) fn is_form(s: &Subs, levels: u8) -> bool
    requires { levels ≤ 8 }
    ensures form { IsTrue result → IsForm s.now }
    ensures shallow { IsTrue result → All (λ f. f.level < levels) s.now }
{
    let subs = s.as_slice();
    if subs.len() > MOST_SUBS {
        return false;
    }
    let mut low = 0u64;
    for sub in subs {
        let nid = u64::from(sub.nid.bits);
        if levels == 0 || nid < low || !is_content(sub.blocks.as_slice()) {
            return false;
        }
        if !is_form(&sub.subs, levels - 1) {
            return false;
        }
        low = nid + 1;
    }
    true
}
