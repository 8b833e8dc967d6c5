//! How long the data of a tree is.
ghost use Rattle.data_tree.specs.Source.{Later};
ghost use Rattle.data_tree.specs.Stops.{Reads};
ghost use Rattle.data_tree.specs.Tree.{blocks_from, blocks_of};
ghost use Rattle.data_tree.specs.Measure.{measured};

use crate::source::{BlockSizes, TreeStop};
use crate::tree::read_bids;
use pst_base::{Bid, MemOr};
use std::alloc::Global;

/// How many bytes some blocks have.
fn measure_blocks<S: BlockSizes>(bids: &[Bid], s: &S) -> Result<u64, MemOr<TreeStop>>
    ensures { Reads (λ len. len) (S.view s.now) (S.view s.now) (λ find. measured (blocks_from find (S.view s.now).eof 0 bids.now)) result }
{
    let limit = s.limit();
    let mut left = limit;
    for bid in bids {
        let Some(len) = s.size(*bid) else {
            return Err(MemOr::Refused(TreeStop::Missing { bid: *bid }));
        };
        if len > left {
            return Err(MemOr::Refused(TreeStop::Long));
        }
        left -= len;
    }
    Ok(limit - left)
}

/// How many bytes the data of a tree has. It reads the blocks that name others, and not the data blocks.
///
/// `Missing` where there is no block with an id that is named; `Form` of a block that names others and isn't of its layout, or that names what may not stand below it; `Long` where the data passes the file's length; `Source` by the source. Each comes where `read_data` gives it, unless a data block can't be read.
#[tactic(auto, unfolding(crate::specs::Tree::blocks_of))]
pub fn measure_data<S: BlockSizes>(
    alloc: Global,
    bid: Bid,
    s: &mut S,
) -> Result<u64, MemOr<TreeStop>>
    ensures later { Later (S.view s.old) (S.view s.new) }
    ensures reads { Reads (λ len. len) (S.view s.old) (S.view s.new) (λ find. measured (blocks_of find (S.view s.old).eof bid)) result }
{
    let bids = read_bids(alloc, bid, s)?;
    measure_blocks(bids.as_slice(), s)
}
