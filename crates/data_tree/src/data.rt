//! The data of a tree.
ghost use Rattle.data_tree.specs.Source.{Later};
ghost use Rattle.data_tree.specs.Stops.{Reads};
ghost use Rattle.data_tree.specs.Tree.{blocks_from, blocks_of};

use crate::source::{BlockSource, TreeStop, fetch};
use crate::tree::read_bids;
use pst_base::{Bid, Blocks, MemOr};
use std::alloc::Global;

/// The data of some blocks.
fn blocks_from<S: BlockSource>(
    alloc: Global,
    bids: &[Bid],
    s: &mut S,
) -> Result<Blocks, MemOr<TreeStop>>
    ensures later { Later (S.view s.old) (S.view s.new) }
    ensures reads { Reads (λ blocks. blocks) (S.view s.old) (S.view s.new) (λ find. blocks_from find (S.view s.old).eof 0 bids.now) result }
{
    let mut blocks = Blocks::new(alloc);
    let mut left = s.limit();
    for bid in bids {
        let block = fetch(alloc, *bid, s)?;
        let len = block.len() as u64;
        if len > left {
            return Err(MemOr::Refused(TreeStop::Long));
        }
        left -= len;
        blocks.push(block)?;
    }
    Ok(blocks)
}

/// The data of a tree, block by block.
///
/// `Missing` where there is no block with an id that is named; `Form` of a block that names others and isn't of its layout, or that names what may not stand below it; `Long` where the data passes the file's length; `Source` by the source. Blocks that name others are all read before the data.
#[tactic(auto, unfolding(crate::specs::Tree::blocks_of))]
pub fn read_data<S: BlockSource>(
    alloc: Global,
    bid: Bid,
    s: &mut S,
) -> Result<Blocks, MemOr<TreeStop>>
    ensures later { Later (S.view s.old) (S.view s.new) }
    ensures reads { Reads (λ blocks. blocks) (S.view s.old) (S.view s.new) (λ find. blocks_of find (S.view s.old).eof bid) result }
{
    let bids = read_bids(alloc, bid, s)?;
    blocks_from(alloc, bids.as_slice(), s)
}
