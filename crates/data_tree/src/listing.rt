//! Blocks that name others ([MS-PST] 2.2.2.8.3.2.1 and 2.2.2.8.3.2.2).
ghost use Rattle.std.specs.Prelude.{◌≡◌, true, IfOk};
ghost use Rattle.data_tree.specs.Stops.{ReadsAlone};
ghost use Rattle.data_tree.specs.Tree.{is_listing, names_of, is_internal, are_data, leaves};

use crate::source::TreeStop;
use pst_base::{Bid, MemOr, u8_at, u16_at, u64_at};
use std::alloc::{AllocError, Global};

/// The most ids that a block may name.
const MOST: u16 = 1021;

/// Whether a block has the layout of one of this level that names others.
#[tactic(auto, unfolding(crate::specs::Tree::is_listing))]
pub(crate) fn is_listing(b: &[u8], level: u8) -> bool
    ensures { result ≡ is_listing level b.now }
{
    b.len() >= 8
        && u8_at(b, 0) == 1
        && u8_at(b, 1) == level
        && u16_at(b, 2) <= MOST
        && b.len() == 8 + 8 * usize::from(u16_at(b, 2))
}

/// Whether bit 1 marks a block that names others.
pub(crate) fn is_internal(bid: Bid) -> bool
    ensures { result ≡ is_internal bid }
{
    bid.internal()
}

/// The ids that a block names.
pub(crate) fn names(alloc: Global, b: &[u8], level: u8) -> Result<Vec<Bid>, AllocError>
    requires { is_listing level b.now ≡ true }
    ensures { IfOk result (λ bids. bids.items ≡ names_of b.now) }
{
    let count = usize::from(u16_at(b, 2));
    let mut bids = Vec::with_capacity(alloc, count)?;
    for i in 0..count {
        bids.push(Bid {
            bits: u64_at(b, 8 + 8 * i),
        })?;
    }
    Ok(bids)
}

/// Whether all are ids of data blocks.
fn are_data(bids: &[Bid]) -> bool
    ensures { result ≡ are_data bids.now }
{
    for bid in bids {
        if is_internal(*bid) {
            return false;
        }
    }
    true
}

/// The data blocks that a block of level 1 names, which must all be that.
#[tactic(auto, unfolding(crate::specs::Tree::leaves))]
pub(crate) fn leaves(alloc: Global, bid: Bid, b: &[u8]) -> Result<Vec<Bid>, MemOr<TreeStop>>
    requires { is_listing 1 b.now ≡ true }
    ensures { ReadsAlone (λ bids. bids.items) result (leaves bid b.now) }
{
    let bids = names(alloc, b, 1)?;
    if are_data(bids.as_slice()) {
        Ok(bids)
    } else {
        Err(MemOr::Refused(TreeStop::Form { bid }))
    }
}
