//! What a node needs.
ghost use Rattle.std.specs.Prelude.{◌≡◌, ◌≤◌, ℕ, List, Option, Ok, IfOk, IfErr, IfSome, IfNone, length};
ghost use Rattle.pst_base.specs.declared.ids.Bid.{Bid as Bids};
ghost use Rattle.pst_base.specs.Flat.{Flat};
ghost use Rattle.data_tree.specs.Measure.{bytes_in, measured};
ghost use Rattle.data_tree.specs.Source.{Later};
ghost use Rattle.data_tree.specs.Tree.{blocks_of};
ghost use Rattle.subnode_tree.specs.Subnodes.{subs_of};
ghost use Rattle.file_layout.specs.Nodes.{Node, node_at};
ghost use Rattle.node_needs.specs.Named.{AllNamed, EachNamed};
ghost use Rattle.node_needs.specs.Needs.{StopsNeed, StopsSubs, longest, need_of, need_of_subs};

use btree_pages::NodeEntry;
use data_tree::{BlockSizes, TreeStop, measure_data};
use pst_base::{Bid, MemOr};
use std::alloc::Global;
use subnode_tree::{Kept, read_sub_bids};

/// How many bytes the blocks of these ids have; `None` where one isn't there, or they pass the file's length.
fn data_len<S: BlockSizes>(ids: &[Option<Bid>], s: &S) -> Option<u64>
    ensures some { IfSome result (λ len. (find : ℕ → Option (List ℕ)) (bs : List (List ℕ)) → (S.view s.now).holds find → AllNamed find ids.now bs → bytes_in bs ≤ (S.view s.now).eof → len ≡ bytes_in bs) }
    ensures none { IfNone result ((find : ℕ → Option (List ℕ)) (bs : List (List ℕ)) → (S.view s.now).holds find → AllNamed find ids.now bs → bytes_in bs ≤ (S.view s.now).eof → ⊥) }
{
    let limit = s.limit();
    let mut left = limit;
    for id in ids {
        let Some(bid) = *id else {
            return None;
        };
        let Some(len) = s.size(bid) else {
            return None;
        };
        if len > left {
            return None;
        }
        left -= len;
    }
    Some(limit - left)
}

/// How many bytes the longest data of some subnodes has; `None` as above.
fn longest_of<S: BlockSizes>(all: &[Kept], s: &S) -> Option<u64>
    ensures some { IfSome result (λ len. (find : ℕ → Option (List ℕ)) (fs : List Flat) → (S.view s.now).holds find → EachNamed find (S.view s.now).eof all.now fs → len ≡ longest fs) }
    ensures none { IfNone result ((find : ℕ → Option (List ℕ)) (fs : List Flat) → (S.view s.now).holds find → EachNamed find (S.view s.now).eof all.now fs → ⊥) }
{
    let mut most = 0;
    for ids in all {
        let Some(len) = data_len(ids.as_slice(), s) else {
            return None;
        };
        most = len.max(most);
    }
    Some(most)
}

/// What the subnodes of a node need.
fn subs_need<S: BlockSizes>(alloc: Global, bid: Bid, s: &mut S) -> Result<u64, MemOr<TreeStop>>
    ensures later { Later (S.view s.old) (S.view s.new) }
    ensures need { IfOk result (λ need. (find : ℕ → Option (List ℕ)) (fs : List Flat) → (S.view s.old).holds find → subs_of find (S.view s.old).eof bid ≡ Ok fs → need ≡ need_of_subs fs) }
    ensures stops { IfErr result (λ stop. StopsSubs stop (S.view s.old) (S.view s.new) bid) }
{
    let all = read_sub_bids(alloc, bid, s)?;
    let many = all.len() as u64;
    if many > s.limit() / 24 {
        return Err(MemOr::Refused(TreeStop::Many));
    }
    let Some(longest) = longest_of(all.as_slice(), s) else {
        return Err(MemOr::Refused(TreeStop::Long));
    };
    Ok(longest.max(24 * many))
}

/// How long a file must be so that the node of an entry is read in it, by the node's blocks. It reads the blocks that name or list others.
///
/// Where the source tells a node, it stops only by the source or for want of memory.
pub fn node_need<S: BlockSizes>(
    alloc: Global,
    entry: NodeEntry,
    s: &mut S,
) -> Result<u64, MemOr<TreeStop>>
    ensures later { Later (S.view s.old) (S.view s.new) }
    ensures need { IfOk result (λ need. (find : ℕ → Option (List ℕ)) (n : Node) → (S.view s.old).holds find → node_at find (S.view s.old).eof entry ≡ Ok n → need ≡ need_of n) }
    ensures stops { IfErr result (λ stop. StopsNeed stop (S.view s.old) (S.view s.new) entry) }
{
    let own = measure_data(alloc, entry.content, s)?;
    let subs = subs_need(alloc, entry.subnodes, s)?;
    Ok(own.max(subs))
}
