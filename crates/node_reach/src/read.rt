//! The blocks of a node, read.
ghost use Rattle.data_tree.specs.Source.{Later};
ghost use Rattle.data_tree.specs.Stops.{Reads};
ghost use Rattle.node_reach.specs.Reach.{node_keys_read};

use btree_pages::NodeEntry;
use data_tree::{BlockSource, TreeStop, read_data_keys};
use pst_base::MemOr;
use std::alloc::Global;
use subnode_tree::read_sub_keys;

/// The keys of all blocks that a node reaches: each place that names one gives its key once. It reads only blocks that name or list others.
///
/// It stops where `read_bids` of the node's data or `read_sub_bids` of its subnodes does.
pub fn read_node_keys<S: BlockSource>(
    alloc: Global,
    entry: NodeEntry,
    s: &mut S,
) -> Result<Vec<u64>, MemOr<TreeStop>>
    ensures later { Later (S.view s.old) (S.view s.new) }
    ensures reads { Reads (λ keys. keys.items) (S.view s.old) (S.view s.new) (λ find. node_keys_read find (S.view s.old).eof entry) result }
{
    let mut keys = read_data_keys(alloc, entry.content, s)?;
    let mut more = read_sub_keys(alloc, entry.subnodes, s)?;
    keys.append(&mut more)?;
    Ok(keys)
}
