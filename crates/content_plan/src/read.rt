//! Reading what a node that is there has.
ghost use Rattle.std.specs.Prelude.{◌≡◌, ℕ, List, Option, Ok, Some, map, IfOk, IfErr};
ghost use Rattle.data_tree.specs.Source.{Later};
ghost use Rattle.data_tree.specs.Stops.{Reads};
ghost use Rattle.node_store.specs.Told.{AsksBlocks, StopsReading, TellsBlocks};
ghost use Rattle.content_plan.specs.Told.{content_of, content_read, keys_read};

use crate::content::Old;
use btree_pages::NodeEntry;
use data_tree::{BlockSource, TreeStop, read_bids, read_data, read_data_keys};
use file_pages::FileTree;
use node_store::TreeBlocks;
use page_cache::PageCache;
use pst_base::{Bid, MemOr};
use pst_outside::Outside;
use std::alloc::{AllocError, Global};
use subnode_tree::{Kept, read_sub_bids, read_sub_keys, read_subs};

/// Each of some ids at its position.
fn all_kept(alloc: Global, bids: &[Bid]) -> Result<Kept, AllocError>
    ensures { IfOk result (λ kept. kept ≡ map Some bids.now) }
{
    let mut kept = Vec::with_capacity(alloc, bids.len())?;
    for bid in bids {
        kept.push(Some(*bid))?;
    }
    Ok(Kept::from_vec(kept))
}

/// The keys of all blocks that the node of an entry reaches.
#[tactic(auto, unfolding(crate::specs::Told::keys_read))]
fn keys_from<S: BlockSource>(
    alloc: Global,
    entry: NodeEntry,
    s: &mut S,
) -> Result<Vec<u64>, MemOr<TreeStop>>
    ensures later { Later (S.view s.old) (S.view s.new) }
    ensures reads { Reads (λ keys. keys.items) (S.view s.old) (S.view s.new) (λ find. keys_read find (S.view s.old).eof entry) result }
{
    let mut keys = read_data_keys(alloc, entry.content, s)?;
    let mut more = read_sub_keys(alloc, entry.subnodes, s)?;
    keys.append(&mut more)?;
    Ok(keys)
}

/// The data of the node of an entry and of its subnodes, with the ids of the blocks.
#[tactic(auto, unfolding(crate::specs::Told::content_read))]
fn content_from<S: BlockSource>(
    alloc: Global,
    entry: NodeEntry,
    s: &mut S,
) -> Result<Old, MemOr<TreeStop>>
    ensures later { Later (S.view s.old) (S.view s.new) }
    ensures reads { Reads content_of (S.view s.old) (S.view s.new) (λ find. content_read find (S.view s.old).eof entry) result }
{
    let bids = read_bids(alloc, entry.content, s)?;
    let blocks = read_data(alloc, entry.content, s)?;
    let sub_ids = read_sub_bids(alloc, entry.subnodes, s)?;
    let subs = read_subs(alloc, entry.subnodes, s)?;
    Ok(Old {
        ids: all_kept(alloc, bids.as_slice())?,
        blocks,
        sub_ids,
        subs,
    })
}

/// The same keys, of a file's blocks.
fn keys_in<W: Outside>(
    alloc: Global,
    entry: NodeEntry,
    s: &mut TreeBlocks<'_, W>,
) -> Result<Vec<u64>, MemOr<TreeStop>>
    ensures names { (s.new.world.ghost_name ≡ s.old.world.ghost_name) × (s.new.cache.ghost_name ≡ s.old.cache.ghost_name) }
    ensures asks { AsksBlocks (W.view s.old.world.now) (W.view s.new.world.now) s.old.tree s.new.tree s.old.cache.now s.new.cache.now }
    ensures reads { IfOk result (λ keys. (find : ℕ → Option (List ℕ)) → TellsBlocks (W.view s.old.world.now) s.old.tree s.old.cache.now find → keys_read find s.old.tree.eof entry ≡ Ok keys.items) }
    ensures stops { IfErr result (λ stop. StopsReading stop (W.view s.old.world.now) (W.view s.new.world.now) s.old.tree s.old.cache.now (λ find. keys_read find s.old.tree.eof entry)) }
{
    keys_from(alloc, entry, s)
}

/// The same data and ids.
fn content_in<W: Outside>(
    alloc: Global,
    entry: NodeEntry,
    s: &mut TreeBlocks<'_, W>,
) -> Result<Old, MemOr<TreeStop>>
    ensures names { (s.new.world.ghost_name ≡ s.old.world.ghost_name) × (s.new.cache.ghost_name ≡ s.old.cache.ghost_name) }
    ensures asks { AsksBlocks (W.view s.old.world.now) (W.view s.new.world.now) s.old.tree s.new.tree s.old.cache.now s.new.cache.now }
    ensures reads { IfOk result (λ old. (find : ℕ → Option (List ℕ)) → TellsBlocks (W.view s.old.world.now) s.old.tree s.old.cache.now find → content_read find s.old.tree.eof entry ≡ Ok (content_of old)) }
    ensures stops { IfErr result (λ stop. StopsReading stop (W.view s.old.world.now) (W.view s.new.world.now) s.old.tree s.old.cache.now (λ find. content_read find s.old.tree.eof entry)) }
{
    content_from(alloc, entry, s)
}

/// The keys of all blocks that the node of an entry reaches, by the block tree of a file.
pub(crate) fn read_keys<W: Outside>(
    alloc: Global,
    w: &mut W,
    cache: &mut PageCache,
    tree: FileTree,
    entry: NodeEntry,
) -> Result<Vec<u64>, MemOr<TreeStop>>
    ensures asks { AsksBlocks (W.view w.old) (W.view w.new) tree tree cache.old cache.new }
    ensures reads { IfOk result (λ keys. (find : ℕ → Option (List ℕ)) → TellsBlocks (W.view w.old) tree cache.old find → keys_read find tree.eof entry ≡ Ok keys.items) }
    ensures stops { IfErr result (λ stop. StopsReading stop (W.view w.old) (W.view w.new) tree cache.old (λ find. keys_read find tree.eof entry)) }
{
    let mut source = TreeBlocks {
        world: w,
        cache,
        tree,
        changes: 0,
    };
    keys_in(alloc, entry, &mut source)
}

/// The data of the node of an entry and of its subnodes, with the ids of the blocks.
pub(crate) fn read_content<W: Outside>(
    alloc: Global,
    w: &mut W,
    cache: &mut PageCache,
    tree: FileTree,
    entry: NodeEntry,
) -> Result<Old, MemOr<TreeStop>>
    ensures asks { AsksBlocks (W.view w.old) (W.view w.new) tree tree cache.old cache.new }
    ensures reads { IfOk result (λ old. (find : ℕ → Option (List ℕ)) → TellsBlocks (W.view w.old) tree cache.old find → content_read find tree.eof entry ≡ Ok (content_of old)) }
    ensures stops { IfErr result (λ stop. StopsReading stop (W.view w.old) (W.view w.new) tree cache.old (λ find. content_read find tree.eof entry)) }
{
    let mut source = TreeBlocks {
        world: w,
        cache,
        tree,
        changes: 0,
    };
    content_in(alloc, entry, &mut source)
}
