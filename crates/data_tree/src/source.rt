//! Where blocks come from, and why a reading of a tree of blocks stops.
ghost use Rattle.std.specs.Prelude.{◌≡◌, ℕ, List, Option, IfOk, IfErr};
ghost use Rattle.pst_base.specs.Ids.{key_of};
ghost use Rattle.data_tree.specs.Source.{Source, Later, SourceStops, size_in};
ghost use Rattle.data_tree.specs.Stops.{Reads};
ghost use Rattle.data_tree.specs.Tree.{fetched};

use pst_base::{Bid, Bytes, MemOr, SourceStop};
use std::alloc::Global;

/// A source of blocks' data.
pub trait BlockSource {
    /// What contracts see of it: the blocks that it tells, its two counts, and the file's length.
    ghost view: { Self → Source Self };

    /// The data of the block with this id, of which bit 0 doesn't count; `None` where there is no such block. `Failed` comes where the device failed, `Changed` where something isn't as the source found it before.
    fn block(&mut self, alloc: Global, bid: Bid) -> Result<Option<Bytes>, MemOr<SourceStop>>
        ensures later { Later (view self.old) (view self.new) }
        ensures found { IfOk result (λ found. (find : ℕ → Option (List ℕ)) → (view self.old).holds find → found ≡ find (key_of bid.bits)) }
        ensures stopped { IfErr result (SourceStops (view self.old) (view self.new)) };

    /// The file's length.
    fn limit(&self) -> u64
        ensures { result ≡ (view self.now).eof };
}

/// A source that knows how long its blocks are without a reading.
pub trait BlockSizes: BlockSource {
    /// How many bytes of data the block with this id has, of which bit 0 doesn't count; `None` where there is no such block.
    fn size(&self, bid: Bid) -> Option<u64>
        ensures { (find : ℕ → Option (List ℕ)) → (Self.view self.now).holds find → result ≡ size_in find bid };
}

/// Why a reading of a tree of blocks stopped.
#[derive(Clone, Copy, Debug, PartialEq, Eq)]
pub enum TreeStop {
    /// There is no block with an id that is named.
    Missing { bid: Bid },
    /// A block that names others isn't of its layout, or names one that may not stand there.
    Form { bid: Bid },
    /// A data tree is longer than the file.
    Long,
    /// A subnode stands below level 8.
    Deep,
    /// A node has more subnodes than the file has room for.
    Many,
    /// The source gave no block.
    Source(SourceStop),
}

/// The data of a block that is named: `Missing` where there is none.
pub fn fetch<S: BlockSource>(alloc: Global, bid: Bid, s: &mut S) -> Result<Bytes, MemOr<TreeStop>>
    ensures later { Later (S.view s.old) (S.view s.new) }
    ensures reads { Reads (λ block. block) (S.view s.old) (S.view s.new) (λ find. fetched find bid) result }
{
    match s.block(alloc, bid) {
        Ok(Some(block)) => Ok(block),
        Ok(None) => Err(MemOr::Refused(TreeStop::Missing { bid })),
        Err(MemOr::Memory) => Err(MemOr::Memory),
        Err(MemOr::Refused(stop)) => Err(MemOr::Refused(TreeStop::Source(stop))),
    }
}
